//! A judge that counts what it is asked.
ghost use Rattle.std.specs.Prelude.{◌≡◌};

use dai_base::Spent;
use dai_logic::{Formula, Protocol};
use dai_template::{Clause, Space};
use dai_weaken::{Counterexample, Judge};

/// It answers as the judge does, and `Spent` too where there were 2^64 questions.
#[derive(Drop)]
pub struct Counted<J> {
    pub judge: J,
    /// How often premises were prepared, which is once in each round.
    pub rounds: u64,
    /// How many questions were asked.
    pub questions: u64,
}

impl<J> Counted<J> {
    /// Nothing was asked yet.
    pub fn new(judge: J) -> Counted<J>
        ensures { result.judge ≡ judge }
    {
        Counted {
            judge,
            rounds: 0,
            questions: 0,
        }
    }
}

impl<J: Judge> Judge for Counted<J> {
    type Premises = J::Premises;

    ghost class = { λ counted. J.class counted.judge };

    ghost judges = { λ counted P. J.judges counted.judge P };

    ghost prepared = { λ counted premises P I. J.prepared counted.judge premises P I };

    fn prepare(
        &mut self,
        protocol: &Protocol,
        space: &Space,
        clauses: &[Clause],
    ) -> Result<J::Premises, Spent> {
        self.rounds = self.rounds.checked_add(1).ok_or(Spent)?;
        self.judge.prepare(protocol, space, clauses)
    }

    fn initiation(
        &mut self,
        protocol: &Protocol,
        space: &Space,
        goal: &Clause,
    ) -> Result<Option<Counterexample>, Spent> {
        self.questions = self.questions.checked_add(1).ok_or(Spent)?;
        self.judge.initiation(protocol, space, goal)
    }

    fn consecution(
        &mut self,
        protocol: &Protocol,
        space: &Space,
        premises: &J::Premises,
        action: u8,
        goal: &Clause,
    ) -> Result<Option<Counterexample>, Spent> {
        self.questions = self.questions.checked_add(1).ok_or(Spent)?;
        self.judge
            .consecution(protocol, space, premises, action, goal)
    }

    fn entailed(
        &mut self,
        protocol: &Protocol,
        premises: &J::Premises,
        formula: &Formula,
    ) -> Result<bool, Spent> {
        self.questions = self.questions.checked_add(1).ok_or(Spent)?;
        self.judge.entailed(protocol, premises, formula)
    }
}
