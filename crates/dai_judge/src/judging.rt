//! The judge's answers about clauses.
ghost use Rattle.std.specs.Prelude.{◌≡◌, map};
ghost use Rattle.dai_logic.specs.Trees.{formula_of};
ghost use Rattle.dai_judge.specs.Answers.{is_none_found};

use crate::premises::{Premises, formulas, keys, places};
use crate::recall::Question;
use crate::sized::SizedJudge;
use dai_base::Spent;
use dai_ground::asking::ask;
use dai_ground::found::Answer;
use dai_logic::{BlockId, Formula, Protocol};
use dai_template::{Clause, Space};
use dai_weaken::{Counterexample, Judge};

/// Whether nothing was found.
fn holds(answer: &Answer) -> bool
    ensures { result ≡ is_none_found answer.now }
{
    match answer {
        Answer::Holds(_) => true,
        Answer::Broken(_) => false,
    }
}

impl Judge for SizedJudge {
    ghost use Rattle.dai_model.specs.Classes.{up_to};
    ghost use Rattle.dai_judge.specs.Ready.{IsReady, ArePremisesOf};

    type Premises = Premises;

    ghost class = { λ judge. up_to judge.sizes.items };

    ghost judges = { λ judge P. IsReady P judge };

    ghost prepared = { λ judge premises P I. ArePremisesOf P I premises };

    fn prepare(
        &mut self,
        _protocol: &Protocol,
        space: &Space,
        clauses: &[Clause],
    ) -> Result<Premises, Spent> {
        let keys = keys(self.alloc, space, clauses)?;
        Ok(Premises {
            formulas: formulas(self.alloc, space, clauses)?,
            places: places(self.alloc, keys.as_slice())?,
            keys,
        })
    }

    fn initiation(
        &mut self,
        protocol: &Protocol,
        space: &Space,
        goal: &Clause,
    ) -> Result<Option<Counterexample>, Spent> {
        let question = Question {
            alloc: self.alloc,
            protocol,
            space,
            block: BlockId::Init,
            premises: &Premises::none(self.alloc),
            goal,
        };
        self.decide(&question)
    }

    fn consecution(
        &mut self,
        protocol: &Protocol,
        space: &Space,
        premises: &Premises,
        action: u8,
        goal: &Clause,
    ) -> Result<Option<Counterexample>, Spent> {
        let question = Question {
            alloc: self.alloc,
            protocol,
            space,
            block: BlockId::Act(action),
            premises,
            goal,
        };
        self.decide(&question)
    }

    fn entailed(
        &mut self,
        protocol: &Protocol,
        premises: &Premises,
        formula: &Formula,
    ) -> Result<bool, Spent> {
        let answer = ask(
            self.alloc,
            protocol,
            None,
            &premises.formulas,
            formula,
            &self.sizes,
        )?;
        Ok(holds(&answer))
    }
}
