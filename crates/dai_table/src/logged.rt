//! A judge that writes down what it is asked.
use crate::judging::Premises;
use crate::table::TruthTable;
use dai_base::Spent;
use dai_logic::{Formula, Protocol};
use dai_template::{Clause, Space};
use dai_weaken::{Counterexample, Judge};

/// It answers as the table does. Its log has a bar for each round, and a letter for each question: `i` for one about
/// initial states, `c` for one about a step, `e` for one about an invariant.
#[derive(Drop)]
pub struct Logged {
    pub table: TruthTable,
    pub log: Vec<u8>,
}

impl Judge for Logged {
    ghost use Rattle.dai_model.specs.Classes.{all_sizes};
    ghost use Rattle.dai_table.specs.Steps.{flags_in};
    ghost use Rattle.dai_table.specs.Answers.{IsTableFor, ArePreparedFor};

    type Premises = Premises;

    ghost class = { λ logged. all_sizes };

    ghost judges = { λ logged P. IsTableFor P logged.table };

    ghost prepared = { λ logged premises P I. ArePreparedFor P (flags_in logged.table.states.items) premises.met.items I };

    fn prepare(
        &mut self,
        protocol: &Protocol,
        space: &Space,
        clauses: &[Clause],
    ) -> Result<Premises, Spent> {
        self.log.push(b'|')?;
        self.table.prepare(protocol, space, clauses)
    }

    fn initiation(
        &mut self,
        protocol: &Protocol,
        space: &Space,
        goal: &Clause,
    ) -> Result<Option<Counterexample>, Spent> {
        self.log.push(b'i')?;
        self.table.initiation(protocol, space, goal)
    }

    fn consecution(
        &mut self,
        protocol: &Protocol,
        space: &Space,
        premises: &Premises,
        action: u8,
        goal: &Clause,
    ) -> Result<Option<Counterexample>, Spent> {
        self.log.push(b'c')?;
        self.table
            .consecution(protocol, space, premises, action, goal)
    }

    fn entailed(
        &mut self,
        protocol: &Protocol,
        premises: &Premises,
        formula: &Formula,
    ) -> Result<bool, Spent> {
        self.log.push(b'e')?;
        self.table.entailed(protocol, premises, formula)
    }
}
