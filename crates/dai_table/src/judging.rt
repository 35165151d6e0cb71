//! The table's answers about clauses.
ghost use Rattle.std.specs.Prelude.{◌≡◌, ◌<◌, ◌↔◌, ℕ, IsTrue, true, false, length, slice_index_or, IfOk};
ghost use Rattle.std.specs.List.{All, list_any};
ghost use Rattle.dai_model.specs.Classes.{Class, all_sizes};
ghost use Rattle.dai_model.specs.Protocol.{Protocol as Meaning};
ghost use Rattle.dai_model.specs.Clause as Clauses;
ghost use Rattle.dai_model.specs.Value.{Satisfies};
ghost use Rattle.dai_model.specs.WellSorted.{IsWellSorted, closed_scope};
ghost use Rattle.dai_logic.specs.Protocols.{protocol_of};
ghost use Rattle.dai_logic.specs.Trees.{formula_of};
ghost use Rattle.dai_table.specs.Flags.{AreWithin, IsTableOf, state};
ghost use Rattle.dai_table.specs.Steps.{flags_in, state_at};
ghost use Rattle.dai_table.specs.Answers.{MeetEach, AreFrom, IsFirstBroken, IsTableFor, IsStepOf};
ghost use Rattle.dai_logic.specs.Tables.{structure_of};

use crate::states::{is_met, structure};
use crate::steps::Step;
use crate::table::{TruthTable, holds};
use dai_base::Spent;
use dai_logic::{BlockId, Formula, Protocol};
use dai_template::{Clause, Space};
use dai_weaken::{Counterexample, Judge};
use std::alloc::Global;

/// Premises: which of the states meet them.
#[derive(Drop)]
pub struct Premises {
    pub(crate) met: Vec<bool>,
}

/// Whether each clause has a literal that is true where the flags have these values.
fn meets_each(flags: &[bool], clauses: &[Clause]) -> bool
    requires { AreWithin (length flags.now) clauses.now }
    ensures { IsTrue result ↔ MeetEach flags.now clauses.now }
{
    for clause in clauses {
        if !is_met(flags, clause) {
            return false;
        }
    }
    true
}

/// Whether the formula is true in the state, if that is asked; true where it isn't.
fn satisfies_if(
    alloc: Global,
    protocol: &Protocol,
    formula: &Formula,
    asked: bool,
    flags: &[bool],
) -> Result<bool, Spent>
    requires table { IsTableOf (protocol_of protocol.now) }
    requires long { length flags.now ≡ length (protocol_of protocol.now).relations }
    requires closed { IsWellSorted (protocol_of protocol.now) closed_scope (formula_of formula.now) }
    ensures asked { IfOk result (λ holds. asked ≡ true → (IsTrue holds ↔ Satisfies (state (protocol_of protocol.now) flags.now) (formula_of formula.now))) }
    ensures other { IfOk result (λ holds. asked ≡ false → IsTrue holds) }
{
    if !asked {
        return Ok(true);
    }
    let s = structure(alloc, flags)?;
    holds(alloc, protocol, formula, &s)
}

/// Every state is met.
fn all_met(alloc: Global, count: usize) -> Result<Vec<bool>, Spent>
    ensures long { IfOk result (λ met. length met.items ≡ count) }
    ensures each { IfOk result (λ met. (k : ℕ) → k < count → slice_index_or met.items k false ≡ true) }
{
    let mut met = Vec::with_capacity(alloc, count)?;
    for _state in 0..count {
        met.push(true)?;
    }
    Ok(met)
}

/// The place of the first step from a state of those that are met, whose state after doesn't meet the clause.
fn first_broken(steps: &[Step], met: &[bool], goal: &Clause) -> Option<usize>
    requires { AreFrom steps.now (length met.now) goal.now }
    ensures { IsFirstBroken steps.now met.now goal.now result }
{
    for (place, step) in steps.iter().enumerate() {
        if met[step.from] && !is_met(&step.after, goal) {
            return Some(place);
        }
    }
    None
}

impl TruthTable {
    ghost use Rattle.dai_weaken.specs.Judging.{IsTransition};

    /// The step with its states.
    fn counterexample(
        &self,
        protocol: &Protocol,
        block: BlockId,
        step: &Step,
    ) -> Result<Counterexample, Spent>
        requires table { IsTableFor (protocol_of protocol.now) self.now }
        requires step { IsStepOf (protocol_of protocol.now) block (flags_in self.now.states.items) step.now }
        ensures block { IfOk result (λ x. x.block ≡ block) }
        ensures transition { IfOk result (λ x. IsTransition all_sizes (protocol_of protocol.now) x) }
        ensures before { IfOk result (λ x. structure_of (protocol_of protocol.now) x.before ≡ state_at (protocol_of protocol.now) (flags_in self.now.states.items) step.now.from) }
        ensures after { IfOk result (λ x. structure_of (protocol_of protocol.now) x.after ≡ state (protocol_of protocol.now) step.now.after.items) }
    {
        Ok(Counterexample {
            block,
            before: structure(self.alloc, &self.states[step.from])?,
            args: Vec::new(self.alloc),
            choices: Vec::new(self.alloc),
            after: structure(self.alloc, &step.after)?,
        })
    }
}

impl Judge for TruthTable {
    ghost use Rattle.dai_model.specs.Classes.{all_sizes};
    ghost use Rattle.dai_table.specs.Steps.{IsTable, flags_in, lists_in};
    ghost use Rattle.dai_table.specs.Answers.{IsTableFor, ArePreparedFor};

    type Premises = Premises;

    ghost class = { λ table. all_sizes };

    ghost judges = { λ table P. IsTableFor P table };

    ghost prepared = { λ table premises P I. ArePreparedFor P (flags_in table.states.items) premises.met.items I };

    fn prepare(
        &mut self,
        protocol: &Protocol,
        space: &Space,
        clauses: &[Clause],
    ) -> Result<Premises, Spent> {
        let mut met = Vec::with_capacity(self.alloc, self.states.len())?;
        for flags in &self.states {
            met.push(meets_each(flags, clauses))?;
        }
        Ok(Premises { met })
    }

    fn initiation(
        &mut self,
        protocol: &Protocol,
        space: &Space,
        goal: &Clause,
    ) -> Result<Option<Counterexample>, Spent> {
        let met = all_met(self.alloc, self.states.len())?;
        match first_broken(&self.init, &met, goal) {
            None => Ok(None),
            Some(place) => Ok(Some(self.counterexample(
                protocol,
                BlockId::Init,
                &self.init[place],
            )?)),
        }
    }

    fn consecution(
        &mut self,
        protocol: &Protocol,
        space: &Space,
        premises: &Premises,
        action: u8,
        goal: &Clause,
    ) -> Result<Option<Counterexample>, Spent> {
        let steps = &self.actions[usize::from(action)];
        match first_broken(steps, &premises.met, goal) {
            None => Ok(None),
            Some(place) => Ok(Some(self.counterexample(
                protocol,
                BlockId::Act(action),
                &steps[place],
            )?)),
        }
    }

    fn entailed(
        &mut self,
        protocol: &Protocol,
        premises: &Premises,
        formula: &Formula,
    ) -> Result<bool, Spent> {
        for (number, flags) in self.states.iter().enumerate() {
            if !satisfies_if(self.alloc, protocol, formula, premises.met[number], flags)? {
                return Ok(false);
            }
        }
        Ok(true)
    }
}
