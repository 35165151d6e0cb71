//! The table: the states that meet the axioms, and the steps from them.
ghost use Rattle.std.specs.Prelude.{◌≡◌, ◌<◌, ◌↔◌, IsTrue, length, map, IfOk, OnOk};
ghost use Rattle.dai_model.specs.Value.{Satisfies, SatisfiesAxioms};
ghost use Rattle.dai_model.specs.WellSorted.{IsWellSorted, closed_scope};
ghost use Rattle.dai_logic.specs.Protocols.{protocol_of};
ghost use Rattle.dai_logic.specs.Tables.{structure_of};
ghost use Rattle.dai_logic.specs.Trees.{formula_of};
ghost use Rattle.dai_table.specs.Flags.{IsFlags, IsTableOf, state};
ghost use Rattle.dai_table.specs.Steps.{AreStates, AreStatesOf, AddsState, AreActionSteps, IsTable, flags_in, lists_in};

use crate::states::{structure, valuations};
use crate::steps::{Step, steps_by};
use dai_base::Spent;
use dai_logic::{BlockId, Formula, Protocol, Structure, env, eval};
use std::alloc::Global;

/// The most flags of a table.
pub const MOST_FLAGS: usize = 10;

/// The states of a protocol of flags that meet its axioms, and the steps from them: by init, and by each action.
#[derive(Drop)]
pub struct TruthTable {
    pub(crate) alloc: Global,
    pub(crate) states: Vec<Vec<bool>>,
    pub(crate) init: Vec<Step>,
    pub(crate) actions: Vec<Vec<Step>>,
}

impl TruthTable {
    /// The table of a protocol that declares no type and at most ten relations.
    pub fn new(alloc: Global, protocol: &Protocol) -> Result<TruthTable, Spent>
        requires { IsTableOf (protocol_of protocol.now) }
        ensures { IfOk result (λ t. IsTable (protocol_of protocol.now) (flags_in t.states.items) t.init.items (lists_in t.actions.items)) }
    {
        let states = states_of(alloc, protocol)?;
        let init = steps_by(alloc, protocol, BlockId::Init, &states)?;
        let actions = action_steps(alloc, protocol, &states)?;
        Ok(TruthTable {
            alloc,
            states,
            init,
            actions,
        })
    }
}

/// The states that meet the axioms.
fn states_of(alloc: Global, protocol: &Protocol) -> Result<Vec<Vec<bool>>, Spent>
    requires { IsTableOf (protocol_of protocol.now) }
    ensures { IfOk result (λ states. AreStatesOf (protocol_of protocol.now) (flags_in states.items)) }
{
    let all = valuations(alloc, protocol.relations.len())?;
    let mut states = Vec::new(alloc);
    for flags in &all {
        add_state(alloc, protocol, flags, &mut states)?;
    }
    Ok(states)
}

/// Adds the state, if it meets the axioms.
fn add_state(
    alloc: Global,
    protocol: &Protocol,
    flags: &[bool],
    states: &mut Vec<Vec<bool>>,
) -> Result<(), Spent>
    requires table { IsTableOf (protocol_of protocol.now) }
    requires long { length flags.now ≡ length (protocol_of protocol.now).relations }
    ensures { OnOk result (AddsState (protocol_of protocol.now) flags.now (flags_in states.old.items) (flags_in states.new.items)) }
{
    let s = structure(alloc, flags)?;
    if !holds_each(alloc, protocol, &s)? {
        return Ok(());
    }
    let mut own = Vec::new(alloc);
    own.extend_from_slice(flags)?;
    states.push(own)?;
    Ok(())
}

/// The steps by each action.
fn action_steps(
    alloc: Global,
    protocol: &Protocol,
    states: &[Vec<bool>],
) -> Result<Vec<Vec<Step>>, Spent>
    requires table { IsTableOf (protocol_of protocol.now) }
    requires states { AreStates (protocol_of protocol.now) (flags_in states.now) }
    ensures { IfOk result (λ actions. AreActionSteps (protocol_of protocol.now) (flags_in states.now) (length (protocol_of protocol.now).actions) (lists_in actions.items)) }
{
    let mut actions = Vec::new(alloc);
    for number in 0..protocol.actions.len() {
        let steps = steps_by(alloc, protocol, BlockId::Act(number as u8), states)?;
        actions.push(steps)?;
    }
    Ok(actions)
}

/// Whether the structure meets each axiom.
fn holds_each(alloc: Global, protocol: &Protocol, s: &Structure) -> Result<bool, Spent>
    requires { IsFlags (protocol_of protocol.now) s.now }
    ensures { IfOk result (λ holds. IsTrue holds ↔ SatisfiesAxioms (protocol_of protocol.now) (structure_of (protocol_of protocol.now) s.now)) }
{
    for axiom in &protocol.axioms {
        if !holds(alloc, protocol, axiom, s)? {
            return Ok(false);
        }
    }
    Ok(true)
}

/// Whether the closed formula is true.
pub(crate) fn holds(
    alloc: Global,
    protocol: &Protocol,
    formula: &Formula,
    s: &Structure,
) -> Result<bool, Spent>
    requires flags { IsFlags (protocol_of protocol.now) s.now }
    requires closed { IsWellSorted (protocol_of protocol.now) closed_scope (formula_of formula.now) }
    ensures { IfOk result (λ holds. IsTrue holds ↔ Satisfies (structure_of (protocol_of protocol.now) s.now) (formula_of formula.now)) }
{
    let mut env = env(alloc, &[], &[])?;
    Ok(eval(protocol, formula, s, &mut env))
}
