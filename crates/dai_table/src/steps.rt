//! What a block leaves from each state.
ghost use Rattle.std.specs.Prelude.{◌≡◌, Some, length, IfOk, OnOk};
ghost use Rattle.dai_model.specs.Protocol.{Block as Meaning};
ghost use Rattle.dai_logic.specs.Protocols.{protocol_of, block_named};
ghost use Rattle.dai_table.specs.Flags.{IsTableOf};
ghost use Rattle.dai_table.specs.Steps.{AreSteps, AddsStep, AreStates, IsBlockOf, flags_in};

use crate::states::{flags_of, structure};
use dai_base::Spent;
use dai_logic::{BlockId, Protocol, exec};
use std::alloc::Global;

/// A step by a block: the number of the state before, and the flags of the state after.
#[derive(Drop)]
pub struct Step {
    pub from: usize,
    pub after: Vec<bool>,
}

/// The steps by the block from these states, in order. A block of flags has no parameters and no locals, so it leaves
/// one state from each, or none.
pub fn steps_by(
    alloc: Global,
    protocol: &Protocol,
    block: BlockId,
    states: &[Vec<bool>],
) -> Result<Vec<Step>, Spent>
    requires table { IsTableOf (protocol_of protocol.now) }
    requires block { IsBlockOf (protocol_of protocol.now) block }
    requires states { AreStates (protocol_of protocol.now) (flags_in states.now) }
    ensures { IfOk result (λ steps. (b : Meaning) → block_named (protocol_of protocol.now) block ≡ Some b → AreSteps (protocol_of protocol.now) b (flags_in states.now) (length states.now) steps.items) }
{
    let mut steps = Vec::new(alloc);
    for (from, before) in states.iter().enumerate() {
        add_step(alloc, protocol, block, from, before, &mut steps)?;
    }
    Ok(steps)
}

/// Adds the step from this state, if the block leaves one.
fn add_step(
    alloc: Global,
    protocol: &Protocol,
    block: BlockId,
    from: usize,
    before: &[bool],
    steps: &mut Vec<Step>,
) -> Result<(), Spent>
    requires table { IsTableOf (protocol_of protocol.now) }
    requires block { IsBlockOf (protocol_of protocol.now) block }
    requires state { length before.now ≡ length (protocol_of protocol.now).relations }
    ensures { OnOk result ((b : Meaning) → block_named (protocol_of protocol.now) block ≡ Some b → AddsStep (protocol_of protocol.now) b from before.now steps.old.items steps.new.items) }
{
    let s = structure(alloc, before)?;
    let Some(t) = exec(alloc, protocol, block, &s, &[], &[])? else {
        return Ok(());
    };
    let after = flags_of(alloc, &t)?;
    steps.push(Step { from, after })?;
    Ok(())
}
