//! From a structure that is shown to what answers a question.
ghost use Rattle.std.specs.Prelude.{◌≡◌, [], length, map, Some, IfOk};
ghost use Rattle.std.specs.List.{All};
ghost use Rattle.dai_model.specs.Value.{value_of, empty_environment};
ghost use Rattle.dai_model.specs.WellSorted.{IsWellSorted, closed_scope};
ghost use Rattle.dai_logic.specs.Protocols.{protocol_of};
ghost use Rattle.dai_logic.specs.Tables.{structure_of, Fits};
ghost use Rattle.dai_logic.specs.Trees.{formula_of};
ghost use Rattle.dai_ground.specs.Asking.{IsKnown, block_asked, outcome_of};
ghost use Rattle.dai_ground.specs.Turns.{IsFirstUnmet, IsCaller, IsFoundFrom, world_decoded};

use crate::found::Found;
use dai_base::Spent;
use dai_logic::{BlockId, Formula, Protocol, Structure, copy, env, eval, exec};
use dai_picture::decode::Decoded;
use std::alloc::Global;

/// The number of a closed formula that is false in the structure; `None` where all are true.
pub fn first_unmet(
    alloc: Global,
    protocol: &Protocol,
    formulas: &[Formula],
    s: &Structure,
) -> Result<Option<usize>, Spent>
    requires fits { Fits (protocol_of protocol.now) s.now }
    requires closed { All (IsWellSorted (protocol_of protocol.now) closed_scope) (map formula_of formulas.now) }
    ensures { IfOk result (IsFirstUnmet (structure_of (protocol_of protocol.now) s.now) (map formula_of formulas.now)) }
{
    let mut env = env(alloc, &[], &[])?;
    for (number, formula) in formulas.iter().enumerate() {
        if !eval(protocol, formula, s, &mut env) {
            return Ok(Some(number));
        }
    }
    Ok(None)
}

/// Whether the closed formula is true in the structure.
pub(crate) fn is_true(
    alloc: Global,
    protocol: &Protocol,
    formula: &Formula,
    s: &Structure,
) -> Result<bool, Spent>
    requires fits { Fits (protocol_of protocol.now) s.now }
    requires closed { IsWellSorted (protocol_of protocol.now) closed_scope (formula_of formula.now) }
    ensures { IfOk result (λ value. value_of (structure_of (protocol_of protocol.now) s.now) empty_environment (formula_of formula.now) ≡ value) }
{
    let mut env = env(alloc, &[], &[])?;
    let value = eval(protocol, formula, s, &mut env);
    Ok(value)
}

/// What the block leaves, which leaves a structure; without a block, the structure itself.
fn left(
    alloc: Global,
    protocol: &Protocol,
    block: Option<BlockId>,
    decoded: &Decoded,
) -> Result<Structure, Spent>
    requires fits { Fits (protocol_of protocol.now) decoded.now.structure }
    requires known { IsKnown (protocol_of protocol.now) block }
    requires caller { IsCaller (protocol_of protocol.now) block decoded.now }
    ensures fits { IfOk result (Fits (protocol_of protocol.now)) }
    ensures left { IfOk result (λ t. outcome_of (protocol_of protocol.now) (block_asked (protocol_of protocol.now) block) (world_decoded (protocol_of protocol.now) decoded.now) ≡ Some (structure_of (protocol_of protocol.now) t)) }
{
    let Some(called) = block else {
        return copy(alloc, &decoded.structure);
    };
    let after = exec(
        alloc,
        protocol,
        called,
        &decoded.structure,
        decoded.args.as_slice(),
        decoded.choices.as_slice(),
    )?;
    match after {
        Some(after) => Ok(after),
        None => unreachable!(),
    }
}

/// What the decoded structure with its arguments and choices answers.
pub fn found(
    alloc: Global,
    protocol: &Protocol,
    block: Option<BlockId>,
    decoded: Decoded,
) -> Result<Found, Spent>
    requires fits { Fits (protocol_of protocol.now) decoded.structure }
    requires known { IsKnown (protocol_of protocol.now) block }
    requires caller { IsCaller (protocol_of protocol.now) block decoded }
    ensures { IfOk result (IsFoundFrom (protocol_of protocol.now) (block_asked (protocol_of protocol.now) block) decoded) }
{
    let after = left(alloc, protocol, block, &decoded)?;
    let Decoded {
        structure,
        args,
        choices,
    } = decoded;
    Ok(Found {
        before: structure,
        args,
        choices,
        after,
    })
}
