//! The counts that are held against the limits.
ghost use Rattle.std.specs.Prelude.{◌≡◌, ◌≤◌, length, vec_len, None, Some, IfOk, IfErr};
ghost use Rattle.std.specs.List.{All};
ghost use Rattle.dai_logic.specs.Protocols.{protocol_of};
ghost use Rattle.dai_model.specs.Sizes.{size_bounds};
ghost use Rattle.dai_template.specs.Spaces.{IsSpaceOf};
ghost use Rattle.dai_top.specs.Limits.{limit_fault};
ghost use Rattle.dai_top.specs.Stops.{IsFaultThat, stop_at, space_stop};

use crate::stop::Stop;
use dai_base::{Fault, LimitKind, Spent};
use dai_logic::Protocol;
use dai_query::{bounds, ground, moves};
use dai_template::{Space, SpaceError};
use std::alloc::Global;

/// The most ground atoms, and the most moves of a step.
const MOST_GROUND: u128 = 50_000;

const MOST_MOVES: u128 = 65_536;

/// The space of the bounds, and the sizes that questions need. `Fault` is the first count above its limit.
pub fn within_limits(
    alloc: Global,
    protocol: &Protocol,
    vars: &[u8],
    lits: u8,
    size: u16,
) -> Result<(Space, Vec<u16>), Stop>
    requires each { length vars.now ≡ vec_len protocol.now.sorts }
    requires variables { All (λ bound. bound ≤ 4) vars.now }
    requires literals { lits ≤ 8 }
    requires size { size ≤ 6 }
    ensures space { IfOk result (λ r. IsSpaceOf (protocol_of protocol.now) (record { variables = vars.now; literals = lits }) r.0) }
    ensures sizes { IfOk result (λ r. r.1.items ≡ size_bounds (protocol_of protocol.now) vars.now) }
    ensures long { IfOk result (λ r. length r.1.items ≡ vec_len protocol.now.sorts) }
    ensures within { IfOk result (λ _. limit_fault (protocol_of protocol.now) (record { variables = vars.now; literals = lits }) size ≡ None) }
    ensures refused { IfErr result (IsFaultThat (λ f. limit_fault (protocol_of protocol.now) (record { variables = vars.now; literals = lits }) size ≡ Some f)) }
{
    let space = match Space::new(alloc, protocol, vars, lits) {
        Ok(space) => space,
        Err(error) => return Err(no_space(error)),
    };
    let sizes = sizes(alloc, protocol, vars)?;
    let count = ground(protocol, &sizes, size);
    if count > MOST_GROUND {
        return Err(past(41, LimitKind::Ground, count));
    }
    let count = moves(protocol, size as u8);
    if count > MOST_MOVES {
        return Err(past(43, LimitKind::Moves, count));
    }
    Ok((space, sizes))
}

/// The sizes that questions need, one for each type.
fn sizes(alloc: Global, protocol: &Protocol, vars: &[u8]) -> Result<Vec<u16>, Spent>
    requires { length vars.now ≡ vec_len protocol.now.sorts }
    ensures sizes { IfOk result (λ sizes. sizes.items ≡ size_bounds (protocol_of protocol.now) vars.now) }
    ensures long { IfOk result (λ sizes. length sizes.items ≡ vec_len protocol.now.sorts) }
{
    Ok(bounds(alloc, protocol, vars)?)
}

fn past(number: u8, kind: LimitKind, count: u128) -> Stop
    ensures { result ≡ stop_at number kind count }
{
    Stop::Fault(Fault::Limit {
        number,
        kind,
        count,
    })
}

/// The refusal of bounds whose space is past a limit.
fn no_space(error: SpaceError) -> Stop
    ensures { result ≡ space_stop error }
{
    match error {
        SpaceError::Atoms { count } => past(40, LimitKind::Atoms, u128::from(count)),
        SpaceError::Templates { count } => past(40, LimitKind::Templates, count),
        SpaceError::Spent => Stop::Spent,
    }
}
