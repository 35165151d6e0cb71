//! The numbers that are held against the limits.
ghost use Rattle.std.specs.Prelude.{◌≡◌, ◌≤◌, ◌<◌, ◌+◌, ◌*◌, ◌^◌, length, max, map, vec_len, slice_index, sum_by};
ghost use Rattle.std.specs.List.{All};
ghost use Rattle.dai_model.specs.Limits.{product, tuples_at, ground_count, move_count};
ghost use Rattle.dai_logic.specs.Protocols.{protocol_of};
ghost use Rattle.dai_model.specs.Protocol.{Individual};

use dai_logic::Protocol;

/// How many tuples all relations have, and for how many elements individuals may stand, where each type has the
/// size of its bound, or this size where that is greater. `bounds` has one number for each type.
pub fn ground(protocol: &Protocol, bounds: &[u16], size: u16) -> u128
    requires { length bounds.now ≡ vec_len protocol.now.sorts }
    ensures { result ≡ ground_count (protocol_of protocol.now) (map (λ n. max n size) bounds.now) }
{
    tuples_of_all(protocol, bounds, size) + elements_of_all(protocol, bounds, size)
}

/// How many tuples all relations have.
fn tuples_of_all(protocol: &Protocol, bounds: &[u16], size: u16) -> u128
    requires { length bounds.now ≡ vec_len protocol.now.sorts }
    ensures count { result ≡ sum_by (tuples_at (map (λ n. max n size) bounds.now)) (protocol_of protocol.now).relations }
    ensures fits { result ≤ 64 * 2 ^ 80 }
{
    let mut total = 0;
    for relation in &protocol.relations {
        total += tuples(&relation.args, bounds, size);
    }
    total
}

/// How many elements individuals may stand for.
fn elements_of_all(protocol: &Protocol, bounds: &[u16], size: u16) -> u128
    requires { length bounds.now ≡ vec_len protocol.now.sorts }
    ensures count { result ≡ sum_by (λ (I : Individual). slice_index (map (λ n. max n size) bounds.now) I.sort) (protocol_of protocol.now).individuals }
    ensures fits { result ≤ 16 * 2 ^ 16 }
{
    let mut total = 0;
    for individual in &protocol.individuals {
        total += size_at(bounds, size, individual.sort);
    }
    total
}

/// The size of the type.
fn size_at(bounds: &[u16], size: u16, sort: u8) -> u128
    requires { sort < length bounds.now }
    ensures is { result ≡ slice_index (map (λ n. max n size) bounds.now) sort }
    ensures fits { result < 2 ^ 16 }
{
    u128::from(bounds[usize::from(sort)].max(size))
}

/// How many tuples there are of these types.
fn tuples(sorts: &[u8], bounds: &[u16], size: u16) -> u128
    requires few { length sorts.now ≤ 5 }
    requires inside { All (λ sort. sort < length bounds.now) sorts.now }
    ensures count { result ≡ product (map (slice_index (map (λ n. max n size) bounds.now)) sorts.now) }
    ensures fits { result ≤ 2 ^ 80 }
{
    let mut total: u128 = 1;
    for sort in sorts {
        total *= size_at(bounds, size, *sort);
    }
    total
}

/// How many moves there are where each type has this size: for each exported action the ways to choose its
/// arguments and choices.
pub fn moves(protocol: &Protocol, size: u8) -> u128
    ensures { result ≡ move_count (protocol_of protocol.now) size }
{
    let mut total = 0;
    for action in &protocol.actions {
        total += ways(size, action.block.params.len() + action.block.locals.len());
    }
    total
}

/// The ways to choose so many elements.
fn ways(size: u8, count: usize) -> u128
    requires { count ≤ 12 }
    ensures is { result ≡ size ^ count }
    ensures fits { result ≤ 2 ^ 96 }
{
    u128::from(size).pow(count as u32)
}
