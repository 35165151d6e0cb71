//! The shapes within bounds, in print order.
ghost use Rattle.std.specs.Prelude.{◌≡◌, ◌≤◌, ◌+◌, ◌++◌, ◌^◌, ◌<◌, map, length, sum, vec_len, IfOk, OnOk};
ghost use Rattle.std.specs.List.{All, flat_map};
ghost use Rattle.dai_model.specs.Clause.{numbers_below};
ghost use Rattle.dai_model.specs.Shapes.{counts_within as counts_of_bounds, with_sum};
ghost use Rattle.dai_logic.specs.Protocols.{protocol_of};
ghost use Rattle.dai_template.specs.Atoms.{lists_of, counts_of, IsShape};

use crate::atoms::atoms_of;
use crate::clause::Shape;
use crate::tuples::tuples_below;
use dai_base::Spent;
use dai_logic::Protocol;
use std::alloc::Global;

/// Each way to give every type a number of variables up to its bound, in lexicographic order.
pub fn counts_within(alloc: Global, vars: &[u8]) -> Result<Vec<Vec<u8>>, Spent>
    requires { All (λ bound. bound ≤ 4) vars.now }
    ensures { IfOk result (λ ways. lists_of ways.items ≡ counts_of_bounds vars.now) }
{
    let mut limits = Vec::with_capacity(alloc, vars.len())?;
    for bound in vars {
        limits.push(*bound + 1)?;
    }
    tuples_below(alloc, &limits)
}

/// The shapes with these counts, by number of variables up to the most and then in the order of the counts.
pub fn in_print_order(
    alloc: Global,
    protocol: &Protocol,
    ways: &[Vec<u8>],
    most: usize,
) -> Result<Vec<Shape>, Spent>
    requires ways { All (λ counts. length counts ≡ vec_len protocol.now.sorts) (lists_of ways.now) }
    requires few { most < 2 ^ 32 }
    ensures order { IfOk result (λ shapes. map counts_of shapes.items ≡ flat_map (with_sum (lists_of ways.now)) (numbers_below (most + 1))) }
    ensures atoms { IfOk result (λ shapes. All (IsShape (protocol_of protocol.now)) shapes.items) }
{
    let mut shapes = Vec::new(alloc);
    for variables in 0..most + 1 {
        add_with_sum(alloc, protocol, ways, variables, &mut shapes)?;
    }
    Ok(shapes)
}

/// Adds the shapes with so many variables.
fn add_with_sum(
    alloc: Global,
    protocol: &Protocol,
    ways: &[Vec<u8>],
    variables: usize,
    shapes: &mut Vec<Shape>,
) -> Result<(), Spent>
    requires { All (λ counts. length counts ≡ vec_len protocol.now.sorts) (lists_of ways.now) }
    ensures order { OnOk result (map counts_of shapes.new.items ≡ map counts_of shapes.old.items ++ with_sum (lists_of ways.now) variables) }
    ensures atoms { OnOk result (All (IsShape (protocol_of protocol.now)) shapes.old.items → All (IsShape (protocol_of protocol.now)) shapes.new.items) }
{
    for counts in ways {
        if sum_of(counts) == variables {
            shapes.push(shape_of(alloc, protocol, counts)?)?;
        }
    }
    Ok(())
}

/// The sum of the counts.
pub fn sum_of(counts: &[u8]) -> usize
    requires { length counts.now ≤ 8 }
    ensures is { result ≡ sum counts.now }
    ensures fits { result ≤ 2040 }
{
    let mut total = 0;
    for count in counts {
        total += usize::from(*count);
    }
    total
}

/// The shape with these counts.
fn shape_of(alloc: Global, protocol: &Protocol, counts: &[u8]) -> Result<Shape, Spent>
    requires { length counts.now ≡ vec_len protocol.now.sorts }
    ensures counts { IfOk result (λ shape. counts_of shape ≡ counts.now) }
    ensures atoms { IfOk result (IsShape (protocol_of protocol.now)) }
{
    Ok(Shape {
        counts: Vec::from_slice(alloc, counts)?,
        atoms: atoms_of(alloc, protocol, counts)?,
    })
}
