//! The variables of a shape, and how they are kept apart.
ghost use Rattle.std.specs.Prelude.{◌≡◌, ◌≤◌, ℕ, List, ◌++◌, map, length, slice_index, codes, IfOk, OnOk};
ghost use Rattle.std.specs.List.{flat_map};
ghost use Rattle.dai_model.specs.Clause.{Variable, numbers_below, variables_of as variables_of_sort};
ghost use Rattle.dai_model.specs.Report.{binder_text as binder_text_of, variable_text as variable_text_of, unequal_guards, increasing_guards, guards_of_sort};
ghost use Rattle.dai_logic.specs.Protocols.{protocol_of};
ghost use Rattle.dai_template.specs.Atoms.{variable_of, lists_of};

use crate::names::{binder_text, is_ordered, variable_text};
use dai_base::Spent;
use dai_logic::Protocol;
use std::alloc::Global;

/// So many variables of the type.
fn variables_of(alloc: Global, sort: u8, count: u8) -> Result<Vec<(u8, u8)>, Spent>
    ensures { IfOk result (λ vars. map variable_of vars.items ≡ map (λ n. variable_of (sort, n)) (numbers_below count)) }
{
    let mut vars = Vec::with_capacity(alloc, usize::from(count))?;
    for number in 0..count {
        vars.push((sort, number))?;
    }
    Ok(vars)
}

/// Each variable of the shape with its type, in order.
pub fn binders(alloc: Global, protocol: &Protocol, counts: &[u8]) -> Result<Vec<Vec<u8>>, Spent>
    requires { length counts.now ≤ 255 }
    ensures { IfOk result (λ pieces. lists_of pieces.items ≡ map (binder_text_of (protocol_of protocol.now)) (flat_map (variables_of_sort counts.now) (numbers_below (length counts.now)))) }
{
    let mut pieces = Vec::new(alloc);
    for (sort, count) in counts.iter().enumerate() {
        add_binders(alloc, protocol, sort as u8, *count, &mut pieces)?;
    }
    Ok(pieces)
}

/// Adds the variables of the type with it.
fn add_binders(
    alloc: Global,
    protocol: &Protocol,
    sort: u8,
    count: u8,
    pieces: &mut Vec<Vec<u8>>,
) -> Result<(), Spent>
    ensures { OnOk result (lists_of pieces.new.items ≡ lists_of pieces.old.items ++ map (λ n. binder_text_of (protocol_of protocol.now) (variable_of (sort, n))) (numbers_below count)) }
{
    for number in 0..count {
        pieces.push(binder_text(alloc, protocol, (sort, number))?)?;
    }
    Ok(())
}

/// What keeps the variables of the shape apart: for each type in order its guards.
pub fn guards(alloc: Global, protocol: &Protocol, counts: &[u8]) -> Result<Vec<Vec<u8>>, Spent>
    requires { length counts.now ≤ 255 }
    ensures { IfOk result (λ pieces. lists_of pieces.items ≡ flat_map (guards_of_sort (protocol_of protocol.now) counts.now) (numbers_below (length counts.now))) }
{
    let mut pieces = Vec::new(alloc);
    for (sort, count) in counts.iter().enumerate() {
        add_guards(alloc, protocol, sort as u8, *count, &mut pieces)?;
    }
    Ok(pieces)
}

/// Adds the guards of the type: `<` between neighbours where it is ordered, else `~=` between each two.
fn add_guards(
    alloc: Global,
    protocol: &Protocol,
    sort: u8,
    count: u8,
    pieces: &mut Vec<Vec<u8>>,
) -> Result<(), Spent>
    ensures { (counts : List ℕ) → slice_index counts sort ≡ count → OnOk result (lists_of pieces.new.items ≡ lists_of pieces.old.items ++ guards_of_sort (protocol_of protocol.now) counts sort) }
{
    let vars = variables_of(alloc, sort, count)?;
    if is_ordered(protocol, sort) {
        add_increasing(alloc, protocol, &vars, pieces)
    } else {
        add_unequal(alloc, protocol, &vars, pieces)
    }
}

/// Adds that each variable is below the next one.
fn add_increasing(
    alloc: Global,
    protocol: &Protocol,
    vars: &[(u8, u8)],
    pieces: &mut Vec<Vec<u8>>,
) -> Result<(), Spent>
    ensures { OnOk result (lists_of pieces.new.items ≡ lists_of pieces.old.items ++ increasing_guards (protocol_of protocol.now) (map variable_of vars.now)) }
{
    for next in 1..vars.len() {
        pieces.push(guard(alloc, protocol, vars[next - 1], b" < ", vars[next])?)?;
    }
    Ok(())
}

/// Adds that each variable is another one than each later one.
fn add_unequal(
    alloc: Global,
    protocol: &Protocol,
    vars: &[(u8, u8)],
    pieces: &mut Vec<Vec<u8>>,
) -> Result<(), Spent>
    ensures { OnOk result (lists_of pieces.new.items ≡ lists_of pieces.old.items ++ unequal_guards (protocol_of protocol.now) (map variable_of vars.now)) }
{
    for first in 0..vars.len() {
        add_unequal_to(alloc, protocol, vars[first], &vars[first + 1..], pieces)?;
    }
    Ok(())
}

/// Adds that the variable is another one than each of the others.
fn add_unequal_to(
    alloc: Global,
    protocol: &Protocol,
    var: (u8, u8),
    others: &[(u8, u8)],
    pieces: &mut Vec<Vec<u8>>,
) -> Result<(), Spent>
    ensures { OnOk result (lists_of pieces.new.items ≡ lists_of pieces.old.items ++ map (λ (w : Variable). variable_text_of (protocol_of protocol.now) (variable_of var) ++ (codes " ~= " ++ variable_text_of (protocol_of protocol.now) w)) (map variable_of others.now)) }
{
    for other in others {
        pieces.push(guard(alloc, protocol, var, b" ~= ", *other)?)?;
    }
    Ok(())
}

/// The two variables with the sign between them.
fn guard(
    alloc: Global,
    protocol: &Protocol,
    left: (u8, u8),
    sign: &[u8],
    right: (u8, u8),
) -> Result<Vec<u8>, Spent>
    ensures { IfOk result (λ text. text.items ≡ variable_text_of (protocol_of protocol.now) (variable_of left) ++ (sign.now ++ variable_text_of (protocol_of protocol.now) (variable_of right))) }
{
    let mut text = variable_text(alloc, protocol, left)?;
    text.extend_from_slice(sign)?;
    text.extend_from_slice(&variable_text(alloc, protocol, right)?)?;
    Ok(text)
}
