//! The counts of a template space.
ghost use Rattle.std.specs.Prelude.{◌≡◌, ◌++◌, map, length, vec_len, codes, IfOk, OnOk};
ghost use Rattle.std.specs.List.{flat_map, zip};
ghost use Rattle.dai_logic.specs.Parts.{sort_of};
ghost use Rattle.dai_print.specs.Counts.{count_line, bound_line, counts_lines};

use dai_base::Spent;
use dai_logic::{Protocol, SortInfo};
use std::alloc::Global;

/// How many shapes a space has, the atoms of its largest shape, its clauses, a bound on the size of each type,
/// the ground atoms at these sizes, and the moves of a step.
#[derive(Clone, Copy)]
pub struct Counts<'a> {
    pub shapes: u64,
    pub atoms: u64,
    pub templates: u128,
    pub bounds: &'a [u16],
    pub ground_atoms: u128,
    pub moves: u128,
}

/// A line for each count.
pub fn counts_text(alloc: Global, protocol: &Protocol, counts: &Counts) -> Result<Vec<u8>, Spent>
    requires { length counts.now.bounds.now ≡ vec_len protocol.now.sorts }
    ensures { let c = counts.now in
        IfOk result (λ text. text.items ≡ counts_lines (map sort_of protocol.now.sorts.items) c.shapes c.atoms c.templates c.bounds.now c.ground_atoms c.moves) }
{
    let mut text = Vec::new(alloc);
    add_count(alloc, &mut text, "types ", protocol.sorts.len() as u128)?;
    add_count(alloc, &mut text, "shapes ", u128::from(counts.shapes))?;
    add_count(alloc, &mut text, "atoms ", u128::from(counts.atoms))?;
    add_count(alloc, &mut text, "templates ", counts.templates)?;
    add_bounds(alloc, &mut text, &protocol.sorts, counts.bounds)?;
    add_count(alloc, &mut text, "ground ", counts.ground_atoms)?;
    add_count(alloc, &mut text, "moves ", counts.moves)?;
    Ok(text)
}

/// Adds the line of a count.
fn add_count(alloc: Global, text: &mut Vec<u8>, what: &str, count: u128) -> Result<(), Spent>
    ensures { OnOk result (text.new.items ≡ text.old.items ++ count_line what.now count) }
{
    let line = format!(in alloc; "{what}{count}\n")?;
    text.extend_from_slice(line.as_bytes())?;
    Ok(())
}

/// Adds a line for each type and its bound.
fn add_bounds(
    alloc: Global,
    text: &mut Vec<u8>,
    sorts: &[SortInfo],
    bounds: &[u16],
) -> Result<(), Spent>
    requires { length bounds.now ≡ length sorts.now }
    ensures { OnOk result (text.new.items ≡ text.old.items ++ flat_map bound_line (zip (map sort_of sorts.now) bounds.now)) }
{
    for (place, sort) in sorts.iter().enumerate() {
        add_bound(alloc, text, sort.name.as_bytes(), bounds[place])?;
    }
    Ok(())
}

/// Adds the line of a bound.
fn add_bound(alloc: Global, text: &mut Vec<u8>, name: &[u8], bound: u16) -> Result<(), Spent>
    ensures { OnOk result (text.new.items ≡ text.old.items ++ (codes "bound " ++ (name.now ++ count_line (codes " ") bound))) }
{
    text.extend_from_slice(b"bound ")?;
    text.extend_from_slice(name)?;
    add_count(alloc, text, " ", u128::from(bound))
}
