//! The bit of a tuple of terms in a relation's table.
ghost use Rattle.std.specs.Prelude.{◌≡◌, ◌<◌, ◌≤◌, [], length, drop, slice_index_or};
ghost use Rattle.dai_picture.specs.Pictures.{bit_at};
ghost use Rattle.dai_ground.specs.Atoms.{columns_of, IsLookup, IsLookedUp};
ghost use Rattle.dai_ground.specs.Findings.{Finds};

use crate::candidates::Candidate;
use dai_base::Spent;
use dai_circuit::{Bit, Circuit};
use std::alloc::Global;

/// A table over slots, and columns of candidates for its tuples.
#[derive(Drop)]
pub(crate) struct Lookup<'a> {
    pub alloc: Global,
    pub slots: &'a [u16],
    pub sorts: &'a [u8],
    pub table: &'a [Bit],
    pub columns: &'a [Vec<Candidate>],
}

/// The column of this number.
fn column_at(columns: &[Vec<Candidate>], number: usize) -> &[Candidate]
    requires { number < length columns.now }
    ensures { result.now ≡ slice_index_or (columns_of columns.now) number [] }
{
    &columns[number]
}

/// The bit at the place of the table.
fn bit_of(table: &[Bit], place: usize) -> Bit
    requires { place < length table.now }
    ensures { result ≡ bit_at table.now place }
{
    table[place]
}

/// The bit of the tuple that begins with `number` elements, whose place among as many is `first`, and goes on
/// with what the other columns stand for.
pub(crate) fn look_up(
    circuit: &mut Circuit,
    lookup: &Lookup,
    number: usize,
    first: usize,
) -> Result<Bit, Spent>
    requires number { number ≤ length lookup.now.columns.now }
    requires lookup { IsLookup circuit.old.vars lookup.now.slots.now (drop number lookup.now.sorts.now) lookup.now.table.now (drop number (columns_of lookup.now.columns.now)) first }
    ensures { Finds (IsLookedUp lookup.now.slots.now (drop number lookup.now.sorts.now) lookup.now.table.now (drop number (columns_of lookup.now.columns.now)) first) circuit.old circuit.new result }
{
    if number == lookup.columns.len() {
        return Ok(bit_of(lookup.table, first));
    }
    let size = lookup.slots[lookup.sorts[number] as usize] as usize;
    let column = column_at(lookup.columns, number);
    let mut parts = Vec::new(lookup.alloc);
    for candidate in column {
        let place = first * size + candidate.slot;
        let found = look_up(circuit, lookup, number + 1, place)?;
        parts.push(circuit.all(&[candidate.bit, found])?)?;
    }
    circuit.any(parts.as_slice())
}
