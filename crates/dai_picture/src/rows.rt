//! Rows of new bits that are free.
ghost use Rattle.std.specs.Prelude.{◌≡◌, IfOk};
ghost use Rattle.dai_picture.specs.Pictures.{rows_of};
ghost use Rattle.dai_picture.specs.Rows.{is_known as is_known_at, IsFreeBit, IsFreeRow, AreFreeRows};

use dai_base::Spent;
use dai_circuit::{Bit, Circuit};
use std::alloc::Global;

/// Which bits of a row are known to be true.
#[derive(Clone, Copy, Debug, PartialEq, Eq)]
pub(crate) enum Known {
    Nowhere,
    First,
    Everywhere,
}

/// Whether the bit at this place of a row is known to be true.
fn is_known(known: Known, slot: usize) -> bool
    ensures { result ≡ is_known_at known slot }
{
    match known {
        Known::Nowhere => false,
        Known::First => slot == 0,
        Known::Everywhere => true,
    }
}

/// A bit that is known to be true, or that of a new variable.
fn free_bit(circuit: &mut Circuit, known: bool) -> Result<Bit, Spent>
    ensures { IfOk result (IsFreeBit circuit.old circuit.new known) }
{
    if known {
        return Ok(Bit::Known(true));
    }
    circuit.input()
}

/// A row of so many bits, each that of a new variable unless it is known to be true.
fn free_row(
    alloc: Global,
    circuit: &mut Circuit,
    many: usize,
    known: Known,
) -> Result<Vec<Bit>, Spent>
    ensures { IfOk result (λ row. IsFreeRow circuit.old circuit.new known many row.items) }
{
    let mut row = Vec::new(alloc);
    for slot in 0..many {
        let bit = free_bit(circuit, is_known(known, slot))?;
        row.push(bit)?;
    }
    Ok(row)
}

/// Such rows of these lengths.
pub(crate) fn free_rows(
    alloc: Global,
    circuit: &mut Circuit,
    lengths: &[usize],
    known: Known,
) -> Result<Vec<Vec<Bit>>, Spent>
    ensures { IfOk result (λ rows. AreFreeRows circuit.old circuit.new known lengths.now (rows_of rows)) }
{
    let mut rows = Vec::new(alloc);
    for many in lengths {
        let row = free_row(alloc, circuit, *many, known)?;
        rows.push(row)?;
    }
    Ok(rows)
}
