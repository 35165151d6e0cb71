//! Clauses that say which slots are used and that a row marks one of them.
ghost use Rattle.std.specs.Prelude.{◌≡◌, ◌<◌, true, length, OnOk};
ghost use Rattle.std.specs.List.{All};
ghost use Rattle.dai_circuit.specs.Circuits.{AreBitsBelow};
ghost use Rattle.dai_picture.specs.Pictures.{rows_of, bit_at};
ghost use Rattle.dai_picture.specs.Rules.{Constrains, IsUsedFront, AreUsedFronts, AreBegun, AreUsedBelow, IsApartFrom, AreApartBelow, MarksUsed, MarkUsed, AreOverUsed};

use dai_base::Spent;
use dai_circuit::{Bit, Circuit};

/// Adds that a slot is used only where the one before it is.
fn order(circuit: &mut Circuit, row: &[Bit]) -> Result<(), Spent>
    requires below { AreBitsBelow circuit.old.vars row.now }
    requires begun { bit_at row.now 0 ≡ Bit.Known true }
    ensures { OnOk result (Constrains circuit.old circuit.new (IsUsedFront row.now)) }
{
    for slot in 1..row.len() {
        circuit.require(&[row[slot].negation(), row[slot - 1]])?;
    }
    Ok(())
}

/// The same of each row.
pub(crate) fn order_each(circuit: &mut Circuit, rows: &Vec<Vec<Bit>>) -> Result<(), Spent>
    requires below { All (AreBitsBelow circuit.old.vars) (rows_of rows.now) }
    requires begun { AreBegun (rows_of rows.now) }
    ensures { OnOk result (Constrains circuit.old circuit.new (AreUsedFronts (rows_of rows.now))) }
{
    for k in 0..rows.len() {
        order(circuit, rows[k].as_slice())?;
    }
    Ok(())
}

/// Adds that a slot that is marked is used.
fn mark_used(circuit: &mut Circuit, used: &[Bit], row: &[Bit]) -> Result<(), Spent>
    requires used { AreBitsBelow circuit.old.vars used.now }
    requires row { AreBitsBelow circuit.old.vars row.now }
    requires long { length row.now ≡ length used.now }
    ensures { OnOk result (Constrains circuit.old circuit.new (AreUsedBelow (length row.now) used.now row.now)) }
{
    for slot in 0..row.len() {
        circuit.require(&[row[slot].negation(), used[slot]])?;
    }
    Ok(())
}

/// Adds that where this slot is marked those before it aren't.
fn mark_apart_from(circuit: &mut Circuit, row: &[Bit], slot: usize) -> Result<(), Spent>
    requires below { AreBitsBelow circuit.old.vars row.now }
    requires inside { slot < length row.now }
    ensures { OnOk result (Constrains circuit.old circuit.new (IsApartFrom slot row.now slot)) }
{
    for other in 0..slot {
        circuit.require(&[row[slot].negation(), row[other].negation()])?;
    }
    Ok(())
}

/// Adds that at most one slot is marked.
fn mark_apart(circuit: &mut Circuit, row: &[Bit]) -> Result<(), Spent>
    requires { AreBitsBelow circuit.old.vars row.now }
    ensures { OnOk result (Constrains circuit.old circuit.new (AreApartBelow (length row.now) row.now)) }
{
    for slot in 0..row.len() {
        mark_apart_from(circuit, row, slot)?;
    }
    Ok(())
}

/// Adds that one slot is marked, which is used.
fn mark(circuit: &mut Circuit, used: &[Bit], row: &[Bit]) -> Result<(), Spent>
    requires used { AreBitsBelow circuit.old.vars used.now }
    requires row { AreBitsBelow circuit.old.vars row.now }
    requires long { length row.now ≡ length used.now }
    ensures { OnOk result (Constrains circuit.old circuit.new (MarksUsed used.now row.now)) }
{
    circuit.require(row)?;
    mark_used(circuit, used, row)?;
    mark_apart(circuit, row)?;
    Ok(())
}

/// The same of each row, over the slots of its type.
pub(crate) fn mark_each(
    circuit: &mut Circuit,
    used: &Vec<Vec<Bit>>,
    sorts: &[u8],
    rows: &Vec<Vec<Bit>>,
) -> Result<(), Spent>
    requires { AreOverUsed circuit.old.vars (rows_of used.now) sorts.now (rows_of rows.now) }
    ensures { OnOk result (Constrains circuit.old circuit.new (MarkUsed (rows_of used.now) sorts.now (rows_of rows.now))) }
{
    for k in 0..rows.len() {
        let sort = sorts[k] as usize;
        mark(circuit, used[sort].as_slice(), rows[k].as_slice())?;
    }
    Ok(())
}
