//! Pictures that are merged bit by bit.
ghost use Rattle.std.specs.Prelude.{◌≡◌, ◌<◌, [], length, slice_index_or, IfOk, OnOk};
ghost use Rattle.dai_circuit.specs.Circuits.{IsBitBelow, AreBitsBelow, IsBitFor, Extends};
ghost use Rattle.dai_picture.specs.Pictures.{rows_of};
ghost use Rattle.dai_ground.specs.Choosing.{IsChosenRow, AreChosenRows, IsChosenPicture, IsCopy, AreAlike, lists_of, choice_value};

use crate::choosing::if_then_else;
use dai_base::Spent;
use dai_circuit::{Bit, Circuit};
use dai_picture::Picture;
use std::alloc::Global;

/// The row of this number.
pub(crate) fn row_of(rows: &[Vec<Bit>], number: usize) -> &[Bit]
    requires { number < length rows.now }
    ensures { result.now ≡ slice_index_or (lists_of rows.now) number [] }
{
    &rows[number]
}

/// The row that has the bits of the first where the condition is true, and else those of the second.
fn merge_row(
    alloc: Global,
    circuit: &mut Circuit,
    condition: Bit,
    first: &[Bit],
    second: &[Bit],
) -> Result<Vec<Bit>, Spent>
    requires condition { IsBitBelow circuit.old.vars condition }
    requires first { AreBitsBelow circuit.old.vars first.now }
    requires second { AreBitsBelow circuit.old.vars second.now }
    requires long { length first.now ≡ length second.now }
    ensures extends { Extends circuit.old circuit.new }
    ensures chosen { IfOk result (λ row. IsChosenRow circuit.new condition first.now second.now row.items) }
{
    let mut row = Vec::with_capacity(alloc, first.len())?;
    for place in 0..first.len() {
        let bit = if_then_else(circuit, condition, first[place], second[place])?;
        row.push(bit)?;
    }
    Ok(row)
}

/// The same of each row.
fn merge_rows(
    alloc: Global,
    circuit: &mut Circuit,
    condition: Bit,
    first: &[Vec<Bit>],
    second: &[Vec<Bit>],
) -> Result<Vec<Vec<Bit>>, Spent>
    requires condition { IsBitBelow circuit.old.vars condition }
    requires alike { AreAlike circuit.old.vars (lists_of first.now) (lists_of second.now) }
    ensures extends { Extends circuit.old circuit.new }
    ensures chosen { IfOk result (λ rows. AreChosenRows circuit.new condition (lists_of first.now) (lists_of second.now) (rows_of rows)) }
{
    let mut rows = Vec::with_capacity(alloc, first.len())?;
    for number in 0..first.len() {
        let row = merge_row(
            alloc,
            circuit,
            condition,
            row_of(first, number),
            row_of(second, number),
        )?;
        rows.push(row)?;
    }
    Ok(rows)
}

/// The picture that has the bits of the first where the condition is true, and else those of the second.
pub(crate) fn merge(
    alloc: Global,
    circuit: &mut Circuit,
    condition: Bit,
    first: &Picture,
    second: &Picture,
) -> Result<Picture, Spent>
    requires condition { IsBitBelow circuit.old.vars condition }
    requires tables { AreAlike circuit.old.vars (rows_of first.now.tables) (rows_of second.now.tables) }
    requires values { AreAlike circuit.old.vars (rows_of first.now.values) (rows_of second.now.values) }
    ensures extends { Extends circuit.old circuit.new }
    ensures chosen { IfOk result (λ picture. IsChosenPicture circuit.new condition first.now second.now picture) }
{
    let tables = merge_rows(alloc, circuit, condition, &first.tables, &second.tables)?;
    let values = merge_rows(alloc, circuit, condition, &first.values, &second.values)?;
    Ok(Picture { tables, values })
}

/// The same with the bits that there is a structure: the first picture becomes the merged one, and the answer is the
/// merged bit.
pub(crate) fn join(
    alloc: Global,
    circuit: &mut Circuit,
    condition: Bit,
    picture: &mut Picture,
    other: &Picture,
    first: Bit,
    second: Bit,
) -> Result<Bit, Spent>
    requires condition { IsBitBelow circuit.old.vars condition }
    requires tables { AreAlike circuit.old.vars (rows_of picture.old.tables) (rows_of other.now.tables) }
    requires values { AreAlike circuit.old.vars (rows_of picture.old.values) (rows_of other.now.values) }
    requires first { IsBitBelow circuit.old.vars first }
    requires second { IsBitBelow circuit.old.vars second }
    ensures extends { Extends circuit.old circuit.new }
    ensures chosen { OnOk result (IsChosenPicture circuit.new condition picture.old other.now picture.new) }
    ensures answer { IfOk result (IsBitFor circuit.new (choice_value condition first second)) }
{
    *picture = merge(alloc, circuit, condition, picture, other)?;
    if_then_else(circuit, condition, first, second)
}

/// A copy of the rows.
fn copy_rows(alloc: Global, rows: &[Vec<Bit>]) -> Result<Vec<Vec<Bit>>, Spent>
    ensures { IfOk result (λ copied. rows_of copied ≡ lists_of rows.now) }
{
    let mut copied = Vec::with_capacity(alloc, rows.len())?;
    for number in 0..rows.len() {
        copied.push(Vec::from_slice(alloc, row_of(rows, number))?)?;
    }
    Ok(copied)
}

/// A copy of the picture.
pub fn copy(alloc: Global, picture: &Picture) -> Result<Picture, Spent>
    ensures { IfOk result (IsCopy picture.now) }
{
    Ok(Picture {
        tables: copy_rows(alloc, &picture.tables)?,
        values: copy_rows(alloc, &picture.values)?,
    })
}
