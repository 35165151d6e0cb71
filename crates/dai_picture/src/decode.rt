//! The structure that a picture shows in an assignment.
ghost use Rattle.std.specs.Prelude.{◌≡◌, ℕ, ◌<◌, ◌^◌, List, length, IfOk};
ghost use Rattle.dai_logic.specs.Counts.{tuple_count, tuple_place, tuple_at};
ghost use Rattle.dai_logic.specs.Protocols.{protocol_of};
ghost use Rattle.dai_logic.specs.Strides.{rows_of as rows_of_layout};
ghost use Rattle.dai_logic.specs.Tables.{structure_of, Fits, bits_of};
ghost use Rattle.dai_circuit.specs.Circuits.{bit_value as value_of_bit};
ghost use Rattle.dai_picture.specs.Pictures.{rows_of, bit_at, Marks, Counts};
ghost use Rattle.dai_picture.specs.Worlds.{World, ShowsWorld};
ghost use Rattle.dai_picture.specs.Decoding.{IsDecodable, AreShort, AreCounted, AreMarked, AreNested, AreTables, table_shown, tables_shown, sorts_at};

use crate::picture::{Frame, Picture};
use dai_base::Spent;
use dai_circuit::Bit;
use dai_logic::{Layout, Protocol, Structure};
use std::alloc::Global;

/// A structure with arguments and choices for a block.
#[derive(Drop)]
pub struct Decoded {
    pub structure: Structure,
    pub args: Vec<u16>,
    pub choices: Vec<u16>,
}

/// The value of a bit in an assignment, in which the variables past its end are false.
pub fn bit_value(bit: Bit, model: &[bool]) -> bool
    ensures { result ≡ value_of_bit model.now bit }
{
    match bit {
        Bit::Known(value) => value,
        Bit::Is(lit) => {
            let value = model.get(lit.var).copied().unwrap_or(false);
            lit.positive == value
        }
    }
}

/// How many bits at the front of a row are true.
fn count(row: &[Bit], model: &[bool]) -> u16
    requires { length row.now < 2 ^ 16 }
    ensures { (size : ℕ) → Counts model.now row.now size → result ≡ size }
{
    for (slot, bit) in row.iter().enumerate() {
        if !bit_value(*bit, model) {
            return slot as u16;
        }
    }
    row.len() as u16
}

/// The slot that a row marks.
fn marked(row: &[Bit], model: &[bool]) -> u16
    requires { length row.now < 2 ^ 16 }
    ensures { (e : ℕ) → Marks model.now row.now e → result ≡ e }
{
    for (slot, bit) in row.iter().enumerate() {
        if bit_value(*bit, model) {
            return slot as u16;
        }
    }
    0
}

/// The number that each row counts.
fn counts(alloc: Global, rows: &Vec<Vec<Bit>>, model: &[bool]) -> Result<Vec<u16>, Spent>
    requires { AreShort (rows_of rows.now) }
    ensures { IfOk result (λ sizes. AreCounted model.now (rows_of rows.now) sizes.items) }
{
    let mut sizes = Vec::new(alloc);
    for k in 0..rows.len() {
        sizes.push(count(rows[k].as_slice(), model))?;
    }
    Ok(sizes)
}

/// The slot that each row marks.
fn marks(alloc: Global, rows: &Vec<Vec<Bit>>, model: &[bool]) -> Result<Vec<u16>, Spent>
    requires { AreShort (rows_of rows.now) }
    ensures { IfOk result (λ es. AreMarked model.now (rows_of rows.now) es.items) }
{
    let mut es = Vec::new(alloc);
    for k in 0..rows.len() {
        es.push(marked(rows[k].as_slice(), model))?;
    }
    Ok(es)
}

/// The truth value of the tuple at a place of a relation's table. The tuple is written on the way.
fn tuple_value(
    small: &Layout,
    wide: &Layout,
    rel: u8,
    place: usize,
    tuple: &mut [u16],
    row: &[Bit],
    model: &[bool],
) -> bool
    requires nested { AreNested small.now wide.now }
    requires known { rel < length (rows_of_layout small.now.sorts) }
    requires inside { place < tuple_count small.now.sizes.items (sorts_at small.now rel) }
    requires room { length tuple.old ≡ length (sorts_at small.now rel) }
    requires long { length row.now ≡ tuple_count wide.now.sizes.items (sorts_at wide.now rel) }
    ensures { result ≡ value_of_bit model.now (bit_at row.now (tuple_place wide.now.sizes.items (sorts_at small.now rel) (tuple_at small.now.sizes.items (sorts_at small.now rel) place))) }
{
    small.read(rel, place, tuple);
    let slot = wide.place(rel, tuple);
    bit_value(row[slot], model)
}

/// The table of a relation, with room for a tuple.
fn table_in(
    alloc: Global,
    small: &Layout,
    wide: &Layout,
    rel: u8,
    tuple: &mut [u16],
    row: &[Bit],
    model: &[bool],
) -> Result<Vec<bool>, Spent>
    requires nested { AreNested small.now wide.now }
    requires known { rel < length (rows_of_layout small.now.sorts) }
    requires room { length tuple.old ≡ length (sorts_at small.now rel) }
    requires long { length row.now ≡ tuple_count wide.now.sizes.items (sorts_at wide.now rel) }
    ensures { IfOk result (λ table. table.items ≡ table_shown model.now small.now.sizes.items wide.now.sizes.items (sorts_at small.now rel) row.now) }
{
    let mut table = Vec::new(alloc);
    for place in 0..small.count(rel) {
        table.push(tuple_value(small, wide, rel, place, tuple, row, model))?;
    }
    Ok(table)
}

/// The table of a relation.
fn table(
    alloc: Global,
    small: &Layout,
    wide: &Layout,
    rel: u8,
    row: &[Bit],
    model: &[bool],
) -> Result<Vec<bool>, Spent>
    requires nested { AreNested small.now wide.now }
    requires known { rel < length (rows_of_layout small.now.sorts) }
    requires long { length row.now ≡ tuple_count wide.now.sizes.items (sorts_at wide.now rel) }
    ensures { IfOk result (λ table. table.items ≡ table_shown model.now small.now.sizes.items wide.now.sizes.items (sorts_at small.now rel) row.now) }
{
    let arity = small.sorts[rel as usize].len();
    let mut tuple = vec![in alloc; 0; arity]?;
    table_in(alloc, small, wide, rel, tuple.as_mut_slice(), row, model)
}

/// The table of each relation.
fn tables(
    alloc: Global,
    small: &Layout,
    wide: &Layout,
    rows: &Vec<Vec<Bit>>,
    model: &[bool],
) -> Result<Vec<Vec<bool>>, Spent>
    requires nested { AreNested small.now wide.now }
    requires rows { AreTables wide.now (rows_of rows.now) }
    ensures { IfOk result (λ tables. bits_of tables ≡ tables_shown model.now small.now wide.now (rows_of rows.now)) }
{
    let mut tables = Vec::new(alloc);
    for r in 0..rows.len() {
        let shown = table(alloc, small, wide, r as u8, rows[r].as_slice(), model)?;
        tables.push(shown)?;
    }
    Ok(tables)
}

/// What `decode` answers, from the slots of the frame.
fn decode_over(
    alloc: Global,
    protocol: &Protocol,
    slots: &[u16],
    frame: &Frame,
    picture: &Picture,
    model: &[bool],
) -> Result<Decoded, Spent>
    requires slots { slots.now ≡ frame.now.slots.items }
    requires shown { IsDecodable (protocol_of protocol.now) frame.now picture.now model.now }
    ensures fits { IfOk result (λ d. Fits (protocol_of protocol.now) d.structure) }
    ensures structure { IfOk result (λ d. (w : World) → ShowsWorld (protocol_of protocol.now) frame.now picture.now model.now w → structure_of (protocol_of protocol.now) d.structure ≡ w.structure) }
    ensures arguments { IfOk result (λ d. (w : World) → ShowsWorld (protocol_of protocol.now) frame.now picture.now model.now w → d.args.items ≡ w.arguments) }
    ensures choices { IfOk result (λ d. (w : World) → ShowsWorld (protocol_of protocol.now) frame.now picture.now model.now w → d.choices.items ≡ w.choices) }
{
    let sizes = counts(alloc, &frame.used, model)?;
    let values = marks(alloc, &picture.values, model)?;
    let args = marks(alloc, &frame.arguments, model)?;
    let choices = marks(alloc, &frame.choices, model)?;
    let small = Layout::of(alloc, protocol, sizes.as_slice())?;
    let wide = Layout::of(alloc, protocol, slots)?;
    let tables = tables(alloc, &small, &wide, &picture.tables, model)?;
    Ok(Decoded {
        structure: Structure {
            sizes,
            tables,
            values,
        },
        args,
        choices,
    })
}

/// The structure, arguments and choices that a picture in a frame shows in an assignment, of which there is one
/// each. `Spent` comes where memory is wanting.
pub fn decode(
    alloc: Global,
    protocol: &Protocol,
    frame: &Frame,
    picture: &Picture,
    model: &[bool],
) -> Result<Decoded, Spent>
    requires { IsDecodable (protocol_of protocol.now) frame.now picture.now model.now }
    ensures fits { IfOk result (λ d. Fits (protocol_of protocol.now) d.structure) }
    ensures structure { IfOk result (λ d. (w : World) → ShowsWorld (protocol_of protocol.now) frame.now picture.now model.now w → structure_of (protocol_of protocol.now) d.structure ≡ w.structure) }
    ensures arguments { IfOk result (λ d. (w : World) → ShowsWorld (protocol_of protocol.now) frame.now picture.now model.now w → d.args.items ≡ w.arguments) }
    ensures choices { IfOk result (λ d. (w : World) → ShowsWorld (protocol_of protocol.now) frame.now picture.now model.now w → d.choices.items ≡ w.choices) }
{
    decode_over(
        alloc,
        protocol,
        frame.slots.as_slice(),
        frame,
        picture,
        model,
    )
}
