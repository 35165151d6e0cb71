//! The picture of all structures with at most so many elements of each type.
ghost use Rattle.std.specs.Prelude.{◌≡◌, ◌<◌, ◌≤◌, true, [], length, map, IfOk, OnOk};
ghost use Rattle.std.specs.List.{All};
ghost use Rattle.dai_trail.specs.Formula.{formula_of};
ghost use Rattle.dai_logic.specs.Counts.{tuple_count};
ghost use Rattle.dai_logic.specs.Protocols.{protocol_of, arguments_in};
ghost use Rattle.dai_picture.specs.Pictures.{rows_of, slots_of_each, IsFrame, IsPicture};
ghost use Rattle.dai_picture.specs.Worlds.{Draws};
ghost use Rattle.dai_picture.specs.Rows.{AreFreeRows};
ghost use Rattle.dai_picture.specs.Rules.{Constrains, AreBegun};
ghost use Rattle.dai_picture.specs.Drawing.{known_of, AreBefore, AreInOrder, AreDrawn, AreRuled};

use crate::lengths;
use crate::picture::{Frame, Picture};
use crate::rows::{Known, free_rows};
use crate::rules::{mark_each, order_each};
use dai_base::Spent;
use dai_circuit::{Bit, Circuit};
use dai_logic::protocol::Protocol;
use std::alloc::Global;

/// A frame and a picture in it.
#[derive(Drop)]
pub struct Drawing {
    pub frame: Frame,
    pub picture: Picture,
    /// How many variables come before those of the parameters.
    pub start: usize,
}

/// Which slots are known to be used.
fn known_slots(exact: bool) -> Known
    ensures { result ≡ known_of exact }
{
    if exact {
        Known::Everywhere
    } else {
        Known::First
    }
}

/// A row for each type with a bit for each slot.
fn used_rows(
    alloc: Global,
    circuit: &mut Circuit,
    slots: &[u16],
    known: Known,
) -> Result<Vec<Vec<Bit>>, Spent>
    ensures { IfOk result (λ rows. AreFreeRows circuit.old circuit.new known slots.now (rows_of rows)) }
{
    let lengths = lengths::whole(alloc, slots)?;
    free_rows(alloc, circuit, lengths.as_slice(), known)
}

/// A row for each relation with a bit for each tuple of slots.
fn table_rows(
    alloc: Global,
    circuit: &mut Circuit,
    protocol: &Protocol,
    slots: &[u16],
) -> Result<Vec<Vec<Bit>>, Spent>
    requires { length slots.now ≡ length (protocol_of protocol.now).sorts }
    ensures { IfOk result (λ rows. AreFreeRows circuit.old circuit.new Known.Nowhere (map (tuple_count slots.now) (arguments_in (protocol_of protocol.now))) (rows_of rows)) }
{
    let lengths = lengths::tables(alloc, protocol, slots)?;
    free_rows(alloc, circuit, lengths.as_slice(), Known::Nowhere)
}

/// For each of these types a row with a bit for each slot.
fn type_rows(
    alloc: Global,
    circuit: &mut Circuit,
    slots: &[u16],
    sorts: &[u8],
) -> Result<Vec<Vec<Bit>>, Spent>
    requires { All (λ sort. sort < length slots.now) sorts.now }
    ensures { IfOk result (λ rows. AreFreeRows circuit.old circuit.new Known.Nowhere (slots_of_each slots.now sorts.now) (rows_of rows)) }
{
    let lengths = lengths::each(alloc, slots, sorts)?;
    free_rows(alloc, circuit, lengths.as_slice(), Known::Nowhere)
}

/// All rows, in which the slots are used that are known to be.
fn draw_rows(
    alloc: Global,
    circuit: &mut Circuit,
    protocol: &Protocol,
    parameters: &[u8],
    locals: &[u8],
    slots: &[u16],
    known: Known,
) -> Result<Drawing, Spent>
    requires one_each { length slots.now ≡ length (protocol_of protocol.now).sorts }
    requires inhabited { All (λ n. 0 < n) slots.now }
    requires parameters { All (λ sort. sort < length slots.now) parameters.now }
    requires locals { All (λ sort. sort < length slots.now) locals.now }
    ensures { IfOk result (AreDrawn (protocol_of protocol.now) parameters.now locals.now slots.now known circuit.old circuit.new) }
{
    let sorts = lengths::individual_sorts(alloc, protocol)?;
    let slots_again = Vec::from_slice(alloc, slots)?;
    let used = used_rows(alloc, circuit, slots, known)?;
    let tables = table_rows(alloc, circuit, protocol, slots)?;
    let values = type_rows(alloc, circuit, slots, sorts.as_slice())?;
    let choices = type_rows(alloc, circuit, slots, locals)?;
    let start = circuit.formula().vars();
    let arguments = type_rows(alloc, circuit, slots, parameters)?;
    Ok(Drawing {
        frame: Frame {
            slots: slots_again,
            used,
            arguments,
            choices,
        },
        picture: Picture { tables, values },
        start,
    })
}

/// Adds the clauses about all rows.
fn rule_rows(
    alloc: Global,
    circuit: &mut Circuit,
    protocol: &Protocol,
    parameters: &[u8],
    locals: &[u8],
    drawing: &Drawing,
) -> Result<(), Spent>
    requires parameters { All (λ sort. sort < length (protocol_of protocol.now).sorts) parameters.now }
    requires locals { All (λ sort. sort < length (protocol_of protocol.now).sorts) locals.now }
    requires frame { IsFrame (protocol_of protocol.now) parameters.now locals.now circuit.old.vars drawing.now.frame }
    requires picture { IsPicture (protocol_of protocol.now) drawing.now.frame.slots.items circuit.old.vars drawing.now.picture }
    requires begun { AreBegun (rows_of drawing.now.frame.used) }
    ensures { OnOk result (Constrains circuit.old circuit.new (AreRuled (protocol_of protocol.now) parameters.now locals.now drawing.now.frame drawing.now.picture)) }
{
    let frame = &drawing.frame;
    let sorts = lengths::individual_sorts(alloc, protocol)?;
    order_each(circuit, &frame.used)?;
    mark_each(
        circuit,
        &frame.used,
        sorts.as_slice(),
        &drawing.picture.values,
    )?;
    mark_each(circuit, &frame.used, locals, &frame.choices)?;
    mark_each(circuit, &frame.used, parameters, &frame.arguments)?;
    Ok(())
}

/// The picture of all structures of the protocol with at most so many elements of each type, or with exactly
/// so many, and a frame with parameters and locals of these types: each assignment that meets the clauses shows
/// one of these structures, and each is shown by one. There is at least one slot of each type. With exactly so many,
/// the first variables are the bits of the tables, the values and the choices, in this order. The circuit is empty
/// before; `Spent` comes where memory is wanting, where the variables or clauses are too many for a formula, and
/// where a relation has 2^64 tuples of slots.
pub fn draw(
    alloc: Global,
    circuit: &mut Circuit,
    protocol: &Protocol,
    parameters: &[u8],
    locals: &[u8],
    slots: &[u16],
    exact: bool,
) -> Result<Drawing, Spent>
    requires empty { circuit.old ≡ formula_of 0 [] }
    requires one_each { length slots.now ≡ length (protocol_of protocol.now).sorts }
    requires inhabited { All (λ n. 0 < n) slots.now }
    requires parameters { All (λ sort. sort < length (protocol_of protocol.now).sorts) parameters.now }
    requires locals { All (λ sort. sort < length (protocol_of protocol.now).sorts) locals.now }
    ensures slots { IfOk result (λ d. d.frame.slots.items ≡ slots.now) }
    ensures frame { IfOk result (λ d. IsFrame (protocol_of protocol.now) parameters.now locals.now circuit.new.vars d.frame) }
    ensures picture { IfOk result (λ d. IsPicture (protocol_of protocol.now) slots.now circuit.new.vars d.picture) }
    ensures draws { IfOk result (λ d. Draws (protocol_of protocol.now) parameters.now locals.now exact circuit.new d.frame d.picture) }
    ensures before { IfOk result (λ d. AreBefore (protocol_of protocol.now) locals.now d.start d.frame d.picture) }
    ensures within { IfOk result (λ d. d.start ≤ circuit.new.vars) }
    ensures in_order { IfOk result (λ d. exact ≡ true → AreInOrder 0 d.start d.frame d.picture) }
{
    let known = known_slots(exact);
    let drawing = draw_rows(alloc, circuit, protocol, parameters, locals, slots, known)?;
    rule_rows(alloc, circuit, protocol, parameters, locals, &drawing)?;
    Ok(drawing)
}
