//! Updates of relations: a new table, tuple by tuple of slots in lexicographic order. All is read from the picture
//! before.
ghost use Rattle.std.specs.Prelude.{◌≡◌, ◌<◌, [], length, map, IfOk, OnOk, IsSome, IsTrue, Some, slice_get, slice_index_or};
ghost use Rattle.dai_model.specs.Protocol.{Relation};
ghost use Rattle.dai_model.specs.Formula.{update_relation};
ghost use Rattle.dai_model.specs.Structure.{is_tuple};
ghost use Rattle.dai_circuit.specs.declared.bit.Bit.{Bit as BitOf};
ghost use Rattle.dai_circuit.specs.Circuits.{IsBitBelow, Extends};
ghost use Rattle.dai_logic.specs.Counts.{tuple_at, tuple_count};
ghost use Rattle.dai_logic.specs.Strides.{rows_of as numbers_of};
ghost use Rattle.dai_logic.specs.Protocols.{protocol_of};
ghost use Rattle.dai_logic.specs.Trees.{term_of, formula_of};
ghost use Rattle.dai_picture.specs.Pictures.{rows_of, row_at};
ghost use Rattle.dai_ground.specs.Findings.{HasValue, Finds};
ghost use Rattle.dai_ground.specs.Leaving.{IsStatementIn, LeavesStatement};
ghost use Rattle.dai_ground.specs.Updating.{IsUpdateIn, IsSeenAt, matches_at, updated_at, IsUpdatedTable, IsTable, IsLaidOut};

use crate::atoms::sorts_of;
use crate::candidates::{Scene, row};
use crate::choosing::if_then_else;
use crate::targets::{Update, body_bit, matching};
use dai_base::Spent;
use dai_circuit::{Bit, Circuit};
use dai_logic::{Formula, Layout, Protocol, Term};
use dai_picture::{Frame, Picture};
use std::alloc::Global;

/// The bit of a tuple that the target matches where the condition is true.
fn chosen_bit(
    circuit: &mut Circuit,
    scene: &Scene,
    update: &Update,
    tuple: &[u16],
    condition: Bit,
    old: Bit,
) -> Result<Bit, Spent>
    requires update { IsUpdateIn (protocol_of scene.now.protocol.now) scene.now.frame.now scene.now.picture.now circuit.old.vars (map term_of update.now.target.now) update.now.sorts.now (formula_of update.now.body.now) }
    requires tuple { IsTrue (is_tuple scene.now.frame.now.slots.items update.now.sorts.now tuple.now) }
    requires condition { HasValue (IsSeenAt (protocol_of scene.now.protocol.now) scene.now.frame.now scene.now.picture.now (map term_of update.now.target.now) update.now.sorts.now (formula_of update.now.body.now) tuple.now (matches_at (map term_of update.now.target.now) tuple.now)) circuit.old condition }
    requires old { IsBitBelow circuit.old.vars old }
    ensures { Finds (IsSeenAt (protocol_of scene.now.protocol.now) scene.now.frame.now scene.now.picture.now (map term_of update.now.target.now) update.now.sorts.now (formula_of update.now.body.now) tuple.now (updated_at (map term_of update.now.target.now) tuple.now (formula_of update.now.body.now) old)) circuit.old circuit.new result }
{
    let value = body_bit(circuit, scene, update, tuple)?;
    if_then_else(circuit, condition, value, old)
}

/// The bit of the tuple after the update. Nothing is grounded where the target is known not to match.
fn updated_bit(
    circuit: &mut Circuit,
    scene: &Scene,
    update: &Update,
    tuple: &[u16],
    old: Bit,
) -> Result<Bit, Spent>
    requires update { IsUpdateIn (protocol_of scene.now.protocol.now) scene.now.frame.now scene.now.picture.now circuit.old.vars (map term_of update.now.target.now) update.now.sorts.now (formula_of update.now.body.now) }
    requires tuple { IsTrue (is_tuple scene.now.frame.now.slots.items update.now.sorts.now tuple.now) }
    requires old { IsBitBelow circuit.old.vars old }
    ensures { Finds (IsSeenAt (protocol_of scene.now.protocol.now) scene.now.frame.now scene.now.picture.now (map term_of update.now.target.now) update.now.sorts.now (formula_of update.now.body.now) tuple.now (updated_at (map term_of update.now.target.now) tuple.now (formula_of update.now.body.now) old)) circuit.old circuit.new result }
{
    let condition = matching(circuit, scene, update, tuple)?;
    match condition {
        Bit::Known(false) => Ok(old),
        _ => chosen_bit(circuit, scene, update, tuple, condition, old),
    }
}

/// The tuple at the place of the relation's table.
fn tuple_of(alloc: Global, layout: &Layout, rel: u8, place: usize) -> Result<Vec<u16>, Spent>
    requires known { rel < length (numbers_of layout.now.sorts) }
    requires inside { place < tuple_count layout.now.sizes.items (slice_index_or (numbers_of layout.now.sorts) rel []) }
    ensures { IfOk result (λ tuple. tuple.items ≡ tuple_at layout.now.sizes.items (slice_index_or (numbers_of layout.now.sorts) rel []) place) }
{
    let arguments = layout.sorts[rel as usize].len();
    let mut tuple = vec![in alloc; 0; arguments]?;
    layout.read(rel, place, tuple.as_mut_slice());
    Ok(tuple)
}

/// The table after the update.
fn new_table(
    circuit: &mut Circuit,
    scene: &Scene,
    layout: &Layout,
    rel: u8,
    update: &Update,
    old: &[Bit],
) -> Result<Vec<Bit>, Spent>
    requires update { IsUpdateIn (protocol_of scene.now.protocol.now) scene.now.frame.now scene.now.picture.now circuit.old.vars (map term_of update.now.target.now) update.now.sorts.now (formula_of update.now.body.now) }
    requires layout { IsLaidOut scene.now.frame.now.slots.items update.now.sorts.now layout.now rel }
    requires old { IsTable scene.now.frame.now.slots.items update.now.sorts.now circuit.old.vars old.now }
    ensures extends { Extends circuit.old circuit.new }
    ensures long { IfOk result (λ table. length table.items ≡ length old.now) }
    ensures updated { IfOk result (λ table. IsUpdatedTable (protocol_of scene.now.protocol.now) scene.now.frame.now scene.now.picture.now (map term_of update.now.target.now) update.now.sorts.now (formula_of update.now.body.now) old.now circuit.new table.items) }
{
    let mut table = Vec::with_capacity(scene.alloc, old.len())?;
    for place in 0..old.len() {
        let tuple = tuple_of(scene.alloc, layout, rel, place)?;
        let bit = updated_bit(circuit, scene, update, tuple.as_slice(), old[place])?;
        table.push(bit)?;
    }
    Ok(table)
}

/// The relation's table after the update.
fn table_after(
    circuit: &mut Circuit,
    scene: &Scene,
    rel: u8,
    target: &[Term],
    body: &Formula,
) -> Result<Vec<Bit>, Spent>
    requires { IsStatementIn (protocol_of scene.now.protocol.now) scene.now.frame.now scene.now.picture.now circuit.old.vars (update_relation rel (map term_of target.now) (formula_of body.now)) }
    ensures extends { Extends circuit.old circuit.new }
    ensures long { IfOk result (λ table. length table.items ≡ length (row_at (rows_of scene.now.picture.now.tables) rel)) }
    ensures updated { IfOk result (λ table. (R : Relation) → slice_get (protocol_of scene.now.protocol.now).relations rel ≡ Some R → IsUpdatedTable (protocol_of scene.now.protocol.now) scene.now.frame.now scene.now.picture.now (map term_of target.now) R.arguments (formula_of body.now) (row_at (rows_of scene.now.picture.now.tables) rel) circuit.new table.items) }
{
    let layout = Layout::of(scene.alloc, scene.protocol, &scene.frame.slots)?;
    let update = Update {
        sorts: sorts_of(scene.protocol, rel),
        target,
        body,
    };
    let old = row(&scene.picture.tables, rel);
    new_table(circuit, scene, &layout, rel, &update, old)
}

/// Gives the relation the value of the formula at each tuple that the target matches.
pub(crate) fn update_table(
    circuit: &mut Circuit,
    alloc: Global,
    protocol: &Protocol,
    frame: &Frame,
    picture: &mut Picture,
    rel: u8,
    target: &[Term],
    body: &Formula,
) -> Result<(), Spent>
    requires { IsStatementIn (protocol_of protocol.now) frame.now picture.old circuit.old.vars (update_relation rel (map term_of target.now) (formula_of body.now)) }
    ensures extends { Extends circuit.old circuit.new }
    ensures leaves { OnOk result ((ok : BitOf) → IsBitBelow circuit.new.vars ok → LeavesStatement (protocol_of protocol.now) frame.now (update_relation rel (map term_of target.now) (formula_of body.now)) picture.old ok circuit.new picture.new ok) }
{
    let scene = Scene {
        alloc,
        protocol,
        frame,
        picture,
    };
    let table = table_after(circuit, &scene, rel, target, body)?;
    picture.tables[rel as usize] = table;
    Ok(())
}
