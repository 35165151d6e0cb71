//! Weakenings with one variable more.
ghost use Rattle.std.specs.Prelude.{◌≡◌, ◌≢◌, ◌<◌, ◌≤◌, ◌+◌, ◌*◌, ◌/◌, ℕ, [], true, false, length, map, slice_index, slice_index_or, slice_set, IfSome, None, OnOk};
ghost use Rattle.std.specs.List.{All};
ghost use Rattle.dai_model.specs.Protocol.{Protocol};
ghost use Rattle.dai_model.specs.Template.{Bounds};
ghost use Rattle.dai_template.specs.Atoms.{atom_of, counts_of};
ghost use Rattle.dai_template.specs.Spaces.{IsClauseOf, clause_of};
ghost use Rattle.dai_order.specs.Forms.{AreForms, HasGained};
ghost use Rattle.dai_order.specs.Sides.{AreStored};
ghost use Rattle.dai_order.specs.Weakenings.{IsWeakerByVariable};
ghost use Rattle.dai_order.specs.Variables.{counts_at, with_one_more, IsBesideFormsAt, AreFewCounts, IsPlacedAmong, IsImageAt, AreMoved, IsMovable};

use crate::forms::add_form;
use crate::literals::put;
use crate::subsumption::atom_may_go;
use arrayvec::ArrayVec;
use dai_base::Spent;
use dai_template::{Atom, Clause, Shape, Space};

/// Puts the canonical forms of the clause's immediate weakenings with one variable more of this type into the
/// list. The new variable comes last where the type is unordered, and else at any place.
pub fn add_with_variable(
    space: &Space,
    clause: &Clause,
    sort: u8,
    list: &mut Vec<Clause>,
) -> Result<(), Spent>
    requires { IsBesideFormsAt space.now clause.now sort list.old.items }
    ensures { OnOk result ((P : Protocol) (B : Bounds) → IsClauseOf P B space.now clause.now → AreForms P B space.now list.old.items → HasGained P B space.now (IsWeakerByVariable P B (clause_of space.now clause.now) sort) list.old.items list.new.items) }
{
    let Some(larger) = larger_shape(space, clause.shape, sort) else {
        return Ok(());
    };
    let count = space.shapes[clause.shape as usize].counts[usize::from(sort)];
    let first = first_place(space.orders()[usize::from(sort)], count);
    for place in first..count + 1 {
        add_form(
            space,
            &moved(space, clause, larger, &insertion(sort, place)),
            list,
        )?;
    }
    Ok(())
}

/// The first place at which a new variable comes in.
fn first_place(ordered: bool, count: u8) -> u8
    ensures any { ordered ≡ true → result ≡ 0 }
    ensures last { ordered ≡ false → result ≡ count }
{
    if ordered { 0 } else { count }
}

/// The shape with one variable more of the type, if the space has it.
fn larger_shape(space: &Space, shape: u32, sort: u8) -> Option<u32>
    requires inside { shape < length space.now.shapes.items }
    requires few { AreFewCounts space.now sort shape }
    ensures some { IfSome result (λ larger. (larger < length space.now.shapes.items) × (counts_at space.now larger ≡ with_one_more (counts_at space.now shape) sort)) }
    ensures none { result ≡ None → (k : ℕ) → k < length space.now.shapes.items → counts_at space.now k ≢ with_one_more (counts_at space.now shape) sort }
{
    let counts = &space.shapes[shape as usize].counts;
    for larger in 0..space.shapes.len() as u32 {
        if has_one_more(counts, &space.shapes[larger as usize].counts, sort) {
            return Some(larger);
        }
    }
    None
}

/// Whether the larger counts are the counts with one more of the type.
pub fn has_one_more(counts: &[u8], larger: &[u8], sort: u8) -> bool
    requires few { All (λ n. n ≤ 4) counts.now }
    requires inside { sort < length counts.now }
    ensures only { result ≡ true → larger.now ≡ with_one_more counts.now sort }
    ensures exact { result ≡ false → larger.now ≢ with_one_more counts.now sort }
{
    if counts.len() != larger.len() {
        return false;
    }
    for place in 0..counts.len() {
        let more = u8::from(place == usize::from(sort));
        if larger[place] != counts[place] + more {
            return false;
        }
    }
    true
}

/// The number of each variable, where none changes.
const UNMOVED: [u16; 32] = [
    0, 1, 2, 3, 0, 1, 2, 3, 0, 1, 2, 3, 0, 1, 2, 3, 0, 1, 2, 3, 0, 1, 2, 3, 0, 1, 2, 3, 0, 1, 2, 3,
];

/// The new number of each variable, where one comes in at this place of the type.
pub fn insertion(sort: u8, place: u8) -> [u16; 32]
    requires known { sort < 8 }
    ensures long { length result ≡ 32 }
    ensures later { (i : ℕ) → place ≤ i → i < 4 → slice_index result (4 * sort + i) ≡ i + 1 }
    ensures others { (t i : ℕ) → t < 8 → i < 4 → (t ≡ sort → i < place) → slice_index result (4 * t + i) ≡ i }
{
    let mut to = UNMOVED;
    for number in place..4 {
        to[4 * usize::from(sort) + usize::from(number)] = u16::from(number) + 1;
    }
    to
}

/// The literals of the clause over the larger shape, under the new numbers of its variables.
fn moved(space: &Space, clause: &Clause, larger: u32, to: &[u16]) -> Clause
    requires { IsMovable space.now clause.now larger to.now }
    ensures shape { result.shape ≡ larger }
    ensures literals { AreMoved space.now clause.now larger to.now result.lits.items }
{
    let from = &space.shapes[clause.shape as usize];
    let into = &space.shapes[larger as usize];
    let mut lits = ArrayVec::new();
    for literal in clause.lits.as_slice() {
        let atom = &from.atoms[usize::from(literal / 2)];
        let image = place_of_image(atom, into, from.counts.len() as u8, to);
        put(&mut lits, 2 * image as u8 + literal % 2);
    }
    Clause {
        shape: larger,
        lits,
    }
}

/// The place of the atom's image among the atoms of the shape.
fn place_of_image(atom: &Atom, shape: &Shape, types: u8, to: &[u16]) -> usize
    requires long { length to.now ≡ 32 }
    requires stored { AreStored (atom_of atom.now) }
    requires among { IsPlacedAmong types to.now (map atom_of shape.now.atoms.items) (atom_of atom.now) }
    ensures { IsImageAt types to.now (map atom_of shape.now.atoms.items) (atom_of atom.now) result }
{
    let mut place = 0;
    while !atom_may_go(atom, &shape.atoms[place], types, 0, to) {
        place += 1;
    }
    place
}
