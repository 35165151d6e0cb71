//! What is below a clause, by its parts: the clause without some of its literals and of the variables that are then
//! in none.
ghost use Rattle.std.specs.Prelude.{◌≡◌, ◌≢◌, ◌<◌, ◌≤◌, ◌+◌, ◌*◌, ◌/◌, ◌%◌, ◌^◌, ℕ, None, true, false, length, map, slice_index, slice_index_or, IfSome};
ghost use Rattle.std.specs.List.{All, remove};
ghost use Rattle.dai_model.specs.Protocol.{Protocol};
ghost use Rattle.dai_model.specs.Template.{Bounds};
ghost use Rattle.dai_model.specs.Clause.{no_atom};
ghost use Rattle.dai_model.specs.Subsumption.{IsRenaming};
ghost use Rattle.dai_model.specs.Clause as Model;
ghost use Rattle.std.specs.List.{Contains};
ghost use Rattle.dai_template.specs.Atoms.{atom_of};
ghost use Rattle.dai_template.specs.Spaces.{IsClauseOf, IsClauseOfSpace, clause_of};
ghost use Rattle.dai_template.specs.Lists.{clauses_of};
ghost use Rattle.dai_order.specs.Forms.{AreForms, IsBesideForms};
ghost use Rattle.dai_order.specs.Antichains.{StandsFor};
ghost use Rattle.dai_order.specs.Sides.{AreStored, AtomMayGo};
ghost use Rattle.dai_order.specs.Variables.{counts_at, with_one_more};
ghost use Rattle.dai_order.specs.Parts.{IsBelowEvenly, IsBelowFrom, IsWithoutVariable, LeavesOutNone, ArePreimages, HasNoPreimage, AreSought, AreFewShapes};

use crate::forms::{place_of, stands_at};
use crate::literals::put;
use crate::subsumption::{atom_may_go, subsumes};
use crate::variables::{has_one_more, insertion};
use arrayvec::ArrayVec;
use dai_template::{Atom, Clause, Shape, Space};

/// Whether one of the members is below the clause. It asks them one after the other where they are no more than the
/// clause's sets of literals, and else looks for each part of the clause among them.
pub fn is_above_one(space: &Space, clause: &Clause, members: &[Clause]) -> bool
    requires { IsBesideForms space.now clause.now members.now }
    ensures some { (P : Protocol) (B : Bounds) → IsClauseOf P B space.now clause.now → AreForms P B space.now members.now → result ≡ true → StandsFor P (clauses_of space.now members.now) (clause_of space.now clause.now) }
    ensures none { (P : Protocol) (B : Bounds) → IsClauseOf P B space.now clause.now → AreForms P B space.now members.now → result ≡ false → StandsFor P (clauses_of space.now members.now) (clause_of space.now clause.now) → ⊥ }
{
    if members.len() <= 1 << clause.lits.len() {
        some_is_below(space, clause, members)
    } else {
        is_above_from(space, clause, 0, members)
    }
}

/// Whether some member is below the clause, asked of one after the other.
fn some_is_below(space: &Space, clause: &Clause, members: &[Clause]) -> bool
    requires { IsBesideForms space.now clause.now members.now }
    ensures some { (P : Protocol) (B : Bounds) → IsClauseOf P B space.now clause.now → AreForms P B space.now members.now → result ≡ true → StandsFor P (clauses_of space.now members.now) (clause_of space.now clause.now) }
    ensures none { (P : Protocol) (B : Bounds) → IsClauseOf P B space.now clause.now → AreForms P B space.now members.now → result ≡ false → StandsFor P (clauses_of space.now members.now) (clause_of space.now clause.now) → ⊥ }
{
    for member in members {
        if subsumes(space, member, clause) {
            return true;
        }
    }
    false
}

/// Whether a part of the clause that has its literals before this place is a member.
fn is_above_from(space: &Space, clause: &Clause, from: usize, members: &[Clause]) -> bool
    requires { IsBesideForms space.now clause.now members.now }
    ensures some { (P : Protocol) (B : Bounds) → IsClauseOf P B space.now clause.now → AreForms P B space.now members.now → result ≡ true → StandsFor P (clauses_of space.now members.now) (clause_of space.now clause.now) }
    ensures none { (P : Protocol) (B : Bounds) → IsClauseOf P B space.now clause.now → AreForms P B space.now members.now → result ≡ false → IsBelowFrom P (clauses_of space.now members.now) (clause_of space.now clause.now) from → ⊥ }
{
    if has_whole_member(space, clause, members) {
        return true;
    }
    for place in from..clause.lits.len() {
        if is_above_from(space, &without_literal(clause, place), place, members) {
            return true;
        }
    }
    false
}

/// The clause without the literal at this place.
fn without_literal(clause: &Clause, place: usize) -> Clause
    requires { place < length clause.now.lits.items }
    ensures shape { result.shape ≡ clause.now.shape }
    ensures literals { result.lits.items ≡ remove clause.now.lits.items place }
{
    let mut shorter = clause.copy();
    let _gone = shorter.lits.remove(place);
    shorter
}

/// Whether a part of the clause that has all its literals is a member.
fn has_whole_member(space: &Space, clause: &Clause, members: &[Clause]) -> bool
    requires { IsBesideForms space.now clause.now members.now }
    ensures some { (P : Protocol) (B : Bounds) → IsClauseOf P B space.now clause.now → AreForms P B space.now members.now → result ≡ true → StandsFor P (clauses_of space.now members.now) (clause_of space.now clause.now) }
    ensures none { (P : Protocol) (B : Bounds) → IsClauseOf P B space.now clause.now → AreForms P B space.now members.now → result ≡ false → IsBelowEvenly P (clauses_of space.now members.now) (clause_of space.now clause.now) → ⊥ }
{
    if is_member(space, clause, members) {
        return true;
    }
    for place in 0..32u8 {
        if let Some(part) = without_variable(space, clause, place / 4, place % 4) {
            if has_whole_member(space, &part, members) {
                return true;
            }
        }
    }
    false
}

/// Whether the clause's canonical form is a member.
fn is_member(space: &Space, clause: &Clause, members: &[Clause]) -> bool
    requires { IsBesideForms space.now clause.now members.now }
    ensures some { (P : Protocol) (B : Bounds) → IsClauseOf P B space.now clause.now → AreForms P B space.now members.now → result ≡ true → StandsFor P (clauses_of space.now members.now) (clause_of space.now clause.now) }
    ensures none { (P : Protocol) (B : Bounds) → IsClauseOf P B space.now clause.now → AreForms P B space.now members.now → result ≡ false → (m : Model.Clause) → Contains (clauses_of space.now members.now) m → IsRenaming P (clause_of space.now clause.now) m → ⊥ }
{
    let form = space.canonical(clause);
    let place = place_of(space, &form, members);
    stands_at(space, &form, place, members)
}

/// The clause without this variable of the type, if there is the variable and no literal has it.
fn without_variable(space: &Space, clause: &Clause, sort: u8, number: u8) -> Option<Clause>
    requires { IsClauseOfSpace space.now clause.now }
    ensures part { IfSome result (λ part. (P : Protocol) (B : Bounds) → IsClauseOf P B space.now clause.now → IsWithoutVariable P B space.now clause.now part sort number) }
    ensures none { result ≡ None → (P : Protocol) (B : Bounds) → IsClauseOf P B space.now clause.now → LeavesOutNone P B (clause_of space.now clause.now) sort number }
{
    let shape = &space.shapes[clause.shape as usize];
    if usize::from(sort) >= shape.counts.len() {
        return None;
    }
    if number >= shape.counts[usize::from(sort)] {
        return None;
    }
    let smaller = smaller_shape(space, clause.shape, sort)?;
    let from = &space.shapes[smaller as usize];
    let types = shape.counts.len() as u8;
    let lits = preimages(
        from,
        shape,
        clause.lits.as_slice(),
        types,
        &insertion(sort, number),
    )?;
    Some(Clause {
        shape: smaller,
        lits,
    })
}

/// The shape with one variable less of the type, if the space has it.
fn smaller_shape(space: &Space, shape: u32, sort: u8) -> Option<u32>
    requires inside { shape < length space.now.shapes.items }
    requires few { AreFewShapes space.now (length (counts_at space.now shape)) }
    requires known { sort < length (counts_at space.now shape) }
    ensures some { IfSome result (λ smaller. (smaller < length space.now.shapes.items) × (counts_at space.now shape ≡ with_one_more (counts_at space.now smaller) sort)) }
    ensures none { result ≡ None → (k : ℕ) → k < length space.now.shapes.items → counts_at space.now shape ≢ with_one_more (counts_at space.now k) sort }
{
    let counts = &space.shapes[shape as usize].counts;
    for smaller in 0..space.shapes.len() as u32 {
        if has_one_more(&space.shapes[smaller as usize].counts, counts, sort) {
            return Some(smaller);
        }
    }
    None
}

/// Literals over the one shape whose images are these over the other, in order, if each has one.
fn preimages(
    from: &Shape,
    into: &Shape,
    literals: &[u8],
    types: u8,
    to: &[u16],
) -> Option<ArrayVec<u8, 8>>
    requires { AreSought from.now into.now literals.now to.now }
    ensures some { IfSome result (λ found. ArePreimages types to.now (map atom_of from.now.atoms.items) (map atom_of into.now.atoms.items) literals.now found.items) }
    ensures none { result ≡ None → HasNoPreimage types to.now (map atom_of from.now.atoms.items) (map atom_of into.now.atoms.items) literals.now }
{
    let mut found = ArrayVec::new();
    for literal in literals {
        let place = preimage(from, &into.atoms[usize::from(literal / 2)], types, to)?;
        put(&mut found, 2 * place as u8 + literal % 2);
    }
    Some(found)
}

/// The place of an atom of the shape whose image is this one, if there is one.
fn preimage(from: &Shape, image: &Atom, types: u8, to: &[u16]) -> Option<usize>
    requires long { length to.now ≡ 32 }
    requires stored { All AreStored (map atom_of from.now.atoms.items) }
    ensures some { IfSome result (λ place. (place < length from.now.atoms.items) × AtomMayGo types 0 to.now (slice_index_or (map atom_of from.now.atoms.items) place no_atom) (atom_of image.now)) }
    ensures none { result ≡ None → (k : ℕ) → k < length (map atom_of from.now.atoms.items) → AtomMayGo types 0 to.now (slice_index_or (map atom_of from.now.atoms.items) k no_atom) (atom_of image.now) → ⊥ }
{
    for place in 0..from.atoms.len() {
        if atom_may_go(&from.atoms[place], image, types, 0, to) {
            return Some(place);
        }
    }
    None
}
