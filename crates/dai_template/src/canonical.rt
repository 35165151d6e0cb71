//! The canonical clause: of a clause's renamings the one with the least literals.
ghost use Rattle.std.specs.Prelude.{◌≡◌, ◌<◌, ◌≤◌, ◌+◌, ◌*◌, ◌/◌, [], length, map, slice_index_or, IfSome, None};
ghost use Rattle.std.specs.Prelude.{◌≢◌, ℕ, List};
ghost use Rattle.std.specs.List.{All};
ghost use Rattle.std.specs.Ordering.{nat_cmp};
ghost use Rattle.std.specs.Cmp.Lexicographic.{slice_cmp};
ghost use Rattle.dai_model.specs.Clause as Model;
ghost use Rattle.arrayvec.specs.ArrayVec.{array_vec_len};
ghost use Rattle.dai_model.specs.Protocol.{Protocol};
ghost use Rattle.dai_model.specs.Template.{Bounds};
ghost use Rattle.dai_model.specs.Clause.{no_atom, Variable, tuple};
ghost use Rattle.dai_logic.specs.Tables.{tuple_place};
ghost use Rattle.dai_template.specs.Atoms.{variable_of, atom_of};
ghost use Rattle.dai_template.specs.Meeting.{element_in, sorts_of, IsBegun};
ghost use Rattle.dai_template.specs.Renamings.{IsPlaceable, IsRenamed, IsRenamable, IsSought, IsShapeOf, AreLiterals, IsSmallerImage, IsLeastFrom, renamed_literal, renamed_literals, put_in_order, IsTyped, AreKept, AreTypesBelow, IsFreed};

use crate::clause::{Atom, Clause, Shape};
use crate::meeting::may_stand;
use crate::space::Space;
use arrayvec::ArrayVec;
use std::cmp::Ordering;

impl Space {
    ghost use Rattle.dai_template.specs.Spaces.{IsClauseOf, IsClauseOfSpace};
    ghost use Rattle.dai_template.specs.Renamings.{IsSmallerRenaming, IsCanonicalForm};
    ghost use Rattle.dai_model.specs.Subsumption.{IsCanonical};
    ghost use Rattle.dai_template.specs.Spaces.{clause_of};

    /// The least of the clause's renamings by their lists of literals. A renaming permutes the variables of a
    /// type that isn't ordered. It takes no memory.
    pub fn canonical(&self, clause: &Clause) -> Clause
        requires { IsClauseOfSpace self.now clause.now }
        ensures { (P : Protocol) (B : Bounds) → IsClauseOf P B self.now clause.now → IsCanonicalForm P B self.now clause.now result }
    {
        match self.smaller(clause) {
            Some(smaller) => self.canonical(&smaller),
            None => clause.copy(),
        }
    }

    /// A renaming of the clause that comes before it, if there is one.
    pub(crate) fn smaller(&self, clause: &Clause) -> Option<Clause>
        requires { IsClauseOfSpace self.now clause.now }
        ensures least { (P : Protocol) (B : Bounds) → IsClauseOf P B self.now clause.now → result ≡ None → IsCanonical P B (clause_of self.now clause.now) }
        ensures smaller { IfSome result (λ smaller. (P : Protocol) (B : Bounds) → IsClauseOf P B self.now clause.now → IsSmallerRenaming P B self.now clause.now smaller) }
    {
        let shape = &self.shapes[clause.shape as usize];
        let literals = clause.lits.as_slice();
        let kept = kept_orders(&self.ordered, shape, literals);
        let lits = smaller_from(&kept, shape, literals, 0, 0, [0; 32])?;
        Some(Clause {
            shape: clause.shape,
            lits,
        })
    }
}

/// The new number of each variable, where none changes.
const UNMOVED: [u16; 32] = [
    0, 1, 2, 3, 0, 1, 2, 3, 0, 1, 2, 3, 0, 1, 2, 3, 0, 1, 2, 3, 0, 1, 2, 3, 0, 1, 2, 3, 0, 1, 2, 3,
];

/// Which of the types keep the order of their variables in the search: those that are ordered, and those of
/// which no literal has a variable.
fn kept_orders(ordered: &[bool], shape: &Shape, literals: &[u8]) -> [bool; 8]
    requires { IsTyped (length ordered.now) (map atom_of shape.now.atoms.items) literals.now }
    ensures { AreKept ordered.now (map atom_of shape.now.atoms.items) literals.now result }
{
    let mut kept = [true; 8];
    for literal in literals {
        free_types(&shape.atoms[usize::from(literal / 2)], ordered, &mut kept);
    }
    kept
}

/// Lets go the types of the atom's variables, but for the ordered ones.
fn free_types(atom: &Atom, ordered: &[bool], kept: &mut [bool])
    requires known { AreTypesBelow (length ordered.now) (atom_of atom.now) }
    requires long { AreTypesBelow (length kept.old) (atom_of atom.now) }
    ensures { IsFreed ordered.now kept.old kept.new (atom_of atom.now) }
{
    match atom {
        Atom::Tuple { vars, .. } => free_each(vars, ordered, kept),
        Atom::IsInd { var, .. } => {
            kept[usize::from(var.0)] = ordered[usize::from(var.0)];
        }
    }
}

/// The same for these variables.
fn free_each(vars: &[(u8, u8)], ordered: &[bool], kept: &mut [bool])
    requires known { All (λ (v : Variable). v.sort < length ordered.now) (map variable_of vars.now) }
    requires long { All (λ (v : Variable). v.sort < length kept.old) (map variable_of vars.now) }
    ensures { IsFreed ordered.now kept.old kept.new (tuple 0 (map variable_of vars.now)) }
{
    for var in vars {
        kept[usize::from(var.0)] = ordered[usize::from(var.0)];
    }
}

/// The literals of a renaming that come before these, among those that go on from this variable of this type.
fn smaller_from(
    ordered: &[bool],
    shape: &Shape,
    literals: &[u8],
    sort: u8,
    number: u8,
    to: [u16; 32],
) -> Option<ArrayVec<u8, 8>>
    requires { IsSought ordered.now shape.now.counts.items (map atom_of shape.now.atoms.items) literals.now sort number to }
    ensures least { (P : Protocol) → IsShapeOf P ordered.now shape.now.counts.items (map atom_of shape.now.atoms.items) → AreLiterals P shape.now.counts.items literals.now → IsBegun P shape.now.counts.items shape.now.counts.items sort number to → result ≡ None → IsLeastFrom P shape.now.counts.items literals.now sort number to }
    ensures smaller { IfSome result (λ smaller. (P : Protocol) → IsShapeOf P ordered.now shape.now.counts.items (map atom_of shape.now.atoms.items) → AreLiterals P shape.now.counts.items literals.now → IsBegun P shape.now.counts.items shape.now.counts.items sort number to → IsSmallerImage P shape.now.counts.items literals.now smaller.items) }
{
    if usize::from(sort) == shape.counts.len() {
        return smaller_image(shape, literals, &to);
    }
    if number == shape.counts[usize::from(sort)] {
        return smaller_from(ordered, shape, literals, sort + 1, 0, to);
    }
    for new in 0..u16::from(shape.counts[usize::from(sort)]) {
        if may_stand(ordered[usize::from(sort)], sort, number, new, &to) {
            let mut more = to;
            more[4 * usize::from(sort) + usize::from(number)] = new;
            let found = smaller_from(ordered, shape, literals, sort, number + 1, more);
            if found.is_some() {
                return found;
            }
        }
    }
    None
}

/// The literals under the new numbers, if they come before these.
fn smaller_image(shape: &Shape, literals: &[u8], to: &[u16]) -> Option<ArrayVec<u8, 8>>
    requires few { length literals.now ≤ 8 }
    requires renamed { (P : Protocol) × IsRenamed P shape.now.counts.items (map atom_of shape.now.atoms.items) to.now }
    requires literals { All (λ literal. literal < 2 * length (map atom_of shape.now.atoms.items)) literals.now }
    ensures none { (P : Protocol) → IsRenamed P shape.now.counts.items (map atom_of shape.now.atoms.items) to.now → result ≡ None → slice_cmp nat_cmp literals.now (renamed_literals P shape.now.counts.items to.now literals.now) ≢ Ordering.Greater }
    ensures some { IfSome result (λ smaller. (P : Protocol) → IsRenamed P shape.now.counts.items (map atom_of shape.now.atoms.items) to.now → smaller.items ≡ renamed_literals P shape.now.counts.items to.now literals.now) }
    ensures less { IfSome result (λ smaller. slice_cmp nat_cmp smaller.items literals.now ≡ Ordering.Less) }
{
    let image = image(shape, literals, to);
    if image.as_slice().cmp(literals) == Ordering::Less {
        Some(image)
    } else {
        None
    }
}

/// The literals under the new numbers, in order.
fn image(shape: &Shape, literals: &[u8], to: &[u16]) -> ArrayVec<u8, 8>
    requires few { length literals.now ≤ 8 }
    requires renamed { (P : Protocol) × IsRenamed P shape.now.counts.items (map atom_of shape.now.atoms.items) to.now }
    requires literals { All (λ literal. literal < 2 * length (map atom_of shape.now.atoms.items)) literals.now }
    ensures { (P : Protocol) → IsRenamed P shape.now.counts.items (map atom_of shape.now.atoms.items) to.now → result.items ≡ renamed_literals P shape.now.counts.items to.now literals.now }
{
    let mut image = ArrayVec::new();
    for literal in literals {
        let atom = &shape.atoms[usize::from(literal / 2)];
        put(&mut image, renamed(&shape.counts, atom, *literal, to));
    }
    image
}

/// Puts the number into the list in order.
fn put(numbers: &mut ArrayVec<u8, 8>, number: u8)
    requires { array_vec_len numbers.old < 8 }
    ensures { numbers.new.items ≡ put_in_order number numbers.old.items }
{
    let mut at = 0;
    while at < numbers.len() && numbers[at] <= number {
        at += 1;
    }
    numbers.insert(at, number);
}

/// The literal of this atom under the new numbers. The atoms of a relation stand in lexicographic order, so it
/// is as far from the literal as the tuple of new numbers from that of the old ones.
fn renamed(counts: &[u8], atom: &Atom, literal: u8, to: &[u16]) -> u8
    requires { IsRenamable counts.now (atom_of atom.now) literal to.now }
    ensures { (P : Protocol) (atoms : List Model.Atom) → IsRenamed P counts.now atoms to.now → literal < 2 * length atoms → atom_of atom.now ≡ slice_index_or atoms (literal / 2) no_atom → result ≡ renamed_literal P counts.now to.now literal }
{
    match atom {
        Atom::Tuple { vars, .. } => moved(
            literal,
            place(vars, counts, &UNMOVED),
            place(vars, counts, to),
        ),
        Atom::IsInd { var, .. } => {
            let new = to[4 * usize::from(var.0) + usize::from(var.1)];
            moved(literal, usize::from(var.1), usize::from(new))
        }
    }
}

/// The literal of the atom that is as far from the literal's atom as the new place from the old one.
fn moved(literal: u8, old: usize, new: usize) -> u8
    requires after { 2 * old ≤ literal }
    requires few { literal + 2 * new < 256 }
    ensures { result + 2 * old ≡ literal + 2 * new }
{
    (usize::from(literal) + 2 * new - 2 * old) as u8
}

/// The place of the tuple of the variables' new numbers among all tuples of these types, in lexicographic order.
fn place(vars: &[(u8, u8)], counts: &[u8], to: &[u16]) -> usize
    requires { IsPlaceable counts.now to.now (map variable_of vars.now) }
    ensures { result ≡ tuple_place counts.now (sorts_of (map variable_of vars.now)) (map (element_in to.now) (map variable_of vars.now)) }
{
    let mut place = 0;
    for var in vars {
        let count = counts[usize::from(var.0)];
        let number = to[4 * usize::from(var.0) + usize::from(var.1)];
        place = place * usize::from(count) + usize::from(number);
    }
    place
}
