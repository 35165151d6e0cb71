//! Which clause is below which.
ghost use Rattle.std.specs.Prelude.{◌≡◌, ◌↔◌, ◌<◌, ◌≤◌, ◌+◌, ◌*◌, ℕ, IsTrue, true, false, length, map};
ghost use Rattle.std.specs.List.{All};
ghost use Rattle.dai_model.specs.Protocol.{Protocol};
ghost use Rattle.dai_model.specs.Template.{Bounds};
ghost use Rattle.dai_model.specs.Clause.{Variable, tuple, is_individual};
ghost use Rattle.dai_model.specs.Subsumption.{Subsumes};
ghost use Rattle.dai_template.specs.Atoms.{variable_of, atom_of};
ghost use Rattle.dai_template.specs.Spaces.{IsClauseOf, clause_of};
ghost use Rattle.dai_template.specs.Meeting.{IsBegun};
ghost use Rattle.dai_order.specs.Sides.{ArePair, AreStored, MayGo, EachMayGo, AtomMayGo, MayGoInto, AllMayGo, clause_over, AreSides, IsNoneFrom, IsSoughtFrom, AreReadable};

use dai_template::{Atom, Clause, Shape, Space, may_stand};

/// Whether an injection of variables takes each literal of the left clause to one of the right one (Robinson,
/// 1965). The injection sends the variables of a type to different ones of it, and in order where the type is
/// ordered. It takes no memory.
pub fn subsumes(space: &Space, left: &Clause, right: &Clause) -> bool
    requires { ArePair space.now left.now right.now }
    ensures { (P : Protocol) (B : Bounds) → IsClauseOf P B space.now left.now → IsClauseOf P B space.now right.now → (IsTrue result ↔ Subsumes P (clause_of space.now left.now) (clause_of space.now right.now)) }
{
    let from = &space.shapes[left.shape as usize];
    let to = &space.shapes[right.shape as usize];
    is_below_from(
        space.orders(),
        from,
        left.lits.as_slice(),
        to,
        right.lits.as_slice(),
        0,
        0,
        [0; 32],
    )
}

/// Whether some way to go on from this variable of this type takes the literals to others.
fn is_below_from(
    ordered: &[bool],
    left: &Shape,
    literals: &[u8],
    right: &Shape,
    others: &[u8],
    sort: u8,
    number: u8,
    to: [u16; 32],
) -> bool
    requires { IsSoughtFrom ordered.now left.now literals.now right.now others.now sort number to }
    ensures found { (P : Protocol) → AreSides P ordered.now left.now literals.now right.now others.now → IsBegun P right.now.counts.items left.now.counts.items sort number to → result ≡ true → Subsumes P (clause_over left.now literals.now) (clause_over right.now others.now) }
    ensures none { (P : Protocol) → AreSides P ordered.now left.now literals.now right.now others.now → IsBegun P right.now.counts.items left.now.counts.items sort number to → result ≡ false → IsNoneFrom P left.now literals.now right.now others.now sort number to }
{
    if !all_may_go(left, literals, right, others, sort, number, &to) {
        return false;
    }
    if usize::from(sort) == left.counts.len() {
        return true;
    }
    if number == left.counts[usize::from(sort)] {
        return is_below_from(ordered, left, literals, right, others, sort + 1, 0, to);
    }
    for new in 0..u16::from(right.counts[usize::from(sort)]) {
        if may_stand(ordered[usize::from(sort)], sort, number, new, &to) {
            let mut more = to;
            more[4 * usize::from(sort) + usize::from(number)] = new;
            if is_below_from(
                ordered,
                left,
                literals,
                right,
                others,
                sort,
                number + 1,
                more,
            ) {
                return true;
            }
        }
    }
    false
}

/// Whether each literal may go to one of the others, where the variables before this one go to these numbers.
fn all_may_go(
    left: &Shape,
    literals: &[u8],
    right: &Shape,
    others: &[u8],
    sort: u8,
    number: u8,
    to: &[u16],
) -> bool
    requires { AreReadable left.now literals.now right.now others.now to.now }
    ensures only { result ≡ true → AllMayGo sort number to.now left.now literals.now right.now others.now }
    ensures exact { AllMayGo sort number to.now left.now literals.now right.now others.now → result ≡ true }
{
    for literal in literals {
        let atom = &left.atoms[usize::from(literal / 2)];
        if !may_go_into(atom, *literal, right, others, sort, number, to) {
            return false;
        }
    }
    true
}

/// Whether the literal of this atom may go to one of the others.
fn may_go_into(
    atom: &Atom,
    literal: u8,
    right: &Shape,
    others: &[u8],
    sort: u8,
    number: u8,
    to: &[u16],
) -> bool
    requires long { length to.now ≡ 32 }
    requires stored { AreStored (atom_of atom.now) }
    requires others { All (λ l. l < 2 * length (map atom_of right.now.atoms.items)) others.now }
    ensures only { result ≡ true → MayGoInto sort number to.now (map atom_of right.now.atoms.items) others.now (atom_of atom.now) literal }
    ensures exact { MayGoInto sort number to.now (map atom_of right.now.atoms.items) others.now (atom_of atom.now) literal → result ≡ true }
{
    for other in others {
        let image = &right.atoms[usize::from(other / 2)];
        if literal % 2 == other % 2 && atom_may_go(atom, image, sort, number, to) {
            return true;
        }
    }
    false
}

/// Whether the atom may go to the other, where the variables before this one go to these numbers.
pub fn atom_may_go(atom: &Atom, other: &Atom, sort: u8, number: u8, to: &[u16]) -> bool
    requires long { length to.now ≡ 32 }
    requires stored { AreStored (atom_of atom.now) }
    ensures only { result ≡ true → AtomMayGo sort number to.now (atom_of atom.now) (atom_of other.now) }
    ensures exact { AtomMayGo sort number to.now (atom_of atom.now) (atom_of other.now) → result ≡ true }
{
    match atom {
        Atom::Tuple { rel, vars } => tuple_may_go(*rel, vars, other, sort, number, to),
        Atom::IsInd { var, ind } => equation_may_go(*var, *ind, other, sort, number, to),
    }
}

/// Whether the tuple of the relation may go to the atom.
fn tuple_may_go(rel: u8, vars: &[(u8, u8)], other: &Atom, sort: u8, number: u8, to: &[u16]) -> bool
    requires long { length to.now ≡ 32 }
    requires stored { All (λ (v : Variable). 4 * v.sort + v.number < 32) (map variable_of vars.now) }
    ensures only { result ≡ true → AtomMayGo sort number to.now (tuple rel (map variable_of vars.now)) (atom_of other.now) }
    ensures exact { AtomMayGo sort number to.now (tuple rel (map variable_of vars.now)) (atom_of other.now) → result ≡ true }
{
    match other {
        Atom::Tuple {
            rel: symbol,
            vars: images,
        } => rel == *symbol && each_may_go(vars, images, sort, number, to),
        Atom::IsInd { .. } => false,
    }
}

/// Whether the equation of the variable with the individual may go to the atom.
fn equation_may_go(var: (u8, u8), ind: u8, other: &Atom, sort: u8, number: u8, to: &[u16]) -> bool
    requires long { length to.now ≡ 32 }
    requires stored { 4 * var.0 + var.1 < 32 }
    ensures only { result ≡ true → AtomMayGo sort number to.now (is_individual (variable_of var) ind) (atom_of other.now) }
    ensures exact { AtomMayGo sort number to.now (is_individual (variable_of var) ind) (atom_of other.now) → result ≡ true }
{
    match other {
        Atom::Tuple { .. } => false,
        Atom::IsInd {
            var: image,
            ind: symbol,
        } => ind == *symbol && may_go(var, *image, sort, number, to),
    }
}

/// Whether each of the variables may go to that at its place among the images.
fn each_may_go(vars: &[(u8, u8)], images: &[(u8, u8)], sort: u8, number: u8, to: &[u16]) -> bool
    requires long { length to.now ≡ 32 }
    requires stored { All (λ (v : Variable). 4 * v.sort + v.number < 32) (map variable_of vars.now) }
    ensures only { result ≡ true → EachMayGo sort number to.now (map variable_of vars.now) (map variable_of images.now) }
    ensures exact { EachMayGo sort number to.now (map variable_of vars.now) (map variable_of images.now) → result ≡ true }
{
    if vars.len() != images.len() {
        return false;
    }
    for place in 0..vars.len() {
        if !may_go(vars[place], images[place], sort, number, to) {
            return false;
        }
    }
    true
}

/// Whether the variable may go to the image: it goes there, or comes not before this variable of this type.
fn may_go(var: (u8, u8), image: (u8, u8), sort: u8, number: u8, to: &[u16]) -> bool
    requires long { length to.now ≡ 32 }
    requires stored { 4 * var.0 + var.1 < 32 }
    ensures only { result ≡ true → MayGo sort number to.now (variable_of var) (variable_of image) }
    ensures exact { MayGo sort number to.now (variable_of var) (variable_of image) → result ≡ true }
{
    if var.0 != image.0 {
        return false;
    }
    if var.0 > sort || (var.0 == sort && var.1 >= number) {
        return true;
    }
    to[4 * usize::from(var.0) + usize::from(var.1)] == u16::from(image.1)
}
