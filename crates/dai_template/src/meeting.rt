//! Whether a structure meets a clause.
ghost use Rattle.std.specs.Prelude.{◌≡◌, ◌≢◌, ◌↔◌, ◌<◌, ◌≤◌, ◌+◌, ◌*◌, true, false, [], length, map, drop, slice_index_or};
ghost use Rattle.std.specs.Prelude.{ℕ, None, IsTrue, IfSome, nat_eq, slice_index};
ghost use Rattle.std.specs.List.{All, Contains};
ghost use Rattle.dai_model.specs.Protocol.{Protocol};
ghost use Rattle.dai_model.specs.Clause.{Variable, literal_among};
ghost use Rattle.dai_logic.specs.Tables.{structure_of, tables_of, tuple_place};
ghost use Rattle.dai_template.specs.Atoms.{variable_of, atom_of};
ghost use Rattle.dai_template.specs.Meeting.{element_in, sorts_of, IsReadAt, IsValued, atom_in, literal_in};
ghost use Rattle.dai_template.specs.Meeting.{MayStand, IsVariableIn, AreAll, IsBound, AreEnough, HasRoom, AreSpaced};
ghost use Rattle.dai_template.specs.Meeting.{IsBeside, LeavesRoom, IsPartial, IsJudged, IsMetFrom, IsOpen};

use crate::clause::{Atom, Clause, Shape};
use crate::space::Space;
use dai_logic::Structure;

impl Space {
    ghost use Rattle.std.specs.Prelude.{◌↔◌, IsTrue};
    ghost use Rattle.dai_model.specs.Clause.{Meets};
    ghost use Rattle.dai_model.specs.Template.{Bounds};
    ghost use Rattle.dai_logic.specs.Tables.{Fits};
    ghost use Rattle.dai_template.specs.Spaces.{IsClauseOf, IsAskedOf, clause_of};

    /// Whether the structure meets the clause: every way to let the clause's variables stand for elements, those
    /// of one type for different ones and in order where the type is ordered, makes some literal true. It goes over
    /// the variables that the literals name alone, stops at the first way that makes no literal true, and takes no
    /// memory.
    pub fn meets(&self, s: &Structure, clause: &Clause) -> bool
        requires { IsAskedOf self.now clause.now s.now }
        ensures { (P : Protocol) (B : Bounds) → IsClauseOf P B self.now clause.now → Fits P s.now → (IsTrue result ↔ Meets P (structure_of P s.now) (clause_of self.now clause.now)) }
    {
        let shape = &self.shapes[clause.shape as usize];
        if !are_enough(&shape.counts, &s.sizes) {
            return true;
        }
        let mut bound = [false; 32];
        let mut values = [0; 32];
        is_met_from(
            &self.ordered,
            shape,
            clause.lits.as_slice(),
            s,
            0,
            &mut bound,
            &mut values,
        )
    }
}

/// The value of the relation's tuple, where variable `number` of a type stands for the element at place
/// `4 * sort + number`.
fn relates(s: &Structure, rel: u8, vars: &[(u8, u8)], values: &[u16]) -> bool
    requires { IsReadAt s.now values.now rel (map variable_of vars.now) }
    ensures { result ≡ slice_index_or (slice_index_or (tables_of s.now) rel []) (tuple_place s.now.sizes.items (sorts_of (map variable_of vars.now)) (map (element_in values.now) (map variable_of vars.now))) false }
{
    let mut place = 0;
    for var in vars {
        let size = s.sizes[usize::from(var.0)];
        let element = values[4 * usize::from(var.0) + usize::from(var.1)];
        place = place * usize::from(size) + usize::from(element);
    }
    s.tables[usize::from(rel)][place]
}

/// The value of the atom, where the variables stand for these elements.
fn value(atom: &Atom, s: &Structure, values: &[u16]) -> bool
    requires { (P : Protocol) × IsValued P s.now values.now (atom_of atom.now) }
    ensures { (P : Protocol) → IsValued P s.now values.now (atom_of atom.now) → result ≡ atom_in (structure_of P s.now) values.now (atom_of atom.now) }
{
    match atom {
        Atom::Tuple { rel, vars } => relates(s, *rel, vars, values),
        Atom::IsInd { var, ind } => is_element(s, *ind, var.0, var.1, values),
    }
}

/// Whether the individual is the element that the variable stands for.
fn is_element(s: &Structure, ind: u8, sort: u8, number: u8, values: &[u16]) -> bool
    requires long { length values.now ≡ 32 }
    requires stored { 4 * sort + number < 32 }
    requires known { ind < length s.now.values.items }
    ensures { result ≡ nat_eq (slice_index values.now (4 * sort + number)) (slice_index s.now.values.items ind) }
{
    values[4 * usize::from(sort) + usize::from(number)] == s.values[usize::from(ind)]
}

/// Whether the literal is true, where the variables stand for these elements.
fn is_true(shape: &Shape, literal: u8, s: &Structure, values: &[u16]) -> bool
    requires literal { literal < 2 * length (map atom_of shape.now.atoms.items) }
    requires valued { (P : Protocol) × IsValued P s.now values.now (literal_among (map atom_of shape.now.atoms.items) literal).atom }
    ensures { (P : Protocol) → IsValued P s.now values.now (literal_among (map atom_of shape.now.atoms.items) literal).atom → result ≡ literal_in (structure_of P s.now) values.now (literal_among (map atom_of shape.now.atoms.items) literal) }
{
    let is_negated = literal % 2 == 1;
    value(&shape.atoms[usize::from(literal / 2)], s, values) != is_negated
}

/// Whether the element may stand for this variable of the type: it is above those of the variables before it
/// where the type is ordered, and else none of them. Variable `number` of a type has its element at place
/// `4 * sort + number`.
pub fn may_stand(ordered: bool, sort: u8, number: u8, element: u16, values: &[u16]) -> bool
    requires long { length values.now ≡ 32 }
    requires known { sort < 8 }
    requires few { number ≤ 4 }
    ensures only { result ≡ true → MayStand ordered sort number element values.now }
    ensures exact { MayStand ordered sort number element values.now → result ≡ true }
{
    for before in 0..number {
        let other = values[4 * usize::from(sort) + usize::from(before)];
        if other == element || (ordered && other > element) {
            return false;
        }
    }
    true
}

/// Whether each type has at least as many elements as variables.
fn are_enough(counts: &[u8], sizes: &[u16]) -> bool
    requires { length counts.now ≤ length sizes.now }
    ensures { IsTrue result ↔ AreEnough counts.now sizes.now }
{
    for (sort, count) in counts.iter().enumerate() {
        if sizes[sort] < u16::from(*count) {
            return false;
        }
    }
    true
}

/// The first of the variables that stands for no element yet.
fn first_unbound(vars: &[(u8, u8)], bound: &[bool]) -> Option<(u8, u8)>
    requires long { length bound.now ≡ 32 }
    requires stored { All (λ (v : Variable). 4 * v.sort + v.number < 32) (map variable_of vars.now) }
    ensures none { result ≡ None → All (IsBound bound.now) (map variable_of vars.now) }
    ensures some { IfSome result (λ v. Contains (map variable_of vars.now) (variable_of v) × (IsBound bound.now (variable_of v) → ⊥)) }
{
    for var in vars {
        if !bound[4 * usize::from(var.0) + usize::from(var.1)] {
            return Some(*var);
        }
    }
    None
}

/// The first variable of the atom that stands for no element yet.
fn unbound(atom: &Atom, bound: &[bool]) -> Option<(u8, u8)>
    requires long { length bound.now ≡ 32 }
    requires stored { AreAll (λ (v : Variable). 4 * v.sort + v.number < 32) (atom_of atom.now) }
    ensures none { result ≡ None → AreAll (IsBound bound.now) (atom_of atom.now) }
    ensures some { IfSome result (λ v. IsVariableIn (variable_of v) (atom_of atom.now) × (IsBound bound.now (variable_of v) → ⊥)) }
{
    match atom {
        Atom::Tuple { vars, .. } => first_unbound(vars, bound),
        Atom::IsInd { var, .. } => first_unbound(&[*var], bound),
    }
}

/// Whether the elements of two variables of a type, the first of them earlier, have room between them for those of the
/// variables between, where the type is ordered, and else differ.
fn are_spaced(ordered: bool, first: u8, low: u16, second: u8, high: u16) -> bool
    ensures { IsTrue result ↔ AreSpaced ordered first low second high }
{
    if ordered {
        u32::from(low) + u32::from(second) <= u32::from(high) + u32::from(first)
    } else {
        low != high
    }
}

/// Whether two different variables of a type may stand for these elements side by side.
fn is_beside(ordered: bool, number: u8, element: u16, other: u8, theirs: u16) -> bool
    requires { number ≢ other }
    ensures { IsTrue result ↔ IsBeside ordered number element other theirs }
{
    if number < other {
        are_spaced(ordered, number, element, other, theirs)
    } else {
        are_spaced(ordered, other, theirs, number, element)
    }
}

/// Whether an ordered type of this size has elements below and above this one for the variables before and after.
fn has_room(ordered: bool, count: u8, size: u16, number: u8, element: u16) -> bool
    ensures { IsTrue result ↔ HasRoom ordered count size number element }
{
    !ordered
        || (u16::from(number) <= element
            && u32::from(element) + u32::from(count) <= u32::from(size) + u32::from(number))
}

/// Whether the variable may stand for the element beside the variables of its type that stand for one, so that there
/// is room for the others.
fn leaves_room(
    ordered: bool,
    count: u8,
    size: u16,
    var: (u8, u8),
    element: u16,
    bound: &[bool],
    values: &[u16],
) -> bool
    requires places { length bound.now ≡ 32 }
    requires long { length values.now ≡ 32 }
    requires known { var.0 < 8 }
    requires few { count ≤ 4 }
    requires fresh { IsBound bound.now (variable_of var) → ⊥ }
    ensures { IsTrue result ↔ LeavesRoom ordered count size var.0 var.1 element bound.now values.now }
{
    for other in 0..count {
        let place = 4 * usize::from(var.0) + usize::from(other);
        if bound[place] && !is_beside(ordered, var.1, element, other, values[place]) {
            return false;
        }
    }
    has_room(ordered, count, size, var.1, element)
}

/// Whether each way to let the other variables stand for elements makes some literal from this place on true. Where
/// each does, what stands in the arrays is as it was.

fn is_met_from(
    ordered: &[bool],
    shape: &Shape,
    literals: &[u8],
    s: &Structure,
    at: usize,
    bound: &mut [bool],
    values: &mut [u16],
) -> bool
    requires { IsOpen ordered.now shape.now.counts.items (map atom_of shape.now.atoms.items) literals.now s.now at bound.old values.old }
    ensures only { (P : Protocol) → IsJudged P ordered.now shape.now.counts.items (map atom_of shape.now.atoms.items) literals.now s.now → IsPartial P s.now.sizes.items shape.now.counts.items bound.old values.old → result ≡ true → IsMetFrom P shape.now.counts.items (map atom_of shape.now.atoms.items) (drop at literals.now) s.now bound.old values.old }
    ensures exact { (P : Protocol) → IsJudged P ordered.now shape.now.counts.items (map atom_of shape.now.atoms.items) literals.now s.now → IsPartial P s.now.sizes.items shape.now.counts.items bound.old values.old → IsMetFrom P shape.now.counts.items (map atom_of shape.now.atoms.items) (drop at literals.now) s.now bound.old values.old → result ≡ true }
    ensures bound { result ≡ true → bound.new ≡ bound.old }
    ensures values { result ≡ true → values.new ≡ values.old }
{
    if at == literals.len() {
        return false;
    }
    let literal = literals[at];
    let Some(var) = unbound(&shape.atoms[usize::from(literal / 2)], bound) else {
        if is_true(shape, literal, s, values) {
            return true;
        }
        return is_met_from(ordered, shape, literals, s, at + 1, bound, values);
    };
    let sort = usize::from(var.0);
    let (ordered_here, count, size) = (ordered[sort], shape.counts[sort], s.sizes[sort]);
    let place = 4 * sort + usize::from(var.1);
    let before = values[place];
    for element in 0..size {
        if leaves_room(ordered_here, count, size, var, element, bound, values) {
            bound[place] = true;
            values[place] = element;
            if !is_met_from(ordered, shape, literals, s, at, bound, values) {
                return false;
            }
            bound[place] = false;
            values[place] = before;
        }
    }
    true
}
