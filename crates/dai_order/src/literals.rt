//! Weakenings with one literal more.
ghost use Rattle.std.specs.Prelude.{◌≡◌, ◌<◌, ◌≤◌, ◌↔◌, IsTrue, true, false, length, OnOk};
ghost use Rattle.arrayvec.specs.ArrayVec.{array_vec_len};
ghost use Rattle.dai_model.specs.Protocol.{Protocol};
ghost use Rattle.dai_model.specs.Template.{Bounds};
ghost use Rattle.dai_template.specs.Spaces.{IsClauseOf, clause_of};
ghost use Rattle.dai_template.specs.Renamings.{put_in_order};
ghost use Rattle.dai_order.specs.Forms.{AreForms, HasGained, IsBesideForms};
ghost use Rattle.dai_order.specs.Weakenings.{IsNewAtom, HasLiteralOver, IsWeakerByLiteral, HasRoomFor};

use crate::forms::add_form;
use arrayvec::ArrayVec;
use dai_base::Spent;
use dai_template::{Clause, Space};

/// Puts the canonical forms of the clause's immediate weakenings with one literal more into the list.
pub fn add_with_literal(space: &Space, clause: &Clause, list: &mut Vec<Clause>) -> Result<(), Spent>
    requires { IsBesideForms space.now clause.now list.old.items }
    ensures { OnOk result ((P : Protocol) (B : Bounds) → IsClauseOf P B space.now clause.now → AreForms P B space.now list.old.items → HasGained P B space.now (IsWeakerByLiteral P B (clause_of space.now clause.now)) list.old.items list.new.items) }
{
    if clause.lits.len() == usize::from(space.lits) {
        return Ok(());
    }
    for atom in 0..space.shapes[clause.shape as usize].atoms.len() as u8 {
        add_over_atom(space, clause, atom, list)?;
    }
    Ok(())
}

/// Puts in those with a literal over this atom, if the clause has none over it.
fn add_over_atom(
    space: &Space,
    clause: &Clause,
    atom: u8,
    list: &mut Vec<Clause>,
) -> Result<(), Spent>
    requires { HasRoomFor space.now clause.now atom list.old.items }
    ensures { OnOk result ((P : Protocol) (B : Bounds) → IsClauseOf P B space.now clause.now → AreForms P B space.now list.old.items → HasGained P B space.now (HasLiteralOver P (clause_of space.now clause.now) atom) list.old.items list.new.items) }
{
    if names(clause.lits.as_slice(), atom) {
        return Ok(());
    }
    add_form(space, &with_literal(clause, 2 * atom), list)?;
    add_form(space, &with_literal(clause, 2 * atom + 1), list)?;
    Ok(())
}

/// Whether one of the literals is over the atom.
fn names(literals: &[u8], atom: u8) -> bool
    ensures some { result ≡ true → IsNewAtom literals.now atom → ⊥ }
    ensures none { result ≡ false → IsNewAtom literals.now atom }
{
    for literal in literals {
        if literal / 2 == atom {
            return true;
        }
    }
    false
}

/// The clause with the literal in order among its own.
fn with_literal(clause: &Clause, literal: u8) -> Clause
    requires { array_vec_len clause.now.lits < 8 }
    ensures shape { result.shape ≡ clause.now.shape }
    ensures literals { result.lits.items ≡ put_in_order literal clause.now.lits.items }
{
    let mut longer = clause.copy();
    put(&mut longer.lits, literal);
    longer
}

/// Puts the number into the list in order.
pub fn put(numbers: &mut ArrayVec<u8, 8>, number: u8)
    requires { array_vec_len numbers.old < 8 }
    ensures { numbers.new.items ≡ put_in_order number numbers.old.items }
{
    let mut place = 0;
    while place < numbers.len() && numbers[place] <= number {
        place += 1;
    }
    numbers.insert(place, number);
}
