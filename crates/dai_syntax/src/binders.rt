//! Binders: names and variables with their types.
ghost use Rattle.std.specs.Prelude.{◌≡◌, ◌∷◌, [], IfOk, IfErr};
ghost use Rattle.dai_syntax.specs.Symbols.{binder, binders, bracketed, type_mark, v_mark, v_binder, v_binders};
ghost use Rattle.dai_syntax.specs.Reading.{Reads, Leaves, FailsAt};
ghost use Rattle.dai_syntax.specs.Effects.{binder_effect};

use crate::cursor::Cursor;
use crate::error::SyntaxError;
use crate::tree::{Binder, Name};
use dai_lex::Kind;

/// What is bound.
#[derive(Clone, Copy, Debug, PartialEq, Eq)]
pub enum Class {
    /// An argument of a relation's declaration: a variable or a name, with its type.
    Argument,
    /// A parameter or a local: a name, with its type.
    Parameter,
    /// A variable of a quantifier, with its type or without.
    Variable,
}

/// Binders in round brackets, or none.
pub fn bracketed(cursor: &mut Cursor, class: Class) -> Result<Vec<Binder>, SyntaxError>
    ensures read { IfOk result (λ bs. Reads (bracketed class) cursor.old (v_binders bs.items) cursor.new) }
    ensures failed { IfErr result (FailsAt (bracketed class) cursor.old) }
{
    if !cursor.take(Kind::OpenRound) {
        return Ok(Vec::new(cursor.alloc));
    }
    let list = binders(cursor, class)?;
    cursor.expect(Kind::CloseRound)?;
    Ok(list)
}

/// Binders with commas between them.
pub fn binders(cursor: &mut Cursor, class: Class) -> Result<Vec<Binder>, SyntaxError>
    ensures read { IfOk result (λ bs. Reads (binders class) cursor.old (v_binders bs.items) cursor.new) }
    ensures failed { IfErr result (FailsAt (binders class) cursor.old) }
{
    let mut list = Vec::new(cursor.alloc);
    list.push(binder(cursor, class)?)?;
    while cursor.take(Kind::Comma) {
        list.push(binder(cursor, class)?)?;
    }
    Ok(list)
}

/// One binder.
fn binder(cursor: &mut Cursor, class: Class) -> Result<Binder, SyntaxError>
    ensures read { IfOk result (λ b. Reads (binder class) cursor.old (v_binder b) cursor.new) }
    ensures failed { IfErr result (FailsAt (binder class) cursor.old) }
{
    let name = bound_name(cursor, class)?;
    let sort = type_mark(cursor, class)?;
    Ok(Binder { name, sort })
}

/// The name or the variable of a binder.
fn bound_name(cursor: &mut Cursor, class: Class) -> Result<Name, SyntaxError>
    ensures read { IfOk result (λ n. Leaves (binder class) cursor.old (type_mark class ∷ []) cursor.new (binder_effect n)) }
    ensures failed { IfErr result (FailsAt (binder class) cursor.old) }
{
    match class {
        Class::Argument => {
            if cursor.is_at(Kind::Upper) {
                Ok(cursor.word(Kind::Upper)?)
            } else if cursor.is_at(Kind::Lower) {
                Ok(cursor.word(Kind::Lower)?)
            } else {
                Err(cursor.refusal())
            }
        }
        Class::Parameter => {
            if cursor.is_at(Kind::Lower) {
                Ok(cursor.word(Kind::Lower)?)
            } else {
                Err(cursor.refusal())
            }
        }
        Class::Variable => {
            if cursor.is_at(Kind::Upper) {
                Ok(cursor.word(Kind::Upper)?)
            } else {
                Err(cursor.refusal())
            }
        }
    }
}

/// A colon and a type. For a variable both may be left out.
pub fn type_mark(cursor: &mut Cursor, class: Class) -> Result<Option<Name>, SyntaxError>
    ensures read { IfOk result (λ m. Reads (type_mark class) cursor.old (v_mark m) cursor.new) }
    ensures failed { IfErr result (FailsAt (type_mark class) cursor.old) }
{
    if cursor.take(Kind::Colon) {
        return Ok(Some(cursor.name()?));
    }
    match class {
        Class::Variable => Ok(None),
        Class::Argument => Err(cursor.refusal()),
        Class::Parameter => Err(cursor.refusal()),
    }
}
