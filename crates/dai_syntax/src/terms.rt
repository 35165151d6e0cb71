//! Terms, and what follows the name of an atom.
ghost use Rattle.std.specs.Prelude.{◌≡◌, IfOk, IfErr, Some};
ghost use Rattle.dai_syntax.specs.Symbols.{term, terms, targets, atom_rest, comparison, v_term, v_terms, v_operator, v_rest};
ghost use Rattle.dai_syntax.specs.Reading.{Reads, FailsAt, kind_ahead};
ghost use Rattle.dai_syntax.specs.Endings.{rest_of, sign_of};

use crate::binders::{Class, type_mark};
use crate::cursor::Cursor;
use crate::error::SyntaxError;
use crate::tree::{Arg, Op};
use dai_lex::Kind;

/// For how many terms there is room at first.
const USUAL_TERMS: usize = 2;

/// What follows the name of an atom.
#[derive(Drop)]
pub enum Ending {
    Bare,
    Applied(Vec<Arg>),
    Compared(Op, Arg),
}

/// A name, or a variable with its type or without.
pub fn term(cursor: &mut Cursor) -> Result<Arg, SyntaxError>
    ensures read { IfOk result (λ a. Reads term cursor.old (v_term a) cursor.new) }
    ensures failed { IfErr result (FailsAt term cursor.old) }
{
    let Some(kind) = cursor.kind() else {
        return Err(cursor.refusal());
    };
    match kind {
        Kind::Lower => {
            Ok(Arg::Symbol {
                name: cursor.word(Kind::Lower)?,
            })
        }
        Kind::Upper => {
            let name = cursor.word(Kind::Upper)?;
            Ok(Arg::Variable {
                name,
                sort: type_mark(cursor, Class::Variable)?,
            })
        }
        _ => Err(cursor.refusal()),
    }
}

/// Terms with commas between them.
fn terms(cursor: &mut Cursor) -> Result<Vec<Arg>, SyntaxError>
    ensures read { IfOk result (λ list. Reads terms cursor.old (v_terms list.items) cursor.new) }
    ensures failed { IfErr result (FailsAt terms cursor.old) }
{
    let mut list = Vec::with_capacity(cursor.alloc, USUAL_TERMS)?;
    list.push(term(cursor)?)?;
    while cursor.take(Kind::Comma) {
        list.push(term(cursor)?)?;
    }
    Ok(list)
}

/// The terms of a target in round brackets, or none.
pub fn targets(cursor: &mut Cursor) -> Result<Vec<Arg>, SyntaxError>
    ensures read { IfOk result (λ list. Reads targets cursor.old (v_terms list.items) cursor.new) }
    ensures failed { IfErr result (FailsAt targets cursor.old) }
{
    if !cursor.take(Kind::OpenRound) {
        return Ok(Vec::new(cursor.alloc));
    }
    let list = terms(cursor)?;
    cursor.expect(Kind::CloseRound)?;
    Ok(list)
}

/// A sign of comparison.
pub fn comparison(cursor: &mut Cursor) -> Result<Op, SyntaxError>
    ensures read { IfOk result (λ op. Reads comparison cursor.old (v_operator op) cursor.new) }
    ensures failed { IfErr result (FailsAt comparison cursor.old) }
{
    let Some(kind) = cursor.kind() else {
        return Err(cursor.refusal());
    };
    match kind {
        Kind::Equal => Ok(sign(cursor, Kind::Equal, Op::Equal)),
        Kind::NotEqual => Ok(sign(cursor, Kind::NotEqual, Op::Unequal)),
        Kind::Less => Ok(sign(cursor, Kind::Less, Op::Less)),
        Kind::LessOrEqual => Ok(sign(cursor, Kind::LessOrEqual, Op::LessEqual)),
        _ => Err(cursor.refusal()),
    }
}

/// Passes the sign of a comparison.
fn sign(cursor: &mut Cursor, kind: Kind, op: Op) -> Op
    requires ahead { kind_ahead cursor.old.rest.now ≡ Some kind }
    requires sign { kind ≡ sign_of op }
    ensures { Reads comparison cursor.old (v_operator result) cursor.new }
{
    let _token = cursor.pass(kind);
    op
}

/// What follows the name that begins an operand.
pub fn atom_end(cursor: &mut Cursor) -> Result<Ending, SyntaxError>
    ensures read { IfOk result (λ e. Reads atom_rest cursor.old (v_rest (rest_of e)) cursor.new) }
    ensures failed { IfErr result (FailsAt atom_rest cursor.old) }
{
    let Some(kind) = cursor.kind() else {
        return Ok(Ending::Bare);
    };
    match kind {
        Kind::OpenRound => applied(cursor),
        Kind::Equal => compared(cursor, Kind::Equal, Op::Equal),
        Kind::NotEqual => compared(cursor, Kind::NotEqual, Op::Unequal),
        Kind::Less => compared(cursor, Kind::Less, Op::Less),
        Kind::LessOrEqual => compared(cursor, Kind::LessOrEqual, Op::LessEqual),
        _ => Ok(Ending::Bare),
    }
}

/// Arguments in round brackets.
fn applied(cursor: &mut Cursor) -> Result<Ending, SyntaxError>
    requires { kind_ahead cursor.old.rest.now ≡ Some Kind.OpenRound }
    ensures read { IfOk result (λ e. Reads atom_rest cursor.old (v_rest (rest_of e)) cursor.new) }
    ensures failed { IfErr result (FailsAt atom_rest cursor.old) }
{
    let _sign = cursor.pass(Kind::OpenRound);
    let list = terms(cursor)?;
    cursor.expect(Kind::CloseRound)?;
    Ok(Ending::Applied(list))
}

/// A sign of comparison, and what stands to its right.
fn compared(cursor: &mut Cursor, kind: Kind, op: Op) -> Result<Ending, SyntaxError>
    requires ahead { kind_ahead cursor.old.rest.now ≡ Some kind }
    requires sign { kind ≡ sign_of op }
    ensures read { IfOk result (λ e. Reads atom_rest cursor.old (v_rest (rest_of e)) cursor.new) }
    ensures failed { IfErr result (FailsAt atom_rest cursor.old) }
{
    let _token = cursor.pass(kind);
    Ok(Ending::Compared(op, term(cursor)?))
}
