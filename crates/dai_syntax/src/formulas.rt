//! Formulas by recursive descent. A chain is read by a loop, so only what nests deepens the recursion.
ghost use Rattle.std.specs.Prelude.{◌≡◌, ◌≤◌, ◌∷◌, [], IfOk, IfErr, Some};
ghost use Rattle.dai_syntax.specs.Symbols.{formula, implication, disjunction, conjunction, operand, v_formula};
ghost use Rattle.dai_syntax.specs.Tree as Tree;
ghost use Rattle.dai_syntax.specs.Trees.{formula_of};
ghost use Rattle.dai_syntax.specs.Endings.{quantifier};
ghost use Rattle.dai_syntax.specs.Viable.{most_levels};
ghost use Rattle.dai_syntax.specs.Reading.{Reads, FailsAt, kind_ahead};

use crate::binders::{Class, binders, type_mark};
use crate::cursor::Cursor;
use crate::error::SyntaxError;
use crate::terms::{Ending, atom_end, comparison, term};
use crate::tree::{Arg, Form, Op};
use dai_lex::Kind;
use std::alloc::{AllocError, AllocFailed, Global};

/// How deep constructs may nest.
pub const MOST_LEVELS: u32 = 200;

/// A formula, where so many constructs are open.
#[cycle(formula)]
pub fn formula(cursor: &mut Cursor, depth: u32) -> Result<Form, SyntaxError>
    requires { depth ≤ most_levels }
    ensures read { IfOk result (λ f. Reads (formula depth) cursor.old (v_formula (formula_of f)) cursor.new) }
    ensures failed { IfErr result (FailsAt (formula depth) cursor.old) }
{
    let read = implication(cursor, depth);
    if !cursor.take(Kind::DoubleArrow) {
        return read;
    }
    let first = read?;
    let second = implication(cursor, depth)?;
    let mut parts = pair(cursor.alloc, first, second)?;
    while cursor.take(Kind::DoubleArrow) {
        parts.push(implication(cursor, depth)?)?;
    }
    Ok(Form::Same { parts })
}

/// `->` groups to the right.
#[cycle(formula)]
fn implication(cursor: &mut Cursor, depth: u32) -> Result<Form, SyntaxError>
    requires { depth ≤ most_levels }
    ensures read { IfOk result (λ f. Reads (implication depth) cursor.old (v_formula (formula_of f)) cursor.new) }
    ensures failed { IfErr result (FailsAt (implication depth) cursor.old) }
{
    let read = disjunction(cursor, depth);
    if !cursor.is_at(Kind::Arrow) {
        return read;
    }
    let left = read?;
    if depth >= MOST_LEVELS {
        return Err(cursor.too_deep());
    }
    let _arrow = cursor.pass(Kind::Arrow);
    let right = implication(cursor, depth + 1)?;
    Ok(Form::Implies {
        left: Box::new(cursor.alloc, left)?,
        right: Box::new(cursor.alloc, right)?,
    })
}

#[cycle(formula)]
fn disjunction(cursor: &mut Cursor, depth: u32) -> Result<Form, SyntaxError>
    requires { depth ≤ most_levels }
    ensures read { IfOk result (λ f. Reads (disjunction depth) cursor.old (v_formula (formula_of f)) cursor.new) }
    ensures failed { IfErr result (FailsAt (disjunction depth) cursor.old) }
{
    let read = conjunction(cursor, depth);
    if !cursor.take(Kind::Bar) {
        return read;
    }
    let first = read?;
    let second = conjunction(cursor, depth)?;
    let mut parts = pair(cursor.alloc, first, second)?;
    while cursor.take(Kind::Bar) {
        parts.push(conjunction(cursor, depth)?)?;
    }
    Ok(Form::Any { parts })
}

#[cycle(formula)]
fn conjunction(cursor: &mut Cursor, depth: u32) -> Result<Form, SyntaxError>
    requires { depth ≤ most_levels }
    ensures read { IfOk result (λ f. Reads (conjunction depth) cursor.old (v_formula (formula_of f)) cursor.new) }
    ensures failed { IfErr result (FailsAt (conjunction depth) cursor.old) }
{
    let read = operand(cursor, depth);
    if !cursor.take(Kind::Ampersand) {
        return read;
    }
    let first = read?;
    let second = operand(cursor, depth)?;
    let mut parts = pair(cursor.alloc, first, second)?;
    while cursor.take(Kind::Ampersand) {
        parts.push(operand(cursor, depth)?)?;
    }
    Ok(Form::All { parts })
}

#[cycle(formula)]
fn operand(cursor: &mut Cursor, depth: u32) -> Result<Form, SyntaxError>
    requires { depth ≤ most_levels }
    ensures read { IfOk result (λ f. Reads (operand depth) cursor.old (v_formula (formula_of f)) cursor.new) }
    ensures failed { IfErr result (FailsAt (operand depth) cursor.old) }
{
    let Some(kind) = cursor.kind() else {
        return Err(cursor.refusal());
    };
    match kind {
        Kind::WordTrue => {
            let _word = cursor.pass(Kind::WordTrue);
            Ok(Form::Truth { value: true })
        }
        Kind::WordFalse => {
            let _word = cursor.pass(Kind::WordFalse);
            Ok(Form::Truth { value: false })
        }
        Kind::Lower => atom(cursor, depth),
        Kind::Upper => comparison_of_variable(cursor, depth),
        Kind::Tilde => negation(cursor, depth),
        Kind::OpenRound => bracket(cursor, depth),
        Kind::WordForall => quantified(cursor, depth, Kind::WordForall, true),
        Kind::WordExists => quantified(cursor, depth, Kind::WordExists, false),
        _ => Err(cursor.refusal()),
    }
}

#[cycle(formula)]
fn negation(cursor: &mut Cursor, depth: u32) -> Result<Form, SyntaxError>
    requires within { depth ≤ most_levels }
    requires ahead { kind_ahead cursor.old.rest.now ≡ Some Kind.Tilde }
    ensures read { IfOk result (λ f. Reads (operand depth) cursor.old (v_formula (formula_of f)) cursor.new) }
    ensures failed { IfErr result (FailsAt (operand depth) cursor.old) }
{
    if depth >= MOST_LEVELS {
        return Err(cursor.too_deep());
    }
    let _sign = cursor.pass(Kind::Tilde);
    let body = operand(cursor, depth + 1)?;
    Ok(Form::Not {
        body: Box::new(cursor.alloc, body)?,
    })
}

#[cycle(formula)]
fn bracket(cursor: &mut Cursor, depth: u32) -> Result<Form, SyntaxError>
    requires within { depth ≤ most_levels }
    requires ahead { kind_ahead cursor.old.rest.now ≡ Some Kind.OpenRound }
    ensures read { IfOk result (λ f. Reads (operand depth) cursor.old (v_formula (formula_of f)) cursor.new) }
    ensures failed { IfErr result (FailsAt (operand depth) cursor.old) }
{
    if depth >= MOST_LEVELS {
        return Err(cursor.too_deep());
    }
    let _sign = cursor.pass(Kind::OpenRound);
    let inner = formula(cursor, depth + 1)?;
    cursor.expect(Kind::CloseRound)?;
    Ok(inner)
}

/// A quantifier reaches as far as its body can.
#[cycle(formula)]
fn quantified(
    cursor: &mut Cursor,
    depth: u32,
    kind: Kind,
    universal: bool,
) -> Result<Form, SyntaxError>
    requires within { depth ≤ most_levels }
    requires ahead { kind_ahead cursor.old.rest.now ≡ Some kind }
    requires word { kind ≡ quantifier universal }
    ensures read { IfOk result (λ f. Reads (operand depth) cursor.old (v_formula (formula_of f)) cursor.new) }
    ensures failed { IfErr result (FailsAt (operand depth) cursor.old) }
{
    if depth >= MOST_LEVELS {
        return Err(cursor.too_deep());
    }
    let word = cursor.pass(kind);
    let variables = binders(cursor, Class::Variable)?;
    cursor.expect(Kind::Dot)?;
    let body = formula(cursor, depth + 1)?;
    Ok(Form::Quant {
        universal,
        binders: variables,
        body: Box::new(cursor.alloc, body)?,
        at: word.start,
    })
}

/// A relation with its arguments, or a comparison that begins with a name.
fn atom(cursor: &mut Cursor, depth: u32) -> Result<Form, SyntaxError>
    requires { kind_ahead cursor.old.rest.now ≡ Some Kind.Lower }
    ensures read { IfOk result (λ f. Reads (operand depth) cursor.old (v_formula (formula_of f)) cursor.new) }
    ensures failed { IfErr result (FailsAt (operand depth) cursor.old) }
{
    let name = cursor.word(Kind::Lower)?;
    match atom_end(cursor)? {
        Ending::Bare => Ok(Form::Atom {
            name,
            args: Vec::new(cursor.alloc),
        }),
        Ending::Applied(args) => Ok(Form::Atom { name, args }),
        Ending::Compared(op, right) => compared(cursor.alloc, Arg::Symbol { name }, op, right),
    }
}

fn comparison_of_variable(cursor: &mut Cursor, depth: u32) -> Result<Form, SyntaxError>
    requires { kind_ahead cursor.old.rest.now ≡ Some Kind.Upper }
    ensures read { IfOk result (λ f. Reads (operand depth) cursor.old (v_formula (formula_of f)) cursor.new) }
    ensures failed { IfErr result (FailsAt (operand depth) cursor.old) }
{
    let name = cursor.word(Kind::Upper)?;
    let sort = type_mark(cursor, Class::Variable)?;
    let op = comparison(cursor)?;
    let right = term(cursor)?;
    compared(cursor.alloc, Arg::Variable { name, sort }, op, right)
}

/// A comparison. Its sides are boxed, so that a formula is small.
fn compared(alloc: Global, left: Arg, op: Op, right: Arg) -> Result<Form, SyntaxError>
    ensures form { IfOk result (λ f. formula_of f ≡ Tree.comparison left op right) }
    ensures spent { IfErr result (λ e. e ≡ SyntaxError.Spent) }
{
    Ok(Form::Compare {
        left: Box::new(alloc, left)?,
        op,
        right: Box::new(alloc, right)?,
    })
}

/// The first two parts of a chain.
fn pair(alloc: Global, first: Form, second: Form) -> Result<Vec<Form>, SyntaxError>
    ensures items { IfOk result (λ parts. parts.items ≡ first ∷ second ∷ []) }
    ensures spent { IfErr result (λ e. e ≡ SyntaxError.Spent) }
{
    let mut parts = Vec::with_capacity(alloc, 2)?;
    parts.push(first)?;
    parts.push(second)?;
    Ok(parts)
}
