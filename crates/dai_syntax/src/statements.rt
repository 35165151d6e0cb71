//! Blocks and statements.
ghost use Rattle.std.specs.Prelude.{◌≡◌, ◌<◌, ◌≤◌, ◌+◌, ◌⊎◌, ℕ, false, IsTrue, IfOk, IfErr, Some};
ghost use Rattle.dai_syntax.specs.Symbols.{block, statements, after_statement, after_block, condition, otherwise, alternative, right_side, v_formula, v_statement, v_statements};
ghost use Rattle.dai_syntax.specs.Trees.{formula_of, statement_of, statements_of};
ghost use Rattle.dai_syntax.specs.Effects.{follows, IsStatement};
ghost use Rattle.dai_syntax.specs.Viable.{most_levels};
ghost use Rattle.dai_syntax.specs.Reading.{Reads, FailsAt, kind_ahead};

use crate::binders::{Class, binders};
use crate::cursor::Cursor;
use crate::error::SyntaxError;
use crate::formulas::{MOST_LEVELS, formula};
use crate::terms::targets;
use crate::tree::{Form, Stat};
use dai_lex::Kind;

/// A block, where so many constructs are open.
#[cycle(block)]
pub fn block(cursor: &mut Cursor, depth: u32) -> Result<Vec<Stat>, SyntaxError>
    requires { depth ≤ most_levels }
    ensures read { IfOk result (λ body. Reads (block depth) cursor.old (v_statements (statements_of body.items)) cursor.new) }
    ensures failed { IfErr result (FailsAt (block depth) cursor.old) }
{
    if !cursor.is_at(Kind::OpenCurly) {
        return Err(cursor.refusal());
    }
    if depth >= MOST_LEVELS {
        return Err(cursor.too_deep());
    }
    let _sign = cursor.pass(Kind::OpenCurly);
    let body = statements(cursor, depth + 1)?;
    cursor.expect(Kind::CloseCurly)?;
    Ok(body)
}

/// Statements up to the end of a block. The semicolon between two may be left out after one that ends with a
/// block.
#[cycle(block)]
fn statements(cursor: &mut Cursor, depth: u32) -> Result<Vec<Stat>, SyntaxError>
    requires { depth ≤ most_levels }
    ensures read { IfOk result (λ body. Reads (statements depth) cursor.old (v_statements (statements_of body.items)) cursor.new) }
    ensures failed { IfErr result (FailsAt (statements depth) cursor.old) }
{
    let mut body = Vec::new(cursor.alloc);
    loop {
        let Some(next) = statement(cursor, depth)? else {
            return Ok(body);
        };
        let is_block = ends_with_block(&next);
        body.push(next)?;
        if cursor.take(Kind::Semicolon) {
            continue;
        }
        if !is_block {
            return Ok(body);
        }
    }
}

/// Whether the statement ends with a block.
fn ends_with_block(statement: &Stat) -> bool
    ensures yes { (depth : ℕ) → IsTrue result → follows depth (statement_of statement.now) ≡ after_block depth }
    ensures no { (depth : ℕ) → (result ≡ false) → follows depth (statement_of statement.now) ≡ after_statement depth }
{
    match statement {
        Stat::Require { .. } => false,
        Stat::Assign { .. } => false,
        Stat::Cond { .. } => true,
        Stat::Local { .. } => true,
    }
}

/// A statement, if one begins here.
#[cycle(block)]
fn statement(cursor: &mut Cursor, depth: u32) -> Result<Option<Stat>, SyntaxError>
    requires { depth ≤ most_levels }
    ensures read { IfOk result (IsStatement depth cursor.old cursor.new) }
    ensures failed { IfErr result (FailsAt (statements depth) cursor.old) }
{
    let Some(kind) = cursor.kind() else {
        return Ok(None);
    };
    match kind {
        Kind::WordRequire => Ok(Some(requirement(cursor, depth, Kind::WordRequire)?)),
        Kind::WordAssume => Ok(Some(requirement(cursor, depth, Kind::WordAssume)?)),
        Kind::Lower => Ok(Some(assignment(cursor, depth)?)),
        Kind::WordIf => Ok(Some(conditional(cursor, depth)?)),
        Kind::WordLocal => Ok(Some(locals(cursor, depth)?)),
        Kind::LeftOut => Err(cursor.left_out()),
        _ => Ok(None),
    }
}

fn requirement(cursor: &mut Cursor, depth: u32, word: Kind) -> Result<Stat, SyntaxError>
    requires within { depth ≤ most_levels }
    requires ahead { kind_ahead cursor.old.rest.now ≡ Some word }
    requires word { (word ≡ Kind.WordRequire) ⊎ (word ≡ Kind.WordAssume) }
    ensures read { IfOk result (λ c. IsStatement depth cursor.old cursor.new (Some c)) }
    ensures failed { IfErr result (FailsAt (statements depth) cursor.old) }
{
    let _word = cursor.pass(word);
    Ok(Stat::Require {
        body: formula(cursor, depth)?,
    })
}

fn assignment(cursor: &mut Cursor, depth: u32) -> Result<Stat, SyntaxError>
    requires within { depth ≤ most_levels }
    requires ahead { kind_ahead cursor.old.rest.now ≡ Some Kind.Lower }
    ensures read { IfOk result (λ c. IsStatement depth cursor.old cursor.new (Some c)) }
    ensures failed { IfErr result (FailsAt (statements depth) cursor.old) }
{
    let name = cursor.word(Kind::Lower)?;
    let args = targets(cursor)?;
    cursor.expect(Kind::Assign)?;
    Ok(Stat::Assign {
        name,
        args,
        body: right_side(cursor, depth)?,
    })
}

/// What follows `:=`: a formula. The profile leaves `*` out.
fn right_side(cursor: &mut Cursor, depth: u32) -> Result<Form, SyntaxError>
    requires { depth ≤ most_levels }
    ensures read { IfOk result (λ f. Reads (right_side depth) cursor.old (v_formula (formula_of f)) cursor.new) }
    ensures failed { IfErr result (FailsAt (right_side depth) cursor.old) }
{
    if cursor.is_at(Kind::Asterisk) {
        return Err(cursor.left_out());
    }
    Ok(formula(cursor, depth)?)
}

#[cycle(block)]
fn conditional(cursor: &mut Cursor, depth: u32) -> Result<Stat, SyntaxError>
    requires within { depth ≤ most_levels }
    requires ahead { kind_ahead cursor.old.rest.now ≡ Some Kind.WordIf }
    ensures read { IfOk result (λ c. IsStatement depth cursor.old cursor.new (Some c)) }
    ensures failed { IfErr result (FailsAt (statements depth) cursor.old) }
{
    if depth >= MOST_LEVELS {
        return Err(cursor.too_deep());
    }
    let _word = cursor.pass(Kind::WordIf);
    Ok(condition(cursor, depth)?)
}

/// What follows `if`.
#[cycle(block)]
fn condition(cursor: &mut Cursor, depth: u32) -> Result<Stat, SyntaxError>
    requires { depth < most_levels }
    ensures read { IfOk result (λ c. Reads (condition depth) cursor.old (v_statement (statement_of c)) cursor.new) }
    ensures block { IfOk result (λ c. (d : ℕ) → follows d (statement_of c) ≡ after_block d) }
    ensures failed { IfErr result (FailsAt (condition depth) cursor.old) }
{
    let cond = formula(cursor, depth)?;
    let yes = block(cursor, depth)?;
    let no = otherwise(cursor, depth)?;
    Ok(Stat::Cond { cond, yes, no })
}

/// The part after `else`, or nothing.
#[cycle(block)]
fn otherwise(cursor: &mut Cursor, depth: u32) -> Result<Vec<Stat>, SyntaxError>
    requires { depth < most_levels }
    ensures read { IfOk result (λ body. Reads (otherwise depth) cursor.old (v_statements (statements_of body.items)) cursor.new) }
    ensures failed { IfErr result (FailsAt (otherwise depth) cursor.old) }
{
    if !cursor.is_at(Kind::WordElse) {
        return Ok(Vec::new(cursor.alloc));
    }
    if depth + 1 >= MOST_LEVELS {
        return Err(cursor.too_deep());
    }
    let _word = cursor.pass(Kind::WordElse);
    Ok(alternative(cursor, depth + 1)?)
}

/// A block, or a further condition, which is a list of one statement.
#[cycle(block)]
fn alternative(cursor: &mut Cursor, depth: u32) -> Result<Vec<Stat>, SyntaxError>
    requires { depth < most_levels }
    ensures read { IfOk result (λ body. Reads (alternative depth) cursor.old (v_statements (statements_of body.items)) cursor.new) }
    ensures failed { IfErr result (FailsAt (alternative depth) cursor.old) }
{
    if !cursor.is_at(Kind::WordIf) {
        return Ok(block(cursor, depth)?);
    }
    let _word = cursor.pass(Kind::WordIf);
    let mut body = Vec::new(cursor.alloc);
    body.push(condition(cursor, depth)?)?;
    Ok(body)
}

#[cycle(block)]
fn locals(cursor: &mut Cursor, depth: u32) -> Result<Stat, SyntaxError>
    requires within { depth ≤ most_levels }
    requires ahead { kind_ahead cursor.old.rest.now ≡ Some Kind.WordLocal }
    ensures read { IfOk result (λ c. IsStatement depth cursor.old cursor.new (Some c)) }
    ensures failed { IfErr result (FailsAt (statements depth) cursor.old) }
{
    if depth >= MOST_LEVELS {
        return Err(cursor.too_deep());
    }
    let _word = cursor.pass(Kind::WordLocal);
    let names = binders(cursor, Class::Parameter)?;
    Ok(Stat::Local {
        binders: names,
        body: block(cursor, depth)?,
    })
}
