//! Declarations and files.
ghost use Rattle.std.specs.Prelude.{◌≡◌, ◌≤◌, ◌⊎◌, length, IfOk, IfErr, Some, true, false};
ghost use Rattle.dai_lex.specs.Tokens.{IsTokens};
ghost use Rattle.dai_syntax.specs.Symbols.{declaration, exported, action_parts, label, label_word, v_mark, v_name, v_declaration};
ghost use Rattle.dai_syntax.specs.Trees.{declaration_of, declarations_of};
ghost use Rattle.dai_syntax.specs.Viable.{IsFile, IsSyntaxError};
ghost use Rattle.dai_syntax.specs.Reading.{Reads, FailsAt, kind_ahead};

use crate::binders::{Class, bracketed};
use crate::cursor::Cursor;
use crate::error::SyntaxError;
use crate::formulas::formula;
use crate::statements::block;
use crate::tree::{Decl, File, Name};
use dai_lex::{Kind, Token, tokens_are_placed};
use std::alloc::Global;

/// The one file that the tokens of the bytes are.
///
/// A refusal is at the first token with which the tokens so far begin no file whose nesting is within 200, or at
/// the end of the bytes: `Deep` where a higher limit would let the token in; else `LeftOut` where it begins a part
/// of Ivy that the profile leaves out, in the place of a declaration or a statement, or is `*` after `:=`; else
/// `Unexpected`. `Spent` is want of memory.
pub fn parse(alloc: Global, bytes: &[u8], tokens: &[Token]) -> Result<File, SyntaxError>
    requires short { length bytes.now ≤ 1048576 }
    requires tokens { IsTokens bytes.now tokens.now }
    ensures file { IfOk result (λ file. IsFile bytes.now tokens.now (declarations_of file)) }
    ensures fault { IfErr result (IsSyntaxError bytes.now tokens.now) }
{
    tokens_are_placed();
    let mut cursor = Cursor {
        alloc,
        bytes,
        rest: tokens,
    };
    let mut decls = Vec::new(alloc);
    while !cursor.rest.is_empty() {
        if cursor.is_at(Kind::LeftOut) {
            return Err(cursor.left_out());
        }
        decls.push(declaration(&mut cursor)?)?;
    }
    Ok(File { decls })
}

fn declaration(cursor: &mut Cursor) -> Result<Decl, SyntaxError>
    ensures read { IfOk result (λ d. Reads declaration cursor.old (v_declaration (declaration_of d)) cursor.new) }
    ensures failed { IfErr result (FailsAt declaration cursor.old) }
{
    let Some(kind) = cursor.kind() else {
        return Err(cursor.refusal());
    };
    match kind {
        Kind::WordType => sort(cursor),
        Kind::WordOrdered => ordered_sort(cursor),
        Kind::WordRelation => relation(cursor),
        Kind::WordIndividual => individual(cursor),
        Kind::WordAxiom => axiom(cursor),
        Kind::WordAfter => init(cursor),
        Kind::WordAction => {
            let _word = cursor.pass(Kind::WordAction);
            action(cursor, false)
        }
        Kind::WordExport => {
            let _word = cursor.pass(Kind::WordExport);
            exported(cursor)
        }
        Kind::WordInvariant => invariant(cursor, Kind::WordInvariant),
        Kind::WordConjecture => invariant(cursor, Kind::WordConjecture),
        _ => Err(cursor.refusal()),
    }
}

fn sort(cursor: &mut Cursor) -> Result<Decl, SyntaxError>
    requires { kind_ahead cursor.old.rest.now ≡ Some Kind.WordType }
    ensures read { IfOk result (λ d. Reads declaration cursor.old (v_declaration (declaration_of d)) cursor.new) }
    ensures failed { IfErr result (FailsAt declaration cursor.old) }
{
    let _word = cursor.pass(Kind::WordType);
    Ok(Decl::SortDecl {
        name: cursor.name()?,
        ordered: false,
    })
}

fn ordered_sort(cursor: &mut Cursor) -> Result<Decl, SyntaxError>
    requires { kind_ahead cursor.old.rest.now ≡ Some Kind.WordOrdered }
    ensures read { IfOk result (λ d. Reads declaration cursor.old (v_declaration (declaration_of d)) cursor.new) }
    ensures failed { IfErr result (FailsAt declaration cursor.old) }
{
    let _word = cursor.pass(Kind::WordOrdered);
    cursor.expect(Kind::WordType)?;
    Ok(Decl::SortDecl {
        name: cursor.name()?,
        ordered: true,
    })
}

fn relation(cursor: &mut Cursor) -> Result<Decl, SyntaxError>
    requires { kind_ahead cursor.old.rest.now ≡ Some Kind.WordRelation }
    ensures read { IfOk result (λ d. Reads declaration cursor.old (v_declaration (declaration_of d)) cursor.new) }
    ensures failed { IfErr result (FailsAt declaration cursor.old) }
{
    let _word = cursor.pass(Kind::WordRelation);
    let name = cursor.name()?;
    Ok(Decl::RelDecl {
        name,
        args: bracketed(cursor, Class::Argument)?,
    })
}

fn individual(cursor: &mut Cursor) -> Result<Decl, SyntaxError>
    requires { kind_ahead cursor.old.rest.now ≡ Some Kind.WordIndividual }
    ensures read { IfOk result (λ d. Reads declaration cursor.old (v_declaration (declaration_of d)) cursor.new) }
    ensures failed { IfErr result (FailsAt declaration cursor.old) }
{
    let _word = cursor.pass(Kind::WordIndividual);
    let name = cursor.name()?;
    cursor.expect(Kind::Colon)?;
    Ok(Decl::IndDecl {
        name,
        sort: cursor.name()?,
    })
}

fn axiom(cursor: &mut Cursor) -> Result<Decl, SyntaxError>
    requires { kind_ahead cursor.old.rest.now ≡ Some Kind.WordAxiom }
    ensures read { IfOk result (λ d. Reads declaration cursor.old (v_declaration (declaration_of d)) cursor.new) }
    ensures failed { IfErr result (FailsAt declaration cursor.old) }
{
    let word = cursor.pass(Kind::WordAxiom);
    let _label = label(cursor)?;
    Ok(Decl::AxiomDecl {
        body: formula(cursor, 0)?,
        at: word.start,
    })
}

fn init(cursor: &mut Cursor) -> Result<Decl, SyntaxError>
    requires { kind_ahead cursor.old.rest.now ≡ Some Kind.WordAfter }
    ensures read { IfOk result (λ d. Reads declaration cursor.old (v_declaration (declaration_of d)) cursor.new) }
    ensures failed { IfErr result (FailsAt declaration cursor.old) }
{
    let _word = cursor.pass(Kind::WordAfter);
    cursor.expect(Kind::WordInit)?;
    Ok(Decl::InitDecl {
        body: block(cursor, 0)?,
    })
}

fn invariant(cursor: &mut Cursor, word: Kind) -> Result<Decl, SyntaxError>
    requires ahead { kind_ahead cursor.old.rest.now ≡ Some word }
    requires word { (word ≡ Kind.WordInvariant) ⊎ (word ≡ Kind.WordConjecture) }
    ensures read { IfOk result (λ d. Reads declaration cursor.old (v_declaration (declaration_of d)) cursor.new) }
    ensures failed { IfErr result (FailsAt declaration cursor.old) }
{
    let token = cursor.pass(word);
    let label = label(cursor)?;
    Ok(Decl::InvDecl {
        label,
        body: formula(cursor, 0)?,
        at: token.start,
    })
}

/// What follows `export`: an action, or the name of one.
fn exported(cursor: &mut Cursor) -> Result<Decl, SyntaxError>
    ensures read { IfOk result (λ d. Reads exported cursor.old (v_declaration (declaration_of d)) cursor.new) }
    ensures failed { IfErr result (FailsAt exported cursor.old) }
{
    let Some(kind) = cursor.kind() else {
        return Err(cursor.refusal());
    };
    match kind {
        Kind::WordAction => {
            let _word = cursor.pass(Kind::WordAction);
            action(cursor, true)
        }
        Kind::Lower => {
            Ok(Decl::ExportDecl {
                name: cursor.word(Kind::Lower)?,
            })
        }
        _ => Err(cursor.refusal()),
    }
}

/// What follows `action`.
fn action(cursor: &mut Cursor, exported: bool) -> Result<Decl, SyntaxError>
    ensures read { IfOk result (λ d. Reads (action_parts exported) cursor.old (v_declaration (declaration_of d)) cursor.new) }
    ensures failed { IfErr result (FailsAt (action_parts exported) cursor.old) }
{
    if !cursor.is_at(Kind::Lower) {
        return Err(cursor.refusal());
    }
    let name = cursor.word(Kind::Lower)?;
    let params = bracketed(cursor, Class::Parameter)?;
    cursor.expect(Kind::Equal)?;
    Ok(Decl::ActionDecl {
        name,
        params,
        body: block(cursor, 0)?,
        exported,
    })
}

/// A label in square brackets, or none.
fn label(cursor: &mut Cursor) -> Result<Option<Name>, SyntaxError>
    ensures read { IfOk result (λ m. Reads label cursor.old (v_mark m) cursor.new) }
    ensures failed { IfErr result (FailsAt label cursor.old) }
{
    if !cursor.take(Kind::OpenSquare) {
        return Ok(None);
    }
    let name = label_word(cursor)?;
    cursor.expect(Kind::CloseSquare)?;
    Ok(Some(name))
}

/// The name, variable or number of a label.
fn label_word(cursor: &mut Cursor) -> Result<Name, SyntaxError>
    ensures read { IfOk result (λ n. Reads label_word cursor.old (v_name n) cursor.new) }
    ensures failed { IfErr result (FailsAt label_word cursor.old) }
{
    let Some(kind) = cursor.kind() else {
        return Err(cursor.refusal());
    };
    match kind {
        Kind::Lower => Ok(cursor.word(Kind::Lower)?),
        Kind::Upper => Ok(cursor.word(Kind::Upper)?),
        Kind::Digits => Ok(cursor.word(Kind::Digits)?),
        _ => Err(cursor.refusal()),
    }
}
