//! A place among the tokens.
ghost use Rattle.std.specs.Prelude.{◌≡◌, ◌≤◌, false, length, IsTrue, IfOk, IfErr, Some};
ghost use Rattle.std.specs.List.{All};
ghost use Rattle.dai_syntax.specs.Placed.{LiesIn};
ghost use Rattle.dai_syntax.specs.declared.error.SyntaxError.TheVariants.{Unexpected, Deep, LeftOut};

use crate::error::SyntaxError;
use crate::tree::Name;
use dai_base::{Spent, Text};
use dai_lex::{Kind, Token};
use std::alloc::Global;

/// The tokens that are left.
#[derive(Drop)]
pub struct Cursor<'a> {
    pub alloc: Global,
    pub bytes: &'a [u8],
    pub rest: &'a [Token],
    ghost short: { length bytes.now ≤ 1048576 },
    ghost placed: { All (LiesIn bytes.now) rest.now },
}

impl<'a> Cursor<'a> {
    ghost use Rattle.dai_lex.specs.declared.token.Token.{Token};
    ghost use Rattle.dai_syntax.specs.Symbols.{name, sign, v_name};
    ghost use Rattle.dai_syntax.specs.Symbols.{name_of};
    ghost use Rattle.dai_syntax.specs.Reading.{Reads, Passes, FailsAt, Steps, Takes, IsWord, kind_ahead, place_ahead};

    /// The kind of the next token, if one is left.
    pub fn kind(&self) -> Option<Kind>
        ensures { result ≡ kind_ahead self.now.rest.now }
    {
        match self.rest.first() {
            Some(token) => Some(token.kind),
            None => None,
        }
    }

    /// Whether the next token is of this kind.
    pub fn is_at(&self, kind: Kind) -> bool
        ensures yes { IsTrue result → kind_ahead self.now.rest.now ≡ Some kind }
        ensures no { (result ≡ false) → kind_ahead self.now.rest.now ≡ Some kind → ⊥ }
    {
        match self.rest.first() {
            Some(token) => token.kind == kind,
            None => false,
        }
    }

    /// The place of the next token, or the end of the bytes.
    pub fn place(&self) -> u32
        ensures { result ≡ place_ahead self.now.bytes.now self.now.rest.now }
    {
        match self.rest.first() {
            Some(token) => token.start,
            None => self.bytes.len() as u32,
        }
    }

    /// The next token fits no file.
    pub fn refusal(&self) -> SyntaxError
        ensures { result ≡ Unexpected (place_ahead self.now.bytes.now self.now.rest.now) }
    {
        SyntaxError::Unexpected { at: self.place() }
    }

    /// The next token nests too deep.
    pub fn too_deep(&self) -> SyntaxError
        ensures { result ≡ Deep (place_ahead self.now.bytes.now self.now.rest.now) }
    {
        SyntaxError::Deep { at: self.place() }
    }

    /// The next token begins a part of Ivy that the profile leaves out.
    pub fn left_out(&self) -> SyntaxError
        ensures { result ≡ LeftOut (place_ahead self.now.bytes.now self.now.rest.now) }
    {
        SyntaxError::LeftOut { at: self.place() }
    }

    /// Passes the next token, which is of this kind.
    pub fn pass(&mut self, kind: Kind) -> Token
        requires { kind_ahead self.old.rest.now ≡ Some kind }
        ensures kind { result.kind ≡ kind }
        ensures steps { Steps self.old result self.new }
        ensures placed { LiesIn self.old.bytes.now result }
    {
        let token = self.rest[0];
        self.rest = &self.rest[1..];
        token
    }

    /// Passes the next token if it is of this kind.
    pub fn take(&mut self, kind: Kind) -> bool
        ensures yes { IsTrue result → Takes self.old kind self.new }
        ensures no { (result ≡ false) → (kind_ahead self.old.rest.now ≡ Some kind → ⊥) × (self.new ≡ self.old) }
    {
        if !self.is_at(kind) {
            return false;
        }
        let _token = self.pass(kind);
        true
    }

    /// Passes the next token, which has to be of this kind.
    pub fn expect(&mut self, kind: Kind) -> Result<(), SyntaxError>
        ensures passed { IfOk result (λ _. Passes (sign kind) self.old self.new) }
        ensures failed { IfErr result (FailsAt (sign kind) self.old) }
    {
        if self.take(kind) {
            Ok(())
        } else {
            Err(self.refusal())
        }
    }

    /// Passes a name.
    pub fn name(&mut self) -> Result<Name, SyntaxError>
        ensures read { IfOk result (λ n. Reads name self.old (v_name n) self.new) }
        ensures failed { IfErr result (FailsAt name self.old) }
    {
        if !self.is_at(Kind::Lower) {
            return Err(self.refusal());
        }
        Ok(self.word(Kind::Lower)?)
    }

    /// Passes the next token, which is of this kind, and gives its text with its place.
    pub fn word(&mut self, kind: Kind) -> Result<Name, Spent>
        requires { kind_ahead self.old.rest.now ≡ Some kind }
        ensures { IfOk result (λ n. IsWord self.old kind n self.new) }
    {
        let token = self.pass(kind);
        self.text(token)
    }

    /// The text of a token, with its place.
    fn text(&self, token: Token) -> Result<Name, Spent>
        requires { LiesIn self.now.bytes.now token }
        ensures { IfOk result (λ n. n ≡ name_of self.now.bytes.now token) }
    {
        let start = token.start as usize;
        let end = token.end as usize;
        let text = Text::from_bytes(self.alloc, &self.bytes[start..end])?;
        Ok(Name {
            text,
            at: token.start,
        })
    }
}
