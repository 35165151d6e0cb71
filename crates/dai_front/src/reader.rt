//! Reading a protocol.
ghost use Rattle.std.specs.Prelude.{◌≡◌, ◌≤◌, length, take, IfOk, IfErr};
ghost use Rattle.dai_base.specs.Place.{IsPlaceAfter};
ghost use Rattle.dai_logic.specs.Protocols.{protocol_of};
ghost use Rattle.dai_front.specs.Files.{IsProtocolIn};
ghost use Rattle.dai_front.specs.Refusals.{byte_stop, token_stop, sort_stop, IsStop, IsReadError};

use crate::error::ReadError;
use dai_base::{Place, place};
use dai_lex::{LexError, lex};
use dai_logic::Protocol;
use dai_sorts::{SortError, check};
use dai_syntax::{SyntaxError, parse};
use std::alloc::Global;

/// Why there is no protocol, by the offset into the bytes.
#[derive(Clone, Copy)]
pub enum Stop {
    At { number: u8, at: u32 },
    Spent,
}

/// The protocol of the bytes of a file.
///
/// `Bad` comes exactly where they are refused, with the number and the place of their fault: the first byte that
/// begins no token; or else the first token that fits no file within the limit of nesting; or else the first fault
/// against the rules of sorts.
pub fn read_protocol(alloc: Global, bytes: &[u8]) -> Result<Protocol, ReadError>
    requires { length bytes.now ≤ 1048576 }
    ensures protocol { IfOk result (λ p. IsProtocolIn bytes.now (protocol_of p)) }
    ensures refused { IfErr result (IsReadError bytes.now) }
{
    match read(alloc, bytes) {
        Ok(protocol) => Ok(protocol),
        Err(Stop::At { number, at }) => Err(ReadError::Bad {
            number,
            at: place_after(bytes, at),
        }),
        Err(Stop::Spent) => Err(ReadError::Spent),
    }
}

fn read(alloc: Global, bytes: &[u8]) -> Result<Protocol, Stop>
    requires { length bytes.now ≤ 1048576 }
    ensures protocol { IfOk result (λ p. IsProtocolIn bytes.now (protocol_of p)) }
    ensures refused { IfErr result (IsStop bytes.now) }
{
    let tokens = match lex(alloc, bytes) {
        Ok(tokens) => tokens,
        Err(error) => return Err(no_tokens(error)),
    };
    let file = match parse(alloc, bytes, tokens.as_slice()) {
        Ok(file) => file,
        Err(error) => return Err(no_file(error)),
    };
    match check(alloc, &file) {
        Ok(protocol) => Ok(protocol),
        Err(error) => Err(no_protocol(error)),
    }
}

/// The refusal of bytes that have no tokens.
fn no_tokens(error: LexError) -> Stop
    ensures { result ≡ byte_stop error }
{
    match error {
        LexError::Bad { at } => Stop::At { number: 10, at },
        LexError::Spent => Stop::Spent,
    }
}

/// The refusal of tokens that are no file.
fn no_file(error: SyntaxError) -> Stop
    ensures { result ≡ token_stop error }
{
    match error {
        SyntaxError::Unexpected { at } => Stop::At { number: 12, at },
        SyntaxError::Deep { at } => Stop::At { number: 13, at },
        SyntaxError::LeftOut { at } => Stop::At { number: 20, at },
        SyntaxError::Spent => Stop::Spent,
    }
}

/// The refusal of a file that breaks a rule of sorts.
fn no_protocol(error: SortError) -> Stop
    ensures { result ≡ sort_stop error }
{
    match error {
        SortError::Bad { number, at } => Stop::At { number, at },
        SortError::Spent => Stop::Spent,
    }
}

/// The place after the first `at` bytes, or after all of them where there are fewer.
fn place_after(bytes: &[u8], at: u32) -> Place
    requires { length bytes.now ≤ 1048576 }
    ensures { IsPlaceAfter (take at bytes.now) result }
{
    if at as usize <= bytes.len() {
        place(bytes, at)
    } else {
        place(bytes, bytes.len() as u32)
    }
}
