//! Signs, by longest match.
ghost use Rattle.std.specs.Prelude.{◌≡◌, slice_index, MatchOption};
ghost use Rattle.dai_lex.specs.Signs.{one_byte_sign, two_byte_sign, three_byte_sign, IsSign, BeginsNoSign};

use crate::token::Kind;

#[derive(Clone, Copy)]
pub(crate) struct Sign {
    pub(crate) kind: Kind,
    pub(crate) len: usize,
}

// The byte at an offset, or 0 past the end: no sign has a byte 0.
fn byte_at(bytes: &[u8], at: usize) -> u8
    ensures { result ≡ slice_index bytes.now at }
{
    if at < bytes.len() { bytes[at] } else { 0 }
}

fn one_byte_sign(first: u8) -> Option<Kind>
    ensures { result ≡ one_byte_sign first }
{
    match first {
        b'(' => Some(Kind::OpenRound),
        b')' => Some(Kind::CloseRound),
        b'{' => Some(Kind::OpenCurly),
        b'}' => Some(Kind::CloseCurly),
        b'[' => Some(Kind::OpenSquare),
        b']' => Some(Kind::CloseSquare),
        b',' => Some(Kind::Comma),
        b';' => Some(Kind::Semicolon),
        b':' => Some(Kind::Colon),
        b'.' => Some(Kind::Dot),
        b'=' => Some(Kind::Equal),
        b'~' => Some(Kind::Tilde),
        b'&' => Some(Kind::Ampersand),
        b'|' => Some(Kind::Bar),
        b'<' => Some(Kind::Less),
        b'*' => Some(Kind::Asterisk),
        _ => None,
    }
}

fn two_byte_sign(first: u8, second: u8) -> Option<Kind>
    ensures { result ≡ two_byte_sign first second }
{
    match (first, second) {
        (b'-', b'>') => Some(Kind::Arrow),
        (b':', b'=') => Some(Kind::Assign),
        (b'~', b'=') => Some(Kind::NotEqual),
        (b'<', b'=') => Some(Kind::LessOrEqual),
        _ => None,
    }
}

fn three_byte_sign(first: u8, second: u8, third: u8) -> Option<Kind>
    ensures { result ≡ three_byte_sign first second third }
{
    if first == b'<' && second == b'-' && third == b'>' {
        Some(Kind::DoubleArrow)
    } else {
        None
    }
}

// The longest sign at the front.
pub(crate) fn longest_sign(rest: &[u8]) -> Option<Sign>
    ensures { MatchOption result (BeginsNoSign rest.now) (λ sign. IsSign rest.now sign.kind sign.len) }
{
    let first = byte_at(rest, 0);
    let second = byte_at(rest, 1);
    let third = byte_at(rest, 2);
    if let Some(kind) = three_byte_sign(first, second, third) {
        return Some(Sign { kind, len: 3 });
    }
    if let Some(kind) = two_byte_sign(first, second) {
        return Some(Sign { kind, len: 2 });
    }
    if let Some(kind) = one_byte_sign(first) {
        return Some(Sign { kind, len: 1 });
    }
    None
}
