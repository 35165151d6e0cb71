//! The piece at the front of bytes: a blank or a comment, a token, or a bad byte.
ghost use Rattle.std.specs.Prelude.{◌<◌, length, IsTrue};
ghost use Rattle.dai_lex.specs.Bytes.{first, begins_word};
ghost use Rattle.dai_lex.specs.Front.{IsPiece, IsWithin};

use crate::bytes::{begins_word, digits_len, is_blank, line_len, word_len};
use crate::signs::longest_sign;
use crate::token::Kind;
use crate::words::keyword;

// What stands at the front of the bytes left, and how many of them it takes.
#[derive(Clone, Copy)]
pub(crate) enum Piece {
    // A blank or a comment.
    Gap(usize),
    Token(Kind, usize),
    // The offset of the bad byte.
    Bad(usize),
}

fn word_piece(bytes: &[u8]) -> Piece
    requires { IsTrue (begins_word (first bytes.now)) }
    ensures { IsPiece bytes.now result }
{
    let len = word_len(bytes);
    let first = bytes[0];
    if first.is_ascii_digit() {
        let digits = digits_len(bytes);
        if digits < len {
            return Piece::Bad(digits);
        }
        return Piece::Token(Kind::Digits, len);
    }
    if first.is_ascii_uppercase() {
        return Piece::Token(Kind::Upper, len);
    }
    Piece::Token(keyword(&bytes[..len]), len)
}

// The piece at the front of the bytes.
fn front_piece(bytes: &[u8]) -> Piece
    requires { 0 < length bytes.now }
    ensures { IsPiece bytes.now result }
{
    let first = bytes[0];
    if is_blank(first) {
        return Piece::Gap(1);
    }
    if begins_word(first) {
        return word_piece(bytes);
    }
    if first == b'#' {
        return Piece::Gap(line_len(bytes));
    }
    match longest_sign(bytes) {
        Some(sign) => Piece::Token(sign.kind, sign.len),
        None => Piece::Bad(0),
    }
}

// The same, with the bounds that a walk needs.
pub(crate) fn next_piece(bytes: &[u8]) -> Piece
    requires { 0 < length bytes.now }
    ensures piece { IsPiece bytes.now result }
    ensures within { IsWithin (length bytes.now) result }
{
    front_piece(bytes)
}
