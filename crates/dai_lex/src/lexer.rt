ghost use Rattle.std.specs.Prelude.{◌≡◌, ◌≤◌, length, IfOk, IfErr};
ghost use Rattle.dai_lex.specs.Tokens.{IsTokens, ArePlaced};
ghost use Rattle.dai_lex.specs.Errors.{IsFault};

use crate::pieces::{Piece, next_piece};
use crate::token::{LexError, Token};
use std::alloc::Global;

/// The tokens of the bytes, in order. Each token's text is the slice from its `start` to before its `end`.
///
/// Blanks are spaces, tabs, carriage returns and line feeds. A comment begins with `#` and ends before the
/// next line feed or at the end; any bytes may stand in it. A word has as many ASCII letters, digits and `_`
/// as there are, a letter or digit first; one that begins with a digit has digits alone. A sign is the
/// longest that fits.
///
/// The error is `Bad` exactly where the bytes are no sequence of these, at the first byte that begins none
/// or breaks a word of digits, and `Spent` where memory runs out.
pub fn lex(alloc: Global, bytes: &[u8]) -> Result<Vec<Token>, LexError>
    requires { length bytes.now ≤ 1048576 }
    ensures tokens { IfOk result (λ tokens. IsTokens bytes.now tokens.items) }
    ensures placed { IfOk result (λ tokens. ArePlaced bytes.now tokens.items) }
    ensures bad { IfErr result (IsFault bytes.now) }
{
    let mut tokens = Vec::new(alloc);
    let mut at = 0;
    while at < bytes.len() {
        match next_piece(&bytes[at..]) {
            Piece::Gap(len) => at += len,
            Piece::Token(kind, len) => {
                tokens.push(Token {
                    kind,
                    start: at as u32,
                    end: (at + len) as u32,
                })?;
                at += len;
            }
            Piece::Bad(offset) => {
                return Err(LexError::Bad {
                    at: (at + offset) as u32,
                });
            }
        }
    }
    Ok(tokens)
}
