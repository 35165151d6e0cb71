//! The tokens of a protocol's text: signs, reserved words, names, variables and numbers, between blanks
//! and comments.
//!
//! `specs/Tokens.antt` says what the tokens of bytes are, by rules for what may stand at the front of the
//! bytes left. `lex` finds them, or the first bad byte. `one_reading` and `tokens_are_placed` are laws of
//! these rules: they do nothing, and code that calls them may rely on what they ensure.
#![tactic(auto)]

mod bytes;
mod law;
mod lexer;
mod names;
mod pieces;
mod signs;
#[cfg(test)]
mod tests;
mod token;
mod words;

pub use law::{one_reading, tokens_are_placed};
pub use lexer::lex;
pub use names::is_name;
pub use token::{Kind, LexError, Token};
