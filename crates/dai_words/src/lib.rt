//! The words of the command line: a command, a file, and options with their values. `specs/Words.antt` says which
//! settings they give, or which word is refused.
#![tactic(auto)]

mod bounds;
mod law;
mod number;
mod options;
mod settings;
#[cfg(test)]
mod tests;
mod words;

pub use law::settings_are_within_ranges;
pub use settings::{Command, Settings, WordsError};
pub use words::read_words;
