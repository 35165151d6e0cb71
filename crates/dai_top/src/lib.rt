//! The program as a function: from words, files and sinks to a status.
#![tactic(auto)]

mod answers;
mod bounds;
mod console;
#[cfg(test)]
mod fault_tests;
mod limits;
mod report;
mod stop;
#[cfg(test)]
mod tests;
mod top;
#[cfg(test)]
mod watched;

pub use answers::{Answer, answer_to};
pub use dai_words::{Command, Settings, WordsError, read_words};
pub use stop::Stop;
pub use top::distai;
