//! From the tree of a file to the protocol: names become numbers, for every file that breaks no rule of sorts.
#![tactic(auto)]

mod checker;
mod draft;
mod error;
mod formulas;
mod law;
mod numbers;
mod reader;
mod sentences;
mod statements;
#[cfg(test)]
mod tests;
mod types;
#[cfg(test)]
mod written;

pub use checker::check;
pub use error::SortError;
pub use law::one_protocol;
