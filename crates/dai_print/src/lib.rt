//! The texts that the program writes.
#![tactic(auto)]

mod clauses;
mod counts;
mod guards;
mod joining;
mod names;
mod report;
#[cfg(test)]
mod tests;

pub use clauses::clause_text;
pub use counts::{Counts, counts_text};
pub use report::report_text;
