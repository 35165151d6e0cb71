//! The truth table of a protocol of at most ten flags, as a judge of clauses. It is the slow reference beside which a
//! solver can be tried.
#![tactic(auto)]

mod judging;
mod logged;
mod states;
mod steps;
mod table;
#[cfg(test)]
mod tests;

pub use judging::Premises;
pub use logged::Logged;
pub use table::{MOST_FLAGS, TruthTable};
