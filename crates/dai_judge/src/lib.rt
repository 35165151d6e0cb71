//! The judge over the structures with at most so many elements of each type: each question about clauses is a question
//! of a solver about formulas.
#![tactic(auto)]

mod judging;
mod keys;
mod memory;
mod premises;
mod recall;
mod sized;
#[cfg(test)]
mod tests;

pub use premises::Premises;
pub use sized::SizedJudge;
