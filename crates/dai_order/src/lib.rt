//! Subsumption of clauses, their weakenings, and antichains.
#![tactic(auto)]

mod antichain;
mod forms;
mod literals;
mod parts;
mod subsumption;
#[cfg(test)]
mod tests;
mod variables;
mod weakening;

pub use antichain::Antichain;
pub use subsumption::subsumes;
pub use weakening::weakenings;
