//! Protocols for tests: worked examples, each with the protocol of the model that it stands for.
#![tactic(auto)]

mod flags;
mod plain;

pub use flags::two_flags;
pub use plain::{locks, relation, sort, steps, triples};
