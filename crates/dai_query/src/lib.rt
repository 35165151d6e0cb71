//! Questions about structures of all sizes, the sizes that decide them, and the counts that are held against the
//! limits.
#![tactic(auto)]

mod limits;
mod questions;
mod sizes;
mod verdict;
mod witnesses;

pub use limits::{ground, moves};
pub use questions::{consecution, implied, initiation};
pub use sizes::bounds;
pub use verdict::Verdict;

#[cfg(test)]
mod tests;
