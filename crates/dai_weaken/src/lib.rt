//! Down to the greatest inductive set: clauses that a judge refutes are replaced by their weakenings, round by round.
#![tactic(auto)]

mod beginning;
mod descent;
mod following;
mod judge;
mod rounds;
#[cfg(test)]
mod tests;

pub use beginning::everything;
pub use descent::{Weakened, greatest};
pub use following::missing;
pub use judge::{Counterexample, Judge};
pub use rounds::Strike;
