//! Shapes, atoms and clauses, and the list of all clauses within the bounds.
#![tactic(auto)]

mod atoms;
mod canonical;
mod clause;
mod counting;
mod formulas;
pub mod laws;
mod limits;
mod listing;
mod meeting;
mod shapes;
mod space;
#[cfg(test)]
mod tests;
mod tuples;

pub use clause::{Atom, Clause, Shape};
pub use limits::{atoms_within, templates_within};
pub use meeting::may_stand;
pub use space::{Space, SpaceError};
