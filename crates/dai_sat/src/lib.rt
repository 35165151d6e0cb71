//! A clause-learning solver for formulas in conjunctive form, in two forms over one search: `solve` answers
//! the least model under the preferences of a guide, and a `Solver` answers any model under assumptions and
//! keeps what it learned. Neither has a budget.
#![tactic(auto)]

mod answer;
mod assumptions;
mod desk;
mod entry;
mod failed;
mod guide;
mod least;
mod model;
mod order;
mod pace;
mod question;
mod solver;
mod step;
#[cfg(test)]
mod tests;

pub use answer::{Answer, Outcome};
pub use dai_trail::{Cnf, Lit};
pub use guide::Guide;
pub use least::{Solved, solve, solve_counted};
pub use solver::Solver;
