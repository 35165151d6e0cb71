//! What the solvers of `dai_sat` share: formulas in conjunctive form, their clauses as numbers, the trail of
//! literals, propagation by two watched literals, the analysis of conflicts and the way back. What a conflict
//! or a literal rests on is proved here; in which order the search goes on is the solvers' own.
#![tactic(auto)]

pub mod analysis;
pub mod backjump;
pub mod clauses;
pub mod cnf;
pub mod codes;
pub mod lists;
pub mod marks;
pub mod minimize;
pub mod propagation;
pub mod trail;
pub mod uses;
pub mod watches;

pub use cnf::{Cnf, Lit};
