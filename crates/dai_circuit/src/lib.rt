//! Formulas of propositional logic as bits over a formula in conjunctive form. A bit is a known truth value or
//! a literal; `all`, `any` and `same` answer the bit of a conjunction, a disjunction and an equivalence, by a
//! new variable that clauses define (Tseitin, 1968), so that the clauses grow with the formula and not with
//! its normal form. A definition adds no constraint: each assignment that meets the clauses before it has
//! exactly the values of its own variables still, and `require` alone constrains.
#![tactic(auto)]

mod bit;
mod circuit;
mod parts;
#[cfg(test)]
mod tests;

pub use bit::Bit;
pub use circuit::{Circuit, Solved};
