//! Inquiries: one block and one solver, asked again and again whether the block leads from structures that meet clauses
//! to one that breaks a clause. The block's steps become clauses of propositional logic once, and so does each clause that
//! is asked for; what the solver learned stays.
#![tactic(auto)]

mod asked;
pub mod asking;
pub mod by_block;
pub mod inquiry;
pub mod keys;
mod opening;
mod truths;
