//! The rules of sorts: what a file may say about names, types, quantifiers and limits, and the first fault of a
//! file against them. `specs/` has what a file says and where (`Sites`), one function for each rule (`Rules`), the
//! types of variables (`Types`) and the fault that is told (`Faults`).
#![tactic(auto)]

pub mod classes;
mod first;
pub mod globals;
pub mod judge;
mod judge_formulas;
mod judge_statements;
mod judge_terms;
mod judge_wholes;
mod law;
#[cfg(test)]
mod tests;
pub mod variables;

pub use first::Fault;
pub use judge_statements::sort_fault;
pub use law::one_sort_fault;
