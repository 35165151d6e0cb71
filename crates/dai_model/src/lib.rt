//! The meaning of protocols, clauses and reports, for every protocol of the language and structures of every
//! size. The definitions stand in `specs/`, in the order of `specs/Lib.antt`; the crate has no program code.
//! Each function here does nothing: its contract is a law that shows what the definitions say.
#![tactic(auto)]

pub mod example;
pub mod laws;
