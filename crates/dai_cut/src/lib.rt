//! Laws on which a claim over structures of all sizes rests: what holds in a structure holds in each cut of it,
//! and so small structures decide. The crate has no program code. Each function here does nothing: its contract is
//! the law.
#![tactic(auto)]

pub mod laws;
