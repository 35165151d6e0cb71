//! Formulas and blocks of a protocol as bits over a picture of structures: every structure with at most so many
//! elements of each type is an assignment, and each formula has the value of its bit.
#![tactic(auto)]

pub mod asking;
mod atoms;
pub mod binding;
pub mod candidates;
pub mod choosing;
pub mod code;
pub mod comparing;
pub mod finding;
pub mod formulas;
pub mod found;
mod lookup;
pub mod merging;
pub mod question;
pub mod refining;
pub mod requirements;
pub mod restricting;
mod solving;
mod targets;
mod updates;
mod values;
pub mod wide;
