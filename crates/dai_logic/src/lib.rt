//! Protocols and structures as the program keeps them, the value of a formula, and execution.
#![tactic(auto)]

pub mod bind;
pub mod copying;
pub mod environment;
pub mod execution;
pub mod laws;
pub mod layout;
mod places;
pub mod protocol;
mod requirements;
mod running;
pub mod structure;
mod updates;
pub mod values;
pub mod workspace;

pub use bind::env;
pub use copying::copy;
pub use environment::Env;
pub use execution::{exec, is_enabled, step};
pub use layout::Layout;
pub use protocol::{
    Action, Block, Formula, IndInfo, Invariant, Protocol, RelInfo, SortInfo, Step, Term,
};
pub use structure::{BlockId, Move, Structure};
pub use values::eval;
pub use workspace::Workspace;

#[cfg(test)]
mod tests;
