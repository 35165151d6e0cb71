//! What every crate of the workspace stands on: want of memory, texts, places, faults, and the outside
//! world as two traits.
#![tactic(auto)]

pub mod fault;
mod fault_plan;
pub mod files;
pub mod mem_files;
pub mod mem_sink;
pub mod memory;
pub mod message;
pub mod position;
pub mod sink;
pub mod sure_files;
pub mod sure_sink;
pub mod text;

pub use fault::{Fault, LimitKind, Place};
pub use files::{Files, ReadError};
pub use mem_files::MemFiles;
pub use mem_sink::MemSink;
pub use memory::Spent;
pub use message::fault_line;
pub use position::place;
pub use sink::{PutError, Sink};
pub use sure_files::SureFiles;
pub use sure_sink::SureSink;
pub use text::Text;

#[cfg(test)]
mod tests;
