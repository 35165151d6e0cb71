//! From the bytes of a file to its protocol, or to the fault by which they are refused. `specs/Files.antt` says
//! which protocol bytes are, and which fault they have.
#![tactic(auto)]

mod error;
mod law;
mod reader;

pub use error::ReadError;
pub use law::one_verdict;
pub use reader::read_protocol;
