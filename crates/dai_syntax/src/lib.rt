//! The tree of a protocol's file, and the parser.
#![tactic(auto)]

mod binders;
mod cursor;
mod declarations;
mod error;
mod formulas;
mod law;
mod statements;
mod terms;
pub mod tree;

pub use declarations::parse;
pub use error::SyntaxError;
pub use law::{one_fault, one_file, places_lie_within};
pub use tree::{Arg, Binder, Decl, File, Form, Name, Op, Stat};

#[cfg(test)]
mod tests;
