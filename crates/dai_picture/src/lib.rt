//! Structures whose truth values are bits of a propositional formula: in each assignment a picture shows one of
//! the structures with at most so many elements of each type.
#![tactic(auto)]

pub mod decode;
pub mod draw;
mod lengths;
pub mod picture;
mod rows;
mod rules;
#[cfg(test)]
mod tests;

pub use decode::{Decoded, bit_value};
pub use draw::Drawing;
pub use picture::{Frame, Picture};
