//! Structures as tables.
ghost use Rattle.std.specs.Prelude.{◌≡◌, length, IfOk};

use dai_base::Spent;
use std::alloc::Global;

/// A structure: a size for each type, a table of truth values for each relation, which lists the tuples in
/// lexicographic order, and a value for each individual.
#[derive(Drop)]
pub struct Structure {
    pub sizes: Vec<u16>,
    pub tables: Vec<Vec<bool>>,
    pub values: Vec<u16>,
}

/// Init, or the exported action of this number.
#[derive(Clone, Copy, Debug, PartialEq, Eq)]
pub enum BlockId {
    Init,
    Act(u8),
}

/// An exported action with its arguments and choices.
#[derive(Drop)]
pub struct Move {
    pub action: u8,
    pub args: Vec<u16>,
    pub choices: Vec<u16>,
}
