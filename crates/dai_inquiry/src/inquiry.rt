//! What an inquiry is.

use crate::truths::Truths;
use dai_circuit::Circuit;
use dai_logic::BlockId;
use dai_picture::{Frame, Picture};
use std::alloc::Global;

/// What an assignment shows: a structure with arguments and choices for a block, and what the block leaves.
#[derive(Drop)]
pub struct Pictures {
    pub frame: Frame,
    pub before: Picture,
    pub after: Picture,
}

/// A block with clauses that show the structures from which it leaves a structure, and what it leaves.
#[derive(Drop)]
pub struct Inquiry {
    pub(crate) alloc: Global,
    pub(crate) block: BlockId,
    pub(crate) circuit: Circuit,
    pub(crate) pictures: Pictures,
    /// The clauses that were grounded as premises, in what is before the step.
    pub(crate) premises: Truths,
    /// The clauses that were grounded as goals, in what is after it.
    pub(crate) goals: Truths,
    /// How many variables the goals brought.
    pub(crate) goal_vars: usize,
    /// How often the solver was called, by this inquiry and by those that it took the place of.
    pub(crate) calls: u64,
    /// The most clauses that a formula had which was given up.
    pub(crate) clauses_before: usize,
}
