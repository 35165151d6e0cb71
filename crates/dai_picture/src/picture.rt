//! Structures whose truth values are bits.

use dai_circuit::Bit;

/// The slots of each type, and what the parameters and choices of a block stand for. No statement changes it.
#[derive(Drop)]
pub struct Frame {
    /// How many slots each type has.
    pub slots: Vec<u16>,
    /// For each type and each of its slots, whether it is an element. The elements are the first slots.
    pub used: Vec<Vec<Bit>>,
    /// For each parameter and each slot of its type, whether it stands for it.
    pub arguments: Vec<Vec<Bit>>,
    /// The same for each local.
    pub choices: Vec<Vec<Bit>>,
}

/// A structure over the slots of a frame.
#[derive(Drop)]
pub struct Picture {
    /// For each relation and each tuple of slots, in lexicographic order, whether the relation holds of it.
    pub tables: Vec<Vec<Bit>>,
    /// For each individual and each slot of its type, whether it stands for it.
    pub values: Vec<Vec<Bit>>,
}
