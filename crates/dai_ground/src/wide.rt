//! A question over all sizes up to given ones, or at exactly given ones, as clauses.
ghost use Rattle.dai_circuit.specs.Circuits.{IsOver};

use dai_picture::{Frame, Picture};
use dai_trail::Cnf;

/// Clauses, with the frame and the picture that say what an assignment shows.
#[derive(Drop)]
pub struct Wide {
    pub cnf: Cnf,
    /// How many variables are at the front: over all sizes up to given ones those that decide what is shown, at exactly
    /// given ones those of the structure before and of the locals.
    pub bits: usize,
    pub(crate) frame: Frame,
    pub(crate) picture: Picture,
    pub ghost over: { IsOver cnf },
}

/// A question at exactly given sizes.
pub type Grounded = Wide;
