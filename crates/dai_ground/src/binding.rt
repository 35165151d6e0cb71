//! What the variables of a formula stand for while it is grounded.
ghost use Rattle.std.specs.Prelude.{◌≡◌, ℕ, List, slice_index, slice_set, replicate};
ghost use Rattle.dai_model.specs.Value.{bind};
ghost use Rattle.dai_ground.specs.Grounding.{environment};

use std::marker::Model;

/// How many variables there are: those that a variable's number can name.
const VARIABLES: usize = 256;

/// A slot for each variable.
#[derive(Drop)]
pub struct Binding {
    slots: [u16; VARIABLES],
}

impl Model for Binding {
    ghost use Rattle.std.specs.Prelude.{ℕ, List};

    ghost Value = { List ℕ };

    ghost view = { λ b. b.slots };
}

impl Binding {
    /// Each variable stands for the first slot.
    pub fn new() -> Binding
        ensures { result ≡ replicate 256 0 }
    {
        Binding {
            slots: [0; VARIABLES],
        }
    }

    /// The slot of the variable.
    pub fn slot(&self, var: u8) -> u16
        ensures { result ≡ slice_index self.now var }
    {
        self.slots[var as usize]
    }

    /// Lets the variable stand for the slot, all else as before.
    pub fn bind(&mut self, var: u8, slot: u16)
        ensures set { self.new ≡ slice_set self.old var slot }
        ensures bound { (arguments choices : List ℕ) → environment self.new arguments choices ≡ bind (environment self.old arguments choices) var slot }
        ensures at { slice_index self.new var ≡ slot }
    {
        self.slots[var as usize] = slot;
    }
}
