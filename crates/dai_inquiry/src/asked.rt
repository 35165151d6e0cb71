//! What is asked at once.
ghost use Rattle.std.specs.Prelude.{◌≡◌, ◌+◌, ◌<◌, ℕ, true, IfOk, Some, length, slice_get};
ghost use Rattle.std.specs.List.{All, Contains};
ghost use Rattle.dai_inquiry.specs.Asked.{parts_of, IsCovered};

use crate::truths::Pick;
use dai_base::Spent;
use dai_circuit::Bit;
use std::alloc::Global;

/// The bit that the goal is met in what the block leaves, and premises with their bits.
#[derive(Drop)]
pub(crate) struct Asked {
    pub goal: Bit,
    pub premises: Vec<Pick>,
}

impl Asked {
    /// The bits that are to be true: the goal's negation, and each premise.
    pub(crate) fn parts(&self, alloc: Global) -> Result<Vec<Bit>, Spent>
        ensures { IfOk result (λ parts. parts.items ≡ parts_of self.now) }
    {
        let mut parts = Vec::new(alloc);
        parts.push(self.goal.negation())?;
        for pick in &self.premises {
            parts.push(pick.bit)?;
        }
        Ok(parts)
    }

    /// The numbers of the premises in the core.
    pub(crate) fn needed(&self, alloc: Global, core: &[bool]) -> Result<Vec<usize>, Spent>
        requires { length core.now ≡ length (parts_of self.now) }
        ensures inside { IfOk result (λ numbers. (n : ℕ) → All (λ (pick : Pick). pick.number < n) self.now.premises.items → All (λ k. k < n) numbers.items) }
        ensures covered { IfOk result (λ numbers. (i : ℕ) → i < length self.now.premises.items → IsCovered self.now.premises.items core.now numbers.items i) }
    {
        let mut numbers = Vec::new(alloc);
        for place in 0..self.premises.len() {
            if core[place + 1] {
                numbers.push(self.premises[place].number)?;
            }
        }
        Ok(numbers)
    }
}
