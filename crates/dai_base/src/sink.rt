ghost use Rattle.std.specs.Prelude.{◌≡◌, ℕ, List, Option};
ghost use Rattle.dai_base.specs.Count.{NeverFalls, Rises};

use std::alloc::AllocError;

/// Why bytes weren't written whole.
#[derive(Clone, Copy, Debug, PartialEq, Eq)]
pub enum PutError {
    /// The write failed; the count of faults rose.
    Failed,

    /// Want of memory.
    Spent,
}

impl From<AllocError> for PutError {
    ghost use Rattle.dai_base.specs.declared.sink.PutError.TheVariants.{Spent};

    ghost from_gives = { λ _ error. error ≡ Spent };

    fn from(_error: AllocError) -> PutError {
        PutError::Spent
    }
}

/// A place of the world outside that bytes are written to, one after another.
///
/// Some sinks tell what was written. Each counts its faults: a count that reached
/// 18446744073709551615 stays there.
pub trait Sink {
    ghost use Rattle.dai_base.specs.Sink.{IsPutOf};

    /// All bytes that were written, where that is told.
    ghost written: { Self → Option (List ℕ) };

    /// How many faults there were.
    ghost faults: { Self → ℕ };

    /// Writes these bytes after those that were written.
    ///
    /// `Failed` comes only where a fault was counted, and some first part of the bytes is written
    /// then; `Spent` writes none of them.
    fn put(&mut self, bytes: &[u8]) -> Result<(), PutError>
        ensures written { IsPutOf bytes.now (written self.old) (written self.new) result }
        ensures failed { result ≡ Err PutError.Failed → Rises (faults self.old) (faults self.new) }

        // Whatever the answer.
        ensures faults_stay { NeverFalls (faults self.old) (faults self.new) };
}
