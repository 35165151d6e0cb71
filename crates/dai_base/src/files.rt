ghost use Rattle.std.specs.Prelude.{◌≡◌, ◌≤◌, ℕ, Option, IfSome, IfNone, IfOk, vec_len};
ghost use Rattle.dai_base.specs.Count.{NeverFalls, RisesByOne};

use std::alloc::AllocError;

/// Why a file wasn't read.
#[derive(Clone, Copy, Debug, PartialEq, Eq)]
pub enum ReadError {
    /// No file has the name.
    Missing,

    /// The file has more bytes than the limit.
    TooLong,

    /// The read failed; the count of faults rose.
    Failed,

    /// Want of memory.
    Spent,
}

impl From<AllocError> for ReadError {
    ghost use Rattle.dai_base.specs.declared.files.ReadError.TheVariants.{Spent};

    ghost from_gives = { λ _ error. error ≡ Spent };

    fn from(_error: AllocError) -> ReadError {
        ReadError::Spent
    }
}

/// The files of the world outside, read by their names.
///
/// Some sources tell what they hold; of the others no content is known. Each counts the reads that
/// were made and its faults: a count that reached 18446744073709551615 stays there.
pub trait Files {
    ghost use Rattle.dai_base.specs.Files.{Holdings, IsReadOf, IsBlindRead};

    /// What is held, where that is told.
    ghost held: { Self → Option Holdings };

    /// How many faults there were.
    ghost faults: { Self → ℕ };

    /// How many reads were made.
    ghost reads: { Self → ℕ };

    /// Reads the whole file of this name, if it has at most `limit` bytes.
    ///
    /// `Missing` and `TooLong` come where the held bytes are so and no fault occurs; `Failed` comes
    /// only where a fault was counted, and so does `Missing` where it isn't told what is held. What
    /// is held stays as it was, whatever the answer.
    fn read_all(&mut self, name: &str, limit: usize) -> Result<Vec<u8>, ReadError>
        ensures told { IfSome (held self.old) (λ files. IsReadOf (files name.now) limit (faults self.old) (faults self.new) result) }
        ensures untold { IfNone (held self.old) (IsBlindRead (faults self.old) (faults self.new) result) }
        ensures within_limit { IfOk result (λ bytes. vec_len bytes ≤ limit) }

        // Whatever the answer.
        ensures same_held { held self.new ≡ held self.old }
        ensures read_counted { RisesByOne (reads self.old) (reads self.new) }
        ensures faults_stay { NeverFalls (faults self.old) (faults self.new) };
}
