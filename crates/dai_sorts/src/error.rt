use dai_base::Spent;
use std::alloc::{AllocError, AllocFailed};

/// Why a file is no protocol.
#[derive(Clone, Copy, Debug, PartialEq, Eq)]
pub enum SortError {
    /// The fault of this number stands at this offset into the bytes.
    Bad { number: u8, at: u32 },
    /// Want of memory.
    Spent,
}

impl From<AllocError> for SortError {
    ghost use Rattle.std.specs.Prelude.{◌≡◌};
    ghost use Rattle.dai_sorts.specs.declared.error.SortError.TheVariants.{Spent};

    ghost from_gives = { λ _ error. error ≡ Spent };

    fn from(_error: AllocError) -> SortError {
        SortError::Spent
    }
}

impl<T: Drop> From<AllocFailed<T>> for SortError {
    ghost use Rattle.std.specs.Prelude.{◌≡◌};
    ghost use Rattle.dai_sorts.specs.declared.error.SortError.TheVariants.{Spent};

    ghost from_gives = { λ _ error. error ≡ Spent };

    fn from(_error: AllocFailed<T>) -> SortError {
        SortError::Spent
    }
}

impl From<Spent> for SortError {
    ghost use Rattle.std.specs.Prelude.{◌≡◌};
    ghost use Rattle.dai_sorts.specs.declared.error.SortError.TheVariants.{Spent as spent};

    ghost from_gives = { λ _ error. error ≡ spent };

    fn from(_error: Spent) -> SortError {
        SortError::Spent
    }
}
