use dai_base::Spent;
use std::alloc::{AllocError, AllocFailed};

/// Why tokens are not read. The place is an offset into the bytes.
#[derive(Clone, Copy, Debug, PartialEq, Eq)]
pub enum SyntaxError {
    /// The token there fits no file that begins with the tokens before it, or the file ends too early.
    Unexpected { at: u32 },
    /// The token there nests deeper than 200.
    Deep { at: u32 },
    /// A part of Ivy begins there that the profile leaves out.
    LeftOut { at: u32 },
    /// Want of memory.
    Spent,
}

impl From<AllocError> for SyntaxError {
    ghost use Rattle.std.specs.Prelude.{◌≡◌};
    ghost use Rattle.dai_syntax.specs.declared.error.SyntaxError.TheVariants.{Spent};

    ghost from_gives = { λ _ error. error ≡ Spent };

    fn from(_error: AllocError) -> SyntaxError {
        SyntaxError::Spent
    }
}

impl<T: Drop> From<AllocFailed<T>> for SyntaxError {
    ghost use Rattle.std.specs.Prelude.{◌≡◌};
    ghost use Rattle.dai_syntax.specs.declared.error.SyntaxError.TheVariants.{Spent};

    ghost from_gives = { λ _ error. error ≡ Spent };

    fn from(_error: AllocFailed<T>) -> SyntaxError {
        SyntaxError::Spent
    }
}

impl From<Spent> for SyntaxError {
    ghost use Rattle.std.specs.Prelude.{◌≡◌};
    ghost use Rattle.dai_syntax.specs.declared.error.SyntaxError.TheVariants.{Spent as spent};

    ghost from_gives = { λ _ error. error ≡ spent };

    fn from(_error: Spent) -> SyntaxError {
        SyntaxError::Spent
    }
}
