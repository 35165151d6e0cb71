//! What the words say.
ghost use Rattle.std.specs.Prelude.{◌≤◌};

use dai_base::{Spent, Text};
use std::alloc::{AllocError, AllocFailed};

/// What is to be done.
#[derive(Clone, Copy, Debug, PartialEq, Eq)]
pub enum Command {
    Infer,
    Space,
    Sample,
    Gen,
}

/// What an option sets.
#[derive(Clone, Copy)]
pub enum Setting {
    Variables,
    Literals,
    Seed,
    Runs,
    Steps,
    Size,
    Workers,
}

/// The settings of a run, with the defaults of the options that were not given.
///
/// `operand` is the file, or `gen`; `count` is the number after `gen`, or 0; `vars` are the bounds on variables
/// by the name of the type, each at most 4; `vars_word` is the number of the word after `--vars`, or 0.
#[derive(Drop)]
pub struct Settings {
    pub command: Command,
    pub operand: String,
    pub count: u32,
    pub vars: Vec<(Text, u8)>,
    pub vars_word: u32,
    /// At most 8.
    pub lits: u8,
    pub seed: u64,
    /// At most 1,000.
    pub runs: u32,
    /// At most 1,000.
    pub steps: u32,
    /// From 1 to 6.
    pub size: u16,
    /// From 1 to 16.
    pub workers: u8,
    pub evidence: bool,
}

/// Why words are not read.
#[derive(Clone, Copy, Debug, PartialEq, Eq)]
pub enum WordsError {
    /// The fault of this number, 1 or 2, stands at this word, counted from 1.
    Bad { number: u8, word: u32 },
    /// Want of memory.
    Spent,
}

impl From<AllocError> for WordsError {
    ghost use Rattle.std.specs.Prelude.{◌≡◌};
    ghost use Rattle.dai_words.specs.declared.settings.WordsError.TheVariants.{Spent};

    ghost from_gives = { λ _ error. error ≡ Spent };

    fn from(_error: AllocError) -> WordsError {
        WordsError::Spent
    }
}

impl<T: Drop> From<AllocFailed<T>> for WordsError {
    ghost use Rattle.std.specs.Prelude.{◌≡◌};
    ghost use Rattle.dai_words.specs.declared.settings.WordsError.TheVariants.{Spent};

    ghost from_gives = { λ _ error. error ≡ Spent };

    fn from(_error: AllocFailed<T>) -> WordsError {
        WordsError::Spent
    }
}

impl From<Spent> for WordsError {
    ghost use Rattle.std.specs.Prelude.{◌≡◌};
    ghost use Rattle.dai_words.specs.declared.settings.WordsError.TheVariants.{Spent as spent};

    ghost from_gives = { λ _ error. error ≡ spent };

    fn from(_error: Spent) -> WordsError {
        WordsError::Spent
    }
}
