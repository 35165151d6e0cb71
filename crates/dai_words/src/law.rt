//! A law of the words.
ghost use Rattle.std.specs.Prelude.{◌≡◌, ℕ, List, Ok};
ghost use Rattle.dai_words.specs.Words.{Choices, settings_of, AreWithinRanges};

/// What words give is within its ranges.
pub fn settings_are_within_ranges()
    ensures { (words : List (List ℕ)) (c : Choices) → settings_of words ≡ Ok c → AreWithinRanges c }
{}
