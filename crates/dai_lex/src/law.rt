//! Laws of the rules, for callers.
ghost use Rattle.std.specs.Prelude.{ℕ, List};
ghost use Rattle.dai_lex.specs.declared.token.Token.{Token};
ghost use Rattle.dai_lex.specs.Tokens.{IsTokens, HaveOneReading, ArePlaced};

/// Bytes have one list of tokens at most, or one first bad byte, and never both.
pub fn one_reading()
    ensures { (bytes : List ℕ) → HaveOneReading bytes }
{}

/// The tokens of bytes follow one another within the bytes, and the text of each is of its kind.
pub fn tokens_are_placed()
    ensures { (bytes : List ℕ) (tokens : List Token) → IsTokens bytes tokens → ArePlaced bytes tokens }
{}
