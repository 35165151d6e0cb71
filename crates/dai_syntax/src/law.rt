//! Laws of the grammar, for callers.
ghost use Rattle.std.specs.Prelude.{ℕ, ◌≡◌, List, length};
ghost use Rattle.dai_lex.specs.declared.token.Token.{Token};
ghost use Rattle.dai_lex.specs.Tokens.{IsTokens};
ghost use Rattle.dai_syntax.specs.Tree.{Declaration};
ghost use Rattle.dai_syntax.specs.Viable.{HaveOneVerdict, IsFile};
ghost use Rattle.dai_syntax.specs.Within.{DeclarationsWithin};

use dai_lex::tokens_are_placed;

/// Tokens are one file at most.
pub fn one_file()
    ensures { (bytes : List ℕ) (tokens : List Token) (some others : List Declaration) → IsFile bytes tokens some → IsFile bytes tokens others → some ≡ others }
{}

/// Tokens have one fault at most, and none where they are a file.
pub fn one_fault()
    ensures { (bytes : List ℕ) (tokens : List Token) → HaveOneVerdict bytes tokens }
{}

/// The places that the tree of a file keeps are offsets into its bytes, or their end.
pub fn places_lie_within()
    ensures { (bytes : List ℕ) (tokens : List Token) (ds : List Declaration) → IsTokens bytes tokens → IsFile bytes tokens ds → DeclarationsWithin (length bytes) ds }
{
    tokens_are_placed();
}
