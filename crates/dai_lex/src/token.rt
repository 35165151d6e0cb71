use std::alloc::AllocFailed;

/// What a token is: a sign, a reserved word, a name, a variable, a number, or a word that the profile
/// leaves out.
#[derive(Clone, Copy, Debug, PartialEq, Eq)]
pub enum Kind {
    /// `<->`
    DoubleArrow,
    /// `->`
    Arrow,
    /// `:=`
    Assign,
    /// `~=`
    NotEqual,
    /// `<=`
    LessOrEqual,
    /// `(`
    OpenRound,
    /// `)`
    CloseRound,
    /// `{`
    OpenCurly,
    /// `}`
    CloseCurly,
    /// `[`
    OpenSquare,
    /// `]`
    CloseSquare,
    /// `,`
    Comma,
    /// `;`
    Semicolon,
    /// `:`
    Colon,
    /// `.`
    Dot,
    /// `=`
    Equal,
    /// `~`
    Tilde,
    /// `&`
    Ampersand,
    /// `|`
    Bar,
    /// `<`
    Less,
    /// `*`
    Asterisk,
    /// `type`
    WordType,
    /// `ordered`
    WordOrdered,
    /// `relation`
    WordRelation,
    /// `individual`
    WordIndividual,
    /// `axiom`
    WordAxiom,
    /// `after`
    WordAfter,
    /// `init`
    WordInit,
    /// `action`
    WordAction,
    /// `export`
    WordExport,
    /// `invariant`
    WordInvariant,
    /// `conjecture`
    WordConjecture,
    /// `require`
    WordRequire,
    /// `assume`
    WordAssume,
    /// `local`
    WordLocal,
    /// `if`
    WordIf,
    /// `else`
    WordElse,
    /// `true`
    WordTrue,
    /// `false`
    WordFalse,
    /// `forall`
    WordForall,
    /// `exists`
    WordExists,
    /// A name: a word that begins with a small letter and is neither reserved nor left out.
    Lower,
    /// A variable: a word that begins with a capital letter.
    Upper,
    /// A word of digits alone.
    Digits,
    /// A word of Ivy that the profile leaves out, such as `function`.
    LeftOut,
}

/// A token: its text is the slice of the bytes from `start` to before `end`.
#[derive(Clone, Copy, Debug, PartialEq, Eq)]
pub struct Token {
    pub kind: Kind,
    pub start: u32,
    pub end: u32,
}

/// Why bytes aren't read.
#[derive(Clone, Copy, Debug, PartialEq, Eq)]
pub enum LexError {
    /// The byte at this offset begins no blank, comment, word or sign, or breaks a word that began with a
    /// digit.
    Bad { at: u32 },
    /// Want of memory.
    Spent,
}

impl<T: Drop> From<AllocFailed<T>> for LexError {
    ghost use Rattle.std.specs.Prelude.{◌≡◌};
    ghost use Rattle.dai_lex.specs.declared.token.LexError.TheVariants.{Spent};

    ghost from_gives = { λ _ error. error ≡ Spent };

    fn from(_error: AllocFailed<T>) -> LexError {
        LexError::Spent
    }
}
