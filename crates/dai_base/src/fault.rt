/// A place in a file: the line and the column, in bytes, both counted from 1.
#[derive(Clone, Copy, Debug, PartialEq, Eq)]
pub struct Place {
    pub line: u32,
    pub column: u32,
}

/// What is counted against a limit.
#[derive(Clone, Copy, Debug, PartialEq, Eq)]
pub enum LimitKind {
    Atoms,
    Templates,
    Ground,
    Moves,
}

/// Why a run is refused.
#[derive(Clone, Copy, Debug, PartialEq, Eq)]
pub enum Fault {
    /// A word of the command line; words are counted from 1.
    Words {
        number: u8,
        word: u32,
    },

    /// A place in the file.
    InFile {
        number: u8,
        at: Place,
    },

    /// A count above its limit.
    Limit {
        number: u8,
        kind: LimitKind,
        count: u128,
    },

    /// A file of more than 1,048,576 bytes.
    TooLong,
}
