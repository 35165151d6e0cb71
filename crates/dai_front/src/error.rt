use dai_base::Place;

/// Why bytes are no protocol.
#[derive(Clone, Copy, Debug, PartialEq, Eq)]
pub enum ReadError {
    /// They are refused by the fault of this number at this place.
    Bad { number: u8, at: Place },
    /// Want of memory.
    Spent,
}
