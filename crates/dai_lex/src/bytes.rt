//! Classes of bytes, and the longest fronts of one class.
ghost use Rattle.std.specs.Prelude.{◌≡◌};
ghost use Rattle.std.specs.Char.{is_ascii_digit};
ghost use Rattle.dai_lex.specs.Bytes.{is_blank, begins_word, is_word_byte, is_in_line, IsLongestFront};

pub(crate) fn is_blank(byte: u8) -> bool
    ensures { result ≡ is_blank byte }
{
    byte == b' ' || byte == b'\t' || byte == b'\r' || byte == b'\n'
}

pub(crate) fn begins_word(byte: u8) -> bool
    ensures { result ≡ begins_word byte }
{
    byte.is_ascii_alphanumeric()
}

pub(crate) fn is_word_byte(byte: u8) -> bool
    ensures { result ≡ is_word_byte byte }
{
    byte.is_ascii_alphanumeric() || byte == b'_'
}

// How many bytes at the front are letters, digits or `_`.
pub(crate) fn word_len(bytes: &[u8]) -> usize
    ensures { IsLongestFront is_word_byte bytes.now result }
{
    for (i, byte) in bytes.iter().enumerate() {
        if !is_word_byte(*byte) {
            return i;
        }
    }
    bytes.len()
}

// How many bytes at the front are digits.
pub(crate) fn digits_len(bytes: &[u8]) -> usize
    ensures { IsLongestFront is_ascii_digit bytes.now result }
{
    for (i, byte) in bytes.iter().enumerate() {
        if !byte.is_ascii_digit() {
            return i;
        }
    }
    bytes.len()
}

// How many bytes stand before the next line feed or the end.
pub(crate) fn line_len(bytes: &[u8]) -> usize
    ensures { IsLongestFront is_in_line bytes.now result }
{
    for (i, byte) in bytes.iter().enumerate() {
        if *byte == b'\n' {
            return i;
        }
    }
    bytes.len()
}
