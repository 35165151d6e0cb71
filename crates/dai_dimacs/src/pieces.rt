//! The lines of a file and the words of a line.
ghost use Rattle.std.specs.Prelude.{◌≡◌, ◌+◌, ◌<◌, ◌≤◌, ◌==◌, ◌∷◌, [], false, not, length, position, slice_index, IfSome, MatchBool, MatchOption};
ghost use Rattle.std.specs.Char.{is_ascii_whitespace as is_white};
ghost use Rattle.dai_dimacs.specs.Pieces.{lines, words};

/// The place of the first line feed.
fn line_end(text: &[u8]) -> Option<usize>
    ensures { result ≡ position (λ byte. byte == 10) text.now }
{
    text.iter().position(|byte| *byte == b'\n')
}

/// The place of the first byte that isn't white space.
fn word_start(text: &[u8]) -> Option<usize>
    ensures { result ≡ position (λ byte. not (is_white byte)) text.now }
{
    text.iter().position(|byte| !byte.is_ascii_whitespace())
}

/// The place of the first byte that is white space.
fn word_end(text: &[u8]) -> Option<usize>
    ensures { result ≡ position is_white text.now }
{
    text.iter().position(|byte| byte.is_ascii_whitespace())
}

/// The first line of a text, and the text behind its line feed, where it has one.
pub fn first_line(text: &[u8]) -> (&[u8], Option<&[u8]>)
    ensures lines { MatchOption result.1 (lines text.now ≡ result.0.now ∷ []) (λ after. lines text.now ≡ result.0.now ∷ lines after.now) }
    ensures shorter { IfSome result.1 (λ after. length after.now < length text.now) }
{
    match line_end(text) {
        None => (text, None),
        Some(at) => {
            let (line, _) = text.split_at(at);
            let (_, after) = text.split_at(at + 1);
            (line, Some(after))
        }
    }
}

/// The text from its first byte on that isn't white space.
fn from_word(text: &[u8]) -> Option<&[u8]>
    ensures words { MatchOption result (words text.now ≡ []) (λ rest. words text.now ≡ words rest.now) }
    ensures shorter { IfSome result (λ rest. length rest.now ≤ length text.now) }
    ensures starts { IfSome result (λ rest. (0 < length rest.now) × (is_white (slice_index rest.now 0) ≡ false)) }
{
    match word_start(text) {
        None => None,
        Some(start) => {
            let (_, rest) = text.split_at(start);
            Some(rest)
        }
    }
}

/// The first word of a text, and the text behind it.
pub fn first_word(text: &[u8]) -> Option<(&[u8], &[u8])>
    ensures words { MatchOption result (words text.now ≡ []) (λ found. words text.now ≡ found.0.now ∷ words found.1.now) }
    ensures shorter { IfSome result (λ found. length found.1.now < length text.now) }
{
    let rest = from_word(text)?;
    match word_end(rest) {
        None => Some(rest.split_at(rest.len())),
        Some(end) => Some(rest.split_at(end)),
    }
}

/// Whether the text has no word.
pub fn is_blank(text: &[u8]) -> bool
    ensures { MatchBool result (words text.now ≡ []) (0 < length (words text.now)) }
{
    first_word(text).is_none()
}
