//! Names by themselves, outside a file.
ghost use Rattle.std.specs.Prelude.{◌≡◌};
ghost use Rattle.std.specs.List.{list_all};
ghost use Rattle.dai_lex.specs.Bytes.{is_word_byte as passes};
ghost use Rattle.dai_lex.specs.Words.{is_name as is_name_text};

use crate::bytes::is_word_byte;
use crate::token::Kind;
use crate::words::keyword;

/// Whether the text is one name and nothing more: a word that begins with a small letter and is neither reserved
/// nor left out.
pub fn is_name(text: &[u8]) -> bool
    ensures { result ≡ is_name_text text.now }
{
    match text {
        [] => false,
        [first, ..] => {
            first.is_ascii_lowercase()
                && is_of_word_bytes(text)
                && matches!(keyword(text), Kind::Lower)
        }
    }
}

fn is_of_word_bytes(text: &[u8]) -> bool
    ensures { result ≡ list_all passes text.now }
{
    text.iter().all(|byte| is_word_byte(*byte))
}
