//! Numbers among the words.
ghost use Rattle.std.specs.Prelude.{◌≡◌, ◌≤◌, ◌<◌, true, IfSome, IfNone, IfOk, nat_le};
ghost use Rattle.std.specs.List.{list_all};
ghost use Rattle.std.specs.Char.{is_ascii_digit};
ghost use Rattle.std.specs.Str.Parse.{digits_value};
ghost use Rattle.dai_words.specs.Numbers.{is_number as is_number_text, number_at};
ghost use Rattle.dai_words.specs.Readings.{ReadsNumber};

use crate::settings::WordsError;

/// The number that the word is, if it has digits alone and is within its range. Leading zeros are allowed.
pub fn number(text: &[u8], least: u64, most: u64, word: u32) -> Result<u64, WordsError>
    ensures reads { ReadsNumber (number_at least most word text.now) result }
    ensures within { IfOk result (λ n. n ≤ most) }
{
    if !is_number(text) {
        return Err(WordsError::Bad { number: 1, word });
    }
    match value_within(text, most) {
        Some(value) if value >= least => Ok(value),
        _ => Err(WordsError::Bad { number: 2, word }),
    }
}

/// Whether the text is one or more digits.
pub fn is_number(text: &[u8]) -> bool
    ensures { result ≡ is_number_text text.now }
{
    !text.is_empty() && all_digits(text)
}

fn all_digits(bytes: &[u8]) -> bool
    ensures { result ≡ list_all is_ascii_digit bytes.now }
{
    bytes.iter().all(|b| b.is_ascii_digit())
}

/// The number that the digits are, if it is at most `most`.
pub fn value_within(digits: &[u8], most: u64) -> Option<u64>
    requires { list_all is_ascii_digit digits.now ≡ true }
    ensures within { IfSome result (λ value. (value ≡ digits_value 10 digits.now) × (value ≤ most)) }
    ensures beyond { IfNone result (most < digits_value 10 digits.now) }
{
    let most = u128::from(most);
    let mut value: u128 = 0;
    for digit in digits {
        value = 10 * value + u128::from(*digit - b'0');
        if value > most {
            return None;
        }
    }
    Some(value as u64)
}
