//! What a word of a clause says.
ghost use Rattle.std.specs.Prelude.{◌≡◌, ◌≤◌, ◌<◌, ◌^◌, true, IfSome, IfNone};
ghost use Rattle.std.specs.List.{list_all};
ghost use Rattle.std.specs.Char.{is_ascii_digit};
ghost use Rattle.std.specs.Str.Parse.{digits_value};
ghost use Rattle.dai_dimacs.specs.Tokens.{number_of, token_at, signed_token, token_of as token_of_word};

use dai_sat::Lit;

/// What a word of a clause stands for.
#[derive(Clone, Copy)]
pub enum Token {
    /// The end of the clause.
    End,
    /// A literal.
    Literal(Lit),
}

fn all_digits(bytes: &[u8]) -> bool
    ensures { result ≡ list_all is_ascii_digit bytes.now }
{
    bytes.iter().all(|byte| byte.is_ascii_digit())
}

/// The number that the digits are, if it fits.
fn value(digits: &[u8]) -> Option<usize>
    requires { list_all is_ascii_digit digits.now ≡ true }
    ensures within { IfSome result (λ value. value ≡ digits_value 10 digits.now) }
    ensures beyond { IfNone result (2 ^ 64 ≤ digits_value 10 digits.now) }
{
    let mut value: u128 = 0;
    for digit in digits {
        value = 10 * value + u128::from(*digit - b'0');
        if value > 0xffff_ffff_ffff_ffff {
            return None;
        }
    }
    Some(value as usize)
}

/// The number that the word is, if it has digits alone and is below 2^64. Leading zeros are allowed.
pub fn number(word: &[u8]) -> Option<usize>
    ensures { result ≡ number_of word.now }
{
    if word.is_empty() || !all_digits(word) {
        return None;
    }
    value(word)
}

/// What a number with a sign stands for: 0 ends a clause, and a variable's number is counted from 1.
fn meaning(positive: bool, number: usize) -> Token
    ensures { result ≡ token_at positive number }
{
    match number {
        0 => Token::End,
        _ => Token::Literal(Lit {
            var: number - 1,
            positive,
        }),
    }
}

fn signed(positive: bool, digits: &[u8]) -> Option<Token>
    ensures { result ≡ signed_token positive digits.now }
{
    let number = number(digits)?;
    Some(meaning(positive, number))
}

/// What the word stands for, if it is a number, which may have a minus before it.
#[tactic(auto, unfolding(crate::specs::Tokens::token_of))]
pub fn token_of(word: &[u8]) -> Option<Token>
    ensures { result ≡ token_of_word word.now }
{
    if word.first() == Some(&b'-') {
        signed(false, &word[1..])
    } else {
        signed(true, word)
    }
}
