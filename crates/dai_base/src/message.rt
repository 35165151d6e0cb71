ghost use Rattle.std.specs.Prelude.{◌≡◌, IfOk, string_bytes};
ghost use Rattle.dai_base.specs.Fault.{IsInTable, IsListed, words_of, limit_words, words_line, place_line, limit_line, length_line, fault_text};

use crate::fault::{Fault, LimitKind, Place};
use crate::memory::Spent;
use std::alloc::{AllocError, Global};

/// What the fault of this number says.
fn words_of_fault(number: u8) -> &'static str
    requires { IsInTable number }
    ensures { result.now ≡ words_of number }
{
    match number {
        1 => "E01 bad words",
        2 => "E02 value out of range",
        3 => "E03 unknown type",
        10 => "E10 bad byte",
        12 => "E12 unexpected token",
        13 => "E13 nesting deeper than 200",
        20 => "E20 not in the profile",
        21 => "E21 declared twice",
        22 => "E22 unknown name",
        23 => "E23 wrong number of arguments",
        24 => "E24 wrong type",
        25 => "E25 undetermined variable",
        26 => "E26 order on an unordered type",
        27 => "E27 axiom over an assigned symbol",
        28 => "E28 not universal",
        29 => "E29 not exists-forall",
        30 => "E30 quantifier or loose variable",
        31 => "E31 bad target",
        42 => "E42 too many",
        _ => unreachable!(),
    }
}

/// What is said of a count above the limit of its kind.
fn limit_text(alloc: Global, kind: LimitKind, count: u128) -> Result<String, AllocError>
    ensures { IfOk result (λ text. string_bytes text ≡ limit_words kind count) }
{
    match kind {
        LimitKind::Atoms => format!(in alloc; "E40 atoms {count}, limit 64"),
        LimitKind::Templates => format!(in alloc; "E40 templates {count}, limit 200000"),
        LimitKind::Ground => format!(in alloc; "E41 ground atoms {count}, limit 50000"),
        LimitKind::Moves => format!(in alloc; "E43 moves {count}, limit 65536"),
    }
}

/// The line of a fault of the words.
fn line_of_words(alloc: Global, word: u32, words: &str) -> Result<String, AllocError>
    ensures { IfOk result (λ text. string_bytes text ≡ words_line word words.now) }
{
    format!(in alloc; "distai: word {word}: {words}\n")
}

/// The line of a fault in the file.
fn line_of_place(alloc: Global, name: &str, at: Place, words: &str) -> Result<String, AllocError>
    ensures { IfOk result (λ text. string_bytes text ≡ place_line name.now at words.now) }
{
    let line = at.line;
    let column = at.column;
    format!(in alloc; "{name}:{line}:{column}: {words}\n")
}

/// The line of a count above its limit.
fn line_of_limit(alloc: Global, name: &str, words: &str) -> Result<String, AllocError>
    ensures { IfOk result (λ text. string_bytes text ≡ limit_line name.now words.now) }
{
    format!(in alloc; "{name}: {words}\n")
}

/// The line of a file that is too long.
fn line_of_length(alloc: Global, name: &str) -> Result<String, AllocError>
    ensures { IfOk result (λ text. string_bytes text ≡ length_line name.now) }
{
    format!(in alloc; "{name}: E44 file longer than 1048576 bytes\n")
}

/// The line that tells the user of a fault, its line feed included. `name` is the file that was asked
/// for, as it was given, or the command where no file is read; a fault of the words has no use for it.
pub fn fault_line(alloc: Global, name: &str, fault: &Fault) -> Result<Vec<u8>, Spent>
    requires { IsListed fault.now }
    ensures { IfOk result (λ line. line.items ≡ fault_text name.now fault.now) }
{
    let text = match *fault {
        Fault::Words { number, word } => line_of_words(alloc, word, words_of_fault(number))?,
        Fault::InFile { number, at } => line_of_place(alloc, name, at, words_of_fault(number))?,
        Fault::Limit { kind, count, .. } => {
            let words = limit_text(alloc, kind, count)?;
            line_of_limit(alloc, name, words.as_str())?
        }
        Fault::TooLong => line_of_length(alloc, name)?,
    };
    Ok(text.into_bytes())
}
