//! Reading the words.
ghost use Rattle.std.specs.Prelude.{◌≡◌, ◌≤◌, length, drop, IfOk, IfErr};
ghost use Rattle.dai_words.specs.Words.{settings_of, command_named as named, command_line as line_of, is_operand, chosen};
ghost use Rattle.dai_words.specs.Readings.{texts, given_of, choices_of, Reads, ReadsSettings};

use crate::options::{Given, options};
use crate::settings::{Command, Settings, WordsError};
use std::alloc::Global;

/// The settings of the words: `infer` or `space`, a file, and options, each at most once: `--vars` with bounds
/// from 0 to 4, `--lits` from 0 to 8, `--seed`, `--runs` and `--steps` from 0 to 1,000, `--size` from 1 to 6 and
/// `--workers` from 1 to 16. An option that isn't given has its default.
///
/// `Bad` comes exactly where a word is refused, at the first such word: 1 where it isn't of its form, is an
/// unknown option or a second use of one, or is missing; 2 where a number is out of its range.
pub fn read_words(alloc: Global, words: &[String]) -> Result<Settings, WordsError>
    ensures { ReadsSettings (settings_of (texts words.now)) result }
{
    if words.is_empty() {
        return Err(WordsError::Bad { number: 1, word: 1 });
    }
    match command_named(words[0].as_str()) {
        Some(command) => command_line(alloc, command, words),
        None => Err(WordsError::Bad { number: 1, word: 1 }),
    }
}

/// The command of this name.
fn command_named(name: &str) -> Option<Command>
    ensures { result ≡ named name.now }
{
    match name {
        "infer" => Some(Command::Infer),
        "space" => Some(Command::Space),
        _ => None,
    }
}

/// The settings of the words behind the command.
fn command_line(alloc: Global, command: Command, words: &[String]) -> Result<Settings, WordsError>
    requires { 1 ≤ length words.now }
    ensures { ReadsSettings (line_of command (texts (drop 1 words.now))) result }
{
    if words.len() < 2 || !starts_operand(words[1].as_str()) {
        return Err(WordsError::Bad { number: 1, word: 2 });
    }
    let given = options(alloc, words)?;
    settings(alloc, command, words[1].as_str(), given)
}

/// Whether the word can name a file.
fn starts_operand(word: &str) -> bool
    ensures { result ≡ is_operand word.now }
{
    match word.as_bytes() {
        [] => false,
        [first, ..] => *first != b'-',
    }
}

/// The settings with the defaults.
fn settings(
    alloc: Global,
    command: Command,
    operand: &str,
    given: Given,
) -> Result<Settings, WordsError>
    ensures ok { IfOk result (λ s. choices_of s ≡ chosen command operand.now (given_of given)) }
    ensures err { IfErr result (λ e. e ≡ WordsError.Spent) }
{
    let operand = String::from_str(alloc, operand)?;
    let (vars, vars_word) = given.vars.unwrap_or((Vec::new(alloc), 0));
    Ok(Settings {
        command,
        operand,
        count: 0,
        vars,
        vars_word,
        lits: given.lits.unwrap_or(2),
        seed: given.seed.unwrap_or(0),
        runs: given.runs.unwrap_or(20),
        steps: given.steps.unwrap_or(30),
        size: given.size.unwrap_or(4),
        workers: given.workers.unwrap_or(1),
        evidence: false,
    })
}
