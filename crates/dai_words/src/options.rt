//! The options and their values.
ghost use Rattle.std.specs.Prelude.{◌≡◌, ◌≤◌, ◌<◌, ◌+◌, length, drop, slice_get, IfOk, OnOk, IfErr};
ghost use Rattle.std.specs.Option.{option_map_or};
ghost use Rattle.dai_words.specs.declared.settings.Setting.{Setting};
ghost use Rattle.dai_words.specs.Options.{setting_named as named, is_given, new_setting as new_at, gives, options_from, nothing_given};
ghost use Rattle.dai_words.specs.Readings.{texts, given_of, Reads, IsWordsError};

use crate::bounds::bounds;
use crate::number::number;
use crate::settings::{Setting, WordsError};
use dai_base::Text;
use std::alloc::Global;

/// What was given so far; the bounds on variables with their word.
#[derive(Drop)]
pub struct Given {
    pub vars: Option<(Vec<(Text, u8)>, u32)>,
    pub lits: Option<u8>,
    pub seed: Option<u64>,
    pub runs: Option<u32>,
    pub steps: Option<u32>,
    pub size: Option<u16>,
    pub workers: Option<u8>,
}

impl Given {
    /// Nothing yet.
    pub fn nothing() -> Given
        ensures { given_of result ≡ nothing_given }
    {
        Given {
            vars: None,
            lits: None,
            seed: None,
            runs: None,
            steps: None,
            size: None,
            workers: None,
        }
    }

    fn has(&self, setting: Setting) -> bool
        ensures { result ≡ is_given (given_of self.now) setting }
    {
        match setting {
            Setting::Variables => self.vars.is_some(),
            Setting::Literals => self.lits.is_some(),
            Setting::Seed => self.seed.is_some(),
            Setting::Runs => self.runs.is_some(),
            Setting::Steps => self.steps.is_some(),
            Setting::Size => self.size.is_some(),
            Setting::Workers => self.workers.is_some(),
        }
    }

    /// The setting of an option at this word, which must be known and new.
    fn setting(&self, option: &str, word: u32) -> Result<Setting, WordsError>
        ensures { Reads (λ (s : Setting). s) (new_at word (given_of self.now) (named option.now)) result }
    {
        match setting_named(option) {
            Some(setting) if !self.has(setting) => Ok(setting),
            _ => Err(WordsError::Bad { number: 1, word }),
        }
    }

    /// The same with the value at this word.
    fn with(
        self,
        alloc: Global,
        setting: Setting,
        value: &str,
        word: u32,
    ) -> Result<Given, WordsError>
        ensures { Reads given_of (gives word (given_of self) setting value.now) result }
    {
        let text = value.as_bytes();
        match setting {
            Setting::Variables => Ok(Given {
                vars: Some((bounds(alloc, text, word)?, word)),
                ..self
            }),
            Setting::Literals => Ok(Given {
                lits: Some(number(text, 0, 8, word)? as u8),
                ..self
            }),
            Setting::Seed => Ok(Given {
                seed: Some(number(text, 0, u64::MAX, word)?),
                ..self
            }),
            Setting::Runs => Ok(Given {
                runs: Some(number(text, 0, 1000, word)? as u32),
                ..self
            }),
            Setting::Steps => Ok(Given {
                steps: Some(number(text, 0, 1000, word)? as u32),
                ..self
            }),
            Setting::Size => Ok(Given {
                size: Some(number(text, 1, 6, word)? as u16),
                ..self
            }),
            Setting::Workers => Ok(Given {
                workers: Some(number(text, 1, 16, word)? as u8),
                ..self
            }),
        }
    }
}

/// The setting that an option gives.
fn setting_named(option: &str) -> Option<Setting>
    ensures { result ≡ named option.now }
{
    match option {
        "--vars" => Some(Setting::Variables),
        "--lits" => Some(Setting::Literals),
        "--seed" => Some(Setting::Seed),
        "--runs" => Some(Setting::Runs),
        "--steps" => Some(Setting::Steps),
        "--size" => Some(Setting::Size),
        "--workers" => Some(Setting::Workers),
        _ => None,
    }
}

/// What the words from the third on give.
pub fn options(alloc: Global, words: &[String]) -> Result<Given, WordsError>
    requires { 2 ≤ length words.now }
    ensures { Reads given_of (options_from 3 nothing_given (texts (drop 2 words.now))) result }
{
    let mut given = Given::nothing();
    let mut at = 2;
    while at < words.len() {
        let setting = setting_at(&given, words, at)?;
        given = given.with(alloc, setting, words[at + 1].as_str(), at as u32 + 2)?;
        at += 2;
    }
    Ok(given)
}

/// The setting of the option at this place, which must be known and new, and have a value behind it.
fn setting_at(given: &Given, words: &[String], at: usize) -> Result<Setting, WordsError>
    requires inside { at < length words.now }
    requires early { at ≤ 16 }
    ensures new { IfOk result (λ s. new_at (at + 1) (given_of given.now) (option_map_or named (slice_get (texts words.now) at) None) ≡ Ok s) }
    ensures more { OnOk result (at + 1 < length words.now) }
    ensures refused { IfErr result (IsWordsError (options_from (at + 1) (given_of given.now) (texts (drop at words.now)))) }
{
    let word = at as u32 + 1;
    let setting = given.setting(words[at].as_str(), word)?;
    if at + 1 == words.len() {
        return Err(WordsError::Bad {
            number: 1,
            word: word + 1,
        });
    }
    Ok(setting)
}
