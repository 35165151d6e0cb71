//! Bounds on the variables of types.
ghost use Rattle.std.specs.Prelude.{◌≡◌, ◌≤◌, ◌<◌, ◌+◌, List, ℕ, true, false, [], ◌∷◌, map, length, take, drop, IfOk, IfSome, IfNone, MatchOption, Vec};
ghost use Rattle.std.specs.declared.alloc.Global.{Global};
ghost use Rattle.std.specs.List.{list_all};
ghost use Rattle.dai_words.specs.Bounds.{parts_between, is_bound_text as is_bound_part, bound_in, names_of, are_apart as apart, are_small, bounds_at, IsCut};
ghost use Rattle.dai_words.specs.Readings.{Reads};

use crate::number::{is_number, value_within};
use crate::settings::WordsError;
use dai_base::{Spent, Text};
use dai_lex::is_name;
use indexmap::IndexSet;
use std::alloc::Global;

/// The most variables of a type.
const MOST: u64 = 4;

/// The bounds that the word is: one or more of the form `name=number`, joined by `,`, no name twice, each number at
/// most 4. The form of the whole is judged before the ranges.
pub fn bounds(alloc: Global, text: &[u8], word: u32) -> Result<Vec<(Text, u8)>, WordsError>
    ensures { Reads (λ (v : Vec (List ℕ × ℕ) Global). v.items) (bounds_at word text.now) result }
{
    let parts = parts(alloc, b',', text)?;
    if !are_bounds(&parts) || !are_apart(alloc, &parts)? {
        return Err(WordsError::Bad { number: 1, word });
    }
    match values(alloc, &parts)? {
        Some(bounds) => Ok(bounds),
        None => Err(WordsError::Bad { number: 2, word }),
    }
}

/// The parts of the text between the places of the byte.
fn parts(alloc: Global, mark: u8, text: &[u8]) -> Result<Vec<Text>, Spent>
    ensures { IfOk result (λ parts. parts.items ≡ parts_between mark text.now) }
{
    let mut parts = Vec::new(alloc);
    let mut part = Vec::new(alloc);
    for byte in text {
        if *byte == mark {
            parts.push(Text::from_bytes(alloc, &part)?)?;
            part.clear();
        } else {
            part.push(*byte)?;
        }
    }
    parts.push(Text::from_bytes(alloc, &part)?)?;
    Ok(parts)
}

/// Whether each part is `name=number`.
fn are_bounds(parts: &[Text]) -> bool
    ensures { result ≡ list_all is_bound_part parts.now }
{
    parts.iter().all(|part| is_bound(part.as_bytes()))
}

/// Whether the part is `name=number`.
fn is_bound(part: &[u8]) -> bool
    ensures { result ≡ is_bound_part part.now }
{
    match mark_in(part) {
        Some(at) => is_name(name_before(part, at)) && is_number(digits_after(part, at)),
        None => false,
    }
}

/// Where the first `=` stands.
fn mark_in(part: &[u8]) -> Option<usize>
    ensures cut { IfSome result (IsCut part.now) }
    ensures whole { IfNone result (parts_between 61 part.now ≡ part.now ∷ []) }
{
    for (at, byte) in part.iter().enumerate() {
        if *byte == b'=' {
            return Some(at);
        }
    }
    None
}

/// What stands before this place.
fn name_before(part: &[u8], at: usize) -> &[u8]
    requires { at < length part.now }
    ensures { result.now ≡ take at part.now }
{
    part.split_at(at).0
}

/// What stands behind this place.
fn digits_after(part: &[u8], at: usize) -> &[u8]
    requires { at < length part.now }
    ensures { result.now ≡ drop (at + 1) part.now }
{
    part.split_at(at + 1).1
}

/// Whether no name stands twice.
fn are_apart(alloc: Global, parts: &[Text]) -> Result<bool, Spent>
    requires { list_all is_bound_part parts.now ≡ true }
    ensures { IfOk result (λ answer. answer ≡ apart (names_of (map bound_in parts.now))) }
{
    let mut names: IndexSet<Vec<u8>> = IndexSet::new(alloc);
    for part in parts {
        let name = name_in(part.as_bytes());
        if names.contains(name) {
            return Ok(false);
        }
        names.insert(Vec::from_slice(alloc, name)?)?;
    }
    Ok(true)
}

/// The name of a bound.
fn name_in(part: &[u8]) -> &[u8]
    requires { is_bound_part part.now ≡ true }
    ensures { result.now ≡ (bound_in part.now).0 }
{
    match mark_in(part) {
        Some(at) => name_before(part, at),
        None => unreachable!(),
    }
}

/// The bounds, if each is at most 4.
fn values(alloc: Global, parts: &[Text]) -> Result<Option<Vec<(Text, u8)>>, Spent>
    requires { list_all is_bound_part parts.now ≡ true }
    ensures { IfOk result (λ answer. MatchOption answer (are_small (map bound_in parts.now) ≡ false) (λ bounds. (bounds.items ≡ map bound_in parts.now) × (are_small (map bound_in parts.now) ≡ true))) }
{
    let mut bounds = Vec::with_capacity(alloc, parts.len())?;
    for part in parts {
        match bound(alloc, part.as_bytes())? {
            Some(bound) => bounds.push(bound)?,
            None => return Ok(None),
        }
    }
    Ok(Some(bounds))
}

/// The bound, if it is at most 4.
fn bound(alloc: Global, part: &[u8]) -> Result<Option<(Text, u8)>, Spent>
    requires { is_bound_part part.now ≡ true }
    ensures { IfOk result (λ answer. MatchOption answer (4 < (bound_in part.now).1) (λ bound. (bound ≡ bound_in part.now) × (bound.1 ≤ 4))) }
{
    match mark_in(part) {
        Some(at) => match value_within(digits_after(part, at), MOST) {
            Some(value) => Ok(Some((Text::from_bytes(alloc, name_before(part, at))?, value as u8))),
            None => Ok(None),
        },
        None => unreachable!(),
    }
}
