//! The words after the program's name.
use dai_base::Spent;
use std::alloc::Global;
use std::env::{Env, FillError};

/// How long a word may be at the first try.
const FIRST_LENGTH: usize = 256;

/// The words. One that isn't UTF-8 is handed in as the empty word.
pub fn words<R: Env>(rt: &R, alloc: Global) -> Result<Vec<String>, Spent> {
    let mut words = Vec::new(alloc);
    for number in 1..usize::MAX {
        match word(rt, alloc, number)? {
            Some(word) => words.push(word)?,
            None => break,
        }
    }
    Ok(words)
}

/// The word of this number, if there is one. The buffer is doubled until it is long enough.
fn word<R: Env>(rt: &R, alloc: Global, number: usize) -> Result<Option<String>, Spent> {
    let mut length = FIRST_LENGTH;
    for _ in 0..48 {
        let mut buffer = vec![in alloc; 0u8; length]?;
        match rt.arg(number, &mut buffer) {
            Ok(filled) => {
                buffer.truncate(filled);
                return Ok(Some(match String::from_utf8(buffer) {
                    Ok(word) => word,
                    Err(_) => String::new(alloc),
                }));
            }
            Err(FillError::NotPresent) => return Ok(None),
            Err(FillError::TooLong) => length = length.saturating_mul(2),
        }
    }
    Err(Spent)
}
