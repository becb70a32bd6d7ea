//! The words that a process was given.
#![tactic(auto)]

ghost use Rattle.std.specs.Prelude.{◌≡◌};
ghost use Rattle.argument_words.specs.declared.WordsEnd.TheVariants.{NoMemory};

use std::alloc::{AllocError, Global};
use std::env::{Env, FillError};

/// The room for a word at first.
const ROOM: usize = 4096;

/// How reading the words may end.
#[derive(Drop)]
pub enum WordsEnd {
    /// A word is not UTF-8.
    NotUtf8,
    /// Memory was refused.
    NoMemory,
}

impl From<AllocError> for WordsEnd {
    ghost from_gives = { λ _ e. e ≡ NoMemory };

    fn from(_error: AllocError) -> WordsEnd {
        WordsEnd::NoMemory
    }
}

/// A word of these bytes.
fn word_of(alloc: Global, bytes: &[u8]) -> Result<String, WordsEnd> {
    match String::from_utf8(bytes.to_vec(alloc)?) {
        Ok(word) => Ok(word),
        Err(_) => Err(WordsEnd::NotUtf8),
    }
}

/// The word at a place, or none behind the last one. The room grows where the word is longer.
fn word_at<E: Env>(
    alloc: Global,
    env: &E,
    place: usize,
    room: &mut Vec<u8>,
) -> Result<Option<String>, WordsEnd> {
    for _ in 0..usize::BITS {
        match env.arg(place, room.as_mut_slice()) {
            Ok(length) => return Ok(Some(word_of(alloc, &room[..length])?)),
            Err(FillError::NotPresent) => return Ok(None),
            Err(FillError::TooLong) => room.resize(room.len().saturating_mul(2), 0)?,
        }
    }
    Err(WordsEnd::NoMemory)
}

/// The words behind the program's name, each in a text of its own length. NotUtf8 says that one is not UTF-8, NoMemory
/// that memory ran out.
pub fn words_given<E: Env>(alloc: Global, env: &E) -> Result<Vec<String>, WordsEnd> {
    let mut room = Vec::from_elem(alloc, 0u8, ROOM)?;
    let mut words = Vec::new(alloc);
    for place in 1..usize::MAX {
        let Some(word) = word_at(alloc, env, place, &mut room)? else {
            return Ok(words);
        };
        if words.push(word).is_err() {
            return Err(WordsEnd::NoMemory);
        }
    }
    Ok(words)
}
