// The words of the command line, as the system has them.
use std::alloc::{AllocError, AllocFailed, Global};
use std::env::{Env, FillError};

/// Why there are no words to hand on.
#[derive(Clone, Copy, Debug)]
pub enum Unread {
    /// A word isn't UTF-8.
    NotText,
    NoMemory,
}

impl From<AllocError> for Unread {
    fn from(_: AllocError) -> Self {
        Unread::NoMemory
    }
}

impl<T: Drop> From<AllocFailed<T>> for Unread {
    fn from(_: AllocFailed<T>) -> Self {
        Unread::NoMemory
    }
}

/// What a buffer was filled with.
#[derive(Drop)]
enum Filled {
    Word(Vec<u8>),
    /// The word is longer than the buffer.
    TooLong,
    /// There is no such word.
    Behind,
}

/// The word of a number, where it has at most so many bytes.
fn fill<E: Env>(alloc: Global, env: &E, number: usize, room: usize) -> Result<Filled, AllocError> {
    let mut bytes = vec![in alloc; 0; room]?;
    match env.arg(number, &mut bytes) {
        Ok(length) => {
            bytes.truncate(length);
            Ok(Filled::Word(bytes))
        }
        Err(FillError::TooLong) => Ok(Filled::TooLong),
        Err(FillError::NotPresent) => Ok(Filled::Behind),
    }
}

/// The word of a number, None behind the last.
fn word<E: Env>(alloc: Global, env: &E, number: usize) -> Result<Option<String>, Unread> {
    let mut room: usize = 256;
    for _ in 0..usize::BITS {
        match fill(alloc, env, number, room)? {
            Filled::Word(bytes) => {
                return match String::from_utf8(bytes) {
                    Ok(text) => Ok(Some(text)),
                    Err(_) => Err(Unread::NotText),
                };
            }
            Filled::Behind => return Ok(None),
            Filled::TooLong => room = room.saturating_mul(2),
        }
    }
    Err(Unread::NoMemory)
}

/// The words behind the program's own name, which may be any bytes.
pub fn words<E: Env>(alloc: Global, env: &E) -> Result<Vec<String>, Unread> {
    let mut words = Vec::new(alloc);
    for number in 1..usize::MAX {
        match word(alloc, env, number)? {
            Some(word) => words.push(word)?,
            None => break,
        }
    }
    Ok(words)
}
