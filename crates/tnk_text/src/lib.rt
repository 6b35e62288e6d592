// The parts of texts. It stands on tnk_base.
// Its contract promises that `decimal` gives the value of a field of decimal digits, and none for any other field
// (specs/Digits.antt); and that `tokens` gives the tokens of an assembly text, or its first fault (specs/Tokens.antt).
#![tactic(auto)]

ghost use Rattle.std.specs.Prelude.{◌≡◌};

mod digits;
mod fronts;
mod lexing;

pub use digits::decimal;
pub use lexing::tokens;
use std::alloc::{AllocError, AllocFailed};
use thiserror::Error;

/// What a token is.
#[derive(Clone, Copy, Debug, PartialEq, Eq)]
pub enum Kind {
    /// A letter, `_` or `.`, and letters, digits, `_` and `.` behind it.
    Word,
    /// A decimal or hexadecimal number from -2147483648 to 4294967295.
    Number(i64),
    /// One of the bytes `,`, `(`, `)` and `@`.
    Mark(u8),
    /// `;;`.
    Pair,
    /// A line's end.
    Newline,
}

/// A token: the bytes of the text from `start` to before `end`, in a line that is counted from 1.
#[derive(Clone, Copy, Debug, PartialEq, Eq)]
pub struct Token {
    pub kind: Kind,
    pub start: u32,
    pub end: u32,
    pub line: u32,
}

/// Why a text has no tokens: its first fault, with the place, counted from 0, and the line, counted from 1.
#[derive(Clone, Copy, Debug, PartialEq, Eq, Error)]
pub enum TextFault {
    /// The byte at the place begins or continues no token.
    #[error("line {1}: the byte at {0} belongs to no token")]
    BadByte(u32, u32),
    /// The number at the place is out of range.
    #[error("line {1}: the number at {0} is out of range")]
    NumberRange(u32, u32),
    #[error("no memory")]
    NoMemory,
}

impl From<AllocError> for TextFault {
    ghost use Rattle.tnk_text.specs.declared.TextFault.{TextFault};

    ghost from_gives = { λ _ e. e ≡ TextFault.NoMemory };

    fn from(_: AllocError) -> Self {
        TextFault::NoMemory
    }
}

impl<T: Drop> From<AllocFailed<T>> for TextFault {
    ghost use Rattle.tnk_text.specs.declared.TextFault.{TextFault};

    ghost from_gives = { λ _ e. e ≡ TextFault.NoMemory };

    fn from(_: AllocFailed<T>) -> Self {
        TextFault::NoMemory
    }
}
