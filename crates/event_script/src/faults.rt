// The faults of a script, and how they are told.
ghost use Rattle.std.specs.Prelude.{◌≡◌};

use std::alloc::{AllocError, AllocFailed};
use std::fmt;

/// Why a text is no script. A fault has the line where it stands, counted from 1.
#[derive(Clone, Copy, Debug, PartialEq, Eq)]
pub enum ScriptFault {
    /// The first field is unknown, or the number of fields is wrong.
    Word(u32),
    /// A field that must be a number isn't one to ten decimal digits, or the number of turns is out of its range.
    Number(u32),
    /// The context, by the number that was given, isn't there.
    Context(u32, u64),
    /// The page, by the number that was given, isn't one of the context's image.
    Page(u32, u64),
    NoMemory,
}

impl From<AllocError> for ScriptFault {
    ghost use Rattle.event_script.specs.declared.faults.ScriptFault.{ScriptFault};

    ghost from_gives = { λ _ e. e ≡ ScriptFault.NoMemory };

    fn from(_: AllocError) -> Self {
        ScriptFault::NoMemory
    }
}

impl<T: Drop> From<AllocFailed<T>> for ScriptFault {
    ghost use Rattle.event_script.specs.declared.faults.ScriptFault.{ScriptFault};

    ghost from_gives = { λ _ e. e ≡ ScriptFault.NoMemory };

    fn from(_: AllocFailed<T>) -> Self {
        ScriptFault::NoMemory
    }
}

impl fmt::Display for ScriptFault {
    ghost use Rattle.std.specs.Prelude.{Some};
    ghost use Rattle.event_script.specs.Faults.{fault_text};

    ghost output = { λ fault. Some (fault_text fault) };

    fn fmt<W: fmt::Write>(&self, f: &mut fmt::Formatter<W>) -> fmt::Result {
        match self {
            ScriptFault::Word(line) => write!(f, "Word line {line}"),
            ScriptFault::Number(line) => write!(f, "Number line {line}"),
            ScriptFault::Context(line, value) => write!(f, "Context line {line} value {value}"),
            ScriptFault::Page(line, value) => write!(f, "Page line {line} value {value}"),
            ScriptFault::NoMemory => write!(f, "out of memory"),
        }
    }
}
