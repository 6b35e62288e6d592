// Why a line stops the assembler.
ghost use Rattle.std.specs.Prelude.{◌≡◌};

use std::alloc::{AllocError, AllocFailed};

/// Why a line is faulty, in the order in which the causes are looked for.
#[derive(Clone, Copy, Debug, PartialEq, Eq)]
pub enum Cause {
    /// It has a byte that belongs to no token, or a number out of every range.
    Token,
    /// It begins with nothing that begins a statement.
    Mnemonic,
    /// The statement may not stand there, or the text ends too early.
    Place,
    /// The tokens don't fit the statement.
    Operand,
    /// A number is out of its range.
    Range,
    /// The name is already defined.
    Duplicate,
    /// It is the 513th operation of a block.
    BlockLong,
    /// A name is too long, or there are too many names, operations or data bytes.
    Limit,
}

/// Why a line isn't taken.
#[derive(Clone, Copy, Debug, PartialEq, Eq)]
pub enum Stop {
    Faulty(Cause),
    NoMemory,
}

impl From<AllocError> for Stop {
    ghost use Rattle.vliw_asm.specs.declared.stop.Stop.{Stop};

    ghost from_gives = { λ _ e. e ≡ Stop.NoMemory };

    fn from(_: AllocError) -> Self {
        Stop::NoMemory
    }
}

impl<T: Drop> From<AllocFailed<T>> for Stop {
    ghost use Rattle.vliw_asm.specs.declared.stop.Stop.{Stop};

    ghost from_gives = { λ _ e. e ≡ Stop.NoMemory };

    fn from(_: AllocFailed<T>) -> Self {
        Stop::NoMemory
    }
}
