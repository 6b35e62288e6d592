// What can be wrong with a command.
use std::alloc::{AllocError, AllocFailed};
use tnk_base::NoMemory;

/// Why a command isn't as its transcript says, or can't be played.
#[derive(Clone, Copy)]
pub enum Trouble {
    /// The line at a place can't be read. The command's line is at 0, the first one behind it at 1.
    Unreadable(usize),
    UnknownCommand,
    /// The command is on the next run, and none comes before the end or another command on it.
    Unused,
    /// No file has the name.
    NoFile,
    /// A file has the name that none is to have.
    HasFile,
    /// Bytes past the end of a file are asked for, or more than a file may hold.
    PastTheEnd,
    /// What came isn't what was expected. Both are told apart from it, line by line.
    Differs,
    NoMemory,
}

impl Trouble {
    /// The line that tells it, if it is told by one.
    pub fn text(self) -> &'static str {
        match self {
            Trouble::Unreadable(_) => "this line can't be read\n",
            Trouble::UnknownCommand => "there is no such command\n",
            Trouble::Unused => "no `tinker` follows that it is for\n",
            Trouble::NoFile => "there is no such file\n",
            Trouble::HasFile => "there is such a file\n",
            Trouble::PastTheEnd => "past the end of a file\n",
            Trouble::Differs => "",
            Trouble::NoMemory => "there is no memory\n",
        }
    }

    /// The place of the line that it is about.
    pub fn place(self) -> usize {
        match self {
            Trouble::Unreadable(place) => place,
            _ => 0,
        }
    }
}

impl From<NoMemory> for Trouble {
    fn from(_: NoMemory) -> Self {
        Trouble::NoMemory
    }
}

impl From<AllocError> for Trouble {
    fn from(_: AllocError) -> Self {
        Trouble::NoMemory
    }
}

impl<T: Drop> From<AllocFailed<T>> for Trouble {
    fn from(_: AllocFailed<T>) -> Self {
        Trouble::NoMemory
    }
}
