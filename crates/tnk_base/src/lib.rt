// What the crates above share: files' names, pages' keys, and the host on which a command runs. It stands on std, and on
// `byteorder` for what the bytes of a number are.
// Its contract is the meaning of a host, and of one in memory whose calls can be made to fail: the tests' host. A law says
// that bytes which were read as a number are written again.
#![tactic(auto)]

ghost use Rattle.std.specs.Prelude.{◌≡◌, ℕ, List, IfOk, bytes_eq};
ghost use Rattle.std.specs.Cmp.{partial_equiv_from_equiv};
ghost use Rattle.std.specs.Cmp.Lexicographic.{nat_list_eq_equiv};

mod host;
pub mod laws;
mod memory;

pub use host::{Asked, FetchFault, Host, HostFault};
pub use memory::MemoryHost;
use std::alloc::{AllocError, AllocFailed, Global};
use std::marker::Model;

/// There is no memory for what was asked.
#[derive(Clone, Copy, Debug, PartialEq, Eq)]
pub struct NoMemory;

impl From<AllocError> for NoMemory {
    fn from(_: AllocError) -> Self {
        NoMemory
    }
}

impl<T: Drop> From<AllocFailed<T>> for NoMemory {
    fn from(_: AllocFailed<T>) -> Self {
        NoMemory
    }
}

/// A page of a program, by their numbers.
#[derive(Clone, Copy, Debug, PartialEq, Eq)]
pub struct Key {
    pub program: u8,
    pub page: u16,
}

/// A file's name: any bytes, and contracts see them.
#[derive(Debug, Drop)]
pub struct Name {
    text: Vec<u8>,
}

impl Model for Name {
    ghost Value = { List ℕ };

    ghost view = { λ n. n.text.items };
}

impl PartialEq for Name {
    ghost eq = { bytes_eq };

    ghost laws = { partial_equiv_from_equiv nat_list_eq_equiv };

    fn eq(&self, other: &Name) -> bool {
        self.text == other.text
    }
}

impl Eq for Name {
    ghost laws = { nat_list_eq_equiv };
}

impl Name {
    /// The name of these bytes.
    pub fn of(alloc: Global, bytes: &[u8]) -> Result<Self, NoMemory>
        ensures { IfOk result (λ name. name ≡ bytes.now) }
    {
        Ok(Name {
            text: bytes.to_vec(alloc)?,
        })
    }

    /// The bytes of the name.
    pub fn bytes(&self) -> &[u8]
        ensures { result.now ≡ self.now }
    {
        &self.text
    }
}
