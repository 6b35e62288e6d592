// Object files: what the assembler makes of a text and the linker takes, and its bytes. The layer stands on `machine_desc`,
// whose description a file carries, on `image_format` for the bytes of a description and the ranges of its numbers, on
// `operation` for the kinds that these are told by, on `tnk_base` for names and want of memory, and on `byteorder`.
// Its contract promises the first broken rule of a file, or the object of its bytes (specs/Rules.antt, specs/Layout.antt),
// which keeps the rules (specs/Module.antt), that what is written is read again, and that what is read and written again is
// the same file (specs/Bytes.antt, specs/Laws.antt). That the words make sense is for the layers above.
#![tactic(auto)]

ghost use Rattle.std.specs.Prelude.{◌≡◌};

pub mod laws;
mod numbers;
mod reading;
mod rules;
mod writing;

use machine_desc::Mdes;
pub use reading::read_object;
use tnk_base::{Name, NoMemory};
pub use writing::write_object;

/// A block of an object.
#[derive(Clone, Copy, Debug, PartialEq, Eq)]
pub struct ObjBlock {
    /// The number of its name.
    pub name: u32,
    /// Its address, where it is fixed.
    pub at: Option<u32>,
    /// How many words it has.
    pub count: u16,
}

/// An object.
#[derive(Debug, Drop)]
pub struct Object {
    /// The generation that its words were written for.
    pub desc: Mdes,
    /// The least number of pages; 0 where none is asked for.
    pub pages: u16,
    /// The names, in order of first appearance.
    pub names: Vec<Name>,
    /// The blocks, whose words follow one another.
    pub blocks: Vec<ObjBlock>,
    /// The words of all blocks.
    pub words: Vec<u64>,
    /// The words whose tail is the value of a name: the word's number and the name's.
    pub refs: Vec<(u32, u32)>,
    /// The labels in the data: the name's number and the offset.
    pub labels: Vec<(u32, u32)>,
    /// The size of the data, in bytes.
    pub size: u32,
    /// The data's first bytes; zeros follow.
    pub init: Vec<u8>,
}

/// Why bytes are no object's: the first broken rule.
#[derive(Clone, Copy, Debug, PartialEq, Eq)]
pub enum ObjectFault {
    /// The first four bytes are neither `TNKO` nor `TNKP`.
    Magic,
    /// The file is not as long as its header says.
    Length,
    /// The rule of the field at this offset is broken.
    Field(u32),
    NoMemory,
}

impl From<NoMemory> for ObjectFault {
    ghost use Rattle.object_format.specs.declared.ObjectFault.{ObjectFault};

    ghost from_gives = { λ _ e. e ≡ ObjectFault.NoMemory };

    fn from(_: NoMemory) -> Self {
        ObjectFault::NoMemory
    }
}
