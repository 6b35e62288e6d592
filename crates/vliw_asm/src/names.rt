// The names of a text, numbered in order of first appearance, and which of them are defined.
ghost use Rattle.std.specs.Prelude.{[]};
ghost use Rattle.vliw_asm.specs.Gathered.{AreNames, Defines, Refers};

use super::stop::{Cause, Stop};
use indexmap::IndexSet;
use std::alloc::Global;

/// The most bytes of a name.
const NAME_LIMIT: usize = 32;

/// The most names of an object.
const NAMES_LIMIT: usize = 262_144;

/// Names as slices of the text.
#[derive(Drop)]
pub struct Names<'a> {
    known: IndexSet<&'a [u8]>,
    defined: IndexSet<&'a [u8]>,
}

impl<'a> Names<'a> {
    /// No names.
    pub fn new(alloc: Global) -> Self
        ensures { AreNames [] [] result }
    {
        Names {
            known: IndexSet::new(alloc),
            defined: IndexSet::new(alloc),
        }
    }

    /// The number of a name. It joins the names where it is new.
    pub fn refer(&mut self, name: &'a [u8]) -> Result<u32, Stop>
        ensures { Refers name.now self.old self.new result }
    {
        let (number, _) = self.known.insert_full(name)?;
        if number >= NAMES_LIMIT || name.len() > NAME_LIMIT {
            return Err(Stop::Faulty(Cause::Limit));
        }
        Ok(number as u32)
    }

    /// The number of a name that is defined here.
    pub fn define(&mut self, name: &'a [u8]) -> Result<u32, Stop>
        ensures { Defines name.now self.old self.new result }
    {
        if !self.defined.insert(name)? {
            return Err(Stop::Faulty(Cause::Duplicate));
        }
        self.refer(name)
    }
}
