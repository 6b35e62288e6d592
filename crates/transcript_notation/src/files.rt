// The files of a transcript, and the hosts on which its commands run: a host has the files that a command's words name, and
// gives back those that it kept.
use super::content::cut;
use super::trouble::Trouble;
use std::alloc::Global;
use std::collections::BTreeMap;
use tnk_base::{Asked, MemoryHost};

/// The first bytes of a file, which are to be the file of a name.
#[derive(Clone, Copy)]
pub struct Part<'a> {
    pub name: &'a str,
    pub file: &'a str,
    pub length: usize,
}

/// Files by name.
#[derive(Drop)]
pub struct Files {
    alloc: Global,
    by_name: BTreeMap<String, Vec<u8>>,
}

impl Files {
    /// No files.
    pub fn new(alloc: Global) -> Self {
        Files {
            alloc,
            by_name: BTreeMap::new(alloc),
        }
    }

    /// The bytes of a file.
    pub fn find(&self, name: &str) -> Result<&[u8], Trouble> {
        match self.by_name.get(name) {
            Some(bytes) => Ok(bytes),
            None => Err(Trouble::NoFile),
        }
    }

    /// Makes a file, in place of one of that name.
    pub fn put(&mut self, name: &str, bytes: Vec<u8>) -> Result<(), Trouble> {
        let name = String::from_str(self.alloc, name)?;
        self.by_name.insert(name, bytes)?;
        Ok(())
    }

    /// A host with the files that the words name, the calls of these numbers failing.
    pub fn host(&self, words: &[String], failing: &[u64]) -> Result<MemoryHost, Trouble> {
        let mut host = MemoryHost::new(self.alloc, failing.to_vec(self.alloc)?);
        self.give_all(&mut host, words)?;
        Ok(host)
    }

    /// Gives the host the first bytes of a file.
    pub fn give_part(&self, host: &mut MemoryHost, part: &Part) -> Result<(), Trouble> {
        let bytes = cut(self.find(part.file)?, 0, part.length)?;
        Ok(host.with(part.name, bytes)?)
    }

    fn give_all(&self, host: &mut MemoryHost, words: &[String]) -> Result<(), Trouble> {
        for word in words {
            self.give(host, word)?;
            self.give_named(host, word)?;
        }
        Ok(())
    }

    /// Gives the file that a word names behind a `=`.
    fn give_named(&self, host: &mut MemoryHost, word: &str) -> Result<(), Trouble> {
        match word.split_once('=') {
            Some((_, name)) => self.give(host, name),
            None => Ok(()),
        }
    }

    fn give(&self, host: &mut MemoryHost, name: &str) -> Result<(), Trouble> {
        match self.by_name.get(name) {
            Some(bytes) => Ok(host.with(name, bytes)?),
            None => Ok(()),
        }
    }

    /// Takes back the files that the host was asked to keep.
    pub fn take_kept(&mut self, host: &MemoryHost) -> Result<(), Trouble> {
        for call in host.asked() {
            if let Asked::Keep(name) = call {
                self.take(host, name.bytes())?;
            }
        }
        Ok(())
    }

    fn take(&mut self, host: &MemoryHost, name: &[u8]) -> Result<(), Trouble> {
        if let Ok(name) = str::from_utf8(name)
            && let Some(bytes) = host.file(name)
        {
            self.put(name, bytes.to_vec(self.alloc)?)?;
        }
        Ok(())
    }
}
