// A host in memory, whose calls can be made to fail by their numbers.
ghost use Rattle.std.specs.Prelude.{◌≡◌, ◌≢◌, ◌↔◌, ◌+◌, ◌-◌, ◌/◌, min, ◌<◌, ◌≤◌, ◌^◌, ℕ, List, [], ◌∷◌, ◌++◌, IsNone, IfSome, length, take, IfOk, IfErr, OnOk, OnErr, Some, None, Option, nat_eq};
ghost use Rattle.std.specs.List.{list_any};
ghost use Rattle.tnk_base.specs.declared.host.Asked.TheVariants.{Fetch as fetched, Keep as kept, Put as put_out};
ghost use Rattle.tnk_base.specs.Host.{Stands, HasCause, Holds, IsTooLong, IsLeftBut, NotedOr, GrowsByPart};
ghost use Rattle.tnk_base.specs.Memory.{memory_files, memory_out, memory_asked, memory_failing, memory_faults, memory_shows, is_failing, Answers, FetchAnswers};

use super::{Asked, FetchFault, Host, HostFault, Name, NoMemory};
use std::alloc::Global;
use std::collections::BTreeMap;

/// Files, an output and the calls asked, in memory. It tells all three.
#[derive(Drop)]
pub struct MemoryHost {
    alloc: Global,
    files: BTreeMap<String, Vec<u8>>,
    out: Vec<u8>,
    asked: Vec<Asked>,
    failing: Vec<u64>,
    faults: u64,
}

impl MemoryHost {
    /// A host with no files. `failing` has the numbers of the calls that are to fail, counted from 0 over all three
    /// kinds, in any order.
    pub fn new(alloc: Global, failing: Vec<u64>) -> Self
        ensures files { (name : List ℕ) → memory_files result name ≡ None }
        ensures out { memory_out result ≡ [] }
        ensures asked { memory_asked result ≡ [] }
        ensures failing { memory_failing result ≡ failing.items }
        ensures faults { memory_faults result ≡ 0 }
    {
        MemoryHost {
            alloc,
            files: BTreeMap::new(alloc),
            out: Vec::new(alloc),
            asked: Vec::new(alloc),
            failing,
            faults: 0,
        }
    }

    /// Adds a file, or replaces the one of this name. It counts as no call.
    pub fn with(&mut self, name: &str, bytes: &[u8]) -> Result<(), NoMemory>
        ensures file { OnOk result (memory_files self.new name.now ≡ Some bytes.now) }
        ensures others { (other : List ℕ) → other ≢ name.now →
            memory_files self.new other ≡ memory_files self.old other }
        ensures err { OnErr result (memory_files self.new ≡ memory_files self.old) }
        ensures out { memory_out self.new ≡ memory_out self.old }
        ensures asked { memory_asked self.new ≡ memory_asked self.old }
        ensures failing { memory_failing self.new ≡ memory_failing self.old }
        ensures faults { memory_faults self.new ≡ memory_faults self.old }
    {
        let key = String::from_str(self.alloc, name)?;
        let value = bytes.to_vec(self.alloc)?;
        self.files.insert(key, value)?;
        Ok(())
    }

    /// The bytes of a file.
    pub fn file(&self, name: &str) -> Option<&[u8]>
        ensures none { IsNone result ↔ (memory_files self.now name.now ≡ None) }
        ensures some { IfSome result (λ bytes. memory_files self.now name.now ≡ Some bytes.now) }
    {
        match self.files.get(name) {
            Some(bytes) => Some(bytes),
            None => None,
        }
    }

    /// The bytes put out so far.
    pub fn out(&self) -> &[u8]
        ensures { result.now ≡ memory_out self.now }
    {
        &self.out
    }

    /// The calls so far, the first one first.
    pub fn asked(&self) -> &[Asked]
        ensures { result.now ≡ memory_asked self.now }
    {
        &self.asked
    }

    /// How many calls have answered `Failed`, up to the last value of a `u64`.
    pub fn faults(&self) -> u64
        ensures { result ≡ memory_faults self.now }
    {
        self.faults
    }
}

impl Host for MemoryHost {
    ghost shows = { memory_shows };

    fn fetch(&mut self, alloc: Global, name: &str, limit: u64) -> Result<Vec<u8>, FetchFault>
        requires { limit < 2 ^ 32 }
        ensures answers { FetchAnswers self.old name.now limit result }
        ensures counted { result ≡ Err FetchFault.Failed → memory_faults self.new ≡ min (memory_faults self.old + 1)
            (2 ^ 64 - 1) }
        ensures failing { memory_failing self.new ≡ memory_failing self.old }

        // As of every host.
        ensures stands { Stands (memory_shows self.old) (memory_shows self.new) }
        ensures asked { NotedOr (result ≡ Err FetchFault.NoMemory) (fetched name.now limit) (Some (memory_asked self.old))
            (Some (memory_asked self.new)) }
        ensures cause { HasCause (memory_faults self.old) (memory_faults self.new) (result ≡ Err FetchFault.Failed) }
    {
        let call = Asked::Fetch(Name::of(alloc, name.as_bytes())?, limit);
        if note(call, &self.failing, &mut self.asked)? {
            count(&mut self.faults);
            return Err(FetchFault::Failed);
        }
        match self.file(name) {
            None => {
                count(&mut self.faults);
                Err(FetchFault::Failed)
            }
            Some(bytes) => {
                let length = bytes.len() as u64;
                if length > limit {
                    return Err(FetchFault::TooLong(length));
                }
                Ok(bytes.to_vec(alloc)?)
            }
        }
    }

    fn keep(&mut self, name: &str, bytes: &[u8]) -> Result<(), HostFault>
        ensures answers { Answers self.old result }
        ensures counted { result ≡ Err HostFault.Failed →
            memory_faults self.new ≡ min (memory_faults self.old + 1) (2 ^ 64 - 1) }
        ensures failing { memory_failing self.new ≡ memory_failing self.old }
        ensures nothing { OnErr result (memory_files self.new ≡ memory_files self.old) }

        // As of every host.
        ensures file { OnOk result (memory_files self.new name.now ≡ Some bytes.now) }
        ensures others { (other : List ℕ) → other ≢ name.now →
            memory_files self.new other ≡ memory_files self.old other }
        ensures out { memory_out self.new ≡ memory_out self.old }
        ensures asked { NotedOr (result ≡ Err HostFault.NoMemory) (kept name.now) (Some (memory_asked self.old))
            (Some (memory_asked self.new)) }
        ensures cause { HasCause (memory_faults self.old) (memory_faults self.new) (result ≡ Err HostFault.Failed) }
    {
        let call = Asked::Keep(Name::of(self.alloc, name.as_bytes())?);
        if note(call, &self.failing, &mut self.asked)? {
            count(&mut self.faults);
            return Err(HostFault::Failed);
        }
        Ok(self.with(name, bytes)?)
    }

    fn put(&mut self, bytes: &[u8]) -> Result<(), HostFault>
        ensures answers { Answers self.old result }
        ensures counted { result ≡ Err HostFault.Failed →
            memory_faults self.new ≡ min (memory_faults self.old + 1) (2 ^ 64 - 1) }
        ensures failing { memory_failing self.new ≡ memory_failing self.old }
        ensures half { result ≡ Err HostFault.Failed → memory_out self.new ≡ memory_out self.old ++ take
            (length bytes.now / 2) bytes.now }
        ensures nothing { result ≡ Err HostFault.NoMemory → memory_out self.new ≡ memory_out self.old }

        // As of every host.
        ensures out { OnOk result (memory_out self.new ≡ memory_out self.old ++ bytes.now) }
        ensures part { OnErr result (GrowsByPart bytes.now (Some (memory_out self.old)) (Some (memory_out self.new))) }
        ensures files { memory_files self.new ≡ memory_files self.old }
        ensures asked { NotedOr (result ≡ Err HostFault.NoMemory) put_out (Some (memory_asked self.old))
            (Some (memory_asked self.new)) }
        ensures cause { HasCause (memory_faults self.old) (memory_faults self.new) (result ≡ Err HostFault.Failed) }
    {
        if note(Asked::Put, &self.failing, &mut self.asked)? {
            self.out.extend_from_slice(&bytes[..bytes.len() / 2])?;
            count(&mut self.faults);
            return Err(HostFault::Failed);
        }
        Ok(self.out.extend_from_slice(bytes)?)
    }
}

// Notes a call, and says whether it is to fail.
fn note(call: Asked, failing: &[u64], asked: &mut Vec<Asked>) -> Result<bool, NoMemory>
    ensures ok { OnOk result (asked.new.items ≡ asked.old.items ++ call ∷ []) }
    ensures err { OnErr result (asked.new.items ≡ asked.old.items) }
    ensures fails { IfOk result (λ fails. fails ≡ list_any (λ n. nat_eq n (length asked.old.items)) failing.now) }
{
    let number = asked.len() as u64;
    asked.push(call)?;
    Ok(failing.contains(&number))
}

// One more fault, up to the counter's last value.
fn count(faults: &mut u64)
    ensures value { faults.new ≡ min (faults.old + 1) (2 ^ 64 - 1) }
    ensures later { faults.old ≤ faults.new }
{
    *faults = faults.saturating_add(1);
}
