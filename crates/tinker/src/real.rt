// Files and standard output as a host. It tells nothing but its count of faults.
ghost use Rattle.std.specs.Prelude.{◌≡◌, ◌≤◌, ◌<◌, ◌^◌, ◌+◌, ◌-◌, ◌↔◌, min, None, IsOk, IsTrue, IfOk, IfSome, take};
ghost use Rattle.std.specs.IoError.{error_kind};
ghost use Rattle.tnk_base.specs.Host.{HasCause};

use super::keeping;
use std::alloc::Global;
use std::fs;
use std::io::{self, ErrorKind, Read};
use std::rt::Files;
use tnk_base::{FetchFault, Host, HostFault};

/// The outside of the program, as the system has it. A call that fails says so on standard error, with why.
#[derive(Drop)]
pub struct RealHost<'a, R> {
    rt: &'a R,
    alloc: Global,
    faults: u64,
}

impl<'a, R: AllocGlobal> RealHost<'a, R> {
    /// A host over the system's files, which has met no fault.
    pub fn new(rt: &'a R) -> Self
        ensures { result.faults ≡ 0 }
    {
        RealHost {
            rt,
            alloc: rt.alloc(),
            faults: 0,
        }
    }
}

impl<R: Files + Print + Eprint> Host for RealHost<'_, R> {
    ghost shows = { λ h. record { files = None; out = None; asked = None; faults = h.faults } };

    fn fetch(&mut self, alloc: Global, name: &str, limit: u64) -> Result<Vec<u8>, FetchFault> {
        match read(alloc, self.rt, name, limit) {
            Ok(bytes) if bytes.len() as u64 <= limit => Ok(bytes),
            Ok(_) => Err(FetchFault::TooLong(limit + 1)),
            Err(e) if is_out_of_memory(&e) => Err(FetchFault::NoMemory),
            Err(e) => {
                tell(self.rt, "reading", name, &e);
                count(&mut self.faults);
                Err(FetchFault::Failed)
            }
        }
    }

    fn keep(&mut self, name: &str, bytes: &[u8]) -> Result<(), HostFault> {
        let kept = keeping::keep(self.alloc, self.rt, name, bytes);
        answer(self.rt, "writing", name, kept, &mut self.faults)
    }

    fn put(&mut self, bytes: &[u8]) -> Result<(), HostFault> {
        let written = self.rt.write_all(bytes);
        answer(
            self.rt,
            "writing",
            "standard output",
            written,
            &mut self.faults,
        )
    }
}

/// Says on standard error which call failed, and why.
fn tell<R: Eprint>(rt: &R, doing: &str, name: &str, error: &io::Error) {
    let _ = eprintln!(rt; "tinker: host fault\n{doing} {name}: {error}");
}

/// The first bytes of the file of a name, up to one more than the limit.
fn read<R: Files>(alloc: Global, rt: &R, name: &str, limit: u64) -> io::Result<Vec<u8>>
    requires { limit < 2 ^ 32 }
{
    read_past(alloc, fs::open(rt, name)?, limit)
}

/// The first bytes of an open file, up to one more than the limit. No more are read.
fn read_past<F: Read + Drop>(alloc: Global, file: F, limit: u64) -> io::Result<Vec<u8>>
    requires { limit < 2 ^ 32 }
    ensures { IfOk result (λ bytes. IfSome (F.remaining file) (λ all. bytes.items ≡ take (limit + 1) all)) }
{
    let mut bytes = Vec::new(alloc);
    file.take(limit + 1).read_to_end(&mut bytes)?;
    Ok(bytes)
}

/// What a call that writes answers. An error is a fault, and counted, unless it is want of memory.
fn answer<R: Eprint>(
    rt: &R,
    doing: &str,
    name: &str,
    written: io::Result<()>,
    faults: &mut u64,
) -> Result<(), HostFault>
    ensures ok { IsOk result ↔ IsOk written }
    ensures cause { HasCause faults.old faults.new (result ≡ Err HostFault.Failed) }
{
    match written {
        Ok(()) => Ok(()),
        Err(e) if is_out_of_memory(&e) => Err(HostFault::NoMemory),
        Err(e) => {
            tell(rt, doing, name, &e);
            count(faults);
            Err(HostFault::Failed)
        }
    }
}

fn is_out_of_memory(error: &io::Error) -> bool
    ensures { IsTrue result ↔ (error_kind error.now ≡ ErrorKind.OutOfMemory) }
{
    error.kind() == ErrorKind::OutOfMemory
}

/// One more fault, up to the counter's last value.
fn count(faults: &mut u64)
    ensures value { faults.new ≡ min (faults.old + 1) (2 ^ 64 - 1) }
    ensures later { faults.old ≤ faults.new }
{
    *faults = faults.saturating_add(1);
}
