// The outside, as a command sees it: files by name, and one output.
ghost use Rattle.std.specs.Prelude.{◌≡◌, ◌<◌, ◌≤◌, ◌^◌, length, IfOk, IfErr, OnOk, OnErr};
ghost use Rattle.tnk_base.specs.declared.host.Asked.TheVariants.{Fetch as fetched, Keep as kept, Put as put_out};
ghost use Rattle.tnk_base.specs.Host.{Shown, Stands, HasCause, Holds, IsTooLong, IsLeftBut, NotedOr, grown, GrowsByPart};

use super::{Name, NoMemory};
use std::alloc::{AllocError, Global};

/// Why a file isn't kept, or bytes aren't put out.
#[derive(Clone, Copy, Debug, PartialEq, Eq)]
pub enum HostFault {
    Failed,
    NoMemory,
}

/// Why a file isn't fetched.
#[derive(Clone, Copy, Debug, PartialEq, Eq)]
pub enum FetchFault {
    Failed,
    TooLong(u64),
    NoMemory,
}

impl From<NoMemory> for HostFault {
    ghost use Rattle.tnk_base.specs.declared.host.HostFault.{HostFault};

    ghost from_gives = { λ _ e. e ≡ HostFault.NoMemory };

    fn from(_: NoMemory) -> Self {
        HostFault::NoMemory
    }
}

impl From<AllocError> for HostFault {
    ghost use Rattle.tnk_base.specs.declared.host.HostFault.{HostFault};

    ghost from_gives = { λ _ e. e ≡ HostFault.NoMemory };

    fn from(_: AllocError) -> Self {
        HostFault::NoMemory
    }
}

impl From<NoMemory> for FetchFault {
    ghost use Rattle.tnk_base.specs.declared.host.FetchFault.{FetchFault};

    ghost from_gives = { λ _ e. e ≡ FetchFault.NoMemory };

    fn from(_: NoMemory) -> Self {
        FetchFault::NoMemory
    }
}

impl From<AllocError> for FetchFault {
    ghost use Rattle.tnk_base.specs.declared.host.FetchFault.{FetchFault};

    ghost from_gives = { λ _ e. e ≡ FetchFault.NoMemory };

    fn from(_: AllocError) -> Self {
        FetchFault::NoMemory
    }
}

/// A call of a host: a fetch with its limit, a keep, or a put.
#[derive(Debug, Drop, PartialEq, Eq)]
pub enum Asked {
    Fetch(Name, u64),
    Keep(Name),
    Put,
}

/// The outside of a command. A host may leave its files, its output or the calls asked untold; its count of faults it
/// always tells. The count rises at each `Failed` and at nothing else, and stays at the last value of a `u64`.
pub trait Host {
    /// The files by name, the bytes put out so far and the calls so far, each where the host tells them, and how many
    /// calls have failed, a count that never falls.
    ghost shows: { Self → Shown };

    /// The bytes of a file. `TooLong` has a number above `limit`: the file's length, where the host tells its files.
    fn fetch(&mut self, alloc: Global, name: &str, limit: u64) -> Result<Vec<u8>, FetchFault>
        requires { limit < 2 ^ 32 }
        ensures file { IfOk result (λ bytes. Holds (shows self.old).files name.now bytes.items) }
        ensures within { IfOk result (λ bytes. length bytes.items ≤ limit) }
        ensures too_long { IfErr result (IsTooLong (shows self.old).files name.now limit) }
        ensures stands { Stands (shows self.old) (shows self.new) }
        ensures asked { NotedOr (result ≡ Err FetchFault.NoMemory) (fetched name.now limit) (shows self.old).asked
            (shows self.new).asked }
        ensures cause { HasCause (shows self.old).faults (shows self.new).faults (result ≡ Err FetchFault.Failed) };

    /// Makes a file of these bytes, in place of one that has the name. A refused call may have changed that file.
    fn keep(&mut self, name: &str, bytes: &[u8]) -> Result<(), HostFault>
        ensures file { OnOk result (Holds (shows self.new).files name.now bytes.now) }
        ensures others { IsLeftBut name.now (shows self.old).files (shows self.new).files }
        ensures out { (shows self.new).out ≡ (shows self.old).out }
        ensures asked { NotedOr ((result ≡ Err HostFault.NoMemory) × ((shows self.new).files ≡ (shows self.old).files))
            (kept name.now) (shows self.old).asked (shows self.new).asked }
        ensures cause { HasCause (shows self.old).faults (shows self.new).faults (result ≡ Err HostFault.Failed) };

    /// Puts bytes out, behind those put out before. A refused call may have put out a first part of them.
    fn put(&mut self, bytes: &[u8]) -> Result<(), HostFault>
        ensures out { OnOk result ((shows self.new).out ≡ grown bytes.now (shows self.old).out) }
        ensures part { OnErr result (GrowsByPart bytes.now (shows self.old).out (shows self.new).out) }
        ensures files { (shows self.new).files ≡ (shows self.old).files }
        ensures asked { NotedOr ((result ≡ Err HostFault.NoMemory) × ((shows self.new).out ≡ (shows self.old).out)) put_out
            (shows self.old).asked (shows self.new).asked }
        ensures cause { HasCause (shows self.old).faults (shows self.new).faults (result ≡ Err HostFault.Failed) };
}
