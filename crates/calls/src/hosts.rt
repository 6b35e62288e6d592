// Calls of a host in memory: which files it answers, which calls it fails, and what it notes.
use std::alloc::Global;
use std::test::Fail;
use tnk_base::{Asked, FetchFault, Host, HostFault, MemoryHost, Name};

/// A name and a limit, and the bytes of the file.
type Fetched = (&'static str, u32, &'static [u8]);

/// What is fetched of two files, one that was given twice and one that was kept.
const FETCHED: [Fetched; 2] = [("x", 3, b"abc"), ("y", 3, b"de")];

/// A name and a limit, and why no file is fetched.
type Refused = (&'static str, u32, FetchFault);

const REFUSED: [Refused; 2] = [
    ("x", 2, FetchFault::TooLong(3)),
    ("z", 3, FetchFault::Failed),
];

/// Fetches through the bound, as the commands do.
fn is_fetched<H: Host>(alloc: Global, host: &mut H, case: &Fetched) -> bool {
    let (name, limit, want) = *case;
    match host.fetch(alloc, name, limit as u64) {
        Ok(found) => found.as_slice() == want,
        Err(_) => false,
    }
}

/// Fetches through the bound, as the commands do.
fn is_refused<H: Host>(alloc: Global, host: &mut H, case: &Refused) -> bool {
    let (name, limit, want) = *case;
    host.fetch(alloc, name, limit as u64).err() == Some(want)
}

#[test]
fn files_are_fetched(rt: HostRuntime) -> Result<(), Fail> {
    let alloc = rt.alloc();
    let mut host = MemoryHost::new(alloc, Vec::new(alloc));
    host.with("x", b"old")?;
    host.with("x", b"abc")?;
    host.keep("y", b"de")?;
    for (row, case) in FETCHED.iter().enumerate() {
        assert!(rt; is_fetched(alloc, &mut host, case), "row {row}");
    }
    for (row, case) in REFUSED.iter().enumerate() {
        assert!(rt; is_refused(alloc, &mut host, case), "row {row}");
    }
    assert!(rt; host.faults() == 1);
    let mut calls = Vec::new(alloc);
    calls.push(Asked::Keep(Name::of(alloc, b"y")?))?;
    calls.push(Asked::Fetch(Name::of(alloc, b"x")?, 3))?;
    calls.push(Asked::Fetch(Name::of(alloc, b"y")?, 3))?;
    calls.push(Asked::Fetch(Name::of(alloc, b"x")?, 2))?;
    calls.push(Asked::Fetch(Name::of(alloc, b"z")?, 3))?;
    assert!(rt; host.asked() == calls.as_slice());
    Ok(())
}

#[test]
fn calls_fail_by_their_numbers(rt: HostRuntime) -> Result<(), Fail> {
    let alloc = rt.alloc();
    let mut host = MemoryHost::new(alloc, vec![in alloc; 4, 0, 2]?);
    host.with("x", b"abc")?;
    assert!(rt; host.fetch(alloc, "x", 3).err() == Some(FetchFault::Failed));
    assert!(rt; host.put(b"one ").is_ok());
    assert!(rt; host.put(b"three") == Err(HostFault::Failed));
    assert!(rt; host.out() == b"one th".as_slice());
    assert!(rt; host.keep("y", b"de").is_ok());
    assert!(rt; host.keep("y", b"fgh") == Err(HostFault::Failed));
    assert!(rt; host.file("y") == Some(b"de".as_slice()));
    assert!(rt; host.faults() == 3);
    let name = Name::of(alloc, b"x")?;
    assert!(rt; name.bytes() == b"x".as_slice());
    let mut calls = Vec::new(alloc);
    calls.push(Asked::Fetch(name, 3))?;
    calls.push(Asked::Put)?;
    calls.push(Asked::Put)?;
    calls.push(Asked::Keep(Name::of(alloc, b"y")?))?;
    calls.push(Asked::Keep(Name::of(alloc, b"y")?))?;
    assert!(rt; host.asked() == calls.as_slice());
    Ok(())
}
