// Description files: the numbers that they give, or their first fault. What each text is as a TOML document was worked out from
// the language's definition (toml.io, version 1.1), apart from the code.
use super::descriptions::{BUSY, Numbers, T1, described};
use machine_desc::{Mdes, MdesFault};
use std::alloc::Global;

/// A fault as a row has it.
enum Fault {
    Toml,
    Missing(u8),
    Unknown(&'static str),
    NotNumber(u8),
    Range(u8, i64),
}

/// The numbers in a file of these parts, one after another, or its fault.
type Read = (&'static [&'static str], Result<Numbers, Fault>);

const WIDTH: &str = "width = 2\n";

const UNITS: &str = "unit_i = 1\nunit_m = 1\nunit_l = 1\nunit_p = 1\nunit_b = 1\n";

/// The latencies behind that of `alu`, and before that of `branch`.
const OTHERS: &str = "mul = 3\ndiv = 8\nload = 2\nstore = 1\nio = 1\ncmp = 1\npbr = 1\n";

const BRANCH: &str = "branch = 1\n";

/// All keys that must be there, but for `alu`.
const REST: &str = "width = 2\nunit_i = 1\nunit_m = 1\nunit_l = 1\nunit_p = 1\nunit_b = 1\n\
mul = 3\ndiv = 8\nload = 2\nstore = 1\nio = 1\ncmp = 1\npbr = 1\nbranch = 1\n";

/// A value of `alu`, and the whole number that it spells.
const SPELLED: [(&str, u8); 7] = [
    ("1", 1),
    ("+5", 5),
    ("0x1f", 31),
    ("0x1F", 31),
    ("0o17", 15),
    ("0b11", 3),
    ("1_0", 10),
];

const NINE_32: [u8; 9] = [32, 32, 32, 32, 32, 32, 32, 32, 32];

/// The greatest numbers that there may be.
const GREATEST: Numbers = (16, [8, 8, 8, 8, 8], NINE_32, NINE_32);

const READ: [Read; 54] = [
    (&[WIDTH, UNITS, "alu = 1\n", OTHERS, BRANCH], Ok(T1)),
    (&[BRANCH, OTHERS, "alu = 1\n", UNITS, WIDTH], Ok(T1)),
    (&[REST, "alu = 1\nbusy_mul = 3\n"], Ok(BUSY)),
    (&["busy_mul = 3\nalu = 1\n", REST], Ok(BUSY)),
    (
        &[
            "width=16\r\nunit_i=8\r\nunit_m=8\r\nunit_l=8\r\nunit_p=8\r\nunit_b=8\r\nalu=32\r\nmul=32\r\ndiv=32\r\n",
            "load=32\r\nstore=32\r\nio=32\r\ncmp=32\r\npbr=32\r\nbranch=32\r\nbusy_alu=32\r\nbusy_mul=32\r\nbusy_div=32\r\n",
            "busy_load=32\r\nbusy_store=32\r\nbusy_io=32\r\nbusy_cmp=32\r\nbusy_pbr=32\r\nbusy_branch=32",
        ],
        Ok(GREATEST),
    ),
    // Comments, empty lines, spaces, quoted keys, and a byte order mark.
    (&["# one\n\n", REST, "\n  alu\t=   1   # alu = 2\n"], Ok(T1)),
    (&[REST, "\"alu\" = 1"], Ok(T1)),
    (&[REST, "'alu' = 1"], Ok(T1)),
    (&["\u{FEFF}", REST, "alu = 1"], Ok(T1)),
    // No documents.
    (&["width"], Err(Fault::Toml)),
    (&["width = "], Err(Fault::Toml)),
    (&[REST, "alu = 1\nalu = 1"], Err(Fault::Toml)),
    (&[REST, "alu = 1\n\"alu\" = 2"], Err(Fault::Toml)),
    (&[REST, "alu = 01"], Err(Fault::Toml)),
    (&[REST, "alu = 1__0"], Err(Fault::Toml)),
    (&[REST, "alu = 0X1"], Err(Fault::Toml)),
    (&[REST, "alu = 1 mul = 3"], Err(Fault::Toml)),
    (&[REST, "alu = 9223372036854775808"], Err(Fault::Toml)),
    (&[REST, "fpu = 1\nalu = "], Err(Fault::Toml)),
    // Keys that lack.
    (&[""], Err(Fault::Missing(0))),
    (&["# nothing\n"], Err(Fault::Missing(0))),
    (&[REST], Err(Fault::Missing(6))),
    (
        &[WIDTH, UNITS, "alu = 1\n", OTHERS],
        Err(Fault::Missing(14)),
    ),
    (
        &[WIDTH, "alu = 1\n", OTHERS, BRANCH],
        Err(Fault::Missing(1)),
    ),
    (
        &["alu = 1\n", OTHERS, UNITS, "busy_mul = 3"],
        Err(Fault::Missing(0)),
    ),
    (&["[t1]\n", REST, "alu = 1"], Err(Fault::Missing(0))),
    // Names that are no keys, the first in the order of their bytes.
    (&[REST, "alu = 1\nfpu = 1"], Err(Fault::Unknown("fpu"))),
    (
        &[REST, "alu = 1\nzeta = 1\nfpu = 1"],
        Err(Fault::Unknown("fpu")),
    ),
    (
        &[REST, "alu = 1\nfpu = 1\nBusy_mul = 1"],
        Err(Fault::Unknown("Busy_mul")),
    ),
    (&[REST, "alu = 1\n\"\" = 1"], Err(Fault::Unknown(""))),
    (
        &[REST, "alu = 1\nextra = { alu = 1 }"],
        Err(Fault::Unknown("extra")),
    ),
    (
        &[REST, "alu = 1\nbusy.mul = 3"],
        Err(Fault::Unknown("busy")),
    ),
    (
        &[REST, "alu = 1\n[busy]\nmul = 3"],
        Err(Fault::Unknown("busy")),
    ),
    // Values that are no whole numbers.
    (&[REST, "alu = \"1\""], Err(Fault::NotNumber(6))),
    (&[REST, "alu = 1.0"], Err(Fault::NotNumber(6))),
    (&[REST, "alu = 1e0"], Err(Fault::NotNumber(6))),
    (&[REST, "alu = true"], Err(Fault::NotNumber(6))),
    (&[REST, "alu = 1979-05-27"], Err(Fault::NotNumber(6))),
    (&[REST, "alu = [1]"], Err(Fault::NotNumber(6))),
    (&[REST, "alu = { cycles = 1 }"], Err(Fault::NotNumber(6))),
    (&[REST, "alu.cycles = 1"], Err(Fault::NotNumber(6))),
    (
        &[REST, "alu = 1\nbusy_alu = inf"],
        Err(Fault::NotNumber(15)),
    ),
    // Numbers out of their ranges.
    (&[REST, "alu = 33"], Err(Fault::Range(6, 33))),
    (&[REST, "alu = 0"], Err(Fault::Range(6, 0))),
    (&[REST, "alu = -1"], Err(Fault::Range(6, -1))),
    (
        &[REST, "alu = -9223372036854775808"],
        Err(Fault::Range(6, -9_223_372_036_854_775_808)),
    ),
    (
        &["width = 0\n", UNITS, "alu = 33\n", OTHERS, BRANCH],
        Err(Fault::Range(0, 0)),
    ),
    (
        &["width = 17\n", UNITS, "alu = 1\n", OTHERS, BRANCH],
        Err(Fault::Range(0, 17)),
    ),
    (&[REST, "alu = 1\nbusy_mul = 0"], Err(Fault::Range(16, 0))),
    (&[REST, "alu = 1\nbusy_mul = 4"], Err(Fault::Range(16, 4))),
    (&[REST, "busy_alu = 33\nalu = 33"], Err(Fault::Range(6, 33))),
    // Two faults, each before the other in the text.
    (&["fpu = 1\n", REST], Err(Fault::Missing(6))),
    (
        &["alu = \"x\"\nfpu = 1\n", REST],
        Err(Fault::Unknown("fpu")),
    ),
    (
        &["width = 0\nalu = \"x\"\n", UNITS, OTHERS, BRANCH],
        Err(Fault::NotNumber(6)),
    ),
];

/// The bytes of the parts.
fn joined(alloc: Global, parts: &[&str]) -> Option<Vec<u8>> {
    let mut bytes = Vec::new(alloc);
    for part in parts {
        bytes.extend_from_slice(part.as_bytes()).ok()?;
    }
    Some(bytes)
}

fn is_fault(found: &MdesFault, want: &Fault) -> bool {
    match (found, want) {
        (MdesFault::Toml, Fault::Toml) => true,
        (MdesFault::Missing(n), Fault::Missing(key)) => n == key,
        (MdesFault::Unknown(name), Fault::Unknown(text)) => name.bytes() == text.as_bytes(),
        (MdesFault::NotNumber(n), Fault::NotNumber(key)) => n == key,
        (MdesFault::Range(n, z), Fault::Range(key, number)) => n == key && z == number,
        _ => false,
    }
}

fn is_read(alloc: Global, parts: &[&str], want: &Result<Numbers, Fault>) -> bool {
    let Some(bytes) = joined(alloc, parts) else {
        return false;
    };
    match (Mdes::read(alloc, &bytes), want) {
        (Ok(found), Ok(numbers)) => described(numbers) == Some(found),
        (Err(found), Err(fault)) => is_fault(&found, fault),
        _ => false,
    }
}

#[test]
fn files_are_read(rt: HostRuntime) {
    for (row, (parts, want)) in READ.iter().enumerate() {
        assert!(rt; is_read(rt.alloc(), parts, want), "row {row}");
    }
}

fn is_latency(alloc: Global, value: &str, latency: u8) -> bool {
    let Some(bytes) = joined(alloc, &[REST, "alu = ", value]) else {
        return false;
    };
    let (width, units, mut latencies, busy_times) = T1;
    latencies[0] = latency;
    let want = Mdes::with_busy(width, units, latencies, busy_times);
    want.is_some() && Mdes::read(alloc, &bytes).ok() == want
}

#[test]
fn numbers_are_spelled(rt: HostRuntime) {
    for (row, (value, latency)) in SPELLED.iter().enumerate() {
        assert!(rt; is_latency(rt.alloc(), value, *latency), "row {row}");
    }
}

/// A letter that UTF-8 has in two bytes, in one.
#[test]
fn files_are_utf8(rt: HostRuntime) {
    let found = Mdes::read(rt.alloc(), b"# \xE9\n").err();
    assert!(rt; found == Some(MdesFault::Toml));
}
