// Description files: TOML documents with a number at each key.
ghost use Rattle.std.specs.Prelude.{◌≡◌, ◌<◌, ◌≤◌, ◌+◌, ℕ, option_map, string_bytes, nat_abs, IfSome, IfOk, IfErr, None};
ghost use Rattle.toml.specs.View.{view, table_view};
ghost use Rattle.machine_desc.specs.declared.reading.MdesFault.{MdesFault};
ghost use Rattle.machine_desc.specs.Value.{description_of};
ghost use Rattle.machine_desc.specs.File.{key, is_known as is_known_key, value as value_at, number as number_at, is_missing as is_missing_at, is_other as is_other_at, least as least_at, greatest as greatest_at, is_out as is_out_at, first_unknown as first_unknown_key, first_key, first_fault as first_fault_of, AreInRange, numbers, described as described_by, IsMdesFile, IsMdesFault};

use super::Mdes;
use std::alloc::Global;
use tnk_base::{Name, NoMemory};
use toml::{Table, Value, table_from_slice};

/// The keys of a description file, by number: those of the width, the unit counts and the latencies must be there, those
/// of the busy times may.
const KEYS: [&str; 24] = [
    "width",
    "unit_i",
    "unit_m",
    "unit_l",
    "unit_p",
    "unit_b",
    "alu",
    "mul",
    "div",
    "load",
    "store",
    "io",
    "cmp",
    "pbr",
    "branch",
    "busy_alu",
    "busy_mul",
    "busy_div",
    "busy_load",
    "busy_store",
    "busy_io",
    "busy_cmp",
    "busy_pbr",
    "busy_branch",
];

/// Why bytes are no description file: the first of these, in this order. A key is told by its number, 0 to 23.
#[derive(Debug, PartialEq, Eq, Drop)]
pub enum MdesFault {
    /// The bytes are no TOML document.
    Toml,
    /// The first key that must be there and isn't.
    Missing(u8),
    /// The first key, by its bytes, that isn't a description's.
    Unknown(Name),
    /// The first key whose value isn't a whole number.
    NotNumber(u8),
    /// The first key whose number is out of its range, with the number.
    Range(u8, i64),
    NoMemory,
}

impl From<NoMemory> for MdesFault {
    ghost from_gives = { λ _ e. e ≡ MdesFault.NoMemory };

    fn from(_: NoMemory) -> Self {
        MdesFault::NoMemory
    }
}

/// The key of a number; nothing for a number above 23.
pub fn key_name(n: u8) -> &'static str
    ensures { result.now ≡ key n }
{
    if n < 24 { KEYS[n as usize] } else { "" }
}

fn value(table: &Table, n: u8) -> Option<&Value>
    requires { n < 24 }
    ensures { option_map (λ v. view v.now) result ≡ value_at (table_view table.now) n }
{
    table.get(key_name(n))
}

/// The whole number at a key, and 1 where there is none.
fn number(table: &Table, n: u8) -> i64
    requires { n < 24 }
    ensures { result ≡ number_at (table_view table.now) n }
{
    match value(table, n) {
        Some(value) => value.as_integer().unwrap_or(1),
        None => 1,
    }
}

fn is_missing(table: &Table, n: u8) -> bool
    requires { n < 24 }
    ensures { result ≡ is_missing_at (table_view table.now) n }
{
    value(table, n).is_none()
}

/// Whether something stands at a key that isn't a whole number.
fn is_other(table: &Table, n: u8) -> bool
    requires { n < 24 }
    ensures { result ≡ is_other_at (table_view table.now) n }
{
    match value(table, n) {
        Some(value) => !value.is_integer(),
        None => false,
    }
}

/// The least number that may stand at a key.
fn least(n: u8) -> i64
    ensures { result ≡ least_at n }
{
    if (1..=5).contains(&n) { 0 } else { 1 }
}

/// The greatest number that may stand at a key. A busy time is at most the latency of its kind.
fn greatest(table: &Table, n: u8) -> i64
    requires { n < 24 }
    ensures { result ≡ greatest_at (table_view table.now) n }
{
    if n == 0 {
        16
    } else if n <= 5 {
        8
    } else if n <= 14 {
        32
    } else {
        number(table, n - 9)
    }
}

fn is_out(table: &Table, n: u8) -> bool
    requires { n < 24 }
    ensures { result ≡ is_out_at (table_view table.now) n }
{
    let number = number(table, n);
    number < least(n) || greatest(table, n) < number
}

#[tactic(auto, unfolding(crate::specs::File::is_known))]
fn is_known(name: &str) -> bool
    ensures { result ≡ is_known_key name.now }
{
    (0..24).any(|n| key_name(n) == name)
}

fn first_missing(table: &Table) -> Option<u8>
    ensures { result ≡ first_key (is_missing_at (table_view table.now)) 15 }
{
    (0..15).find(|n| is_missing(table, *n))
}

fn first_unknown(table: &Table) -> Option<&String>
    ensures { option_map (λ name. string_bytes name.now) result ≡ first_unknown_key (table_view table.now) }
{
    table.keys().find(|name| !is_known(name.as_str()))
}

fn first_other(table: &Table) -> Option<u8>
    ensures { result ≡ first_key (is_other_at (table_view table.now)) 24 }
{
    (0..24).find(|n| is_other(table, *n))
}

fn first_out(table: &Table) -> Option<u8>
    ensures first { result ≡ first_key (is_out_at (table_view table.now)) 24 }
    ensures below { IfSome result (λ n. n < 24) }
{
    (0..24).find(|n| is_out(table, *n))
}

/// The first fault of a document.
fn first_fault(alloc: Global, table: &Table) -> Result<Option<MdesFault>, NoMemory>
    ensures { IfOk result (λ fault. fault ≡ first_fault_of (table_view table.now)) }
{
    if let Some(n) = first_missing(table) {
        return Ok(Some(MdesFault::Missing(n)));
    }
    if let Some(name) = first_unknown(table) {
        return Ok(Some(MdesFault::Unknown(Name::of(alloc, name.as_bytes())?)));
    }
    if let Some(n) = first_other(table) {
        return Ok(Some(MdesFault::NotNumber(n)));
    }
    Ok(first_out(table).map(|n| MdesFault::Range(n, number(table, n))))
}

/// The number at a key of a document whose numbers are in their ranges.
fn byte(table: &Table, n: u8) -> u8
    requires below { n < 24 }
    requires in_range { AreInRange (table_view table.now) }
    ensures { result ≡ nat_abs (number_at (table_view table.now) n) }
{
    number(table, n).unsigned_abs() as u8
}

/// The numbers at the keys of the unit counts.
fn units(table: &Table) -> [u8; 5]
    requires { AreInRange (table_view table.now) }
    ensures { result ≡ numbers (table_view table.now) 1 5 }
{
    [
        byte(table, 1),
        byte(table, 2),
        byte(table, 3),
        byte(table, 4),
        byte(table, 5),
    ]
}

/// The numbers at nine keys, those of the latency kinds.
fn times(table: &Table, first: u8) -> [u8; 9]
    requires below { first + 9 ≤ 24 }
    requires in_range { AreInRange (table_view table.now) }
    ensures { result ≡ numbers (table_view table.now) first 9 }
{
    [
        byte(table, first),
        byte(table, first + 1),
        byte(table, first + 2),
        byte(table, first + 3),
        byte(table, first + 4),
        byte(table, first + 5),
        byte(table, first + 6),
        byte(table, first + 7),
        byte(table, first + 8),
    ]
}

/// The description of a document whose numbers are in their ranges.
fn described(table: &Table) -> Mdes
    requires { AreInRange (table_view table.now) }
    ensures { description_of result ≡ described_by (table_view table.now) }
{
    Mdes {
        width: byte(table, 0),
        units: units(table),
        latencies: times(table, 6),
        busy_times: times(table, 15),
    }
}

impl Mdes {
    /// The description in a file: a TOML document with a whole number at each key of the width, the unit counts and the
    /// latencies, and at those of the busy times that aren't 1.
    pub fn read(alloc: Global, bytes: &[u8]) -> Result<Self, MdesFault>
        ensures numbers { IfOk result (λ m. IsMdesFile bytes.now (description_of m)) }
        ensures fault { IfErr result (IsMdesFault bytes.now) }
    {
        let table = match table_from_slice(alloc, bytes) {
            Ok(table) => table,
            Err(e) if e.is_memory() => return Err(MdesFault::NoMemory),
            Err(_) => return Err(MdesFault::Toml),
        };
        match first_fault(alloc, &table)? {
            Some(fault) => Err(fault),
            None => Ok(described(&table)),
        }
    }
}
