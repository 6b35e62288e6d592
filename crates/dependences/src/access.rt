// The accesses of a block's operations: what each reads and writes, and when.
ghost use Rattle.std.specs.Prelude.{◌≡◌, ◌<◌, ◌≤◌, ◌+◌, ◌^◌, ◌++◌, ℕ, length, map, IfOk, IfSome, OnOk, false, true};
ghost use Rattle.operation.specs.Places.{if_any, destinations as destinations_of};
ghost use Rattle.dependences.specs.Graph.{node_at};
ghost use Rattle.dependences.specs.Footprint.{place_number as number_of, read_places};
ghost use Rattle.dependences.specs.Listed.{AreListed, ops_at};
ghost use Rattle.dependences.specs.Accesses.{AreAccesses, NoneClash, access_at, accesses_of, are_alike, is_clash as clashes_with, kept, read_of, write_apart, write_of};
ghost use Rattle.dependences.specs.Turns.{turn_of};

use super::footprint::{Role, place_number, role_at};
use super::graph::Node;
use operation::Place;
use operation::places::{destinations, is_constant, sources};
use std::alloc::Global;
use timed_meaning::TimedOp;
use tnk_base::NoMemory;

/// What an operation does with a place.
#[derive(Clone, Copy, PartialEq, Eq)]
pub enum Usage {
    Read,
    Write(Role),
}

/// That an operation reads or writes a place; r0 and p0 are no places.
#[derive(Clone, Copy)]
pub struct Access {
    /// The number of the place, 0 to 72.
    pub place: u8,
    /// Twice the cycle, and for a read one more: what lands in a cycle is read in it.
    pub time: u32,
    /// The number of the operation.
    pub number: u16,
    pub usage: Usage,
}

/// Adds that an operation reads a place, where there is one and it is no constant.
fn add_read(
    list: &mut Vec<Access>,
    number: u16,
    timed: &TimedOp,
    place: Option<Place>,
) -> Result<(), NoMemory>
    requires place { IfSome place (λ x. number_of x < 128) }
    requires early { timed.now.at ≤ 2 ^ 14 }
    ensures { OnOk result (list.new.items ≡ list.old.items ++ map (read_of number timed.now) (kept (if_any place))) }
{
    if let Some(place) = place {
        if !is_constant(place) {
            list.push(Access {
                place: place_number(place),
                time: timed.at * 2 + 1,
                number,
                usage: Usage::Read,
            })?;
        }
    }
    Ok(())
}

/// Adds that an operation writes a place, where there is one and it is no constant.
fn add_write(
    list: &mut Vec<Access>,
    number: u16,
    timed: &TimedOp,
    place: Option<Place>,
) -> Result<(), NoMemory>
    requires place { IfSome place (λ x. number_of x < 128) }
    requires early { timed.now.at ≤ 2 ^ 14 }
    ensures { OnOk result (list.new.items ≡ list.old.items ++ map (write_of number timed.now) (kept (if_any place))) }
{
    if let Some(place) = place {
        if !is_constant(place) {
            list.push(Access {
                place: place_number(place),
                time: (timed.at + timed.latency as u32) * 2,
                number,
                usage: Usage::Write(role_at(&timed.guarded.op, place)),
            })?;
        }
    }
    Ok(())
}

/// Adds what an operation reads.
fn add_reads(list: &mut Vec<Access>, number: u16, timed: &TimedOp) -> Result<(), NoMemory>
    requires { timed.now.at ≤ 2 ^ 14 }
    ensures { OnOk result (list.new.items ≡ list.old.items ++
        map (read_of number timed.now) (kept (read_places timed.now.guarded))) }
{
    let from = sources(&timed.guarded.op);
    add_read(
        list,
        number,
        timed,
        Some(Place::Predicate(timed.guarded.guard)),
    )?;
    add_read(list, number, timed, from.first.map(|n| Place::General(n)))?;
    add_read(list, number, timed, from.second.map(|n| Place::General(n)))?;
    add_read(list, number, timed, from.target.map(|n| Place::Target(n)))?;
    add_read(list, number, timed, from.test.map(|n| Place::Predicate(n)))?;
    add_read(list, number, timed, from.memory.then_some(Place::Memory))
}

/// Adds what an operation writes.
fn add_writes(list: &mut Vec<Access>, number: u16, timed: &TimedOp) -> Result<(), NoMemory>
    requires { timed.now.at ≤ 2 ^ 14 }
    ensures { OnOk result (list.new.items ≡ list.old.items ++
        map (write_of number timed.now) (kept (destinations_of timed.now.guarded.op))) }
{
    let to = destinations(&timed.guarded.op);
    add_write(list, number, timed, to.first)?;
    add_write(list, number, timed, to.second)
}

/// Adds what an operation reads and writes.
fn add_accesses(list: &mut Vec<Access>, number: u16, timed: &TimedOp) -> Result<(), NoMemory>
    requires { timed.now.at ≤ 2 ^ 14 }
    ensures { OnOk result (list.new.items ≡ list.old.items ++ accesses_of number timed.now) }
{
    add_reads(list, number, timed)?;
    add_writes(list, number, timed)
}

/// By place, then by time, then by number, as one number.
fn turn(a: &Access) -> u64
    ensures { result ≡ turn_of a.now }
{
    (a.place as u64 * (1 << 32) + a.time as u64) * (1 << 16) + a.number as u64
}

/// The accesses of the operations of a block: by place, by time, and by number.
pub fn accesses(alloc: Global, nodes: &[Node]) -> Result<Vec<Access>, NoMemory>
    requires { AreListed (ops_at nodes.now) (length nodes.now) }
    ensures { IfOk result (λ a. AreAccesses (ops_at nodes.now) (length nodes.now) a.items) }
{
    let mut list = Vec::with_capacity(alloc, 4 * nodes.len())?;
    for (number, node) in nodes.iter().enumerate() {
        add_accesses(&mut list, number as u16, &node.timed)?;
    }
    list.sort_unstable_by_key(|a| turn(a));
    Ok(list)
}

/// Whether two accesses are alike: both read, or both are wired in one family.
pub(crate) fn alike(a: Usage, b: Usage) -> bool
    ensures { result ≡ are_alike a b }
{
    match (a, b) {
        (Usage::Read, Usage::Read) => true,
        (Usage::Write(Role::One), Usage::Write(Role::One)) => true,
        (Usage::Write(Role::Zero), Usage::Write(Role::Zero)) => true,
        _ => false,
    }
}

/// Whether both write, not to the memory, and not alike.
fn are_apart(a: Usage, b: Usage) -> bool
    ensures { result ≡ write_apart a b }
{
    match (a, b) {
        (Usage::Write(Role::Store), Usage::Write(Role::Store)) => false,
        (Usage::Write(_), Usage::Write(_)) => !alike(a, b),
        _ => false,
    }
}

/// Whether two accesses write to one register, predicate or target, not as one wired family, in one cycle.
fn clash(a: &Access, b: &Access) -> bool
    ensures { result ≡ clashes_with a.now b.now }
{
    a.place == b.place && a.time == b.time && a.number != b.number && are_apart(a.usage, b.usage)
}

/// Whether two operations write one register, predicate or target, not as one wired family, and land in one cycle.
pub fn some_clash(accesses: &[Access]) -> bool
    ensures none { result ≡ false → NoneClash accesses.now }
    ensures some { result ≡ true → (p : ℕ) × (p + 1 < length accesses.now) ×
        (clashes_with (access_at accesses.now p) (access_at accesses.now (p + 1)) ≡ true) }
{
    for p in 1..accesses.len() {
        if clash(&accesses[p - 1], &accesses[p]) {
            return true;
        }
    }
    false
}
