// What the cells hold when a block begins, and what an operation finds in them.
ghost use Rattle.std.specs.Prelude.{◌≡◌, ◌<◌, ◌≤◌, ◌+◌, ◌-◌, ◌^◌, ℕ, reverse, length, Option};
ghost use Rattle.timed_meaning.specs.Values.{entry_value as value_on_entry, value_at as value_then, bit, is_set};
ghost use Rattle.timed_meaning.specs.declared.Cell.TheVariants.{At, Byte};
ghost use Rattle.timed_meaning.specs.Block.{operand, operands as operands_then, number_at as number_then};
ghost use Rattle.operation.specs.declared.Place.TheVariants.{General, Target, Predicate};
ghost use Rattle.timed_meaning.specs.Evaluator.{state_of};

use super::values::last_write;
use super::{Cell, Write};
use operation::places::sources;
use operation::{Guarded, Operands, Place};

/// What each cell holds at the block's entry.
#[derive(Drop)]
pub struct Cells {
    pub general: [u32; 32],
    pub predicates: [bool; 32],
    pub targets: [u32; 8],
    pub memory: Vec<u8>,
}

/// The value of a cell at the block's entry.
fn entry_value(cells: &Cells, cell: Cell) -> u32
    ensures { result ≡ value_on_entry (state_of cells.now) cell }
{
    match cell {
        Cell::At(Place::General(n)) => match cells.general.get(n as usize) {
            Some(v) => *v,
            None => 0,
        },
        Cell::At(Place::Predicate(n)) => match cells.predicates.get(n as usize) {
            Some(true) => 1,
            _ => 0,
        },
        Cell::At(Place::Target(n)) => match cells.targets.get(n as usize) {
            Some(v) => *v,
            None => 0,
        },
        Cell::At(Place::Memory) => 0,
        Cell::Byte(a) => match cells.memory.get(a as usize) {
            Some(v) => *v as u32,
            None => 0,
        },
    }
}

/// The value of a cell at a cycle. The list has the latest listed last.
fn value_at(cells: &Cells, writes: &[Write], cycle: u32, cell: Cell) -> u32
    ensures { result ≡ value_then (state_of cells.now) (reverse writes.now) cycle cell }
{
    match cell {
        Cell::At(Place::General(0)) => 0,
        Cell::At(Place::Predicate(0)) => 1,
        _ => match last_write(cell, cycle, writes) {
            Some(w) => w.value,
            None => entry_value(cells, cell),
        },
    }
}

/// The value of a general register at a cycle, 0 where there is no such operand.
fn general(cells: &Cells, writes: &[Write], cycle: u32, n: Option<u8>) -> u32
    ensures { result ≡ operand General (value_then (state_of cells.now) (reverse writes.now) cycle) n }
{
    match n {
        Some(n) => value_at(cells, writes, cycle, Cell::At(Place::General(n))),
        None => 0,
    }
}

fn target(cells: &Cells, writes: &[Write], cycle: u32, n: Option<u8>) -> u32
    ensures { result ≡ operand Target (value_then (state_of cells.now) (reverse writes.now) cycle) n }
{
    match n {
        Some(n) => value_at(cells, writes, cycle, Cell::At(Place::Target(n))),
        None => 0,
    }
}

fn predicate(cells: &Cells, writes: &[Write], cycle: u32, n: Option<u8>) -> bool
    ensures { result ≡ is_set (operand Predicate (value_then (state_of cells.now) (reverse writes.now) cycle) n) }
{
    match n {
        Some(n) => value_at(cells, writes, cycle, Cell::At(Place::Predicate(n))) != 0,
        None => false,
    }
}

/// The guard and the operands of an operation that issues at a cycle.
pub fn operands_at(
    cells: &Cells,
    writes: &[Write],
    cycle: u32,
    guarded: &Guarded,
    memory: u32,
    full: bool,
) -> Operands
    ensures { result ≡ operands_then guarded.now (value_then (state_of cells.now) (reverse writes.now) cycle) memory full }
{
    let from = sources(&guarded.op);
    Operands {
        guard: predicate(cells, writes, cycle, Some(guarded.guard)),
        first: general(cells, writes, cycle, from.first),
        second: general(cells, writes, cycle, from.second),
        target: target(cells, writes, cycle, from.target),
        test: predicate(cells, writes, cycle, from.test),
        memory,
        full,
    }
}

/// The number in some bytes of memory, the lowest byte first.
pub fn number_at(cells: &Cells, writes: &[Write], cycle: u32, address: u32, n: u32) -> u32
    requires few { n ≤ 4 }
    requires inside { address + n ≤ 2 ^ 32 - 1 }
    ensures value { result ≡ number_then (value_then (state_of cells.now) (reverse writes.now) cycle) address n }
    ensures bound { result < 256 ^ n }
{
    if n == 0 {
        0
    } else {
        value_at(cells, writes, cycle, Cell::Byte(address)) % 256
            + 256 * number_at(cells, writes, cycle, address + 1, n - 1)
    }
}
