// What the cells hold when all writes of a block have landed.
ghost use Rattle.std.specs.Prelude.{◌≡◌, length, reverse, All};
ghost use Rattle.timed_meaning.specs.Block.{state_after};
ghost use Rattle.timed_meaning.specs.Evaluator.{state_of, state_with, progress_of, FitsCell, FitsIts, with_value, all_settled};

use super::cells::Cells;
use super::issue::Work;
use super::values::final_write;
use super::{Cell, Write};
use operation::Place;

/// A cell takes a value; one that isn't there takes none.
fn set(cells: &mut Cells, cell: Cell, value: u32)
    requires { FitsCell cell value }
    ensures { state_of cells.new ≡ with_value (state_of cells.old) cell value }
{
    match cell {
        Cell::At(Place::General(n)) => if n < 32 {
            cells.general[n as usize] = value;
        },
        Cell::At(Place::Predicate(n)) => if n < 32 {
            cells.predicates[n as usize] = value != 0;
        },
        Cell::At(Place::Target(n)) => if n < 8 {
            cells.targets[n as usize] = value;
        },
        Cell::At(Place::Memory) => {}
        Cell::Byte(a) => if (a as usize) < cells.memory.len() {
            cells.memory[a as usize] = value as u8;
        },
    }
}

/// The cells that these writes are to take the value of the last of all writes to them.
fn land(cells: &mut Cells, writes: &[Write])
    requires { All FitsIts writes.now }
    ensures { state_of cells.new ≡ all_settled (reverse writes.now) (state_of cells.old) writes.now }
{
    for write in writes {
        if let Some(last) = final_write(write.cell, writes) {
            set(cells, write.cell, last.value);
        }
    }
}

/// All writes of a block land. r0 stays 0 and p0 true.
pub fn settle(cells: &mut Cells, work: &Work)
    requires { All FitsIts work.now.writes.items }
    ensures state { state_with cells.new work.now ≡ state_after (state_with cells.old work.now) (progress_of work.now) }
    ensures memory { length cells.new.memory.items ≡ length cells.old.memory.items }
{
    land(cells, &work.writes);
    cells.general[0] = 0;
    cells.predicates[0] = true;
}
