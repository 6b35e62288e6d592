// The value of a cell, looking back through the writes.
ghost use Rattle.std.specs.Prelude.{◌≡◌, reverse, Option};
ghost use Rattle.timed_meaning.specs.Values.{same_cell as is_same_cell, later as later_of, last_write as last_of, landed};

use super::{Cell, Write};

fn same_cell(a: Cell, b: Cell) -> bool
    ensures { result ≡ is_same_cell a b }
{
    match (a, b) {
        (Cell::At(x), Cell::At(y)) => x == y,
        (Cell::Byte(m), Cell::Byte(n)) => m == n,
        _ => false,
    }
}

/// Of a write and those listed before it the one that lands last.
fn later(write: Write, best: Option<Write>) -> Option<Write>
    ensures { result ≡ later_of write best }
{
    match best {
        Some(v) if v.lands > write.lands => Some(v),
        _ => Some(write),
    }
}

/// The last write to a cell among those that have landed by a cycle; the list has the latest listed last.
pub fn last_write(cell: Cell, cycle: u32, writes: &[Write]) -> Option<Write>
    ensures { result ≡ last_of cell (landed cycle (reverse writes.now)) }
{
    let mut best: Option<Write> = None;
    for write in writes {
        if write.lands <= cycle && same_cell(cell, write.cell) {
            best = later(*write, best);
        }
    }
    best
}

/// The last write to a cell when all have landed.
pub fn final_write(cell: Cell, writes: &[Write]) -> Option<Write>
    ensures { result ≡ last_of cell (reverse writes.now) }
{
    let mut best: Option<Write> = None;
    for write in writes {
        if same_cell(cell, write.cell) {
            best = later(*write, best);
        }
    }
    best
}
