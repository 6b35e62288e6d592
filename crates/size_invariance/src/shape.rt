// The shape of a page: a walk over its blocks.
ghost use Rattle.std.specs.Prelude.{◌≡◌, ◌≤◌, ◌<◌, ◌*◌, ◌+◌, ◌/◌, ◌%◌, ◌↔◌, ℕ, IsTrue, length};
ghost use Rattle.block_table.specs.Rows.{IsTable, entry_of, count_of};
ghost use Rattle.size_invariance.specs.Shape.{AreSameShape};
ghost use Rattle.size_invariance.specs.Walk.{AreEqualWithin, IsSameRow};

use super::parts::same_operations;
use block_table::{PAGE, Table};

/// The words of a page.
const WORDS: usize = 512;

/// The first row that stands on a page or behind it.
fn first_on(table: &Table, page: u32) -> u32
    ensures table { IsTable table.now }
    ensures within { result ≤ length table.now }
    ensures before { (k : ℕ) → k < result → entry_of table.now k / 512 < page }
    ensures behind { (k : ℕ) → result ≤ k → k < length table.now → page ≤ entry_of table.now k / 512 }
{
    let mut low = 0;
    let mut high = table.rows();
    while low < high {
        let middle = low + (high - low) / 2;
        if (table.page(middle) as u32) < page {
            low = middle + 1;
        } else {
            high = middle;
        }
    }
    low
}

/// Whether the words from one place up to another are equal.
fn same_words(a: &[u64], b: &[u64], begin: usize, end: usize) -> bool
    requires a { end ≤ length a.now }
    requires b { end ≤ length b.now }
    ensures { IsTrue result ↔ AreEqualWithin a.now b.now begin end }
{
    for i in begin..end {
        if a[i] != b[i] {
            return false;
        }
    }
    true
}

/// Whether the words from a place up to the block of a row are equal, and the block has the same operations.
fn same_row(
    a: &[u64],
    b: &[u64],
    table: &Table,
    row: u32,
    begin: usize,
    left: &mut [u64],
    right: &mut [u64],
) -> bool
    requires row { row < length table.now }
    requires begin { begin ≤ entry_of table.now row % 512 }
    requires a { length a.now ≡ 512 }
    requires b { length b.now ≡ 512 }
    requires left { length left.old ≡ 512 }
    requires right { length right.old ≡ 512 }
    ensures same { IsTrue result ↔ IsSameRow table.now row begin a.now b.now }
    ensures left { length left.new ≡ 512 }
    ensures right { length right.new ≡ 512 }
{
    let entry = (table.entry(row) % PAGE) as usize;
    let end = entry + table.count(row) as usize;
    if !same_words(a, b, begin, entry) {
        return false;
    }
    same_operations(&a[entry..end], &b[entry..end], left, right)
}

/// The place behind the block of a row.
fn place_behind(table: &Table, row: u32) -> usize
    requires { row < length table.now }
    ensures value { result ≡ entry_of table.now row % 512 + count_of table.now row }
    ensures inside { result ≤ 512 }
{
    (table.entry(row) % PAGE) as usize + table.count(row) as usize
}

/// Whether 512 words and 512 others have the same shape as a page.
fn same_page(a: &[u64], b: &[u64], table: &Table, page: u16) -> bool
    requires a { length a.now ≡ 512 }
    requires b { length b.now ≡ 512 }
    ensures { IsTrue result ↔ AreSameShape table.now page a.now b.now }
{
    let mut left = [0; WORDS];
    let mut right = [0; WORDS];
    let mut place = 0;
    let first = first_on(table, page as u32);
    let end = first_on(table, page as u32 + 1);
    for row in first..end {
        if !same_row(a, b, table, row, place, &mut left, &mut right) {
            return false;
        }
        place = place_behind(table, row);
    }
    same_words(a, b, place, WORDS)
}

/// Whether two versions of a page, by its number, have the same shape: both have 512 words, each block has the same
/// operations in both, in any order and with any head marks and pauses, and all other words are equal.
pub fn same_shape(a: &[u64], b: &[u64], table: &Table, page: u16) -> bool
    ensures { IsTrue result ↔ AreSameShape table.now page a.now b.now }
{
    a.len() == WORDS && b.len() == WORDS && same_page(a, b, table, page)
}
