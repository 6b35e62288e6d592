// Block tables: which are refused, each at its first broken rule and least row, the look-ups of one that isn't, and the
// words between blocks.
use block_table::{Table, TableFault, TableRule};
use std::alloc::Global;

/// Rows, the number of pages and the program's entry, with the first broken rule and its least row.
type Refused = (&'static [(u32, u16)], u16, u32, TableRule, u32);

const REFUSED: [Refused; 12] = [
    (&[(0, 0)], 1, 0, TableRule::Table, 0),
    (&[(0, 3), (3, 0)], 1, 0, TableRule::Table, 1),
    (&[(512, 1)], 1, 512, TableRule::Table, 0),
    (&[(0, 3), (2, 1)], 1, 0, TableRule::Table, 1),
    (&[(5, 1), (0, 1)], 1, 0, TableRule::Table, 1),
    (&[(0, 513), (513, 0)], 2, 0, TableRule::Table, 1),
    (&[(511, 2)], 1, 511, TableRule::PageCross, 0),
    (&[(0, 512), (512, 513)], 2, 0, TableRule::PageCross, 1),
    (&[(510, 3), (600, 1)], 2, 7, TableRule::PageCross, 0),
    (&[(0, 3), (4, 1)], 1, 3, TableRule::Entry, 0),
    (&[(0, 3)], 1, 1, TableRule::Entry, 0),
    (&[], 1, 0, TableRule::Entry, 0),
];

fn is_refused(alloc: Global, case: &Refused) -> bool {
    let (rows, pages, entry, rule, row) = *case;
    Table::new(alloc, rows, pages, entry).err() == Some(TableFault::Broken(rule, row))
}

#[test]
fn tables_are_refused(rt: HostRuntime) {
    for (row, case) in REFUSED.iter().enumerate() {
        assert!(rt; is_refused(rt.alloc(), case), "row {row}");
    }
}

/// The rows of a table of four pages.
const ROWS: [(u32, u16); 4] = [(0, 3), (510, 2), (512, 512), (2000, 1)];

/// The number of a row, the row, its page, and the entry of the row behind it.
type Placed = (u32, (u32, u16), u16, Option<u32>);

const PLACED: [Placed; 4] = [
    (0, (0, 3), 0, Some(510)),
    (1, (510, 2), 0, Some(512)),
    (2, (512, 512), 1, Some(2000)),
    (3, (2000, 1), 3, None),
];

/// An address, and the row whose entry it is.
const ENTRIES: [(u32, Option<u32>); 4] = [
    (0, Some(0)),
    (2000, Some(3)),
    (511, None),
    (4_294_967_295, None),
];

fn is_placed(table: &Table, case: &Placed) -> bool {
    let (block, row, page, next) = *case;
    block < table.rows()
        && (table.entry(block), table.count(block)) == row
        && table.page(block) == page
        && table.next(block) == next
}

#[test]
fn rows_are_looked_up(rt: HostRuntime) {
    let table = Table::new(rt.alloc(), &ROWS, 4, 512).expect(&rt, "no rule is broken");
    assert!(rt; table.rows() == 4);
    for (row, case) in PLACED.iter().enumerate() {
        assert!(rt; is_placed(&table, case), "row {row}");
    }
    for (row, (address, block)) in ENTRIES.iter().enumerate() {
        assert!(rt; table.block_of(*address) == *block, "row {row}");
    }
}

/// Words of a page with blocks at 1 and 2, at 3, and at 6 and 7, and the first word in no block that isn't 0.
const PADDED: [(&[u64], Option<u32>); 9] = [
    (&[0, 1, 1, 1, 0, 0, 1, 1, 0], None),
    (&[0, 0, 0, 0, 0, 0, 0, 0, 0], None),
    (&[2, 1, 1, 1, 0, 0, 1, 1, 3], Some(0)),
    (&[0, 1, 1, 1, 1, 1, 1, 1, 0], Some(4)),
    (&[0, 0, 0, 0, 0, 1, 0, 0, 0], Some(5)),
    (&[0, 1, 1, 1, 0, 0, 1, 1, 0, 1], Some(9)),
    (&[0, 1, 1], None),
    (&[0, 1, 1, 1, 18_446_744_073_709_551_615], Some(4)),
    (&[], None),
];

fn is_padded(table: &Table, words: &[u64], first: Option<u32>) -> bool {
    words.len() <= 512 && table.unpadded(words) == first
}

#[test]
fn words_between_blocks_are_zero(rt: HostRuntime) {
    let table = Table::new(rt.alloc(), &[(1, 2), (3, 1), (6, 2)], 1, 1).expect(
        &rt,
        "no rule is broken",
    );
    for (row, (words, first)) in PADDED.iter().enumerate() {
        assert!(rt; is_padded(&table, words, *first), "row {row}");
    }
}
