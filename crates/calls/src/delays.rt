// Tables of delays, the serial orders that they have, and the delays of blocks. The words were put together from the tables of
// the format, and the orders, pairs and delays worked out by hand, apart from the code.
ghost use Rattle.std.specs.Prelude.{◌≤◌};

use super::blocks::good_block;
use super::descriptions::{LONG, Numbers, SHORT, T1, T2, T3, described};
use latency_deps::{delays, delays_into};
use serial_order::{Delays, OrderFault, order};
use std::alloc::{AllocError, Global};

/// Operations before others, and the delays that are set one after another.
const SET: [Pair; 3] = [(0, 2, -31), (2, 1, 32), (0, 2, 5)];

/// Two operations, and the delay that is got.
const GOT: [(u16, u16, Option<i8>); 7] = [
    (0, 0, None),
    (0, 1, None),
    (0, 2, Some(5)),
    (1, 0, None),
    (1, 2, None),
    (2, 0, None),
    (2, 1, Some(32)),
];

/// A table over n operations with these pairs.
fn table(alloc: Global, n: u16, pairs: &[Pair]) -> Option<Delays> {
    if n > 512 {
        return None;
    }
    let mut d = Delays::new(alloc, n).ok()?;
    for (i, j, delay) in pairs {
        if *i >= d.count() || *j >= d.count() || *i == *j {
            return None;
        }
        d.set(*i, *j, *delay);
    }
    Some(d)
}

fn is_got(d: &Delays, i: u16, j: u16, want: Option<i8>) -> bool {
    i < d.count() && j < d.count() && d.get(i, j) == want
}

#[test]
fn delays_are_kept(rt: HostRuntime) {
    let d = table(rt.alloc(), 3, &SET).expect(&rt, "there is memory");
    assert!(rt; d.count() == 3);
    for (row, (i, j, want)) in GOT.iter().enumerate() {
        assert!(rt; is_got(&d, *i, *j, *want), "row {row}");
    }
}

/// A table with room for three operations is filled, and restarted with two and with three: nothing of before is left.
fn is_restarted(alloc: Global) -> bool {
    let Ok(mut d) = Delays::with_room(alloc, 3) else {
        return false;
    };
    d.set(0, 1, 7);
    d.set(2, 1, -31);
    d.restart(2);
    let two = is_got(&d, 0, 1, None) && d.count() == 2;
    d.restart(3);
    two && is_got(&d, 0, 1, None) && is_got(&d, 2, 1, None) && d.count() == 3
}

#[test]
fn tables_are_restarted(rt: HostRuntime) {
    assert!(rt; is_restarted(rt.alloc()));
}

/// A number of operations and pairs, and their order, or the least operation that is stuck.
type Ordered = (u16, &'static [Pair], Result<&'static [u16], u16>);

const ORDERED: [Ordered; 8] = [
    (0, &[], Ok(&[])),
    (3, &[], Ok(&[0, 1, 2])),
    // A chain against the numbers.
    (4, &[(3, 2, 1), (2, 1, 1), (1, 0, 1)], Ok(&[3, 2, 1, 0])),
    // Two before one.
    (3, &[(1, 0, 1), (2, 0, 1)], Ok(&[1, 2, 0])),
    (2, &[(0, 1, 1), (1, 0, 1)], Err(0)),
    // 2 and 3 stand in a cycle; 0 is before them, 1 and 4 are behind.
    (
        5,
        &[(0, 2, 1), (2, 3, 1), (3, 2, 1), (3, 1, 1), (1, 4, 1)],
        Err(1),
    ),
    // The greatest alone is free.
    (4, &[(0, 1, 1), (1, 2, 1), (2, 0, 1)], Err(0)),
    (4, &[(3, 1, 1), (1, 2, 1), (2, 1, 1), (0, 3, 1)], Err(1)),
];

fn has_order(alloc: Global, case: &Ordered) -> bool {
    let (n, pairs, want) = *case;
    let Some(d) = table(alloc, n, pairs) else {
        return false;
    };
    match (order(alloc, &d), want) {
        (Ok(found), Ok(list)) => found.as_slice() == list,
        (Err(found), Err(least)) => found == OrderFault::Cycle(least),
        _ => false,
    }
}

#[test]
fn orders(rt: HostRuntime) {
    for (row, case) in ORDERED.iter().enumerate() {
        assert!(rt; has_order(rt.alloc(), case), "row {row}");
    }
}

/// Sets an operation before all those of lower numbers.
fn set_before_lower(d: &mut Delays, i: u16) {
    for j in 0..i {
        if i < d.count() {
            d.set(i, j, 1);
        }
    }
}

/// Of operations that come before those of lower numbers the order is the other way round.
#[test]
fn the_largest_order(rt: HostRuntime) {
    let mut d = Delays::new(rt.alloc(), 512).expect(&rt, "there is memory");
    for i in 0..512 {
        set_before_lower(&mut d, i);
    }
    let list = order(rt.alloc(), &d).expect(&rt, "an order");
    assert!(rt; list.len() == 512);
    for (found, want) in list.iter().zip((0..512).rev()) {
        assert!(rt; *found == want, "{want}");
    }
}

/// An operation, one that it comes before, and the delay.
pub(crate) type Pair = (u16, u16, i8);

/// Words and the description that they are made for, another description, and all pairs with their delays under that.
pub(crate) type Delayed = (Numbers, &'static [u64], Numbers, &'static [Pair]);

/// Worked blocks. In the comments `;;` ends a MultiOp and tells its pause, as in assembly text.
pub(crate) const DELAYED: [Delayed; 28] = [
    // A read of what has landed.
    (
        T1,
        &[
            0x9058_0020_0000_0000, // ldw r1, r0, 0 ;; pause 1
            0x8008_8041_0000_0005, // addi r2, r1, 5 ;;
        ],
        T2,
        &[(0, 1, 3)],
    ),
    // A read in a load's shadow, of the old value: the reader comes first.
    (
        T1,
        &[
            0x9018_0020_0000_0000, // ldw r1, r0, 0 ;;
            0x8008_8041_0000_0005, // addi r2, r1, 5 ;;
        ],
        T3,
        &[(1, 0, -4)],
    ),
    // Writes behind reads.
    (
        T1,
        &[
            0x8008_8041_0000_0000, // addi r2, r1, 0
            0x0814_0064_0000_0005, // mul r3, r4, r5 ;;
            0x8008_8024_0000_0007, // addi r1, r4, 7 ;;
            0x8008_8080_0000_0007, // addi r4, r0, 7 ;;
        ],
        T3,
        &[(0, 2, -1), (1, 3, -1), (2, 3, -1)],
    ),
    // A read and a write in one MultiOp, listed in either order.
    (
        T1,
        &[
            0x8088_8041_0000_0000, // addi r2, r1, 0
            0x0814_0020_0000_0000, // mul r1, r0, r0 ;; pause 2
            0x8894_0040_0000_0000, // mul r2, r0, r0
            0x0008_8062_0000_0000, // addi r3, r2, 0 ;; pause 2
        ],
        T3,
        &[(0, 1, -3), (0, 2, -1), (0, 3, 2), (3, 2, -3)],
    ),
    // Three writes of one register, of which the first lands second.
    (
        T1,
        &[
            0x8814_0022_0000_0003, // mul r1, r2, r3 ;;
            0x8048_8022_0000_0001, // addi r1, r2, 1 ;; pause 1
            0x8008_8022_0000_0002, // addi r1, r2, 2 ;;
        ],
        T2,
        &[(0, 2, 2), (1, 0, 0), (1, 2, 1)],
    ),
    // Each reads what the other writes.
    (
        T1,
        &[
            0x8000_8022_0000_0001, // add r1, r2, r1 ;;
            0x8000_8041_0000_0002, // add r2, r1, r2 ;;
        ],
        T3,
        &[(0, 1, 2)],
    ),
    // Four that write one register, of which three read it: the greatest delay counts.
    (
        T1,
        &[
            0x8008_8021_0000_0001, // addi r1, r1, 1 ;;
            0x8008_8021_0000_0001, // addi r1, r1, 1 ;;
            0x8048_8021_0000_0001, // addi r1, r1, 1
            0x1018_0020_0000_0000, // ldw r1, r0, 0 ;; pause 1
        ],
        T3,
        &[
            (0, 1, 2),
            (0, 2, 2),
            (0, 3, -2),
            (1, 2, 2),
            (1, 3, -2),
            (2, 3, -2),
        ],
    ),
    // Three that can trap, and write one register.
    (
        T1,
        &[
            0x9018_0020_0000_0000, // ldw r1, r0, 0 ;;
            0x8994_8022_0000_0003, // div r1, r2, r3 ;; pause 6
            0x9058_0022_0000_0000, // ldw r1, r2, 0 ;; pause 1
        ],
        T2,
        &[(0, 1, 0), (0, 2, 1), (1, 2, 10)],
    ),
    // Compares wired in one family on p1, and in the other on p2: no pair.
    (
        SHORT,
        &[
            0x9824_0021_0000_1280, // ceqi p1.on, p2.an, r1, 0 ;;
            0x9820_8022_0003_13A0, // cne p1.oc, p2.ac, r2, r3
            0x1824_0024_0001_0A60, // ceqi p1.on, p1.oc, r4, 1 ;;
            0x9824_0025_0002_0300, // ceqi p1.oc, p0.un, r5, 2 ;;
        ],
        T3,
        &[],
    ),
    // Compares wired on p1 in one family, but not on p2 and p3.
    (
        SHORT,
        &[
            0x9824_0021_0000_1200, // ceqi p1.on, p2.un, r1, 0 ;;
            0x9824_0022_0000_1340, // ceqi p1.oc, p2.on, r2, 0
            0x1824_0063_0000_0C40, // ceqi p3.an, p1.on, r3, 0 ;;
            0x9824_0062_0000_0140, // ceqi p3.uc, p0.on, r2, 0 ;;
        ],
        T3,
        &[(0, 1, 1), (2, 3, 1)],
    ),
    // ON and AN on one predicate, one cycle apart.
    (
        T1,
        &[
            0x9824_0021_0000_0200, // ceqi p1.on, p0.un, r1, 0 ;;
            0x9824_0022_0000_0400, // ceqi p1.an, p0.un, r2, 0 ;;
        ],
        T2,
        &[(0, 1, 1)],
    ),
    // A load behind a store that has landed.
    (
        T1,
        &[
            0x901A_8020_0000_0000, // stw r1, r0, 0 ;;
            0x9058_0040_0000_0000, // ldw r2, r0, 0 ;; pause 1
        ],
        T3,
        &[(0, 1, 2)],
    ),
    // A store behind a load: that both can trap decides.
    (
        T1,
        &[
            0x9018_0040_0000_0000, // ldw r2, r0, 0 ;;
            0x901B_8020_0000_0000, // stb r1, r0, 0 ;;
        ],
        T3,
        &[(0, 1, 0)],
    ),
    // Three stores, of which two issue together.
    (
        T3,
        &[
            0x901A_8020_0000_0000, // stw r1, r0, 0
            0x101B_0020_0000_0004, // sth r1, r0, 4 ;;
            0x905B_8001_0000_0008, // stb r0, r1, 8 ;; pause 1
        ],
        T2,
        &[(0, 1, 0), (0, 2, 0), (1, 2, 0)],
    ),
    // Loads beside a division and a remainder: all can trap.
    (
        T1,
        &[
            0x9018_0020_0000_0000, // ldw r1, r0, 0
            0x0814_8043_0000_0004, // div r2, r3, r4 ;;
            0x91D9_80A0_0000_0000, // ldb r5, r0, 0
            0x0815_00C3_0000_0004, // rem r6, r3, r4 ;; pause 7
        ],
        T3,
        &[
            (0, 1, 0),
            (0, 2, 0),
            (0, 3, 0),
            (1, 2, 0),
            (1, 3, 0),
            (2, 3, 0),
        ],
    ),
    // Two `outb`.
    (
        T1,
        &[
            0x901C_8001_0000_0000, // outb r1 ;;
            0x901C_8002_0000_0000, // outb r2 ;;
        ],
        T3,
        &[(0, 1, 0)],
    ),
    // Two `inb` into two registers, and one into the first register again.
    (
        T1,
        &[
            0x901C_0020_0000_0000, // inb r1 ;;
            0x901C_0040_0000_0000, // inb r2 ;;
            0x901C_0020_0000_0000, // inb r1 ;;
        ],
        T3,
        &[(0, 1, 0), (0, 2, 1), (1, 2, 0)],
    ),
    // `inb` beside what can trap: no pair of the two kinds.
    (
        T3,
        &[
            0x901C_0020_0000_0000, // inb r1
            0x101C_8002_0000_0000, // outb r2 ;;
            0x8BD4_8064_0000_0005, // div r3, r4, r5
            0x1018_00C0_0000_0000, // ldw r6, r0, 0
            0x101C_00E0_0000_0000, // inb r7 ;; pause 15
        ],
        T1,
        &[(0, 4, 0), (1, 2, 0), (1, 3, 0), (2, 3, 0)],
    ),
    // Guards read, one of them before it is set again.
    (
        T1,
        &[
            0x9824_0021_0000_1020, // ceqi p1.un, p2.uc, r1, 0 ;;
            0x8008_8440_0000_0001, // (p1) addi r2, r0, 1
            0x1824_0821_0001_0000, // (p2) ceqi p1.un, p0.un, r1, 1 ;;
            0x901C_8403_0000_0000, // (p1) outb r3 ;;
        ],
        T3,
        &[(0, 1, 2), (0, 2, 2), (0, 3, 2), (1, 2, -1), (2, 3, 2)],
    ),
    // A write under a predicate, then a read and a write of the same register under the opposite one: guards part no pair.
    (
        T1,
        &[
            0x9824_0021_0000_1020, // ceqi p1.un, p2.uc, r1, 0 ;;
            0x8008_8440_0000_0001, // (p1) addi r2, r0, 1 ;;
            0x8008_8862_0000_0005, // (p2) addi r3, r2, 5 ;;
            0x8008_8840_0000_0002, // (p2) addi r2, r0, 2 ;;
        ],
        T3,
        &[
            (0, 1, 2),
            (0, 2, 2),
            (0, 3, 2),
            (1, 2, 2),
            (1, 3, 1),
            (2, 3, -1),
        ],
    ),
    // r0 and p0 as source, destination and guard: no pair.
    (
        T2,
        &[
            0x8008_8000_0000_0001, // addi r0, r0, 1
            0x0814_0000_0000_0000, // mul r0, r0, r0
            0x1824_0000_0000_0020, // ceqi p0.un, p0.uc, r0, 0
            0x1018_0000_0000_0000, // ldw r0, r0, 0 ;;
            0x8040_8000_0000_0000, // add r0, r0, r0
            0x1824_0000_0001_0280, // ceqi p0.on, p0.an, r0, 1 ;; pause 1
            0xA06A_0000_0000_0000, // halt r0 ;; pause 1
        ],
        T3,
        &[],
    ),
    // A target and a predicate that a branch reads.
    (
        T1,
        &[
            0x8010_8020_0000_0007, // pbr b1, 7
            0x1824_0021_0000_0000, // ceqi p1.un, p0.un, r1, 0 ;;
            0xA028_8021_0000_0000, // brct b1, p1 ;;
        ],
        T3,
        &[(0, 2, 1), (1, 2, 2)],
    ),
    // Targets from a register and into one.
    (
        T1,
        &[
            0x8008_8020_0000_0007, // addi r1, r0, 7 ;;
            0x8011_0021_0000_0000, // mvb b1, r1 ;;
            0x8011_8041_0000_0000, // mvr r2, b1
            0x2029_0C41_0000_0000, // (p3) brcf b1, p2 ;;
        ],
        T3,
        &[(0, 1, 2), (1, 2, 1), (1, 3, 1)],
    ),
    // `brl` sets a target that was prepared and read before.
    (
        T2,
        &[
            0x8010_8020_0000_0000, // pbr b1, 0
            0x0010_8040_0000_0007, // pbr b2, 7 ;;
            0x8051_8022_0000_0000, // mvr r1, b2
            0x2029_8041_0000_0000, // brl b2, b1 ;; pause 1
        ],
        T3,
        &[(0, 3, 1), (1, 2, 1), (1, 3, -1), (2, 3, -2)],
    ),
    // `brl` that sets the target it reads.
    (
        T1,
        &[
            0x8011_0021_0000_0000, // mvb b1, r1 ;;
            0xA029_8021_0000_0000, // brl b1, b1 ;;
        ],
        T2,
        &[(0, 1, 1)],
    ),
    // The old value between a load and its landing: the order is 1, 0, 2.
    (
        T1,
        &[
            0x9018_0020_0000_0000, // ldw r1, r0, 0 ;;
            0x8008_8041_0000_0000, // addi r2, r1, 0 ;;
            0x8000_8061_0000_0002, // add r3, r1, r2 ;;
        ],
        T3,
        &[(0, 2, 5), (1, 0, -4), (1, 2, 2)],
    ),
    // A byte that is loaded over one that is still read.
    (
        T1,
        &[
            0x8008_8020_0000_0041, // addi r1, r0, 65 ;;
            0x9018_0020_0000_0000, // ldw r1, r0, 0 ;;
            0x8008_8041_0000_0000, // addi r2, r1, 0 ;;
            0x901C_8002_0000_0000, // outb r2 ;;
            0x901C_8001_0000_0000, // outb r1 ;;
            0xA02A_0000_0000_0000, // halt r0 ;;
        ],
        T3,
        &[
            (0, 1, -2),
            (0, 2, 2),
            (0, 4, 2),
            (1, 3, 0),
            (1, 4, 5),
            (2, 1, -4),
            (2, 3, 2),
            (3, 4, 0),
        ],
    ),
    // The longest delays and the shortest.
    (
        T1,
        &[
            0x9018_0020_0000_0000, // ldw r1, r0, 0 ;;
            0x8008_8041_0000_0005, // addi r2, r1, 5 ;;
            0x8000_8061_0000_0002, // add r3, r1, r2
            0x101A_8020_0000_0004, // stw r1, r0, 4 ;;
        ],
        LONG,
        &[(0, 2, 32), (0, 3, 32), (1, 0, -31), (1, 2, 32)],
    ),
];

/// A load and a product, what reads them, and a division whose register is read before it lands.
const ONE_BLOCK: &[u64] = &[
    0x9058_0020_0000_0000, // ldw r1, r0, 0
    0x0814_0043_0000_0004, // mul r2, r3, r4 ;; pause 1
    0x8008_8061_0000_0001, // addi r3, r1, 1 ;;
    0x901A_8040_0000_0004, // stw r2, r0, 4
    0x0814_8042_0000_0003, // div r2, r2, r3 ;;
    0x8148_80A2_0000_0000, // addi r5, r2, 0 ;; pause 5
    0xA02A_0001_0000_0000, // halt r1 ;;
];

/// The delays between those operations under three descriptions, of which the first is their own.
pub(crate) const LATENT: [Delayed; 3] = [
    (
        T1,
        ONE_BLOCK,
        T1,
        &[
            (0, 2, 2),
            (0, 3, 0),
            (0, 4, 0),
            (0, 6, 2),
            (1, 2, 0),
            (1, 3, 3),
            (1, 4, 3),
            (1, 5, 3),
            (2, 4, 1),
            (3, 4, 0),
            (5, 4, -7),
        ],
    ),
    (
        T1,
        ONE_BLOCK,
        T2,
        &[
            (0, 2, 3),
            (0, 3, 0),
            (0, 4, 0),
            (0, 6, 3),
            (1, 2, 0),
            (1, 3, 2),
            (1, 4, 2),
            (1, 5, 2),
            (2, 4, 1),
            (3, 4, 0),
            (5, 4, -11),
        ],
    ),
    (
        T1,
        ONE_BLOCK,
        T3,
        &[
            (0, 2, 5),
            (0, 3, 0),
            (0, 4, 0),
            (0, 6, 5),
            (1, 2, -1),
            (1, 3, 4),
            (1, 4, 4),
            (1, 5, 4),
            (2, 4, 2),
            (3, 4, 0),
            (5, 4, -15),
        ],
    ),
];

/// The delays under another description in the block that words are under their own.
fn delays_under(alloc: Global, own: &Numbers, words: &[u64], other: &Numbers) -> Option<Delays> {
    let block = good_block(alloc, own, words)?;
    delays(alloc, &block, &described(other)?).ok()
}

/// The same, in a table that had room and was of nothing before.
fn delays_in_room(alloc: Global, own: &Numbers, words: &[u64], other: &Numbers) -> Option<Delays> {
    let block = good_block(alloc, own, words)?;
    let mut d = Delays::with_room(alloc, block.count()).ok()?;
    delays_into(&block, &described(other)?, &mut d);
    Some(d)
}

/// Adds the pairs of an operation and those that it comes before.
fn add_pairs(d: &Delays, i: u16, pairs: &mut Vec<Pair>) -> Result<(), AllocError> {
    for j in 0..d.count() {
        if i < d.count() && j < d.count() {
            if let Some(delay) = d.get(i, j) {
                pairs.push((i, j, delay))?;
            }
        }
    }
    Ok(())
}

/// All pairs of a table, by the first operation and then by the second.
fn pairs(alloc: Global, d: &Delays) -> Result<Vec<Pair>, AllocError> {
    let mut pairs = Vec::new(alloc);
    for i in 0..d.count() {
        add_pairs(d, i, &mut pairs)?;
    }
    Ok(pairs)
}

fn are_pairs(alloc: Global, d: Option<Delays>, count: usize, expected: &[Pair]) -> bool {
    let Some(d) = d else {
        return false;
    };
    match pairs(alloc, &d) {
        Ok(found) => found.as_slice() == expected && d.count() as usize == count,
        Err(_) => false,
    }
}

fn has_these_pairs(alloc: Global, case: &Delayed) -> bool {
    let (own, words, other, expected) = *case;
    let d = delays_under(alloc, &own, words, &other);
    let again = delays_in_room(alloc, &own, words, &other);
    are_pairs(alloc, d, words.len(), expected) && are_pairs(alloc, again, words.len(), expected)
}

/// The block's own times decide the pairs, and the latencies of the description that is given the delays.
#[test]
fn pairs_and_delays(rt: HostRuntime) {
    for (row, case) in DELAYED.iter().enumerate() {
        assert!(rt; has_these_pairs(rt.alloc(), case), "row {row}");
    }
}

#[test]
fn delays_under_three_descriptions(rt: HostRuntime) {
    for (row, case) in LATENT.iter().enumerate() {
        assert!(rt; has_these_pairs(rt.alloc(), case), "row {row}");
    }
}
