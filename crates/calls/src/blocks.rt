// Blocks of words and the rules that they keep or break, and pages. The words were put together from the tables of the
// format, apart from the code.
ghost use Rattle.std.specs.Prelude.{◌≤◌, length};

use super::descriptions::{BARE, BUSY, Numbers, SHORT, T1, T2, T3, described};
use block_table::Table;
use latency_deps::{BlockFault, BlockRule, GoodBlock, GoodPage, analyse};
use operation::{AluKind, Op};
use std::alloc::Global;

/// Words with the rule that they break first, and its least operation.
type Refused = (Numbers, &'static [u64], BlockRule, u16);

/// Words that keep the rules, with the issue cycle and the latency of each operation, and the end.
type Accepted = (Numbers, &'static [u64], &'static [(u32, u8)], u32);

const BROKEN: [Refused; 39] = [
    // The word 0.
    (
        T1,
        &[
            0x8008_8020_0000_0041,
            0x0000_0000_0000_0000,
            0x0008_8020_0000_0041,
        ],
        BlockRule::Opcode,
        1,
    ),
    // An unreadable word behind a wrong unit.
    (
        T1,
        &[0x8808_8020_0000_0041, 0x0000_0000_0000_0000],
        BlockRule::Opcode,
        1,
    ),
    // `addi` on unit M.
    (T1, &[0x8808_8020_0000_0041], BlockRule::Unit, 0),
    // A wrong unit behind a missing head.
    (
        T1,
        &[0x0008_8020_0000_0041, 0xC82A_0000_0000_0000],
        BlockRule::Unit,
        1,
    ),
    // No head at first.
    (
        T1,
        &[0x0008_8020_0000_0041, 0xA02A_0000_0000_0000],
        BlockRule::Head,
        0,
    ),
    // A pause without a head.
    (
        T1,
        &[0x8008_8020_0000_0041, 0x27EA_0000_0000_0000],
        BlockRule::Head,
        1,
    ),
    // Three operations of three kinds on width 2.
    (
        T1,
        &[
            0x8008_8020_0000_0041,
            0x101C_8002_0000_0000,
            0x202A_0000_0000_0000,
        ],
        BlockRule::Width,
        2,
    ),
    // The width counts in one MultiOp.
    (
        T1,
        &[
            0x8008_8020_0000_0041,
            0x101C_8002_0000_0000,
            0x8088_8020_0000_0041,
            0x101C_8002_0000_0000,
            0x0814_0064_0000_0005,
            0xA02A_0000_0000_0000,
        ],
        BlockRule::Width,
        4,
    ),
    // The width before the units.
    (
        T1,
        &[
            0x8008_8020_0000_0001,
            0x0008_8040_0000_0001,
            0x0008_8060_0000_0001,
        ],
        BlockRule::Width,
        2,
    ),
    // Two of kind I.
    (
        T1,
        &[0x8008_8020_0000_0041, 0x0011_0021_0000_0000],
        BlockRule::Units,
        1,
    ),
    // Two of kind M.
    (
        T1,
        &[0x8814_0022_0000_0003, 0x0815_0022_0000_0003],
        BlockRule::Units,
        1,
    ),
    // Two of kind L.
    (
        T1,
        &[0x901C_0020_0000_0000, 0x101C_8001_0000_0000],
        BlockRule::Units,
        1,
    ),
    // Two of kind P.
    (
        T1,
        &[0x9824_0020_0000_0000, 0x1821_0040_0000_0000],
        BlockRule::Units,
        1,
    ),
    // Two of kind B.
    (
        T1,
        &[0xA02A_0000_0000_0000, 0x2028_0001_0000_0000],
        BlockRule::Units,
        1,
    ),
    // The units count in one MultiOp.
    (
        T2,
        &[
            0x8008_8020_0000_0041,
            0x0008_8040_0000_0041,
            0x8008_8060_0000_0001,
            0x101C_8001_0000_0000,
            0x0008_8080_0000_0001,
            0x0008_80A0_0000_0001,
        ],
        BlockRule::Units,
        5,
    ),
    // No unit of the kind.
    (
        BARE,
        &[0xA02A_0000_0000_0000, 0x901C_8001_0000_0000],
        BlockRule::Units,
        1,
    ),
    // Two products, the second issued while the first still keeps their unit busy.
    (
        BUSY,
        &[
            0x8008_8020_0000_0006,
            0x8814_0041_0000_0001,
            0x8894_0061_0000_0001,
            0xA02A_0003_0000_0000,
        ],
        BlockRule::Units,
        2,
    ),
    (
        BUSY,
        &[
            0x8008_8020_0000_0006,
            0x8854_0041_0000_0001,
            0x8894_0061_0000_0001,
            0xA02A_0003_0000_0000,
        ],
        BlockRule::Units,
        2,
    ),
    // A second branch.
    (
        T1,
        &[
            0xA02A_0000_0000_0000,
            0x8008_8020_0000_0001,
            0xA028_0001_0000_0000,
        ],
        BlockRule::SecondBranch,
        2,
    ),
    // A second branch before a wrong target.
    (
        T1,
        &[
            0x8010_8020_0000_0009,
            0xA02A_0000_0000_0000,
            0xA02A_0000_0000_0000,
        ],
        BlockRule::SecondBranch,
        2,
    ),
    // An address that is no entry.
    (
        T1,
        &[
            0x8010_8020_0000_0000,
            0x8010_8020_0000_0001,
            0xA02A_0000_0000_0000,
        ],
        BlockRule::Target,
        1,
    ),
    // A load that lands behind the end.
    (
        T1,
        &[0x8008_8020_0000_0001, 0x9018_0040_0000_0000],
        BlockRule::Drain,
        1,
    ),
    // A product that lands behind the end.
    (
        T1,
        &[0x8814_0022_0000_0003, 0xA02A_0000_0000_0000],
        BlockRule::Drain,
        0,
    ),
    // A target before a late landing.
    (
        T1,
        &[0x9018_0040_0000_0000, 0x8010_8020_0000_0009],
        BlockRule::Target,
        1,
    ),
    // A pause behind the branch.
    (T1, &[0xA06A_0000_0000_0000], BlockRule::BranchEnd, 0),
    // A branch that lands behind the end.
    (
        T2,
        &[0x8008_8020_0000_0001, 0xA02A_0000_0000_0000],
        BlockRule::BranchEnd,
        1,
    ),
    // A late landing before a branch off the end.
    (
        T1,
        &[0xA02A_0000_0000_0000, 0x9018_0040_0000_0000],
        BlockRule::Drain,
        1,
    ),
    // A compare behind the branch that reads it.
    (
        T2,
        &[
            0x8010_8020_0000_0000,
            0xA028_8021_0000_0000,
            0x9824_0020_0000_0000,
        ],
        BlockRule::BranchShadow,
        2,
    ),
    // The code of `halt` set with it.
    (
        T1,
        &[0x8008_8020_0000_0001, 0x202A_0001_0000_0000],
        BlockRule::BranchShadow,
        0,
    ),
    // The target set with the branch.
    (
        T1,
        &[0xA028_0002_0000_0000, 0x0011_0041_0000_0000],
        BlockRule::BranchShadow,
        1,
    ),
    // The branch's guard set with it.
    (
        T1,
        &[0x9824_0020_0000_1800, 0x202A_0C00_0000_0000],
        BlockRule::BranchShadow,
        0,
    ),
    // The branch's shadow before a landing.
    (
        T2,
        &[
            0x9860_0081_0002_2280,
            0x0008_8020_0000_0001,
            0x202A_0001_0000_0000,
        ],
        BlockRule::BranchShadow,
        1,
    ),
    // Two families on one predicate.
    (
        SHORT,
        &[
            0x9824_0020_0000_0200,
            0x1824_0020_0001_0400,
            0x1824_0020_0002_0200,
        ],
        BlockRule::Landing,
        1,
    ),
    // A product and a sum into one register.
    (
        T2,
        &[0x8814_0022_0000_0003, 0x8008_8020_0000_0001],
        BlockRule::Landing,
        1,
    ),
    // Two sums into one register under two guards, which don't count.
    (
        T2,
        &[0x8008_8420_0000_0001, 0x0008_8820_0000_0002],
        BlockRule::Landing,
        1,
    ),
    // One predicate, not wired.
    (
        SHORT,
        &[0x9824_0020_0000_1000, 0x1825_0060_0000_1040],
        BlockRule::Landing,
        1,
    ),
    // A target set twice.
    (
        T2,
        &[0x8010_8040_0000_0000, 0x0011_0041_0000_0000],
        BlockRule::Landing,
        1,
    ),
    // A compare at odds with itself.
    (T1, &[0x9820_0081_0002_2280], BlockRule::Landing, 0),
    // A compare that writes a predicate twice.
    (
        T1,
        &[0x8008_8020_0000_0001, 0x9824_0081_0002_2000],
        BlockRule::Landing,
        1,
    ),
];

/// Words without a serial order. The rule on that is told last.
const UNORDERED: [Refused; 16] = [
    // Two registers swapped in one MultiOp.
    (
        T2,
        &[
            0x8040_8022_0000_0000,
            0x0000_8041_0000_0000,
            0x202A_0000_0000_0000,
        ],
        BlockRule::Cycle,
        0,
    ),
    // A load that issues before an earlier listed store has landed.
    (
        T3,
        &[
            0x901A_8020_0000_0000,
            0x9058_0040_0000_0000,
            0xA0AA_0000_0000_0000,
        ],
        BlockRule::Cycle,
        0,
    ),
    // The same with a load from another address: addresses don't count.
    (
        T3,
        &[
            0x901A_8020_0000_0000,
            0x9058_0040_0000_0008,
            0xA0AA_0000_0000_0000,
        ],
        BlockRule::Cycle,
        0,
    ),
    // A load that issues with an earlier listed store.
    (
        T3,
        &[0x911A_8020_0000_0000, 0x1018_0040_0000_0000],
        BlockRule::Cycle,
        0,
    ),
    // An `outb` of what was there before the division that is listed first: both can trap.
    (
        T1,
        &[0x8814_8022_0000_0003, 0x919C_8001_0000_0000],
        BlockRule::Cycle,
        0,
    ),
    // A product of r1 into r1, and a sum into r1 that lands before it.
    (
        T1,
        &[0x8814_0021_0000_0002, 0x8048_8020_0000_0001],
        BlockRule::Cycle,
        0,
    ),
    // Two compares in one MultiOp, each guarded by what the other one sets.
    (
        SHORT,
        &[0x9824_0821_0000_0000, 0x1824_0441_0001_0000],
        BlockRule::Cycle,
        0,
    ),
    // A register and a target swapped in one MultiOp.
    (
        T3,
        &[0x8051_8021_0000_0000, 0x0011_0021_0000_0000],
        BlockRule::Cycle,
        0,
    ),
    // Three registers rotated in one MultiOp.
    (
        T3,
        &[
            0x8040_8022_0000_0000,
            0x0000_8043_0000_0000,
            0x0000_8061_0000_0000,
        ],
        BlockRule::Cycle,
        0,
    ),
    // Two `inb`: the second before a compare that sets its guard, this before the first, whose register it reads.
    (
        T3,
        &[
            0x901C_0020_0000_0000,
            0x905C_0440_0000_0000,
            0x1824_0021_0000_0000,
        ],
        BlockRule::Cycle,
        0,
    ),
    // A swap of 2 and 4, with 0 before it, and 1 and 3 beside it.
    (
        T2,
        &[
            0x8008_8060_0000_0001,
            0x0008_8080_0000_0002,
            0x8080_8022_0000_0003,
            0x1018_00A0_0000_0000,
            0x0000_8041_0000_0000,
        ],
        BlockRule::Cycle,
        2,
    ),
    // A swap of 1 and 3, with 4 behind it, and 0 and 2 beside it.
    (
        T2,
        &[
            0x901C_8006_0000_0000,
            0x8000_8022_0000_0000,
            0x101A_80A0_0000_0000,
            0x0000_8041_0000_0000,
            0x8000_8082_0000_0001,
        ],
        BlockRule::Cycle,
        1,
    ),
    // A swap of 1 and 2, of which 1 reads what was there before the load: so 0 is behind the swap.
    (
        T2,
        &[
            0x9018_0020_0000_0000,
            0x8040_8043_0000_0001,
            0x0000_8062_0000_0000,
        ],
        BlockRule::Cycle,
        0,
    ),
    // A swap of 2 and 3, one of 5 and 6 behind it, and 4 between them; 1 reads what was there before 0.
    (
        T3,
        &[
            0x8008_80E0_0000_0000,
            0x8814_0107_0000_0007,
            0x8040_8022_0000_0007,
            0x0000_8041_0000_0000,
            0x8040_8061_0000_0002,
            0x8040_8085_0000_0003,
            0x0000_80A4_0000_0000,
        ],
        BlockRule::Cycle,
        2,
    ),
    // A swap, and a write that lands with one of its two.
    (
        T3,
        &[
            0x8040_8022_0000_0000,
            0x0000_8041_0000_0000,
            0x0008_8020_0000_0001,
        ],
        BlockRule::Landing,
        2,
    ),
    // A swap, and a compare at odds with itself.
    (
        T2,
        &[
            0x8000_8022_0000_0000,
            0x0000_8041_0000_0000,
            0x1824_0081_0002_2280,
        ],
        BlockRule::Landing,
        2,
    ),
];

/// What is answered of some words under a description with these numbers, where the entries are 0 and 7.
pub(crate) fn answer(
    alloc: Global,
    numbers: &Numbers,
    words: &[u64],
) -> Option<Result<GoodBlock, BlockFault>> {
    if words.is_empty() || words.len() > 512 {
        return None;
    }
    let description = described(numbers)?;
    let table = Table::new(alloc, &[(0, 7), (7, 500)], 1, 0).ok()?;
    Some(analyse(alloc, words, &description, &table))
}

/// The block that the words are under that description.
pub(crate) fn good_block(alloc: Global, numbers: &Numbers, words: &[u64]) -> Option<GoodBlock> {
    answer(alloc, numbers, words)?.ok()
}

const KEPT: [Accepted; 8] = [
    // `addi`, `outb` and `halt`.
    (
        T1,
        &[
            0x8008_8020_0000_0041,
            0x901C_8001_0000_0000,
            0xA02A_0000_0000_0000,
        ],
        &[(0, 1), (1, 1), (2, 1)],
        3,
    ),
    // Three compares wired on p1 that land together.
    (
        SHORT,
        &[
            0x9824_0020_0000_0200,
            0x1824_0020_0001_0200,
            0x1824_0020_0002_0200,
            0x8008_8420_0000_0041,
            0x901C_8001_0000_0000,
            0xA02A_0000_0000_0000,
        ],
        &[(0, 1), (0, 1), (0, 1), (1, 1), (2, 1), (3, 1)],
        4,
    ),
    // A `brl` that reads the target prepared before it, and sets another.
    (
        T2,
        &[
            0x8010_8020_0000_0000,
            0x0008_8040_0000_0003,
            0xA069_8061_0000_0000,
            0x101A_8040_0000_0004,
        ],
        &[(0, 1), (0, 1), (1, 2), (1, 1)],
        3,
    ),
    // Two stores that land together, and compares with both destinations on p0 and wired on p4.
    (
        T3,
        &[
            0x88D4_0022_0000_0003,
            0x0814_0082_0000_0003,
            0x101A_8020_0000_0000,
            0x101A_8020_0000_0000,
            0x9864_0001_0001_0020,
            0x1824_0081_0001_2260,
        ],
        &[(0, 4), (0, 4), (0, 2), (0, 2), (4, 2), (4, 2)],
        6,
    ),
    // `addi r1, r0, 6`, `mul r2, r1, r1`, `mul r3, r1, r1` and `halt r3`, the products one to three cycles apart.
    (
        T1,
        &[
            0x8008_8020_0000_0006,
            0x8814_0041_0000_0001,
            0x8894_0061_0000_0001,
            0xA02A_0003_0000_0000,
        ],
        &[(0, 1), (1, 3), (2, 3), (5, 1)],
        6,
    ),
    (
        T1,
        &[
            0x8008_8020_0000_0006,
            0x8854_0041_0000_0001,
            0x8894_0061_0000_0001,
            0xA02A_0003_0000_0000,
        ],
        &[(0, 1), (1, 3), (3, 3), (6, 1)],
        7,
    ),
    (
        T1,
        &[
            0x8008_8020_0000_0006,
            0x8894_0041_0000_0001,
            0x8894_0061_0000_0001,
            0xA02A_0003_0000_0000,
        ],
        &[(0, 1), (1, 3), (4, 3), (7, 1)],
        8,
    ),
    (
        BUSY,
        &[
            0x8008_8020_0000_0006,
            0x8894_0041_0000_0001,
            0x8894_0061_0000_0001,
            0xA02A_0003_0000_0000,
        ],
        &[(0, 1), (1, 3), (4, 3), (7, 1)],
        8,
    ),
];

/// Whether a rule is the first that words break, and an operation is the least one that does.
fn break_first(alloc: Global, numbers: &Numbers, words: &[u64], rule: BlockRule, k: u16) -> bool {
    match answer(alloc, numbers, words) {
        Some(Err(fault)) => fault == BlockFault::Broken(rule, k),
        _ => false,
    }
}

fn is_refused(alloc: Global, case: &Refused) -> bool {
    let (numbers, words, rule, k) = *case;
    break_first(alloc, &numbers, words, rule, k)
}

#[test]
fn broken_rules(rt: HostRuntime) {
    for (row, case) in BROKEN.iter().enumerate() {
        assert!(rt; is_refused(rt.alloc(), case), "row {row}");
    }
}

#[test]
fn words_without_an_order(rt: HostRuntime) {
    for (row, case) in UNORDERED.iter().enumerate() {
        assert!(rt; is_refused(rt.alloc(), case), "row {row}");
    }
}

/// Compares the word, the issue cycle and the latency of an operation.
fn has_operation(block: &GoodBlock, i: u16, word: u64, time: (u32, u8)) -> bool {
    if i >= block.count() {
        return false;
    }
    let timed = block.timed(i);
    block.word(i) == word
        && (block.at(i), block.latency(i)) == time
        && (timed.at, timed.latency) == time
}

fn has_operations(block: &GoodBlock, words: &[u64], times: &[(u32, u8)]) -> bool {
    for (i, (word, time)) in (0..512).zip(words.iter().zip(times)) {
        if !has_operation(block, i, *word, *time) {
            return false;
        }
    }
    block.count() as usize == words.len() && times.len() == words.len()
}

fn is_accepted(alloc: Global, case: &Accepted) -> bool {
    let (numbers, words, times, end) = *case;
    let Some(block) = good_block(alloc, &numbers, words) else {
        return false;
    };
    has_operations(&block, words, times) && block.end() == end && block.op(0).guard == 0
}

#[test]
fn kept_rules(rt: HostRuntime) {
    for (row, case) in KEPT.iter().enumerate() {
        assert!(rt; is_accepted(rt.alloc(), case), "row {row}");
    }
}

fn is_operation(block: &GoodBlock, i: u16, op: Op) -> bool {
    i < block.count() && block.op(i).op == op
}

/// 511 times `addi r1, r1, 1`, each in a MultiOp of its own, and then `halt r1`.
#[test]
fn the_longest_block(rt: HostRuntime) {
    let mut words = [0x8008_8021_0000_0001; 512];
    words[511] = 0xA02A_0001_0000_0000;
    let block = good_block(rt.alloc(), &T1, &words).expect(&rt, "no rule is broken");
    assert!(rt; (block.count(), block.end()) == (512, 512));
    assert!(rt; is_operation(&block, 0, Op::AluImm(AluKind::Add, 1, 1, 1)));
    assert!(rt; is_operation(&block, 511, Op::Halt(1)));
    assert!(rt; break_first(rt.alloc(), &T2, &words, BlockRule::BranchEnd, 511));
}

/// The page without a block.
#[test]
fn the_empty_page(rt: HostRuntime) {
    let alloc = rt.alloc();
    let page = GoodPage::new(alloc, &[0; 512], Vec::new(alloc)).expect(&rt, "there is memory");
    assert!(rt; page.words().len() == 512);
    assert!(rt; page.blocks() == 0);
}
