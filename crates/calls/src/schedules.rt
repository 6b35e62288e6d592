// List schedules of blocks under other generations. Cycles, orders and ends were worked out by hand from the rules.
ghost use Rattle.std.specs.Prelude.{◌≡◌, ◌<◌, length, IsTrue};
ghost use Rattle.std.specs.List.{list_all, range_with_len};
ghost use Rattle.list_sched.specs.Given.{problem_of};
ghost use Rattle.list_sched.specs.Schedule.{IsProblem};
ghost use Rattle.calls.specs.Problems.{is_branch as is_branch_in, is_fit as is_fit_pair, are_fit as are_fit_pairs, have_units as have_units_of};

use super::blocks::good_block;
use super::descriptions::{BUSY, LONG, Numbers, T1, T2, T3, described};
use latency_deps::{GoodBlock, delays};
use list_sched::{Planned, Planner, schedule};
use machine_desc::Generation;
use operation::{LatKind, UnitKind, lat_kind, unit};
use serial_order::{Delays, order};
use std::alloc::Global;

/// Words and the description that they are made for, another description, and under that the cycles, the order of placing and
/// the end.
type Scheduled = (
    Numbers,
    &'static [u64],
    Numbers,
    &'static [u32],
    &'static [u16],
    u32,
);

/// `addi r1, r0, 65`, `outb r1` and `halt r0`, each in a MultiOp of its own.
const SHORT_BLOCK: [u64; 3] = [
    0x8008_8020_0000_0041,
    0x901C_8001_0000_0000,
    0xA02A_0000_0000_0000,
];

/// `addi r1, r0, 6`, `mul r2, r1, r1`, `mul r3, r1, r1` with a pause of 2, and `halt r3`.
const PRODUCTS: [u64; 4] = [
    0x8008_8020_0000_0006,
    0x8814_0041_0000_0001,
    0x8894_0061_0000_0001,
    0xA02A_0003_0000_0000,
];

/// `addi` of r1, r2 and r3 from r0, and `halt r0`.
const SUMS: [u64; 4] = [
    0x8008_8020_0000_0001,
    0x8008_8040_0000_0002,
    0x8008_8060_0000_0003,
    0xA02A_0000_0000_0000,
];

const SCHEDULED: [Scheduled; 10] = [
    (T1, &SHORT_BLOCK, T1, &[0, 1, 1], &[0, 1, 2], 2),
    // `halt` takes two cycles, and so goes with the first.
    (T1, &SHORT_BLOCK, T2, &[0, 1, 0], &[0, 1, 2], 2),
    // One operation a cycle, each lands 32 cycles later.
    (
        T1,
        &[
            0x8008_8020_0000_0040,
            0x8008_8041_0000_0001,
            0x901C_8002_0000_0000,
            0xA02A_0000_0000_0000,
        ],
        LONG,
        &[0, 32, 64, 65],
        &[0, 1, 2, 3],
        97,
    ),
    // One unit makes a product in each cycle, or stays busy for three. `halt` reads the second product, which goes first.
    (T1, &PRODUCTS, T1, &[0, 2, 1, 4], &[0, 2, 1, 3], 5),
    (T1, &PRODUCTS, BUSY, &[0, 4, 1, 6], &[0, 2, 1, 3], 7),
    // One unit of kind I, then two of them: equal heights, so the least number goes first.
    (T1, &SUMS, T1, &[0, 1, 2, 2], &[0, 1, 2, 3], 3),
    (T1, &SUMS, T2, &[0, 0, 1, 0], &[0, 1, 2, 3], 2),
    // What `outb` waits for goes before an operation of a lower number; then the width is full and `halt` waits.
    (
        T1,
        &[
            0x8008_8020_0000_0001,
            0x8008_8040_0000_0002,
            0x901C_8002_0000_0000,
            0xA02A_0000_0000_0000,
        ],
        T1,
        &[1, 0, 1, 2],
        &[1, 0, 2, 3],
        3,
    ),
    // `addi` reads the old r1, in which `ldw` lands behind it: it goes first, and both may issue together.
    (
        T1,
        &[
            0x9018_0020_0000_0000,
            0x8008_8041_0000_0000,
            0x901C_8001_0000_0000,
            0x202A_0000_0000_0000,
        ],
        T1,
        &[0, 0, 2, 2],
        &[1, 0, 2, 3],
        3,
    ),
    (
        T1,
        &[
            0x9018_0020_0000_0000,
            0x8008_8041_0000_0000,
            0x901C_8001_0000_0000,
            0x202A_0000_0000_0000,
        ],
        T3,
        &[0, 0, 5, 4],
        &[1, 0, 2, 3],
        7,
    ),
];

fn is_branch(kinds: &[(UnitKind, LatKind)], i: u16) -> bool
    requires { i < length kinds.now }
    ensures { result ≡ is_branch_in kinds.now i }
{
    matches!(kinds[i as usize].0, UnitKind::B)
}

fn is_fit(d: &Delays, kinds: &[(UnitKind, LatKind)], i: u16, j: u16) -> bool
    requires count { length kinds.now ≡ d.now.count }
    requires first { i < d.now.count }
    requires second { j < d.now.count }
    ensures { result ≡ is_fit_pair d.now kinds.now i j }
{
    let delay = d.get(i, j);
    let is_short = match delay {
        Some(delay) => delay <= 32,
        None => true,
    };
    is_short && (!is_branch(kinds, i) || delay.is_none() && (i == j || !is_branch(kinds, j)))
}

fn is_fit_row(d: &Delays, kinds: &[(UnitKind, LatKind)], i: u16) -> bool
    requires count { length kinds.now ≡ d.now.count }
    requires first { i < d.now.count }
    ensures { result ≡ list_all (is_fit_pair d.now kinds.now i) (range_with_len 0 d.now.count) }
{
    (0..d.count()).all(|j| is_fit(d, kinds, i, j))
}

/// Whether delays are at most 32, and at most one operation is a branch, which is before no other.
fn are_fit(d: &Delays, kinds: &[(UnitKind, LatKind)]) -> bool
    requires { length kinds.now ≡ d.now.count }
    ensures { result ≡ are_fit_pairs d.now kinds.now }
{
    (0..d.count()).all(|i| is_fit_row(d, kinds, i))
}

fn have_units<G: Generation>(kinds: &[(UnitKind, LatKind)], g: &G) -> bool
    ensures { result ≡ have_units_of kinds.now (G.description g.now) }
{
    kinds.iter().all(|k| g.units(k.0) > 0)
}

/// Whether the operations can be scheduled.
fn is_problem<G: Generation>(
    alloc: Global,
    d: &Delays,
    kinds: &[(UnitKind, LatKind)],
    g: &G,
) -> bool
    ensures count { IsTrue result → length kinds.now ≡ d.now.count }
    ensures problem { IsTrue result → IsProblem (problem_of d.now kinds.now (G.description g.now)) }
{
    if kinds.is_empty() || kinds.len() != d.count() as usize {
        return false;
    }
    if !are_fit(d, kinds) || !have_units(kinds, g) {
        return false;
    }
    order(alloc, d).is_ok()
}

/// The schedule, where the operations can be scheduled.
fn scheduled<G: Generation>(
    alloc: Global,
    d: &Delays,
    kinds: &[(UnitKind, LatKind)],
    g: &G,
) -> Option<Planned> {
    if !is_problem(alloc, d, kinds, g) {
        return None;
    }
    schedule(alloc, d, kinds, g).ok()
}

/// Makes a planner's next schedule, where the operations can be scheduled.
fn is_planned<G: Generation>(
    alloc: Global,
    planner: &mut Planner,
    d: &Delays,
    kinds: &[(UnitKind, LatKind)],
    g: &G,
) -> bool {
    if !is_problem(alloc, d, kinds, g) {
        return false;
    }
    planner.plan(d, kinds, g);
    true
}

/// The kinds of a block's operations.
fn kinds_of(alloc: Global, block: &GoodBlock) -> Option<Vec<(UnitKind, LatKind)>> {
    let mut kinds = Vec::new(alloc);
    for i in 0..block.count() {
        let op = block.op(i).op;
        kinds.push((unit(&op), lat_kind(&op))).ok()?;
    }
    Some(kinds)
}

/// The schedule of a block's words under another description.
fn scheduled_under(
    alloc: Global,
    own: &Numbers,
    words: &[u64],
    other: &Numbers,
) -> Option<Planned> {
    let block = good_block(alloc, own, words)?;
    let g = described(other)?;
    let d = delays(alloc, &block, &g).ok()?;
    scheduled(alloc, &d, &kinds_of(alloc, &block)?, &g)
}

fn is_scheduled(alloc: Global, case: &Scheduled) -> bool {
    let (own, words, other, cycle, order, end) = *case;
    match scheduled_under(alloc, &own, words, &other) {
        Some(found) => {
            found.cycle.as_slice() == cycle && found.order.as_slice() == order && found.end == end
        }
        None => false,
    }
}

#[test]
fn blocks_are_scheduled(rt: HostRuntime) {
    for (row, case) in SCHEDULED.iter().enumerate() {
        assert!(rt; is_scheduled(rt.alloc(), case), "row {row}");
    }
}

/// Makes a planner's next schedule that of a block's words under another description.
fn plan_under(
    alloc: Global,
    planner: &mut Planner,
    own: &Numbers,
    words: &[u64],
    other: &Numbers,
) -> Option<bool> {
    let block = good_block(alloc, own, words)?;
    let g = described(other)?;
    let d = delays(alloc, &block, &g).ok()?;
    Some(is_planned(alloc, planner, &d, &kinds_of(alloc, &block)?, &g))
}

fn has_planned(alloc: Global, planner: &mut Planner, case: &Scheduled) -> bool {
    let (own, words, other, cycle, order, end) = *case;
    plan_under(alloc, planner, &own, words, &other) == Some(true)
        && planner.cycles() == cycle
        && planner.order() == order
        && planner.end() == end
}

/// Nothing of a schedule is left in the next one.
#[test]
fn one_planner_makes_all_schedules(rt: HostRuntime) {
    let mut planner = Planner::new(rt.alloc()).expect(&rt, "there is memory");
    assert!(rt; planner.order().is_empty() && planner.end() == 0);
    for (row, case) in SCHEDULED.iter().enumerate() {
        assert!(rt; has_planned(rt.alloc(), &mut planner, case), "row {row}");
    }
}

/// 511 times `addi r1, r1, 1`, which lands two cycles later, and then `halt r1`, which takes three.
#[test]
fn the_longest_schedule(rt: HostRuntime) {
    let mut words = [0x8008_8021_0000_0001; 512];
    words[511] = 0xA02A_0001_0000_0000;
    let found = scheduled_under(rt.alloc(), &T1, &words, &T3).expect(&rt, "a schedule");
    assert!(rt; found.end == 1025);
    assert!(rt; found.cycle.iter().zip(0..512).all(|(c, k)| *c == 2 * k));
}
