// Descriptions of machines: those that the tests use, the numbers of one by kind, which numbers make one, and which are
// the same.
use machine_desc::{Chosen, Fixed, Generation, Mdes, longest_busy, same};
use operation::{LatKind, UnitKind};
use std::process::Abort;

/// A width, five unit counts, nine latencies and nine busy times.
pub(crate) type Numbers = (u8, [u8; 5], [u8; 9], [u8; 9]);

/// Each unit is free again in the next cycle, or each operation lands in it.
const ONES: [u8; 9] = [1, 1, 1, 1, 1, 1, 1, 1, 1];

const T1_LATENCIES: [u8; 9] = [1, 3, 8, 2, 1, 1, 1, 1, 1];

pub(crate) const T1: Numbers = (2, [1, 1, 1, 1, 1], T1_LATENCIES, ONES);

pub(crate) const T2: Numbers = (4, [2, 1, 1, 1, 1], [1, 2, 12, 3, 1, 1, 1, 1, 2], ONES);

pub(crate) const T3: Numbers = (8, [4, 2, 2, 2, 1], [2, 4, 16, 5, 2, 2, 2, 1, 3], ONES);

/// T1 but for the width.
pub(crate) const WIDER: Numbers = (3, [1, 1, 1, 1, 1], T1_LATENCIES, ONES);

/// T1 without a unit of kind L.
pub(crate) const BARE: Numbers = (2, [1, 1, 0, 1, 1], T1_LATENCIES, ONES);

/// T1, where a product keeps its unit busy for three cycles.
pub(crate) const BUSY: Numbers = (
    2,
    [1, 1, 1, 1, 1],
    T1_LATENCIES,
    [1, 3, 1, 1, 1, 1, 1, 1, 1],
);

/// All latencies are 1.
pub(crate) const SHORT: Numbers = (4, [1, 1, 1, 3, 1], ONES, ONES);

/// All latencies are 32.
pub(crate) const LONG: Numbers = (
    1,
    [1, 1, 1, 1, 1],
    [32, 32, 32, 32, 32, 32, 32, 32, 32],
    ONES,
);

/// The description with these numbers, where they are in range.
pub(crate) fn described(numbers: &Numbers) -> Option<Mdes> {
    let (width, units, latencies, busy_times) = *numbers;
    Mdes::with_busy(width, units, latencies, busy_times)
}

const UNITS: [u8; 5] = [1, 2, 3, 4, 0];

const LATENCIES: [u8; 9] = [1, 3, 8, 2, 4, 5, 6, 7, 32];

const BUSY_TIMES: [u8; 9] = [1, 2, 8, 1, 4, 2, 3, 1, 31];

/// A unit kind, and how many units of it there are.
const UNIT_COUNTS: [(UnitKind, u8); 5] = [
    (UnitKind::I, 1),
    (UnitKind::M, 2),
    (UnitKind::L, 3),
    (UnitKind::P, 4),
    (UnitKind::B, 0),
];

/// A latency kind, its latency and its busy time.
const TIMES: [(LatKind, u8, u8); 9] = [
    (LatKind::Alu, 1, 1),
    (LatKind::Mul, 3, 2),
    (LatKind::Div, 8, 8),
    (LatKind::Load, 2, 1),
    (LatKind::Store, 4, 4),
    (LatKind::Io, 5, 2),
    (LatKind::Cmp, 6, 3),
    (LatKind::Pbr, 7, 1),
    (LatKind::Branch, 32, 31),
];

/// Compares the numbers of a generation of width 16 with the units and the latencies of the tables, through the bound.
fn has_numbers<G: Generation>(rt: &impl Abort, g: &G) {
    assert!(rt; g.width() == 16);
    for (row, (kind, count)) in UNIT_COUNTS.iter().enumerate() {
        assert!(rt; g.units(*kind) == *count, "row {row}");
    }
    for (row, (kind, latency, _)) in TIMES.iter().enumerate() {
        assert!(rt; g.latency(*kind) == *latency, "row {row}");
    }
}

#[test]
fn numbers_stand_by_kind(rt: HostRuntime) {
    let pipelined = Mdes::new(16, UNITS, LATENCIES).expect(&rt, "in range");
    let busy = described(&(16, UNITS, LATENCIES, BUSY_TIMES)).expect(&rt, "in range");
    has_numbers(&rt, &pipelined);
    has_numbers(&rt, &busy);
    for (row, (kind, _, cycles)) in TIMES.iter().enumerate() {
        assert!(rt; busy.busy(*kind) == *cycles, "row {row}");
        assert!(rt; pipelined.busy(*kind) == 1, "row {row}");
    }
    assert!(rt; pipelined.is_pipelined());
    assert!(rt; !busy.is_pipelined());
}

/// Numbers, and whether they make a description.
const RANGES: [(Numbers, bool); 10] = [
    ((0, UNITS, LATENCIES, ONES), false),
    ((17, UNITS, LATENCIES, ONES), false),
    ((1, [8, 8, 8, 8, 8], LATENCIES, ONES), true),
    ((1, [1, 1, 1, 1, 9], LATENCIES, ONES), false),
    ((1, UNITS, [1, 1, 1, 1, 1, 1, 1, 1, 0], ONES), false),
    ((1, UNITS, [33, 1, 1, 1, 1, 1, 1, 1, 1], ONES), false),
    ((17, UNITS, LATENCIES, BUSY_TIMES), false),
    ((1, UNITS, LATENCIES, [0, 2, 8, 1, 4, 2, 3, 1, 31]), false),
    ((1, UNITS, LATENCIES, [2, 2, 8, 1, 4, 2, 3, 1, 31]), false),
    ((1, UNITS, LATENCIES, [1, 2, 8, 1, 4, 2, 3, 1, 33]), false),
];

/// Where all busy times are 1, they make the same description as no busy times.
fn is_described(numbers: &Numbers, is_description: bool) -> bool {
    let (width, units, latencies, busy_times) = *numbers;
    let found = described(numbers);
    found.is_some() == is_description
        && (busy_times != ONES || Mdes::new(width, units, latencies) == found)
}

#[test]
fn numbers_are_in_range(rt: HostRuntime) {
    for (row, (numbers, is_description)) in RANGES.iter().enumerate() {
        assert!(rt; is_described(numbers, *is_description), "row {row}");
    }
}

/// Numbers, and whether they are those of width 2, `UNITS`, `LATENCIES` and `ONES`.
const SAME: [(Numbers, bool); 5] = [
    ((2, UNITS, LATENCIES, ONES), true),
    ((3, UNITS, LATENCIES, ONES), false),
    ((2, [1, 2, 3, 3, 0], LATENCIES, ONES), false),
    ((2, UNITS, [1, 3, 8, 2, 4, 5, 6, 7, 31], ONES), false),
    ((2, UNITS, LATENCIES, [1, 1, 1, 1, 1, 1, 1, 1, 2]), false),
];

#[test]
fn descriptions_are_the_same(rt: HostRuntime) {
    let one = Mdes::new(2, UNITS, LATENCIES).expect(&rt, "in range");
    assert!(rt; same(&one, &one));
    for (row, (numbers, is_same)) in SAME.iter().enumerate() {
        let other = described(numbers).expect(&rt, "in range");
        assert!(rt; same(&one, &other) == *is_same, "row {row}");
    }
}

/// Whether a generation has these numbers, asked either way round.
fn is_generation<G: Generation>(g: &G, numbers: &Numbers) -> bool {
    match described(numbers) {
        Some(m) => same(g, &m) && same(&m, g) && same(&Chosen::Given(m), g),
        None => false,
    }
}

/// Whether a generation has its numbers as constants.
fn has_constants<F: Fixed>(_: &F, numbers: &Numbers) -> bool {
    (F::WIDTH, F::UNITS, F::LATENCY) == (numbers.0, numbers.1, numbers.2)
}

#[test]
fn built_in_generations(rt: HostRuntime) {
    let (t1, t2, t3) = (machine_desc::T1, machine_desc::T2, machine_desc::T3);
    assert!(rt; is_generation(&t1, &T1) && is_generation(&Chosen::T1(t1), &T1));
    assert!(rt; is_generation(&t2, &T2) && is_generation(&Chosen::T2(t2), &T2));
    assert!(rt; is_generation(&t3, &T3) && is_generation(&Chosen::T3(t3), &T3));
    assert!(rt; has_constants(&t1, &T1) && has_constants(&t2, &T2) && has_constants(&t3, &T3));
    assert!(rt; !same(&t1, &t2) && !same(&t2, &t3) && !same(&Chosen::T1(t1), &Chosen::T3(t3)));
}

/// A description, and the longest of its busy times.
const LONGEST: [(Numbers, u8); 4] = [
    (T1, 1),
    (BUSY, 3),
    ((2, UNITS, LATENCIES, BUSY_TIMES), 31),
    ((2, UNITS, LATENCIES, [1, 2, 8, 1, 4, 2, 3, 1, 1]), 8),
];

fn is_longest(numbers: &Numbers, longest: u8) -> bool {
    match described(numbers) {
        Some(m) => longest_busy(&m) == longest,
        None => false,
    }
}

#[test]
fn longest_busy_times(rt: HostRuntime) {
    for (row, (numbers, longest)) in LONGEST.iter().enumerate() {
        assert!(rt; is_longest(numbers, *longest), "row {row}");
    }
}
