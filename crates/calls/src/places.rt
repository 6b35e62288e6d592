// What operations read and write, and their kinds. The expected answers were worked out apart from the code.
ghost use Rattle.std.specs.Prelude.{◌≡◌};
ghost use Rattle.operation.specs.Ranges.{is_register as is_register_number, is_target as is_target_number, is_stored as is_stored_size, is_op_in_range};

use operation::places::{destinations, sources};
use operation::{
    Action, AluKind, Dest, Family, Guarded, Op, Place, Size, Test, can_trap, is_branch,
    is_constant, is_inb, lat_kind, reads, unit, wired, writes,
};
use trap_order::ordered;

fn is_register(n: u8) -> bool
    ensures { result ≡ is_register_number n }
{
    n <= 31
}

fn is_target(n: u8) -> bool
    ensures { result ≡ is_target_number n }
{
    n <= 7
}

fn is_stored(size: Size) -> bool
    ensures { result ≡ is_stored_size size }
{
    matches!(size, Size::Word | Size::Half | Size::Byte)
}

/// Whether the numbers of an operation are those of registers, predicates and targets.
fn is_in_range(op: &Op) -> bool
    ensures { result ≡ is_op_in_range op.now }
{
    match *op {
        Op::Alu(_, d, s, t) | Op::Mul(d, s, t) | Op::Div(d, s, t) | Op::Rem(d, s, t) => {
            is_register(d) && is_register(s) && is_register(t)
        }
        Op::AluImm(_, d, s, _) | Op::Load(_, d, s, _) => is_register(d) && is_register(s),
        Op::Store(size, d, s, _) => is_stored(size) && is_register(d) && is_register(s),
        Op::Inb(n) | Op::Outb(n) | Op::Halt(n) => is_register(n),
        Op::Pbr(n, _) | Op::Bru(n) => is_target(n),
        Op::Mvb(b, r) | Op::Brct(b, r) | Op::Brcf(b, r) => is_target(b) && is_register(r),
        Op::Mvr(r, b) => is_register(r) && is_target(b),
        Op::Brl(d, s) => is_target(d) && is_target(s),
        Op::Cmp(_, a, b, s, t) => {
            is_register(a.p) && is_register(b.p) && is_register(s) && is_register(t)
        }
        Op::CmpImm(_, a, b, s, _) => is_register(a.p) && is_register(b.p) && is_register(s),
    }
}

/// An operation under a guard, where all numbers are in range.
pub(crate) fn guarded(guard: u8, op: Op) -> Option<Guarded> {
    if is_register(guard) && is_in_range(&op) {
        Some(Guarded { guard, op })
    } else {
        None
    }
}

const ON_1: Dest = Dest {
    p: 1,
    action: Action::On,
};

const ON_0: Dest = Dest {
    p: 0,
    action: Action::On,
};

const UN_0: Dest = Dest {
    p: 0,
    action: Action::Un,
};

const UN_1: Dest = Dest {
    p: 1,
    action: Action::Un,
};

const UN_9: Dest = Dest {
    p: 9,
    action: Action::Un,
};

const ADD: Op = Op::Alu(AluKind::Add, 3, 1, 2);

const LOAD: Op = Op::Load(Size::Word, 4, 2, 0);

const STORE: Op = Op::Store(Size::Word, 4, 2, 0);

const COMPARE: Op = Op::CmpImm(Test::Ceq, ON_1, UN_0, 9, 0);

/// A guard and an operation, a place, and whether the operation reads the place and whether it writes it.
type ReadAndWritten = (u8, Op, Place, bool, bool);

const READ_AND_WRITTEN: [ReadAndWritten; 25] = [
    (5, ADD, Place::General(1), true, false),
    (5, ADD, Place::General(2), true, false),
    (5, ADD, Place::General(3), false, true),
    (5, ADD, Place::Predicate(5), true, false),
    (5, ADD, Place::Predicate(0), false, false),
    (0, ADD, Place::Predicate(0), false, false),
    (
        5,
        Op::Alu(AluKind::Add, 0, 0, 0),
        Place::General(0),
        false,
        false,
    ),
    (5, LOAD, Place::General(2), true, false),
    (5, LOAD, Place::General(4), false, true),
    (5, LOAD, Place::Memory, true, false),
    (5, STORE, Place::General(2), true, false),
    (5, STORE, Place::General(4), true, false),
    (5, STORE, Place::Memory, false, true),
    (5, COMPARE, Place::General(9), true, false),
    (5, COMPARE, Place::Predicate(1), false, true),
    (5, COMPARE, Place::Predicate(0), false, false),
    (5, Op::Brct(3, 20), Place::Predicate(20), true, false),
    (5, Op::Brct(3, 20), Place::Target(3), true, false),
    (5, Op::Brl(7, 3), Place::Target(3), true, false),
    (5, Op::Brl(7, 3), Place::Target(7), false, true),
    (5, Op::Mvr(4, 3), Place::Target(3), true, false),
    (5, Op::Mvb(3, 4), Place::Target(3), false, true),
    (5, Op::Inb(4), Place::General(4), false, true),
    (5, Op::Outb(4), Place::General(4), true, false),
    (5, Op::Halt(4), Place::General(4), true, false),
];

fn is_read_and_written(case: &ReadAndWritten) -> bool {
    let (guard, op, place, read, written) = *case;
    let Some(guarded) = guarded(guard, op) else {
        return false;
    };
    reads(&guarded, place) == read && writes(&op, place) == written
}

#[test]
fn places_read_and_written(rt: HostRuntime) {
    for (row, case) in READ_AND_WRITTEN.iter().enumerate() {
        assert!(rt; is_read_and_written(case), "row {row}");
    }
}

/// Whether a place is a constant.
const CONSTANTS: [(Place, bool); 4] = [
    (Place::General(0), true),
    (Place::Predicate(0), true),
    (Place::Target(0), false),
    (Place::Memory, false),
];

#[test]
fn constants(rt: HostRuntime) {
    for (row, (place, constant)) in CONSTANTS.iter().enumerate() {
        assert!(rt; is_constant(*place) == *constant, "row {row}");
    }
}

/// `r[s]`, `r[t]`, `b[s]`, `p[d]`, and whether it reads the memory.
type Operands = (Option<u8>, Option<u8>, Option<u8>, Option<u8>, bool);

const NOTHING: Operands = (None, None, None, None, false);

/// `r[0]` alone.
const R0: Operands = (Some(0), None, None, None, false);

/// `r[1]` alone.
const R1: Operands = (Some(1), None, None, None, false);

const R1_AND_R2: Operands = (Some(1), Some(2), None, None, false);

const R1_AND_R3: Operands = (Some(1), Some(3), None, None, false);

const R1_AND_MEMORY: Operands = (Some(1), None, None, None, true);

/// `b[1]` alone.
const B1: Operands = (None, None, Some(1), None, false);

const B1_AND_P2: Operands = (None, None, Some(1), Some(2), false);

/// The first destination, and a compare's second one.
type Destinations = (Option<Place>, Option<Place>);

const NOWHERE: Destinations = (None, None);

const TO_R3: Destinations = (Some(Place::General(3)), None);

const TO_B3: Destinations = (Some(Place::Target(3)), None);

const TO_MEMORY: Destinations = (Some(Place::Memory), None);

const TO_P0_AND_P9: Destinations = (Some(Place::Predicate(0)), Some(Place::Predicate(9)));

const TO_P9_AND_P0: Destinations = (Some(Place::Predicate(9)), Some(Place::Predicate(0)));

/// An operation, its operands and its destinations.
const NAMED: [(Op, Operands, Destinations); 19] = [
    (ADD, R1_AND_R2, TO_R3),
    (Op::AluImm(AluKind::Add, 3, 0, 2), R0, TO_R3),
    (Op::Pbr(3, 1), NOTHING, TO_B3),
    (Op::Mvb(3, 1), R1, TO_B3),
    (Op::Mvr(3, 1), B1, TO_R3),
    (Op::Mul(3, 1, 2), R1_AND_R2, TO_R3),
    (Op::Div(3, 1, 2), R1_AND_R2, TO_R3),
    (Op::Rem(3, 1, 2), R1_AND_R2, TO_R3),
    (Op::Load(Size::Half, 3, 1, 2), R1_AND_MEMORY, TO_R3),
    (Op::Store(Size::Half, 3, 1, 2), R1_AND_R3, TO_MEMORY),
    (Op::Inb(3), NOTHING, TO_R3),
    (Op::Outb(1), R1, NOWHERE),
    (
        Op::Cmp(Test::Ceq, ON_0, UN_9, 1, 2),
        R1_AND_R2,
        TO_P0_AND_P9,
    ),
    (Op::CmpImm(Test::Ceq, UN_9, ON_0, 1, 2), R1, TO_P9_AND_P0),
    (Op::Bru(1), B1, NOWHERE),
    (Op::Brct(1, 2), B1_AND_P2, NOWHERE),
    (Op::Brcf(1, 2), B1_AND_P2, NOWHERE),
    (Op::Brl(3, 1), B1, TO_B3),
    (Op::Halt(1), R1, NOWHERE),
];

fn has_operands(op: &Op, want: &Operands) -> bool {
    let from = sources(op);
    from.first == want.0
        && from.second == want.1
        && from.target == want.2
        && from.test == want.3
        && from.memory == want.4
}

fn has_destinations(op: &Op, want: &Destinations) -> bool {
    let to = destinations(op);
    to.first == want.0 && to.second == want.1
}

#[test]
fn operands_and_destinations(rt: HostRuntime) {
    for (row, (op, operands, places)) in NAMED.iter().enumerate() {
        assert!(rt; has_operands(op, operands), "row {row}");
        assert!(rt; has_destinations(op, places), "row {row}");
    }
}

/// Two destinations, a predicate, and the family of both there.
type Wired = (u8, Action, u8, Action, u8, Option<Family>);

const WIRED: [Wired; 9] = [
    (1, Action::On, 2, Action::Ac, 1, Some(Family::One)),
    (1, Action::On, 2, Action::Ac, 2, Some(Family::Zero)),
    (1, Action::On, 2, Action::Ac, 3, None),
    (1, Action::Oc, 1, Action::On, 1, Some(Family::One)),
    (1, Action::An, 1, Action::Ac, 1, Some(Family::Zero)),
    (1, Action::On, 1, Action::An, 1, None),
    (1, Action::Un, 1, Action::On, 1, None),
    (1, Action::Uc, 2, Action::On, 1, None),
    (0, Action::On, 0, Action::On, 0, None),
];

/// Compares the family of both compares with these destinations.
fn is_wired(case: &Wired) -> bool {
    let (p, action, q, other, predicate, want) = *case;
    let a = Dest { p, action };
    let b = Dest {
        p: q,
        action: other,
    };
    wired(&Op::Cmp(Test::Ceq, a, b, 1, 2), predicate) == want
        && wired(&Op::CmpImm(Test::Ceq, a, b, 1, 2), predicate) == want
}

#[test]
fn wired_compares(rt: HostRuntime) {
    for (row, case) in WIRED.iter().enumerate() {
        assert!(rt; is_wired(case), "row {row}");
    }
    assert!(rt; wired(&Op::Brct(1, 1), 1).is_none());
}

/// The numbers of the unit kind and of the latency kind, whether it is a branch, whether it is an `inb`, and whether it can
/// trap.
type Kinds = (u8, u8, bool, bool, bool);

const ARITHMETIC: Kinds = (0, 0, false, false, false);

const TARGET: Kinds = (0, 7, false, false, false);

const PRODUCT: Kinds = (1, 1, false, false, false);

const QUOTIENT: Kinds = (1, 2, false, false, true);

const LOADED: Kinds = (2, 3, false, false, true);

const STORED: Kinds = (2, 4, false, false, true);

const INPUT: Kinds = (2, 5, false, true, false);

const OUTPUT: Kinds = (2, 5, false, false, true);

const COMPARED: Kinds = (3, 6, false, false, false);

const BRANCH: Kinds = (4, 8, true, false, false);

/// Each operation with each of its arithmetics, sizes and tests.
const KINDS: [(Op, Kinds); 65] = [
    (ADD, ARITHMETIC),
    (Op::Alu(AluKind::Add, 1, 2, 3), ARITHMETIC),
    (Op::Alu(AluKind::Sub, 1, 2, 3), ARITHMETIC),
    (Op::Alu(AluKind::And, 1, 2, 3), ARITHMETIC),
    (Op::Alu(AluKind::Or, 1, 2, 3), ARITHMETIC),
    (Op::Alu(AluKind::Xor, 1, 2, 3), ARITHMETIC),
    (Op::Alu(AluKind::Shl, 1, 2, 3), ARITHMETIC),
    (Op::Alu(AluKind::Shr, 1, 2, 3), ARITHMETIC),
    (Op::Alu(AluKind::Sar, 1, 2, 3), ARITHMETIC),
    (Op::Alu(AluKind::Min, 1, 2, 3), ARITHMETIC),
    (Op::Alu(AluKind::Max, 1, 2, 3), ARITHMETIC),
    (Op::AluImm(AluKind::Add, 1, 2, 3), ARITHMETIC),
    (Op::AluImm(AluKind::Sub, 1, 2, 3), ARITHMETIC),
    (Op::AluImm(AluKind::And, 1, 2, 3), ARITHMETIC),
    (Op::AluImm(AluKind::Or, 1, 2, 3), ARITHMETIC),
    (Op::AluImm(AluKind::Xor, 1, 2, 3), ARITHMETIC),
    (Op::AluImm(AluKind::Shl, 1, 2, 3), ARITHMETIC),
    (Op::AluImm(AluKind::Shr, 1, 2, 3), ARITHMETIC),
    (Op::AluImm(AluKind::Sar, 1, 2, 3), ARITHMETIC),
    (Op::AluImm(AluKind::Min, 1, 2, 3), ARITHMETIC),
    (Op::AluImm(AluKind::Max, 1, 2, 3), ARITHMETIC),
    (Op::Pbr(1, 2), TARGET),
    (Op::Pbr(1, 512), TARGET),
    (Op::Mvb(1, 2), TARGET),
    (Op::Mvr(1, 2), ARITHMETIC),
    (Op::Mul(1, 2, 3), PRODUCT),
    (Op::Mul(3, 1, 2), PRODUCT),
    (Op::Div(1, 2, 3), QUOTIENT),
    (Op::Div(3, 1, 2), QUOTIENT),
    (Op::Div(4, 5, 6), QUOTIENT),
    (Op::Rem(1, 2, 3), QUOTIENT),
    (Op::Rem(3, 1, 2), QUOTIENT),
    (Op::Rem(4, 5, 6), QUOTIENT),
    (LOAD, LOADED),
    (Op::Load(Size::Word, 4, 5, 6), LOADED),
    (Op::Load(Size::Half, 4, 5, 6), LOADED),
    (Op::Load(Size::HalfU, 4, 5, 6), LOADED),
    (Op::Load(Size::Byte, 1, 2, 3), LOADED),
    (Op::Load(Size::Byte, 3, 1, 2), LOADED),
    (Op::Load(Size::ByteU, 4, 5, 6), LOADED),
    (Op::Store(Size::Word, 4, 5, 6), STORED),
    (Op::Store(Size::Half, 4, 5, 6), STORED),
    (Op::Store(Size::Byte, 1, 2, 3), STORED),
    (Op::Store(Size::Byte, 3, 1, 2), STORED),
    (Op::Inb(1), INPUT),
    (Op::Inb(7), INPUT),
    (Op::Outb(1), OUTPUT),
    (Op::Outb(7), OUTPUT),
    (Op::Cmp(Test::Ceq, UN_1, UN_1, 1, 2), COMPARED),
    (Op::Cmp(Test::Cne, UN_1, UN_1, 1, 2), COMPARED),
    (Op::Cmp(Test::Clt, UN_1, UN_1, 1, 2), COMPARED),
    (Op::Cmp(Test::Cle, UN_1, UN_1, 1, 2), COMPARED),
    (Op::Cmp(Test::Cltu, UN_1, UN_1, 1, 2), COMPARED),
    (Op::Cmp(Test::Cleu, UN_1, UN_1, 1, 2), COMPARED),
    (Op::CmpImm(Test::Ceq, UN_1, UN_1, 1, 2), COMPARED),
    (Op::CmpImm(Test::Cne, UN_1, UN_1, 1, 2), COMPARED),
    (Op::CmpImm(Test::Clt, UN_1, UN_1, 1, 2), COMPARED),
    (Op::CmpImm(Test::Cle, UN_1, UN_1, 1, 2), COMPARED),
    (Op::CmpImm(Test::Cltu, UN_1, UN_1, 1, 2), COMPARED),
    (Op::CmpImm(Test::Cleu, UN_1, UN_1, 1, 2), COMPARED),
    (Op::Bru(1), BRANCH),
    (Op::Brct(1, 2), BRANCH),
    (Op::Brcf(1, 2), BRANCH),
    (Op::Brl(1, 2), BRANCH),
    (Op::Halt(1), BRANCH),
];

fn has_kinds(op: &Op, want: &Kinds) -> bool {
    unit(op) as u8 == want.0
        && lat_kind(op) as u8 == want.1
        && is_branch(op) == want.2
        && is_inb(op) == want.3
        && can_trap(op) == want.4
}

/// Whether two operations keep their order just where that is wanted, whichever is named first.
fn has_order(a: &Op, b: &Op, want: bool) -> bool {
    ordered(a, b) == want && ordered(b, a) == want
}

/// Two operations that can trap keep their order, and so do two `inb`.
#[test]
fn kinds_and_orders(rt: HostRuntime) {
    for (row, (op, kinds)) in KINDS.iter().enumerate() {
        assert!(rt; has_kinds(op, kinds), "row {row}");
        assert!(rt; has_order(op, &Op::Div(1, 2, 3), kinds.4), "row {row}");
        assert!(rt; has_order(op, &Op::Inb(1), kinds.3), "row {row}");
    }
}
