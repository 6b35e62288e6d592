// What operations do with the values of their operands. The expected numbers were worked out apart from the code.
ghost use Rattle.std.specs.Prelude.{◌≡◌, ◌<◌, ◌^◌, IsTrue};
ghost use Rattle.operation.specs.Arithmetic.{bytes_of};

use super::places::guarded;
use operation::numbers::{bytes, extend};
use operation::{
    Action, AluKind, Dest, Effect, Op, Operands, Size, Test, Trap, TrapKind, evaluate,
};

/// A true guard, and nothing else.
const NONE: Operands = Operands {
    guard: true,
    first: 0,
    second: 0,
    target: 0,
    test: false,
    memory: 0,
    full: false,
};

fn trapped(kind: TrapKind, detail: u32) -> Effect {
    Effect::Trapped(Trap { kind, detail })
}

/// Whether an operation under a guard does this with these values.
fn does(guard: u8, op: Op, values: &Operands, want: Effect) -> bool {
    let Some(guarded) = guarded(guard, op) else {
        return false;
    };
    evaluate(&guarded, values) == want
}

/// The first operand and the second, and the result.
type Computed = (AluKind, u32, u32, u32);

const RESULTS: [Computed; 17] = [
    (AluKind::Add, 0xFFFF_FFFF, 2, 1),
    (AluKind::Sub, 1, 3, 0xFFFF_FFFE),
    (AluKind::And, 0xF0F0_F0F0, 0xFF00_FF00, 0xF000_F000),
    (AluKind::Or, 0xF0F0_F0F0, 0xFF00_FF00, 0xFFF0_FFF0),
    (AluKind::Xor, 0xF0F0_F0F0, 0xFF00_FF00, 0x0FF0_0FF0),
    (AluKind::Shl, 0x8000_0003, 31, 0x8000_0000),
    (AluKind::Shl, 0x8000_0003, 32, 0x8000_0003),
    (AluKind::Shl, 0x8000_0003, 33, 6),
    (AluKind::Shr, 0x8000_0003, 31, 1),
    (AluKind::Shr, 0x8000_0003, 32, 0x8000_0003),
    (AluKind::Shr, 0x8000_0003, 33, 0x4000_0001),
    (AluKind::Sar, 0x8000_0003, 31, 0xFFFF_FFFF),
    (AluKind::Sar, 0x8000_0003, 32, 0x8000_0003),
    (AluKind::Sar, 0x8000_0003, 33, 0xC000_0001),
    (AluKind::Sar, 0x7FFF_FFFF, 30, 1),
    (AluKind::Min, 0x8000_0000, 0x7FFF_FFFF, 0x8000_0000),
    (AluKind::Max, 0xFFFF_FFFF, 1, 1),
];

/// With a register and with an immediate as the second operand.
fn computes(case: &Computed) -> bool {
    let (kind, first, second, want) = *case;
    let immediate = Operands { first, ..NONE };
    let register = Operands {
        second,
        ..immediate
    };
    let want = Effect::General(3, want);
    does(0, Op::Alu(kind, 3, 1, 2), &register, want)
        && does(0, Op::AluImm(kind, 3, 1, second), &immediate, want)
}

#[test]
fn results_of_registers(rt: HostRuntime) {
    for (row, case) in RESULTS.iter().enumerate() {
        assert!(rt; computes(case), "row {row}");
    }
}

/// Dividend and divisor; product, quotient and remainder.
type Divided = (i32, i32, i32, i32, i32);

const QUOTIENTS: [Divided; 8] = [
    (7, 2, 14, 3, 1),
    (-7, 2, -14, -3, -1),
    (7, -2, -14, -3, 1),
    (-7, -2, 14, 3, -1),
    (5, 7, 35, 0, 5),
    (i32::MIN, -1, i32::MIN, i32::MIN, 0),
    (i32::MAX, -1, -i32::MAX, -i32::MAX, 0),
    (0x10001, 0x10001, 0x20001, 1, 0),
];

fn result(n: i32) -> Effect {
    Effect::General(3, n.cast_unsigned())
}

fn divides(case: &Divided) -> bool {
    let (first, second, product, quotient, remainder) = *case;
    let values = Operands {
        first: first.cast_unsigned(),
        second: second.cast_unsigned(),
        ..NONE
    };
    does(0, Op::Mul(3, 1, 2), &values, result(product))
        && does(0, Op::Div(3, 1, 2), &values, result(quotient))
        && does(0, Op::Rem(3, 1, 2), &values, result(remainder))
}

#[test]
fn products_and_quotients(rt: HostRuntime) {
    for (row, case) in QUOTIENTS.iter().enumerate() {
        assert!(rt; divides(case), "row {row}");
    }
    let values = Operands { first: 9, ..NONE };
    let by_zero = trapped(TrapKind::DivideByZero, 9);
    assert!(rt; does(0, Op::Div(3, 1, 2), &values, by_zero));
    assert!(rt; does(0, Op::Rem(3, 1, 2), &values, by_zero));
}

/// The first operand, the second one, and the same as an immediate; whether the test holds.
type Tested = (Test, u32, u32, i16, bool);

const TESTS: [Tested; 15] = [
    (Test::Ceq, 5, 5, 5, true),
    (Test::Ceq, 5, 6, 6, false),
    (Test::Ceq, 0xFFFF_8000, 0xFFFF_8000, -32768, true),
    (Test::Cne, 5, 6, 6, true),
    (Test::Cne, 5, 5, 5, false),
    (Test::Clt, 0xFFFF_FFFF, 1, 1, true),
    (Test::Clt, 1, 0xFFFF_FFFF, -1, false),
    (Test::Clt, 5, 5, 5, false),
    (Test::Cle, 5, 5, 5, true),
    (Test::Cle, 0, 0xFFFF_FFFF, -1, false),
    (Test::Cltu, 0xFFFF_FFFF, 1, 1, false),
    (Test::Cltu, 1, 0xFFFF_FFFF, -1, true),
    (Test::Cltu, 5, 5, 5, false),
    (Test::Cleu, 5, 5, 5, true),
    (Test::Cleu, 0xFFFF_FFFF, 0, 0, false),
];

const UN: Dest = Dest {
    p: 1,
    action: Action::Un,
};

const UC: Dest = Dest {
    p: 2,
    action: Action::Uc,
};

fn decides(case: &Tested) -> bool {
    let (test, first, second, imm, holds) = *case;
    let immediate = Operands { first, ..NONE };
    let register = Operands {
        second,
        ..immediate
    };
    let want = Effect::Predicates(Some(holds), Some(!holds));
    does(0, Op::Cmp(test, UN, UC, 1, 2), &register, want)
        && does(0, Op::CmpImm(test, UN, UC, 1, imm), &immediate, want)
}

#[test]
fn tests_of_compares(rt: HostRuntime) {
    for (row, case) in TESTS.iter().enumerate() {
        assert!(rt; decides(case), "row {row}");
    }
}

/// What an action writes under a true guard where the test holds and where it doesn't, and under a false guard where it
/// holds and where it doesn't.
type Acted = (
    Action,
    Option<bool>,
    Option<bool>,
    Option<bool>,
    Option<bool>,
);

const ACTIONS: [Acted; 6] = [
    (
        Action::Un,
        Some(true),
        Some(false),
        Some(false),
        Some(false),
    ),
    (
        Action::Uc,
        Some(false),
        Some(true),
        Some(false),
        Some(false),
    ),
    (Action::On, Some(true), None, None, None),
    (Action::Oc, None, Some(true), None, None),
    (Action::An, None, Some(false), None, None),
    (Action::Ac, Some(false), None, None, None),
];

/// Compares what an action writes to both destinations where the first operand is compared with 0.
fn writes(action: Action, guard: bool, first: u32, want: Option<bool>) -> bool {
    let a = Dest { p: 1, action };
    let b = Dest { p: 0, action };
    let values = Operands {
        guard,
        first,
        ..NONE
    };
    let op = Op::CmpImm(Test::Ceq, a, b, 1, 0);
    does(3, op, &values, Effect::Predicates(want, want))
}

fn acts(case: &Acted) -> bool {
    let (action, holds, fails, idle_holds, idle_fails) = *case;
    writes(action, true, 0, holds)
        && writes(action, true, 1, fails)
        && writes(action, false, 0, idle_holds)
        && writes(action, false, 1, idle_fails)
}

#[test]
fn actions_of_compares(rt: HostRuntime) {
    for (row, case) in ACTIONS.iter().enumerate() {
        assert!(rt; acts(case), "row {row}");
    }
}

/// Size, base, displacement and size of the memory; the address, and the trap if there is one.
type Accessed = (Size, u32, u32, u32, u32, Option<TrapKind>);

const ACCESSES: [Accessed; 13] = [
    (Size::Word, 8, 0xFFFF_FFFC, 8, 4, None),
    (Size::Word, 8, 0, 8, 8, Some(TrapKind::OutOfRange)),
    (Size::Word, 5, 0, 8, 5, Some(TrapKind::Misaligned)),
    (Size::Word, 6, 0, 0, 6, Some(TrapKind::Misaligned)),
    (Size::Half, 0, 6, 8, 6, None),
    (Size::Half, 0, 7, 8, 7, Some(TrapKind::Misaligned)),
    (Size::HalfU, 6, 0, 7, 6, Some(TrapKind::OutOfRange)),
    (Size::Byte, 7, 0, 8, 7, None),
    (Size::ByteU, 7, 0, 7, 7, Some(TrapKind::OutOfRange)),
    (Size::Byte, 0, 0, 0, 0, Some(TrapKind::OutOfRange)),
    (
        Size::Word,
        0xFFFF_FFFC,
        0,
        0xFFFF_FFFF,
        0xFFFF_FFFC,
        Some(TrapKind::OutOfRange),
    ),
    (
        Size::Byte,
        0xFFFF_FFFF,
        0,
        0xFFFF_FFFF,
        0xFFFF_FFFF,
        Some(TrapKind::OutOfRange),
    ),
    (Size::Word, 0xFFFF_FFFE, 2, 4, 0, None),
];

fn loaded(size: Size, address: u32, trap: Option<TrapKind>) -> Effect {
    match trap {
        Some(kind) => trapped(kind, address),
        None => Effect::Load {
            d: 3,
            address,
            size,
        },
    }
}

fn accesses(case: &Accessed) -> bool {
    let (size, first, imm, memory, address, trap) = *case;
    let values = Operands {
        first,
        memory,
        ..NONE
    };
    let want = loaded(size, address, trap);
    does(0, Op::Load(size, 3, 1, imm), &values, want)
}

#[test]
fn accesses_of_loads(rt: HostRuntime) {
    for (row, case) in ACCESSES.iter().enumerate() {
        assert!(rt; accesses(case), "row {row}");
    }
}

/// How many bytes are moved, a number in memory, and what a load of it leaves in a register.
type Moved = (Size, u32, u32, u32);

const NUMBERS: [Moved; 5] = [
    (Size::Word, 4, 0x8000_0000, 0x8000_0000),
    (Size::Half, 2, 0x8001, 0xFFFF_8001),
    (Size::HalfU, 2, 0x8001, 0x8001),
    (Size::Byte, 1, 0x80, 0xFFFF_FF80),
    (Size::ByteU, 1, 0x80, 0x80),
];

/// Whether a number has no more bytes than a load moves.
fn is_in_bytes(size: Size, n: u32) -> bool
    ensures { IsTrue result → n < 256 ^ bytes_of size }
{
    match size {
        Size::Word => true,
        Size::Half | Size::HalfU => n < 0x1_0000,
        Size::Byte | Size::ByteU => n < 0x100,
    }
}

fn moves(case: &Moved) -> bool {
    let (size, count, n, want) = *case;
    bytes(size) == count && is_in_bytes(size, n) && extend(size, n) == want
}

#[test]
fn numbers_of_loads(rt: HostRuntime) {
    for (row, case) in NUMBERS.iter().enumerate() {
        assert!(rt; moves(case), "row {row}");
    }
}

const VALUES: Operands = Operands {
    guard: true,
    first: 0x141,
    second: 0x8899_AABB,
    target: 510,
    test: false,
    memory: 0x144,
    full: false,
};

/// The same, with a true `p[d]`.
const SET: Operands = Operands {
    guard: true,
    first: 0x141,
    second: 0x8899_AABB,
    target: 510,
    test: true,
    memory: 0x144,
    full: false,
};

/// The same, with an output that has reached its limit.
const FULL: Operands = Operands {
    guard: true,
    first: 0x141,
    second: 0x8899_AABB,
    target: 510,
    test: false,
    memory: 0x144,
    full: true,
};

/// The same, under a false guard, and with a divisor 0.
const IDLE: Operands = Operands {
    guard: false,
    first: 0x141,
    second: 0,
    target: 510,
    test: false,
    memory: 0x144,
    full: true,
};

/// Operations under a guard, the values that they find, and what they do.
const EFFECTS: [(Op, Operands, Effect); 23] = [
    (Op::Pbr(7, 512), VALUES, Effect::Target(7, 512)),
    (Op::Mvb(2, 9), VALUES, Effect::Target(2, 0x141)),
    (Op::Mvr(9, 2), VALUES, Effect::General(9, 510)),
    (
        Op::Store(Size::Word, 4, 1, 0xFFFF_FFFF),
        VALUES,
        Effect::Store {
            address: 0x140,
            size: Size::Word,
            value: 0x8899_AABB,
        },
    ),
    (
        Op::Store(Size::Half, 4, 1, 1),
        VALUES,
        Effect::Store {
            address: 0x142,
            size: Size::Half,
            value: 0x8899_AABB,
        },
    ),
    (
        Op::Store(Size::Byte, 4, 1, 2),
        VALUES,
        Effect::Store {
            address: 0x143,
            size: Size::Byte,
            value: 0x8899_AABB,
        },
    ),
    (
        Op::Store(Size::Byte, 4, 1, 3),
        VALUES,
        Effect::Trapped(Trap {
            kind: TrapKind::OutOfRange,
            detail: 0x144,
        }),
    ),
    (
        Op::Store(Size::Half, 4, 1, 0),
        VALUES,
        Effect::Trapped(Trap {
            kind: TrapKind::Misaligned,
            detail: 0x141,
        }),
    ),
    (Op::Inb(0), VALUES, Effect::Take(0)),
    (Op::Outb(4), VALUES, Effect::Put(0x41)),
    (
        Op::Outb(4),
        FULL,
        Effect::Trapped(Trap {
            kind: TrapKind::OutputFull,
            detail: 0x41,
        }),
    ),
    (Op::Bru(3), VALUES, Effect::Jump(510)),
    (Op::Brct(3, 20), VALUES, Effect::Nothing),
    (Op::Brct(3, 20), SET, Effect::Jump(510)),
    (Op::Brcf(3, 20), VALUES, Effect::Jump(510)),
    (Op::Brcf(3, 20), SET, Effect::Nothing),
    (Op::Brl(3, 1), VALUES, Effect::Link(3, 510)),
    (Op::Halt(4), VALUES, Effect::Halt(0x141)),
    (Op::Halt(4), IDLE, Effect::Nothing),
    (Op::Outb(4), IDLE, Effect::Nothing),
    (Op::Div(3, 1, 2), IDLE, Effect::Nothing),
    (Op::Load(Size::Word, 3, 1, 0), IDLE, Effect::Nothing),
    (Op::Brcf(3, 20), IDLE, Effect::Nothing),
];

#[test]
fn effects_of_other_operations(rt: HostRuntime) {
    for (row, (op, values, want)) in EFFECTS.iter().enumerate() {
        assert!(rt; does(1, *op, values, *want), "row {row}");
    }
}
