// The operations that are drawn.
ghost use Rattle.std.specs.Prelude.{◌≡◌, ◌<◌};
ghost use Rattle.operation.specs.declared.Op.TheVariants as op;
ghost use Rattle.operation.specs.declared.Test.TheVariants.{Clt};
ghost use Rattle.workload.specs.Draws.{after};
ghost use Rattle.workload.specs.Operations.{operation_by, guard_by, true_at, false_at, drawn_operation, drawn_guard};

use super::draws::Draws;
use operation::{Action, AluKind, Dest, Guarded, Op, Size, Test};

/// A compare of two registers, which sets one predicate for less and another for not less.
fn compare(s: u8, t: u8, v: u8) -> Op
    ensures { result ≡ op.Cmp Clt (true_at v) (false_at v) s t }
{
    let less = Dest {
        p: 1 + v % 7,
        action: Action::Un,
    };
    let other = Dest {
        p: 8 + v % 7,
        action: Action::Uc,
    };
    Op::Cmp(Test::Clt, less, other, s, t)
}

/// The operation of a kind, 0 to 9, with registers d, s and t and a value v.
fn operation(kind: u8, d: u8, s: u8, t: u8, v: u8) -> Op
    requires value { v < 64 }
    ensures { result ≡ operation_by kind d s t v }
{
    match kind {
        0 => Op::Alu(AluKind::Add, d, s, t),
        1 => Op::Alu(AluKind::Sub, d, s, t),
        2 => Op::Alu(AluKind::Xor, d, s, t),
        3 => Op::Mul(d, s, t),
        4 => Op::AluImm(AluKind::Shl, d, s, (v % 32) as u32),
        5 => Op::AluImm(AluKind::Add, d, s, v as u32),
        6 => compare(s, t, v),
        7 => Op::Load(Size::Word, d, 0, 4 * v as u32),
        8 => Op::Store(Size::Word, d, 0, 4 * v as u32),
        _ => Op::AluImm(AluKind::Add, d, s, t as u32),
    }
}

/// The guard of the operation of a kind.
fn guard(kind: u8, v: u8) -> u8
    ensures { result ≡ guard_by kind v }
{
    if kind < 9 { 0 } else { 1 + v % 7 }
}

/// What five draws choose.
#[derive(Clone, Copy, Debug, PartialEq, Eq)]
struct Choice {
    /// Which operation, 0 to 9.
    kind: u8,
    d: u8,
    s: u8,
    t: u8,
    /// A value, 0 to 63.
    v: u8,
}

/// What the next five draws choose.
fn choose(draws: &mut Draws) -> Choice
    ensures operation { operation_by result.kind result.d result.s result.t result.v ≡ drawn_operation draws.old.x }
    ensures guard { guard_by result.kind result.v ≡ drawn_guard draws.old.x }
    ensures value { result.v < 64 }
    ensures state { draws.new.x ≡ after 5 draws.old.x }
{
    let kind = (draws.draw() % 10) as u8;
    let d = draws.register();
    let s = draws.register();
    let t = draws.register();
    let v = (draws.draw() % 64) as u8;
    Choice { kind, d, s, t, v }
}

/// The next operation, of five draws.
pub fn drawn(draws: &mut Draws) -> Guarded
    ensures operation { result.op ≡ drawn_operation draws.old.x }
    ensures guard { result.guard ≡ drawn_guard draws.old.x }
    ensures state { draws.new.x ≡ after 5 draws.old.x }
{
    let c = choose(draws);
    Guarded {
        guard: guard(c.kind, c.v),
        op: operation(c.kind, c.d, c.s, c.t, c.v),
    }
}
