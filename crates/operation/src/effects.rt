// What an operation does with the values of its operands.
ghost use Rattle.std.specs.Prelude.{◌≡◌, ◌%◌, Option, if◌then◌else◌};
ghost use Rattle.operation.specs.Arithmetic.{quotient as quotient_value, remainder as remainder_value};
ghost use Rattle.operation.specs.Effects.{written as written_by, effect, does, trap as trap_effect, access as access_effect, divided as divided_effect, compared as compared_effect};

use super::arithmetic::{alu, compare, quotient, remainder};
use super::numbers::bytes;
use super::{Action, Dest, Effect, Guarded, Op, Operands, Size, Trap, TrapKind};

fn trap(kind: TrapKind, detail: u32) -> Effect
    ensures { result ≡ trap_effect kind detail }
{
    Effect::Trapped(Trap { kind, detail })
}

/// What an action writes under a guard, where the test gives c.
fn written(action: Action, guard: bool, c: bool) -> Option<bool>
    ensures { result ≡ written_by action guard c }
{
    match action {
        Action::Un => Some(guard && c),
        Action::Uc => Some(guard && !c),
        Action::On => if guard && c { Some(true) } else { None },
        Action::Oc => if guard && !c { Some(true) } else { None },
        Action::An => if guard && !c { Some(false) } else { None },
        Action::Ac => if guard && c { Some(false) } else { None },
    }
}

/// What a compare does where its test gives c.
fn compared(a: Dest, b: Dest, guard: bool, c: bool) -> Effect
    ensures { result ≡ compared_effect a b guard c }
{
    Effect::Predicates(written(a.action, guard, c), written(b.action, guard, c))
}

/// The effect of an access to memory, or its trap.
fn access(size: Size, address: u32, memory: u32, effect: Effect) -> Effect
    ensures { result ≡ access_effect size address memory effect }
{
    let count = bytes(size);
    if address % count != 0 {
        trap(TrapKind::Misaligned, address)
    } else if address as u64 + count as u64 > memory as u64 {
        trap(TrapKind::OutOfRange, address)
    } else {
        effect
    }
}

fn load(size: Size, d: u8, address: u32, memory: u32) -> Effect
    ensures { result ≡ access_effect size address memory (Effect.Load d address size) }
{
    access(size, address, memory, Effect::Load { d, address, size })
}

fn store(size: Size, address: u32, value: u32, memory: u32) -> Effect
    ensures { result ≡ access_effect size address memory (Effect.Store address size value) }
{
    access(
        size,
        address,
        memory,
        Effect::Store {
            address,
            size,
            value,
        },
    )
}

fn divide(d: u8, a: u32, b: u32) -> Effect
    ensures { result ≡ divided_effect a b (Effect.General d (quotient_value a b)) }
{
    if b == 0 {
        trap(TrapKind::DivideByZero, a)
    } else {
        Effect::General(d, quotient(a, b))
    }
}

fn modulo(d: u8, a: u32, b: u32) -> Effect
    ensures { result ≡ divided_effect a b (Effect.General d (remainder_value a b)) }
{
    if b == 0 {
        trap(TrapKind::DivideByZero, a)
    } else {
        Effect::General(d, remainder(a, b))
    }
}

fn put(value: u32, full: bool) -> Effect
    ensures { result ≡ (if full then trap_effect TrapKind.OutputFull (value % 256) else Effect.Put (value % 256)) }
{
    let byte = (value % 256) as u8;
    if full {
        trap(TrapKind::OutputFull, byte as u32)
    } else {
        Effect::Put(byte)
    }
}

fn branch(taken: bool, target: u32) -> Effect
    ensures { result ≡ (if taken then Effect.Jump target else Effect.Nothing) }
{
    if taken {
        Effect::Jump(target)
    } else {
        Effect::Nothing
    }
}

/// What an operation does under a true guard, and a compare under either.
fn act(op: &Op, v: &Operands) -> Effect
    ensures { result ≡ does op.now v.now }
{
    match *op {
        Op::Alu(kind, d, _, _) => Effect::General(d, alu(kind, v.first, v.second)),
        Op::AluImm(kind, d, _, imm) => Effect::General(d, alu(kind, v.first, imm)),
        Op::Pbr(d, imm) => Effect::Target(d, imm),
        Op::Mvb(d, _) => Effect::Target(d, v.first),
        Op::Mvr(d, _) => Effect::General(d, v.target),
        Op::Mul(d, _, _) => Effect::General(d, v.first.wrapping_mul(v.second)),
        Op::Div(d, _, _) => divide(d, v.first, v.second),
        Op::Rem(d, _, _) => modulo(d, v.first, v.second),
        Op::Load(size, d, _, imm) => load(size, d, v.first.wrapping_add(imm), v.memory),
        Op::Store(size, _, _, imm) => store(size, v.first.wrapping_add(imm), v.second, v.memory),
        Op::Inb(d) => Effect::Take(d),
        Op::Outb(_) => put(v.first, v.full),
        Op::Cmp(test, a, b, _, _) => compared(a, b, v.guard, compare(test, v.first, v.second)),
        Op::CmpImm(test, a, b, _, imm) => {
            let immediate = (imm as i32).cast_unsigned();
            compared(a, b, v.guard, compare(test, v.first, immediate))
        }
        Op::Bru(_) => Effect::Jump(v.target),
        Op::Brct(..) => branch(v.test, v.target),
        Op::Brcf(..) => branch(!v.test, v.target),
        Op::Brl(d, _) => Effect::Link(d, v.target),
        Op::Halt(_) => Effect::Halt(v.first),
    }
}

/// What an operation does under its guard, by the values of its operands.
///
/// A compare answers `Predicates` under either guard. Any other operation under a false guard, and
/// a branch that isn't taken, answers `Nothing`. An access tests its alignment first, then its end.
pub fn evaluate(g: &Guarded, v: &Operands) -> Effect
    ensures { result ≡ effect g.now v.now }
{
    let is_compare = matches!(g.op, Op::Cmp(..) | Op::CmpImm(..));
    if v.guard || is_compare {
        act(&g.op, v)
    } else {
        Effect::Nothing
    }
}
