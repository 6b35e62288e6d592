// The table of fields, both ways: what the fields of a word hold for each operation.
ghost use Rattle.std.specs.Prelude.{◌≡◌, ◌<◌, IsTrue, if◌then◌else◌};
ghost use Rattle.operation.specs.Ranges.{is_op_in_range, is_register, is_target as is_target_number};
ghost use Rattle.list_encoding.specs.declared.opcodes.Mnemonic.TheVariants.{Cmp, CmpImm};
ghost use Rattle.list_encoding.specs.Opcodes.{opcode_of};
ghost use Rattle.list_encoding.specs.Fields.{fields_of, compare_tail as compare_tail_of};
ghost use Rattle.list_encoding.specs.Operands.{operation_in, action_at, first_of, second_of, is_compare_tail as is_compare_tail_of};

use super::bits::{append, bits};
use super::opcodes::Mnemonic;
use operation::{Action, Dest, Op, Test};

/// Which operation a word holds, and its fields d, s and tail.
#[derive(Clone, Copy, Debug, PartialEq, Eq)]
pub struct Fields {
    pub mnemonic: Mnemonic,
    /// The first register, predicate or branch target; 5 bits.
    pub d: u8,
    /// The second one; 5 bits.
    pub s: u8,
    /// The immediate, the last register or a compare's further operands.
    pub tail: u32,
}

fn row(mnemonic: Mnemonic, d: u8, s: u8, tail: u32) -> Fields
    ensures { result ≡ record { mnemonic = mnemonic; d = d; s = s; tail = tail } }
{
    Fields {
        mnemonic,
        d,
        s,
        tail,
    }
}

/// The fields of an operation.
pub fn operation_fields(op: &Op) -> Fields
    requires { IsTrue (is_op_in_range op.now) }
    ensures value { result ≡ fields_of op.now }
    ensures opcode { opcode_of result.mnemonic < 128 }
    ensures d { result.d < 32 }
    ensures s { result.s < 32 }
{
    match *op {
        Op::Alu(kind, d, s, t) => row(Mnemonic::Alu(kind), d, s, t as u32),
        Op::AluImm(kind, d, s, imm) => row(Mnemonic::AluImm(kind), d, s, imm),
        Op::Pbr(d, imm) => row(Mnemonic::Pbr, d, 0, imm),
        Op::Mvb(d, s) => row(Mnemonic::Mvb, d, s, 0),
        Op::Mvr(d, s) => row(Mnemonic::Mvr, d, s, 0),
        Op::Mul(d, s, t) => row(Mnemonic::Mul, d, s, t as u32),
        Op::Div(d, s, t) => row(Mnemonic::Div, d, s, t as u32),
        Op::Rem(d, s, t) => row(Mnemonic::Rem, d, s, t as u32),
        Op::Load(size, d, s, imm) => row(Mnemonic::Load(size), d, s, imm),
        Op::Store(size, d, s, imm) => row(Mnemonic::Store(size), d, s, imm),
        Op::Inb(d) => row(Mnemonic::Inb, d, 0, 0),
        Op::Outb(s) => row(Mnemonic::Outb, 0, s, 0),
        Op::Cmp(test, a, b, s, t) => {
            row(Mnemonic::Cmp(test), a.p, s, compare_tail(t as u16, a, b))
        }
        Op::CmpImm(test, a, b, s, imm) => {
            row(
                Mnemonic::CmpImm(test),
                a.p,
                s,
                compare_tail(imm.cast_unsigned(), a, b),
            )
        }
        Op::Bru(s) => row(Mnemonic::Bru, 0, s, 0),
        Op::Brct(s, d) => row(Mnemonic::Brct, d, s, 0),
        Op::Brcf(s, d) => row(Mnemonic::Brcf, d, s, 0),
        Op::Brl(d, s) => row(Mnemonic::Brl, d, s, 0),
        Op::Halt(s) => row(Mnemonic::Halt, 0, s, 0),
    }
}

/// The tail of a compare of two destinations.
fn compare_tail(second: u16, a: Dest, b: Dest) -> u32
    requires { b.p < 32 }
    ensures { result ≡ compare_tail_of second a b }
{
    let predicates = append(second as u64, 5, b.p as u64);
    let actions = append(append(predicates, 3, a.action as u64), 3, b.action as u64);
    append(actions, 5, 0) as u32
}

/// The operation whose fields these are, None where they are no operation's.
pub fn operation(fields: Fields) -> Option<Op>
    requires d { fields.d < 32 }
    requires s { fields.s < 32 }
    ensures { result ≡ operation_in fields }
{
    let Fields {
        mnemonic,
        d,
        s,
        tail,
    } = fields;
    match mnemonic {
        Mnemonic::Alu(kind) => Some(Op::Alu(kind, d, s, register(tail)?)),
        Mnemonic::AluImm(kind) => Some(Op::AluImm(kind, d, s, tail)),
        Mnemonic::Pbr => (is_target(d) && s == 0).then_some(Op::Pbr(d, tail)),
        Mnemonic::Mvb => (is_target(d) && tail == 0).then_some(Op::Mvb(d, s)),
        Mnemonic::Mvr => (is_target(s) && tail == 0).then_some(Op::Mvr(d, s)),
        Mnemonic::Mul => Some(Op::Mul(d, s, register(tail)?)),
        Mnemonic::Div => Some(Op::Div(d, s, register(tail)?)),
        Mnemonic::Rem => Some(Op::Rem(d, s, register(tail)?)),
        Mnemonic::Load(size) => Some(Op::Load(size, d, s, tail)),
        Mnemonic::Store(size) => Some(Op::Store(size, d, s, tail)),
        Mnemonic::Inb => (s == 0 && tail == 0).then_some(Op::Inb(d)),
        Mnemonic::Outb => (d == 0 && tail == 0).then_some(Op::Outb(s)),
        Mnemonic::Cmp(test) => compare(test, d, s, tail),
        Mnemonic::CmpImm(test) => compare_immediate(test, d, s, tail),
        Mnemonic::Bru => (d == 0 && is_target(s) && tail == 0).then_some(Op::Bru(s)),
        Mnemonic::Brct => (is_target(s) && tail == 0).then_some(Op::Brct(s, d)),
        Mnemonic::Brcf => (is_target(s) && tail == 0).then_some(Op::Brcf(s, d)),
        Mnemonic::Brl => (is_target(d) && is_target(s) && tail == 0).then_some(Op::Brl(d, s)),
        Mnemonic::Halt => (d == 0 && tail == 0).then_some(Op::Halt(s)),
    }
}

/// The number of a register, where a tail is one.
fn register(tail: u32) -> Option<u8>
    ensures { result ≡ (if is_register tail then Some tail else None) }
{
    if tail < 32 { Some(tail as u8) } else { None }
}

fn is_target(number: u8) -> bool
    ensures { result ≡ is_target_number number }
{
    number < 8
}

/// The action of a number below 6.
fn action(number: u64) -> Action
    requires { number < 6 }
    ensures { result ≡ action_at number }
{
    match number {
        0 => Action::Un,
        1 => Action::Uc,
        2 => Action::On,
        3 => Action::Oc,
        4 => Action::An,
        _ => Action::Ac,
    }
}

/// Both actions of a compare's tail are there, and its lowest bits are unused.
fn is_compare_tail(tail: u32) -> bool
    ensures { result ≡ is_compare_tail_of tail }
{
    let tail = tail as u64;
    bits(tail, 8, 3) < 6 && bits(tail, 5, 3) < 6 && bits(tail, 0, 5) == 0
}

/// The destinations of a compare.
fn destinations(d: u8, tail: u32) -> (Dest, Dest)
    requires { IsTrue (is_compare_tail_of tail) }
    ensures { result ≡ (first_of d tail, second_of tail) }
{
    let tail = tail as u64;
    let first = Dest {
        p: d,
        action: action(bits(tail, 8, 3)),
    };
    let second = Dest {
        p: bits(tail, 11, 5) as u8,
        action: action(bits(tail, 5, 3)),
    };
    (first, second)
}

fn compare(test: Test, d: u8, s: u8, tail: u32) -> Option<Op>
    ensures { result ≡ operation_in (record { mnemonic = Cmp test; d = d; s = s; tail = tail }) }
{
    if !is_compare_tail(tail) {
        return None;
    }
    let (a, b) = destinations(d, tail);
    Some(Op::Cmp(test, a, b, s, register(tail >> 16)?))
}

fn compare_immediate(test: Test, d: u8, s: u8, tail: u32) -> Option<Op>
    ensures { result ≡ operation_in (record { mnemonic = CmpImm test; d = d; s = s; tail = tail }) }
{
    if !is_compare_tail(tail) {
        return None;
    }
    let (a, b) = destinations(d, tail);
    let immediate = (bits(tail as u64, 16, 16) as u16).cast_signed();
    Some(Op::CmpImm(test, a, b, s, immediate))
}
