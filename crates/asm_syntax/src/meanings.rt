// The operation that a mnemonic and its operands are.
ghost use Rattle.std.specs.Prelude.{◌≡◌, IsTrue, [], ◌∷◌, option_map, unwrap_or};
ghost use Rattle.operation.specs.Ranges.{is_in_range};
ghost use Rattle.asm_syntax.specs.Statements.{is_formed};
ghost use Rattle.asm_syntax.specs.Meanings.{at as at_place, number as number_of_operand, bits as bits_of, byte as byte_of, value as value_of, short as short_of, destination as destination_of, operation_with as operation_by, reference_or, reference as reference_in};
ghost use Rattle.asm_syntax.specs.Views.{operand_of, operands_of, operation_of};

use super::lists::Operands;
use super::operands::Operand;
use super::statements::OperationLine;
use list_encoding::opcodes::Mnemonic;
use operation::{Action, Dest, Op};

/// The operand at a place, counted from 0; a name of no bytes where there is none.
fn at<'a>(operands: &Operands<'a>, place: usize) -> Operand<'a>
    ensures { operand_of result ≡ at_place place (operands_of operands.now) }
{
    match (*operands, place) {
        (Operands::One(x), 0)
        | (Operands::Two(x, _), 0)
        | (Operands::Two(_, x), 1)
        | (Operands::Three(x, _, _), 0)
        | (Operands::Three(_, x, _), 1)
        | (Operands::Three(_, _, x), 2)
        | (Operands::Four(x, _, _, _), 0)
        | (Operands::Four(_, x, _, _), 1)
        | (Operands::Four(_, _, x, _), 2)
        | (Operands::Four(_, _, _, x), 3) => x,
        _ => Operand::Named(b""),
    }
}

/// The number of a register.
fn register(operands: &Operands<'_>, place: usize) -> u8
    ensures { result ≡ number_of_operand (at_place place (operands_of operands.now)) }
{
    match at(operands, place) {
        Operand::General(n) | Operand::Predicate(n) | Operand::Target(n) => n,
        _ => 0,
    }
}

/// The 8 bits of a number from -128 to 255, 0 for any other.
pub fn byte(number: i64) -> u8
    ensures { result ≡ byte_of number }
{
    if 0 <= number && number <= 255 {
        number as u8
    } else if -128 <= number && number < 0 {
        (number as i8).cast_unsigned()
    } else {
        0
    }
}

/// The 32 bits of a number from -2147483648 to 4294967295, 0 for any other.
pub fn bits(number: i64) -> u32
    ensures { result ≡ bits_of number }
{
    if 0 <= number && number <= 4294967295 {
        number as u32
    } else if -2147483648 <= number && number < 0 {
        (number as i32).cast_unsigned()
    } else {
        0
    }
}

/// An immediate of 32 bits.
fn immediate(operands: &Operands<'_>, place: usize) -> u32
    ensures { result ≡ value_of (at_place place (operands_of operands.now)) }
{
    match at(operands, place) {
        Operand::Immediate(number) => bits(number),
        _ => 0,
    }
}

/// An immediate of 16 bits.
fn short(operands: &Operands<'_>, place: usize) -> i16
    ensures { result ≡ short_of (at_place place (operands_of operands.now)) }
{
    match at(operands, place) {
        Operand::Immediate(number) if -32768 <= number && number <= 32767 => number as i16,
        _ => 0,
    }
}

/// A compare's destination.
fn destination(operands: &Operands<'_>, place: usize) -> Dest
    ensures { result ≡ destination_of (at_place place (operands_of operands.now)) }
{
    match at(operands, place) {
        Operand::Destination(dest) => dest,
        _ => Dest {
            p: 0,
            action: Action::Un,
        },
    }
}

/// The operation that a mnemonic and its operands are.
fn with(mnemonic: Mnemonic, xs: &Operands<'_>) -> Op
    ensures { result ≡ operation_by mnemonic (operands_of xs.now) }
{
    match mnemonic {
        Mnemonic::Alu(kind) => Op::Alu(kind, register(xs, 0), register(xs, 1), register(xs, 2)),
        Mnemonic::AluImm(kind) => {
            Op::AluImm(kind, register(xs, 0), register(xs, 1), immediate(xs, 2))
        }
        Mnemonic::Pbr => Op::Pbr(register(xs, 0), immediate(xs, 1)),
        Mnemonic::Mvb => Op::Mvb(register(xs, 0), register(xs, 1)),
        Mnemonic::Mvr => Op::Mvr(register(xs, 0), register(xs, 1)),
        Mnemonic::Mul => Op::Mul(register(xs, 0), register(xs, 1), register(xs, 2)),
        Mnemonic::Div => Op::Div(register(xs, 0), register(xs, 1), register(xs, 2)),
        Mnemonic::Rem => Op::Rem(register(xs, 0), register(xs, 1), register(xs, 2)),
        Mnemonic::Load(size) => {
            Op::Load(size, register(xs, 0), register(xs, 1), immediate(xs, 2))
        }
        Mnemonic::Store(size) => {
            Op::Store(size, register(xs, 0), register(xs, 1), immediate(xs, 2))
        }
        Mnemonic::Inb => Op::Inb(register(xs, 0)),
        Mnemonic::Outb => Op::Outb(register(xs, 0)),
        Mnemonic::Cmp(test) => Op::Cmp(
            test,
            destination(xs, 0),
            destination(xs, 1),
            register(xs, 2),
            register(xs, 3),
        ),
        Mnemonic::CmpImm(test) => Op::CmpImm(
            test,
            destination(xs, 0),
            destination(xs, 1),
            register(xs, 2),
            short(xs, 3),
        ),
        Mnemonic::Bru => Op::Bru(register(xs, 0)),
        Mnemonic::Brct => Op::Brct(register(xs, 0), register(xs, 1)),
        Mnemonic::Brcf => Op::Brcf(register(xs, 0), register(xs, 1)),
        Mnemonic::Brl => Op::Brl(register(xs, 0), register(xs, 1)),
        Mnemonic::Halt => Op::Halt(register(xs, 0)),
    }
}

/// The operation of a line. A name among its operands counts as 0, and so does a number that is out of its range.
pub fn operation_with(line: &OperationLine<'_>) -> Op
    ensures operation { result ≡ operation_by line.now.mnemonic (operands_of line.now.operands) }
    ensures in_range { IsTrue (is_formed (operation_of line.now)) → IsTrue (is_in_range (unwrap_or line.now.guard 0) result) }
{
    with(line.mnemonic, &line.operands)
}

/// The name that an operand is, and else a later one.
fn name_or<'a>(operand: Operand<'a>, later: Option<&'a [u8]>) -> Option<&'a [u8]>
    ensures { option_map (λ w. w.now) result ≡ reference_or (operand_of operand.entry) (option_map (λ w. w.now) later.entry) }
{
    match operand {
        Operand::Named(name) => Some(name),
        _ => later,
    }
}

/// The first name among the operands of a line, if there is one. An operation has room for one.
pub fn reference<'a>(line: &OperationLine<'a>) -> Option<&'a [u8]>
    ensures { option_map (λ w. w.now) result ≡ reference_in (operands_of line.now.operands) }
{
    match line.operands {
        Operands::One(a) => name_or(a, None),
        Operands::Two(a, b) => name_or(a, name_or(b, None)),
        Operands::Three(a, b, c) => name_or(a, name_or(b, name_or(c, None))),
        Operands::Four(a, b, c, d) => name_or(a, name_or(b, name_or(c, name_or(d, None)))),
    }
}
