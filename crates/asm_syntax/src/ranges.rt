// Whether the numbers of a statement are in their ranges.
ghost use Rattle.std.specs.Prelude.{◌≡◌, drop};
ghost use Rattle.std.specs.List.{list_all};
ghost use Rattle.asm_syntax.specs.Numbers.{is_within as is_number_within, is_byte as is_byte_number};
ghost use Rattle.asm_syntax.specs.Ranges.{is_given as is_given_number, is_in_slot as is_operand_in_slot, is_in_first, are_in_slots, is_ranged as is_statement_ranged};
ghost use Rattle.asm_syntax.specs.StatementReading.{number_of};
ghost use Rattle.asm_syntax.specs.Views.{lexeme_of, numbers_of, operand_of, operands_of, statement_of};

use super::descriptions::description;
use super::lexemes::{Lexeme, number};
use super::lists::Operands;
use super::operands::Operand;
use super::statements::Statement;
use list_encoding::shapes::{Slot, slots};

fn is_within(low: i64, high: i64, number: i64) -> bool
    ensures { result ≡ is_number_within low high number }
{
    low <= number && number <= high
}

/// An optional number is from low to high.
fn is_given(low: u32, high: u32, number: Option<i64>) -> bool
    ensures { result ≡ is_given_number low high number }
{
    match number {
        None => true,
        Some(number) => is_within(low as i64, high as i64, number),
    }
}

fn are_each_bytes(numbers: &[Lexeme<'_>]) -> bool
    ensures { result ≡ list_all (λ x. is_byte_number (number_of (lexeme_of x))) numbers.now }
{
    numbers
        .iter()
        .all(|lexeme| is_within(-128, 255, number(lexeme)))
}

/// Each number is from -128 to 255.
#[tactic(auto, using(crate::proofs::Mapped::numbers_all))]
fn are_bytes(numbers: &[Lexeme<'_>]) -> bool
    ensures { result ≡ list_all is_byte_number (numbers_of numbers.now) }
{
    are_each_bytes(numbers)
}

fn is_in_slot(slot: Slot, operand: &Operand<'_>) -> bool
    ensures { result ≡ is_operand_in_slot slot (operand_of operand.now) }
{
    match (slot, operand) {
        (Slot::V, Operand::Immediate(number)) => is_within(-2147483648, 4294967295, *number),
        (Slot::N, Operand::Immediate(number)) => is_within(-32768, 32767, *number),
        _ => true,
    }
}

/// An operand that is a number is in the range of its place's slot.
fn is_in_place(slots: &[Slot], place: usize, operand: &Operand<'_>) -> bool
    ensures { result ≡ is_in_first (drop place slots.now) (operand_of operand.now) }
{
    match slots.get(place) {
        Some(slot) => is_in_slot(*slot, operand),
        None => true,
    }
}

/// The numbers among operands are in the ranges of their slots.
fn are_ranged(slots: &[Slot], operands: &Operands<'_>) -> bool
    ensures { result ≡ are_in_slots slots.now (operands_of operands.now) }
{
    match operands {
        Operands::One(a) => is_in_place(slots, 0, a),
        Operands::Two(a, b) => is_in_place(slots, 0, a) && is_in_place(slots, 1, b),
        Operands::Three(a, b, c) => {
            is_in_place(slots, 0, a) && is_in_place(slots, 1, b) && is_in_place(slots, 2, c)
        }
        Operands::Four(a, b, c, d) => {
            is_in_place(slots, 0, a)
                && is_in_place(slots, 1, b)
                && is_in_place(slots, 2, c)
                && is_in_place(slots, 3, d)
        }
    }
}

/// All numbers of a statement are in their ranges.
pub fn is_ranged(statement: &Statement<'_, '_>) -> bool
    ensures { result ≡ is_statement_ranged (statement_of statement.now) }
{
    match statement {
        Statement::Desc(numbers) => description(numbers).is_some(),
        Statement::Pages(number) => is_within(1, 256, *number),
        Statement::Bytes(numbers) => are_bytes(numbers),
        Statement::Word32(number) => is_within(-2147483648, 4294967295, *number),
        Statement::Space(number) => is_within(0, 1048576, *number),
        Statement::Block(_, at) => is_given(0, 131071, *at),
        Statement::Operation(operation) => {
            are_ranged(slots(operation.mnemonic), &operation.operands)
        }
        Statement::Stop(pause) => is_given(0, 31, *pause),
        Statement::Data(_) | Statement::End => true,
    }
}
