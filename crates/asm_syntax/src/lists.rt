// The operands of a mnemonic, in order.
ghost use Rattle.std.specs.Prelude.{◌≡◌, ◌≤◌, length, [], ◌∷◌, option_map, option_and_then};
ghost use Rattle.asm_syntax.specs.Reading.{next_operand, further_operands, operands_in};
ghost use Rattle.asm_syntax.specs.Views.{line_of, read_of, operands_of};

use super::lexemes::Lexeme;
use super::operands::{Operand, Read, behind_comma, operand_for};
use list_encoding::shapes::Slot;

/// The operands of an operation, in order.
#[derive(Clone, Copy, Debug)]
pub enum Operands<'a> {
    One(Operand<'a>),
    Two(Operand<'a>, Operand<'a>),
    Three(Operand<'a>, Operand<'a>, Operand<'a>),
    Four(Operand<'a>, Operand<'a>, Operand<'a>, Operand<'a>),
}

/// The operand for a slot, behind a comma.
fn next<'l, 'a>(slot: Slot, line: &'l [Lexeme<'a>]) -> Option<Read<'l, 'a>>
    ensures { option_map read_of result ≡ next_operand slot (line_of line.now) }
{
    operand_for(slot, behind_comma(line)?)
}

/// Operands, where the line ends behind them.
fn whole<'a>(operands: Operands<'a>, rest: &[Lexeme<'a>]) -> Option<Operands<'a>>
    ensures { option_map operands_of result ≡ option_map (λ xs. operands_of operands.entry) (further_operands [] (line_of rest.now)) }
{
    if rest.is_empty() {
        Some(operands)
    } else {
        None
    }
}

fn one<'a>(slot: Slot, line: &[Lexeme<'a>]) -> Option<Operands<'a>>
    ensures { option_map operands_of result ≡ operands_in (slot ∷ []) (line_of line.now) }
{
    let first = operand_for(slot, line)?;
    whole(Operands::One(first.operand), first.rest)
}

fn two<'a>(a: Slot, b: Slot, line: &[Lexeme<'a>]) -> Option<Operands<'a>>
    ensures { option_map operands_of result ≡ operands_in (a ∷ (b ∷ [])) (line_of line.now) }
{
    let first = operand_for(a, line)?;
    let second = next(b, first.rest)?;
    whole(Operands::Two(first.operand, second.operand), second.rest)
}

fn three<'a>(a: Slot, b: Slot, c: Slot, line: &[Lexeme<'a>]) -> Option<Operands<'a>>
    ensures { option_map operands_of result ≡ operands_in (a ∷ (b ∷ (c ∷ []))) (line_of line.now) }
{
    let first = operand_for(a, line)?;
    let second = next(b, first.rest)?;
    let third = next(c, second.rest)?;
    whole(
        Operands::Three(first.operand, second.operand, third.operand),
        third.rest,
    )
}

fn four<'a>(a: Slot, b: Slot, c: Slot, d: Slot, line: &[Lexeme<'a>]) -> Option<Operands<'a>>
    ensures { option_map operands_of result ≡ operands_in (a ∷ (b ∷ (c ∷ (d ∷ [])))) (line_of line.now) }
{
    let first = operand_for(a, line)?;
    let second = next(b, first.rest)?;
    let third = next(c, second.rest)?;
    let fourth = next(d, third.rest)?;
    whole(
        Operands::Four(first.operand, second.operand, third.operand, fourth.operand),
        fourth.rest,
    )
}

/// The operands for slots, with commas between, up to the line's end.
pub fn read_operands<'a>(slots: &[Slot], line: &[Lexeme<'a>]) -> Option<Operands<'a>>
    requires { length slots.now ≤ 4 }
    ensures { option_map operands_of result ≡ operands_in slots.now (line_of line.now) }
{
    match slots {
        [a] => one(*a, line),
        [a, b] => two(*a, *b, line),
        [a, b, c] => three(*a, *b, *c, line),
        [a, b, c, d] => four(*a, *b, *c, *d, line),
        _ => None,
    }
}
