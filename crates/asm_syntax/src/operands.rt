// The operands of a line.
ghost use Rattle.std.specs.Prelude.{◌≡◌, ◌≤◌, ◌+◌, ◌*◌, ◌-◌, nat_eq, option_map, position, ◌∷◌, length, drop};
ghost use Rattle.std.specs.Bool.{OnTrue};
ghost use Rattle.asm_syntax.specs.Reading.{number_in, register_in, target_in, action_named, destination_by, predicate_in, named_by, operand_in, is_dot, word_operand as operand_of_word, behind_comma as behind_comma_in, operand_for as operand_for_in, predicate_of, guard_named as guard_by_name};
ghost use Rattle.asm_syntax.specs.Fitting.{fits as fits_in};
ghost use Rattle.asm_syntax.specs.Spellings.{is_name as is_name_word};
ghost use Rattle.asm_syntax.specs.Lexemes.{Mark};
ghost use Rattle.asm_syntax.specs.Views.{line_of, operand_of, read_of};

use super::lexemes::Lexeme;
use list_encoding::shapes::Slot;
use operation::{Action, Dest};

/// An operand as it is written.
#[derive(Clone, Copy, Debug)]
pub enum Operand<'a> {
    /// A general register's number.
    General(u8),
    /// A predicate's.
    Predicate(u8),
    /// A branch target's.
    Target(u8),
    /// A compare's destination.
    Destination(Dest),
    /// A number.
    Immediate(i64),
    /// The name behind `@`.
    Named(&'a [u8]),
}

/// The number of one or two digits, without a leading zero.
fn number(digits: &[u8]) -> Option<u8>
    ensures { result ≡ number_in digits.now }
{
    match digits {
        [a] if a.is_ascii_digit() => Some(*a - b'0'),
        [a, b] if a.is_ascii_digit() && b.is_ascii_digit() && *a >= b'1' => {
            Some(10 * (*a - b'0') + (*b - b'0'))
        }
        _ => None,
    }
}

fn register(digits: &[u8]) -> Option<u8>
    ensures { result ≡ register_in digits.now }
{
    number(digits).filter(|n| *n <= 31)
}

fn target(digits: &[u8]) -> Option<u8>
    ensures { result ≡ target_in digits.now }
{
    number(digits).filter(|n| *n <= 7)
}

fn action(name: &[u8]) -> Option<Action>
    ensures { result ≡ action_named name.now }
{
    match name {
        b"un" => Some(Action::Un),
        b"uc" => Some(Action::Uc),
        b"on" => Some(Action::On),
        b"oc" => Some(Action::Oc),
        b"an" => Some(Action::An),
        b"ac" => Some(Action::Ac),
        _ => None,
    }
}

/// The place of the first dot.
fn dot(rest: &[u8]) -> Option<usize>
    ensures { result ≡ position is_dot rest.now }
{
    rest.iter().position(|byte| *byte == b'.')
}

/// A predicate with an action behind a dot.
fn destination(p: Option<u8>, action: Option<Action>) -> Option<Operand<'static>>
    ensures { option_map operand_of result ≡ destination_by p action }
{
    Some(Operand::Destination(Dest {
        p: p?,
        action: action?,
    }))
}

/// What stands behind a `p`: a predicate's number, and behind a dot an action.
fn predicate(rest: &[u8]) -> Option<Operand<'static>>
    ensures { option_map operand_of result ≡ predicate_in rest.now }
{
    match dot(rest) {
        None => Some(Operand::Predicate(register(rest)?)),
        Some(k) => destination(register(&rest[..k]), action(&rest[k + 1..])),
    }
}

/// The register that a word names, by its letter.
fn by_letter(letter: u8, rest: &[u8]) -> Option<Operand<'static>>
    ensures { option_map operand_of result ≡ named_by letter rest.now }
{
    match letter {
        b'r' => Some(Operand::General(register(rest)?)),
        b'p' => predicate(rest),
        b'b' => Some(Operand::Target(target(rest)?)),
        _ => None,
    }
}

/// The operand that a word is.
fn word_operand(word: &[u8]) -> Option<Operand<'static>>
    ensures { option_map operand_of result ≡ operand_of_word word.now }
{
    let (letter, rest) = word.split_first()?;
    by_letter(*letter, rest)
}

/// The number of the predicate that a word names.
pub fn guard_named(word: &[u8]) -> Option<u8>
    ensures { result ≡ guard_by_name word.now }
{
    match word_operand(word)? {
        Operand::Predicate(number) => Some(number),
        _ => None,
    }
}

/// Whether a word doesn't begin with a dot.
pub fn is_name(word: &[u8]) -> bool
    ensures { result ≡ is_name_word word.now }
{
    match word.first() {
        Some(first) => *first != b'.',
        None => false,
    }
}

/// An operand, and what stands behind it on its line.
#[derive(Clone, Copy, Debug)]
pub struct Read<'l, 'a> {
    pub operand: Operand<'a>,
    pub rest: &'l [Lexeme<'a>],
}

/// The name behind an `@`.
fn named<'l, 'a>(mark: u8, rest: &'l [Lexeme<'a>]) -> Option<Read<'l, 'a>>
    ensures { option_map read_of result ≡ operand_in (Mark mark ∷ line_of rest.now) }
{
    if mark != b'@' {
        return None;
    }
    match rest.split_first() {
        Some((Lexeme::Word(word), rest)) if is_name(word) => Some(Read {
            operand: Operand::Named(word),
            rest,
        }),
        _ => None,
    }
}

/// The operand that begins a line.
fn read_operand<'l, 'a>(line: &'l [Lexeme<'a>]) -> Option<Read<'l, 'a>>
    ensures { option_map read_of result ≡ operand_in (line_of line.now) }
{
    let (first, rest) = line.split_first()?;
    match *first {
        Lexeme::Word(word) => Some(Read {
            operand: word_operand(word)?,
            rest,
        }),
        Lexeme::Number(number) => Some(Read {
            operand: Operand::Immediate(number),
            rest,
        }),
        Lexeme::Mark(mark) => named(mark, rest),
        Lexeme::Pair => None,
    }
}

/// What stands behind a comma.
pub fn behind_comma<'l, 'a>(line: &'l [Lexeme<'a>]) -> Option<&'l [Lexeme<'a>]>
    ensures { option_map (λ rest. line_of rest.now) result ≡ behind_comma_in (line_of line.now) }
{
    match line.split_first()? {
        (Lexeme::Mark(b','), rest) => Some(rest),
        _ => None,
    }
}

/// Whether an operand may stand in a slot.
fn fits(slot: Slot, operand: Operand<'_>) -> bool
    ensures { result ≡ fits_in slot (operand_of operand.entry) }
{
    matches!(
        (slot, operand),
        (Slot::R, Operand::General(_))
            | (Slot::P, Operand::Predicate(_))
            | (Slot::B, Operand::Target(_))
            | (Slot::V, Operand::Immediate(_) | Operand::Named(_))
            | (Slot::D, Operand::Destination(_))
            | (Slot::N, Operand::Immediate(_))
    )
}

/// The operand for a slot.
pub fn operand_for<'l, 'a>(slot: Slot, line: &'l [Lexeme<'a>]) -> Option<Read<'l, 'a>>
    ensures { option_map read_of result ≡ operand_for_in slot (line_of line.now) }
{
    let read = read_operand(line)?;
    if fits(slot, read.operand) {
        Some(read)
    } else {
        None
    }
}
