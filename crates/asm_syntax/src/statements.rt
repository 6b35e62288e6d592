// The statement of a line.
ghost use Rattle.std.specs.Prelude.{◌≡◌, option_map};
ghost use Rattle.std.specs.List.{list_all};
ghost use Rattle.list_encoding.specs.Shapes.{slots_of};
ghost use Rattle.asm_syntax.specs.declared.heads.Head.TheVariants.{Desc, Data, Bytes, Block, Stop, End};
ghost use Rattle.asm_syntax.specs.Reading.{operands_in};
ghost use Rattle.asm_syntax.specs.Statements.{Operation};
ghost use Rattle.asm_syntax.specs.StatementReading.{is_number as is_number_lexeme, numbers_in, number_in, statement_of as statement_of_kind, statement_behind as statement_behind_in};
ghost use Rattle.asm_syntax.specs.Views.{lexeme_of, line_of, numbers_of, begun_of, statement_of};

use super::beginnings::Beginning;
use super::heads::Head;
use super::lexemes::{Lexeme, is_number};
use super::lists::{Operands, read_operands};
use super::operands::is_name;
use list_encoding::opcodes::Mnemonic;
use list_encoding::shapes::slots;

/// An operation as a line writes it.
#[derive(Clone, Copy, Debug)]
pub struct OperationLine<'a> {
    /// The number of the guarding predicate, where a guard is written.
    pub guard: Option<u8>,
    pub mnemonic: Mnemonic,
    pub operands: Operands<'a>,
}

/// A statement as a line writes it. Names are parts of the text, and many numbers are a part of the line.
#[derive(Clone, Copy, Debug)]
pub enum Statement<'l, 'a> {
    /// The description: its numbers.
    Desc(&'l [Lexeme<'a>]),
    /// The least number of pages.
    Pages(i64),
    /// A label's name.
    Data(&'a [u8]),
    /// Bytes.
    Bytes(&'l [Lexeme<'a>]),
    /// Four bytes, as a number.
    Word32(i64),
    /// How many zero bytes.
    Space(i64),
    /// The name of a block, and its address where it is given.
    Block(&'a [u8], Option<i64>),
    /// An operation.
    Operation(OperationLine<'a>),
    /// The end of a MultiOp, and its pause where it is given.
    Stop(Option<i64>),
    /// The end of a block.
    End,
}

fn are_each_numbers(line: &[Lexeme<'_>]) -> bool
    ensures { result ≡ list_all (λ x. is_number_lexeme (lexeme_of x)) line.now }
{
    line.iter().all(|lexeme| is_number(lexeme))
}

/// All are numbers.
#[tactic(auto, using(crate::proofs::Mapped::lexemes_all))]
fn are_numbers(line: &[Lexeme<'_>]) -> bool
    ensures { result ≡ list_all is_number_lexeme (line_of line.now) }
{
    are_each_numbers(line)
}

/// Numbers alone, to the line's end.
fn numbers<'l, 'a>(line: &'l [Lexeme<'a>]) -> Option<&'l [Lexeme<'a>]>
    ensures { option_map (λ ns. numbers_of ns.now) result ≡ numbers_in (line_of line.now) }
{
    if are_numbers(line) { Some(line) } else { None }
}

/// One number alone.
fn number(line: &[Lexeme<'_>]) -> Option<i64>
    ensures { result ≡ number_in (line_of line.now) }
{
    match line {
        [Lexeme::Number(number)] => Some(*number),
        _ => None,
    }
}

/// The description of fifteen or twenty-four numbers.
fn description<'l, 'a>(line: &'l [Lexeme<'a>]) -> Option<Statement<'l, 'a>>
    ensures { option_map statement_of result ≡ statement_of_kind Desc (line_of line.now) }
{
    let numbers = numbers(line)?;
    if numbers.len() == 15 || numbers.len() == 24 {
        Some(Statement::Desc(numbers))
    } else {
        None
    }
}

/// Bytes, one at least.
fn bytes<'l, 'a>(line: &'l [Lexeme<'a>]) -> Option<Statement<'l, 'a>>
    ensures { option_map statement_of result ≡ statement_of_kind Bytes (line_of line.now) }
{
    let numbers = numbers(line)?;
    if numbers.is_empty() {
        None
    } else {
        Some(Statement::Bytes(numbers))
    }
}

/// A label: its name alone.
fn label<'l, 'a>(line: &'l [Lexeme<'a>]) -> Option<Statement<'l, 'a>>
    ensures { option_map statement_of result ≡ statement_of_kind Data (line_of line.now) }
{
    match line {
        [Lexeme::Word(name)] if is_name(name) => Some(Statement::Data(name)),
        _ => None,
    }
}

/// A block: its name, and its address behind `@`.
fn block<'l, 'a>(line: &'l [Lexeme<'a>]) -> Option<Statement<'l, 'a>>
    ensures { option_map statement_of result ≡ statement_of_kind Block (line_of line.now) }
{
    match line {
        [Lexeme::Word(name)] if is_name(name) => Some(Statement::Block(name, None)),
        [Lexeme::Word(name), Lexeme::Mark(b'@'), Lexeme::Number(at)] if is_name(name) => {
            Some(Statement::Block(name, Some(*at)))
        }
        _ => None,
    }
}

/// The end of a MultiOp: nothing, or its pause.
fn stop<'l, 'a>(line: &'l [Lexeme<'a>]) -> Option<Statement<'l, 'a>>
    ensures { option_map statement_of result ≡ statement_of_kind Stop (line_of line.now) }
{
    match line {
        [] => Some(Statement::Stop(None)),
        [Lexeme::Word(b"pause"), Lexeme::Number(pause)] => Some(Statement::Stop(Some(*pause))),
        _ => None,
    }
}

/// The end of a block: nothing.
fn end<'l, 'a>(line: &'l [Lexeme<'a>]) -> Option<Statement<'l, 'a>>
    ensures { option_map statement_of result ≡ statement_of_kind End (line_of line.now) }
{
    match line {
        [] => Some(Statement::End),
        _ => None,
    }
}

/// A statement of a kind, by what stands behind its word.
fn other<'l, 'a>(head: Head, line: &'l [Lexeme<'a>]) -> Option<Statement<'l, 'a>>
    ensures { option_map statement_of result ≡ statement_of_kind head (line_of line.now) }
{
    match head {
        Head::Desc => description(line),
        Head::Pages => Some(Statement::Pages(number(line)?)),
        Head::Data => label(line),
        Head::Bytes => bytes(line),
        Head::Word32 => Some(Statement::Word32(number(line)?)),
        Head::Space => Some(Statement::Space(number(line)?)),
        Head::Block => block(line),
        Head::Operation => None,
        Head::Stop => stop(line),
        Head::End => end(line),
    }
}

/// An operation of a mnemonic, by what stands behind it.
fn operation<'l, 'a>(
    guard: Option<u8>,
    mnemonic: Mnemonic,
    line: &'l [Lexeme<'a>],
) -> Option<Statement<'l, 'a>>
    ensures { option_map statement_of result ≡ option_map (λ xs. Operation guard mnemonic xs) (operands_in (slots_of mnemonic) (line_of line.now)) }
{
    let operands = read_operands(slots(mnemonic), line)?;
    Some(Statement::Operation(OperationLine {
        guard,
        mnemonic,
        operands,
    }))
}

/// The statement that goes on from what a line begins, None where its lexemes are no statement's.
pub fn statement_behind<'l, 'a>(beginning: &Beginning<'l, 'a>) -> Option<Statement<'l, 'a>>
    ensures { option_map statement_of result ≡ statement_behind_in (begun_of beginning.now) }
{
    match *beginning {
        Beginning::Operation(guard, mnemonic, rest) => operation(guard, mnemonic, rest),
        Beginning::Other(head, rest) => other(head, rest),
    }
}
