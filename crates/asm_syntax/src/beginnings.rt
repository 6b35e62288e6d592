// What a line begins.
ghost use Rattle.std.specs.Prelude.{◌≡◌};
ghost use Rattle.list_encoding.specs.Names.{mnemonic_named};
ghost use Rattle.asm_syntax.specs.Reading.{guard_named as guard_by_name};
ghost use Rattle.asm_syntax.specs.Beginnings.{directive_named, operation_begun, word_begun, behind_guard as behind_guard_in, guarded as guarded_in, in_guard as in_guard_of, begun_by, kind_of};
ghost use Rattle.asm_syntax.specs.Views.{line_of, begun_of, begun_result};

use super::Unbegun;
use super::heads::Head;
use super::lexemes::Lexeme;
use super::operands::guard_named;
use list_encoding::names::named;
use list_encoding::opcodes::Mnemonic;

/// What a line begins, and the lexemes behind that.
#[derive(Clone, Copy, Debug)]
pub enum Beginning<'l, 'a> {
    /// An operation: the number of its guard, where one is written, and its mnemonic.
    Operation(Option<u8>, Mnemonic, &'l [Lexeme<'a>]),
    /// A statement of another kind.
    Other(Head, &'l [Lexeme<'a>]),
}

/// The kind of statement.
pub fn head(beginning: &Beginning<'_, '_>) -> Head
    ensures { result ≡ kind_of (begun_of beginning.now) }
{
    match beginning {
        Beginning::Operation(..) => Head::Operation,
        Beginning::Other(head, _) => *head,
    }
}

/// The kind of statement whose word it is, beside the mnemonics.
fn directive(word: &[u8]) -> Option<Head>
    ensures { result ≡ directive_named word.now }
{
    match word {
        b".desc" => Some(Head::Desc),
        b".pages" => Some(Head::Pages),
        b".data" => Some(Head::Data),
        b".byte" => Some(Head::Bytes),
        b".word" => Some(Head::Word32),
        b".space" => Some(Head::Space),
        b".block" => Some(Head::Block),
        b".end" => Some(Head::End),
        _ => None,
    }
}

/// An operation, if the word is a mnemonic.
fn operation<'l, 'a>(
    guard: Option<u8>,
    word: &[u8],
    rest: &'l [Lexeme<'a>],
) -> Result<Beginning<'l, 'a>, Unbegun>
    ensures { begun_result result ≡ operation_begun guard (mnemonic_named word.now) (line_of rest.now) }
{
    match named(word) {
        Some(mnemonic) => Ok(Beginning::Operation(guard, mnemonic, rest)),
        None => Err(Unbegun::Mnemonic),
    }
}

/// What a word begins.
fn by_word<'l, 'a>(word: &[u8], rest: &'l [Lexeme<'a>]) -> Result<Beginning<'l, 'a>, Unbegun>
    ensures { begun_result result ≡ word_begun (directive_named word.now) word.now (line_of rest.now) }
{
    match directive(word) {
        Some(head) => Ok(Beginning::Other(head, rest)),
        None => operation(None, word, rest),
    }
}

/// What stands behind a guard.
fn behind_guard<'l, 'a>(guard: u8, line: &'l [Lexeme<'a>]) -> Result<Beginning<'l, 'a>, Unbegun>
    ensures { begun_result result ≡ behind_guard_in guard (line_of line.now) }
{
    match line.split_first() {
        Some((Lexeme::Word(word), rest)) => operation(Some(guard), word, rest),
        _ => Err(Unbegun::Mnemonic),
    }
}

/// What the word of a predicate, and a mark that should be `)`, guard.
fn guarded<'l, 'a>(
    word: &[u8],
    mark: u8,
    rest: &'l [Lexeme<'a>],
) -> Result<Beginning<'l, 'a>, Unbegun>
    ensures { begun_result result ≡ guarded_in (guard_by_name word.now) mark (line_of rest.now) }
{
    match guard_named(word) {
        Some(guard) if mark == b')' => behind_guard(guard, rest),
        _ => Err(Unbegun::Operand),
    }
}

/// What stands behind `(`.
fn in_guard<'l, 'a>(line: &'l [Lexeme<'a>]) -> Result<Beginning<'l, 'a>, Unbegun>
    ensures { begun_result result ≡ in_guard_of (line_of line.now) }
{
    match line {
        [Lexeme::Word(word), Lexeme::Mark(mark), rest @ ..] => guarded(word, *mark, rest),
        _ => Err(Unbegun::Operand),
    }
}

/// What a line begins, or why it begins no statement.
pub fn begin<'l, 'a>(line: &'l [Lexeme<'a>]) -> Result<Beginning<'l, 'a>, Unbegun>
    ensures { begun_result result ≡ begun_by (line_of line.now) }
{
    match line.split_first() {
        Some((Lexeme::Word(word), rest)) => by_word(word, rest),
        Some((Lexeme::Mark(b'('), rest)) => in_guard(rest),
        Some((Lexeme::Pair, rest)) => Ok(Beginning::Other(Head::Stop, rest)),
        _ => Err(Unbegun::Mnemonic),
    }
}
