// What the tokens of a line say.
ghost use Rattle.std.specs.Prelude.{◌≡◌, ◌≤◌, length, option_map};
ghost use Rattle.asm_syntax.specs.Lexemes.{lexeme_at};
ghost use Rattle.asm_syntax.specs.StatementReading.{is_number as is_number_lexeme, number_of};
ghost use Rattle.asm_syntax.specs.Views.{lexeme_of};

use tnk_text::{Kind, Token};

/// What a token says.
#[derive(Clone, Copy, Debug)]
pub enum Lexeme<'a> {
    /// The bytes of a word.
    Word(&'a [u8]),
    /// The value of a number.
    Number(i64),
    /// One of `,`, `(`, `)` and `@`.
    Mark(u8),
    /// `;;`.
    Pair,
}

/// What a token of a text says, None for a line's end.
pub fn read_lexeme<'a>(text: &'a [u8], token: &Token) -> Option<Lexeme<'a>>
    requires order { token.now.start ≤ token.now.end }
    requires inside { token.now.end ≤ length text.now }
    ensures { option_map lexeme_of result ≡ lexeme_at text.now token.now }
{
    match token.kind {
        Kind::Word => Some(Lexeme::Word(&text[token.start as usize..token.end as usize])),
        Kind::Number(number) => Some(Lexeme::Number(number)),
        Kind::Mark(mark) => Some(Lexeme::Mark(mark)),
        Kind::Pair => Some(Lexeme::Pair),
        Kind::Newline => None,
    }
}

/// Whether it is a number.
pub fn is_number(lexeme: &Lexeme<'_>) -> bool
    ensures { result ≡ is_number_lexeme (lexeme_of lexeme.now) }
{
    matches!(lexeme, Lexeme::Number(_))
}

/// The value of a number, and 0 for what is none.
pub fn number(lexeme: &Lexeme<'_>) -> i64
    ensures { result ≡ number_of (lexeme_of lexeme.now) }
{
    match lexeme {
        Lexeme::Number(number) => *number,
        _ => 0,
    }
}
