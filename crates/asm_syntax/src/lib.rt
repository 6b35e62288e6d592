// The lines of the assembly language, each by itself. It stands on `tnk_text`, whose tokens its lines are made of, on
// `operation` and `list_encoding` for the operations, their names and the kinds of their operands, and on `machine_desc` for
// descriptions. Where a statement may stand, and what a whole text means, is said above.
// The language is one table, from a statement to its line (specs/Statements.antt, over Spellings, Operands and Fitting). Its
// contract promises that `begin` finds what a line begins (specs/Beginnings.antt) and `statement_behind` the statement that
// it goes on to (specs/StatementReading.antt), that `is_ranged` tells whether its numbers are in range (specs/Ranges.antt),
// and that `operation_with` gives the operation (specs/Meanings.antt). `laws` says that a line is read as a statement exactly
// where it is the statement's line, and that it is the line of one statement at most.
#![tactic(auto)]

pub mod beginnings;
pub mod descriptions;
pub mod heads;
pub mod laws;
pub mod lexemes;
pub mod lists;
pub mod meanings;
pub mod operands;
pub mod ranges;
pub mod statements;

/// Why a line begins no statement.
#[derive(Clone, Copy, Debug, PartialEq, Eq)]
pub enum Unbegun {
    /// It begins neither with a statement's word nor with `(` nor with `;;`, or behind its guard stands no mnemonic.
    Mnemonic,
    /// It begins with `(`, and that with no guard.
    Operand,
}
