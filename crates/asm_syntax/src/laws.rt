// What holds of the language, each as the contract of a function that does nothing.
ghost use Rattle.asm_syntax.specs.Laws.{StatementLines, OneStatement, KindKept};

/// A line is read as a statement exactly where it says it.
pub fn statement_lines()
    ensures { StatementLines }
{}

/// A line says one statement at most.
pub fn one_statement()
    ensures { OneStatement }
{}

/// A statement is of the kind that its line begins.
pub fn kind_kept()
    ensures { KindKept }
{}
