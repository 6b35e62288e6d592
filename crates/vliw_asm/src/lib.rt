// Parts of the assembler. What a text means is said behind the statements before each line: where a statement may stand and what it
// breaks (specs/Places.antt, specs/Causes.antt), and which object the statements make, by looking back over them (specs/Names.antt,
// specs/Blocks.antt, specs/Data.antt, specs/Assembly.antt). The parts in which an object is gathered stand here with their contracts:
// names, code and data. The walk over a text's lines that puts them together is still to come.
// It stands on `asm_syntax` for what a line says, on `list_encoding` for the words of operations, on `object_format` for blocks, and on
// `indexmap` for names in order of first appearance.
#![tactic(auto)]

mod code;
mod data;
mod names;
mod stop;

pub use stop::Cause;
