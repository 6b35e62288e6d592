// The list encoding: an operation and its place in a MultiOp as one word of 64 bits, and the issue cycles of a block of
// words. It stands on tnk_base and operation.
// Its contract promises that a word has at most one reading and a reading one word (specs/Word.antt, over the table of
// opcodes and fields in specs/Opcodes.antt and specs/Fields.antt), that `decode` and `encode` find them, and that
// `times` sums the cycles of the MultiOps (specs/Times.antt). The guarded operation of a word is a function too
// (specs/Reading.antt), and so is the word of an operation (specs/Written.antt). Beside the opcodes stand each operation's
// name and the operands that it is written with (specs/Names.antt, specs/Shapes.antt): `name` and `named` go from one to
// the other. `laws` says what holds of these definitions.
#![tactic(auto)]

ghost use Rattle.std.specs.Prelude.{◌<◌};

mod bits;
pub mod fields;
pub mod laws;
pub mod names;
pub mod opcodes;
pub mod shapes;
mod timing;
mod word;

use operation::Guarded;
pub use timing::{Timed, times};
pub use word::{decode, encode, is_head, pause};

/// The reading of a word: an operation, and its place in a MultiOp.
#[derive(Clone, Copy, Debug, PartialEq, Eq)]
pub struct Coded {
    /// Whether the operation begins a MultiOp.
    pub head: bool,
    /// The number in the unit field, which need not be that of the operation's unit kind.
    pub unit: u8,
    /// How many empty cycles follow the MultiOp; it counts where the operation begins one.
    pub pause: u8,
    /// The operation and its guard.
    pub guarded: Guarded,
    pub ghost unit_in_range: { unit < 16 },
    pub ghost pause_in_range: { pause < 32 },
}
