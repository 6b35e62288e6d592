// The machine of one context, which plays blocks MultiOp by MultiOp.
//
// It stands on `block_steps`, which says what one step of a block is, on `timed_meaning` for operations with their times, and on
// `operation` for what an operation does. A `Machine` holds an updated state and a delay wheel: 32 slots, one for each
// cycle to come, of what lands in it. When the clock moves, the slots of the cycles that pass are emptied into the state. It is
// handed a block's operations with their times, so that words are read once and not whenever they issue. Contracts
// see the machine as its moment in the present block (specs/Machine.antt): that of `issue` is the step of the block, and
// says where the machine stands behind it. `new` takes all memory. How slots are writes in flight is private
// (specs/Wheel.antt). `laws` says which blocks are played, and where one begins.
#![tactic(auto)]

mod issue;
pub mod laws;
mod machine;
mod multi_op;
mod registers;
mod wheel;

pub use machine::Machine;
use operation::Trap;

/// How a MultiOp's issue comes out.
#[derive(Clone, Copy, Debug, PartialEq, Eq)]
pub enum Issued {
    /// The block goes on, with the MultiOp whose head stands at this place.
    Going(u16),
    /// The block has ended, and control goes to this address.
    BlockEnd(u32),
    /// The block has ended, and so has the program, with this code.
    Halted(u32),
    /// The operation at this place traps.
    Trapped(u16, Trap),
}
