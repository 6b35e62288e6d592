// What a program means cycle by cycle, under the latencies that it was made for.
//
// It stands on `operation`, which says what one operation does. Here are the value of a place at a time, looked up in a
// list of timed writes (specs/Values.antt), what a block does (Block), what a program does (Program), how many cycles
// that takes (Cycles), and which programs are sound (Sound). `meaning` is the plain evaluator: it runs one block after
// another, and its contract says that it answers what `mean` of Program.antt defines. `meant_with_cycles` answers the
// cycles too. The last functions hold laws of these definitions.
#![tactic(auto)]

ghost use Rattle.timed_meaning.specs.Values.{LooksBackFromEarlier};
ghost use Rattle.timed_meaning.specs.Block.{RunsInParts};
ghost use Rattle.timed_meaning.specs.Program.{GoesOnFromAfter, EndsByItsBound};
ghost use Rattle.timed_meaning.specs.Cycles.{TakesNoMoreOnceEnded};
ghost use Rattle.timed_meaning.specs.Sound.{SoundIsInRange};

mod cells;
mod evaluate;
mod issue;
mod settle;
mod values;

pub use evaluate::{meaning, meant_with_cycles};
use operation::{End, Guarded, Place};

/// What holds one value: a register, predicate or target, or a byte of memory by its address.
#[derive(Clone, Copy)]
pub enum Cell {
    At(Place),
    Byte(u32),
}

/// A value that a cell has from a cycle of its block on.
#[derive(Clone, Copy)]
pub struct Write {
    pub cell: Cell,
    pub value: u32,
    pub lands: u32,
}

/// Where control goes at a block's end: to the next row of the block table, to an address, or nowhere with a code.
#[derive(Clone, Copy)]
pub enum Answer {
    GoOn,
    GoTo(u32),
    Stop(u32),
}

/// An operation with its issue cycle in its block, counted from 0, and its latency, 1 to 32 cycles. It reads what has
/// landed at or before `at`, and what it writes lands at `at + latency`.
#[derive(Clone, Copy)]
pub struct TimedOp {
    pub guarded: Guarded,
    pub at: u32,
    pub latency: u8,
}

/// A block of 1 to 512 operations in list order, in which the issue cycles never fall. `entry` is the address of its
/// first word, `next` the entry of the block after it, None at the last, and `end` the number of its cycles.
#[derive(Drop)]
pub struct TimedBlock {
    pub entry: u32,
    pub next: Option<u32>,
    pub ops: Vec<TimedOp>,
    pub end: u32,
}

/// A program: its blocks by rising entries, the entry at which it begins, the size of data memory, 0 to 1,048,576
/// bytes, and memory's initial bytes, which zeros follow.
#[derive(Drop)]
pub struct Program {
    pub blocks: Vec<TimedBlock>,
    pub entry: u32,
    pub memory: u32,
    pub init: Vec<u8>,
}

/// What a run comes to: how it ends, how many blocks have ended, the bytes put out, and all bytes of data memory.
/// A block that halts or goes to no entry counts, and one that another trap stops doesn't.
#[derive(Drop)]
pub struct Meant {
    pub end: End,
    pub blocks: u32,
    pub output: Vec<u8>,
    pub memory: Vec<u8>,
}

/// A list of operations may be run in two parts.
pub fn runs_in_parts()
    ensures { RunsInParts }
{}

/// A value may be looked up from an earlier cycle on.
pub fn looks_back_from_earlier()
    ensures { LooksBackFromEarlier }
{}

/// A run goes on from the state after some of its blocks.
pub fn goes_on_from_after()
    ensures { GoesOnFromAfter }
{}

/// A run ends by its bound exactly where the program has no end within it.
pub fn ends_by_its_bound()
    ensures { EndsByItsBound }
{}

/// A run that has ended takes no more cycles under a greater bound.
pub fn takes_no_more_once_ended()
    ensures { TakesNoMoreOnceEnded }
{}

/// The evaluator takes each sound program.
pub fn sound_is_in_range()
    ensures { SoundIsInRange }
{}
