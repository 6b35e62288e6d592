// The blocks of a text, the words of their operations, and which of these refer to names.
ghost use Rattle.std.specs.Prelude.{◌≡◌, ◌+◌, ◌++◌, ◌<◌, ◌≤◌, ◌⊎◌, nat_le, [], ◌∷◌, length, map, false, IfErr, OnOk};
ghost use Rattle.operation.specs.Places.{unit_kind, unit_number as unit_number_of};
ghost use Rattle.vliw_asm.specs.declared.stop.Stop.{Stop};
ghost use Rattle.vliw_asm.specs.declared.stop.Cause.{Cause};
ghost use Rattle.vliw_asm.specs.Blocks.{word_at as word_of_op, multi_op_words};
ghost use Rattle.vliw_asm.specs.Gathered.{operations_of};

use super::stop::{Cause, Stop};
use list_encoding::{Coded, encode};
use object_format::ObjBlock;
use operation::{Guarded, Op, unit};
use std::alloc::Global;

/// The most operations of a block.
const BLOCK_LIMIT: u16 = 512;

/// The most operations of an object.
const OPERATIONS_LIMIT: usize = 131_072;

/// Blocks with their operations.
#[derive(Drop)]
pub struct Code {
    /// The blocks that have ended.
    blocks: Vec<ObjBlock>,
    /// The block that began last, so far.
    block: ObjBlock,
    /// The words of the MultiOps that have ended.
    words: Vec<u64>,
    /// The operations of the MultiOp that is begun.
    begun: Vec<Guarded>,
    /// The operations that refer to names: an operation's number and a name's.
    refs: Vec<(u32, u32)>,
}

/// The number of the unit kind that an operation takes.
fn unit_number(op: &Op) -> u8
    ensures number { result ≡ unit_number_of (unit_kind op.now) }
    ensures range { result < 16 }
{
    unit(op) as u8
}

/// The word of an operation.
fn word(head: bool, pause: u8, guarded: Guarded) -> u64
    requires { pause < 32 }
    ensures { result ≡ word_of_op head pause (guarded.guard, guarded.op) }
{
    encode(&Coded {
        head,
        unit: unit_number(&guarded.op),
        pause,
        guarded,
    })
}

/// The words of the operations behind a MultiOp's first.
fn push_others(words: &mut Vec<u64>, operations: &[Guarded]) -> Result<(), Stop>
    ensures stop { IfErr result (λ why. why ≡ Stop.NoMemory) }
    ensures words { OnOk result (words.new.items ≡ words.old.items ++ map (word_of_op false 0) (operations_of operations.now)) }
{
    for operation in operations {
        words.push(word(false, 0, *operation))?;
    }
    Ok(())
}

/// The words of a MultiOp: its first operation is its head, and has its pause.
fn push_multi_op(words: &mut Vec<u64>, pause: u8, operations: &[Guarded]) -> Result<(), Stop>
    requires { pause < 32 }
    ensures stop { IfErr result (λ why. why ≡ Stop.NoMemory) }
    ensures words { OnOk result (words.new.items ≡ words.old.items ++ multi_op_words pause (operations_of operations.now)) }
{
    let Some((first, others)) = operations.split_first() else {
        return Ok(());
    };
    words.push(word(true, pause, *first))?;
    push_others(words, others)
}

impl Code {
    /// No blocks.
    pub fn new(alloc: Global) -> Self
        ensures blocks { result.blocks.items ≡ [] }
        ensures words { result.words.items ≡ [] }
        ensures begun { result.begun.items ≡ [] }
        ensures refs { result.refs.items ≡ [] }
    {
        Code {
            blocks: Vec::new(alloc),
            block: ObjBlock {
                name: 0,
                at: None,
                count: 0,
            },
            words: Vec::new(alloc),
            begun: Vec::new(alloc),
            refs: Vec::new(alloc),
        }
    }

    /// A block begins, at its address where it is fixed.
    pub fn begin(&mut self, name: u32, at: Option<u32>)
        ensures block { self.new.block ≡ record { name = name; at = at; count = 0 } }
        ensures blocks { self.new.blocks ≡ self.old.blocks }
        ensures words { self.new.words ≡ self.old.words }
        ensures begun { self.new.begun ≡ self.old.begun }
        ensures refs { self.new.refs ≡ self.old.refs }
    {
        self.block = ObjBlock { name, at, count: 0 };
    }

    /// Whether the block has all operations that it may have.
    pub fn is_full(&self) -> bool
        ensures { result ≡ nat_le 512 self.now.block.count }
    {
        self.block.count >= BLOCK_LIMIT
    }

    /// How many operations there are.
    fn count(&self) -> usize
        ensures { result ≡ length self.now.words.items + length self.now.begun.items }
    {
        self.words.len() + self.begun.len()
    }

    /// The operation that comes next refers to a name.
    pub fn refer(&mut self, name: u32) -> Result<(), Stop>
        requires { length self.old.words.items + length self.old.begun.items ≤ 131072 }
        ensures stop { IfErr result (λ why. why ≡ Stop.NoMemory) }
        ensures refs { OnOk result (self.new.refs.items
            ≡ self.old.refs.items ++ (length self.old.words.items + length self.old.begun.items, name) ∷ []) }
        ensures block { self.new.block ≡ self.old.block }
        ensures blocks { self.new.blocks ≡ self.old.blocks }
        ensures words { self.new.words ≡ self.old.words }
        ensures begun { self.new.begun ≡ self.old.begun }
    {
        let number = self.count() as u32;
        self.refs.push((number, name))?;
        Ok(())
    }

    /// An operation joins the MultiOp that is begun.
    pub fn add(&mut self, guarded: Guarded) -> Result<(), Stop>
        requires { self.old.block.count < 512 }
        ensures stop { IfErr result (λ why. (why ≡ Stop.NoMemory)
            ⊎ ((why ≡ Stop.Faulty Cause.Limit) × (131072 ≤ length self.old.words.items + length self.old.begun.items))) }
        ensures room { OnOk result (length self.old.words.items + length self.old.begun.items < 131072) }
        ensures begun { OnOk result (self.new.begun.items ≡ self.old.begun.items ++ guarded ∷ []) }
        ensures block { OnOk result (self.new.block ≡ record self.old.block { count = self.old.block.count + 1 }) }
        ensures blocks { self.new.blocks ≡ self.old.blocks }
        ensures words { self.new.words ≡ self.old.words }
        ensures refs { self.new.refs ≡ self.old.refs }
    {
        if self.count() >= OPERATIONS_LIMIT {
            return Err(Stop::Faulty(Cause::Limit));
        }
        self.begun.push(guarded)?;
        self.block.count += 1;
        Ok(())
    }

    /// The MultiOp that is begun ends, and so many empty cycles follow it.
    pub fn stop(&mut self, pause: u8) -> Result<(), Stop>
        requires { pause < 32 }
        ensures stop { IfErr result (λ why. why ≡ Stop.NoMemory) }
        ensures words { OnOk result (self.new.words.items ≡ self.old.words.items ++ multi_op_words pause (operations_of self.old.begun.items)) }
        ensures begun { OnOk result (self.new.begun.items ≡ []) }
        ensures block { self.new.block ≡ self.old.block }
        ensures blocks { self.new.blocks ≡ self.old.blocks }
        ensures refs { self.new.refs ≡ self.old.refs }
    {
        push_multi_op(&mut self.words, pause, &self.begun)?;
        self.begun.clear();
        Ok(())
    }

    /// The block ends.
    pub fn end(&mut self) -> Result<(), Stop>
        ensures stop { IfErr result (λ why. why ≡ Stop.NoMemory) }
        ensures blocks { OnOk result (self.new.blocks.items ≡ self.old.blocks.items ++ self.old.block ∷ []) }
        ensures block { self.new.block ≡ self.old.block }
        ensures words { self.new.words ≡ self.old.words }
        ensures begun { self.new.begun ≡ self.old.begun }
        ensures refs { self.new.refs ≡ self.old.refs }
    {
        self.blocks.push(self.block)?;
        Ok(())
    }
}
