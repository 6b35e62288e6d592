// One operation issues, and a list of them up to the first trap.
ghost use Rattle.std.specs.Prelude.{◌≡◌, ◌<◌, ◌≤◌, ◌+◌, ◌++◌, ◌^◌, [], reverse, length, slice_get, IfOk, OnOk, IfNone, IfSome, All};
ghost use Rattle.timed_meaning.specs.Evaluator.{start_of, progress_of, acted, ran_to, StaysInside};
ghost use Rattle.timed_meaning.specs.Block.{to_place, to_predicate, to_predicates, bytes_at, input_or_ones, how_many, landing, act, issued, run as run_list};

use super::cells::{Cells, number_at, operands_at};
use super::{Answer, Cell, TimedOp, Write};
use operation::numbers::{bytes, extend};
use operation::{Effect, Op, Place, Trap, evaluate, is_constant};
use std::alloc::{AllocError, Global};

/// What the operations of a block have done. The list of writes has the latest listed last.
#[derive(Drop)]
pub struct Work {
    pub count: u32,
    pub writes: Vec<Write>,
    pub output: Vec<u8>,
    pub position: usize,
    pub answer: Answer,
}

impl Work {
    /// Before the first block.
    pub fn new(alloc: Global) -> Self
        ensures output { result.output.items ≡ [] }
        ensures position { result.position ≡ 0 }
    {
        Work {
            count: 0,
            writes: Vec::new(alloc),
            output: Vec::new(alloc),
            position: 0,
            answer: Answer::GoOn,
        }
    }

    /// Before the operations of a block: only the output and the input position stay.
    pub fn begin(&mut self)
        ensures count { self.new.count ≡ 0 }
        ensures writes { self.new.writes.items ≡ [] }
        ensures output { self.new.output.items ≡ self.old.output.items }
        ensures position { self.new.position ≡ self.old.position }
        ensures answer { self.new.answer ≡ Answer.GoOn }
    {
        self.count = 0;
        self.writes.clear();
        self.answer = Answer::GoOn;
    }
}

/// Adds the write of a value to a place.
fn push_place(
    writes: &mut Vec<Write>,
    lands: u32,
    place: Place,
    value: u32,
) -> Result<(), AllocError>
    ensures { OnOk result (reverse writes.new.items ≡ landing lands (to_place place value) ++ reverse writes.old.items) }
{
    if !is_constant(place) {
        writes.push(Write {
            cell: Cell::At(place),
            value,
            lands,
        })?;
    }
    Ok(())
}

/// Adds the write of a compare to a predicate.
fn push_predicate(
    writes: &mut Vec<Write>,
    lands: u32,
    p: u8,
    value: Option<bool>,
) -> Result<(), AllocError>
    ensures { OnOk result (reverse writes.new.items ≡ landing lands (to_predicate p value) ++ reverse writes.old.items) }
{
    match value {
        Some(true) => push_place(writes, lands, Place::Predicate(p), 1),
        Some(false) => push_place(writes, lands, Place::Predicate(p), 0),
        None => Ok(()),
    }
}

/// Adds the writes of the low bytes of a number, from an address on.
#[tactic(auto, using(crate::proofs::Numbers::bytes_more))]
fn push_bytes(
    writes: &mut Vec<Write>,
    lands: u32,
    address: u32,
    n: u32,
    value: u32,
) -> Result<(), AllocError>
    requires { address + n < 2 ^ 32 }
    ensures { OnOk result (reverse writes.new.items ≡ landing lands (bytes_at address n value) ++ reverse writes.old.items) }
{
    if n > 0 {
        push_bytes(writes, lands, address + 1, n - 1, value / 256)?;
        writes.push(Write {
            cell: Cell::Byte(address),
            value: value % 256,
            lands,
        })?;
    }
    Ok(())
}

/// Adds the writes of a compare, that of the second destination last.
fn push_predicates(
    writes: &mut Vec<Write>,
    lands: u32,
    op: &Op,
    first: Option<bool>,
    second: Option<bool>,
) -> Result<(), AllocError>
    ensures { OnOk result (reverse writes.new.items ≡ landing lands (to_predicates op.now first second)
        ++ reverse writes.old.items) }
{
    match op {
        Op::Cmp(_, a, b, _, _) | Op::CmpImm(_, a, b, _, _) => {
            push_predicate(writes, lands, a.p, first)?;
            push_predicate(writes, lands, b.p, second)
        }
        _ => Ok(()),
    }
}

fn next_byte(input: &[u8], position: usize) -> Option<u8>
    ensures { result ≡ slice_get input.now position }
{
    input.get(position).copied()
}

/// Takes the next input byte; at the end it takes none and gives all ones.
fn take(input: &[u8], work: &mut Work) -> u32
    ensures value { result ≡ input_or_ones (slice_get input.now work.old.position) }
    ensures work { work.new
        ≡ record work.old { position = work.old.position + how_many (slice_get input.now work.old.position) } }
{
    match next_byte(input, work.position) {
        Some(byte) => {
            work.position += 1;
            byte as u32
        }
        None => 0xffff_ffff,
    }
}

/// Counts an operation and adds what its effect does.
fn add(
    cells: &Cells,
    input: &[u8],
    next: Option<u32>,
    timed: &TimedOp,
    effect: Effect,
    work: &mut Work,
) -> Result<(), AllocError>
    requires lands { timed.now.at + timed.now.latency < 2 ^ 32 }
    requires count { work.old.count < 1000000 }
    requires memory { length cells.now.memory.items < 2 ^ 31 }
    requires inside { StaysInside effect (length cells.now.memory.items) }
    ensures { OnOk result (progress_of work.new
        ≡ issued timed.now (acted cells.now input.now next timed.now effect work.old) (progress_of work.old)) }
{
    let lands = timed.at + timed.latency as u32;
    work.count += 1;
    match effect {
        Effect::Nothing | Effect::Trapped(_) => Ok(()),
        Effect::General(d, v) => push_place(&mut work.writes, lands, Place::General(d), v),
        Effect::Target(d, v) => push_place(&mut work.writes, lands, Place::Target(d), v),
        Effect::Predicates(x, y) => {
            push_predicates(&mut work.writes, lands, &timed.guarded.op, x, y)
        }
        Effect::Load { d, address, size } => {
            let n = number_at(cells, &work.writes, timed.at, address, bytes(size));
            push_place(&mut work.writes, lands, Place::General(d), extend(size, n))
        }
        Effect::Store {
            address,
            size,
            value,
        } => push_bytes(&mut work.writes, lands, address, bytes(size), value),
        Effect::Take(d) => {
            let value = take(input, work);
            push_place(&mut work.writes, lands, Place::General(d), value)
        }
        Effect::Put(v) => Ok(work.output.push(v)?),
        Effect::Jump(to) => {
            work.answer = Answer::GoTo(to);
            Ok(())
        }
        Effect::Link(d, to) => {
            work.answer = Answer::GoTo(to);
            push_place(&mut work.writes, lands, Place::Target(d), next.unwrap_or(0))
        }
        Effect::Halt(code) => {
            work.answer = Answer::Stop(code);
            Ok(())
        }
    }
}

/// One operation issues: it does what the definition says, or traps and does nothing.
fn issue(
    cells: &Cells,
    input: &[u8],
    next: Option<u32>,
    limit: u32,
    timed: &TimedOp,
    work: &mut Work,
) -> Result<Option<Trap>, AllocError>
    requires lands { timed.now.at + timed.now.latency < 2 ^ 32 }
    requires count { work.old.count < 1000000 }
    requires memory { length cells.now.memory.items < 2 ^ 31 }
    ensures trap { IfOk result (λ trap. trap
        ≡ (act (start_of cells.now input.now next limit) timed.now (progress_of work.old)).trap) }
    ensures same { IfOk result (λ trap. IfSome trap (λ _. work.new ≡ work.old)) }
    ensures work { IfOk result (λ trap. IfNone trap (progress_of work.new
        ≡ issued timed.now (act (start_of cells.now input.now next limit) timed.now (progress_of work.old))
        (progress_of work.old))) }
{
    let full = limit as usize <= work.output.len();
    let memory = cells.memory.len() as u32;
    let values = operands_at(cells, &work.writes, timed.at, &timed.guarded, memory, full);
    let effect = evaluate(&timed.guarded, &values);
    if let Effect::Trapped(trap) = effect {
        return Ok(Some(trap));
    }
    add(cells, input, next, timed, effect, work)?;
    Ok(None)
}

/// The operations of a list in order, up to the first trap.
pub fn run(
    cells: &Cells,
    input: &[u8],
    next: Option<u32>,
    limit: u32,
    ops: &[TimedOp],
    work: &mut Work,
) -> Result<Option<Trap>, AllocError>
    requires lands { All (λ timed. timed.at + timed.latency < 2 ^ 32) ops.now }
    requires count { work.old.count + length ops.now < 1000000 }
    requires memory { length cells.now.memory.items < 2 ^ 31 }
    ensures { IfOk result (λ trap. ran_to trap work.new
        ≡ run_list (start_of cells.now input.now next limit) ops.now (progress_of work.old)) }
{
    for timed in ops {
        if let Some(trap) = issue(cells, input, next, limit, timed, work)? {
            return Ok(Some(trap));
        }
    }
    Ok(None)
}
