// What a program means: its blocks one after another.
ghost use Rattle.std.specs.Prelude.{◌≡◌, ◌<◌, ◌≤◌, ◌^◌, ℕ, length, slice_get, option_and_then, vec_len, IfOk, IfSome};
ghost use Rattle.std.specs.Option.{ForSome};
ghost use Rattle.timed_meaning.specs.Values.{State};
ghost use Rattle.timed_meaning.specs.Block.{block as block_ending};
ghost use Rattle.timed_meaning.specs.Program.{block_of, program_of, first_state, block_at, follows, advance, mean, meaning_of, IsInRange, IsBlockInRange};
ghost use Rattle.timed_meaning.specs.Cycles.{cycles_by, cycles_at, cycles as cycles_of_run};
ghost use Rattle.timed_meaning.specs.Evaluator.{state_of, state_with, start_with, ended_at, next_of};

use super::cells::Cells;
use super::issue::{Work, run};
use super::settle::settle;
use super::{Answer, Meant, Program, TimedBlock};
use operation::{End, Report, Trap, TrapKind};
use std::alloc::{AllocError, Global};
use tnk_base::NoMemory;

/// What comes of a block: the program goes on at an entry, ends with the block, or stops within it. A block in which it
/// stops doesn't count.
#[derive(Clone, Copy)]
enum Outcome {
    Goes(u32),
    Ends(End),
    Stops(End),
}

/// The cells before the first block: all 0 and false but p0, and the initial memory.
fn start(alloc: Global, program: &Program) -> Result<Cells, AllocError>
    requires { length program.now.init.items ≤ program.now.memory }
    ensures { IfOk result (λ cells. state_of cells ≡ first_state (program_of program.now)) }
{
    let mut memory = Vec::with_capacity(alloc, program.memory as usize)?;
    memory.extend_from_slice(&program.init)?;
    memory.resize(program.memory as usize, 0)?;
    let mut predicates = [false; 32];
    predicates[0] = true;
    Ok(Cells {
        general: [0; 32],
        predicates,
        targets: [0; 8],
        memory,
    })
}

/// The place of the block with this entry.
fn find_block(program: &Program, entry: u32) -> Option<usize>
    requires { IsInRange (program_of program.now) }
    ensures within { IfSome result (λ row. row < vec_len program.now.blocks) }
    ensures found { option_and_then (λ row. slice_get (program_of program.now).blocks row) result
        ≡ block_at (program_of program.now) entry }
{
    program
        .blocks
        .binary_search_by_key(&entry, |b| b.entry)
        .ok()
}

/// Runs the operations of a block up to the first trap, and lets their writes land.
fn run_block(
    cells: &mut Cells,
    work: &mut Work,
    input: &[u8],
    limit: u32,
    block: &TimedBlock,
) -> Result<Option<Trap>, AllocError>
    requires block { IsBlockInRange (block_of block.now) }
    requires memory { length cells.old.memory.items ≤ 2 ^ 20 }
    ensures ended { IfOk result (λ trap. ended_at trap work.new.answer work.new.count (state_with cells.new work.new)
        ≡ block_ending (start_with cells.old work.old input.now block.now.next limit) block.now.ops.items) }
    ensures memory { IfOk result (λ _. length cells.new.memory.items ≡ length cells.old.memory.items) }
{
    work.begin();
    let trap = run(cells, input, block.next, limit, &block.ops, work)?;
    settle(cells, work);
    Ok(trap)
}

/// Where the program goes from a block, by the block's trap and its branch's answer.
fn follow(program: &Program, block: &TimedBlock, trap: Option<Trap>, answer: Answer) -> Outcome
    requires { IsInRange (program_of program.now) }
    ensures { (s : State) (n : ℕ) → next_of result s
        ≡ follows (program_of program.now) block.now.entry block.now.next (ended_at trap answer n s) }
{
    let from = block.entry;
    if let Some(t) = trap {
        return Outcome::Stops(trapped(t.kind, from, t.detail));
    }
    match answer {
        Answer::GoOn => Outcome::Goes(block.next.unwrap_or(from)),
        Answer::GoTo(to) => match find_block(program, to) {
            Some(_) => Outcome::Goes(to),
            None => Outcome::Ends(trapped(TrapKind::BadTarget, from, to)),
        },
        Answer::Stop(code) => Outcome::Ends(End::Halted(code)),
    }
}

fn trapped(kind: TrapKind, block: u32, detail: u32) -> End
    ensures { result ≡ End.Trapped (record { kind = kind; block = block; detail = detail }) }
{
    End::Trapped(Report {
        kind,
        block,
        detail,
    })
}

/// The cycles that a block takes, by its trap, if there was one, and how many operations issued before that.
fn taken(block: &TimedBlock, trap: Option<Trap>, issued: u32) -> u64
    requires { ForSome trap (λ _. issued < length block.now.ops.items) }
    ensures cycles { (s : State) (answer : Answer) → result ≡ cycles_by (block_of block.now) (ended_at trap answer issued s) }
    ensures bound { result ≤ 2 ^ 32 }
{
    match trap {
        None => block.end as u64,
        Some(_) => block.ops[issued as usize].at as u64 + 1,
    }
}

/// Runs the block with this entry, if there is one. Gives what comes of it and the cycles that it takes.
fn step(
    cells: &mut Cells,
    work: &mut Work,
    program: &Program,
    input: &[u8],
    limit: u32,
    entry: u32,
) -> Result<(Outcome, u64), AllocError>
    requires program { IsInRange (program_of program.now) }
    requires memory { length cells.old.memory.items ≤ 2 ^ 20 }
    ensures next { IfOk result (λ came. next_of came.0 (state_with cells.new work.new)
        ≡ advance (program_of program.now) input.now limit entry (state_with cells.old work.old)) }
    ensures cycles { IfOk result (λ came. came.1
        ≡ cycles_at (program_of program.now) input.now limit entry (state_with cells.old work.old)) }
    ensures bound { IfOk result (λ came. came.1 ≤ 2 ^ 32) }
    ensures memory { IfOk result (λ _. length cells.new.memory.items ≡ length cells.old.memory.items) }
{
    let Some(row) = find_block(program, entry) else {
        return Ok((Outcome::Goes(entry), 0));
    };
    let block = &program.blocks[row];
    let trap = run_block(cells, work, input, limit, block)?;
    let cycles = taken(block, trap, work.count);
    Ok((follow(program, block, trap, work.answer), cycles))
}

/// What a program comes to in at most `bound` blocks, 0 to 1,000,000, with `input` from its first byte on. An `outb`
/// that finds `limit` bytes put out traps. The only error is want of memory.
///
/// The condition on the program is about sizes and the order of its blocks alone. A run that comes to an entry without
/// a block stays there until the bound. A block's time grows with the square of its operations, not with the memory.
pub fn meaning(
    alloc: Global,
    program: &Program,
    input: &[u8],
    limit: u32,
    bound: u32,
) -> Result<Meant, NoMemory>
    requires program { IsInRange (program_of program.now) }
    requires bound { bound ≤ 1000000 }
    ensures { IfOk result (λ meant. meaning_of meant ≡ mean (program_of program.now) input.now limit bound) }
{
    let (meant, _) = meant_with_cycles(alloc, program, input, limit, bound)?;
    Ok(meant)
}

/// What a program comes to, as `meaning`, and the cycles that it takes.
///
/// A block takes its `end` cycles, also where it halts or goes to no entry. One that another trap stops takes the cycles
/// up to that in which the trapping operation issued, which counts too.
pub fn meant_with_cycles(
    alloc: Global,
    program: &Program,
    input: &[u8],
    limit: u32,
    bound: u32,
) -> Result<(Meant, u64), NoMemory>
    requires program { IsInRange (program_of program.now) }
    requires bound { bound ≤ 1000000 }
    ensures meaning { IfOk result (λ both. meaning_of both.0 ≡ mean (program_of program.now) input.now limit bound) }
    ensures cycles { IfOk result (λ both. both.1 ≡ cycles_of_run (program_of program.now) input.now limit bound) }
{
    let mut cells = start(alloc, program)?;
    let mut work = Work::new(alloc);
    let mut entry = program.entry;
    let mut cycles = 0;
    for ended in 0..bound {
        let (outcome, taken) = step(&mut cells, &mut work, program, input, limit, entry)?;
        cycles += taken;
        match outcome {
            Outcome::Goes(to) => entry = to,
            Outcome::Ends(end) => return Ok((meant(end, ended + 1, cells, work), cycles)),
            Outcome::Stops(end) => return Ok((meant(end, ended, cells, work), cycles)),
        }
    }
    Ok((meant(End::Bound, bound, cells, work), cycles))
}

fn meant(end: End, blocks: u32, cells: Cells, work: Work) -> Meant
    ensures { meaning_of result ≡
        record { end = end; blocks = blocks; output = work.output.items; memory = cells.memory.items } }
{
    Meant {
        end,
        blocks,
        output: work.output,
        memory: cells.memory,
    }
}
