// Runs of small programs, with what they come to worked out by hand.
ghost use Rattle.std.specs.Prelude.{◌≡◌, ◌<◌, ◌≤◌, ◌+◌, ◌^◌, length, All, IfOk};
ghost use Rattle.timed_meaning.specs.Program.{program_of, block_of, IsInRange, IsBlockInRange};

use super::places::guarded;
use operation::{AluKind, End, Op, Report, Size, TrapKind};
use std::alloc::{AllocError, Global};
use std::process::Abort;
use timed_meaning::{Meant, Program, TimedBlock, TimedOp, meaning, meant_with_cycles};

/// An operation, its issue cycle and its latency.
type Timed = (Op, u32, u8);

/// A program's first block, what the run finds, and what it comes to.
struct Run {
    init: &'static [u8],
    first: &'static [Timed],
    first_end: u32,
    limit: u32,
    end: End,
    blocks: u32,
    output: &'static [u8],
    memory: [u8; 8],
    cycles: u64,
}

/// `addi r1, r0, 65`.
const LETTER: Timed = (Op::AluImm(AluKind::Add, 1, 0, 65), 0, 1);

const RUNS: [Run; 10] = [
    // A register is put out.
    Run {
        init: &[],
        first: &[LETTER, (Op::Outb(1), 1, 1), (Op::Halt(0), 2, 1)],
        first_end: 3,
        limit: 10,
        end: End::Halted(0),
        blocks: 1,
        output: &[65],
        memory: [0; 8],
        cycles: 3,
    },
    // A read in a load's shadow finds the old value.
    Run {
        init: &[66],
        first: &[
            LETTER,
            (Op::Load(Size::Word, 1, 0, 0), 1, 2),
            (Op::AluImm(AluKind::Add, 2, 1, 0), 2, 1),
            (Op::Outb(2), 3, 1),
            (Op::Outb(1), 4, 1),
            (Op::Halt(0), 5, 1),
        ],
        first_end: 6,
        limit: 10,
        end: End::Halted(0),
        blocks: 1,
        output: &[65, 66],
        memory: [66, 0, 0, 0, 0, 0, 0, 0],
        cycles: 6,
    },
    // The store before a trap lands, and the one after it is never made. The pause after the trap doesn't pass.
    Run {
        init: &[],
        first: &[
            (Op::AluImm(AluKind::Add, 1, 0, 7), 0, 2),
            (Op::Store(Size::Word, 1, 0, 0), 2, 2),
            (Op::Div(2, 1, 0), 2, 16),
            (Op::Store(Size::Word, 1, 0, 4), 2, 2),
            (Op::Halt(0), 15, 3),
        ],
        first_end: 18,
        limit: 10,
        end: End::Trapped(Report {
            kind: TrapKind::DivideByZero,
            block: 0,
            detail: 7,
        }),
        blocks: 0,
        output: &[],
        memory: [7, 0, 0, 0, 0, 0, 0, 0],
        cycles: 3,
    },
    // The first operation traps.
    Run {
        init: &[],
        first: &[
            (Op::Load(Size::Word, 1, 0, 4096), 0, 2),
            (Op::Div(2, 0, 0), 1, 8),
            (Op::Halt(0), 8, 1),
        ],
        first_end: 9,
        limit: 10,
        end: End::Trapped(Report {
            kind: TrapKind::OutOfRange,
            block: 0,
            detail: 4096,
        }),
        blocks: 0,
        output: &[],
        memory: [0; 8],
        cycles: 1,
    },
    // The output is full.
    Run {
        init: &[],
        first: &[
            LETTER,
            (Op::Outb(1), 1, 1),
            (Op::Outb(1), 2, 1),
            (Op::Halt(0), 3, 1),
        ],
        first_end: 4,
        limit: 1,
        end: End::Trapped(Report {
            kind: TrapKind::OutputFull,
            block: 0,
            detail: 65,
        }),
        blocks: 0,
        output: &[65],
        memory: [0; 8],
        cycles: 3,
    },
    // Without a branch the next block follows; it puts out a byte of the input.
    Run {
        init: &[],
        first: &[(Op::Inb(1), 0, 1)],
        first_end: 1,
        limit: 10,
        end: End::Halted(7),
        blocks: 2,
        output: &[7],
        memory: [0; 8],
        cycles: 2,
    },
    // `brl` writes the next block's entry.
    Run {
        init: &[],
        first: &[
            (Op::Pbr(1, 8), 0, 1),
            (Op::Brl(2, 1), 1, 1),
            (Op::Mvr(1, 2), 2, 1),
        ],
        first_end: 3,
        limit: 10,
        end: End::Halted(8),
        blocks: 2,
        output: &[8],
        memory: [0; 8],
        cycles: 4,
    },
    // The second block traps after the first has ended.
    Run {
        init: &[],
        first: &[(Op::Inb(1), 0, 1)],
        first_end: 1,
        limit: 0,
        end: End::Trapped(Report {
            kind: TrapKind::OutputFull,
            block: 8,
            detail: 7,
        }),
        blocks: 1,
        output: &[],
        memory: [0; 8],
        cycles: 2,
    },
    // A branch to an address that is no entry.
    Run {
        init: &[],
        first: &[
            (Op::AluImm(AluKind::Add, 1, 0, 1), 0, 1),
            (Op::Mvb(1, 1), 1, 1),
            (Op::Bru(1), 2, 1),
        ],
        first_end: 3,
        limit: 10,
        end: End::Trapped(Report {
            kind: TrapKind::BadTarget,
            block: 0,
            detail: 1,
        }),
        blocks: 1,
        output: &[],
        memory: [0; 8],
        cycles: 3,
    },
    // A block that branches to itself runs as often as the bound says.
    Run {
        init: &[],
        first: &[(Op::Pbr(1, 0), 0, 1), (Op::Bru(1), 1, 1)],
        first_end: 2,
        limit: 10,
        end: End::Bound,
        blocks: 3,
        output: &[],
        memory: [0; 8],
        cycles: 6,
    },
];

fn timed(rt: &impl Abort, case: Timed) -> TimedOp
    ensures at { result.at ≤ 65535 }
    ensures latency { result.latency ≤ 32 }
{
    let (op, at, latency) = case;
    assert!(rt; at <= 65535);
    assert!(rt; latency <= 32);
    TimedOp {
        guarded: guarded(0, op).expect(rt, "in range"),
        at,
        latency,
    }
}

fn block(
    rt: &impl Abort,
    alloc: Global,
    entry: u32,
    next: Option<u32>,
    ops: &[Timed],
    end: u32,
) -> Result<TimedBlock, AllocError>
    ensures range { IfOk result (λ b. IsBlockInRange (block_of b)) }
    ensures entry { IfOk result (λ b. b.entry ≡ entry) }
{
    assert!(rt; ops.len() <= 512);
    let mut listed = Vec::new(alloc);
    for op in ops {
        listed.push(timed(rt, *op))?;
    }
    Ok(TimedBlock {
        entry,
        next,
        ops: listed,
        end,
    })
}

/// A program of two blocks, at 0 and at 8, with eight bytes of memory. The second block puts r1 out and halts with it.
fn program(rt: &impl Abort, alloc: Global, run: &Run) -> Result<Program, AllocError>
    ensures { IfOk result (λ p. IsInRange (program_of p)) }
{
    assert!(rt; run.init.len() <= 8);
    let second = [(Op::Outb(1), 0, 1), (Op::Halt(1), 0, 1)];
    let mut blocks = Vec::new(alloc);
    blocks.push(block(rt, alloc, 0, Some(8), run.first, run.first_end)?)?;
    blocks.push(block(rt, alloc, 8, None, &second, 1)?)?;
    Ok(Program {
        blocks,
        entry: 0,
        memory: 8,
        init: run.init.to_vec(alloc)?,
    })
}

fn is_meant(meant: &Meant, run: &Run) -> bool {
    meant.end == run.end
        && meant.blocks == run.blocks
        && meant.output.as_slice() == run.output
        && meant.memory.as_slice() == run.memory.as_slice()
}

/// The bytes of the input of each run.
const INPUT: [u8; 1] = [7];

fn has_meaning(alloc: Global, program: &Program, run: &Run) -> bool
    requires { IsInRange (program_of program.now) }
{
    match meaning(alloc, program, &INPUT, run.limit, 3) {
        Ok(meant) => is_meant(&meant, run),
        Err(_) => false,
    }
}

fn has_cycles(alloc: Global, program: &Program, run: &Run) -> bool
    requires { IsInRange (program_of program.now) }
{
    match meant_with_cycles(alloc, program, &INPUT, run.limit, 3) {
        Ok((meant, cycles)) => is_meant(&meant, run) && cycles == run.cycles,
        Err(_) => false,
    }
}

/// Runs at most three blocks.
fn comes_to(rt: &impl Abort, alloc: Global, run: &Run) -> bool {
    match program(rt, alloc, run) {
        Ok(program) => has_meaning(alloc, &program, run) && has_cycles(alloc, &program, run),
        Err(_) => false,
    }
}

#[test]
fn programs_mean_what_was_worked_out(rt: HostRuntime) {
    for (row, run) in RUNS.iter().enumerate() {
        assert!(rt; comes_to(&rt, rt.alloc(), run), "row {row}");
    }
}
