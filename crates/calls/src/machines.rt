// Blocks that a machine plays MultiOp by MultiOp, with what each issue answers. What is expected was worked out by hand.
ghost use Rattle.std.specs.Prelude.{◌≡◌, false};
ghost use Rattle.timed_meaning.specs.Program.{block_of};
ghost use Rattle.timed_meaning.specs.Sound.{IsSoundBlock};
ghost use Rattle.cycle_sim.specs.Machine.{IsReady};

use super::images::{Image, ONE_ROW, TWO_ROWS, meant};
use cycle_sim::laws::ready_at_entry;
use cycle_sim::{Issued, Machine};
use operation::{Trap, TrapKind};
use std::alloc::Global;
use timed_meaning::TimedBlock;

/// What an issue answers, and behind it the block clock and how many bytes are put out.
type Step = (Issued, u32, usize);

/// An image, the output limit, the issues of its first block, and the cycles of blocks behind them.
type Played = (Image, u32, &'static [Step], u64);

const PLAYED: [Played; 3] = [
    (
        ONE_ROW,
        1,
        &[
            (Issued::Going(1), 1, 0),
            (Issued::Going(2), 2, 1),
            (Issued::Halted(0), 0, 1),
        ],
        3,
    ),
    // Control goes to the next row.
    (
        TWO_ROWS,
        1,
        &[(Issued::Going(1), 1, 0), (Issued::BlockEnd(2), 0, 1)],
        2,
    ),
    // The output is full: the operation at place 1 traps, in the second cycle.
    (
        ONE_ROW,
        0,
        &[
            (Issued::Going(1), 1, 0),
            (
                Issued::Trapped(
                    1,
                    Trap {
                        kind: TrapKind::OutputFull,
                        detail: 65,
                    },
                ),
                0,
                0,
            ),
        ],
        2,
    ),
];

/// Issues a block's MultiOps from the first one on, to its end or a trap.
fn is_played(machine: &mut Machine, block: &TimedBlock, steps: &[Step]) -> bool
    requires running { machine.old.stopped ≡ false }
    requires sound { IsSoundBlock (block_of block.now) }
    requires ready { IsReady (block_of block.now) 0 machine.old.moment }
{
    let mut at = 0;
    for (row, (issued, clock, size)) in steps.iter().enumerate() {
        let found = machine.issue(block.entry, &block.ops, block.end, at, block.next);
        if found != *issued || machine.clock() != *clock || machine.output().len() != *size {
            return false;
        }
        match found {
            Issued::Going(place) => at = place,
            _ => return row + 1 == steps.len(),
        }
    }
    false
}

fn comes_to(alloc: Global, case: &Played) -> bool {
    ready_at_entry();
    let (image, limit, steps, cycles) = *case;
    let Some(program) = meant(alloc, 1, &image) else {
        return false;
    };
    let input = Vec::new(alloc);
    let Ok(mut machine) = Machine::new(alloc, program.memory, &program.init, input, limit) else {
        return false;
    };
    if program.blocks.is_empty() {
        return false;
    }
    is_played(&mut machine, &program.blocks[0], steps)
        && machine.cycles() == cycles
        && machine.general(1) == 65
        && machine.memory() == [7, 9, 0, 0, 0, 0, 0, 0].as_slice()
}

#[test]
fn blocks_are_played(rt: HostRuntime) {
    for (row, case) in PLAYED.iter().enumerate() {
        assert!(rt; comes_to(rt.alloc(), case), "row {row}");
    }
}
