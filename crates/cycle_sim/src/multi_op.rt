// The operations of a MultiOp issue.
ghost use Rattle.std.specs.Prelude.{◌≡◌, ◌<◌, ◌≤◌, ◌+◌, ◌*◌, ◌^◌, length, drop, slice_index, slice_index_or, true, false, All, IfNone, vec_capacity};
ghost use Rattle.timed_meaning.specs.Block.{run};
ghost use Rattle.cycle_sim.specs.Wheel.{slots_of, flight_of, HasRoom};
ghost use Rattle.cycle_sim.specs.Issue.{progress_of};
ghost use Rattle.cycle_sim.specs.MultiOps.{at_cycle, start_of, came_to, ran_in_order, AnswersAfter};

use super::issue::{Work, issue};
use super::registers::Registers;
use operation::Trap;
use timed_meaning::TimedOp;

/// The operations from a place on that issue in the present cycle do so, up to the first trap. Gives the place behind
/// them, or that of the operation that traps.
pub(crate) fn issue_multi_op(
    registers: &Registers,
    input: &[u8],
    next: Option<u32>,
    limit: u32,
    clock: u32,
    ops: &[TimedOp],
    at: usize,
    work: &mut Work,
) -> (usize, Option<Trap>)
    requires zero { slice_index registers.now.general 0 ≡ 0 }
    requires truth { slice_index_or registers.now.predicates 0 false ≡ true }
    requires memory { length registers.now.memory.items < 2 ^ 31 }
    requires whole { length (slots_of work.old.wheel) ≡ 32 }
    requires room { HasRoom work.old.wheel }
    requires few { length (flight_of (slots_of work.old.wheel) clock) ≤ 4 * at }
    requires limit { limit ≤ vec_capacity work.old.output }
    requires clock { clock < 2 ^ 31 }
    requires at { at ≤ length ops.now }
    requires short { length ops.now ≤ 512 }
    requires latencies { All (λ k. (1 ≤ k.latency) × (k.latency ≤ 32)) ops.now }
    ensures whole { length (slots_of work.new.wheel) ≡ 32 }
    ensures room { HasRoom work.new.wheel }
    ensures capacity { vec_capacity work.old.output ≤ vec_capacity work.new.output }
    ensures within { result.0 ≤ length ops.now }
    ensures ran { came_to result.0 result.1 work.new clock
        ≡ ran_in_order (run (start_of registers.now input.now next limit) (at_cycle clock (drop at ops.now)) (progress_of work.old clock at)) }
    ensures place { IfNone result.1 (result.0 ≡ at + length (at_cycle clock (drop at ops.now))) }
    ensures load { IfNone result.1 (length (flight_of (slots_of work.new.wheel) clock) ≤ 4 * result.0) }
    ensures answer { IfNone result.1 (AnswersAfter (at_cycle clock (drop at ops.now)) work.old.answer work.new.answer) }
{
    for place in at..ops.len() {
        let op = &ops[place];
        if op.at != clock {
            return (place, None);
        }
        if let Some(trap) = issue(
            registers,
            input,
            next,
            limit,
            clock,
            op.latency,
            &op.guarded,
            work,
        ) {
            return (place, Some(trap));
        }
    }
    (ops.len(), None)
}
