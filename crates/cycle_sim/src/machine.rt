// The machine as a whole.
ghost use Rattle.std.specs.Prelude.{◌≡◌, ◌<◌, ◌≤◌, ◌+◌, ◌*◌, ◌^◌, [], ℕ, List, length, slice_index, slice_index_or, true, false, IfOk, None, vec_capacity, All};
ghost use Rattle.timed_meaning.specs.Block.{Progress, state_after};
ghost use Rattle.timed_meaning.specs.Sound.{IsSoundBlock};
ghost use Rattle.cycle_sim.specs.Registers.{state_of, state_with};
ghost use Rattle.cycle_sim.specs.Wheel.{slots_of, flight_of, HasRoom};
ghost use Rattle.block_steps.specs.Steps.{or_go_on, step, at_entry};
ghost use Rattle.cycle_sim.specs.Machine.{told_end, told, block_of_ops, has_stopped, start_state, IsReady, StandsBehind};
ghost use Rattle.cycle_sim.specs.Whole.{moment_of, IsMachine};

use super::Issued;
use super::issue::Work;
use super::multi_op::issue_multi_op;
use super::registers::Registers;
use super::wheel::{Wheel, advance};
use std::alloc::{AllocError, Global};
use std::marker::Model;
use timed_meaning::{Answer, TimedOp};
use tnk_base::NoMemory;

/// All writes of the block land, and the next block begins.
fn finish(registers: &mut Registers, work: &mut Work, clock: u32, end: u32)
    requires whole { length (slots_of work.old.wheel) ≡ 32 }
    requires room { HasRoom work.old.wheel }
    requires clock { clock ≤ end }
    requires end { end < 2 ^ 31 }
    requires lands { All (λ w. w.lands ≤ end) (flight_of (slots_of work.old.wheel) clock) }
    ensures whole { length (slots_of work.new.wheel) ≡ 32 }
    ensures room { HasRoom work.new.wheel }
    ensures flight { flight_of (slots_of work.new.wheel) 0 ≡ [] }
    ensures output { work.new.output ≡ work.old.output }
    ensures position { work.new.position ≡ work.old.position }
    ensures answer { work.new.answer ≡ None }
    ensures state { (output : List ℕ) (position : ℕ) (p : Progress) → p.writes ≡ flight_of (slots_of work.old.wheel) clock →
        state_with registers.new p.output p.position ≡ state_after (state_with registers.old output position) p }
    ensures memory { length registers.new.memory.items ≡ length registers.old.memory.items }
    ensures zero { slice_index registers.new.general 0 ≡ 0 }
    ensures truth { slice_index_or registers.new.predicates 0 false ≡ true }
{
    advance(&mut work.wheel, registers, clock, end - clock);
    work.answer = None;
}

/// How the end of a block comes out, by its branch's answer, its entry and that of the next row.
fn ended(answer: Option<Answer>, entry: u32, next: Option<u32>) -> Issued
    ensures { result ≡ told_end entry next (or_go_on answer) }
{
    match answer {
        None | Some(Answer::GoOn) => Issued::BlockEnd(next.unwrap_or(entry)),
        Some(Answer::GoTo(to)) => Issued::BlockEnd(to),
        Some(Answer::Stop(code)) => Issued::Halted(code),
    }
}

/// One MultiOp issues, over the parts of a machine.
fn issue_parts(
    registers: &mut Registers,
    work: &mut Work,
    clock: &mut u32,
    cycles: &mut u64,
    input: &[u8],
    limit: u32,
    entry: u32,
    ops: &[TimedOp],
    end: u32,
    at: u16,
    next: Option<u32>,
) -> Issued
    requires machine { IsMachine registers.old work.old limit }
    requires sound { IsSoundBlock (block_of_ops entry ops.now end next) }
    requires ready { IsReady (block_of_ops entry ops.now end next) at (moment_of registers.old work.old clock.old cycles.old) }
    ensures machine { IsMachine registers.new work.new limit }
    ensures moment { moment_of registers.new work.new clock.new cycles.new
        ≡ (step input.now limit (block_of_ops entry ops.now end next) (moment_of registers.old work.old clock.old cycles.old)).0 }
    ensures answer { result ≡ told (block_of_ops entry ops.now end next)
        (step input.now limit (block_of_ops entry ops.now end next) (moment_of registers.old work.old clock.old cycles.old)) }
    ensures stands { StandsBehind (block_of_ops entry ops.now end next) result (moment_of registers.new work.new clock.new cycles.new) }
{
    let from = at as usize;
    let (place, trap) = issue_multi_op(registers, input, next, limit, *clock, ops, from, work);
    if let Some(trap) = trap {
        finish(registers, work, *clock, end);
        *cycles = cycles.saturating_add(*clock as u64 + 1);
        *clock = 0;
        return Issued::Trapped(place as u16, trap);
    }
    if place < ops.len() {
        let to = ops[place].at;
        advance(&mut work.wheel, registers, *clock, to - *clock);
        *clock = to;
        return Issued::Going(place as u16);
    }
    let answer = work.answer;
    finish(registers, work, *clock, end);
    *cycles = cycles.saturating_add(end as u64);
    *clock = 0;
    ended(answer, entry, next)
}

fn is_over(issued: Issued) -> bool
    ensures { result ≡ has_stopped issued }
{
    match issued {
        Issued::Halted(_) | Issued::Trapped(..) => true,
        Issued::Going(_) | Issued::BlockEnd(_) => false,
    }
}

/// The cells at the start: all 0 and false but p0, and the initial memory.
fn start(alloc: Global, memory: u32, init: &[u8]) -> Result<Registers, AllocError>
    requires { length init.now ≤ memory }
    ensures { IfOk result (λ registers. state_of registers ≡ start_state memory init.now) }
{
    let mut bytes = Vec::with_capacity(alloc, memory as usize)?;
    bytes.extend_from_slice(init)?;
    bytes.resize(memory as usize, 0)?;
    let mut predicates = [false; 32];
    predicates[0] = true;
    Ok(Registers {
        general: [0; 32],
        predicates,
        targets: [0; 8],
        memory: bytes,
    })
}

/// What a machine has done at its start: nothing. It has the room for an output of so many bytes.
fn begin(alloc: Global, limit: u32) -> Result<Work, AllocError>
    ensures whole { IfOk result (λ work. length (slots_of work.wheel) ≡ 32) }
    ensures room { IfOk result (λ work. HasRoom work.wheel) }
    ensures flight { IfOk result (λ work. flight_of (slots_of work.wheel) 0 ≡ []) }
    ensures output { IfOk result (λ work. work.output.items ≡ []) }
    ensures capacity { IfOk result (λ work. limit ≤ vec_capacity work.output) }
    ensures position { IfOk result (λ work. work.position ≡ 0) }
    ensures answer { IfOk result (λ work. work.answer ≡ None) }
{
    Ok(Work {
        wheel: Wheel::new(alloc)?,
        output: Vec::with_capacity(alloc, limit as usize)?,
        position: 0,
        answer: None,
    })
}

/// The machine of one context. Contracts see it as its moment in the present block, whether it has stopped, and what it was
/// made with.
#[derive(Drop)]
pub struct Machine {
    registers: Registers,
    work: Work,
    input: Vec<u8>,
    limit: u32,
    clock: u32,
    cycles: u64,
    stopped: bool,
}

impl Model for Machine {
    ghost use Rattle.cycle_sim.specs.Machine.{Simulated};

    ghost Value = { Simulated };

    ghost use Rattle.cycle_sim.specs.Whole.{moment_of, IsMachine};

    ghost view = { λ m. record { moment = moment_of m.registers m.work m.clock m.cycles; stopped = m.stopped; input = m.input.items; limit = m.limit } };

    ghost invariant = { λ m. IsMachine m.registers m.work m.limit };
}

impl Machine {
    /// A machine at its start, with `memory` bytes of data memory, 0 to 1,048,576, of which `init` are the first, and with
    /// the input from its first byte on. An `outb` that finds `limit` bytes put out traps. All memory is taken here; the
    /// only error is want of memory.
    pub fn new(
        alloc: Global,
        memory: u32,
        init: &[u8],
        input: Vec<u8>,
        limit: u32,
    ) -> Result<Machine, NoMemory>
        requires memory { memory ≤ 1048576 }
        requires init { length init.now ≤ memory }
        ensures { IfOk result (λ m. m ≡ record {
          moment = at_entry (start_state memory init.now) 0;
          stopped = false;
          input = input.items;
          limit = limit;
        }) }
    {
        let registers = start(alloc, memory, init)?;
        let work = begin(alloc, limit)?;
        Ok(Machine {
            registers,
            work,
            input,
            limit,
            clock: 0,
            cycles: 0,
            stopped: false,
        })
    }

    /// The MultiOp at a place of a block issues, and the clock moves to the next one or the block is over. The block has this
    /// entry; `ops` are its operations with their times, `end` is the cycle in which it ends, and `next` the entry of the row
    /// behind it.
    /// It takes no memory, and a machine that has stopped, after `Halted` or `Trapped`, issues no more.
    pub fn issue(
        &mut self,
        entry: u32,
        ops: &[TimedOp],
        end: u32,
        at: u16,
        next: Option<u32>,
    ) -> Issued
        requires running { self.old.stopped ≡ false }
        requires sound { IsSoundBlock (block_of_ops entry ops.now end next) }
        requires ready { IsReady (block_of_ops entry ops.now end next) at self.old.moment }
        ensures moment { self.new.moment ≡ (step self.old.input self.old.limit (block_of_ops entry ops.now end next) self.old.moment).0 }
        ensures answer { result
            ≡ told (block_of_ops entry ops.now end next) (step self.old.input self.old.limit (block_of_ops entry ops.now end next) self.old.moment) }
        ensures stands { StandsBehind (block_of_ops entry ops.now end next) result self.new.moment }
        ensures stopped { self.new.stopped ≡ has_stopped result }
        ensures input { self.new.input ≡ self.old.input }
        ensures limit { self.new.limit ≡ self.old.limit }
    {
        let issued = issue_parts(
            &mut self.registers,
            &mut self.work,
            &mut self.clock,
            &mut self.cycles,
            &self.input,
            self.limit,
            entry,
            ops,
            end,
            at,
            next,
        );
        self.stopped = is_over(issued);
        issued
    }

    /// The block clock.
    pub fn clock(&self) -> u32
        ensures { result ≡ self.now.moment.clock }
    {
        self.clock
    }

    /// The cycles of the blocks that have ended; the count stays at 2^64 - 1 once there.
    pub fn cycles(&self) -> u64
        ensures { result ≡ self.now.moment.cycles }
    {
        self.cycles
    }

    /// What has been put out.
    pub fn output(&self) -> &[u8]
        ensures { result.now ≡ self.now.moment.state.output }
    {
        &self.work.output
    }

    /// The bytes of memory at the block clock.
    pub fn memory(&self) -> &[u8]
        ensures { result.now ≡ self.now.moment.state.memory }
    {
        &self.registers.memory
    }

    /// The value of a general register at the block clock.
    pub fn general(&self, r: u8) -> u32
        requires { r ≤ 31 }
        ensures { result ≡ slice_index self.now.moment.state.general r }
    {
        self.registers.general[r as usize]
    }
}
