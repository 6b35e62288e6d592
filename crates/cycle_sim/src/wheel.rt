// What lands in the cycles to come.
ghost use Rattle.block_steps.specs.Flight.{in_flight, in_turn};
ghost use Rattle.block_steps.specs.Steps.{state_at};
ghost use Rattle.timed_meaning.specs.Block.{Progress, landing as landings};
ghost use Rattle.std.specs.Prelude.{IfOk, List, slice_index, true, false, ◌≡◌, ◌<◌, ◌≤◌, ◌+◌, ◌%◌, ◌^◌, ◌∷◌, ◌++◌, [], ℕ, length, slice_index_or, slice_set, All};
ghost use Rattle.cycle_sim.specs.Wheel.{slots_of, values_in, slot_at, HasRoom, flight_of};
ghost use Rattle.cycle_sim.specs.Registers.{state_of, state_with, all_set, values_of};

use super::registers::{Landing, Registers, land};
use std::alloc::{AllocError, Global};

/// One slot for each of the next 32 cycles: that of a cycle is its number modulo 32.
#[derive(Drop)]
pub(crate) struct Wheel {
    pub(crate) slots: Vec<Vec<Landing>>,
}

impl Wheel {
    ghost use Rattle.cycle_sim.specs.Wheel.{slots_of, flight_of, HasRoom};

    /// An empty wheel, with the room for all writes of a block in each slot.
    pub(crate) fn new(alloc: Global) -> Result<Self, AllocError>
        ensures whole { IfOk result (λ wheel. length (slots_of wheel) ≡ 32) }
        ensures room { IfOk result (λ wheel. HasRoom wheel) }
        ensures flight { IfOk result (λ wheel. flight_of (slots_of wheel) 0 ≡ []) }
    {
        let mut slots = Vec::with_capacity(alloc, 32)?;
        for _slot in 0..32u32 {
            slots.push(Vec::with_capacity(alloc, 2048)?)?;
        }
        Ok(Wheel { slots })
    }
}

/// A slot's landings land in turn.
fn land_all(registers: &mut Registers, landings: &[Landing])
    ensures { state_of registers.new ≡ all_set (values_in landings.now) (state_of registers.old) }
{
    for landing in landings {
        land(registers, landing);
    }
}

/// Adds a landing to the slot of a cycle, which has room.
fn push(wheel: &mut Wheel, cycle: u32, landing: Landing)
    requires whole { length (slots_of wheel.old) ≡ 32 }
    requires room { HasRoom wheel.old }
    requires few { length (slot_at (slots_of wheel.old) cycle) < 2048 }
    ensures room { HasRoom wheel.new }
    ensures slots { slots_of wheel.new
        ≡ slice_set (slots_of wheel.old) (cycle % 32) (slot_at (slots_of wheel.old) cycle ++ landing ∷ []) }
{
    let slot = &mut wheel.slots[(cycle % 32) as usize];
    let _ = slot.push(landing);
}

/// Adds what lands a latency, 1 to 32 cycles, behind the clock.
pub(crate) fn put(wheel: &mut Wheel, clock: u32, latency: u8, landing: Landing)
    requires whole { length (slots_of wheel.old) ≡ 32 }
    requires room { HasRoom wheel.old }
    requires few { length (flight_of (slots_of wheel.old) clock) < 2048 }
    requires clock { clock < 2 ^ 31 }
    requires some { 1 ≤ latency }
    requires most { latency ≤ 32 }
    ensures whole { length (slots_of wheel.new) ≡ 32 }
    ensures room { HasRoom wheel.new }
    ensures flight { flight_of (slots_of wheel.new) clock
        ≡ in_turn (landings (clock + latency) (values_of landing) ++ flight_of (slots_of wheel.old) clock) }
{
    push(wheel, clock + latency as u32, landing);
}

/// The slot of a cycle lands and is empty then.
fn empty(wheel: &mut Wheel, registers: &mut Registers, cycle: u32)
    requires whole { length (slots_of wheel.old) ≡ 32 }
    requires room { HasRoom wheel.old }
    ensures room { HasRoom wheel.new }
    ensures state { state_of registers.new ≡ all_set (values_in (slot_at (slots_of wheel.old) cycle)) (state_of registers.old) }
    ensures slots { slots_of wheel.new ≡ slice_set (slots_of wheel.old) (cycle % 32) [] }
{
    let slot = &mut wheel.slots[(cycle % 32) as usize];
    land_all(registers, slot);
    slot.clear();
}

/// The wheel turns by at most 32 cycles: what lands in them is in the cells then. r0 is 0 and p0 true.
fn turn(wheel: &mut Wheel, registers: &mut Registers, clock: u32, cycles: u32)
    requires whole { length (slots_of wheel.old) ≡ 32 }
    requires room { HasRoom wheel.old }
    requires clock { clock < 2 ^ 31 }
    requires few { cycles ≤ 32 }
    ensures whole { length (slots_of wheel.new) ≡ 32 }
    ensures room { HasRoom wheel.new }
    ensures flight { flight_of (slots_of wheel.new) (clock + cycles)
        ≡ in_flight (clock + cycles) (flight_of (slots_of wheel.old) clock) }
    ensures state { (output : List ℕ) (position : ℕ) (p : Progress) → p.writes ≡ flight_of (slots_of wheel.old) clock →
        state_with registers.new p.output p.position ≡ state_at (clock + cycles) (state_with registers.old output position) p }
    ensures memory { length registers.new.memory.items ≡ length registers.old.memory.items }
    ensures zero { slice_index registers.new.general 0 ≡ 0 }
    ensures truth { slice_index_or registers.new.predicates 0 false ≡ true }
{
    for cycle in 0..cycles {
        empty(wheel, registers, clock + 1 + cycle);
    }
    registers.general[0] = 0;
    registers.predicates[0] = true;
}

/// The clock moves by some cycles: what lands in them is in the cells then. r0 is 0 and p0 true. All that is on the wheel
/// lands within 32 cycles.
pub(crate) fn advance(wheel: &mut Wheel, registers: &mut Registers, clock: u32, cycles: u32)
    requires whole { length (slots_of wheel.old) ≡ 32 }
    requires room { HasRoom wheel.old }
    requires clock { clock < 2 ^ 31 }
    ensures whole { length (slots_of wheel.new) ≡ 32 }
    ensures room { HasRoom wheel.new }
    ensures flight { flight_of (slots_of wheel.new) (clock + cycles)
        ≡ in_flight (clock + cycles) (flight_of (slots_of wheel.old) clock) }
    ensures state { (output : List ℕ) (position : ℕ) (p : Progress) → p.writes ≡ flight_of (slots_of wheel.old) clock →
        state_with registers.new p.output p.position ≡ state_at (clock + cycles) (state_with registers.old output position) p }
    ensures memory { length registers.new.memory.items ≡ length registers.old.memory.items }
    ensures zero { slice_index registers.new.general 0 ≡ 0 }
    ensures truth { slice_index_or registers.new.predicates 0 false ≡ true }
{
    turn(wheel, registers, clock, cycles.min(32));
}
