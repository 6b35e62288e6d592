// How many operations issue in each cycle, and how many are busy in it on each unit kind.
ghost use Rattle.std.specs.Prelude.{◌≡◌, ◌<◌, ◌≤◌, ◌+◌, ◌*◌, ◌++◌, ℕ, ◌↔◌, IsTrue, IfOk, length, slice_index, replicate, drop};
ghost use Rattle.operation.specs.Places.{unit_number};
ghost use Rattle.machine_desc.specs.Description.{units_of, busy_of};
ghost use Rattle.list_sched.specs.Slots.{Slots, cycles as cycles_of, AreSlots, empty, HasRoomFor, IsBusier, IsTaken};

use machine_desc::Generation;
use operation::{LatKind, UnitKind};
use std::alloc::Global;
use std::marker::Model;
use tnk_base::NoMemory;

/// The slots of some cycles of a machine. Operations take them, and room is what is left.
#[derive(Drop)]
pub struct SlotTable {
    issued: Vec<u8>,
    busy: Vec<u8>,
}

impl Model for SlotTable {
    ghost Value = { Slots };

    ghost view = { λ s. record { issued = s.issued.items; busy = s.busy.items } };

    ghost invariant = { λ s. AreSlots (record { issued = s.issued.items; busy = s.busy.items }) };
}

/// The place of the count of a unit kind in a cycle.
pub(crate) fn slot(cycle: u32, k: UnitKind) -> usize
    ensures { result ≡ cycle * 5 + unit_number k }
{
    cycle as usize * 5 + k as usize
}

/// Whether less than all units of the kind are busy in each of some cycles.
fn are_free<G: Generation>(busy: &[u8], g: &G, k: UnitKind, from: u32, before: u32) -> bool
    requires inside { before * 5 ≤ length busy.now }
    ensures { IsTrue result ↔ ((t : ℕ) → from ≤ t → t < before →
        slice_index busy.now (t * 5 + unit_number k) < units_of (G.description g.now) k) }
{
    for t in from..before {
        if busy[slot(t, k)] >= g.units(k) {
            return false;
        }
    }
    true
}

/// Counts one more operation that is busy on the unit kind in each of some cycles.
fn keep_busy(busy: &mut [u8], k: UnitKind, from: u32, before: u32)
    requires order { from ≤ before }
    requires inside { before * 5 ≤ length busy.old }
    requires few { (t : ℕ) → from ≤ t → t < before → slice_index busy.old (t * 5 + unit_number k) < 255 }
    ensures busier { IsBusier busy.old busy.new k from before }
    ensures size { length busy.new ≡ length busy.old }
{
    for t in from..before {
        busy[slot(t, k)] += 1;
    }
}

/// Writes the value to the first so many places.
pub(crate) fn fill_first<T: Copy>(list: &mut [T], count: usize, value: T)
    requires { count ≤ length list.old }
    ensures { list.new ≡ replicate count value ++ drop count list.old }
{
    for i in 0..count {
        list[i] = value;
    }
}

impl SlotTable {
    /// So many cycles of which nothing is taken.
    pub fn new(alloc: Global, cycles: u32) -> Result<Self, NoMemory>
        ensures { IfOk result (λ s. s ≡ empty cycles) }
    {
        let cycles = cycles as usize;
        Ok(SlotTable {
            issued: vec![in alloc; 0; cycles]?,
            busy: vec![in alloc; 0; cycles * 5]?,
        })
    }

    /// Gives all slots back.
    pub fn clear(&mut self)
        ensures { self.new ≡ empty (cycles_of self.old) }
    {
        self.issued.fill(0);
        self.busy.fill(0);
    }

    /// Gives the slots of the first so many cycles back.
    pub(crate) fn clear_first(&mut self, count: u32)
        requires { count ≤ cycles_of self.old }
        ensures issued { self.new.issued ≡ replicate count 0 ++ drop count self.old.issued }
        ensures busy { self.new.busy ≡ replicate (count * 5) 0 ++ drop (count * 5) self.old.busy }
    {
        fill_first(&mut self.issued, count as usize, 0);
        fill_first(&mut self.busy, count as usize * 5, 0);
    }

    /// Whether an operation of the unit kind that is busy for one cycle can issue in a cycle of a generation.
    pub(crate) fn is_open<G: Generation>(&self, g: &G, cycle: u32, k: UnitKind) -> bool
        requires { cycle < cycles_of self.now }
        ensures { IsTrue result ↔ HasRoomFor (G.description g.now) self.now k 1 cycle }
    {
        self.issued[cycle as usize] < g.width() && self.busy[slot(cycle, k)] < g.units(k)
    }

    /// Whether an operation of these kinds can issue in a cycle of a generation: fewer than its width do, and while the
    /// operation would be busy, fewer are busy on its unit kind than the generation has units.
    pub fn room<G: Generation>(&self, g: &G, cycle: u32, k: UnitKind, l: LatKind) -> bool
        requires { cycle + busy_of (G.description g.now) l ≤ cycles_of self.now }
        ensures { IsTrue result ↔ HasRoomFor (G.description g.now) self.now k (busy_of (G.description g.now) l) cycle }
    {
        self.issued[cycle as usize] < g.width()
            && are_free(&self.busy, g, k, cycle, cycle + u32::from(g.busy(l)))
    }

    /// Takes the slots of an operation of these kinds that issues in a cycle of a generation. There is room for it.
    pub fn take<G: Generation>(&mut self, g: &G, cycle: u32, k: UnitKind, l: LatKind)
        requires inside { cycle + busy_of (G.description g.now) l ≤ cycles_of self.old }
        requires room { HasRoomFor (G.description g.now) self.old k (busy_of (G.description g.now) l) cycle }
        ensures { IsTaken self.old self.new k (busy_of (G.description g.now) l) cycle }
    {
        self.issued[cycle as usize] += 1;
        keep_busy(&mut self.busy, k, cycle, cycle + u32::from(g.busy(l)));
    }
}
