// The search for the first cycle that has room.
ghost use Rattle.std.specs.Prelude.{◌≡◌, ◌<◌, ◌≤◌, ◌+◌, ◌^◌, ℕ, IfOk};
ghost use Rattle.operation.specs.declared.UnitKind.{UnitKind};
ghost use Rattle.machine_desc.specs.Description.{Description, busy_of};
ghost use Rattle.list_sched.specs.Slots.{cycles as cycles_of, HasRoomFor, IsTaken};
ghost use Rattle.list_sched.specs.Rooms.{AreRooms, IsKnown, IsCleared, IsOpen, IsClosed, full_up_to};

use crate::slots::{SlotTable, fill_first, slot};
use machine_desc::Generation;
use operation::{LatKind, UnitKind};
use std::alloc::Global;
use tnk_base::NoMemory;

/// The slots of the cycles of a plan, and which of these cycles are known to have no room.
///
/// A cycle that has no room for an operation of a unit kind never has room for one again. So for each kind each cycle has
/// a number: no cycle from it on before that number has room. A search leaps along these numbers, and each leap makes the
/// next one through its cycle longer.
#[derive(Drop)]
pub(crate) struct Rooms {
    slots: SlotTable,
    full: Vec<u16>,
    count: u32,
}

impl Rooms {
    /// Room for plans of so many cycles; none of them is in use.
    pub(crate) fn new(alloc: Global, cycles: u32) -> Result<Self, NoMemory>
        requires { cycles < 2 ^ 16 }
        ensures cycles { IfOk result (λ r. cycles_of r.slots ≡ cycles) }
        ensures rooms { IfOk result (λ r. AreRooms r) }
    {
        Ok(Rooms {
            slots: SlotTable::new(alloc, cycles)?,
            full: vec![in alloc; 0; cycles as usize * 5]?,
            count: 0,
        })
    }

    /// Takes the first so many cycles in use, of which nothing is taken.
    pub(crate) fn clear(&mut self, count: u32)
        requires inside { count ≤ cycles_of self.old.slots }
        requires rooms { AreRooms self.old }
        ensures known { (g : Description) → IsKnown g self.new }
        ensures cleared { IsCleared self.new }
        ensures count { self.new.count ≡ count }
        ensures cycles { cycles_of self.new.slots ≡ cycles_of self.old.slots }
    {
        self.slots.clear_first(count);
        fill_first(&mut self.full, count as usize * 5, 0);
        self.count = count;
    }

    /// The first cycle from one on that has room for an operation of these kinds, or the last one.
    pub(crate) fn find<G: Generation>(
        &mut self,
        g: &G,
        k: UnitKind,
        l: LatKind,
        from: u32,
        last: u32,
    ) -> u32
        requires inside { last + busy_of (G.description g.now) l ≤ self.old.count }
        requires order { from ≤ last }
        requires known { IsKnown (G.description g.now) self.old }
        ensures known { IsKnown (G.description g.now) self.new }
        ensures slots { self.new.slots ≡ self.old.slots }
        ensures count { self.new.count ≡ self.old.count }
        ensures within { (from ≤ result) × (result ≤ last) }
        ensures room { result < last →
            HasRoomFor (G.description g.now) self.old.slots k (busy_of (G.description g.now) l) result }
        ensures full { (c : ℕ) → from ≤ c → c < result →
            HasRoomFor (G.description g.now) self.old.slots k (busy_of (G.description g.now) l) c → ⊥ }
    {
        let mut c = self.open_from(g, k, from, last);
        while c < last && !self.slots.room(g, c, k, l) {
            c = self.open_from(g, k, c + 1, last);
        }
        c
    }

    /// The first cycle from one on that is open for a unit kind, or the last one.
    fn open_from<G: Generation>(&mut self, g: &G, k: UnitKind, from: u32, last: u32) -> u32
        requires inside { last < self.old.count }
        requires order { from ≤ last }
        requires known { IsKnown (G.description g.now) self.old }
        ensures known { IsKnown (G.description g.now) self.new }
        ensures slots { self.new.slots ≡ self.old.slots }
        ensures count { self.new.count ≡ self.old.count }
        ensures within { (from ≤ result) × (result ≤ last) }
        ensures room { result < last → IsOpen (G.description g.now) self.old.slots k result }
        ensures closed { IsClosed (G.description g.now) self.old.slots k from result }
    {
        let mut c = from;
        while c < last {
            let ahead = u32::from(self.full[slot(c, k)]);
            if ahead > c {
                self.halve(k, c, ahead);
                c = ahead.min(last);
            } else if self.slots.is_open(g, c, k) {
                return c;
            } else {
                self.note(k, c, c as u16 + 1);
                c += 1;
            }
        }
        last
    }

    /// Halves the path from a cycle on: it leaps with the next one's leap too.
    fn halve(&mut self, k: UnitKind, c: u32, ahead: u32)
        requires inside { c < self.old.count }
        requires ahead { ahead ≡ full_up_to self.old k c }
        requires order { c < ahead }
        requires known { (g : Description) × IsKnown g self.old }
        ensures known { (g : Description) → IsKnown g self.old → IsKnown g self.new }
        ensures longer { ahead < self.old.count → full_up_to self.old k ahead ≤ full_up_to self.new k c }
        ensures slots { self.new.slots ≡ self.old.slots }
        ensures count { self.new.count ≡ self.old.count }
    {
        if ahead < self.count {
            let further = self.full[slot(ahead, k)];
            if u32::from(further) > ahead {
                self.note(k, c, further);
            }
        }
    }

    /// Writes down that no cycle from one on before another is open.
    fn note(&mut self, k: UnitKind, c: u32, before: u16)
        requires inside { c < self.old.count }
        requires known { (g : Description) × IsKnown g self.old }
        ensures known { (g : Description) → IsKnown g self.old → before ≤ self.old.count →
            IsClosed g self.old.slots k c before → IsKnown g self.new }
        ensures written { full_up_to self.new k c ≡ before }
        ensures slots { self.new.slots ≡ self.old.slots }
        ensures count { self.new.count ≡ self.old.count }
    {
        self.full[slot(c, k)] = before;
    }

    /// Takes the slots of an operation of these kinds that issues in a cycle. There is room for it.
    pub(crate) fn take<G: Generation>(&mut self, g: &G, cycle: u32, k: UnitKind, l: LatKind)
        requires inside { cycle + busy_of (G.description g.now) l ≤ self.old.count }
        requires known { IsKnown (G.description g.now) self.old }
        requires room { HasRoomFor (G.description g.now) self.old.slots k (busy_of (G.description g.now) l) cycle }
        ensures known { IsKnown (G.description g.now) self.new }
        ensures taken { IsTaken self.old.slots self.new.slots k (busy_of (G.description g.now) l) cycle }
        ensures count { self.new.count ≡ self.old.count }
    {
        self.slots.take(g, cycle, k, l);
    }
}
