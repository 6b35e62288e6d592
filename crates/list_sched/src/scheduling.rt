// List schedules, in memory that is taken once.
ghost use Rattle.std.specs.Prelude.{◌≡◌, ◌<◌, ◌≤◌, ℕ, [], length, slice_index, Option, ℤ, IfOk};
ghost use Rattle.block_links.specs.Links.{AreLinks};
ghost use Rattle.list_sched.specs.Schedule.{IsProblem, IsSchedule};
ghost use Rattle.list_sched.specs.Given.{AreCovered, problem_of, problem_by};
ghost use Rattle.list_sched.specs.Links.{linked};
ghost use Rattle.list_sched.specs.Planned.{Plan, HasRoom, IsDesk, schedule_with, schedule_of};

use crate::height::find_heights;
use crate::links::fill;
use crate::placing::{Work, place};
use crate::rooms::Rooms;
use block_links::lists::refill;
use block_links::{Links, order_into};
use machine_desc::Generation;
use operation::{LatKind, UnitKind};
use serial_order::Delays;
use std::alloc::Global;
use std::collections::BinaryHeap;
use std::marker::Model;
use tnk_base::NoMemory;

/// The most operations that can be scheduled.
const MOST: usize = 512;

/// The last schedule that was made, and what the next one is made in.
#[derive(Drop)]
pub(crate) struct Desk {
    heights: Vec<u32>,
    work: Work,
    cycle: Vec<u32>,
    order: Vec<u16>,
    end: u32,
}

impl Desk {
    /// Room for 512 operations; no schedule was made yet.
    fn new(alloc: Global) -> Result<Self, NoMemory>
        ensures room { IfOk result IsDesk }
        ensures none { IfOk result (λ d. (d.order.items ≡ []) × (d.cycle.items ≡ []) × (d.end ≡ 0)) }
    {
        Ok(Desk {
            heights: Vec::with_capacity(alloc, MOST)?,
            work: Work {
                waits: Vec::with_capacity(alloc, MOST)?,
                least: Vec::with_capacity(alloc, MOST)?,
                queue: BinaryHeap::with_capacity(alloc, MOST)?,
                rooms: Rooms::new(alloc, 32 * MOST as u32)?,
            },
            cycle: Vec::with_capacity(alloc, MOST)?,
            order: Vec::with_capacity(alloc, MOST)?,
            end: 0,
        })
    }

    /// Makes the schedule of linked operations.
    fn plan<G: Generation>(&mut self, links: &Links, kinds: &[(UnitKind, LatKind)], g: &G)
        requires room { IsDesk self.old }
        requires links { AreLinks links.now (length kinds.now) }
        requires problem { IsProblem (linked links.now kinds.now (G.description g.now)) }
        ensures schedule { IsSchedule (linked links.now kinds.now (G.description g.now))
            (schedule_with self.new.order.items self.new.cycle.items self.new.end) }
        ensures cycles { length self.new.cycle.items ≡ length kinds.now }
        ensures room { IsDesk self.new }
    {
        let n = kinds.len();
        refill(&mut self.heights, 0, n);
        refill(&mut self.work.waits, 0, n);
        refill(&mut self.work.least, 0, n);
        refill(&mut self.cycle, 0, n);
        if order_into(links, &mut self.work.waits, &mut self.order).is_some() {
            unreachable!()
        }
        find_heights(links, kinds, g, &self.order, &mut self.heights);
        self.end = place(
            links,
            kinds,
            g,
            &self.heights,
            &mut self.work,
            &mut self.cycle,
            &mut self.order,
        );
    }
}

/// The last schedule that was made, and the memory for the next one.
#[derive(Drop)]
pub struct Planner {
    links: Links,
    desk: Desk,
}

impl Model for Planner {
    ghost Value = { Plan };

    ghost view = { λ p. record { order = p.desk.order.items; cycles = p.desk.cycle.items; end = p.desk.end } };

    ghost invariant = { λ p. HasRoom p.links p.desk };
}

impl Planner {
    /// No schedule was made yet: the order is empty and the end 0.
    pub fn new(alloc: Global) -> Result<Self, NoMemory>
        ensures { IfOk result (λ p. (p.order ≡ []) × (p.cycles ≡ []) × (p.end ≡ 0)) }
    {
        Ok(Planner {
            links: Links::with_room(alloc, MOST, MOST * MOST)?,
            desk: Desk::new(alloc)?,
        })
    }

    /// Makes the list schedule of operations with these delays and kinds on a machine generation. It takes no memory.
    ///
    /// It reads the table of n operations once. From there on it takes a few steps for each delay, and for each operation
    /// some log n to find the one that goes next and a leap or two to the cycle that has room.
    pub fn plan<G: Generation>(&mut self, d: &Delays, kinds: &[(UnitKind, LatKind)], g: &G)
        requires count { length kinds.now ≡ d.now.count }
        requires problem { IsProblem (problem_of d.now kinds.now (G.description g.now)) }
        ensures schedule { IsSchedule (problem_of d.now kinds.now (G.description g.now))
            (schedule_with self.new.order self.new.cycles self.new.end) }
        ensures cycles { length self.new.cycles ≡ d.now.count }
    {
        fill(&mut self.links, d);
        self.desk.plan(&self.links, kinds, g);
    }

    /// Makes the list schedule of operations of these kinds on a machine generation, by links that cover their delays. It
    /// takes no memory, and a few steps for each link.
    pub fn plan_links<G: Generation>(&mut self, links: &Links, kinds: &[(UnitKind, LatKind)], g: &G)
        requires links { AreLinks links.now (length kinds.now) }
        requires problem { (delay : ℕ → ℕ → Option ℤ) × AreCovered links.now delay kinds.now (G.description g.now) }
        ensures schedule { (delay : ℕ → ℕ → Option ℤ) → AreCovered links.now delay kinds.now (G.description g.now) →
            IsSchedule (problem_by delay kinds.now (G.description g.now))
            (schedule_with self.new.order self.new.cycles self.new.end) }
        ensures cycles { length self.new.cycles ≡ length kinds.now }
    {
        self.desk.plan(links, kinds, g);
    }

    /// The cycle in which an operation of the last schedule issues.
    pub fn cycle(&self, i: u16) -> u32
        requires { i < length self.now.cycles }
        ensures { result ≡ slice_index self.now.cycles i }
    {
        self.desk.cycle[i as usize]
    }

    /// The cycles of all operations of the last schedule.
    pub fn cycles(&self) -> &[u32]
        ensures { result.now ≡ self.now.cycles }
    {
        &self.desk.cycle
    }

    /// The operations of the last schedule in order of placing.
    pub fn order(&self) -> &[u16]
        ensures { result.now ≡ self.now.order }
    {
        &self.desk.order
    }

    /// The cycle at which all operations of the last schedule have landed.
    pub fn end(&self) -> u32
        ensures { result ≡ self.now.end }
    {
        self.desk.end
    }
}

/// A schedule: the issue cycle of each operation, the operations in order of placing, and the cycle at which all have landed.
#[derive(Debug, Drop)]
pub struct Planned {
    pub cycle: Vec<u32>,
    pub order: Vec<u16>,
    pub end: u32,
}

/// The list schedule of operations with these delays and kinds on a machine generation: what a new planner makes.
pub fn schedule<G: Generation>(
    alloc: Global,
    d: &Delays,
    kinds: &[(UnitKind, LatKind)],
    g: &G,
) -> Result<Planned, NoMemory>
    requires count { length kinds.now ≡ d.now.count }
    requires problem { IsProblem (problem_of d.now kinds.now (G.description g.now)) }
    ensures schedule { IfOk result (λ s. IsSchedule (problem_of d.now kinds.now (G.description g.now)) (schedule_of s)) }
    ensures cycles { IfOk result (λ s. length s.cycle.items ≡ d.now.count) }
{
    let mut planner = Planner::new(alloc)?;
    planner.plan(d, kinds, g);
    Ok(Planned {
        cycle: planner.cycles().to_vec(alloc)?,
        order: planner.order().to_vec(alloc)?,
        end: planner.end(),
    })
}
