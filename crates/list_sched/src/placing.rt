// Placing one operation after another.
ghost use Rattle.std.specs.Prelude.{◌≡◌, ◌<◌, ◌≤◌, length, slice_index, vec_capacity};
ghost use Rattle.list_sched.specs.Schedule.{IsProblem, IsSchedule, AreHeights};
ghost use Rattle.block_links.specs.Links.{AreLinks};
ghost use Rattle.list_sched.specs.Links.{linked};
ghost use Rattle.list_sched.specs.Steps.{IsStart};
ghost use Rattle.list_sched.specs.Work.{IsReadyFor, IsKept};
ghost use Rattle.list_sched.specs.Planned.{schedule_with};

use crate::rooms::Rooms;
use crate::waiting::{Queue, find_ready, hold_back, next, release};
use block_links::lists::add;
use block_links::{Links, count_all};
use machine_desc::Generation;
use operation::{LatKind, UnitKind};

/// What is known of the operations that aren't placed, and of the cycles that have room.
#[derive(Drop)]
pub(crate) struct Work {
    /// For each operation, how many links from operations that aren't placed lead to it.
    pub waits: Vec<u32>,
    /// The least cycle that the placed ones allow it.
    pub least: Vec<u32>,
    pub queue: Queue,
    pub rooms: Rooms,
}

/// The cycle from which on an operation looks for room: the branch lands no earlier than the others, which land by `end`.
fn start(unit: UnitKind, latency: u32, least: u32, end: u32) -> u32
    ensures { IsStart unit latency least end result }
{
    match unit {
        UnitKind::B => least.max(end.saturating_sub(latency)),
        _ => least,
    }
}

/// Places all operations by their heights: writes their cycles and the order of placing, which has room for all, and answers
/// the end.
pub(crate) fn place<G: Generation>(
    links: &Links,
    kinds: &[(UnitKind, LatKind)],
    g: &G,
    heights: &[u32],
    work: &mut Work,
    cycle: &mut [u32],
    order: &mut Vec<u16>,
) -> u32
    requires links { AreLinks links.now (length kinds.now) }
    requires problem { IsProblem (linked links.now kinds.now (G.description g.now)) }
    requires heights { length heights.now ≡ length kinds.now }
    requires high { AreHeights (linked links.now kinds.now (G.description g.now)) (slice_index heights.now) }
    requires work { IsReadyFor work.old (length kinds.now) }
    requires cycle { length cycle.old ≡ length kinds.now }
    requires room { length kinds.now ≤ vec_capacity order.old }
    ensures schedule { IsSchedule (linked links.now kinds.now (G.description g.now))
        (schedule_with order.new.items cycle.new result) }
    ensures work { IsKept work.old work.new }
    ensures room { vec_capacity order.old ≤ vec_capacity order.new }
    ensures cycles { length cycle.new ≡ length kinds.now }
{
    count_all(links, &mut work.waits);
    work.least.fill(0);
    find_ready(kinds, heights, &work.waits, &mut work.queue);
    work.rooms.clear(32 * kinds.len() as u32);
    cycle.fill(0);
    order.clear();
    let mut end = 0;
    for step in 0..kinds.len() as u32 {
        let i = next(kinds, heights, &mut work.queue);
        let (unit, kind) = kinds[i as usize];
        let latency = g.latency(kind) as u32;
        let from = start(unit, latency, work.least[i as usize], end);
        let c = work.rooms.find(g, unit, kind, from, 32 * step);
        work.rooms.take(g, c, unit, kind);
        hold_back(links.of(i), i, kinds, g, c, &mut work.least);
        release(
            links.of(i),
            kinds,
            heights,
            &mut work.waits,
            &mut work.queue,
        );
        cycle[i as usize] = c;
        add(order, i);
        end = end.max(c + latency);
    }
    end
}
