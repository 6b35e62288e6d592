// The operations that aren't placed: for what they wait, and which of them goes next.
ghost use Rattle.std.specs.Prelude.{◌≡◌, ◌<◌, ◌≤◌, ◌^◌, ◌+◌, ◌⊎◌, ℕ, IsTrue, ◌↔◌, [], length, slice_index, IfOk, vec_capacity};
ghost use Rattle.std.specs.BinaryHeap.{heap_items, heap_capacity};
ghost use Rattle.operation.specs.declared.UnitKind.TheVariants as unit;
ghost use Rattle.serial_order.specs.Counts.{one_where};
ghost use Rattle.block_links.specs.Links.{LeadInside, count_to, delay_of};
ghost use Rattle.list_sched.specs.Given.{unit_in, latency_in};
ghost use Rattle.list_sched.specs.Steps.{IsHeldBack};
ghost use Rattle.list_sched.specs.Queue.{IsQueue, IsMore, AreFreed, IsFirst, IsBranchLeft, entries_of, is_branch, can_go};

use crate::height::{climbed, delay_on};
use block_links::Link;
use machine_desc::Generation;
use operation::{LatKind, UnitKind};
use std::cmp::Reverse;
use std::collections::BinaryHeap;

/// The operations but for the branch that can be placed next, with their heights: the greatest height goes first, then the
/// least number.
pub(crate) type Queue = BinaryHeap<(u32, Reverse<u16>)>;

/// Holds back those to which the links of an operation that issues in a cycle lead.
pub(crate) fn hold_back<G: Generation>(
    links: &[Link],
    i: u16,
    kinds: &[(UnitKind, LatKind)],
    g: &G,
    cycle: u32,
    least: &mut [u32],
)
    requires there { i < length kinds.now }
    requires inside { LeadInside (length kinds.now) links.now }
    requires size { length least.old ≡ length kinds.now }
    requires small { cycle < 2 ^ 20 }
    ensures { IsHeldBack (delay_of (latency_in kinds.now (G.description g.now)) i) links.now cycle least.old least.new }
{
    let latency = g.latency(kinds[i as usize].1);
    for link in links {
        let to = link.to as usize;
        let delay = delay_on(link, latency, kinds, g);
        least[to] = climbed(least[to], delay, cycle);
    }
}

/// Whether an operation is a branch.
fn branches(kinds: &[(UnitKind, LatKind)], i: u16) -> bool
    requires { i < length kinds.now }
    ensures { result ≡ is_branch kinds.now i }
{
    match kinds[i as usize].0 {
        UnitKind::B => true,
        _ => false,
    }
}

/// Adds an operation to the queue, which has room for all.
fn queue_up(queue: &mut Queue, heights: &[u32], i: u16)
    requires queue { IsQueue heights.now (heap_items queue.old) }
    requires room { length heights.now ≤ heap_capacity queue.old }
    requires inside { i < length heights.now }
    requires new { entries_of (heap_items queue.old) i ≡ 0 }
    ensures queue { IsQueue heights.now (heap_items queue.new) }
    ensures more { IsMore (heap_items queue.old) i (heap_items queue.new) }
    ensures room { heap_capacity queue.old ≤ heap_capacity queue.new }
{
    match queue.push((heights[i as usize], Reverse(i))) {
        Ok(()) => {}
        Err(_) => unreachable!(),
    }
}

/// Makes the queue that of all operations that wait for none.
pub(crate) fn find_ready(
    kinds: &[(UnitKind, LatKind)],
    heights: &[u32],
    waits: &[u32],
    queue: &mut Queue,
)
    requires kinds { length kinds.now ≡ length heights.now }
    requires waits { length waits.now ≡ length heights.now }
    requires few { length heights.now ≤ 512 }
    requires room { length heights.now ≤ heap_capacity queue.old }
    ensures queue { IsQueue heights.now (heap_items queue.new) }
    ensures entries { (j : ℕ) → j < length heights.now →
        entries_of (heap_items queue.new) j ≡ one_where (can_go kinds.now waits.now j) }
    ensures room { heap_capacity queue.old ≤ heap_capacity queue.new }
{
    queue.clear();
    for i in 0..kinds.len() as u16 {
        if waits[i as usize] == 0 && !branches(kinds, i) {
            queue_up(queue, heights, i);
        }
    }
}

/// Takes the links of an operation that is placed off from those that they lead to. Those that then wait for none join the
/// queue, the branch excepted.
pub(crate) fn release(
    links: &[Link],
    kinds: &[(UnitKind, LatKind)],
    heights: &[u32],
    waits: &mut [u32],
    queue: &mut Queue,
)
    requires kinds { length kinds.now ≡ length heights.now }
    requires waits { length waits.old ≡ length heights.now }
    requires inside { LeadInside (length heights.now) links.now }
    requires counted { (j : ℕ) → count_to links.now j ≤ slice_index waits.old j }
    requires room { length heights.now ≤ heap_capacity queue.old }
    requires queue { IsQueue heights.now (heap_items queue.old) }
    requires idle { (j : ℕ) → 0 < entries_of (heap_items queue.old) j → slice_index waits.old j ≡ 0 }
    ensures size { length waits.new ≡ length waits.old }
    ensures off { (j : ℕ) → slice_index waits.new j + count_to links.now j ≡ slice_index waits.old j }
    ensures queue { IsQueue heights.now (heap_items queue.new) }
    ensures freed { AreFreed kinds.now waits.old waits.new (heap_items queue.old) (heap_items queue.new) }
    ensures room { heap_capacity queue.old ≤ heap_capacity queue.new }
{
    for link in links {
        let to = link.to as usize;
        waits[to] -= 1;
        if waits[to] == 0 && !branches(kinds, link.to) {
            queue_up(queue, heights, link.to);
        }
    }
}

/// The branch, which there is.
fn find_branch(kinds: &[(UnitKind, LatKind)]) -> u16
    requires few { length kinds.now ≤ 512 }
    requires some { (b : ℕ) × (b < length kinds.now) × (unit_in kinds.now b ≡ unit.B) }
    ensures inside { result < length kinds.now }
    ensures branch { unit_in kinds.now result ≡ unit.B }
{
    for i in 0..kinds.len() as u16 {
        if branches(kinds, i) {
            return i;
        }
    }
    unreachable!()
}

/// The operation that goes next: the first of the queue, which it leaves, or else the branch.
pub(crate) fn next(kinds: &[(UnitKind, LatKind)], heights: &[u32], queue: &mut Queue) -> u16
    requires few { length kinds.now ≤ 512 }
    requires queue { IsQueue heights.now (heap_items queue.old) }
    requires some { ((j : ℕ) → entries_of (heap_items queue.old) j ≡ 0) →
        (b : ℕ) × (b < length kinds.now) × (unit_in kinds.now b ≡ unit.B) }
    ensures queue { IsQueue heights.now (heap_items queue.new) }
    ensures next { IsFirst heights.now (heap_items queue.old) (heap_items queue.new) result ⊎
        IsBranchLeft kinds.now (heap_items queue.old) (heap_items queue.new) result }
    ensures room { heap_capacity queue.old ≤ heap_capacity queue.new }
{
    match queue.pop() {
        Some((_, Reverse(i))) => i,
        None => find_branch(kinds),
    }
}
