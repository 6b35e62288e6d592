// Serial orders of linked operations.
ghost use Rattle.std.specs.Prelude.{◌≡◌, ◌<◌, ◌≤◌, ◌+◌, ◌^◌, ◌++◌, ℕ, List, [], None, IfOk, IfNone, IfSome, MatchResult, length, slice_index, vec_capacity};
ghost use Rattle.serial_order.specs.SerialOrder.{IsOrder, first_stuck, IsFirstStuck};
ghost use Rattle.serial_order.specs.Counts.{waiting};
ghost use Rattle.block_links.specs.Links.{AreLinks, LeadInside, row, count_to, is_linked, count_of};
ghost use Rattle.block_links.specs.Idle.{AreIdle};

use super::links::{Link, Links};
use super::lists::add;
use serial_order::OrderFault;
use std::alloc::Global;

/// Counts links at the operations that they lead to.
fn count_on(links: &[Link], waits: &mut [u32])
    requires inside { LeadInside (length waits.old) links.now }
    requires small { (j : ℕ) → slice_index waits.old j + length links.now < 2 ^ 32 }
    ensures size { length waits.new ≡ length waits.old }
    ensures counted { (j : ℕ) → slice_index waits.new j ≡ slice_index waits.old j + count_to links.now j }
{
    for link in links {
        waits[link.to as usize] += 1;
    }
}

/// Counts for each operation the links that lead to it.
pub fn count_all(links: &Links, waits: &mut [u32])
    requires links { AreLinks links.now (length waits.old) }
    ensures size { length waits.new ≡ length waits.old }
    ensures counted { (j : ℕ) →
        slice_index waits.new j ≡ waiting (λ i k. count_to (row links.now i) k) [] j (length waits.old) }
{
    waits.fill(0);
    for i in 0..waits.len() as u16 {
        count_on(links.of(i), waits);
    }
}

/// Adds all operations that wait for none to the empty list.
fn start(waits: &[u32], order: &mut Vec<u16>)
    requires few { length waits.now ≤ 512 }
    requires empty { order.old.items ≡ [] }
    requires room { length waits.now ≤ vec_capacity order.old }
    ensures idle { AreIdle (length waits.now) waits.now order.new.items }
    ensures room { vec_capacity order.old ≤ vec_capacity order.new }
{
    for i in 0..waits.len() as u16 {
        if waits[i as usize] == 0 {
            add(order, i);
        }
    }
}

/// Takes the links of an operation off from those that they lead to. Whoever then waits for none joins the list's end.
fn release(links: &[Link], waits: &mut [u32], order: &mut Vec<u16>)
    requires inside { LeadInside (length waits.old) links.now }
    requires counted { (j : ℕ) → count_to links.now j ≤ slice_index waits.old j }
    requires idle { AreIdle (length waits.old) waits.old order.old.items }
    requires room { length waits.old ≤ vec_capacity order.old }
    ensures size { length waits.new ≡ length waits.old }
    ensures off { (j : ℕ) → slice_index waits.new j + count_to links.now j ≡ slice_index waits.old j }
    ensures idle { AreIdle (length waits.new) waits.new order.new.items }
    ensures behind { (more : List ℕ) × (order.new.items ≡ order.old.items ++ more) }
    ensures room { vec_capacity order.old ≤ vec_capacity order.new }
{
    for link in links {
        let to = link.to as usize;
        waits[to] -= 1;
        if waits[to] == 0 {
            add(order, link.to);
        }
    }
}

/// The least operation that waits for another.
fn first_waiting(waits: &[u32]) -> Option<u16>
    requires few { length waits.now ≤ 512 }
    ensures none { IfNone result ((i : ℕ) → slice_index waits.now i ≡ 0) }
    ensures waits { IfSome result (λ i. (i < length waits.now) × (0 < slice_index waits.now i)) }
    ensures least { IfSome result (λ i. (k : ℕ) → k < i → slice_index waits.now k ≡ 0) }
{
    for i in 0..waits.len() {
        if waits[i] != 0 {
            return Some(i as u16);
        }
    }
    None
}

/// Makes a list that of all operations, each once, in which one stands earlier than another wherever it is linked to it; or
/// answers the least of those that can't be placed, each for another of them. It takes no memory: the list has room for all
/// operations, and `waits` has a place for each, to work in.
///
/// The list is its own queue: whoever waits for none any more joins it at the end. So each link is followed once.
pub fn order_into(links: &Links, waits: &mut [u32], order: &mut Vec<u16>) -> Option<u16>
    requires links { AreLinks links.now (length waits.old) }
    requires room { length waits.old ≤ vec_capacity order.old }
    ensures order { IfNone result (IsOrder (is_linked links.now) (length waits.old) order.new.items) }
    ensures stuck { result ≡ first_stuck (is_linked links.now) (length waits.old) }
    ensures size { length waits.new ≡ length waits.old }
    ensures room { vec_capacity order.old ≤ vec_capacity order.new }
{
    count_all(links, waits);
    order.clear();
    start(waits, order);
    let mut next = 0;
    while next < order.len() {
        release(links.of(order[next]), waits, order);
        next += 1;
    }
    first_waiting(waits)
}

/// A list of all operations, each once, in which one stands earlier than another wherever it is linked to it.
///
/// A `Cycle` comes exactly where some operations can't be placed, each for another of them: it names the least of these.
pub fn order(alloc: Global, links: &Links) -> Result<Vec<u16>, OrderFault>
    requires { AreLinks links.now (count_of links.now) }
    ensures order { IfOk result (λ order. IsOrder (is_linked links.now) (count_of links.now) order.items) }
    ensures stuck { MatchResult result (λ _. first_stuck (is_linked links.now) (count_of links.now) ≡ None)
        (IsFirstStuck (is_linked links.now) (count_of links.now)) }
{
    let n = links.starts.len() - 1;
    let mut waits = vec![in alloc; 0; n]?;
    let mut order = Vec::with_capacity(alloc, n)?;
    match order_into(links, &mut waits, &mut order) {
        Some(i) => Err(OrderFault::Cycle(i)),
        None => Ok(order),
    }
}
