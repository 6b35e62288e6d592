// Serial orders, by placing one operation after another.
ghost use Rattle.std.specs.Prelude.{◌≡◌, ◌<◌, ◌≤◌, ◌+◌, ℕ, Bool, true, false, [], ◌∷◌, ◌++◌, IsTrue, IfOk, IfSome, IfNone, MatchResult, None, length, slice_index, slice_index_or, vec_capacity};
ghost use Rattle.serial_order.specs.Table.{before};
ghost use Rattle.serial_order.specs.SerialOrder.{IsOrder, first_stuck, IsFirstStuck};
ghost use Rattle.serial_order.specs.Counts.{one_where, unplaced_before};

use super::table::Delays;
use std::alloc::{AllocError, AllocFailed, Global};

/// Why there is no order: the least operation that is stuck, or want of memory.
#[derive(Clone, Copy, Debug, PartialEq, Eq)]
pub enum OrderFault {
    Cycle(u16),
    NoMemory,
}

impl From<AllocError> for OrderFault {
    ghost use Rattle.std.specs.Prelude.{◌≡◌};
    ghost use Rattle.serial_order.specs.declared.serial.OrderFault.{OrderFault};

    ghost from_gives = { λ _ e. e ≡ OrderFault.NoMemory };

    fn from(_: AllocError) -> Self {
        OrderFault::NoMemory
    }
}

impl<T: Drop> From<AllocFailed<T>> for OrderFault {
    ghost use Rattle.std.specs.Prelude.{◌≡◌};
    ghost use Rattle.serial_order.specs.declared.serial.OrderFault.{OrderFault};

    ghost from_gives = { λ _ e. e ≡ OrderFault.NoMemory };

    fn from(_: AllocFailed<T>) -> Self {
        OrderFault::NoMemory
    }
}

/// Counts an operation at those that it is before.
fn count_on(d: &Delays, i: u16, waits: &mut [u16])
    requires inside { i < d.now.count }
    requires size { length waits.old ≡ d.now.count }
    requires small { (j : ℕ) → j < d.now.count → slice_index waits.old j ≤ i }
    ensures { (j : ℕ) → j < d.now.count →
        slice_index waits.new j ≡ slice_index waits.old j + one_where (before d.now i j) }
{
    for j in 0..d.count() {
        waits[j as usize] += d.get(i, j).is_some() as u16;
    }
}

/// Takes an operation off from those that it is before.
fn count_off(d: &Delays, i: u16, waits: &mut [u16])
    requires inside { i < d.now.count }
    requires size { length waits.old ≡ d.now.count }
    requires counted { (j : ℕ) → j < d.now.count → one_where (before d.now i j) ≤ slice_index waits.old j }
    ensures { (j : ℕ) → j < d.now.count →
        slice_index waits.new j + one_where (before d.now i j) ≡ slice_index waits.old j }
{
    for j in 0..d.count() {
        waits[j as usize] -= d.get(i, j).is_some() as u16;
    }
}

/// Counts for each operation how many are before it.
fn count_all(d: &Delays, waits: &mut [u16])
    requires { length waits.old ≡ d.now.count }
    ensures few { d.now.count ≤ 512 }
    ensures size { length waits.new ≡ d.now.count }
    ensures counts { (j : ℕ) → j < d.now.count → slice_index waits.new j ≡ unplaced_before
        (before d.now) [] j d.now.count }
{
    waits.fill(0);
    for i in 0..d.count() {
        count_on(d, i, waits);
    }
}

/// The least operation that isn't placed and doesn't wait for another.
fn next_free(waits: &[u16], placed: &[bool]) -> Option<u16>
    requires few { length waits.now ≤ 512 }
    requires size { length placed.now ≡ length waits.now }
    ensures none { IfNone result ((i : ℕ) → i < length waits.now → slice_index_or placed.now i true ≡ false →
        slice_index waits.now i ≡ 0 → ⊥) }
    ensures free { IfSome result (λ i. (i < length waits.now) × (slice_index_or placed.now i true ≡ false) ×
        (slice_index waits.now i ≡ 0)) }
{
    for i in 0..waits.len() {
        if !placed[i] && waits[i] == 0 {
            return Some(i as u16);
        }
    }
    None
}

/// The least operation that isn't placed.
fn first_left(placed: &[bool]) -> Option<u16>
    requires few { length placed.now ≤ 512 }
    ensures none { IfNone result ((i : ℕ) → i < length placed.now → slice_index_or placed.now i true ≡ true) }
    ensures left { IfSome result (λ i. (i < length placed.now) × (slice_index_or placed.now i true ≡ false)) }
    ensures least { IfSome result (λ i. (k : ℕ) → k < i → slice_index_or placed.now k true ≡ true) }
{
    for i in 0..placed.len() {
        if !placed[i] {
            return Some(i as u16);
        }
    }
    None
}

/// Adds an operation to a list that has room for it.
fn add(order: &mut Vec<u16>, i: u16)
    requires { length order.old.items < vec_capacity order.old }
    ensures items { order.new.items ≡ order.old.items ++ i ∷ [] }
    ensures room { vec_capacity order.old ≤ vec_capacity order.new }
{
    if order.push(i).is_err() {
        unreachable!()
    }
}

/// Makes a list that of all operations, each once, in which i stands earlier than j wherever i is before j; or answers the
/// least of those that can't be placed, each for another of them. It takes no memory: the list has room for all operations,
/// and `waits` and `placed` have a place for each, to work in.
///
/// Of the operations that can come next it takes the least; a table over n operations is read some 2 n^2 times.
pub fn order_into(
    d: &Delays,
    waits: &mut [u16],
    placed: &mut [bool],
    order: &mut Vec<u16>,
) -> Option<u16>
    requires waits { length waits.old ≡ d.now.count }
    requires placed { length placed.old ≡ d.now.count }
    requires room { d.now.count ≤ vec_capacity order.old }
    ensures order { IfNone result (IsOrder (before d.now) d.now.count order.new.items) }
    ensures stuck { result ≡ first_stuck (before d.now) d.now.count }
    ensures room { vec_capacity order.old ≤ vec_capacity order.new }
{
    count_all(d, waits);
    placed.fill(false);
    order.clear();
    while let Some(i) = next_free(waits, placed) {
        count_off(d, i, waits);
        placed[i as usize] = true;
        add(order, i);
    }
    first_left(placed)
}

/// A list of all operations, each once, in which i stands earlier than j wherever i is before j.
///
/// A `Cycle` comes exactly where some operations can't be placed, each for another of them: it names the least of these.
pub fn order(alloc: Global, d: &Delays) -> Result<Vec<u16>, OrderFault>
    ensures order { IfOk result (λ order. IsOrder (before d.now) d.now.count order.items) }
    ensures stuck { MatchResult result (λ _. first_stuck (before d.now) d.now.count ≡ None)
        (IsFirstStuck (before d.now) d.now.count) }
{
    let n = d.count() as usize;
    let mut waits = vec![in alloc; 0; n]?;
    let mut placed = vec![in alloc; false; n]?;
    let mut order = Vec::with_capacity(alloc, n)?;
    match order_into(d, &mut waits, &mut placed, &mut order) {
        Some(i) => Err(OrderFault::Cycle(i)),
        None => Ok(order),
    }
}
