// The words of a block in form, from its schedule.
ghost use Rattle.std.specs.Prelude.{◌≡◌, ◌≢◌, ◌<◌, ◌≤◌, ◌^◌, ◌↔◌, ℕ, IsTrue, [], length, take, slice_index};
ghost use Rattle.serial_order.specs.Lists.{Among};
ghost use Rattle.list_sched.specs.Extremes.{IsLeast};
ghost use Rattle.list_sched.specs.Planned.{schedule_with};
ghost use Rattle.page_resched.specs.Form.{IsLater, IsFormOf, AreForms};
ghost use Rattle.page_resched.specs.Writing.{word_with, cycle_at, IsSorted, IsListed};

use latency_deps::GoodBlock;

/// A word with another head mark and pause.
fn with_place(old: u64, head: u64, pause: u64) -> u64
    requires head { head < 2 }
    requires pause { pause < 32 }
    ensures { result ≡ word_with head pause old }
{
    old % (1 << 54) + pause * (1 << 54) + old / (1 << 59) % 16 * (1 << 59) + head * (1 << 63)
}

/// The next used cycle after that of the operation listed at a place, or the end.
fn next_used(cycle: &[u32], end: u32, listed: &[u16], m: usize) -> u32
    requires place { m < length listed.now }
    requires listed { IsListed cycle.now end listed.now }
    ensures { IsLeast (IsLater (schedule_with listed.now cycle.now end) (cycle_at cycle.now listed.now m)) result }
{
    let c = cycle[listed[m] as usize];
    for j in m + 1..listed.len() {
        let next = cycle[listed[j] as usize];
        if next != c {
            return next;
        }
    }
    end
}

/// Whether the operation listed at a place is the first of its cycle.
fn is_first(cycle: &[u32], listed: &[u16], m: usize) -> bool
    requires place { m < length listed.now }
    requires sorted { IsSorted cycle.now listed.now }
    ensures { IsTrue result ↔ ((i : ℕ) → Among i (take m listed.now) →
        slice_index cycle.now i ≢ cycle_at cycle.now listed.now m) }
{
    m == 0 || cycle[listed[m - 1] as usize] != cycle[listed[m] as usize]
}

/// The word of the operation listed at a place, whose word in the block is `old`.
fn word_at(cycle: &[u32], end: u32, listed: &[u16], m: usize, old: u64) -> u64
    requires place { m < length listed.now }
    requires listed { IsListed cycle.now end listed.now }
    ensures { IsFormOf (schedule_with listed.now cycle.now end) (take m listed.now) (slice_index listed.now m) old result }
{
    if is_first(cycle, listed, m) {
        let c = cycle[listed[m] as usize];
        with_place(old, 1, (next_used(cycle, end, listed, m) - c - 1) as u64)
    } else {
        with_place(old, 0, 0)
    }
}

/// Writes the words of a block in form in place of others, by the listed operations of its schedule.
pub(crate) fn write_words(b: &GoodBlock, cycle: &[u32], end: u32, listed: &[u16], words: &mut [u64])
    requires cycles { length cycle.now ≡ length b.now.words }
    requires listed { IsListed cycle.now end listed.now }
    requires size { length words.old ≡ length listed.now }
    ensures { AreForms b.now.words (schedule_with listed.now cycle.now end) [] listed.now words.new }
{
    for m in 0..listed.len() {
        words[m] = word_at(cycle, end, listed, m, b.word(listed[m]));
    }
}
