// The operations of a block's words, and of a page's, with their times, written in place.
//
// It stands on `list_encoding`, which reads words, on `machine_desc` for latencies, and on `latency_deps` for what the
// operations and the times of words are (its specs/Timing.antt) and for pages. `time_block` promises just these, and
// `time_page` promises them for each block of a page whose words are those of its form, in the words of `page_resched`
// (specs/Page.antt). Neither takes memory: a page's words are read once, when it is loaded, and a machine that plays its
// blocks reads none.
#![tactic(auto)]

ghost use Rattle.std.specs.Prelude.{◌≡◌, ◌≤◌, length};
ghost use Rattle.operation.specs.Places.{latency_kind};
ghost use Rattle.machine_desc.specs.Description.{latency_of};
ghost use Rattle.list_encoding.specs.Reading.{operation_of};
ghost use Rattle.two_timings.specs.Timing.{timed_ops};
ghost use Rattle.latency_deps.specs.Timing.{ops_of, own_timing};
ghost use Rattle.latency_deps.specs.Rules.{end_of};
ghost use Rattle.block_ops.specs.Page.{ArePageOps};

use latency_deps::GoodPage;
use list_encoding::{decode, is_head, pause};
use machine_desc::Generation;
use operation::{Guarded, Op, lat_kind};
use timed_meaning::TimedOp;

/// The operation of a word; `halt r0` where it has none.
fn operation(word: u64) -> Guarded
    ensures { result ≡ operation_of word }
{
    match decode(word) {
        Some(coded) => coded.guarded,
        None => Guarded {
            guard: 0,
            op: Op::Halt(0),
        },
    }
}

/// A word's operation, which issues in a cycle, with its latency.
fn timed_op<G: Generation>(g: &G, word: u64, at: u32) -> TimedOp
    ensures guarded { result.guarded ≡ operation_of word }
    ensures at { result.at ≡ at }
    ensures latency { result.latency ≡ latency_of (G.description g.now) (latency_kind (operation_of word).op) }
{
    let guarded = operation(word);
    let latency = g.latency(lat_kind(&guarded.op));
    TimedOp {
        guarded,
        at,
        latency,
    }
}

/// Writes the operations of a block of at most 512 words with their times under a generation, one for each word, and gives
/// the cycle in which the block ends. A word without a reading stands as `halt r0` under p0.
pub fn time_block<G: Generation>(g: &G, words: &[u64], ops: &mut [TimedOp]) -> u32
    requires few { length words.now ≤ 512 }
    requires room { length ops.old ≡ length words.now }
    ensures ops { ops.new ≡ timed_ops (ops_of words.now) (own_timing (G.description g.now) words.now) }
    ensures end { result ≡ end_of words.now }
{
    let mut present = 0;
    let mut next = 0;
    for k in 0..words.len() {
        let word = words[k];
        if is_head(word) {
            present = next;
            next += 1 + pause(word) as u32;
        }
        ops[k] = timed_op(g, word, present);
    }
    next
}

/// Writes the operations of a page's blocks with their times under a generation, each block's from its place on, and at each
/// block's place the cycle in which it ends. `words` are the 512 of the page in whatever form; all other slots are left.
pub fn time_page<G: Generation>(
    g: &G,
    page: &GoodPage,
    words: &[u64],
    ops: &mut [TimedOp],
    ends: &mut [u32],
)
    requires whole { length words.now ≡ 512 }
    requires room { length ops.old ≡ 512 }
    requires ends { length ends.old ≡ 512 }
    ensures { ArePageOps (G.description g.now) page.now words.now ops.new ends.new }
{
    for k in 0..page.blocks() {
        let place = page.place(k) as usize;
        let end = place + page.block(k).count() as usize;
        ends[place] = time_block(g, &words[place..end], &mut ops[place..end]);
    }
}
