// The operations of a block two by two: which comes before which, and by how many cycles.
ghost use Rattle.std.specs.Prelude.{◌≡◌, ◌≤◌, ◌<◌, ◌^◌, ℕ, length, IsFalse, None};
ghost use Rattle.machine_desc.specs.Description.{latency_of};
ghost use Rattle.serial_order.specs.Table.{delay_of, HasRoom};
ghost use Rattle.dependences.specs.Before.{lands_at};
ghost use Rattle.dependences.specs.Graph.{node, meeting, turned as turned_meeting, before_in_any_list as is_before_in_any_list, is_before as is_first, at_least as is_at_least, greatest_of, have_nothing_in_common, delay_by_meeting, delay_at, node_at, AreShort, AreDelays};

use super::footprint::Footprint;
use machine_desc::Generation;
use operation::lat_kind;
use serial_order::Delays;
use timed_meaning::TimedOp;
use trap_order::ordered;

/// An operation, and what decides when it comes before another.
#[derive(Clone, Copy)]
pub struct Node {
    /// The operation with its times in the block.
    pub timed: TimedOp,
    pub footprint: Footprint,
    /// The cycle in which its writes land, by these times.
    pub lands: u32,
    /// Its latency under the generation that the delays are for, 1 to 32.
    pub latency: u8,
}

/// What stands between two operations, whatever their times.
#[derive(Clone, Copy)]
pub(crate) struct Meeting {
    /// The first writes what the second reads.
    feeds: bool,
    /// The first reads what the second writes.
    fed: bool,
    /// Both write a register, predicate or target, not as one wired family there.
    both_write: bool,
    /// Both can trap, or both are `inb`. Stores can trap.
    in_list_order: bool,
}

impl Node {
    /// The node of an operation, under the latencies of a generation.
    pub fn of<G: Generation>(timed: &TimedOp, g: &G) -> Self
        requires { lands_at timed.now < 2 ^ 32 }
        ensures { result ≡ node (latency_of (G.description g.now)) timed.now }
    {
        Node {
            timed: *timed,
            footprint: Footprint::of(&timed.guarded),
            lands: timed.at + timed.latency as u32,
            latency: g.latency(lat_kind(&timed.guarded.op)),
        }
    }

    /// Whether the two can stand in any order, whatever their times. Each pair of a block is asked once.
    fn has_nothing_in_common(&self, other: &Self) -> bool
        ensures { result ≡ have_nothing_in_common self.now other.now }
    {
        self.footprint.is_stranger_to(&other.footprint)
            & !ordered(&self.timed.guarded.op, &other.timed.guarded.op)
    }
}

fn meet(a: &Node, b: &Node) -> Meeting
    ensures { result ≡ meeting a.now b.now }
{
    Meeting {
        feeds: a.footprint.feeds(&b.footprint),
        fed: b.footprint.feeds(&a.footprint),
        both_write: a.footprint.clashes(&b.footprint),
        in_list_order: ordered(&a.timed.guarded.op, &b.timed.guarded.op),
    }
}

/// The greater of two delays, where the other one applies.
fn at_least(delay: i8, applies: bool, other: i8) -> i8
    ensures { result ≡ is_at_least delay applies other }
{
    if applies & (delay < other) {
        other
    } else {
        delay
    }
}

impl Meeting {
    /// What stands between the second operation and the first.
    fn turned(&self) -> Self
        ensures { result ≡ turned_meeting self.now }
    {
        Meeting {
            feeds: self.fed,
            fed: self.feeds,
            both_write: self.both_write,
            in_list_order: self.in_list_order,
        }
    }

    /// Whether the first operation comes before the second by the times of the block, whatever their places in the list.
    /// No branch: pairs are many, and each way is as likely as the other.
    fn before_in_any_list(&self, a: &Node, b: &Node) -> bool
        ensures { result ≡ is_before_in_any_list self.now a.now b.now }
    {
        (self.feeds & (a.lands <= b.timed.at))
            | (self.fed & (a.timed.at < b.lands))
            | (self.both_write & (a.lands < b.lands))
    }

    /// Whether the operation `a`, at the place i of the list, comes before `b`, at the place j.
    fn is_before(&self, i: u16, a: &Node, j: u16, b: &Node) -> bool
        ensures { result ≡ is_first self.now i j a.now b.now }
    {
        (i != j) & (self.before_in_any_list(a, b) | (self.in_list_order & (i < j)))
    }

    /// The greatest delay that applies. None is below -31: that of a reader before a writer with a latency of 32.
    fn greatest(&self, a: &Node, b: &Node) -> i8
        requires first { a.now.latency ≤ 32 }
        requires second { b.now.latency ≤ 32 }
        ensures { result ≡ greatest_of self.now a.now b.now }
    {
        let (first, second) = (a.latency as i8, b.latency as i8);
        let delay = at_least(-31, self.feeds, first);
        let delay = at_least(delay, self.fed, 1 - second);
        let delay = at_least(delay, self.both_write, first - second + 1);
        at_least(delay, self.in_list_order, 0)
    }
}

/// Sets the delay of the operation `a`, at the place i, before `b`, at the place j, where it is before it.
fn set_delay(d: &mut Delays, meeting: &Meeting, i: u16, a: &Node, j: u16, b: &Node)
    requires inside { i < d.old.count × j < d.old.count }
    requires first { a.now.latency ≤ 32 }
    requires second { b.now.latency ≤ 32 }
    requires empty { delay_of d.old i j ≡ None }
    ensures count { d.new.count ≡ d.old.count }
    ensures room { (most : ℕ) → HasRoom d.old most → HasRoom d.new most }
    ensures here { delay_of d.new i j ≡ delay_by_meeting meeting.now i j a.now b.now }
    ensures elsewhere { (k l : ℕ) → (k ≡ i → l ≡ j → ⊥) → delay_of d.new k l ≡ delay_of d.old k l }
{
    if meeting.is_before(i, a, j, b) {
        d.set(i, j, meeting.greatest(a, b));
    }
}

/// Sets the delays between the operations i and j of the list, both ways. They have something in common.
///
/// Never inlined: few pairs come here, and it would take the registers of the test that all go through.
#[inline(never)]
fn fill_pair(d: &mut Delays, nodes: &[Node], i: u16, j: u16)
    requires size { length nodes.now ≡ d.old.count }
    requires inside { i < j × j < d.old.count }
    requires short { AreShort nodes.now }
    requires meet { IsFalse (have_nothing_in_common (node_at nodes.now i) (node_at nodes.now j)) }
    requires empty { (delay_of d.old i j ≡ None) × (delay_of d.old j i ≡ None) }
    ensures count { d.new.count ≡ d.old.count }
    ensures room { (most : ℕ) → HasRoom d.old most → HasRoom d.new most }
    ensures forth { delay_of d.new i j ≡ delay_at nodes.now i j }
    ensures back { delay_of d.new j i ≡ delay_at nodes.now j i }
    ensures elsewhere { (k l : ℕ) → (k ≡ i → l ≡ j → ⊥) → (k ≡ j → l ≡ i → ⊥) →
        delay_of d.new k l ≡ delay_of d.old k l }
{
    let (a, b) = (&nodes[i as usize], &nodes[j as usize]);
    let meeting = meet(a, b);
    set_delay(d, &meeting, i, a, j, b);
    set_delay(d, &meeting.turned(), j, b, i, a);
}

/// Sets the delays between one operation and those behind it in the list, both ways.
fn fill_pairs(d: &mut Delays, nodes: &[Node], i: u16)
    requires size { length nodes.now ≡ d.old.count }
    requires inside { i < d.old.count }
    requires short { AreShort nodes.now }
    requires empty { (j : ℕ) → i < j → (delay_of d.old i j ≡ None) × (delay_of d.old j i ≡ None) }
    ensures count { d.new.count ≡ d.old.count }
    ensures room { (most : ℕ) → HasRoom d.old most → HasRoom d.new most }
    ensures here { (j : ℕ) → i < j → j < d.old.count → (delay_of d.new i j ≡ delay_at nodes.now i j) ×
        (delay_of d.new j i ≡ delay_at nodes.now j i) }
    ensures elsewhere { (k l : ℕ) → (k ≡ i → i < l → ⊥) → (l ≡ i → i < k → ⊥) →
        delay_of d.new k l ≡ delay_of d.old k l }
{
    let count = d.count();
    let a = nodes[i as usize];
    for j in i + 1..count {
        // Most pairs have nothing in common.
        if !a.has_nothing_in_common(&nodes[j as usize]) {
            fill_pair(d, nodes, i, j);
        }
    }
}

/// Fills an empty table with the delays between the operations of a block, by their nodes.
pub fn fill(d: &mut Delays, nodes: &[Node])
    requires count { d.old.count ≡ length nodes.now }
    requires short { AreShort nodes.now }
    requires empty { (i j : ℕ) → delay_of d.old i j ≡ None }
    ensures delays { AreDelays nodes.now d.new }
    ensures room { (most : ℕ) → HasRoom d.old most → HasRoom d.new most }
{
    for i in 0..d.count() {
        fill_pairs(d, nodes, i);
    }
}
