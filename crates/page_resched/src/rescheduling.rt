// Pages in form, in memory that is taken once.
ghost use Rattle.std.specs.Prelude.{◌≡◌, ◌<◌, ◌≤◌, [], length, map, vec_capacity};
ghost use Rattle.std.specs.List.{range_with_len};
ghost use Rattle.machine_desc.specs.Value.{description_of};
ghost use Rattle.latency_deps.specs.Block.{IsGood};
ghost use Rattle.list_sched.specs.Schedule.{IsSchedule};
ghost use Rattle.list_sched.specs.Planned.{schedule_with};
ghost use Rattle.page_resched.specs.Block.{problem, HasUnits, IsListing};
ghost use Rattle.page_resched.specs.Form.{AreForms, AreInForm, HasPageUnits, IsPageInForm, IsFormOfPage};
ghost use Rattle.page_resched.specs.Writing.{kinds_at, IsPlan, HasRooms};

use crate::forming::write_words;
use crate::listing::list_into;
use block_links::lists::add;
use latency_deps::{GoodBlock, GoodPage};
use list_sched::Planner;
use machine_desc::{Generation, Mdes, same};
use operation::{LatKind, UnitKind, lat_kind, unit};
use std::alloc::Global;
use std::marker::Model;
use tnk_base::NoMemory;

/// The most operations of a block.
const MOST: usize = 512;

/// The memory in which pages are put in form: a planner of schedules, and lists for the kinds of a block's operations and for
/// the operations in their new order.
#[derive(Drop)]
pub struct Resched {
    kinds: Vec<(UnitKind, LatKind)>,
    planner: Planner,
    listed: Vec<u16>,
}

impl Model for Resched {
    ghost Value = { Unit {0} };

    ghost view = { λ _. tt };

    ghost invariant = { λ r. HasRooms (vec_capacity r.kinds) (vec_capacity r.listed) };
}

/// Makes a list the unit kind and the latency kind of each operation of a block. The list has room for 512.
fn kinds_into(b: &GoodBlock, kinds: &mut Vec<(UnitKind, LatKind)>)
    requires { 512 ≤ vec_capacity kinds.old }
    ensures kinds { kinds.new.items ≡ map (kinds_at b.now) (range_with_len 0 (length b.now.words)) }
    ensures room { vec_capacity kinds.old ≤ vec_capacity kinds.new }
    ensures good { IsGood b.now }
{
    kinds.clear();
    for i in 0..b.count() {
        let op = b.op(i).op;
        add(kinds, (unit(&op), lat_kind(&op)));
    }
}

/// Makes the list schedule of a block for a machine generation that has the units of its operations, from the links that the
/// block keeps.
fn plan_block<G: Generation>(
    b: &GoodBlock,
    g: &G,
    kinds: &mut Vec<(UnitKind, LatKind)>,
    planner: &mut Planner,
)
    requires units { HasUnits (G.description g.now) b.now }
    requires room { 512 ≤ vec_capacity kinds.old }
    ensures schedule { IsSchedule (problem (G.description g.now) b.now)
        (schedule_with planner.new.order planner.new.cycles planner.new.end) }
    ensures plan { IsPlan (length b.now.words) planner.new.order planner.new.cycles planner.new.end }
    ensures room { vec_capacity kinds.old ≤ vec_capacity kinds.new }
    ensures good { IsGood b.now }
{
    kinds_into(b, kinds);
    planner.plan_links(b.links(), kinds, g);
}

/// Writes the words of a block in form in place of others, by the order of placing, the cycles and the end of its list
/// schedule. It lists the operations in their new order on the way.
fn write_block(
    b: &GoodBlock,
    order: &[u16],
    cycle: &[u32],
    end: u32,
    listed: &mut Vec<u16>,
    words: &mut [u64],
)
    requires plan { IsPlan (length b.now.words) order.now cycle.now end }
    requires room { length b.now.words ≤ vec_capacity listed.old }
    requires size { length words.old ≡ length b.now.words }
    ensures listing { IsListing (schedule_with order.now cycle.now end) listed.new.items }
    ensures forms { AreForms b.now.words (schedule_with order.now cycle.now end) [] listed.new.items words.new }
    ensures room { vec_capacity listed.old ≤ vec_capacity listed.new }
{
    list_into(order, cycle, listed);
    write_words(b, cycle, end, listed, words);
}

impl Resched {
    /// Memory for blocks of up to 512 operations.
    pub fn new(alloc: Global) -> Result<Self, NoMemory> {
        Ok(Resched {
            kinds: Vec::with_capacity(alloc, MOST)?,
            planner: Planner::new(alloc)?,
            listed: Vec::with_capacity(alloc, MOST)?,
        })
    }

    /// Writes the words of a block in form in place of others, for a machine generation that has the units of its operations.
    fn block<G: Generation>(&mut self, b: &GoodBlock, g: &G, words: &mut [u64])
        requires units { HasUnits (G.description g.now) b.now }
        requires size { length words.old ≡ length b.now.words }
        ensures { AreInForm (G.description g.now) b.now words.new }
    {
        plan_block(b, g, &mut self.kinds, &mut self.planner);
        write_block(
            b,
            self.planner.order(),
            self.planner.cycles(),
            self.planner.end(),
            &mut self.listed,
            words,
        );
    }

    /// Writes the words of a page in form: each block at its place, over zeros.
    fn blocks<G: Generation>(&mut self, p: &GoodPage, g: &G, out: &mut [u64])
        requires size { length out.old ≡ 512 }
        requires units { HasPageUnits (G.description g.now) p.now }
        ensures { IsPageInForm (G.description g.now) p.now out.new }
    {
        out.fill(0);
        for k in 0..p.blocks() {
            let b = p.block(k);
            let place = p.place(k) as usize;
            self.block(b, g, &mut out[place..place + b.count() as usize]);
        }
    }

    /// Makes 512 words the form of a page for a machine generation: the page's own words where its description is that of the
    /// generation; else each block at its place with its words in the order of its list schedule, and 0 elsewhere. The
    /// generation has the units of the page's operations, and the description is that under which the page was made. It takes
    /// no memory.
    pub fn page<G: Generation>(&mut self, p: &GoodPage, description: &Mdes, g: &G, out: &mut [u64])
        requires size { length out.old ≡ 512 }
        requires units { HasPageUnits (G.description g.now) p.now }
        ensures { IsFormOfPage (description_of description.now) (G.description g.now) p.now out.new }
    {
        if same(description, g) {
            out.copy_from_slice(p.words());
        } else {
            self.blocks(p, g, out);
        }
    }
}
