// A context: its machine, and where it stands.
ghost use Rattle.std.specs.Prelude.{◌≡◌, ◌<◌, ◌≤◌, ◌+◌, ◌%◌, ℕ, length, slice_get, false, None, IfSome};
ghost use Rattle.operation.specs.declared.End.TheVariants.{Trapped};
ghost use Rattle.block_table.specs.Rows.{entry_of};
ghost use Rattle.block_table.specs.Rules.{has_entry};
ghost use Rattle.timed_meaning.specs.Sound.{IsSoundBlock};
ghost use Rattle.cycle_sim.specs.Machine.{IsReady};
ghost use Rattle.contexts.specs.Standing.{IsPlace, block_in_frame};
ghost use Rattle.contexts.specs.Going.{HasIssued, Enters, Ends, GoesTo, GoesOn};

use super::pages::Pages;
use block_table::{PAGE, Table};
use cycle_sim::{Issued, Machine};
use operation::{End, Report, TrapKind};

/// Where a block stands: its entry, how many operations it has, and the entry of the row behind it.
#[derive(Clone, Copy)]
pub(crate) struct Place {
    pub(crate) entry: u32,
    pub(crate) count: u16,
    pub(crate) next: Option<u32>,
}

/// A context.
#[derive(Drop)]
pub(crate) struct Seat {
    /// The number of its program.
    pub(crate) program: u8,
    pub(crate) machine: Machine,
    /// Its present block, and the place in it of the MultiOp that is next.
    pub(crate) place: Place,
    pub(crate) at: u16,
    /// How many blocks have ended, and how many may.
    pub(crate) blocks: u32,
    pub(crate) bound: u32,
    pub(crate) end: Option<End>,
}

impl Place {
    /// Where the block of a row stands.
    pub(crate) fn of(table: &Table, row: u32) -> Self
        requires { row < length table.now }
        ensures place { IsPlace table.now result }
        ensures entry { result.entry ≡ entry_of table.now row }
    {
        Place {
            entry: table.entry(row),
            count: table.count(row),
            next: table.next(row),
        }
    }
}

impl Seat {
    /// The MultiOp that is next issues, of the present block, whose page's operations stand in a frame.
    pub(crate) fn issue(&mut self, pages: &Pages, frame: u16) -> Issued
        requires frame { frame < length pages.now }
        requires running { self.old.machine.stopped ≡ false }
        requires inside { self.old.place.entry % 512 + self.old.place.count ≤ 512 }
        requires counted { 0 < self.old.place.count }
        requires sound { IfSome (slice_get pages.now frame) (λ r. IsSoundBlock (block_in_frame self.old.place r)) }
        requires ready { IfSome (slice_get pages.now frame) (λ r.
            IsReady (block_in_frame self.old.place r) self.old.at self.old.machine.moment) }
        ensures { IfSome (slice_get pages.now frame) (λ r. HasIssued (block_in_frame self.old.place r) self.old self.new result) }
    {
        let start = (self.place.entry % PAGE) as usize;
        let ops = pages.ops(frame, start, self.place.count as usize);
        let end = pages.end(frame, start);
        self.machine
            .issue(self.place.entry, ops, end, self.at, self.place.next)
    }

    /// It stands at the first MultiOp of a row's block, when one more block has ended.
    fn enter(&mut self, table: &Table, row: u32)
        requires row { row < length table.now }
        requires going { self.old.end ≡ None }
        requires below { self.old.blocks < self.old.bound }
        ensures { (to : ℕ) → to ≡ entry_of table.now row → Enters table.now to self.old self.new }
    {
        self.place = Place::of(table, row);
        self.at = 0;
        self.blocks += 1;
        if self.blocks >= self.bound {
            self.end = Some(End::Bound);
        }
    }

    /// It ends, when one more block has ended or none.
    fn stop(&mut self, end: End, more: u32)
        requires more { more ≤ 1 }
        requires below { self.old.blocks < self.old.bound }
        ensures { Ends end more self.old self.new }
    {
        self.blocks += more;
        self.end = Some(end);
    }

    /// The report of a trap in its present block.
    fn trap(&self, kind: TrapKind, detail: u32) -> End
        ensures { result ≡ Trapped (record { kind = kind; block = self.now.place.entry; detail = detail }) }
    {
        End::Trapped(Report {
            kind,
            block: self.place.entry,
            detail,
        })
    }

    /// It goes to an address, behind a block that has ended.
    fn go_to(&mut self, table: &Table, to: u32)
        requires going { self.old.end ≡ None }
        requires below { self.old.blocks < self.old.bound }
        ensures { GoesTo table.now (has_entry table.now to) to self.old self.new }
    {
        match table.block_of(to) {
            Some(row) => self.enter(table, row),
            None => {
                let end = self.trap(TrapKind::BadTarget, to);
                self.stop(end, 1);
            }
        }
    }

    /// It goes on behind a MultiOp, by how that came out.
    pub(crate) fn go_on(&mut self, table: &Table, issued: Issued)
        requires going { self.old.end ≡ None }
        requires below { self.old.blocks < self.old.bound }
        ensures { GoesOn table.now issued self.old self.new }
    {
        match issued {
            Issued::Going(at) => self.at = at,
            Issued::BlockEnd(to) => self.go_to(table, to),
            Issued::Halted(code) => self.stop(End::Halted(code), 1),
            Issued::Trapped(_, trap) => {
                let end = self.trap(trap.kind, trap.detail);
                self.stop(end, 0);
            }
        }
    }
}
