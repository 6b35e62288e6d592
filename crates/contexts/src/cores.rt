// The contexts, and the pages of their programs.
ghost use Rattle.std.specs.Prelude.{◌≡◌, ◌<◌, ◌≤◌, ◌↔◌, ℕ, List, length, map, replicate, None, IfOk, IsTrue, All, IfSome, MatchResult, is_some, slice_get, slice_index};
ghost use Rattle.std.specs.List.{list_all};
ghost use Rattle.tnk_base.specs.declared.Key.{Key};
ghost use Rattle.image_resched.specs.Laws.{IsMovable};
ghost use Rattle.image_format.specs.Image.{page_count};
ghost use Rattle.machine_desc.specs.Value.{description_of};
ghost use Rattle.page_fault.specs.Loading.{HasForm, IsThere, IsNeeded, counts_of};
ghost use Rattle.context_system.specs.declared.Event.TheVariants.{Turn};
ghost use Rattle.context_system.specs.Context as system;
ghost use Rattle.context_system.specs.Needs.{first_without};
ghost use Rattle.context_system.specs.System.{System, Admits as IsAdmitted, first, step, play, rounds};
ghost use Rattle.contexts.specs.Core.{Holds, Admits, IsKeyOf, AreSetups, Runs, RunsStill, run_of, IsOpenFault};
ghost use Rattle.contexts.specs.Standing.{AreOf, AreRead, IsBrought, IsCore, contexts_of, key_at};
ghost use Rattle.image_check.specs.Blocks.{rows_of, timed_block};
ghost use Rattle.contexts.specs.Going.{MayPlay, HasPlayed};

use super::Setup;
use super::opening::{all_seated, first_lacking};
use super::pages::Pages;
use super::seat::Seat;
use block_table::PAGE;
use context_system::Event;
use cycle_sim::laws::ready_at_entry;
use image_check::laws::programs_are_sound;
use image_format::laws::reads_back;
use image_resched::laws::{forms_are_there, one_rescheduled, rescheduled_is_accepted};
use operation::{End, UnitKind};
use page_fault::laws::forms_are_of_the_image;
use page_fault::{Counts, Loader};
use std::alloc::Global;
use std::marker::Model;
use tnk_base::{Key, NoMemory};

/// Why a core isn't opened.
#[derive(Clone, Copy, Debug, PartialEq, Eq)]
pub enum OpenFault {
    /// The image of the context with this number uses a unit kind that its generation lacks: the first such context, and the first
    /// such kind.
    NoUnit(u8, UnitKind),
    NoMemory,
}

impl From<NoMemory> for OpenFault {
    ghost use Rattle.contexts.specs.declared.cores.OpenFault.{OpenFault};

    ghost from_gives = { λ _ e. e ≡ OpenFault.NoMemory };

    fn from(_: NoMemory) -> Self {
        OpenFault::NoMemory
    }
}

/// The contexts and the pages of their programs. Contracts see each context, the programs, the two lists of pages and the counts.
#[derive(Drop)]
pub struct Core {
    seats: Vec<Seat>,
    loader: Loader,
    pages: Pages,
}

impl Model for Core {
    ghost use Rattle.contexts.specs.Core.{Contexts};
    ghost use Rattle.contexts.specs.Standing.{IsCore, contexts_of};

    ghost Value = { Contexts };

    ghost view = { λ a. contexts_of a.seats.items a.loader };

    ghost invariant = { λ a. IsCore a.seats.items a.loader a.pages };
}

/// Brings the page of a key into a frame, and reads its operations where the frame hasn't those; gives the frame.
fn bring(loader: &mut Loader, pages: &mut Pages, key: Key) -> u16
    requires there { IsThere loader.old.programs key }
    requires read { AreRead loader.old.programs pages.old }
    requires frames { length pages.old ≡ loader.old.cache.frames }
    ensures brought { IsBrought loader.old loader.new key }
    ensures read { AreRead loader.new.programs pages.new }
    ensures frames { length pages.new ≡ loader.new.cache.frames }
    ensures frame { result < length pages.new }
    ensures now { IfSome (slice_get pages.new result) (AreOf loader.new.programs key) }
{
    let slot = loader.need(key);
    pages.read(loader, key, slot);
    slot.number()
}

/// A context that hasn't ended plays the next MultiOp of its present block.
fn play_on(seat: &mut Seat, loader: &mut Loader, pages: &mut Pages)
    requires may { MayPlay loader.old.programs seat.old }
    requires read { AreRead loader.old.programs pages.old }
    requires frames { length pages.old ≡ loader.old.cache.frames }
    ensures brought { IsBrought loader.old loader.new (key_at seat.old) }
    ensures read { AreRead loader.new.programs pages.new }
    ensures frames { length pages.new ≡ loader.new.cache.frames }
    ensures played { (p : MayPlay loader.old.programs seat.old) →
        HasPlayed (rows_of p.own.image) (timed_block p.formed p.place.row) seat.old seat.new }
{
    programs_are_sound();
    rescheduled_is_accepted();
    forms_are_of_the_image();
    let key = Key {
        program: seat.program,
        page: (seat.place.entry / PAGE) as u16,
    };
    let frame = bring(loader, pages, key);
    let issued = seat.issue(pages, frame);
    seat.go_on(loader.image(key.program).table(), issued);
}

/// A context has its turn.
fn turn(seats: &mut Vec<Seat>, loader: &mut Loader, pages: &mut Pages, c: u8)
    requires core { IsCore seats.old.items loader.old pages.old }
    requires there { c < length seats.old.items }
    ensures core { IsCore seats.new.items loader.new pages.new }
    ensures step { (s : System) → Holds (contexts_of seats.old.items loader.old) s →
        Holds (contexts_of seats.new.items loader.new) (step s (Turn c)) }
    ensures size { length seats.new.items ≡ length seats.old.items }
    ensures programs { loader.new.programs ≡ loader.old.programs }
{
    reads_back();
    one_rescheduled();
    rescheduled_is_accepted();
    forms_are_of_the_image();
    ready_at_entry();
    let seat = &mut seats[c as usize];
    if seat.end.is_none() {
        play_on(seat, loader, pages);
    }
}

/// Whether all of some contexts have ended.
fn all_ended(seats: &[Seat]) -> bool
    ensures { result ≡ list_all (λ seat. is_some seat.end) seats.now }
{
    seats.iter().all(|seat| seat.end.is_some())
}

impl Core {
    /// 1 to 8 contexts at their starts, and no page in any frame: 1 to 1,024 frames, and room for 0 to 1,024 saved pages. Contexts
    /// whose images and generations are equal share a program. All memory is taken here.
    pub fn open(
        alloc: Global,
        setups: Vec<Setup>,
        frames: u16,
        saved: u16,
    ) -> Result<Self, OpenFault>
        requires one { 1 ≤ length setups.items }
        requires few { length setups.items ≤ 8 }
        requires bound { All (λ s. 0 < s.bound) setups.items }
        requires some { 1 ≤ frames }
        requires frames { frames ≤ 1024 }
        requires saved { saved ≤ 1024 }
        ensures core { MatchResult result (λ core. (given : List system.Setup) → AreSetups setups.items given → Holds core (first given frames saved))
            (IsOpenFault setups.items) }
        ensures units { IfOk result (λ core. first_without 0 (map run_of setups.items) ≡ None) }
        ensures movable { IfOk result (λ _. All (λ s. IsMovable s.image (description_of s.chosen)) setups.items) }
        ensures runs { IfOk result (Runs setups.items) }
    {
        forms_are_there();
        ready_at_entry();
        reads_back();
        if let Some((c, kind)) = first_lacking(&setups) {
            return Err(OpenFault::NoUnit(c, kind));
        }
        let (seats, programs) = all_seated(alloc, setups)?;
        let loader = Loader::new(alloc, programs, frames, saved)?;
        let pages = Pages::new(alloc, frames)?;
        Ok(Core {
            seats,
            loader,
            pages,
        })
    }

    /// Whether an event's context, or its program and page, are there.
    pub fn admits(&self, e: Event) -> bool
        ensures there { IsTrue result ↔ Admits self.now e }
        ensures system { (s : System) → Holds self.now s → IsTrue result ↔ IsAdmitted s e }
    {
        match e {
            Event::Turn(c) => (c as usize) < self.seats.len(),
            Event::Evict(key) | Event::Drop(key) | Event::Prefetch(key) => self.has_page(key),
        }
    }

    /// Whether a key is that of a page of a program.
    fn has_page(&self, key: Key) -> bool
        ensures { IsTrue result ↔ IsKeyOf self.now key }
    {
        (key.program as usize) < self.seats.len()
            && self.seats[key.program as usize].program == key.program
            && self.loader.has_page(key)
    }

    /// The key of a page of a context's program.
    pub fn key(&self, c: u8, page: u16) -> Key
        requires context { c < length self.now.seats }
        requires page { IfSome (slice_get self.now.loading.programs c) (λ p. page < page_count p.image) }
        ensures there { IsKeyOf self.now result }
        ensures program { IfSome (slice_get self.now.seats c) (λ seat. result.program ≡ seat.program) }
        ensures page { result.page ≡ page }
    {
        reads_back();
        Key {
            program: self.seats[c as usize].program,
            page,
        }
    }

    /// Plays an event. It takes no memory.
    pub fn step(&mut self, e: Event)
        requires { Admits self.old e }
        ensures held { (s : System) → Holds self.old s → Holds self.new (step s e) }
        ensures kept { RunsStill self.old self.new }
    {
        one_rescheduled();
        forms_are_of_the_image();
        match e {
            Event::Turn(c) => turn(&mut self.seats, &mut self.loader, &mut self.pages, c),
            Event::Evict(key) => {
                self.loader.evict(key);
            }
            Event::Drop(key) => {
                self.loader.drop_saved(key);
            }
            Event::Prefetch(key) => {
                bring(&mut self.loader, &mut self.pages, key);
            }
        }
    }

    /// Gives a context so many turns, or as many as it wants to its end. It takes no memory.
    pub fn turns(&mut self, c: u8, times: u32)
        requires { c < length self.old.seats }
        ensures held { (s : System) → Holds self.old s → Holds self.new (play s (replicate times (Turn c))) }
        ensures kept { RunsStill self.old self.new }
    {
        for _ in 0..times {
            if self.ended(c).is_some() {
                return;
            }
            self.step(Event::Turn(c));
        }
    }

    /// Gives turns round the contexts in order, so many times, or until all have ended.
    pub fn rounds(&mut self, times: u32)
        ensures { (s : System) → Holds self.old s → Holds self.new (play s (rounds (length s.contexts) times)) }
    {
        for _ in 0..times {
            if self.have_ended() {
                return;
            }
            self.round();
        }
    }

    /// How many contexts there are, 1 to 8.
    pub fn contexts(&self) -> u8
        ensures { result ≡ length self.now.seats }
    {
        self.seats.len() as u8
    }

    /// How a context has ended, None where it hasn't.
    pub fn ended(&self, c: u8) -> Option<End>
        requires { c < length self.now.seats }
        ensures { IfSome (slice_get self.now.seats c) (λ seat. result ≡ seat.end) }
    {
        self.seats[c as usize].end
    }

    /// How many blocks of a context have ended.
    pub fn blocks(&self, c: u8) -> u32
        requires { c < length self.now.seats }
        ensures { IfSome (slice_get self.now.seats c) (λ seat. result ≡ seat.blocks) }
    {
        self.seats[c as usize].blocks
    }

    /// The cycles of the blocks of a context that have ended; the count stays at 2^64 - 1 once there.
    pub fn cycles(&self, c: u8) -> u64
        requires { c < length self.now.seats }
        ensures { IfSome (slice_get self.now.seats c) (λ seat. result ≡ seat.moment.cycles) }
    {
        self.seats[c as usize].machine.cycles()
    }

    /// What a context has put out.
    pub fn output(&self, c: u8) -> &[u8]
        requires { c < length self.now.seats }
        ensures { IfSome (slice_get self.now.seats c) (λ seat. result.now ≡ seat.moment.state.output) }
    {
        self.seats[c as usize].machine.output()
    }

    /// The bytes of a context's data memory at its block clock.
    pub fn memory(&self, c: u8) -> &[u8]
        requires { c < length self.now.seats }
        ensures { IfSome (slice_get self.now.seats c) (λ seat. result.now ≡ seat.moment.state.memory) }
    {
        self.seats[c as usize].machine.memory()
    }

    /// The number of a context's program: that of the first context that runs it.
    pub fn program(&self, c: u8) -> u8
        requires { c < length self.now.seats }
        ensures { IfSome (slice_get self.now.seats c) (λ seat. result ≡ seat.program) }
    {
        self.seats[c as usize].program
    }

    /// The entry of a context's present block.
    pub fn entry(&self, c: u8) -> u32
        requires { c < length self.now.seats }
        ensures { IfSome (slice_get self.now.seats c) (λ seat. result ≡ seat.entry) }
    {
        self.seats[c as usize].place.entry
    }

    /// The clock of a context's present block.
    pub fn clock(&self, c: u8) -> u32
        requires { c < length self.now.seats }
        ensures { IfSome (slice_get self.now.seats c) (λ seat. result ≡ seat.moment.clock) }
    {
        self.seats[c as usize].machine.clock()
    }

    /// The value of a general register of a context at its block clock.
    pub fn general(&self, c: u8, r: u8) -> u32
        requires there { c < length self.now.seats }
        requires register { r ≤ 31 }
        ensures { IfSome (slice_get self.now.seats c) (λ seat. result ≡ slice_index seat.moment.state.general r) }
    {
        self.seats[c as usize].machine.general(r)
    }

    /// How often a page was loaded, and was rescheduled or restored then, and how often one was evicted.
    pub fn counts(&self) -> Counts
        ensures { result ≡ counts_of self.now.loading }
    {
        self.loader.counts()
    }

    /// Whether all contexts have ended.
    fn have_ended(&self) -> bool
        ensures { result ≡ list_all (λ seat. is_some seat.end) self.now.seats }
    {
        all_ended(&self.seats)
    }

    /// Gives each context a turn.
    fn round(&mut self)
        ensures { (s : System) → Holds self.old s → Holds self.new (play s (rounds (length s.contexts) 1)) }
    {
        for c in 0..self.seats.len() {
            turn(&mut self.seats, &mut self.loader, &mut self.pages, c as u8);
        }
    }
}
