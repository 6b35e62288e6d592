// The loader.
ghost use Rattle.std.specs.Prelude.{◌≡◌, ◌≤◌, ◌<◌, ◌↔◌, IsTrue, length, IfOk, IfSome, IsSome, slice_get, if◌then◌else◌};
ghost use Rattle.image_format.specs.Image.{page_count};
ghost use Rattle.paging.specs.Pages.{has, evict, drop_saved, one_more};
ghost use Rattle.page_cache.specs.Cache.{pages_of, page_in, KeepFrames};
ghost use Rattle.page_fault.specs.Loading.{Loading, HasForm, HaveUnits, IsThere, IsNeeded, opened, paging_of, counts_of};
ghost use Rattle.page_fault.specs.Fetching.{is_restored, is_moved};

use super::Loaded;
use super::fetching::{Source, fetch};
use image_check::Accepted;
use machine_desc::Mdes;
use page_cache::{PageCache, Slot, WORDS};
use page_resched::Resched;
use std::alloc::Global;
use std::marker::Model;
use tnk_base::{Key, NoMemory};

/// How often a page was loaded, and was rescheduled or restored then, and how often one was evicted. Each count stays at
/// 2^64 - 1 once there.
#[derive(Clone, Copy, Debug, PartialEq, Eq)]
pub struct Counts {
    pub loaded: u64,
    pub rescheduled: u64,
    pub restored: u64,
    pub evicted: u64,
}

/// Programs, and their pages in frames. Contracts see the programs, the two lists of pages and the counts.
#[derive(Drop)]
pub struct Loader {
    programs: Vec<Loaded>,
    cache: PageCache,
    resched: Resched,
    /// The words of the page that is fetched.
    out: Vec<u64>,
    loaded: u64,
    rescheduled: u64,
    restored: u64,
}

impl Model for Loader {
    ghost use Rattle.page_fault.specs.Loading.{Loading};
    ghost use Rattle.page_fault.specs.Fetching.{IsLoader};

    ghost Value = { Loading };

    ghost view = { λ a. record {
      programs = a.programs.items;
      cache = a.cache;
      loaded = a.loaded;
      rescheduled = a.rescheduled;
      restored = a.restored;
    } };

    ghost invariant = { λ a. IsLoader a.programs.items a.cache a.out.items };
}

/// Whether the words were saved.
fn was_saved(from: Source) -> bool
    ensures { result ≡ is_restored from }
{
    matches!(from, Source::Saved)
}

/// Whether the page was rescheduled for its words.
fn was_moved(from: Source) -> bool
    ensures { result ≡ is_moved from }
{
    matches!(from, Source::Rescheduled)
}

/// One more where there was one; a count stays at 2^64 - 1 once there.
fn more(count: u64, one: bool) -> u64
    ensures { result ≡ (if one then one_more count else count) }
{
    if one { count.saturating_add(1) } else { count }
}

impl Loader {
    /// These programs, each with a generation that has the units its image needs, and no page of them in 1 to 1,024 frames,
    /// with room for 0 to 1,024 saved pages. All memory is taken here.
    pub fn new(
        alloc: Global,
        programs: Vec<Loaded>,
        frames: u16,
        saved: u16,
    ) -> Result<Self, NoMemory>
        requires some { 1 ≤ frames }
        requires frames { frames ≤ 1024 }
        requires saved { saved ≤ 1024 }
        requires units { HaveUnits programs.items }
        ensures { IfOk result (λ l. l ≡ opened programs.items frames saved) }
    {
        let cache = PageCache::new(alloc, frames, saved)?;
        let resched = Resched::new(alloc)?;
        let out = vec![in alloc; 0; WORDS]?;
        Ok(Loader {
            programs,
            cache,
            resched,
            out,
            loaded: 0,
            rescheduled: 0,
            restored: 0,
        })
    }

    /// The image of a program.
    pub fn image(&self, program: u8) -> &Accepted
        requires { program < length self.now.programs }
        ensures { IfSome (slice_get self.now.programs program) (λ p. p.image ≡ result.now) }
    {
        &self.programs[program as usize].image
    }

    /// The description of the generation that a program runs as.
    pub fn chosen(&self, program: u8) -> &Mdes
        requires { program < length self.now.programs }
        ensures { IfSome (slice_get self.now.programs program) (λ p. p.chosen ≡ result.now) }
    {
        &self.programs[program as usize].chosen
    }

    /// The number of pages of a program.
    fn pages(&self, program: u8) -> usize
        requires { program < length self.now.programs }
        ensures { IfSome (slice_get self.now.programs program) (λ p. result ≡ page_count p.image) }
    {
        self.image(program).parts().words.len() / WORDS
    }

    /// Whether the program of a key is there, and has its page.
    pub fn has_page(&self, key: Key) -> bool
        ensures { IsTrue result ↔ IsThere self.now.programs key }
    {
        (key.program as usize) < self.programs.len()
            && (key.page as usize) < self.pages(key.program)
    }

    /// Brings the page of a key into a frame, where it isn't in one, and makes it the one used last. It takes no memory.
    pub fn need(&mut self, key: Key) -> Slot
        requires { IsThere self.old.programs key }
        ensures { IsNeeded self.old self.new key result }
    {
        match self.cache.find(key) {
            Some(slot) => slot,
            None => {
                self.cache.make_room();
                let from = fetch(
                    &self.programs,
                    &self.cache,
                    key,
                    &mut self.resched,
                    &mut self.out,
                );
                self.restored = more(self.restored, was_saved(from));
                self.rescheduled = more(self.rescheduled, was_moved(from));
                self.loaded = more(self.loaded, true);
                self.cache.put(key, &self.out)
            }
        }
    }

    /// Evicts the page of a key, and answers whether it was resident.
    pub fn evict(&mut self, key: Key) -> bool
        ensures found { result ≡ has key (pages_of self.old.cache).resident }
        ensures paging { paging_of self.new ≡ record (paging_of self.old) { pages = evict key (pages_of self.old.cache) } }
        ensures frames { KeepFrames self.old.cache.held self.new.cache.held }
        ensures frames_stay { self.new.cache.frames ≡ self.old.cache.frames }
        ensures programs { self.new.programs ≡ self.old.programs }
    {
        self.cache.evict(key)
    }

    /// Drops the saved page of a key, and answers whether it was saved.
    pub fn drop_saved(&mut self, key: Key) -> bool
        ensures found { result ≡ has key self.old.cache.saved }
        ensures paging { paging_of self.new ≡
            record (paging_of self.old) { pages = drop_saved key (pages_of self.old.cache) } }
        ensures frames { self.new.cache.held ≡ self.old.cache.held }
        ensures programs { self.new.programs ≡ self.old.programs }
    {
        self.cache.drop_saved(key)
    }

    /// The words of the page in the frame of a slot, 512.
    pub fn words(&self, slot: Slot) -> &[u64]
        requires { IsSome (page_in self.now.cache slot) }
        ensures words { IfSome (page_in self.now.cache slot) (λ page. page.words ≡ result.now) }
        ensures form { IfSome (page_in self.now.cache slot) (HasForm self.now.programs) }
        ensures whole { length result.now ≡ 512 }
    {
        self.cache.words(slot)
    }

    /// The counts.
    pub fn counts(&self) -> Counts
        ensures { result ≡ counts_of self.now }
    {
        Counts {
            loaded: self.loaded,
            rescheduled: self.rescheduled,
            restored: self.restored,
            evicted: self.cache.evicted(),
        }
    }
}
