// The resident and the saved pages.
ghost use Rattle.std.specs.Prelude.{◌≡◌, ◌+◌, ◌<◌, ◌≤◌, ◌↔◌, ℕ, false, true, nat_eq, [], ◌∷◌, ◌++◌, length, map, reverse, slice_get, Some, None, is_some, IsSome, IsTrue, IfSome, IfNone, IfOk, MatchOption};
ghost use Rattle.std.specs.List.{remove, list_any};
ghost use Rattle.tnk_base.specs.declared.Key.{Key};
ghost use Rattle.paging.specs.Pages.{Page, same_key, under, has, touch, with_room, with_saved, evict, make_room, drop_saved};
ghost use Rattle.page_cache.specs.Cache.{empty, pages_of, page_in, KeepFrames};
ghost use Rattle.page_cache.specs.Kept.{KeysDiffer, AreSaved, page_with, pages_in};

use super::Slot;
use super::frames::Frames;
use std::alloc::Global;
use std::marker::Model;
use tnk_base::{Key, NoMemory};

/// Pages in frames, and saved pages. Contracts see the two lists with the frames of the resident pages.
#[derive(Drop)]
pub struct PageCache {
    resident: Frames,
    saved: Frames,
    evicted: u64,
}

impl Model for PageCache {
    ghost use Rattle.page_cache.specs.Cache.{Cache};
    ghost use Rattle.page_cache.specs.Kept.{AreCached, cache_of};

    ghost Value = { Cache };

    ghost view = { λ a. cache_of a.resident a.saved a.evicted };

    ghost invariant = { λ a. AreCached a.resident a.saved };
}

/// Saves a page, where pages may be saved and it isn't: a full list loses its oldest page.
fn save(saved: &mut Frames, key: Key, words: &[u64])
    requires whole { length words.now ≡ 512 }
    requires room { length saved.old.held ≤ saved.old.size }
    requires apart { KeysDiffer saved.old.held }
    ensures pages { AreSaved saved.old saved.new (page_with key words.now) }
    ensures size { saved.new.size ≡ saved.old.size }
    ensures room { length saved.new.held ≤ saved.new.size }
    ensures apart { KeysDiffer saved.new.held }
{
    if saved.size() == 0 {
        return;
    }
    if saved.find(key).is_some() {
        return;
    }
    save_more(saved, key, words);
}

/// Takes the page at a place out of its frame, and saves it.
fn leave(resident: &mut Frames, saved: &mut Frames, i: usize)
    requires within { i < length resident.old.held }
    requires room { length saved.old.held ≤ saved.old.size }
    requires apart { KeysDiffer saved.old.held }
    ensures left { resident.new ≡ record resident.old { held = remove resident.old.held i } }
    ensures pages { IfSome (slice_get resident.old.held i) (λ h. AreSaved saved.old saved.new h.page) }
    ensures size { saved.new.size ≡ saved.old.size }
    ensures room { length saved.new.held ≤ saved.new.size }
    ensures apart { KeysDiffer saved.new.held }
{
    save(saved, resident.key(i), resident.words(i));
    resident.remove(i);
}

/// Saves a page that isn't saved, where some may be.
fn save_more(saved: &mut Frames, key: Key, words: &[u64])
    requires whole { length words.now ≡ 512 }
    requires some { nat_eq saved.old.size 0 ≡ false }
    requires new { list_any (λ h. same_key h.page.key key) saved.old.held ≡ false }
    requires room { length saved.old.held ≤ saved.old.size }
    requires apart { KeysDiffer saved.old.held }
    ensures pages { AreSaved saved.old saved.new (page_with key words.now) }
    ensures size { saved.new.size ≡ saved.old.size }
    ensures room { length saved.new.held ≤ saved.new.size }
    ensures apart { KeysDiffer saved.new.held }
{
    free_one(saved);
    saved.add(key, words);
}

/// Takes out the oldest page, where all frames are full.
fn free_one(saved: &mut Frames)
    requires some { nat_eq saved.old.size 0 ≡ false }
    requires room { length saved.old.held ≤ saved.old.size }
    requires apart { KeysDiffer saved.old.held }
    ensures pages { pages_in saved.new.held ≡ with_room saved.old.size (pages_in saved.old.held) }
    ensures size { saved.new.size ≡ saved.old.size }
    ensures room { length saved.new.held < saved.new.size }
    ensures apart { KeysDiffer saved.new.held }
    ensures absent { (k : Key) → list_any (λ h. same_key h.page.key k) saved.old.held ≡ false →
        list_any (λ h. same_key h.page.key k) saved.new.held ≡ false }
{
    if saved.is_full() {
        saved.remove(0);
    }
}

impl PageCache {
    /// 1 to 1,024 free frames, and room for 0 to 1,024 saved pages. All memory is taken here.
    pub fn new(alloc: Global, frames: u16, saved: u16) -> Result<Self, NoMemory>
        requires some { 1 ≤ frames }
        requires frames { frames ≤ 1024 }
        requires saved { saved ≤ 1024 }
        ensures { IfOk result (λ c. c ≡ empty frames saved) }
    {
        Ok(PageCache {
            resident: Frames::new(alloc, frames)?,
            saved: Frames::new(alloc, saved)?,
            evicted: 0,
        })
    }

    /// Touches the page with this key, where it is resident, and answers its frame.
    pub fn find(&mut self, key: Key) -> Option<Slot>
        ensures found { is_some result ≡ has key (pages_of self.old).resident }
        ensures slot { IfSome result (λ slot. page_in self.new slot ≡ under key (pages_of self.old).resident) }
        ensures below { IfSome result (λ slot. slot.frame < self.new.frames) }
        ensures pages { pages_of self.new ≡ touch key (pages_of self.old) }
        ensures frames { KeepFrames self.old.held self.new.held }
    {
        match self.resident.find(key) {
            None => None,
            Some(i) => {
                let slot = self.resident.slot(i);
                self.resident.touch(i);
                Some(slot)
            }
        }
    }

    /// Evicts the page touched least recently, where the frames are full.
    pub fn make_room(&mut self)
        ensures pages { pages_of self.new ≡ make_room (pages_of self.old) }
        ensures room { length self.new.held < self.new.frames }
        ensures frames { KeepFrames self.old.held self.new.held }
    {
        if self.resident.is_full() {
            let oldest = 0;
            leave(&mut self.resident, &mut self.saved, oldest);
            self.evicted = self.evicted.saturating_add(1);
        }
    }

    /// Puts a page that isn't resident into a free frame, as the one touched last: its words are 512, and those that are saved
    /// where it is saved.
    pub fn put(&mut self, key: Key, words: &[u64]) -> Slot
        requires room { length self.old.held < self.old.frames }
        requires absent { has key (pages_of self.old).resident ≡ false }
        requires whole { length words.now ≡ 512 }
        requires kept { IfSome (under key self.old.saved) (λ page. page.words ≡ words.now) }
        ensures put { self.new ≡ record self.old {
          held = record { frame = result.frame; page = record { key = key; words = words.now } } ∷ self.old.held;
        } }
        ensures below { result.frame < self.new.frames }
    {
        self.resident.add(key, words)
    }

    /// Evicts the page with this key, and answers whether it was resident.
    pub fn evict(&mut self, key: Key) -> bool
        ensures found { result ≡ has key (pages_of self.old).resident }
        ensures pages { pages_of self.new ≡ evict key (pages_of self.old) }
        ensures frames { KeepFrames self.old.held self.new.held }
    {
        match self.resident.find(key) {
            None => false,
            Some(i) => {
                leave(&mut self.resident, &mut self.saved, i);
                self.evicted = self.evicted.saturating_add(1);
                true
            }
        }
    }

    /// Drops the saved page with this key, and answers whether it was saved.
    pub fn drop_saved(&mut self, key: Key) -> bool
        ensures found { result ≡ has key self.old.saved }
        ensures pages { pages_of self.new ≡ drop_saved key (pages_of self.old) }
        ensures frames { self.new.held ≡ self.old.held }
    {
        match self.saved.find(key) {
            None => false,
            Some(i) => {
                self.saved.remove(i);
                true
            }
        }
    }

    /// The words that were saved under a key.
    pub fn saved(&self, key: Key) -> Option<&[u64]>
        ensures none { IfNone result (under key self.now.saved ≡ None) }
        ensures some { IfSome result (λ words. under key self.now.saved ≡ Some (record { key = key; words = words.now })) }
        ensures whole { IfSome result (λ words. length words.now ≡ 512) }
    {
        match self.saved.find(key) {
            None => None,
            Some(i) => Some(self.saved.words(i)),
        }
    }

    /// The words of the page in the frame of a slot.
    pub fn words(&self, slot: Slot) -> &[u64]
        requires { IsSome (page_in self.now slot) }
        ensures words { IfSome (page_in self.now slot) (λ page. page.words ≡ result.now) }
        ensures whole { length result.now ≡ 512 }
    {
        self.resident.words_in(slot)
    }

    /// How often a page was evicted; the count stays at 2^64 - 1 once there.
    pub fn evicted(&self) -> u64
        ensures { result ≡ self.now.evicted }
    {
        self.evicted
    }
}
