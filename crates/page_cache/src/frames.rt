// A number of frames, and the pages that stand in them.
ghost use Rattle.std.specs.Prelude.{◌≡◌, ◌+◌, ◌-◌, ◌<◌, ◌≤◌, ℕ, false, true, nat_eq, [], ◌∷◌, ◌++◌, length, take, drop, slice_get, Some, All, IfSome, IfNone, IfOk};
ghost use Rattle.std.specs.List.{remove, list_any, range_with_len};
ghost use Rattle.std.specs.List.Sorted.{IsPermutation};
ghost use Rattle.paging.specs.Pages.{Page, same_key};
ghost use Rattle.page_cache.specs.Cache.{Held};
ghost use Rattle.page_cache.specs.Frames.{Filled, moved_to_end};

use super::{Slot, WORDS};
use std::alloc::Global;
use std::marker::Model;
use tnk_base::{Key, NoMemory};

/// Frames, some of which hold a page. Contracts see the pages with their frames, that touched last at the end.
#[derive(Drop)]
pub(crate) struct Frames {
    /// The words and the key in each frame; those in a free one are of no account.
    words: Vec<[u64; WORDS]>,
    keys: Vec<Key>,
    /// The free frames, and behind them those in use, that touched last at the end.
    order: Vec<u16>,
    free: usize,
}

impl Model for Frames {
    ghost use Rattle.std.specs.Prelude.{length, map, drop};
    ghost use Rattle.page_cache.specs.Frames.{Filled, AreFrames, held_in};

    ghost Value = { Filled };

    ghost view = { λ a. record {
      held = map (held_in a.keys.items a.words.items) (drop a.free a.order.items);
      size = length a.words.items;
    } };

    ghost invariant = { λ a. AreFrames a.keys.items a.words.items a.order.items a.free };
}

fn is_same(a: Key, b: Key) -> bool
    ensures { result ≡ same_key a b }
{
    a.program == b.program && a.page == b.page
}

/// Moves the number at a place to the end.
fn move_to_end(order: &mut Vec<u16>, at: usize)
    requires { at < length order.old.items }
    ensures moved { order.new.items ≡ moved_to_end at order.old.items }
    ensures same { IsPermutation order.old.items order.new.items }
{
    order[at..].rotate_left(1);
}

/// Moves the number at a place before those from a place on.
fn move_before(order: &mut Vec<u16>, at: usize, from: usize)
    requires within { at < length order.old.items }
    requires behind { from ≤ at }
    ensures moved { drop (from + 1) order.new.items ≡ remove (drop from order.old.items) (at - from) }
    ensures same { IsPermutation order.old.items order.new.items }
{
    order[from..at + 1].rotate_right(1);
}

/// The numbers below a number.
fn numbers(alloc: Global, count: u16) -> Result<Vec<u16>, NoMemory>
    ensures { IfOk result (λ v. v.items ≡ range_with_len 0 count) }
{
    let mut all = Vec::with_capacity(alloc, count as usize)?;
    for n in 0..count {
        all.push(n)?;
    }
    Ok(all)
}

impl Frames {
    /// So many free frames.
    pub(crate) fn new(alloc: Global, count: u16) -> Result<Self, NoMemory>
        ensures { IfOk result (λ frames. frames ≡ record { held = []; size = count }) }
    {
        let words = vec![in alloc; [0; WORDS]; count as usize]?;
        let keys = vec![in alloc; Key {
            program: 0,
            page: 0
        }; count as usize]?;
        let order = numbers(alloc, count)?;
        Ok(Frames {
            words,
            keys,
            order,
            free: count as usize,
        })
    }

    /// Where the page with a key stands, that touched last counting where there are several.
    pub(crate) fn find(&self, key: Key) -> Option<usize>
        ensures none { IfNone result (list_any (λ h. same_key h.page.key key) self.now.held ≡ false) }
        ensures some { IfSome result (λ i. i < length self.now.held) }
        ensures named { IfSome result (λ i. IfSome (slice_get self.now.held i) (λ h. same_key h.page.key key ≡ true)) }
    {
        for i in (0..self.order.len() - self.free).rev() {
            let frame = self.order[self.free + i];
            if is_same(self.keys[frame as usize], key) {
                return Some(i);
            }
        }
        None
    }

    /// Touches the page at a place: it goes to the end.
    pub(crate) fn touch(&mut self, i: usize)
        requires { i < length self.old.held }
        ensures { self.new ≡ record self.old { held = moved_to_end i self.old.held } }
    {
        let at = self.free + i;
        move_to_end(&mut self.order, at);
    }

    /// Takes the page at a place out of its frame, which is free then.
    pub(crate) fn remove(&mut self, i: usize)
        requires { i < length self.old.held }
        ensures { self.new ≡ record self.old { held = remove self.old.held i } }
    {
        let from = self.free;
        move_before(&mut self.order, from + i, from);
        self.free = from + 1;
    }

    /// Puts a page into a free frame, as that touched last.
    pub(crate) fn add(&mut self, key: Key, words: &[u64]) -> Slot
        requires room { length self.old.held < self.old.size }
        requires whole { length words.now ≡ 512 }
        ensures held { self.new ≡ record self.old {
          held = self.old.held ++ record { frame = result.frame; page = record { key = key; words = words.now } } ∷ [];
        } }
        ensures below { result.frame < self.old.size }
    {
        let at = self.free - 1;
        let frame = self.order[at];
        move_to_end(&mut self.order, at);
        self.free = at;
        self.keys[frame as usize] = key;
        self.words[frame as usize].copy_from_slice(words);
        Slot { frame }
    }

    /// The number of frames.
    pub(crate) fn size(&self) -> usize
        ensures { result ≡ self.now.size }
    {
        self.words.len()
    }

    /// Whether each frame has a page.
    pub(crate) fn is_full(&self) -> bool
        ensures { result ≡ nat_eq (length self.now.held) self.now.size }
    {
        self.free == 0
    }

    /// The frame of the page at a place.
    pub(crate) fn slot(&self, i: usize) -> Slot
        requires { i < length self.now.held }
        ensures same { IfSome (slice_get self.now.held i) (λ h. h.frame ≡ result.frame) }
        ensures below { result.frame < self.now.size }
    {
        Slot {
            frame: self.order[self.free + i],
        }
    }

    /// The key of the page at a place.
    pub(crate) fn key(&self, i: usize) -> Key
        requires { i < length self.now.held }
        ensures { IfSome (slice_get self.now.held i) (λ h. h.page.key ≡ result) }
    {
        self.keys[self.order[self.free + i] as usize]
    }

    /// The words of the page at a place.
    pub(crate) fn words(&self, i: usize) -> &[u64]
        requires { i < length self.now.held }
        ensures same { IfSome (slice_get self.now.held i) (λ h. h.page.words ≡ result.now) }
        ensures whole { length result.now ≡ 512 }
    {
        &self.words[self.order[self.free + i] as usize]
    }

    /// The words of the page in a frame in use.
    pub(crate) fn words_in(&self, slot: Slot) -> &[u64]
        requires { list_any (λ h. nat_eq h.frame slot.frame) self.now.held ≡ true }
        ensures same { All (λ h. h.frame ≡ slot.frame → h.page.words ≡ result.now) self.now.held }
        ensures whole { length result.now ≡ 512 }
    {
        &self.words[slot.frame as usize]
    }
}
