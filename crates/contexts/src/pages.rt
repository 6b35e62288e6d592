// The operations of the pages in frames, read once when a page comes into one.
ghost use Rattle.std.specs.Prelude.{◌≡◌, ◌<◌, ◌≤◌, ◌+◌, ℕ, length, take, drop, slice_get, slice_index, Some, None, IfOk, IfSome, IsSome, All};
ghost use Rattle.page_cache.specs.Cache.{page_in};
ghost use Rattle.page_fault.specs.Loading.{IsThere};
ghost use Rattle.contexts.specs.Standing.{Read, AreOf, AreRead};

use block_ops::time_page;
use operation::{Guarded, Op};
use page_cache::{Slot, WORDS};
use page_fault::Loader;
use std::alloc::Global;
use std::marker::Model;
use timed_meaning::TimedOp;
use tnk_base::{Key, NoMemory};

/// The operations that were read of the page in a frame.
#[derive(Clone, Drop)]
struct Operations {
    key: Option<Key>,
    ops: [TimedOp; WORDS],
    /// The cycle in which the block at a place ends.
    ends: [u32; WORDS],
}

/// Those of all frames. Contracts see the keys, the operations and the ends by frame.
#[derive(Drop)]
pub(crate) struct Pages {
    frames: Vec<Operations>,
}

impl Model for Pages {
    ghost use Rattle.std.specs.Prelude.{List, map};
    ghost use Rattle.contexts.specs.Standing.{Read, read_of};

    ghost Value = { List Read };

    ghost view = { λ a. map read_of a.frames.items };
}

/// No operations.
fn unread() -> Operations
    ensures { result.key ≡ None }
{
    let halt = TimedOp {
        guarded: Guarded {
            guard: 0,
            op: Op::Halt(0),
        },
        at: 0,
        latency: 1,
    };
    Operations {
        key: None,
        ops: [halt; WORDS],
        ends: [0; WORDS],
    }
}

impl Pages {
    /// For so many frames, none of them read.
    pub(crate) fn new(alloc: Global, frames: u16) -> Result<Self, NoMemory>
        ensures unread { IfOk result (λ pages. All (λ r. r.key ≡ None) pages) }
        ensures size { IfOk result (λ pages. length pages ≡ frames) }
    {
        Ok(Pages {
            frames: vec![in alloc; unread(); frames as usize]?,
        })
    }

    /// Reads the operations of the page of a key that stands in the frame of a slot, where the frame's aren't those.
    pub(crate) fn read(&mut self, loader: &Loader, key: Key, slot: Slot)
        requires frame { slot.frame < length self.old }
        requires there { IsThere loader.now.programs key }
        requires stands { IfSome (page_in loader.now.cache slot) (λ page. page.key ≡ key) }
        requires some { IsSome (page_in loader.now.cache slot) }
        requires read { AreRead loader.now.programs self.old }
        ensures read { AreRead loader.now.programs self.new }
        ensures now { IfSome (slice_get self.new slot.frame) (AreOf loader.now.programs key) }
        ensures size { length self.new ≡ length self.old }
    {
        let frame = &mut self.frames[slot.number() as usize];
        if frame.key != Some(key) {
            frame.key = Some(key);
            time_page(
                loader.chosen(key.program),
                loader.image(key.program).page(key.page),
                loader.words(slot),
                &mut frame.ops,
                &mut frame.ends,
            );
        }
    }

    /// So many operations from a place on, of those in a frame.
    pub(crate) fn ops(&self, frame: u16, place: usize, count: usize) -> &[TimedOp]
        requires frame { frame < length self.now }
        requires inside { place + count ≤ 512 }
        ensures { IfSome (slice_get self.now frame) (λ r. take count (drop place r.ops) ≡ result.now) }
    {
        &self.frames[frame as usize].ops[place..place + count]
    }

    /// The cycle in which the block at a place ends, of those in a frame.
    pub(crate) fn end(&self, frame: u16, place: usize) -> u32
        requires frame { frame < length self.now }
        requires inside { place < 512 }
        ensures { IfSome (slice_get self.now frame) (λ r. slice_index r.ends place ≡ result) }
    {
        self.frames[frame as usize].ends[place]
    }
}
