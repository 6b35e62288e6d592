// The pages that stand in frames, and those that were saved when they left theirs.
//
// It stands on `tnk_base` for the keys of pages and on `paging` for what the two lists are (`paging`, specs/Pages.antt).
// `PageCache` promises what touching, putting, evicting and dropping a page does to them, and that a page which stays has its
// frame and its words (specs/Cache.antt). It takes all its memory at `new`. What the words of a page are is for the layer
// above.
#![tactic(auto)]

ghost use Rattle.std.specs.Prelude.{◌≡◌};

mod cache;
mod frames;

pub use cache::PageCache;

/// Words of a page.
pub const WORDS: usize = 512;

/// The frame of a resident page.
#[derive(Clone, Copy, Debug, PartialEq, Eq)]
pub struct Slot {
    frame: u16,
}

impl Slot {
    /// The number of the frame, below the number of frames.
    pub fn number(&self) -> u16
        ensures { result ≡ self.now.frame }
    {
        self.frame
    }
}
