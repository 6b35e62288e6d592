// Where blocks stand.
ghost use Rattle.std.specs.Prelude.{◌≡◌, ◌≤◌, ◌++◌, length, OnOk};
ghost use Rattle.workload.specs.Layout.{placed, page_end, zeros};

use block_table::PAGE;
use std::alloc::AllocError;

/// Words of a page.
pub const WORDS: usize = PAGE as usize;

/// Where a block begins that follows what stands before the cursor: at the cursor, or at the next page's start where it
/// wouldn't fit on the cursor's page.
#[tactic(auto, unfolding(crate::specs::Layout::placed))]
fn place(cursor: usize, words: u16) -> usize
    requires few { words ≤ 512 }
    requires near { cursor ≤ 131072 }
    ensures { result ≡ placed cursor words }
{
    if cursor % WORDS + words as usize <= WORDS {
        cursor
    } else {
        (cursor / WORDS + 1) * WORDS
    }
}

/// Zeros up to the place of a block of so many words.
pub fn push_gap(words: &mut Vec<u64>, count: u16) -> Result<(), AllocError>
    requires few { count ≤ 512 }
    requires near { length words.old.items ≤ 131072 }
    ensures { OnOk result (words.new.items ≡ words.old.items ++
        zeros (length words.old.items) (placed (length words.old.items) count)) }
{
    words.resize(place(words.len(), count), 0)
}

/// Zeros up to the end of the last page.
pub fn fill_page(words: &mut Vec<u64>) -> Result<(), AllocError>
    requires near { length words.old.items ≤ 131072 }
    ensures { OnOk result (words.new.items ≡ words.old.items ++
        zeros (length words.old.items) (page_end (length words.old.items))) }
{
    words.resize((words.len() + (WORDS - 1)) / WORDS * WORDS, 0)
}
