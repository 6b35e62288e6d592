// The issue cycles of a block.
ghost use Rattle.std.specs.Prelude.{◌≡◌, ◌≤◌, ◌*◌, IfOk, All, map, length};
ghost use Rattle.std.specs.List.Sorted.{IsNonDecreasing};
ghost use Rattle.list_encoding.specs.Times.{word_pace, issue_cycles, block_end};

use super::word::{is_head, pause};
use std::alloc::Global;
use tnk_base::NoMemory;

/// When the operations of a block issue, in cycles of the block, and when the block ends.
#[derive(Debug, Drop, PartialEq, Eq)]
pub struct Timed {
    /// The issue cycle of each operation.
    pub at: Vec<u32>,
    /// The block's end.
    pub end: u32,
}

/// The times of a block of at most 512 words.
///
/// The head marks and pauses alone decide them: a word without a reading has its place too.
pub fn times(alloc: Global, words: &[u64]) -> Result<Timed, NoMemory>
    requires { length words.now ≤ 512 }
    ensures at { IfOk result (λ t. t.at.items ≡ issue_cycles (map word_pace words.now)) }
    ensures end { IfOk result (λ t. t.end ≡ block_end (map word_pace words.now)) }
    ensures count { IfOk result (λ t. length t.at.items ≡ length words.now) }
    ensures rising { IfOk result (λ t. IsNonDecreasing t.at.items) }
    ensures within { IfOk result (λ t. All (λ n. n ≤ t.end) t.at.items) }
    ensures bound { IfOk result (λ t. t.end ≤ 32 * length words.now) }
{
    let mut at = Vec::with_capacity(alloc, words.len())?;
    let mut present = 0;
    let mut next = 0;
    for word in words {
        if is_head(*word) {
            present = next;
            next += 1 + pause(*word) as u32;
        }
        at.push(present)?;
    }
    Ok(Timed { at, end: next })
}
