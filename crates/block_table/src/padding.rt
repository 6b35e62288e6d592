// The words between the blocks.
ghost use Rattle.std.specs.Prelude.{◌≡◌, ◌<◌, ◌≤◌, ◌^◌, ℕ, length, slice_index, IfNone, IfSome};
ghost use Rattle.block_table.specs.Rows.{IsRising};
ghost use Rattle.block_table.specs.Padding.{first_unpadded as first_unpadded_of, AreZero, IsFirstFilled};

/// The least address from `begin` on and below `end` whose word isn't 0.
fn first_filled(words: &[u64], begin: usize, end: usize) -> Option<u32>
    requires { length words.now ≤ 2 ^ 32 }
    ensures none { IfNone result (AreZero words.now begin end) }
    ensures some { IfSome result (IsFirstFilled words.now begin end) }
{
    for address in begin..end.min(words.len()) {
        if words[address] != 0 {
            return Some(address as u32);
        }
    }
    None
}

/// The least address whose word stands in no block and isn't 0.
pub fn first_unpadded(rows: &[(u32, u16)], words: &[u64]) -> Option<u32>
    requires rising { IsRising rows.now }
    requires few { length words.now ≤ 2 ^ 32 }
    ensures { result ≡ first_unpadded_of rows.now words.now }
{
    let mut end = 0;
    for row in rows {
        let (entry, count) = *row;
        let filled = first_filled(words, end, entry as usize);
        if filled.is_some() {
            return filled;
        }
        end = entry as usize + count as usize;
    }
    first_filled(words, end, words.len())
}
