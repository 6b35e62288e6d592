// What `gen` is asked for.
ghost use Rattle.std.specs.Prelude.{◌≡◌, ◌≤◌, IfSome, option_map};
ghost use Rattle.tinker_words.specs.Words.{ranged as ranged_in, workload_named};
ghost use Rattle.tinker_words.specs.Rows.{IsSized};

use std::marker::Model;
use tnk_text::decimal;

/// The number from which an image is drawn, how many blocks it has, and how many operations each of them.
#[derive(Debug, Drop)]
pub struct Workload {
    number: u32,
    blocks: u16,
    ops: u16,
}

impl Model for Workload {
    ghost use Rattle.tinker_words.specs.Words.{Workload};
    ghost use Rattle.tinker_words.specs.Rows.{IsSized};

    ghost Value = { Workload };

    ghost view = { λ w. record { number = w.number; blocks = w.blocks; ops = w.ops } };

    ghost invariant = { λ w. IsSized w.blocks w.ops };
}

/// The number that a word writes, where it is in a range.
fn ranged(word: &str, least: u32, most: u32) -> Option<u32>
    ensures value { result ≡ ranged_in least most word.now }
    ensures least { IfSome result (λ n. least ≤ n) }
    ensures most { IfSome result (λ n. n ≤ most) }
{
    match decimal(word.as_bytes()) {
        Some(n) if u64::from(least) <= n && n <= u64::from(most) => Some(n as u32),
        _ => None,
    }
}

impl Workload {
    /// What three words name; None where one is no number in its range.
    pub(crate) fn named(number: &str, blocks: &str, ops: &str) -> Option<Self>
        ensures { result ≡ workload_named number.now blocks.now ops.now }
    {
        let number = ranged(number, 0, u32::MAX)?;
        let blocks = ranged(blocks, 1, 256)? as u16;
        let ops = ranged(ops, 1, 500)? as u16;
        Some(Workload {
            number,
            blocks,
            ops,
        })
    }

    /// The number from which the image is drawn.
    pub fn number(&self) -> u32
        ensures { result ≡ self.now.number }
    {
        self.number
    }

    /// How many blocks the image has, 1 to 256.
    pub fn blocks(&self) -> u16
        ensures value { result ≡ self.now.blocks }
        ensures least { 1 ≤ result }
        ensures most { result ≤ 256 }
    {
        self.blocks
    }

    /// How many operations each block has, 1 to 500.
    pub fn ops(&self) -> u16
        ensures value { result ≡ self.now.ops }
        ensures least { 1 ≤ result }
        ensures most { result ≤ 500 }
    {
        self.ops
    }
}
