// The table and its look-ups.
ghost use Rattle.std.specs.Prelude.{◌≡◌, ◌<◌, ◌≤◌, ◌+◌, ◌*◌, ◌/◌, ◌↔◌, ◌^◌, ℕ, length, Option, Some, None, IsNone, IsSome, IfOk, IfSome, IfNone, MatchResult, false, true, ◌%◌, ◌||◌, nat_eq, nat_le, nat_lt};
ghost use Rattle.std.specs.List.Sorted.{IsStrictlyIncreasing};
ghost use Rattle.block_table.specs.Rows.{Rows, entry_of, count_of, end_of, entries, IsRising, IsOnPage, IsTable, AreInside};
ghost use Rattle.block_table.specs.Padding.{first_unpadded as first_unpadded_of};
ghost use Rattle.block_table.specs.Rules.{breaks_table, crosses_page, has_entry as is_entry, first_row, first_broken, IsFirstBroken};

use super::PAGE;
use super::padding::first_unpadded;
use super::rules::{TableFault, TableRule};
use std::alloc::Global;
use std::marker::Model;

/// The rows of a block table that keeps its rules, by rising entries.
#[derive(Drop)]
pub struct Table {
    rows: Vec<(u32, u16)>,
}

impl Model for Table {
    ghost Value = { Rows };

    ghost view = { λ t. t.rows.items };

    ghost invariant = { λ t. IsTable t.rows.items };
}

/// Whether a row breaks the rule `Table`, where the row before ends at `end` and the pages at `limit`.
fn is_misplaced(entry: u32, count: u16, limit: u32, end: u32) -> bool
    ensures { result ≡ (nat_eq count 0 || (nat_le limit entry || nat_lt entry end)) }
{
    count == 0 || limit <= entry || entry < end
}

/// The first row that breaks the rule `Table`.
fn first_misplaced(rows: &[(u32, u16)], pages: u16) -> Option<u32>
    ensures first { result ≡ first_row (breaks_table rows.now pages) rows.now }
    ensures rising { IfNone result (IsRising rows.now) }
    ensures inside { IfNone result ((k : ℕ) → k < length rows.now → entry_of rows.now k < 512 * pages) }
{
    let limit = pages as u32 * PAGE;
    let mut end = 0;
    for (k, row) in rows.iter().enumerate() {
        let (entry, count) = *row;
        if is_misplaced(entry, count, limit, end) {
            return Some(k as u32);
        }
        end = entry + count as u32;
    }
    None
}

/// Whether a block goes beyond the page that it begins on.
fn is_crossing(entry: u32, count: u16) -> bool
    ensures { result ≡ nat_lt 512 (entry % 512 + count) }
{
    PAGE < entry % PAGE + count as u32
}

/// The first row that breaks the rule `PageCross`.
fn first_crossing(rows: &[(u32, u16)]) -> Option<u32>
    requires { IsRising rows.now }
    ensures first { result ≡ first_row (crosses_page rows.now) rows.now }
    ensures on_page { IfNone result ((k : ℕ) → k < length rows.now → IsOnPage rows.now k) }
{
    for (k, row) in rows.iter().enumerate() {
        let (entry, count) = *row;
        if is_crossing(entry, count) {
            return Some(k as u32);
        }
    }
    None
}

/// The row with an entry.
fn row_of(rows: &[(u32, u16)], entry: u32) -> Option<u32>
    requires { IsRising rows.now }
    ensures none { IfNone result (is_entry rows.now entry ≡ false) }
    ensures some { IfSome result (λ _. is_entry rows.now entry ≡ true) }
    ensures row { IfSome result (λ k. (k < length rows.now) × (entry_of rows.now k ≡ entry)) }
{
    match rows.binary_search_by_key(&entry, |row| row.0) {
        Ok(k) => Some(k as u32),
        Err(_) => None,
    }
}

impl Table {
    /// A table of these rows, for an image of so many pages whose program begins at `entry`. Each block stands on those pages.
    pub fn new(
        alloc: Global,
        rows: &[(u32, u16)],
        pages: u16,
        entry: u32,
    ) -> Result<Self, TableFault>
        ensures table { MatchResult result (λ table. (table ≡ rows.now) × (first_broken rows.now pages entry ≡ None))
            (IsFirstBroken rows.now pages entry) }
        ensures inside { IfOk result (λ table. AreInside table pages) }
    {
        if let Some(row) = first_misplaced(rows, pages) {
            return Err(TableFault::Broken(TableRule::Table, row));
        }
        if let Some(row) = first_crossing(rows) {
            return Err(TableFault::Broken(TableRule::PageCross, row));
        }
        if row_of(rows, entry).is_none() {
            return Err(TableFault::Broken(TableRule::Entry, 0));
        }
        Ok(Table {
            rows: rows.to_vec(alloc)?,
        })
    }

    /// How many rows there are.
    pub fn rows(&self) -> u32
        ensures count { result ≡ length self.now }
        ensures rising { IsStrictlyIncreasing (entries self.now) }
        ensures table { IsTable self.now }
    {
        self.rows.len() as u32
    }

    /// The row with an entry, if there is one.
    pub fn block_of(&self, entry: u32) -> Option<u32>
        ensures none { IfNone result (is_entry self.now entry ≡ false) }
        ensures some { IfSome result (λ _. is_entry self.now entry ≡ true) }
        ensures row { IfSome result (λ k. (k < length self.now) × (entry_of self.now k ≡ entry)) }
    {
        row_of(&self.rows, entry)
    }

    /// The entry of the row after a block; None exactly at the last row.
    pub fn next(&self, block: u32) -> Option<u32>
        requires { block < length self.now }
        ensures last { IsNone result ↔ (block + 1 ≡ length self.now) }
        ensures next { IfSome result (λ entry. entry ≡ entry_of self.now (block + 1)) }
    {
        let next = block as usize + 1;
        if next < self.rows.len() {
            Some(self.rows[next].0)
        } else {
            None
        }
    }

    /// The page that a block stands on.
    pub fn page(&self, block: u32) -> u16
        requires { block < length self.now }
        ensures { result ≡ entry_of self.now block / 512 }
    {
        (self.entry(block) / PAGE) as u16
    }

    /// The address of a block's first word.
    pub fn entry(&self, block: u32) -> u32
        requires { block < length self.now }
        ensures value { result ≡ entry_of self.now block }
        ensures inside { result < 2 ^ 25 }
    {
        self.rows[block as usize].0
    }

    /// How many operations a block has, 1 to 512.
    pub fn count(&self, block: u32) -> u16
        requires { block < length self.now }
        ensures value { result ≡ count_of self.now block }
        ensures counted { 0 < result }
        ensures on_page { IsOnPage self.now block }
    {
        self.rows[block as usize].1
    }

    /// The least address whose word stands in no block and isn't 0.
    pub fn unpadded(&self, words: &[u64]) -> Option<u32>
        requires { length words.now ≤ 2 ^ 32 }
        ensures { result ≡ first_unpadded_of self.now words.now }
    {
        first_unpadded(&self.rows, words)
    }
}
