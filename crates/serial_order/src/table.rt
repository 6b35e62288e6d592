// The table of delays.
#![tactic(auto, unfolding(crate::specs::Table::delay_of))]

ghost use Rattle.std.specs.Prelude.{◌≡◌, ◌<◌, ◌≤◌, ◌+◌, ◌*◌, ℕ, IsTrue, IfOk, Some, None, length, slice_index_or};
ghost use Rattle.serial_order.specs.Table.{Table, delay_of, before, HasRoom, IsTable};

use std::alloc::Global;
use std::marker::Model;
use tnk_base::NoMemory;

/// For each two of a block's operations whether the one is before the other, and the delay in cycles.
#[derive(Drop)]
pub struct Delays {
    count: u16,
    cells: Vec<Option<i8>>,
}

impl Model for Delays {
    ghost Value = { Table };

    ghost view = { λ d. record { count = d.count; cells = d.cells.items } };

    ghost invariant = { λ d. IsTable (record { count = d.count; cells = d.cells.items }) };
}

/// The place of the cell of i before j, in rows of so many cells.
fn place(count: u16, i: u16, j: u16) -> usize
    ensures { result ≡ i * count + j }
{
    i as usize * count as usize + j as usize
}

/// Empties so many cells.
fn empty(cells: &mut [Option<i8>], size: usize)
    requires { size ≤ length cells.old }
    ensures length { length cells.new ≡ length cells.old }
    ensures empty { (k : ℕ) → k < size → slice_index_or cells.new k None ≡ None }
{
    for k in 0..size {
        cells[k] = None;
    }
}

impl Delays {
    /// A table over n operations, at most 512, of which none is before another.
    pub fn new(alloc: Global, n: u16) -> Result<Self, NoMemory>
        requires { n ≤ 512 }
        ensures count { IfOk result (λ d. d.count ≡ n) }
        ensures none { IfOk result (λ d. (i j : ℕ) → delay_of d i j ≡ None) }
    {
        Delays::with_room(alloc, n)
    }

    /// A table over `most` operations, at most 512, of which none is before another. It has room to be restarted with as
    /// many.
    pub fn with_room(alloc: Global, most: u16) -> Result<Self, NoMemory>
        requires { most ≤ 512 }
        ensures count { IfOk result (λ d. d.count ≡ most) }
        ensures none { IfOk result (λ d. (i j : ℕ) → delay_of d i j ≡ None) }
        ensures room { IfOk result (λ d. HasRoom d most) }
    {
        let size = most as usize * most as usize;
        Ok(Delays {
            count: most,
            cells: vec![in alloc; None; size]?,
        })
    }

    /// Makes it a table over n operations, of which none is before another. It takes no memory.
    pub fn restart(&mut self, n: u16)
        requires few { n ≤ 512 }
        requires room { HasRoom self.old n }
        ensures count { self.new.count ≡ n }
        ensures none { (i j : ℕ) → delay_of self.new i j ≡ None }
        ensures room { (most : ℕ) → HasRoom self.old most → HasRoom self.new most }
    {
        self.count = n;
        empty(&mut self.cells, n as usize * n as usize);
    }

    /// How many operations it is over, at most 512.
    pub fn count(&self) -> u16
        ensures value { result ≡ self.now.count }
        ensures few { self.now.count ≤ 512 }
        ensures inside { (i j : ℕ) → IsTrue (before self.now i j) →
            (i < self.now.count) × (j < self.now.count) × (i ≡ j → ⊥) }
    {
        self.count
    }

    /// Makes i be before j with a delay. The two differ.
    pub fn set(&mut self, i: u16, j: u16, delay: i8)
        requires first { i < self.old.count }
        requires second { j < self.old.count }
        requires differ { i ≡ j → ⊥ }
        ensures count { self.new.count ≡ self.old.count }
        ensures room { (most : ℕ) → HasRoom self.old most → HasRoom self.new most }
        ensures here { delay_of self.new i j ≡ Some delay }
        ensures elsewhere { (a b : ℕ) → (a ≡ i → b ≡ j → ⊥) → delay_of self.new a b ≡ delay_of self.old a b }
    {
        let cell = place(self.count, i, j);
        self.cells[cell] = Some(delay);
    }

    /// The delay of i before j; None exactly where i isn't before j.
    pub fn get(&self, i: u16, j: u16) -> Option<i8>
        requires first { i < self.now.count }
        requires second { j < self.now.count }
        ensures { result ≡ delay_of self.now i j }
    {
        self.cells[place(self.count, i, j)]
    }
}
