// Links, and those of an operation.
ghost use Rattle.std.specs.Prelude.{◌≡◌, ◌<◌, ◌≤◌, ℕ, pos, ◌+ℤ◌, ◌≤ℤ◌, length, IfOk, vec_capacity, []};
ghost use Rattle.block_links.specs.Links.{AreLinks, row, delay_by};

use std::alloc::Global;
use tnk_base::NoMemory;

/// What decides the delay of a link, in cycles: how much later than the first operation the second one issues at the least.
/// The names are the field's, as in Rau (1993).
#[derive(Clone, Copy, Debug, PartialEq, Eq)]
pub enum Dependence {
    /// The second reads what the first writes: the latency of the first.
    Flow,
    /// The second writes what the first reads: 1 less the latency of the second.
    Anti,
    /// Both write: the latency of the first and 1, less the latency of the second.
    Output,
    /// A delay of its own, whatever the latencies.
    Given(i8),
}

/// An operation that comes after another one, and what decides how many cycles later it can issue.
#[derive(Clone, Copy, Debug, PartialEq, Eq)]
pub struct Link {
    pub to: u16,
    pub dependence: Dependence,
}

/// The links of operations, those of one behind those of the other, and where the links of each begin; the last number is
/// that of all links.
#[derive(Drop)]
pub struct Links {
    pub starts: Vec<u32>,
    pub links: Vec<Link>,
}

impl Link {
    /// Its delay, where the first operation lands so many cycles after its issue, and the second so many.
    pub fn delay(&self, first: u8, second: u8) -> i16
        ensures { result ≡ delay_by self.now.dependence first second }
    {
        let (first, second) = (i16::from(first), i16::from(second));
        match self.dependence {
            Dependence::Flow => first,
            Dependence::Anti => 1 - second,
            Dependence::Output => first - second + 1,
            Dependence::Given(delay) => i16::from(delay),
        }
    }
}

impl Links {
    /// Room for so many links of so many operations; there are none.
    pub fn with_room(alloc: Global, operations: usize, links: usize) -> Result<Self, NoMemory>
        requires { operations ≤ 512 }
        ensures none { IfOk result (λ l. (l.starts.items ≡ []) × (l.links.items ≡ [])) }
        ensures starts { IfOk result (λ l. operations < vec_capacity l.starts) }
        ensures links { IfOk result (λ l. links ≤ vec_capacity l.links) }
    {
        Ok(Links {
            starts: Vec::with_capacity(alloc, operations + 1)?,
            links: Vec::with_capacity(alloc, links)?,
        })
    }

    /// The links of an operation.
    pub fn of(&self, i: u16) -> &[Link]
        requires { (n : ℕ) × AreLinks self.now n × (i < n) }
        ensures { result.now ≡ row self.now i }
    {
        let i = i as usize;
        &self.links[self.starts[i] as usize..self.starts[i + 1] as usize]
    }
}
