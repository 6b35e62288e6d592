// The links of a table: for each operation the operations that it is before, and the delays.
ghost use Rattle.std.specs.Prelude.{◌≡◌, ◌<◌, ◌≤◌, ◌+◌, ◌*◌, ◌++◌, ℕ, length, vec_capacity};
ghost use Rattle.serial_order.specs.Table.{delay_of};
ghost use Rattle.block_links.specs.Links.{AreLinks, delay_along};
ghost use Rattle.list_sched.specs.Links.{links_below};

use block_links::lists::add;
use block_links::{Dependence, Link, Links};
use serial_order::Delays;

/// Adds the links of an operation.
fn add_row(d: &Delays, i: u16, links: &mut Vec<Link>)
    requires inside { i < d.now.count }
    requires room { length links.old.items + d.now.count ≤ vec_capacity links.old }
    ensures items { links.new.items ≡ links.old.items ++ links_below d.now i d.now.count }
    ensures room { vec_capacity links.old ≤ vec_capacity links.new }
    ensures few { length links.new.items ≤ length links.old.items + d.now.count }
{
    for j in 0..d.count() {
        if let Some(delay) = d.get(i, j) {
            add(
                links,
                Link {
                    to: j,
                    dependence: Dependence::Given(delay),
                },
            );
        }
    }
}

/// Makes the links those of a table, for which there is room.
pub(crate) fn fill(links: &mut Links, d: &Delays)
    requires starts { d.now.count < vec_capacity links.old.starts }
    requires links { d.now.count * d.now.count ≤ vec_capacity links.old.links }
    ensures links { AreLinks links.new d.now.count }
    ensures same { (latency : ℕ → ℕ) (i j : ℕ) → delay_along latency links.new i j ≡ delay_of d.now i j }
    ensures starts { vec_capacity links.old.starts ≤ vec_capacity links.new.starts }
    ensures more { vec_capacity links.old.links ≤ vec_capacity links.new.links }
{
    links.starts.clear();
    links.links.clear();
    add(&mut links.starts, 0);
    for i in 0..d.count() {
        add_row(d, i, &mut links.links);
        add(&mut links.starts, links.links.len() as u32);
    }
}
