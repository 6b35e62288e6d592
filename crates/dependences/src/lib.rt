// The dependences of a block's operations: which comes before which, by how many cycles, and the links along which all follows.
//
// It stands on `operation` for places, on `timed_meaning` for operations with times, on `trap_order` for pairs that keep list
// order, on `machine_desc` for latencies, on `serial_order` for tables of delays and on `block_links`. What comes before what
// stands in specs/Before.antt. A `Node` is an operation with what is computed once for it; `fill` promises the table of the
// delays between nodes. `accesses` lists what operations read and write, in turn (specs/Accesses.antt), and `links` makes the
// links of neighbours (specs/Linked.antt). `laws` says that these say as much as all pairs.
#![tactic(auto)]

mod access;
mod footprint;
mod graph;
pub mod laws;
mod linking;

pub use access::{Access, Usage, accesses, some_clash};
pub use footprint::{Footprint, Role};
pub use graph::{Node, fill};
pub use linking::links;
