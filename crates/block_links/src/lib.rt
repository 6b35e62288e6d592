// Links between the operations of a block: a few for each, along which all follows that is said of pairs.
//
// It stands on `serial_order`, for orders and the stuck set. A link leads from an operation to one that comes after it, and
// says what decides the delay: the same links serve every generation. What it is that links cover delays stands in
// specs/Cover.antt. `order` promises a serial order of linked operations, or the least that is stuck; `laws` says that
// links and the pairs that they cover have the same stuck operations.
#![tactic(auto)]

pub mod laws;
mod links;
pub mod lists;
mod serial;

pub use links::{Dependence, Link, Links};
pub use serial::{count_all, order, order_into};
