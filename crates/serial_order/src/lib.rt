// The delays between a block's operations, and their serial order.
//
// It stands on `tnk_base`. `Delays` is a table of pairs: whether one operation is before the other, and the delay. `order`
// promises a serial order of all operations, or the least operation of the stuck set (specs/SerialOrder.antt). `laws` says
// what holds of orders and of the stuck set, whatever the table.
#![tactic(auto)]

pub mod laws;
mod serial;
mod table;

pub use serial::{OrderFault, order, order_into};
pub use table::Delays;
