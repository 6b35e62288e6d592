// List schedules: when each operation of a block issues on a machine, and in which order they are placed.
//
// It stands on `serial_order` for the table of delays, on `block_links` for links and serial orders of linked operations, and
// on `machine_desc` for widths, units, latencies and busy times. What a schedule is stands in specs/Schedule.antt, and
// `schedule`, `Planner::plan` and `Planner::plan_links` promise just that; a planner takes its memory once. `laws` says what
// holds of schedules (specs/Laws.antt): they keep every delay, and no cycle after the first is more than 32 behind the used
// one before it; and where links cover the delays of a problem, they have its schedule.
#![tactic(auto)]

mod height;
pub mod laws;
mod links;
mod placing;
mod rooms;
mod scheduling;
mod slots;
mod waiting;

pub use scheduling::{Planned, Planner, schedule};
pub use slots::SlotTable;
