// What commands put out: the report of a run, the looks of a script, the line of an accepted image, refusals, and what the program says of itself.
// It stands on `operation` (ends and traps), `image_format` (the parts of images), `image_check` (broken rules),
// `event_script` (faults of scripts), and `byteorder`.
// Its contract is that each text is that of its definition, byte by byte (specs/).
#![tactic(auto)]

mod help;
mod looks;
mod refusals;
mod report;

pub use help::{page, version};
pub use looks::{push_ended, push_line_end, push_register, push_standing};
pub use refusals::{broken, no_unit, no_unit_for_context, too_long, undescribed, unscripted};
pub use report::{accepted, push_cycles, push_pages, push_part, wrote};
