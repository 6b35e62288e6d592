// Scripts: texts whose lines name turns, page events and looks. It stands on `tnk_text`, which reads numbers.
// Its contract is `script` of specs/Script.antt: `read` gives exactly the lines that it gives, or its first fault, and what the
// lines name is there. A fault is told by `fault_text` of specs/Faults.antt.
#![tactic(auto)]

mod faults;
mod fields;
mod reading;

pub use faults::ScriptFault;
pub use reading::{Line, read};
