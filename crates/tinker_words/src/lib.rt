// The words of the command line: which have a form, and the command that they name. It stands on `tnk_text`, which reads
// numbers.
// Its contract is `command_of` of specs/Words.antt: `parse` gives exactly the command that it gives. A `Command`, a `Setup`
// and `Settings` are seen by contracts as the values of that definition; a `Target` and a `NamedContext` stand for its values by
// `aimed_at` and `named` of specs/Forms.antt.
#![tactic(auto)]

mod settings;
mod words;
mod workload;

pub use settings::{Number, Settings};
pub use words::{Command, Contexts, Form, NamedContext, Setup, Target, parse};
pub use workload::Workload;
