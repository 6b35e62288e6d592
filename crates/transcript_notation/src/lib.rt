// The notation of transcripts, which are texts that read as a terminal does: commands and the lines behind them (`transcript`),
// words and numbers (`words`), what a file is made of (`content`), runs that are made many times (`prefixes`, `chains`). And what is said in it: the
// files by name and the hosts that get them (`files`), what a run came to beside what was expected (`compare`), what is wrong with
// a command (`trouble`, `report`).
//
// It is equipment for tests, stands on `tnk_base` alone, and runs no command; `transcripts` does, whose data/README.md has the
// notation. Its contract promises that no text makes it fail otherwise than by a `Trouble`.
#![tactic(auto)]

mod chains;
mod compare;
mod content;
mod files;
mod prefixes;
mod report;
mod transcript;
mod trouble;
mod words;

pub use chains::Chains;
pub use compare::{compare_file, compare_run};
pub use content::Content;
pub use files::{Files, Part};
pub use prefixes::Prefixes;
pub use report::Report;
pub use transcript::{Block, Verb};
pub use trouble::Trouble;
pub use words::{number, owned, split_name, split_word};
