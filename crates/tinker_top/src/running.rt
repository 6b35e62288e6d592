// The command that runs contexts on a machine, page by page: `run`.
ghost use Rattle.std.specs.Prelude.{◌≡◌, All};
ghost use Rattle.image_resched.specs.Laws.{Forms, AreForms};
ghost use Rattle.event_script.specs.Script.{IsFor};
ghost use Rattle.run_report.specs.Setups.{AreGiven, all_given, page_counts as counts_of};
ghost use Rattle.tinker_top.specs.Command.{run_command};
ghost use Rattle.tinker_top.specs.Steps.{Reads, HasCome, IsRun};

use super::gathering::{gathered, page_counts, script};
use super::steps::{Said, Stop};
use contexts::{OpenFault, Setup};
use event_script::Line;
use run_report::report;
use std::alloc::Global;
use tinker_texts::no_unit_for_context;
use tinker_words::{Contexts, Settings};
use tnk_base::Host;

/// What comes of the run of contexts.
pub fn ran(
    alloc: Global,
    settings: &Settings<'_>,
    lines: &[Line],
    setups: Vec<Setup>,
) -> Result<Vec<u8>, Stop>
    requires given { AreGiven settings.now setups.items }
    requires there { All (IsFor (counts_of setups.items)) lines.now }
    ensures run { (forms : Forms) → AreForms forms → IsRun settings.now (all_given forms setups) lines.now result }
    ensures reads { ¬ (result ≡ Err Stop.Fault) }
{
    match report(alloc, settings, lines, setups) {
        Ok(text) => Ok(text),
        Err(OpenFault::NoUnit(c, kind)) => Err(Stop::Refused(no_unit_for_context(alloc, c, kind)?)),
        Err(OpenFault::NoMemory) => Err(Stop::Memory),
    }
}

/// What `run` comes to, but for the output.
pub fn run<'a, H: Host>(
    alloc: Global,
    host: &mut H,
    settings: &Settings<'_>,
    named: &Contexts<'_>,
) -> Result<Said<'a>, Stop>
    ensures come { (forms : Forms) → AreForms forms → HasCome (run_command forms settings.now named.now) result
        (H.shows host.old) (H.shows host.new) }
    ensures reads { Reads (H.shows host.old) (H.shows host.new) (result ≡ Err Stop.Fault) }
{
    let setups = gathered(alloc, host, settings, named)?;
    let pages = page_counts(alloc, &setups)?;
    let lines = script(alloc, host, settings.script(), &pages)?;
    Ok(Said {
        kept: None,
        text: ran(alloc, settings, &lines, setups)?,
    })
}
