// What a run of contexts puts out: a script is played on them, turns go round until all have ended, and a report tells what each has
// come to. It stands on `contexts` (what runs), `event_script` (the lines of a script), `tinker_words` (the settings) and
// `tinker_texts` (the texts). `report` is the whole of its surface. Its contract is that the report is that of specs/Run.antt: each
// context's part is the meaning of its own image under its own description, whatever the script does.
#![tactic(auto)]

ghost use Rattle.std.specs.Prelude.{◌≡◌, List, IfOk, All};
ghost use Rattle.image_resched.specs.Laws.{Forms, AreForms};
ghost use Rattle.context_system.specs.Context as system;
ghost use Rattle.context_system.specs.Meant.{IsReady};
ghost use Rattle.contexts.specs.Core.{Holds};
ghost use Rattle.event_script.specs.Script.{IsFor};
ghost use Rattle.tinker_words.specs.declared.settings.Number.TheVariants.{Bound};
ghost use Rattle.tinker_words.specs.Settings.{number};
ghost use Rattle.run_report.specs.Run.{report as report_of, begun};
ghost use Rattle.run_report.specs.Setups.{AreGiven, IsReport, all_given, page_counts};
ghost use Rattle.run_report.specs.Seats.{AreFor};

mod parts;
mod playing;

use context_system::laws::{all_end, contexts_are_as_meant, cycles_are_counted};
use contexts::{Core, OpenFault, Setup};
use event_script::Line;
use parts::{push_report, room};
use playing::play_script;
use std::alloc::Global;
use tinker_words::{Number, Settings};
use tnk_base::NoMemory;

/// Plays a script on contexts, runs them to their ends, and answers the report. It is refused for the first context that needs a
/// unit which its generation lacks. `setups` are 1 to 8 contexts with the bound of the settings; the lines are about these contexts
/// and pages of their images.
pub fn report(
    alloc: Global,
    settings: &Settings<'_>,
    lines: &[Line],
    setups: Vec<Setup>,
) -> Result<Vec<u8>, OpenFault>
    requires given { AreGiven settings.now setups.items }
    requires there { All (IsFor (page_counts setups.items)) lines.now }

    // `forms` is whatever gives each accepted image as it is in each generation that has its units.
    ensures { (forms : Forms) → AreForms forms → IsReport settings.now (all_given forms setups) lines.now result }
{
    let frames = settings.number(Number::Frames) as u16;
    let saved = settings.number(Number::Saved) as u16;
    let core = Core::open(alloc, setups, frames, saved)?;
    Ok(told(alloc, settings, lines, core)?)
}

/// Plays a script on the contexts of a core, runs them to their ends, and reports.
fn told(
    alloc: Global,
    settings: &Settings<'_>,
    lines: &[Line],
    core: Core,
) -> Result<Vec<u8>, NoMemory>
    requires { AreFor core lines.now }
    ensures { (setups : List system.Setup) → All IsReady setups → All (λ x. x.bound ≡ number settings.now Bound) setups →
        Holds core (begun settings.now setups) → IfOk result (λ text. text.items ≡ report_of settings.now lines.now setups) }
{
    all_end();
    contexts_are_as_meant();
    cycles_are_counted();
    let mut core = core;
    let mut text = String::new(alloc);
    play_script(&mut core, &mut text, lines)?;
    core.rounds(512 * settings.number(Number::Bound));
    let dump = settings.dump();
    text.reserve(room(dump, &core))?;
    push_report(&mut text, dump, &core)?;
    Ok(text.into_bytes())
}
