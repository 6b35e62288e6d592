// What `run` fetches: its contexts, and its script.
ghost use Rattle.std.specs.Prelude.{◌≡◌, ◌≤◌, length, map, option_map, All, IfOk};
ghost use Rattle.image_resched.specs.Laws.{Forms};
ghost use Rattle.image_format.specs.Image.{page_count as count_of};
ghost use Rattle.event_script.specs.Script.{script as script_of, IsFor};
ghost use Rattle.tinker_words.specs.Forms.{named as named_in};
ghost use Rattle.tinker_top.specs.Outcome.{fetching};
ghost use Rattle.tinker_top.specs.Command.{with_context, with_contexts, with_script, if_scripted, script_limit};
ghost use Rattle.run_report.specs.Setups.{HasBound, AreGiven, as_given, all_given, page_counts as counts_of};
ghost use Rattle.tinker_top.specs.Steps.{Reads, HasGiven, IsScripted};

use super::commands::{image, input};
use super::moving::generation;
use super::steps::{Stop, fetch};
use contexts::Setup;
use event_script::{Line, ScriptFault, read};
use image_check::Accepted;
use std::alloc::{AllocError, Global};
use tinker_texts::unscripted;
use tinker_words::{Contexts, NamedContext, Number, Settings};
use tnk_base::Host;

/// Words of a page.
const WORDS: usize = 512;

/// The longest script, in bytes.
const SCRIPT_LIMIT: u64 = 1_048_576;

/// Fetches what a context is given.
fn context<H: Host>(
    alloc: Global,
    host: &mut H,
    settings: &Settings<'_>,
    named: &NamedContext<'_>,
) -> Result<Setup, Stop>
    ensures given { (forms : Forms) → HasGiven (as_given forms) (λ files. with_context forms settings.now (named_in named.now) files) result
        (H.shows host.old) (H.shows host.new) }
    ensures bound { IfOk result (HasBound settings.now) }
    ensures reads { Reads (H.shows host.old) (H.shows host.new) (result ≡ Err Stop.Fault) }
{
    let image = image(alloc, host, named.image)?;
    let chosen = generation(alloc, host, named.target, image.parts().description)?;
    let input = input(alloc, host, named.input)?;
    Ok(Setup {
        image,
        chosen,
        input,
        limit: settings.number(Number::Limit),
        bound: settings.number(Number::Bound),
    })
}

/// Fetches what the contexts are given, in order.
pub fn gathered<H: Host>(
    alloc: Global,
    host: &mut H,
    settings: &Settings<'_>,
    named: &Contexts<'_>,
) -> Result<Vec<Setup>, Stop>
    ensures given { (forms : Forms) → HasGiven (all_given forms) (λ files. with_contexts forms settings.now named.now files) result
        (H.shows host.old) (H.shows host.new) }
    ensures all { IfOk result (λ setups. AreGiven settings.now setups.items) }
    ensures reads { Reads (H.shows host.old) (H.shows host.new) (result ≡ Err Stop.Fault) }
{
    let mut setups = Vec::with_capacity(alloc, named.count())?;
    for i in 0..named.count() {
        let setup = context(alloc, host, settings, &named.context(i))?;
        setups.push(setup)?;
    }
    Ok(setups)
}

/// The number of pages of an image, 1 to 256.
fn page_count(image: &Accepted) -> u16
    ensures { result ≡ count_of image.now }
{
    (image.parts().words.len() / WORDS) as u16
}

/// The number of pages of each context's image.
pub fn page_counts(alloc: Global, setups: &[Setup]) -> Result<Vec<u16>, AllocError>
    ensures { IfOk result (λ pages. pages.items ≡ counts_of setups.now) }
{
    let mut pages = Vec::with_capacity(alloc, setups.len())?;
    for setup in setups {
        pages.push(page_count(&setup.image))?;
    }
    Ok(pages)
}

/// The lines in a script's bytes, or the refusal of others.
fn lines(alloc: Global, name: &str, bytes: &[u8], pages: &[u16]) -> Result<Vec<Line>, Stop>
    requires some { 1 ≤ length pages.now }
    requires few { length pages.now ≤ 8 }
    requires short { length bytes.now ≤ 1048576 }
    ensures lines { IsScripted name.now pages.now bytes.now result }
    ensures there { IfOk result (λ lines. All (IsFor pages.now) lines.items) }
{
    match read(alloc, bytes, pages) {
        Ok(lines) => Ok(lines),
        Err(ScriptFault::NoMemory) => Err(Stop::Memory),
        Err(fault) => Err(Stop::Refused(unscripted(alloc, name, fault)?)),
    }
}

/// Fetches a script and reads it.
fn scripted<H: Host>(
    alloc: Global,
    host: &mut H,
    name: &str,
    pages: &[u16],
) -> Result<Vec<Line>, Stop>
    requires some { 1 ≤ length pages.now }
    requires few { length pages.now ≤ 8 }
    ensures given { HasGiven (λ lines. lines.items)
        (λ files next. fetching files name.now script_limit (λ bytes. if_scripted name.now next (script_of pages.now bytes)))
        result (H.shows host.old) (H.shows host.new) }
    ensures there { IfOk result (λ lines. All (IsFor pages.now) lines.items) }
    ensures reads { Reads (H.shows host.old) (H.shows host.new) (result ≡ Err Stop.Fault) }
{
    let bytes = fetch(alloc, host, name, SCRIPT_LIMIT)?;
    lines(alloc, name, &bytes, pages)
}

/// The lines of the script, if there is one; none where there isn't.
pub fn script<H: Host>(
    alloc: Global,
    host: &mut H,
    name: Option<&str>,
    pages: &[u16],
) -> Result<Vec<Line>, Stop>
    requires some { 1 ≤ length pages.now }
    requires few { length pages.now ≤ 8 }
    ensures given { HasGiven (λ lines. lines.items) (with_script (option_map (λ name. name.now) name.entry) pages.now) result
        (H.shows host.old) (H.shows host.new) }
    ensures there { IfOk result (λ lines. All (IsFor pages.now) lines.items) }
    ensures reads { Reads (H.shows host.old) (H.shows host.new) (result ≡ Err Stop.Fault) }
{
    match name {
        None => Ok(Vec::new(alloc)),
        Some(name) => scripted(alloc, host, name, pages),
    }
}
