// The command that generates an image and runs it: `gen`.
ghost use Rattle.std.specs.Prelude.{◌≡◌, ◌++◌, [], ◌∷◌, IfOk};
ghost use Rattle.image_format.specs.Bytes.{bytes_of};
ghost use Rattle.image_resched.specs.Laws.{Forms, AreForms};
ghost use Rattle.machine_desc.specs.Value.{description_of};
ghost use Rattle.tinker_texts.specs.Report.{wrote_line};
ghost use Rattle.run_report.specs.Run.{context_of};
ghost use Rattle.tinker_top.specs.Command.{image_of, generated_contexts, gen_command};
ghost use Rattle.run_report.specs.Setups.{HasBound, AreGiven, as_given, all_given};
ghost use Rattle.tinker_top.specs.Steps.{IsMade};

use super::running::ran;
use super::steps::{Keeping, Said, Stop};
use contexts::Setup;
use image_resched::described;
use machine_desc::{Mdes, T1, T2, T3};
use std::alloc::{AllocError, Global};
use tinker_texts::wrote;
use tinker_words::{Number, Settings, Workload};
use tnk_base::NoMemory;
use workload::generated;

/// A generated image with an empty input, to be run as a generation, and the image's file.
fn made(
    alloc: Global,
    settings: &Settings<'_>,
    workload: &Workload,
    chosen: Mdes,
) -> Result<(Setup, Vec<u8>), NoMemory>
    ensures given { (forms : Forms) → IfOk result (λ made. as_given forms made.0
        ≡ context_of forms settings.now (image_of workload.now) (description_of chosen) []) }
    ensures bound { IfOk result (λ made. HasBound settings.now made.0) }
    ensures file { IfOk result (λ made. made.1.items ≡ bytes_of (image_of workload.now)) }
{
    let (bytes, image) = generated(alloc, workload.number(), workload.blocks(), workload.ops())?;
    let setup = Setup {
        image,
        chosen,
        input: Vec::new(alloc),
        limit: settings.number(Number::Limit),
        bound: settings.number(Number::Bound),
    };
    Ok((setup, bytes))
}

/// Three of some type, in a list.
fn three<T: Drop>(alloc: Global, x: T, y: T, z: T) -> Result<Vec<T>, NoMemory>
    ensures { IfOk result (λ list. list.items ≡ x ∷ (y ∷ (z ∷ []))) }
{
    let mut list = Vec::with_capacity(alloc, 3)?;
    list.push(x)?;
    list.push(y)?;
    list.push(z)?;
    Ok(list)
}

/// A generated image as three contexts, t1, t2 and t3, and its file.
fn all_made(
    alloc: Global,
    settings: &Settings<'_>,
    workload: &Workload,
) -> Result<(Vec<Setup>, Vec<u8>), NoMemory>
    ensures given { (forms : Forms) → IfOk result (λ made. all_given forms made.0
        ≡ generated_contexts forms settings.now (image_of workload.now)) }
    ensures all { IfOk result (λ made. AreGiven settings.now made.0.items) }
    ensures file { IfOk result (λ made. made.1.items ≡ bytes_of (image_of workload.now)) }
{
    let (as_t1, bytes) = made(alloc, settings, workload, described(&T1))?;
    let (as_t2, _) = made(alloc, settings, workload, described(&T2))?;
    let (as_t3, _) = made(alloc, settings, workload, described(&T3))?;
    Ok((three(alloc, as_t1, as_t2, as_t3)?, bytes))
}

/// The line of a kept file, and a report behind it.
fn told(alloc: Global, out: &str, bytes: usize, report: &[u8]) -> Result<Vec<u8>, AllocError>
    ensures { IfOk result (λ text. text.items ≡ wrote_line out.now bytes ++ report.now) }
{
    let mut text = wrote(alloc, out, bytes)?;
    text.extend_from_slice(report)?;
    Ok(text)
}

/// What `gen` comes to, but for the file that it keeps and the output.
pub fn generate<'a>(alloc: Global, workload: &Workload, out: &'a str) -> Result<Said<'a>, Stop>
    ensures made { (forms : Forms) → AreForms forms → IsMade (gen_command forms workload.now out.now) result }
    ensures reads { ¬ (result ≡ Err Stop.Fault) }
{
    let settings = Settings::of_pages(4, 4);
    let (setups, bytes) = all_made(alloc, &settings, workload)?;
    let report = ran(alloc, &settings, &[], setups)?;
    let text = told(alloc, out, bytes.len(), &report)?;
    Ok(Said {
        kept: Some(Keeping { name: out, bytes }),
        text,
    })
}
