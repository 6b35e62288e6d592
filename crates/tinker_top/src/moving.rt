// The command that moves an image to another generation: `resched`.
ghost use Rattle.std.specs.Prelude.{◌≡◌};
ghost use Rattle.machine_desc.specs.Value.{description_of};
ghost use Rattle.machine_desc.specs.File.{read_description};
ghost use Rattle.tinker_words.specs.Forms.{aimed_at};
ghost use Rattle.tinker_top.specs.Outcome.{fetching};
ghost use Rattle.tinker_top.specs.Command.{description_limit, if_described, with_target, resched_command};
ghost use Rattle.tinker_top.specs.Steps.{Reads, HasCome, HasGiven, IsDescribed, IsMoved};

use super::commands::image;
use super::steps::{Keeping, Said, Stop, fetch};
use image_check::{Accepted, has_units};
use image_resched::{described as value, reschedule};
use machine_desc::{Mdes, MdesFault, T1, T2, T3};
use std::alloc::Global;
use tinker_texts::{no_unit, undescribed, wrote};
use tinker_words::Target;
use tnk_base::Host;

/// The longest description file, in bytes.
const DESCRIPTION_LIMIT: u64 = 65_536;

/// The description in a file's bytes, or the refusal of others.
fn read(alloc: Global, name: &str, bytes: &[u8]) -> Result<Mdes, Stop>
    ensures { IsDescribed name.now bytes.now result }
{
    match Mdes::read(alloc, bytes) {
        Ok(mdes) => Ok(mdes),
        Err(fault) => match fault {
            MdesFault::NoMemory => Err(Stop::Memory),
            _ => Err(Stop::Refused(undescribed(alloc, name, &fault)?)),
        },
    }
}

/// Fetches a description file and reads it.
fn described<H: Host>(alloc: Global, host: &mut H, name: &str) -> Result<Mdes, Stop>
    ensures given { HasGiven description_of
        (λ files next. fetching files name.now description_limit (λ bytes. if_described name.now next (read_description bytes)))
        result (H.shows host.old) (H.shows host.new) }
    ensures reads { Reads (H.shows host.old) (H.shows host.new) (result ≡ Err Stop.Fault) }
{
    let bytes = fetch(alloc, host, name, DESCRIPTION_LIMIT)?;
    read(alloc, name, &bytes)
}

/// The generation for which a command works; `own` is the image's description.
pub fn generation<H: Host>(
    alloc: Global,
    host: &mut H,
    target: Target<'_>,
    own: Mdes,
) -> Result<Mdes, Stop>
    ensures given { HasGiven description_of (with_target (aimed_at target.entry) (description_of own)) result
        (H.shows host.old) (H.shows host.new) }
    ensures reads { Reads (H.shows host.old) (H.shows host.new) (result ≡ Err Stop.Fault) }
{
    match target {
        Target::Own => Ok(own),
        Target::T1 => Ok(value(&T1)),
        Target::T2 => Ok(value(&T2)),
        Target::T3 => Ok(value(&T3)),
        Target::File(name) => described(alloc, host, name),
    }
}

/// The file of an image for a generation, or the refusal where the image needs a unit that the generation lacks.
fn moved<'a>(
    alloc: Global,
    name: &str,
    image: &Accepted,
    g: &Mdes,
    out: &'a str,
) -> Result<Said<'a>, Stop>
    ensures { IsMoved name.now out.now image.now (description_of g.now) result }
{
    if let Some(kind) = has_units(image, g) {
        return Err(Stop::Refused(no_unit(alloc, name, kind)?));
    }
    let bytes = reschedule(alloc, image, g)?;
    let text = wrote(alloc, out, bytes.len())?;
    Ok(Said {
        kept: Some(Keeping { name: out, bytes }),
        text,
    })
}

/// What `resched` comes to, but for the file that it keeps and the output.
pub fn resched<'a, H: Host>(
    alloc: Global,
    host: &mut H,
    name: &str,
    target: Target<'_>,
    out: &'a str,
) -> Result<Said<'a>, Stop>
    ensures come { HasCome (resched_command name.now (aimed_at target.entry) out.now) result
        (H.shows host.old) (H.shows host.new) }
    ensures reads { Reads (H.shows host.old) (H.shows host.new) (result ≡ Err Stop.Fault) }
{
    let image = image(alloc, host, name)?;
    let g = generation(alloc, host, target, image.parts().description)?;
    moved(alloc, name, &image, &g, out)
}
