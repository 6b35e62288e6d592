// An accepted image, moved to another generation.
ghost use Rattle.std.specs.Prelude.{◌≡◌, ◌<◌, ◌*◌, length, take, drop, None, IfOk, OnOk};
ghost use Rattle.machine_desc.specs.Value.{description_of};
ghost use Rattle.image_format.specs.Image.{page_count};
ghost use Rattle.image_check.specs.Blocks.{page_of};
ghost use Rattle.image_format.specs.Parts.{image_of};
ghost use Rattle.image_check.specs.Accepted.{IsAccepted};
ghost use Rattle.image_check.specs.Units.{HasUnits};
ghost use Rattle.image_check.specs.Rules.{first_broken};
ghost use Rattle.image_resched.specs.Rescheduled.{IsRescheduled, IsRescheduledFile};
ghost use Rattle.image_resched.specs.Forms.{AreFormsOfPages};

use block_table::PAGE;
use image_check::Accepted;
use image_format::{Parts, write_parts};
use machine_desc::{Generation, Mdes};
use operation::{LatKind, UnitKind};
use page_resched::Resched;
use std::alloc::Global;
use tnk_base::NoMemory;

/// Words of a page.
const WORDS: usize = PAGE as usize;

/// How many units of each kind a generation has, by the kinds' numbers.
fn units<G: Generation>(g: &G) -> [u8; 5]
    ensures { result ≡ (G.description g.now).units }
{
    [
        g.units(UnitKind::I),
        g.units(UnitKind::M),
        g.units(UnitKind::L),
        g.units(UnitKind::P),
        g.units(UnitKind::B),
    ]
}

/// The latencies of a generation, by the kinds' numbers.
fn latencies<G: Generation>(g: &G) -> [u8; 9]
    ensures { result ≡ (G.description g.now).latencies }
{
    [
        g.latency(LatKind::Alu),
        g.latency(LatKind::Mul),
        g.latency(LatKind::Div),
        g.latency(LatKind::Load),
        g.latency(LatKind::Store),
        g.latency(LatKind::Io),
        g.latency(LatKind::Cmp),
        g.latency(LatKind::Pbr),
        g.latency(LatKind::Branch),
    ]
}

/// The busy times of a generation, by the kinds' numbers.
fn busy_times<G: Generation>(g: &G) -> [u8; 9]
    ensures { result ≡ (G.description g.now).busy_times }
{
    [
        g.busy(LatKind::Alu),
        g.busy(LatKind::Mul),
        g.busy(LatKind::Div),
        g.busy(LatKind::Load),
        g.busy(LatKind::Store),
        g.busy(LatKind::Io),
        g.busy(LatKind::Cmp),
        g.busy(LatKind::Pbr),
        g.busy(LatKind::Branch),
    ]
}

/// A generation's numbers as a value.
pub fn described<G: Generation>(g: &G) -> Mdes
    ensures { description_of result ≡ G.description g.now }
{
    Mdes::with_busy(g.width(), units(g), latencies(g), busy_times(g)).unwrap()
}

/// Writes the words of all pages in form in place of as many others.
fn write_pages<G: Generation>(a: &Accepted, g: &G, resched: &mut Resched, words: &mut [u64])
    requires units { HasUnits a.now (G.description g.now) }
    requires size { length words.old ≡ length a.now.words }
    ensures { AreFormsOfPages a.now (G.description g.now) words.new }
{
    let parts = a.parts();
    for n in 0..(parts.words.len() / WORDS) as u16 {
        let begin = WORDS * n as usize;
        resched.page(
            a.page(n),
            &parts.description,
            g,
            &mut words[begin..begin + WORDS],
        );
    }
}

/// The words of all pages in form.
fn words_in_form<G: Generation>(alloc: Global, a: &Accepted, g: &G) -> Result<Vec<u64>, NoMemory>
    requires { HasUnits a.now (G.description g.now) }
    ensures { IfOk result (λ words. AreFormsOfPages a.now (G.description g.now) words.items) }
{
    let mut words = vec![in alloc; 0; a.parts().words.len()]?;
    let mut resched = Resched::new(alloc)?;
    write_pages(a, g, &mut resched, &mut words);
    Ok(words)
}

/// The parts of the image in another generation.
fn moved<G: Generation>(alloc: Global, a: &Accepted, g: &G) -> Result<Parts, NoMemory>
    requires { HasUnits a.now (G.description g.now) }
    ensures image { IfOk result (λ parts. IsRescheduled a.now (G.description g.now) (image_of parts)) }
    ensures accepted { IfOk result (λ parts. IsAccepted (image_of parts)) }
{
    let parts = a.parts();
    Ok(Parts {
        description: described(g),
        entry: parts.entry,
        rows: parts.rows.to_vec(alloc)?,
        memory: parts.memory,
        init: parts.init.to_vec(alloc)?,
        words: words_in_form(alloc, a, g)?,
    })
}

/// The file of an accepted image in another generation, which has the units that the image needs (`has_units` tells): each
/// block in the order of its list schedule for that generation, at its place, and all else as it was. Where the generation is
/// the image's own, it is the image's own file. It fails only for want of memory.
pub fn reschedule<G: Generation>(alloc: Global, a: &Accepted, g: &G) -> Result<Vec<u8>, NoMemory>
    requires { HasUnits a.now (G.description g.now) }
    ensures file { IfOk result (λ bytes. IsRescheduledFile a.now (G.description g.now) bytes.items) }
    ensures accepted { IfOk result (λ bytes. first_broken bytes.items ≡ None) }
{
    let parts = moved(alloc, a, g)?;
    write_parts(alloc, &parts)
}
