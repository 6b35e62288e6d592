// Contexts at their starts, and the programs that they run.
ghost use Rattle.std.specs.Prelude.{◌≡◌, ◌<◌, ◌≤◌, ◌↔◌, length, map, Some, None, All, IfOk, IsTrue};
ghost use Rattle.machine_desc.specs.Value.{description_of};
ghost use Rattle.image_check.specs.Units.{HasUnits};
ghost use Rattle.context_system.specs.Needs.{first_without};
ghost use Rattle.contexts.specs.Core.{run_of};
ghost use Rattle.contexts.specs.Standing.{AreSame, IsFirstSame, IsBegun, AreBegun};

use super::Setup;
use super::seat::{Place, Seat};
use cycle_sim::Machine;
use image_check::has_units;
use image_check::laws::programs_are_sound;
use machine_desc::same;
use operation::UnitKind;
use page_fault::Loaded;
use std::alloc::Global;
use tnk_base::NoMemory;

/// The first context whose image uses a unit kind that its generation lacks, with the first such kind.
pub(crate) fn first_lacking(setups: &[Setup]) -> Option<(u8, UnitKind)>
    requires few { length setups.now ≤ 8 }
    ensures first { result ≡ first_without 0 (map run_of setups.now) }
    ensures units { result ≡ None → All (λ s. HasUnits s.image (description_of s.chosen)) setups.now }
{
    for (c, setup) in setups.iter().enumerate() {
        if let Some(kind) = has_units(&setup.image, &setup.chosen) {
            return Some((c as u8, kind));
        }
    }
    None
}

/// Whether two programs are one image in one generation.
fn are_same(p: &Loaded, q: &Loaded) -> bool
    ensures { IsTrue result ↔ AreSame p.now q.now }
{
    p.image.same_bytes(&q.image) && same(&p.chosen, &q.chosen)
}

/// The number of the first of some programs that is the same as this one, or how many they are.
fn number_of(programs: &[Loaded], program: &Loaded) -> u8
    requires few { length programs.now < 8 }
    ensures { IsFirstSame programs.now program.now result }
{
    for (n, other) in programs.iter().enumerate() {
        if are_same(other, program) {
            return n as u8;
        }
    }
    programs.len() as u8
}

/// The context of a setup at its start, with a number for its program, and that program.
fn seated(alloc: Global, setup: Setup, programs: &[Loaded]) -> Result<(Seat, Loaded), NoMemory>
    requires few { length programs.now < 8 }
    ensures begun { IfOk result (λ r. IsBegun setup r.0 r.1) }
    ensures number { IfOk result (λ r. IsFirstSame programs.now r.1 r.0.program) }
{
    programs_are_sound();
    let Setup {
        image,
        chosen,
        input,
        limit,
        bound,
    } = setup;
    let parts = image.parts();
    let machine = Machine::new(alloc, parts.memory, &parts.init, input, limit)?;
    let table = image.table();
    let row = table.block_of(parts.entry).unwrap();
    let place = Place::of(table, row);
    let program = Loaded { image, chosen };
    let seat = Seat {
        program: number_of(programs, &program),
        machine,
        place,
        at: 0,
        blocks: 0,
        bound,
        end: None,
    };
    Ok((seat, program))
}

/// The contexts of some setups at their starts, in order, and their programs.
pub(crate) fn all_seated(
    alloc: Global,
    setups: Vec<Setup>,
) -> Result<(Vec<Seat>, Vec<Loaded>), NoMemory>
    requires few { length setups.items ≤ 8 }
    ensures { IfOk result (λ r. AreBegun setups.items r.0.items r.1.items) }
{
    let mut seats = Vec::with_capacity(alloc, setups.len())?;
    let mut programs = Vec::with_capacity(alloc, setups.len())?;
    for setup in setups {
        let (seat, program) = seated(alloc, setup, &programs)?;
        seats.push(seat)?;
        programs.push(program)?;
    }
    Ok((seats, programs))
}
