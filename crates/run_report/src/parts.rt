// What the contexts of a core have come to: each one's part, then the cycles of each, then the counts of pages.
ghost use Rattle.std.specs.Prelude.{◌≡◌, ◌<◌, ◌++◌, length, slice_get, string_bytes, IfSome, OnOk};
ghost use Rattle.page_fault.specs.Loading.{paging_of};
ghost use Rattle.run_report.specs.Run.{texts_from, counts_line};
ghost use Rattle.run_report.specs.Seats.{seat_part, seat_cycles};

use contexts::Core;
use std::alloc::AllocError;
use tinker_texts::{push_cycles, push_pages, push_part};

/// The part of a context that has ended.
fn push_context(text: &mut String, dump: bool, core: &Core, c: u8) -> Result<(), AllocError>
    requires { c < length core.now.seats }
    ensures { OnOk result (IfSome (slice_get core.now.seats c) (λ seat. string_bytes text.new ≡ string_bytes text.old ++ seat_part dump c seat)) }
{
    match core.ended(c) {
        None => Ok(()),
        Some(end) => push_part(
            text,
            c,
            dump,
            end,
            core.blocks(c),
            core.output(c),
            core.memory(c),
        ),
    }
}

/// The parts of all contexts.
fn push_parts(text: &mut String, dump: bool, core: &Core) -> Result<(), AllocError>
    ensures { OnOk result (string_bytes text.new ≡ string_bytes text.old ++ texts_from (seat_part dump) 0 core.now.seats) }
{
    for c in 0..core.contexts() {
        push_context(text, dump, core, c)?;
    }
    Ok(())
}

/// The cycles of all contexts.
fn push_all_cycles(text: &mut String, core: &Core) -> Result<(), AllocError>
    ensures { OnOk result (string_bytes text.new ≡ string_bytes text.old ++ texts_from seat_cycles 0 core.now.seats) }
{
    for c in 0..core.contexts() {
        push_cycles(text, c, core.cycles(c))?;
    }
    Ok(())
}

/// The counts of pages.
fn push_counts(text: &mut String, core: &Core) -> Result<(), AllocError>
    ensures { OnOk result (string_bytes text.new ≡ string_bytes text.old ++ counts_line (paging_of core.now.loading)) }
{
    let counts = core.counts();
    push_pages(
        text,
        counts.loaded,
        counts.rescheduled,
        counts.restored,
        counts.evicted,
    )
}

/// Bytes enough for the report of a core: three for each byte of output, and of memory where it is shown, are more than its two
/// digits and what stands around them. So the text takes its room once; if it were too little, the text would grow on its way.
pub fn room(dump: bool, core: &Core) -> usize {
    let mut room: usize = 0;
    for c in 0..core.contexts() {
        let memory = if dump { core.memory(c).len() } else { 0 };
        let shown = core.output(c).len().saturating_add(memory);
        room = room
            .saturating_add(shown.saturating_mul(3))
            .saturating_add(256);
    }
    room
}

/// What a core has come to, behind the looks of its script.
pub fn push_report(text: &mut String, dump: bool, core: &Core) -> Result<(), AllocError>
    ensures { OnOk result (string_bytes text.new ≡ string_bytes text.old ++ (texts_from (seat_part dump) 0 core.now.seats
        ++ (texts_from seat_cycles 0 core.now.seats ++ counts_line (paging_of core.now.loading)))) }
{
    push_parts(text, dump, core)?;
    push_all_cycles(text, core)?;
    push_counts(text, core)
}
