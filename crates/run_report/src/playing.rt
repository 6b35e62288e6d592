// What a script does to contexts, line by line, and the looks that it asks for.
ghost use Rattle.std.specs.Prelude.{◌≡◌, ◌<◌, ◌++◌, [], ◌∷◌, length, slice_get, OnOk, IfSome, string_bytes};
ghost use Rattle.context_system.specs.System.{System};
ghost use Rattle.contexts.specs.Core.{Holds, RunsStill};
ghost use Rattle.tinker_texts.specs.Looks.{registers_text};
ghost use Rattle.run_report.specs.Script.{behind_line, behind_script, looks};
ghost use Rattle.run_report.specs.Seats.{AreFor, seat_look, shown_of};

use contexts::{Core, Event};
use event_script::Line;
use std::alloc::AllocError;
use tinker_texts::{push_ended, push_line_end, push_register, push_standing};

/// The general registers of a context that aren't 0.
fn push_registers(text: &mut String, core: &Core, c: u8) -> Result<(), AllocError>
    requires { c < length core.now.seats }
    ensures { OnOk result (IfSome (slice_get core.now.seats c) (λ seat. string_bytes text.new ≡ string_bytes text.old
        ++ registers_text seat.moment.state.general)) }
{
    for r in 0..32 {
        push_register(text, r, core.general(c, r))?;
    }
    Ok(())
}

/// A look at a context.
fn push_look(text: &mut String, core: &Core, c: u8) -> Result<(), AllocError>
    requires { c < length core.now.seats }
    ensures { OnOk result (IfSome (slice_get core.now.seats c) (λ seat. string_bytes text.new ≡ string_bytes text.old ++ seat_look c seat)) }
{
    if core.ended(c).is_some() {
        return push_ended(text, c);
    }
    push_standing(text, c, core.entry(c), core.clock(c), core.output(c).len())?;
    push_registers(text, core, c)?;
    push_line_end(text)
}

/// What a line shows.
fn push_shown(text: &mut String, core: &Core, line: Line) -> Result<(), AllocError>
    requires { AreFor core.now (line ∷ []) }
    ensures { OnOk result (string_bytes text.new ≡ string_bytes text.old ++ shown_of core.now.seats line) }
{
    match line {
        Line::Look(c) => push_look(text, core, c),
        _ => Ok(()),
    }
}

/// Plays the events of a line.
fn play_line(core: &mut Core, line: Line)
    requires { AreFor core.old (line ∷ []) }
    ensures held { (s : System) → Holds core.old s → Holds core.new (behind_line s line) }
    ensures kept { RunsStill core.old core.new }
{
    match line {
        Line::Turn(c, times) => core.turns(c, times),
        Line::Evict(c, page) => core.step(Event::Evict(core.key(c, page))),
        Line::Drop(c, page) => core.step(Event::Drop(core.key(c, page))),
        Line::Prefetch(c, page) => core.step(Event::Prefetch(core.key(c, page))),
        Line::Look(_) => {}
    }
}

/// Plays the lines of a script, and puts its looks to a text.
pub fn play_script(core: &mut Core, text: &mut String, lines: &[Line]) -> Result<(), AllocError>
    requires { AreFor core.old lines.now }
    ensures { OnOk result ((s : System) → Holds core.old s → Holds core.new (behind_script s lines.now)
        × (string_bytes text.new ≡ string_bytes text.old ++ looks s lines.now)) }
{
    for line in lines {
        push_shown(text, core, *line)?;
        play_line(core, *line);
    }
    Ok(())
}
