// The text of a look at a context.
ghost use Rattle.std.specs.Prelude.{◌≡◌, ◌++◌, codes, OnOk, string_bytes};
ghost use Rattle.tinker_texts.specs.Looks.{register_text, standing_text, ended_line};

use std::alloc::AllocError;

/// Where a context stands that has not ended: the entry of its block and the clock there, and how many bytes it has put out so
/// far.
#[tactic(auto, unfolding(crate::specs::Looks::standing_text))]
pub fn push_standing(
    text: &mut String,
    number: u8,
    entry: u32,
    clock: u32,
    size: usize,
) -> Result<(), AllocError>
    ensures { OnOk result (string_bytes text.new ≡ string_bytes text.old ++ standing_text number entry clock size) }
{
    write!(
        text,
        "look {number} block {entry} clock {clock} output {size}"
    )
}

/// A register by its number and its value, where that isn't 0.
pub fn push_register(text: &mut String, number: u8, value: u32) -> Result<(), AllocError>
    ensures { OnOk result (string_bytes text.new ≡ string_bytes text.old ++ register_text number value) }
{
    if value == 0 {
        return Ok(());
    }
    write!(text, " r{number} {value}")
}

/// The end of a line.
pub fn push_line_end(text: &mut String) -> Result<(), AllocError>
    ensures { OnOk result (string_bytes text.new ≡ string_bytes text.old ++ codes "\n") }
{
    text.push_str("\n")?;
    Ok(())
}

/// The line of a context that has ended.
#[tactic(auto, unfolding(crate::specs::Looks::ended_line))]
pub fn push_ended(text: &mut String, number: u8) -> Result<(), AllocError>
    ensures { OnOk result (string_bytes text.new ≡ string_bytes text.old ++ ended_line number) }
{
    writeln!(text, "look {number} ended")
}
