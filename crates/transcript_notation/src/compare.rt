// What was expected and what came: whether they are the same, and how that is told.
use super::trouble::Trouble;
use std::alloc::{AllocError, Global};
use tnk_base::MemoryHost;

/// Compares what a run came to with the lines behind `tinker`, and tells both where they differ.
pub fn compare_run(
    told: &mut String,
    lines: &[&str],
    status: u8,
    host: &MemoryHost,
) -> Result<(), Trouble> {
    let mut shown = String::new(*told.allocator());
    push_run(&mut shown, lines, status, host)?;
    compare_lines(told, lines, &shown)
}

/// Compares what a file holds, and tells what differs.
pub fn compare_file(told: &mut String, expected: &[u8], found: &[u8]) -> Result<(), Trouble> {
    if expected == found {
        return Ok(());
    }
    let (long, length) = (expected.len(), found.len());
    let at = first_difference(expected, found);
    writeln!(told, "expected: {long} bytes")?;
    writeln!(told, "it holds: {length} bytes, others from offset {at} on")?;
    Err(Trouble::Differs)
}

fn compare_lines(told: &mut String, lines: &[&str], shown: &str) -> Result<(), Trouble> {
    let expected = joined(*told.allocator(), lines)?;
    compare_text(told, &expected, shown)
}

/// Compares two texts, and tells both where they differ.
fn compare_text(told: &mut String, expected: &str, shown: &str) -> Result<(), Trouble> {
    if expected == shown {
        return Ok(());
    }
    let (expected, shown) = (or_nothing(expected), or_nothing(shown));
    write!(told, "expected:\n{expected}put out:\n{shown}")?;
    Err(Trouble::Differs)
}

/// The text, or a line that says that there is none.
fn or_nothing(text: &str) -> &str {
    if text.is_empty() { "[nothing]\n" } else { text }
}

/// Adds what a run came to, as a transcript shows it behind the command; the calls where its lines have their number.
fn push_run(
    shown: &mut String,
    lines: &[&str],
    status: u8,
    host: &MemoryHost,
) -> Result<(), AllocError> {
    push_lossy(shown, host.out())?;
    push_mark(shown, status != 0, "status", status as u64)?;
    push_mark(
        shown,
        counts_calls(lines),
        "calls",
        host.asked().len() as u64,
    )?;
    let faults = host.faults();
    push_mark(shown, faults != (status == 3) as u64, "faults", faults)
}

fn push_lossy(shown: &mut String, out: &[u8]) -> Result<(), AllocError> {
    let out = String::from_utf8_lossy(*shown.allocator(), out)?;
    push_output(shown, &out)
}

/// Adds an output, and whether it has a line that looks like those which stand behind it, and ends without a line feed.
fn push_output(shown: &mut String, out: &str) -> Result<(), AllocError> {
    let is_bare = !out.is_empty() && !out.ends_with('\n');
    shown.push_str(out)?;
    shown.push_str(if is_bare { "\n" } else { "" })?;
    if out.starts_with('[') || out.contains("\n[") {
        shown.push_str("[brackets]\n")?;
    }
    shown.push_str(if is_bare { "[no newline]\n" } else { "" })
}

/// A line with a name and a number, if it is to be said.
fn push_mark(shown: &mut String, is_said: bool, name: &str, number: u64) -> Result<(), AllocError> {
    if is_said {
        writeln!(shown, "[{name} {number}]")?;
    }
    Ok(())
}

/// Whether the last line has the number of calls.
fn counts_calls(lines: &[&str]) -> bool {
    match lines.last() {
        Some(line) => line.starts_with("[calls "),
        None => false,
    }
}

/// The lines with a line feed behind each.
fn joined(alloc: Global, lines: &[&str]) -> Result<String, AllocError> {
    let mut text = String::new(alloc);
    for line in lines {
        writeln!(text, "{line}")?;
    }
    Ok(text)
}

/// The first offset at which the bytes differ, or the shorter one's end.
fn first_difference(one: &[u8], other: &[u8]) -> usize {
    let length = one.len().min(other.len());
    for at in 0..length {
        if one[at] != other[at] {
            return at;
        }
    }
    length
}
