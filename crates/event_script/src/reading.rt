// The lines of a script, by their fields.
ghost use Rattle.std.specs.Prelude.{◌≡◌, ◌<◌, ◌≤◌, All, length, slice_index, IfOk, IfErr, IfSome};
ghost use Rattle.event_script.specs.Fields.{fields};
ghost use Rattle.event_script.specs.Script.{number_in, turns_in, context_at, page_at, context_line, turns_line, page_line, turn as turn_by, page_event as page_event_by, evict as evict_by, drop as drop_by, prefetch as prefetch_by, look as look_by, said as said_by, is_remark as is_remark_field, reading, script, IsScriptFault, IsPage, AreTurns, IsFor};

use super::faults::ScriptFault;
use super::fields::{first_field, first_line};
use std::alloc::Global;
use tnk_text::decimal;

/// The most turns of one line.
const MOST_TURNS: u64 = 1_000_000;

/// A line of a script. Contexts and pages are counted from 0.
#[derive(Clone, Copy, Debug, PartialEq, Eq)]
pub enum Line {
    /// Turns of a context: the context, and how many, 1 to 1,000,000.
    Turn(u8, u32),
    /// A page of a context's program is evicted: the context and the page, here and in the next two.
    Evict(u8, u16),
    /// The page is no longer saved.
    Drop(u8, u16),
    /// The page is loaded.
    Prefetch(u8, u16),
    /// The context is looked at.
    Look(u8),
}

/// The number that a field of a line writes.
fn number(line: u32, field: &[u8]) -> Result<u64, ScriptFault>
    ensures { result ≡ number_in line field.now }
{
    match decimal(field) {
        Some(value) => Ok(value),
        None => Err(ScriptFault::Number(line)),
    }
}

/// How many turns a field asks for.
fn turns(line: u32, field: &[u8]) -> Result<u32, ScriptFault>
    ensures value { result ≡ turns_in line field.now }
    ensures range { IfOk result (λ t. (1 ≤ t) × (t ≤ 1000000)) }
{
    let value = number(line, field)?;
    if 1 <= value && value <= MOST_TURNS {
        Ok(value as u32)
    } else {
        Err(ScriptFault::Number(line))
    }
}

/// The context of a number, if it is there.
fn context(pages: &[u16], line: u32, value: u64) -> Result<u8, ScriptFault>
    requires { length pages.now ≤ 8 }
    ensures value { result ≡ context_at pages.now line value }
    ensures range { IfOk result (λ c. c < length pages.now) }
{
    if value < pages.len() as u64 {
        Ok(value as u8)
    } else {
        Err(ScriptFault::Context(line, value))
    }
}

/// The page of a number, if it is one of a context's image.
fn page(pages: &[u16], line: u32, context: u8, value: u64) -> Result<u16, ScriptFault>
    requires { context < length pages.now }
    ensures value { result ≡ page_at pages.now line context value }
    ensures range { IfOk result (λ p. p < slice_index pages.now context) }
{
    if value < u64::from(pages[context as usize]) {
        Ok(value as u16)
    } else {
        Err(ScriptFault::Page(line, value))
    }
}

fn context_named(pages: &[u16], line: u32, field: &[u8]) -> Result<u8, ScriptFault>
    requires { length pages.now ≤ 8 }
    ensures value { result ≡ context_line pages.now line field.now }
    ensures range { IfOk result (λ c. c < length pages.now) }
{
    context(pages, line, number(line, field)?)
}

fn turns_named(pages: &[u16], line: u32, first: &[u8], second: &[u8]) -> Result<Line, ScriptFault>
    requires { length pages.now ≤ 8 }
    ensures value { result ≡ turns_line pages.now line first.now second.now }
    ensures range { IfOk result (IsFor pages.now) }
{
    let value = number(line, first)?;
    let turns = turns(line, second)?;
    let context = context(pages, line, value)?;
    Ok(Line::Turn(context, turns))
}

fn page_named(
    pages: &[u16],
    line: u32,
    first: &[u8],
    second: &[u8],
) -> Result<(u8, u16), ScriptFault>
    requires { length pages.now ≤ 8 }
    ensures value { result ≡ page_line pages.now line first.now second.now }
    ensures range { IfOk result (λ k. IsPage pages.now k.0 k.1) }
{
    let context_value = number(line, first)?;
    let page_value = number(line, second)?;
    let context = context(pages, line, context_value)?;
    let page = page(pages, line, context, page_value)?;
    Ok((context, page))
}

/// The fields behind `turn`.
fn turn(pages: &[u16], line: u32, others: &[u8]) -> Result<Line, ScriptFault>
    requires { length pages.now ≤ 8 }
    ensures value { result ≡ turn_by pages.now line (fields others.now) }
    ensures range { IfOk result (IsFor pages.now) }
{
    let Some((first, others)) = first_field(others) else {
        return Err(ScriptFault::Word(line));
    };
    let Some((second, others)) = first_field(others) else {
        return Ok(Line::Turn(context_named(pages, line, first)?, 1));
    };
    if first_field(others).is_some() {
        return Err(ScriptFault::Word(line));
    }
    turns_named(pages, line, first, second)
}

/// The fields behind the name of a page event.
fn page_event(pages: &[u16], line: u32, others: &[u8]) -> Result<(u8, u16), ScriptFault>
    requires { length pages.now ≤ 8 }
    ensures value { result ≡ page_event_by pages.now line (fields others.now) }
    ensures range { IfOk result (λ k. IsPage pages.now k.0 k.1) }
{
    let Some((first, others)) = first_field(others) else {
        return Err(ScriptFault::Word(line));
    };
    let Some((second, others)) = first_field(others) else {
        return Err(ScriptFault::Word(line));
    };
    if first_field(others).is_some() {
        return Err(ScriptFault::Word(line));
    }
    page_named(pages, line, first, second)
}

fn evict(pages: &[u16], line: u32, others: &[u8]) -> Result<Line, ScriptFault>
    requires { length pages.now ≤ 8 }
    ensures value { result ≡ evict_by pages.now line (fields others.now) }
    ensures range { IfOk result (IsFor pages.now) }
{
    let (context, page) = page_event(pages, line, others)?;
    Ok(Line::Evict(context, page))
}

fn drop(pages: &[u16], line: u32, others: &[u8]) -> Result<Line, ScriptFault>
    requires { length pages.now ≤ 8 }
    ensures value { result ≡ drop_by pages.now line (fields others.now) }
    ensures range { IfOk result (IsFor pages.now) }
{
    let (context, page) = page_event(pages, line, others)?;
    Ok(Line::Drop(context, page))
}

fn prefetch(pages: &[u16], line: u32, others: &[u8]) -> Result<Line, ScriptFault>
    requires { length pages.now ≤ 8 }
    ensures value { result ≡ prefetch_by pages.now line (fields others.now) }
    ensures range { IfOk result (IsFor pages.now) }
{
    let (context, page) = page_event(pages, line, others)?;
    Ok(Line::Prefetch(context, page))
}

/// The fields behind `look`.
fn look(pages: &[u16], line: u32, others: &[u8]) -> Result<Line, ScriptFault>
    requires { length pages.now ≤ 8 }
    ensures value { result ≡ look_by pages.now line (fields others.now) }
    ensures range { IfOk result (IsFor pages.now) }
{
    let Some((first, others)) = first_field(others) else {
        return Err(ScriptFault::Word(line));
    };
    if first_field(others).is_some() {
        return Err(ScriptFault::Word(line));
    }
    Ok(Line::Look(context_named(pages, line, first)?))
}

/// What a line says by its first field and the others.
fn said(pages: &[u16], line: u32, word: &[u8], others: &[u8]) -> Result<Line, ScriptFault>
    requires { length pages.now ≤ 8 }
    ensures value { result ≡ said_by pages.now line word.now (fields others.now) }
    ensures range { IfOk result (IsFor pages.now) }
{
    if word == b"turn".as_slice() {
        turn(pages, line, others)
    } else if word == b"evict".as_slice() {
        evict(pages, line, others)
    } else if word == b"drop".as_slice() {
        drop(pages, line, others)
    } else if word == b"prefetch".as_slice() {
        prefetch(pages, line, others)
    } else if word == b"look".as_slice() {
        look(pages, line, others)
    } else {
        Err(ScriptFault::Word(line))
    }
}

fn is_remark(word: &[u8]) -> bool
    ensures { result ≡ is_remark_field word.now }
{
    match word {
        [first, ..] => *first == b'#',
        [] => false,
    }
}

/// What a line says, None where it is skipped.
fn line_of(pages: &[u16], number: u32, line: &[u8]) -> Result<Option<Line>, ScriptFault>
    requires { length pages.now ≤ 8 }
    ensures value { result ≡ reading pages.now number (fields line.now) }
    ensures range { IfOk result (λ line. IfSome line (IsFor pages.now)) }
{
    let Some((word, others)) = first_field(line) else {
        return Ok(None);
    };
    if is_remark(word) {
        return Ok(None);
    }
    Ok(Some(said(pages, number, word, others)?))
}

/// The lines of a script, in order, or its first fault. `pages` has for each context, of 1 to 8, the number of its image's
/// pages; the text has at most 1,048,576 bytes. Lines without fields and those whose first field begins with `#` say nothing,
/// but they count.
pub fn read(alloc: Global, text: &[u8], pages: &[u16]) -> Result<Vec<Line>, ScriptFault>
    requires some { 1 ≤ length pages.now }
    requires few { length pages.now ≤ 8 }
    requires short { length text.now ≤ 1048576 }
    ensures lines { IfOk result (λ lines. script pages.now text.now ≡ Ok lines.items) }
    ensures fault { IfErr result (IsScriptFault pages.now text.now) }
    ensures there { IfOk result (λ lines. All (IsFor pages.now) lines.items) }
{
    let mut lines = Vec::new(alloc);
    let mut number = 0;
    let mut rest = Some(text);
    while let Some(part) = rest {
        let (line, behind) = first_line(part);
        number += 1;
        if let Some(line) = line_of(pages, number, line)? {
            lines.push(line)?;
        }
        rest = behind;
    }
    Ok(lines)
}
