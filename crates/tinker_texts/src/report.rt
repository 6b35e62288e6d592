// The texts of a check and of a run.
ghost use Rattle.std.specs.Prelude.{Some, ◌≡◌, ◌<◌, ◌≤◌, ◌*◌, ◌^◌, ◌++◌, ◌∷◌, [], length, map, sum, nat_eq, OnOk, IfOk, string_bytes, encode_utf8};
ghost use Rattle.std.specs.List.{list_all};
ghost use Rattle.image_format.specs.Parts.{image_of};
ghost use Rattle.tinker_texts.specs.Report.{kind_name as name_of, end_text, hex, hex_digit as digit_of, hex_line, hex_lines, heading, memory_heading, memory_row as row_of, row_line, memory_line, memory_lines, memory_part, cycles_line, pages_line, part as part_text, accepted_line, wrote_line, accepted_text};

use byteorder::{BigEndian, ByteOrder};
use image_format::{Parts, Row};
use operation::{End, TrapKind};
use std::alloc::{AllocError, Global};
use std::fmt;

/// Bytes on a line of output.
const LINE: usize = 32;

/// Bytes on a line of memory.
const ROW: usize = 16;

/// The name of a kind of trap.
#[derive(Clone, Copy)]
struct KindName(TrapKind);

impl fmt::Display for KindName {
    ghost output = { λ k. Some (name_of k.0) };

    fn fmt<W: fmt::Write>(&self, f: &mut fmt::Formatter<W>) -> fmt::Result {
        match self.0 {
            TrapKind::DivideByZero => write!(f, "DivideByZero"),
            TrapKind::Misaligned => write!(f, "Misaligned"),
            TrapKind::OutOfRange => write!(f, "OutOfRange"),
            TrapKind::OutputFull => write!(f, "OutputFull"),
            TrapKind::BadTarget => write!(f, "BadTarget"),
        }
    }
}

/// How a run ended, as a line says it.
#[derive(Clone, Copy)]
struct EndText(End);

impl fmt::Display for EndText {
    ghost output = { λ e. Some (end_text e.0) };

    fn fmt<W: fmt::Write>(&self, f: &mut fmt::Formatter<W>) -> fmt::Result {
        match self.0 {
            End::Halted(code) => write!(f, "halted {code}"),
            End::Trapped(report) => {
                let kind = KindName(report.kind);
                let block = report.block;
                let detail = report.detail;
                write!(f, "trap {kind} block {block} value {detail}")
            }
            End::Bound => write!(f, "bound"),
        }
    }
}

/// The lower-case digit of a number below 16.
fn hex_digit(n: u8) -> char
    requires { n < 16 }
    ensures { encode_utf8 result ≡ digit_of n ∷ [] }
{
    if n < 10 {
        (b'0' + n) as char
    } else {
        (b'a' + (n - 10)) as char
    }
}

/// Two lower-case digits a byte.
fn push_hex(text: &mut String, bytes: &[u8]) -> Result<(), AllocError>
    ensures { OnOk result (string_bytes text.new ≡ string_bytes text.old ++ hex bytes.now) }
{
    for byte in bytes {
        text.push(hex_digit(*byte / 16))?;
        text.push(hex_digit(*byte % 16))?;
    }
    Ok(())
}

/// The line `i` of 32 bytes, or fewer where the bytes end.
fn push_hex_line(text: &mut String, bytes: &[u8], i: usize) -> Result<(), AllocError>
    requires { 32 * i ≤ length bytes.now }
    ensures { OnOk result (string_bytes text.new ≡ string_bytes text.old ++ hex_line bytes.now i) }
{
    let rest = &bytes[LINE * i..];
    push_hex(text, &rest[..rest.len().min(LINE)])?;
    text.push_str("\n")?;
    Ok(())
}

fn push_hex_lines(text: &mut String, bytes: &[u8]) -> Result<(), AllocError>
    ensures { OnOk result (string_bytes text.new ≡ string_bytes text.old ++ hex_lines bytes.now) }
{
    for i in 0..bytes.len().div_ceil(LINE) {
        push_hex_line(text, bytes, i)?;
    }
    Ok(())
}

#[tactic(auto, unfolding(crate::specs::Report::heading))]
fn push_heading(
    text: &mut String,
    index: u8,
    end: End,
    blocks: u32,
    size: usize,
) -> Result<(), AllocError>
    ensures { OnOk result (string_bytes text.new ≡ string_bytes text.old ++ heading index end blocks size) }
{
    let end = EndText(end);
    write!(
        text,
        "context {index}\nend {end}\nblocks {blocks}\noutput {size}\n"
    )
}

/// The bytes of memory from `16 * i` on, 16 of them, or fewer where the memory ends.
fn memory_row(memory: &[u8], i: usize) -> &[u8]
    requires { 16 * i ≤ length memory.now }
    ensures { result.now ≡ row_of memory.now i }
{
    let rest = &memory[ROW * i..];
    &rest[..rest.len().min(ROW)]
}

fn is_zero(row: &[u8]) -> bool
    ensures { result ≡ list_all (λ b. nat_eq b 0) row.now }
{
    row.iter().all(|byte| *byte == 0)
}

/// A row of memory that isn't all 0, with its address.
fn push_memory_row(text: &mut String, row: &[u8], i: usize) -> Result<(), AllocError>
    requires { 16 * i < 2 ^ 64 }
    ensures { OnOk result (string_bytes text.new ≡ string_bytes text.old ++ row_line row.now i) }
{
    let mut address = [0; 8];
    BigEndian::write_u64(&mut address, 16 * i as u64);
    push_hex(text, &address[4..])?;
    text.push_str(" ")?;
    push_hex(text, row)?;
    text.push_str("\n")?;
    Ok(())
}

/// The row `i` of memory, unless it is all 0.
fn push_memory_line(text: &mut String, row: &[u8], i: usize) -> Result<(), AllocError>
    requires { 16 * i < 2 ^ 64 }
    ensures { OnOk result (string_bytes text.new ≡ string_bytes text.old ++ memory_line row.now i) }
{
    if !is_zero(row) {
        push_memory_row(text, row, i)?;
    }
    Ok(())
}

/// All rows of memory that aren't all 0.
fn push_memory_lines(text: &mut String, memory: &[u8]) -> Result<(), AllocError>
    ensures { OnOk result (string_bytes text.new ≡ string_bytes text.old ++ memory_lines memory.now) }
{
    for i in 0..memory.len().div_ceil(ROW) {
        push_memory_line(text, memory_row(memory, i), i)?;
    }
    Ok(())
}

#[tactic(auto, unfolding(crate::specs::Report::memory_heading))]
fn push_memory_heading(text: &mut String, size: usize) -> Result<(), AllocError>
    ensures { OnOk result (string_bytes text.new ≡ string_bytes text.old ++ memory_heading size) }
{
    writeln!(text, "memory {size}")
}

/// The memory, where it is shown.
fn push_memory(text: &mut String, dump: bool, memory: &[u8]) -> Result<(), AllocError>
    ensures { OnOk result (string_bytes text.new ≡ string_bytes text.old ++ memory_part dump memory.now) }
{
    if dump {
        push_memory_heading(text, memory.len())?;
        push_memory_lines(text, memory)?;
    }
    Ok(())
}

/// The part of a context that has ended: its number, how it ended, how many of its blocks have, the bytes that it put out,
/// and with `dump` its memory.
pub fn push_part(
    text: &mut String,
    index: u8,
    dump: bool,
    end: End,
    blocks: u32,
    output: &[u8],
    memory: &[u8],
) -> Result<(), AllocError>
    ensures { OnOk result (string_bytes text.new ≡ string_bytes text.old
        ++ part_text index dump end blocks output.now memory.now) }
{
    push_heading(text, index, end, blocks, output.len())?;
    push_hex_lines(text, output)?;
    push_memory(text, dump, memory)?;
    Ok(())
}

/// How many cycles a context took.
#[tactic(auto, unfolding(crate::specs::Report::cycles_line))]
pub fn push_cycles(text: &mut String, index: u8, cycles: u64) -> Result<(), AllocError>
    ensures { OnOk result (string_bytes text.new ≡ string_bytes text.old ++ cycles_line index cycles) }
{
    writeln!(text, "cycles {index} {cycles}")
}

/// How often a page was loaded into a frame, rescheduled or restored for that, and evicted.
#[tactic(auto, unfolding(crate::specs::Report::pages_line))]
pub fn push_pages(
    text: &mut String,
    loaded: u64,
    rescheduled: u64,
    restored: u64,
    evicted: u64,
) -> Result<(), AllocError>
    ensures { OnOk result (string_bytes text.new ≡ string_bytes text.old
        ++ pages_line loaded rescheduled restored evicted) }
{
    writeln!(
        text,
        "pages loaded {loaded} rescheduled {rescheduled} restored {restored} evicted {evicted}"
    )
}

/// How many words the rows have in all. 128 bits have room for the sum of any rows.
fn words_in(rows: &[Row]) -> u128
    ensures { result ≡ sum (map (λ r. r.count) rows.now) }
{
    let mut words = 0;
    for row in rows {
        words += u128::from(row.count);
    }
    words
}

/// The line of an accepted image, by its numbers of pages, blocks and words in blocks.
#[tactic(auto, unfolding(crate::specs::Report::accepted_line))]
fn push_accepted(
    text: &mut String,
    name: &str,
    pages: usize,
    blocks: usize,
    words: u128,
) -> Result<(), AllocError>
    ensures { OnOk result (string_bytes text.new ≡ string_bytes text.old ++ accepted_line name.now pages blocks words) }
{
    writeln!(
        text,
        "accepted {name} pages {pages} blocks {blocks} words {words}"
    )
}

/// The line of a file that was kept, with how many bytes it has.
#[tactic(auto, unfolding(crate::specs::Report::wrote_line))]
pub fn wrote(alloc: Global, name: &str, bytes: usize) -> Result<Vec<u8>, AllocError>
    ensures { IfOk result (λ text. text.items ≡ wrote_line name.now bytes) }
{
    let line = format!(in alloc; "wrote {name} {bytes}\n")?;
    Ok(line.into_bytes())
}

/// What is put out of an accepted image, by its parts.
pub fn accepted(alloc: Global, name: &str, parts: &Parts) -> Result<Vec<u8>, AllocError>
    ensures { IfOk result (λ text. text.items ≡ accepted_text name.now (image_of parts.now)) }
{
    let (pages, blocks) = (parts.words.len() / 512, parts.rows.len());
    let mut text = String::new(alloc);
    push_accepted(&mut text, name, pages, blocks, words_in(&parts.rows))?;
    Ok(text.into_bytes())
}
