// CONTENT: the parts that a file is made of as they are read, and the bytes that they make.
ghost use Rattle.std.specs.Prelude.{◌<◌, IfSome};

use super::files::Files;
use super::trouble::Trouble;
use super::words::{number, number_or};
use std::alloc::Global;

/// The most bytes that a file may have.
const MOST: usize = 16_777_216;

/// A file as it is made, part by part.
#[derive(Drop)]
pub struct Content<'a> {
    alloc: Global,
    files: &'a Files,
    /// The place of the line that is read, as `Trouble` has it.
    place: usize,
    bytes: Vec<u8>,
}

impl<'a> Content<'a> {
    /// No part is there yet. Parts may be taken from these files.
    pub fn new(alloc: Global, files: &'a Files) -> Self {
        Content {
            alloc,
            files,
            place: 0,
            bytes: Vec::new(alloc),
        }
    }

    /// The bytes of all parts.
    pub fn into_bytes(self) -> Vec<u8> {
        self.bytes
    }

    /// Adds these parts, and then what lines behind the command say.
    pub fn add_all(&mut self, parts: &str, lines: &[&str]) -> Result<(), Trouble> {
        if !parts.is_empty() {
            self.add_parts(parts)?;
        }
        for line in lines {
            self.add_line(line)?;
        }
        Ok(())
    }

    /// Adds what the next line behind the command says.
    fn add_line(&mut self, line: &str) -> Result<(), Trouble> {
        self.place = self.place.saturating_add(1);
        match line.strip_prefix('|') {
            Some(text) => self.add_text(text),
            None => self.add_parts(line),
        }
    }

    /// Adds a text and a line feed.
    fn add_text(&mut self, text: &str) -> Result<(), Trouble> {
        self.push(text.as_bytes())?;
        self.push(b"\n")
    }

    /// Adds the parts that stand in a line.
    fn add_parts(&mut self, line: &str) -> Result<(), Trouble> {
        for part in line.split(' ') {
            self.add_part(part)?;
        }
        Ok(())
    }

    /// Adds a part as it is written.
    fn add_part(&mut self, part: &str) -> Result<(), Trouble> {
        if let Some(file) = part.strip_prefix('@') {
            self.add_file(file)
        } else if let Some((offset, digits)) = part.split_once(':') {
            self.change(offset, digits)
        } else if let Some((digits, times)) = part.split_once('*') {
            self.repeat(digits, self.number(times)?)
        } else {
            self.repeat(part, 1)
        }
    }

    /// Adds the bytes of a file, or those of a range of it in brackets.
    fn add_file(&mut self, text: &str) -> Result<(), Trouble> {
        let (name, range) = text.split_once('[').unwrap_or((text, "..]"));
        let files = self.files;
        let bytes = files.find(name)?;
        match ends(range, bytes.len()) {
            Some((from, to)) => self.push(cut(bytes, from, to)?),
            None => Err(self.unreadable()),
        }
    }

    /// Adds the bytes that digits say, so many times.
    fn repeat(&mut self, digits: &str, times: usize) -> Result<(), Trouble> {
        let bytes = self.hex(digits)?;
        for _ in 0..times {
            self.push(&bytes)?;
        }
        Ok(())
    }

    /// Puts the bytes that digits say in place of those that stand from an offset on.
    fn change(&mut self, offset: &str, digits: &str) -> Result<(), Trouble> {
        let offset = self.number(offset)?;
        let bytes = self.hex(digits)?;
        change(&mut self.bytes, offset, &bytes)
    }

    /// Adds bytes, up to the most that a file may have.
    fn push(&mut self, bytes: &[u8]) -> Result<(), Trouble> {
        if bytes.len() > MOST.saturating_sub(self.bytes.len()) {
            return Err(Trouble::PastTheEnd);
        }
        Ok(self.bytes.extend_from_slice(bytes)?)
    }

    fn unreadable(&self) -> Trouble {
        Trouble::Unreadable(self.place)
    }

    /// The number that decimal digits say.
    fn number(&self, digits: &str) -> Result<usize, Trouble> {
        match number(digits) {
            Some(number) => Ok(number),
            None => Err(self.unreadable()),
        }
    }

    /// The bytes that hexadecimal digits say, two of them each.
    fn hex(&self, digits: &str) -> Result<Vec<u8>, Trouble> {
        let digits = digits.as_bytes();
        let mut bytes = Vec::new(self.alloc);
        if digits.is_empty() || digits.len() % 2 != 0 {
            return Err(self.unreadable());
        }
        for index in 0..digits.len() / 2 {
            match byte(digits[2 * index], digits[2 * index + 1]) {
                Some(byte) => bytes.push(byte)?,
                None => return Err(self.unreadable()),
            }
        }
        Ok(bytes)
    }
}

/// FROM..TO and a bracket, for so many bytes; either number may be left out.
fn ends(range: &str, length: usize) -> Option<(usize, usize)> {
    let (from, to) = range.strip_suffix(']')?.split_once("..")?;
    Some((number_or(0, from)?, number_or(length, to)?))
}

/// The bytes from an offset up to another.
pub fn cut(bytes: &[u8], from: usize, to: usize) -> Result<&[u8], Trouble> {
    if from <= to && to <= bytes.len() {
        Ok(&bytes[from..to])
    } else {
        Err(Trouble::PastTheEnd)
    }
}

/// Puts the bytes in place of those that stand from an offset on.
fn change(made: &mut [u8], offset: usize, bytes: &[u8]) -> Result<(), Trouble> {
    let end = offset.saturating_add(bytes.len());
    if end > made.len() {
        return Err(Trouble::PastTheEnd);
    }
    made[offset..end].copy_from_slice(bytes);
    Ok(())
}

/// The byte that two digits say.
fn byte(high: u8, low: u8) -> Option<u8> {
    Some(16 * value(high)? + value(low)?)
}

fn value(digit: u8) -> Option<u8>
    ensures { IfSome result (λ n. n < 16) }
{
    match digit {
        b'0'..=b'9' => Some(digit - b'0'),
        b'a'..=b'f' => Some(digit - b'a' + 10),
        _ => None,
    }
}
