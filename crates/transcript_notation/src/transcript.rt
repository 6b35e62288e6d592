// A transcript as it is read: blocks of a command with the lines behind it.
ghost use Rattle.std.specs.Prelude.{◌<◌, ◌≤◌, length};

use super::trouble::Trouble;
use super::words::{spaced, split_word};

/// What a command does.
#[derive(Clone, Copy)]
pub enum Verb {
    Tinker,
    File,
    Holds,
    Absent,
    Failing,
    Prefixes,
    Chains,
}

const VERBS: [(&str, Verb); 7] = [
    ("tinker", Verb::Tinker),
    ("file", Verb::File),
    ("holds", Verb::Holds),
    ("absent", Verb::Absent),
    ("failing", Verb::Failing),
    ("prefixes", Verb::Prefixes),
    ("chains", Verb::Chains),
];

impl Verb {
    /// The verb that a word is.
    pub fn of(word: &str) -> Result<Self, Trouble> {
        for (name, verb) in &VERBS {
            if *name == word {
                return Ok(*verb);
            }
        }
        Err(Trouble::UnknownCommand)
    }
}

/// A command with the lines that belong to it; or lines that belong to none.
#[derive(Clone, Copy)]
pub struct Block<'a> {
    /// The number of the first line, counted from 1.
    line: usize,
    head: &'a str,
    /// The lines behind the first one that belong to it.
    pub behind: &'a [&'a str],
    /// All lines behind the first one.
    after: &'a [&'a str],
}

/// Whether the line is a command.
fn is_command(line: &str) -> bool {
    line.starts_with("$ ")
}

/// Whether no command goes on at the line.
fn is_gap(line: &str) -> bool {
    line.is_empty() || line.starts_with('#')
}

/// Whether a block begins at the line of an index: a command, or a line that belongs to none.
fn begins(lines: &[&str], index: usize) -> bool
    requires { index < length lines.now }
{
    let line = lines[index];
    is_command(line) || !is_gap(line) && (index == 0 || is_gap(lines[index - 1]))
}

/// How many of the lines belong to the command before them.
fn belonging(lines: &[&str]) -> usize
    ensures { result ≤ length lines.now }
{
    for (count, line) in lines.iter().enumerate() {
        if is_gap(line) || is_command(line) {
            return count;
        }
    }
    lines.len()
}

/// The first word of the command in a line, and no word where it has none.
fn first_word(line: &str) -> &str {
    match line.strip_prefix("$ ") {
        Some(command) => split_word(command).0,
        None => "",
    }
}

impl<'a> Block<'a> {
    /// The block that begins at the line of an index, if one does.
    pub fn at(lines: &'a [&'a str], index: usize) -> Option<Self>
        requires { index < length lines.now }
    {
        if !begins(lines, index) {
            return None;
        }
        let after = &lines[index + 1..];
        Some(Block {
            line: index + 1,
            head: lines[index],
            behind: &after[..belonging(after)],
            after,
        })
    }

    /// The command behind its `$ `: the words, with single spaces between them.
    pub fn command(&self) -> Result<&'a str, Trouble> {
        match self.head.strip_prefix("$ ") {
            Some(command) => {
                spaced(command)?;
                Ok(command)
            }
            None => Err(Trouble::Unreadable(0)),
        }
    }

    /// The number of the line at a place, and the line.
    pub fn line_at(&self, place: usize) -> (usize, &'a str) {
        if 0 < place && place <= self.behind.len() {
            (self.line.saturating_add(place), self.behind[place - 1])
        } else {
            (self.line, self.head)
        }
    }

    /// Refuses lines behind the command.
    pub fn alone(&self) -> Result<(), Trouble> {
        if self.behind.is_empty() {
            Ok(())
        } else {
            Err(Trouble::Unreadable(1))
        }
    }

    /// Refuses a command on the next run where there is none, up to another of the same verb.
    pub fn used(&self) -> Result<(), Trouble> {
        for line in self.after {
            let verb = first_word(line);
            if verb == "tinker" {
                return Ok(());
            }
            if verb == first_word(self.head) {
                break;
            }
        }
        Err(Trouble::Unused)
    }
}
