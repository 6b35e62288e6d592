// The settings of a command: the words `NAME=VALUE` that stand before its other words.
ghost use Rattle.std.specs.Prelude.{◌≡◌, ◌≤◌, true, false, None, Some, MatchOption, IfSome, length, drop, map, string_bytes, option_map};
ghost use Rattle.tnk_text.specs.Digits.{decimal_in};
ghost use Rattle.tinker_words.specs.Settings.{unset, row as row_of, name_of, begins, setting_in, number as number_of, given, with_number as numbered, first_number as first_of, with_counted as counted, with_script as scripted, with_dump as dumped, with_setting as with_value, settings as settings_of};
ghost use Rattle.tinker_words.specs.declared.settings.Number.{Number};
ghost use Rattle.tinker_words.specs.Rows.{shown_row, IsInRange};

use std::marker::Model;
use tnk_text::decimal;

/// A setting that is a number.
#[derive(Clone, Copy, Debug)]
pub enum Number {
    /// How many frames there are for pages.
    Frames,
    /// How many evicted pages may be saved.
    Saved,
    /// The most blocks that a program may run.
    Bound,
    /// The most bytes that a program may put out.
    Limit,
}

/// A setting.
#[derive(Clone, Copy, Debug)]
pub enum Kind {
    Counted(Number),
    /// The file of a script.
    Script,
    /// Whether the memory is shown.
    Dump,
}

/// A row of the table of numbers: the name, the least and the greatest value, and the value where none is given.
#[derive(Clone, Copy, Debug)]
struct Row {
    name: &'static str,
    least: u32,
    most: u32,
    usual: u32,
}

impl Number {
    fn row(self) -> Row
        ensures { shown_row result ≡ row_of self }
    {
        match self {
            Number::Frames => Row {
                name: "frames=",
                least: 1,
                most: 1_024,
                usual: 16,
            },
            Number::Saved => Row {
                name: "saved=",
                least: 0,
                most: 1_024,
                usual: 16,
            },
            Number::Bound => Row {
                name: "bound=",
                least: 1,
                most: 1_000_000,
                usual: 100_000,
            },
            Number::Limit => Row {
                name: "limit=",
                least: 1,
                most: 1_048_576,
                usual: 65_536,
            },
        }
    }
}

impl Kind {
    /// The name, its `=` included.
    fn name(self) -> &'static str
        ensures { result.now ≡ name_of self }
    {
        match self {
            Kind::Counted(number) => number.row().name,
            Kind::Script => "script=",
            Kind::Dump => "dump=",
        }
    }
}

/// The settings that were given.
#[derive(Debug, Drop)]
pub struct Settings<'a> {
    frames: Option<u32>,
    saved: Option<u32>,
    bound: Option<u32>,
    limit: Option<u32>,
    script: Option<&'a str>,
    dump: bool,
}

impl<'a> Model for Settings<'a> {
    ghost use Rattle.tinker_words.specs.Settings.{Settings};

    ghost Value = { Settings };

    ghost use Rattle.tinker_words.specs.Rows.{given_settings, AreWithin};

    ghost view = { given_settings };

    ghost invariant = { AreWithin };
}

/// The value of a setting of a kind, where a word names one.
fn value(kind: Kind, word: &str) -> Option<&str>
    ensures { MatchOption result (begins (name_of kind) word.now ≡ false)
        (λ value. (begins (name_of kind) word.now ≡ true) × (value.now ≡ drop (length (name_of kind)) word.now)) }
{
    word.strip_prefix(kind.name())
}

/// The setting that a word names, of those that a command has, and its value.
fn setting<'a>(kinds: &[Kind], word: &'a str) -> Option<(Kind, &'a str)>
    ensures { MatchOption result (setting_in kinds.now word.now ≡ None)
        (λ r. (setting_in kinds.now word.now ≡ Some r.0) × (r.1.now ≡ drop (length (name_of r.0)) word.now)) }
{
    for kind in kinds {
        if let Some(value) = value(*kind, word) {
            return Some((*kind, value));
        }
    }
    None
}

/// A number that is in its range, and wasn't given before.
fn first_number(row: &Row, before: Option<u32>, value: Option<u64>) -> Option<u32>
    ensures value { result ≡ first_of (shown_row row.now) before value }
    ensures range { IfSome result (IsInRange (shown_row row.now)) }
{
    match (before, value) {
        (None, Some(n)) if u64::from(row.least) <= n && n <= u64::from(row.most) => Some(n as u32),
        _ => None,
    }
}

impl<'a> Settings<'a> {
    /// So many frames for pages, and at most so many saved ones; nothing else is given.
    pub fn of_pages(frames: u32, saved: u32) -> Self
        requires frames { IsInRange (row_of Number.Frames) frames }
        requires saved { IsInRange (row_of Number.Saved) saved }
        ensures { result ≡ record unset { frames = Some frames; saved = Some saved } }
    {
        Settings {
            frames: Some(frames),
            saved: Some(saved),
            ..Settings::none()
        }
    }

    /// Nothing is given.
    pub fn none() -> Self
        ensures { result ≡ unset }
    {
        Settings {
            frames: None,
            saved: None,
            bound: None,
            limit: None,
            script: None,
            dump: false,
        }
    }

    fn given(&self, number: Number) -> Option<u32>
        ensures value { result ≡ given self.now number }
        ensures range { IfSome result (IsInRange (row_of number)) }
    {
        match number {
            Number::Frames => self.frames,
            Number::Saved => self.saved,
            Number::Bound => self.bound,
            Number::Limit => self.limit,
        }
    }

    /// A number, where it is given or else its usual value.
    pub fn number(&self, number: Number) -> u32
        ensures value { result ≡ number_of self.now number }
        ensures least { (row_of number).least ≤ result }
        ensures most { result ≤ (row_of number).most }
    {
        self.given(number).unwrap_or(number.row().usual)
    }

    /// The file of the script, if there is one.
    pub fn script(&self) -> Option<&'a str>
        ensures { option_map (λ name. name.now) result ≡ self.now.script }
    {
        self.script
    }

    /// Whether the memory is shown.
    pub fn dump(&self) -> bool
        ensures { result ≡ self.now.dump }
    {
        self.dump
    }

    /// The settings with a number that is in its range; None where it isn't, or where it was given before.
    fn with_counted(self, number: Number, value: &str) -> Option<Self>
        ensures { result ≡ counted self.entry number value.now }
    {
        let row = number.row();
        let count = first_number(&row, self.given(number), decimal(value.as_bytes()))?;
        Some(match number {
            Number::Frames => Settings {
                frames: Some(count),
                ..self
            },
            Number::Saved => Settings {
                saved: Some(count),
                ..self
            },
            Number::Bound => Settings {
                bound: Some(count),
                ..self
            },
            Number::Limit => Settings {
                limit: Some(count),
                ..self
            },
        })
    }

    /// The settings with a script; None where its name is empty, or one was given before.
    fn with_script(self, name: &'a str) -> Option<Self>
        ensures { result ≡ scripted self.entry name.now }
    {
        if self.script.is_some() || name.is_empty() {
            return None;
        }
        Some(Settings {
            script: Some(name),
            ..self
        })
    }

    fn with_dump(self, value: &str) -> Option<Self>
        ensures { result ≡ dumped self.entry value.now }
    {
        if self.dump || value != "yes" {
            return None;
        }
        Some(Settings { dump: true, ..self })
    }

    /// The settings with one more of this value; None where the value is faulty, or the setting was given before.
    fn with(self, kind: Kind, value: &'a str) -> Option<Self>
        ensures { result ≡ with_value self.entry kind value.now }
    {
        match kind {
            Kind::Counted(number) => self.with_counted(number, value),
            Kind::Script => self.with_script(value),
            Kind::Dump => self.with_dump(value),
        }
    }

    /// The settings that the words begin with, behind these, and the words behind them; None where one is faulty.
    pub(crate) fn and_then(
        self,
        kinds: &[Kind],
        words: &'a [String],
    ) -> Option<(Self, &'a [String])>
        ensures { option_map (λ r. (r.0, map string_bytes r.1.now)) result ≡ settings_of kinds.now self.entry
            (map string_bytes words.now) }
    {
        match words {
            [] => Some((self, words)),
            [word, rest @ ..] => match setting(kinds, word.as_str()) {
                None => Some((self, words)),
                Some((kind, value)) => self.with(kind, value)?.and_then(kinds, rest),
            },
        }
    }
}
