// The commands, and the forms of their words.
ghost use Rattle.std.specs.Prelude.{◌≡◌, ◌<◌, ◌≤◌, ◌+◌, ◌*◌, Option, Some, IsTrue, length, slice_get, map, string_bytes, option_map};
ghost use Rattle.std.specs.List.{list_all};
ghost use Rattle.tinker_words.specs.Settings.{is_name as names_file};
ghost use Rattle.tinker_words.specs.Forms.{asked_for, aimed_at, named};
ghost use Rattle.tinker_words.specs.Words.{input_named, check_words as check_in, meaning_kinds, run_kinds, meaning_words as meaning_in, contexts_named, is_count as is_count_of_words, name_contexts, run_words as run_in, target_named, resched_words, gen_words, behind_settings, alone, Help, Version, command_of};

use super::settings::{Kind, Number, Settings};
use super::workload::Workload;
use std::marker::Model;

/// A program whose meaning is asked for: its image, the file of its input, if it has one, and the settings.
#[derive(Debug, Drop)]
pub struct Setup<'a> {
    pub image: &'a str,
    pub input: Option<&'a str>,
    pub settings: Settings<'a>,
}

impl<'a> Model for Setup<'a> {
    ghost use Rattle.std.specs.Prelude.{option_map};
    ghost use Rattle.tinker_words.specs.Words.{Setup};

    ghost Value = { Setup };

    ghost view = { λ s. record { image = s.image.now; input = option_map (λ name. name.now) s.input; settings = s.settings } };
}

/// The generation for which a command works.
#[derive(Clone, Copy, Debug)]
pub enum Target<'a> {
    /// The image's own.
    Own,
    T1,
    T2,
    T3,
    /// That of a description file.
    File(&'a str),
}

/// A context by what names it: its image, the generation as which it runs, and the file of its input, if it has one.
#[derive(Clone, Copy, Debug)]
pub struct NamedContext<'a> {
    pub image: &'a str,
    pub target: Target<'a>,
    pub input: Option<&'a str>,
}

/// The contexts of a run, 1 to 8, by the words that name them. Contracts see the list of them.
#[derive(Debug, Drop)]
pub struct Contexts<'a> {
    words: &'a [String],
}

impl<'a> Model for Contexts<'a> {
    ghost use Rattle.std.specs.Prelude.{List, map, string_bytes, IsTrue};
    ghost use Rattle.tinker_words.specs.Words.{NamedContext, contexts_named, name_contexts};

    ghost Value = { List NamedContext };

    ghost view = { λ c. contexts_named (map string_bytes c.words.now) };

    ghost invariant = { λ c. IsTrue (name_contexts (map string_bytes c.words.now)) };
}

impl<'a> Contexts<'a> {
    /// How many there are, 1 to 8.
    pub fn count(&self) -> usize
        ensures count { result ≡ length self.now }
        ensures some { 1 ≤ result }
        ensures few { result ≤ 8 }
    {
        contexts_in(self.words)
    }

    /// The context of a number.
    pub fn context(&self, i: usize) -> NamedContext<'a>
        requires { i < length self.now }
        ensures { slice_get self.now i ≡ Some (named result) }
    {
        context_in(self.words, i)
    }
}

/// The forms that words may have.
#[derive(Debug, Drop)]
pub enum Form<'a> {
    Help,
    Version,
    Check(&'a str),
    Meaning(Setup<'a>),
    /// The settings and the contexts.
    Run(Settings<'a>, Contexts<'a>),
    /// An image, the generation for which it is rescheduled, and the file of the image for that.
    Resched(&'a str, Target<'a>, &'a str),
    /// What is generated, and the file that it is kept in.
    Gen(Workload, &'a str),
}

/// What the words ask for.
#[derive(Debug, Drop)]
pub struct Command<'a> {
    pub form: Form<'a>,
}

impl<'a> Model for Command<'a> {
    ghost use Rattle.tinker_words.specs.Words.{Command};

    ghost Value = { Command };

    ghost use Rattle.tinker_words.specs.Forms.{asked_for};

    ghost view = { λ c. asked_for c.form };
}

/// The settings of `meaning`.
const MEANING_KINDS: [Kind; 3] = [
    Kind::Counted(Number::Bound),
    Kind::Counted(Number::Limit),
    Kind::Dump,
];

/// The settings of `run`: three more.
const RUN_KINDS: [Kind; 6] = [
    Kind::Counted(Number::Frames),
    Kind::Counted(Number::Saved),
    Kind::Script,
    Kind::Counted(Number::Bound),
    Kind::Counted(Number::Limit),
    Kind::Dump,
];

/// Whether a word can name a file.
fn is_name(word: &str) -> bool
    ensures { result ≡ names_file word.now }
{
    !word.is_empty()
}

/// The file of the input, None for `-`.
fn input(word: &str) -> Option<&str>
    ensures { option_map (λ name. name.now) result ≡ input_named word.now }
{
    if word == "-" { None } else { Some(word) }
}

fn help(words: &[String]) -> Option<Form<'_>>
    ensures { option_map asked_for result ≡ alone Help (map string_bytes words.now) }
{
    words.is_empty().then_some(Form::Help)
}

fn version(words: &[String]) -> Option<Form<'_>>
    ensures { option_map asked_for result ≡ alone Version (map string_bytes words.now) }
{
    words.is_empty().then_some(Form::Version)
}

fn check(words: &[String]) -> Option<Form<'_>>
    ensures { option_map asked_for result ≡ check_in (map string_bytes words.now) }
{
    match words {
        [image] if is_name(image.as_str()) => Some(Form::Check(image.as_str())),
        _ => None,
    }
}

fn meaning_words<'a>(settings: Settings<'a>, words: &'a [String]) -> Option<Form<'a>>
    ensures { option_map asked_for result ≡ meaning_in settings.entry (map string_bytes words.now) }
{
    match words {
        [image, file] if is_name(image.as_str()) && is_name(file.as_str()) => {
            Some(Form::Meaning(Setup {
                image: image.as_str(),
                input: input(file.as_str()),
                settings,
            }))
        }
        _ => None,
    }
}

/// The generation that a word names.
fn named_target(word: &str) -> Target<'_>
    ensures { aimed_at result ≡ target_named word.now }
{
    match word {
        "own" => Target::Own,
        "t1" => Target::T1,
        "t2" => Target::T2,
        "t3" => Target::T3,
        _ => Target::File(word),
    }
}

/// How many contexts words name, three each.
fn contexts_in(words: &[String]) -> usize
    requires { IsTrue (name_contexts (map string_bytes words.now)) }
    ensures count { result ≡ length (contexts_named (map string_bytes words.now)) }
    ensures some { 1 ≤ result }
    ensures few { result ≤ 8 }
{
    words.len() / 3
}

/// The context of a number, of those that words name.
fn context_in(words: &[String], i: usize) -> NamedContext<'_>
    requires { 3 * i + 2 < length words.now }
    ensures { slice_get (contexts_named (map string_bytes words.now)) i ≡ Some (named result) }
{
    let at = 3 * i;
    NamedContext {
        image: words[at].as_str(),
        target: named_target(words[at + 1].as_str()),
        input: input(words[at + 2].as_str()),
    }
}

/// Whether each of some words can name a file.
fn are_names(words: &[String]) -> bool
    ensures { result ≡ list_all (λ w. names_file (string_bytes w)) words.now }
{
    words.iter().all(|word| is_name(word.as_str()))
}

/// Whether so many words name 1 to 8 contexts, three each.
fn is_count(words: usize) -> bool
    ensures { result ≡ is_count_of_words words }
{
    words % 3 == 0 && words >= 3 && words <= 24
}

/// Whether words name 1 to 8 contexts.
fn are_contexts(words: &[String]) -> bool
    ensures { result ≡ name_contexts (map string_bytes words.now) }
{
    are_names(words) && is_count(words.len())
}

fn run_words<'a>(settings: Settings<'a>, words: &'a [String]) -> Option<Form<'a>>
    ensures { option_map asked_for result ≡ run_in settings.entry (map string_bytes words.now) }
{
    if are_contexts(words) {
        Some(Form::Run(settings, Contexts { words }))
    } else {
        None
    }
}

fn resched(words: &[String]) -> Option<Form<'_>>
    ensures { option_map asked_for result ≡ resched_words (map string_bytes words.now) }
{
    match words {
        [image, generation, out]
            if is_name(image.as_str()) && is_name(generation.as_str()) && is_name(out.as_str()) => {
            Some(Form::Resched(
                image.as_str(),
                named_target(generation.as_str()),
                out.as_str(),
            ))
        }
        _ => None,
    }
}

fn generate(words: &[String]) -> Option<Form<'_>>
    ensures { option_map asked_for result ≡ gen_words (map string_bytes words.now) }
{
    match words {
        [number, blocks, ops, out] if is_name(out.as_str()) => {
            let workload = Workload::named(number.as_str(), blocks.as_str(), ops.as_str())?;
            Some(Form::Gen(workload, out.as_str()))
        }
        _ => None,
    }
}

fn meaning(words: &[String]) -> Option<Form<'_>>
    ensures { option_map asked_for result ≡ behind_settings meaning_kinds meaning_in (map string_bytes words.now) }
{
    match Settings::none().and_then(&MEANING_KINDS, words) {
        Some((settings, others)) => meaning_words(settings, others),
        None => None,
    }
}

fn run(words: &[String]) -> Option<Form<'_>>
    ensures { option_map asked_for result ≡ behind_settings run_kinds run_in (map string_bytes words.now) }
{
    match Settings::none().and_then(&RUN_KINDS, words) {
        Some((settings, others)) => run_words(settings, others),
        None => None,
    }
}

fn form_of(words: &[String]) -> Option<Form<'_>>
    ensures { option_map asked_for result ≡ command_of (map string_bytes words.now) }
{
    match words {
        [] => None,
        [verb, others @ ..] => match verb.as_str() {
            "check" => check(others),
            "meaning" => meaning(others),
            "run" => run(others),
            "resched" => resched(others),
            "gen" => generate(others),
            "--help" => help(others),
            "--version" => version(others),
            _ => None,
        },
    }
}

/// The command that the words name, None where they have no form.
pub fn parse(words: &[String]) -> Option<Command<'_>>
    ensures { result ≡ command_of (map string_bytes words.now) }
{
    let form = form_of(words)?;
    Some(Command { form })
}
