//! Which command the words and the options ask for.

use crate::options::Options;

/// What is done.
#[derive(Clone, Copy)]
pub enum Verb {
    Version,
    Check,
    Format,
    Contents,
    Document,
    Text,
    Binary,
    Encode,
    Embed,
    Decode,
    Layout,
    Differences,
    Call,
    HeaderForC,
    HeaderForGuest,
    DeclarationsForTs,
    DeclarationsForPython,
}

/// Whether a command has an option.
#[derive(Clone, Copy)]
enum Use {
    Never,
    May,
    Must,
}

/// The most words of a command that takes any number of paths.
const MANY: usize = usize::MAX;

/// The words that a command begins with, the second empty if there is one, how many come after them, whether it has
/// `--json`, `--svg`, `--output`, `--world` and `--check`, and what it does.
type Row = (&'static str, &'static str, (usize, usize), [Use; 5], Verb);

/// A command has none of the options.
const PLAIN: [Use; 5] = [Use::Never, Use::Never, Use::Never, Use::Never, Use::Never];

/// It has `--json`.
const AS_JSON: [Use; 5] = [Use::Must, Use::Never, Use::Never, Use::Never, Use::Never];

/// It may have `--svg`.
const DRAWN: [Use; 5] = [Use::Never, Use::May, Use::Never, Use::Never, Use::Never];

/// The commands.
static COMMANDS: [Row; 18] = [
    (
        "--version",
        "",
        (0, 0),
        [Use::May, Use::May, Use::Never, Use::Never, Use::Never],
        Verb::Version,
    ),
    (
        "check",
        "",
        (1, MANY),
        [Use::May, Use::Never, Use::Never, Use::Never, Use::Never],
        Verb::Check,
    ),
    (
        "format",
        "",
        (1, MANY),
        [Use::Never, Use::Never, Use::Never, Use::Never, Use::May],
        Verb::Format,
    ),
    ("show", "", (1, MANY), PLAIN, Verb::Contents),
    ("show", "", (1, MANY), AS_JSON, Verb::Document),
    ("text", "", (1, MANY), PLAIN, Verb::Text),
    (
        "bin",
        "",
        (1, MANY),
        [Use::Never, Use::Never, Use::Must, Use::Never, Use::Never],
        Verb::Binary,
    ),
    (
        "encode",
        "",
        (1, MANY),
        [Use::Never, Use::Never, Use::Must, Use::May, Use::Never],
        Verb::Encode,
    ),
    (
        "embed",
        "",
        (2, MANY),
        [Use::Never, Use::Never, Use::Must, Use::Must, Use::Never],
        Verb::Embed,
    ),
    ("decode", "", (1, 1), PLAIN, Verb::Decode),
    ("layout", "", (1, 2), DRAWN, Verb::Layout),
    ("layout", "", (1, MANY), AS_JSON, Verb::Document),
    ("diff", "", (2, 2), PLAIN, Verb::Differences),
    ("call", "", (4, 5), DRAWN, Verb::Call),
    ("bind", "c", (1, MANY), PLAIN, Verb::HeaderForC),
    (
        "bind",
        "guest",
        (1, MANY),
        [Use::Never, Use::Never, Use::Never, Use::May, Use::Never],
        Verb::HeaderForGuest,
    ),
    ("bind", "ts", (1, MANY), PLAIN, Verb::DeclarationsForTs),
    (
        "bind",
        "python",
        (1, MANY),
        PLAIN,
        Verb::DeclarationsForPython,
    ),
];

/// A command that is asked for.
#[derive(Clone, Copy)]
pub struct Asked<'a, 'b> {
    pub verb: Verb,
    /// The words after those of the command.
    pub words: &'a [&'b str],
    pub options: &'a Options<'b>,
}

impl<'a, 'b> Asked<'a, 'b> {
    /// A word after those of the command. No text if there is no such word.
    pub fn word(&self, place: usize) -> &'b str {
        match self.words.get(place) {
            Some(word) => *word,
            None => "",
        }
    }

    /// The paths of packages.
    pub fn paths(&self) -> &'a [&'b str] {
        let paths = match self.verb {
            Verb::Embed => self.words.get(1..),
            Verb::Layout | Verb::Call => self.words.get(..1),
            _ => Some(self.words),
        };
        paths.unwrap_or(self.words)
    }

    /// The first of them.
    pub fn path(&self) -> &'b str {
        match self.paths().first() {
            Some(path) => *path,
            None => "",
        }
    }

    /// The file that is written. No text if there is none.
    pub fn file(&self) -> &'b str {
        self.options.output.unwrap_or("")
    }
}

/// Whether an option that a command has or not may be given, or may be left out.
fn allows(used: Use, is_given: bool) -> bool {
    match used {
        Use::Never => !is_given,
        Use::May => true,
        Use::Must => is_given,
    }
}

/// Whether a command has these options.
fn takes(uses: [Use; 5], options: &Options<'_>) -> bool {
    let [json, svg, output, world, check] = uses;
    allows(json, options.is_json)
        && allows(svg, options.svg.is_some())
        && allows(output, options.output.is_some())
        && allows(world, options.world.is_some())
        && allows(check, options.is_check)
}

/// The words after a word. None if they begin with another one.
fn words_after<'a, 'b>(word: &str, words: &'a [&'b str]) -> Option<&'a [&'b str]> {
    match words.first() {
        Some(first) if *first == word => words.get(1..),
        _ => None,
    }
}

/// The words after those that a command begins with. None if they begin otherwise.
fn words_of<'a, 'b>(name: &str, second: &str, words: &'a [&'b str]) -> Option<&'a [&'b str]> {
    let words = words_after(name, words)?;
    if second.is_empty() {
        return Some(words);
    }
    words_after(second, words)
}

/// The command that words and options ask for. None if there is none.
pub fn asked_for<'a, 'b>(options: &'a Options<'b>) -> Option<Asked<'a, 'b>> {
    for (name, second, (least, most), uses, verb) in &COMMANDS {
        if let Some(words) = words_of(name, second, options.words.as_slice())
            && *least <= words.len()
            && words.len() <= *most
            && takes(*uses, options)
        {
            return Some(Asked {
                verb: *verb,
                words,
                options,
            });
        }
    }
    None
}
