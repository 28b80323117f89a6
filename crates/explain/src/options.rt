//! The words of a command line: options, and the others.

use std::alloc::{AllocError, Global};

/// When what is printed is colored.
#[derive(Clone, Copy, PartialEq, Eq)]
pub enum ColorChoice {
    Auto,
    Always,
    Never,
}

/// An option whose word comes next.
#[derive(Clone, Copy, PartialEq, Eq)]
enum Pending {
    Color,
    Svg,
    Output,
    World,
}

/// What an option says.
#[derive(Clone, Copy, PartialEq, Eq)]
enum Kind {
    Help,
    Json,
    Check,
    /// The word after it, or after its `=`.
    Valued(Pending),
}

/// The options.
static OPTIONS: [(&str, Kind); 7] = [
    ("--help", Kind::Help),
    ("--json", Kind::Json),
    ("--check", Kind::Check),
    ("--color", Kind::Valued(Pending::Color)),
    ("--svg", Kind::Valued(Pending::Svg)),
    ("--output", Kind::Valued(Pending::Output)),
    ("--world", Kind::Valued(Pending::World)),
];

/// What words are.
#[derive(Clone, Copy)]
pub enum Parsed<'a> {
    Options,
    /// An option that there isn't.
    Unknown(&'a str),
    /// An option lacks its word, or has another one than those that it takes.
    Incomplete,
}

/// What the words say.
#[derive(Drop)]
pub struct Options<'a> {
    /// The words that are no options.
    pub words: Vec<&'a str>,
    pub color: ColorChoice,
    pub is_json: bool,
    /// No file is written.
    pub is_check: bool,
    pub is_help: bool,
    /// The file for a picture.
    pub svg: Option<&'a str>,
    /// The file for a binary.
    pub output: Option<&'a str>,
    /// The name of the world that is wanted.
    pub world: Option<&'a str>,
    pending: Option<Pending>,
    /// `--` came: no word after it is an option.
    is_over: bool,
}

fn color_of(word: &str) -> Option<ColorChoice> {
    match word {
        "auto" => Some(ColorChoice::Auto),
        "always" => Some(ColorChoice::Always),
        "never" => Some(ColorChoice::Never),
        _ => None,
    }
}

/// The name of an option, which may have its word after a `=`.
fn name_of(word: &str) -> &str {
    match word.split_once('=') {
        Some((name, _)) => name,
        None => word,
    }
}

/// What an option of this name says.
fn kind_of(name: &str) -> Option<Kind> {
    for (option, kind) in &OPTIONS {
        if *option == name {
            return Some(*kind);
        }
    }
    None
}

/// The names of the options.
pub fn names_of_options(alloc: Global) -> Result<Vec<&'static str>, AllocError> {
    let mut names = Vec::new(alloc);
    for (option, _) in &OPTIONS {
        names.push(*option)?;
    }
    Ok(names)
}

impl<'a> Options<'a> {
    /// Nothing yet.
    pub fn new(alloc: Global) -> Options<'a> {
        Options {
            words: Vec::new(alloc),
            color: ColorChoice::Auto,
            is_json: false,
            is_check: false,
            is_help: false,
            svg: None,
            output: None,
            world: None,
            pending: None,
            is_over: false,
        }
    }

    /// Takes the word of an option. False if it is none that the option has.
    fn take_value(&mut self, option: Pending, word: &'a str) -> bool {
        match option {
            Pending::Svg => self.svg = Some(word),
            Pending::Output => self.output = Some(word),
            Pending::World => self.world = Some(word),
            Pending::Color => match color_of(word) {
                Some(color) => self.color = color,
                None => return false,
            },
        }
        true
    }

    /// Takes an option. False if there is none of this name, or if it takes no such word.
    fn take_option(&mut self, word: &'a str) -> bool {
        match (kind_of(name_of(word)), word.split_once('=')) {
            (Some(Kind::Help), None) => self.is_help = true,
            (Some(Kind::Json), None) => self.is_json = true,
            (Some(Kind::Check), None) => self.is_check = true,
            (Some(Kind::Valued(option)), None) => self.pending = Some(option),
            (Some(Kind::Valued(option)), Some((_, value))) => {
                return self.take_value(option, value);
            }
            _ => return false,
        }
        true
    }

    /// Takes a word. False if it is an option that there isn't, or a word that an option doesn't take.
    fn take(&mut self, word: &'a str) -> Result<bool, AllocError> {
        if let Some(option) = self.pending {
            self.pending = None;
            return Ok(self.take_value(option, word));
        }
        match word {
            _ if self.is_over => self.words.push(word)?,
            "--" => self.is_over = true,
            "-o" => self.pending = Some(Pending::Output),
            "-h" => self.is_help = true,
            _ if word.starts_with("--") && word != "--version" => return Ok(self.take_option(word)),
            _ => self.words.push(word)?,
        }
        Ok(true)
    }

    /// Takes words.
    pub fn take_all(&mut self, words: &[&'a str]) -> Result<Parsed<'a>, AllocError> {
        for word in words {
            let is_value = self.pending.is_some();
            if !self.take(word)? {
                return Ok(if is_value || kind_of(name_of(word)).is_some() {
                    Parsed::Incomplete
                } else {
                    Parsed::Unknown(word)
                });
            }
        }
        if self.pending.is_some() {
            return Ok(Parsed::Incomplete);
        }
        Ok(Parsed::Options)
    }
}
