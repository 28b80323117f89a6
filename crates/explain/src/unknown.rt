//! What is said about words that are no command.

use crate::help::{help_of, names_of_commands, usage};
use crate::options::names_of_options;
use near_names::did_you_mean;
use std::alloc::{AllocError, Global};

/// The help of the program, below a line that says which word it doesn't know, with the nearest of those that it does.
fn refusal(alloc: Global, thing: &str, word: &str, known: &[&str]) -> Result<String, AllocError> {
    let near = did_you_mean(alloc, word, known)?;
    let before = if near.is_empty() { "" } else { "; " };
    let (near, usage) = (near.as_str(), usage());
    format!(in alloc; "no {thing} `{word}`{before}{near}\n\n{usage}")
}

/// What to say about an option that there isn't.
pub fn refusal_of_option(alloc: Global, option: &str) -> Result<String, AllocError> {
    let known = names_of_options(alloc)?;
    refusal(alloc, "option", option, known.as_slice())
}

/// What to say about words of which the first is to be a command: the help alone, if it is one.
pub fn refusal_of_words(alloc: Global, words: &[&str]) -> Result<String, AllocError> {
    let Some(first) = words.first() else {
        return String::from_str(alloc, usage());
    };
    if help_of(first).is_some() || *first == "--version" {
        return String::from_str(alloc, usage());
    }
    if first.starts_with("-") {
        return refusal_of_option(alloc, first);
    }
    let known = names_of_commands(alloc)?;
    refusal(alloc, "command", first, known.as_slice())
}
