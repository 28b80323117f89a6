//! Names near a word: those that somebody may have meant who wrote it.
//!
//! `nearest` compares a word with names. It counts the letters that are put in, left out or changed, and neighbours
//! that are exchanged. The rest are tables and rules: words of other languages, with what WIT writes for them,
//! characters that look like those of ASCII, and how names and versions are spelled. The crate stands on no other.
#![tactic(auto)]

mod characters;
mod foreign;
mod spelling;

pub use characters::hint_of_character;
pub use foreign::{
    begins_function, declaration, holder_for, is_constant, is_float, is_nothing, type_for,
};
pub use spelling::{has_three_numbers, kebab, rule_of_names, version_front};
use std::alloc::{AllocError, Global};
use strsim::osa_distance;

/// The nearest of these names to a word: the first of them that has the fewest edits, at most one for each three
/// letters of the word. A name is never near to itself.
pub fn nearest<'a>(
    alloc: Global,
    word: &str,
    names: &[&'a str],
) -> Result<Option<&'a str>, AllocError> {
    let mut best = None;
    let mut most = (word.len() / 3).saturating_add(1);
    for name in names {
        let edits = osa_distance(alloc, word, name)?;
        if edits > 0 && edits < most {
            best = Some(*name);
            most = edits;
        }
    }
    Ok(best)
}

/// The question whether the nearest of these names is meant. No text if none is near.
pub fn did_you_mean(alloc: Global, word: &str, names: &[&str]) -> Result<String, AllocError> {
    match nearest(alloc, word, names)? {
        Some(name) => format!(in alloc; "did you mean `{name}`?"),
        None => Ok(String::new(alloc)),
    }
}
