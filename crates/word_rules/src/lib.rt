//! Rules of words: what to do about characters and words that WIT does not have.
//!
//! `of_character` is for what begins no token, `of_bad_word` for a word that is no name, and `of_holder` for one before
//! a `<` that holds no types. Words of other languages are known by `near_names`. `wit_rules` has the rules of the
//! grammar. It stands on `wit_findings`.
#![tactic(auto)]

mod characters;
mod words;

pub use characters::of_character;
pub use words::{meant, of_bad_word, of_holder, of_package_name};
