//! How often each answer comes.

use ctype_bin::BinError;
use error_numbers::Numbered;
use opening::{OpenError, binary_number};
use text_builder::TextBuilder;

/// How often inputs are refused with each error, by its number, and at 0 how often with none.
#[derive(Drop)]
pub struct Tally([usize; 100]);

/// The number of the error that an input is refused with, or 0.
pub fn opened_number<T: Drop>(answer: Result<T, OpenError>) -> u32 {
    match answer {
        Ok(_) => 0,
        Err(error) => error.number(),
    }
}

/// The number of the error that the bytes of a component are refused with, or 0.
pub fn decoded_number<T: Drop>(answer: Result<T, BinError>) -> u32 {
    match answer {
        Ok(_) => 0,
        Err(error) => binary_number(&error),
    }
}

/// Writes how often an answer came, which a word tells if it is no error.
fn push_count(text: &mut TextBuilder, number: usize, count: usize, word: &str) {
    text.push_number(count);
    if number == 0 {
        text.push(" ");
        text.push(word);
    } else {
        text.push(" error ");
        text.push_number(number);
    }
}

impl Tally {
    pub fn new() -> Tally {
        Tally([0; 100])
    }

    /// Counts an answer of this number.
    pub fn take(&mut self, number: u32) {
        if let Some(count) = self.0.get_mut(number as usize) {
            *count = usize::saturating_add(*count, 1);
        }
    }

    /// Writes how often each answer came that came at all, or that none did. The word is of inputs without an error.
    pub fn push_to(&self, text: &mut TextBuilder, word: &str) {
        let mut kinds: usize = 0;
        for (number, count) in self.0.iter().enumerate() {
            if *count > 0 {
                text.separate(kinds, ", ");
                push_count(text, number, *count, word);
                kinds = kinds.saturating_add(1);
            }
        }
        if kinds == 0 {
            text.push("none");
        }
    }
}
