//! Words of labels.

use text_builder::TextBuilder;

/// Whether a word is among these, which blanks separate.
pub fn is_among(words: &str, word: &str) -> bool {
    for other in words.split_whitespace() {
        if other == word {
            return true;
        }
    }
    false
}

/// Appends a word with a capital, and all else in lower case.
pub fn push_capital(name: &mut TextBuilder, word: &str) {
    for (index, character) in word.chars().enumerate() {
        if index == 0 {
            name.push_char(character.to_ascii_uppercase());
        } else {
            name.push_char(character.to_ascii_lowercase());
        }
    }
}

/// Appends the words of a label, each with a capital.
pub fn push_capitals(name: &mut TextBuilder, label: &str) {
    for word in label.split('-') {
        push_capital(name, word);
    }
}
