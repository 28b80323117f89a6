//! How names and versions are spelled.

use std::alloc::{AllocError, Global};

/// Whether a capital letter begins a word of a name: it comes after none, or before a small one.
fn begins_word(before: char, character: char, next: char) -> bool {
    character.is_ascii_uppercase() && (!before.is_ascii_uppercase() || next.is_ascii_lowercase())
}

/// Appends a character of a name after another one, with a hyphen before it if it begins a word.
fn push_letter(name: &mut String, character: char, begins: bool) -> Result<(), AllocError> {
    if matches!(character, '-' | '_') {
        return Ok(());
    }
    if begins && !name.is_empty() && !character.is_ascii_digit() {
        name.push('-')?;
    }
    name.push(character.to_ascii_lowercase())
}

/// Appends a name in kebab case.
fn push_kebab(name: &mut String, word: &str) -> Result<(), AllocError> {
    let mut before = '-';
    let mut nexts = word.chars();
    let _ = nexts.next();
    for character in word.chars() {
        let next = nexts.next().unwrap_or(' ');
        let begins = matches!(before, '-' | '_') || begins_word(before, character, next);
        push_letter(name, character, begins)?;
        before = character;
    }
    Ok(())
}

/// A name in kebab case: its words in lower case, with one hyphen in place of each run of `-` and `_`, and one before a
/// capital letter that begins a word. No hyphen begins or ends it, and none comes before a digit.
pub fn kebab(alloc: Global, word: &str) -> Result<String, AllocError> {
    let mut name = String::new(alloc);
    push_kebab(&mut name, word)?;
    Ok(name)
}

/// Whether a word has a capital letter.
fn has_capital(word: &str) -> bool {
    for character in word.chars() {
        if character.is_ascii_uppercase() {
            return true;
        }
    }
    false
}

/// The rule that a word breaks which is no name.
pub fn rule_of_names(word: &str) -> &'static str {
    if word.contains("_") {
        return "names are joined by `-`, not by `_`";
    }
    if has_capital(word) {
        return "a name is words joined by `-`, each in one case";
    }
    if word.contains("--") || word.starts_with("-") || word.ends_with("-") {
        return "words are joined by one `-`";
    }
    "a word that begins with a digit is not read here"
}

/// The longest front of a text that may be of a version.
pub fn version_front(alloc: Global, text: &str) -> Result<String, AllocError> {
    let mut number = String::new(alloc);
    for character in text.chars() {
        if !character.is_ascii_alphanumeric() && !matches!(character, '.' | '-' | '+') {
            break;
        }
        number.push(character)?;
    }
    Ok(number)
}

/// Whether a text is three numbers with dots between them, as a version has them.
pub fn has_three_numbers(text: &str) -> bool {
    let mut dots: usize = 0;
    let mut before = '.';
    for character in text.chars() {
        if character == '.' && before != '.' {
            dots = dots.saturating_add(1);
        } else if !character.is_ascii_digit() {
            return false;
        }
        before = character;
    }
    dots == 2 && before != '.'
}
