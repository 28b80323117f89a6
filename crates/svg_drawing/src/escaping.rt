//! Texts in XML.

use text_builder::TextBuilder;

/// Whether a document of XML may have a character.
fn is_allowed(character: char) -> bool {
    match character {
        '\t' | '\n' | '\r' => true,
        '\u{fffe}' | '\u{ffff}' => false,
        _ => character >= ' ',
    }
}

/// Appends a character, or what XML writes for it. One that it may not have is `U+FFFD`.
fn push_character(out: &mut TextBuilder, character: char) {
    match character {
        '<' => out.push("&lt;"),
        '>' => out.push("&gt;"),
        '&' => out.push("&amp;"),
        _ if is_allowed(character) => out.push_char(character),
        _ => out.push_char('\u{fffd}'),
    }
}

/// Appends a text with what XML writes for some characters.
pub fn push_escaped(out: &mut TextBuilder, text: &str) {
    for character in text.chars() {
        push_character(out, character);
    }
}
