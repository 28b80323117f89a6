//! Texts as constants.

use text_builder::TextBuilder;

/// A C compiler need not take a string of more bytes.
const MAX_STRING: usize = 4095;

/// The numbers of a line.
const NUMBERS: usize = 24;

/// Appends a text as a string of C.
fn push_lines(text: &mut TextBuilder, constant: &str, content: &str) {
    text.push_three("static const char ", constant, "[] =");
    for line in content.lines() {
        text.push_three("\n    \"", line, "\\n\"");
    }
    text.push(";\n");
}

/// Appends a text as the numbers of its bytes, and a 0.
fn push_numbers(text: &mut TextBuilder, constant: &str, content: &str) {
    text.push_three("static const char ", constant, "[] = {");
    for (index, byte) in content.as_bytes().iter().enumerate() {
        let blank = if index % NUMBERS == 0 { "\n    " } else { " " };
        text.push(blank);
        text.push_number(*byte as usize);
        text.push(",");
    }
    text.push("\n    0,\n};\n");
}

/// Appends a constant of C that is a text of whole lines, in which no character has to be escaped.
pub fn push_constant(text: &mut TextBuilder, constant: &str, content: &str) {
    if content.len() > MAX_STRING {
        push_numbers(text, constant, content);
    } else {
        push_lines(text, constant, content);
    }
}
