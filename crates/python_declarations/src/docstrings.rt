//! Comments of WIT as those of Python.

use text_builder::TextBuilder;

/// A docstring, before each line of which stands `indent`.
#[derive(Clone, Copy)]
pub struct Docstring<'a> {
    pub indent: &'a str,
    pub first: &'a str,
    /// What follows after an empty line.
    pub lines: &'a [String],
}

/// Appends a line of a docstring. A quotation mark and a backslash would end it, or stand for another character.
fn push_escaped(text: &mut TextBuilder, line: &str) {
    for character in line.chars() {
        if character == '"' || character == '\\' {
            text.push("\\");
        }
        text.push_char(character);
    }
}

/// Appends these lines, each after an indent if it isn't empty.
fn push_lines(text: &mut TextBuilder, indent: &str, lines: &[String]) {
    for line in lines {
        text.push("\n");
        if !line.is_empty() {
            text.push(indent);
            push_escaped(text, line.as_str());
        }
    }
}

impl<'a> Docstring<'a> {
    /// Writes it.
    pub fn push(&self, text: &mut TextBuilder) {
        text.push_three(self.indent, "\"\"\"", self.first);
        if !self.lines.is_empty() {
            text.push("\n");
            push_lines(text, self.indent, self.lines);
            text.push_three("\n", self.indent, "");
        }
        text.push("\"\"\"\n");
    }
}

/// Writes the comment of a field or a constant, if it has one, in a line after it.
pub fn push_attribute_docstring(text: &mut TextBuilder, indent: &str, lines: &[String]) {
    if let Some((first, rest)) = lines.split_first() {
        text.push_three(indent, "\"\"\"", "");
        push_escaped(text, first.as_str());
        if !rest.is_empty() {
            push_lines(text, indent, rest);
            text.push_three("\n", indent, "");
        }
        text.push("\"\"\"\n");
    }
}

/// Writes lines as comments. A carriage return would end one.
pub fn push_comment_lines(text: &mut TextBuilder, indent: &str, lines: &[String]) {
    for line in lines {
        text.push_three(indent, "# ", "");
        for character in line.chars() {
            text.push_char(if character == '\r' { ' ' } else { character });
        }
        text.push("\n");
    }
}
