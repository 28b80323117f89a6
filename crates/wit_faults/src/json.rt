//! Faults as JSON, for editors.

use crate::drawing::Fault;
use std::alloc::Global;
use text_builder::TextBuilder;
use wit_hints::source_lines::place_at;
use wit_text::Span;

/// Appends a character of a JSON string.
fn push_character(out: &mut TextBuilder, alloc: Global, character: char) {
    match character {
        '"' => out.push("\\\""),
        '\\' => out.push("\\\\"),
        '\n' => out.push("\\n"),
        '\r' => out.push("\\r"),
        '\t' => out.push("\\t"),
        control if control < ' ' => {
            let code = control as u32;
            out.push_made(format!(in alloc; "\\u{code:04x}"));
        }
        _ => out.push_char(character),
    }
}

/// Appends a text as a JSON string.
fn push_string(out: &mut TextBuilder, alloc: Global, text: &str) {
    out.push("\"");
    for character in text.chars() {
        push_character(out, alloc, character);
    }
    out.push("\"");
}

/// Appends a member that is a number, and a comma.
fn push_number(out: &mut TextBuilder, name: &str, number: usize) {
    out.push_three("\"", name, "\":");
    out.push_number(number);
    out.push(",");
}

/// Appends where a span begins and ends, if the text has these places.
fn push_span(out: &mut TextBuilder, text: &str, span: Span) {
    let (Some(start), Some(end)) = (place_at(text, span.start), place_at(text, span.end)) else {
        return;
    };
    push_number(out, "line", start.line);
    push_number(out, "column", start.column);
    push_number(out, "endLine", end.line);
    push_number(out, "endColumn", end.column);
}

/// The number of an error's words, `error NUMBER ..`.
fn number_of(words: &str) -> Option<&str> {
    let (number, _) = words.strip_prefix("error ")?.split_once(' ')?;
    Some(number)
}

/// Appends a fault as an object: its file, its place if it has one, its number if it has one, its words, and its hint
/// if there is one.
pub fn push_object(out: &mut TextBuilder, alloc: Global, fault: &Fault<'_>) {
    out.push("{\"file\":");
    push_string(out, alloc, fault.lexed.path);
    out.push(",");
    if let Some(span) = fault.span {
        push_span(out, fault.lexed.text, span);
    }
    if let Some(number) = number_of(fault.words) {
        out.push_three("\"error\":", number, ",");
    }
    out.push("\"message\":");
    push_string(out, alloc, fault.words);
    if !fault.hint.is_empty() {
        out.push(",\"hint\":");
        push_string(out, alloc, fault.hint);
    }
    out.push("}");
}
