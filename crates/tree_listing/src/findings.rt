//! The findings of a text, as a line of JSON each.

use std::io;
use wit_rules::{Finding, Severity};

/// Prints a character of a JSON string.
fn print_character(rt: &HostRuntime, character: char) -> io::Result<()> {
    match character {
        '"' => print!(rt; "\\\""),
        '\\' => print!(rt; "\\\\"),
        control if control < ' ' => {
            let code = control as u32;
            print!(rt; "\\u{code:04x}")
        }
        _ => print!(rt; "{character}"),
    }
}

/// Prints a text as a JSON string.
fn print_text(rt: &HostRuntime, text: &str) -> io::Result<()> {
    print!(rt; "\"")?;
    for character in text.chars() {
        print_character(rt, character)?;
    }
    print!(rt; "\"")
}

/// Prints a member that has bytes and a text, behind a comma.
fn print_part(rt: &HostRuntime, name: &str, bytes: (usize, usize), text: &str) -> io::Result<()> {
    let (start, end) = bytes;
    print!(rt; ",\"{name}\":[{start},{end},")?;
    print_text(rt, text)?;
    print!(rt; "]")
}

/// Prints a member that is a text, behind a comma.
fn print_member(rt: &HostRuntime, name: &str, text: &str) -> io::Result<()> {
    print!(rt; ",\"{name}\":")?;
    print_text(rt, text)
}

/// Prints a finding.
pub fn list_finding(rt: &HostRuntime, finding: &Finding) -> io::Result<()> {
    let (number, start, end) = (finding.number, finding.start, finding.end);
    let is_note = finding.severity() == Severity::Note;
    print!(rt; "{{\"number\":{number},\"note\":{is_note},\"start\":{start},\"end\":{end}")?;
    print_member(rt, "headline", finding.headline.as_str())?;
    print_member(rt, "hint", finding.hint.as_str())?;
    if let Some(related) = &finding.related {
        print_part(rt, "related", (related.start, related.end), related.message)?;
    }
    if let Some(edit) = &finding.edit {
        print_part(rt, "edit", (edit.start, edit.end), edit.text.as_str())?;
    }
    println!(rt; "}}")
}
