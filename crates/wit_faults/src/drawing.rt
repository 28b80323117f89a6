//! A line of a text, with carets under a part of it.

use crate::paint::{Paint, Part};
use std::alloc::Global;
use text_builder::TextBuilder;
use unicode_width::UnicodeWidthChar;
use wit_hints::source_lines::{Place, place_at};
use wit_places::Lexed;
use wit_text::Span;

/// The columns that a character takes in a terminal. A tab is told apart by the caller.
fn columns(character: char) -> usize {
    character.width().unwrap_or(1)
}

/// Appends a text of one line as it can be shown: control characters other than tabs are replaced.
fn push_shown(out: &mut TextBuilder, text: &str) {
    for character in text.chars() {
        let is_shown = character == '\t' || !character.is_control();
        out.push_char(if is_shown { character } else { '\u{FFFD}' });
    }
}

/// Appends blanks as wide as a text. A tab stays a tab.
fn push_blanks(out: &mut TextBuilder, text: &str) {
    for character in text.chars() {
        if character == '\t' {
            out.push("\t");
        } else {
            out.push_times(' ', columns(character));
        }
    }
}

/// How many columns the carets under a text take: at least one.
fn carets(text: &str) -> usize {
    let mut count: usize = 0;
    for character in text.chars() {
        count = count.saturating_add(columns(character));
    }
    count.max(1)
}

/// The part of a line that a span covers, from where the span begins.
fn covered(behind: &str, span: Span) -> &str {
    let length = span.end.saturating_sub(span.start).min(behind.len());
    behind.get(..length).unwrap_or(behind)
}

/// Appends what stands before a line or its carets: a text, and a bar.
fn push_gutter(out: &mut TextBuilder, paint: Paint, text: &str) {
    paint.begin(out, Part::Gutter);
    out.push_three(" ", text, " |");
    paint.end(out);
    out.push(" ");
}

/// A fault as it is shown: of which file, where, what it is, and what to do about it.
#[derive(Clone, Copy)]
pub struct Fault<'a> {
    pub lexed: &'a Lexed<'a>,
    pub span: Option<Span>,
    pub words: &'a str,
    /// No text if there is nothing to say.
    pub hint: &'a str,
}

/// Appends the line of a place, which has this number.
fn push_source(out: &mut TextBuilder, paint: Paint, place: &Place<'_>, number: &str) {
    push_gutter(out, paint, number);
    push_shown(out, place.before);
    push_shown(out, behind(place));
    out.push("\n");
}

/// Appends carets under what the span covers.
fn push_carets(out: &mut TextBuilder, paint: Paint, place: &Place<'_>, span: Span) {
    push_blanks(out, place.before);
    paint.begin(out, Part::Carets);
    out.push_times('^', carets(covered(behind(place), span)));
    paint.end(out);
    out.push("\n");
}

/// What a line has from a place on.
fn behind<'a>(place: &Place<'a>) -> &'a str {
    place.behind.strip_suffix("\r").unwrap_or(place.behind)
}

/// As many blanks as the number of a line has digits at most.
static BLANKS: &str = "                    ";

/// As many blanks as a number has digits.
fn blanks(number: &str) -> &'static str {
    BLANKS.get(..number.len()).unwrap_or(BLANKS)
}

/// Where a span begins in a text.
fn found(text: &str, span: Option<Span>) -> Option<(Span, Place<'_>)> {
    let span = span?;
    Some((span, place_at(text, span.start)?))
}

/// Appends the path of a file, and the place if there is one.
fn push_place(out: &mut TextBuilder, path: &str, place: Option<&Place<'_>>) {
    out.push(path);
    out.push(":");
    if let Some(place) = place {
        out.push_number(place.line);
        out.push(":");
        out.push_number(place.column);
        out.push(":");
    }
}

/// Appends the line that says what a fault is.
fn push_head(out: &mut TextBuilder, paint: Paint, fault: &Fault<'_>, place: Option<&Place<'_>>) {
    paint.begin(out, Part::Place);
    push_place(out, fault.lexed.path, place);
    paint.end(out);
    out.push(" ");
    paint.push(out, Part::Words, fault.words);
    out.push("\n");
}

/// Appends `file:line:column: words`, the line with carets under the span, and the hint. Without a place in the text,
/// no line.
pub fn push_fault(out: &mut TextBuilder, alloc: Global, paint: Paint, fault: &Fault<'_>) {
    match found(fault.lexed.text, fault.span) {
        Some((span, place)) => {
            push_head(out, paint, fault, Some(&place));
            let number = out.kept(place.line.to_string(alloc));
            push_source(out, paint, &place, number.as_str());
            push_gutter(out, paint, blanks(number.as_str()));
            push_carets(out, paint, &place, span);
        }
        None => push_head(out, paint, fault, None),
    }
    if !fault.hint.is_empty() {
        out.push("   = ");
        paint.push(out, Part::Hint, fault.hint);
        out.push("\n");
    }
}
