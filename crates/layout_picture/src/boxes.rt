//! Diagrams as boxes of characters, for a terminal.

use crate::cells::{Diagram, Lane, Note};
use crate::rows::{Piece, Row, label_of, rows_of};
use std::alloc::{AllocError, Global};
use text_builder::TextBuilder;

/// The bytes of a row.
const ROW: u32 = 8;

/// The characters of a byte, with the line before it.
const BYTE: usize = 8;

/// What is before a line that has no offset and no word before it.
const MARGIN: &str = "         ";

/// A line of characters, from the line before its first byte to that after its last.
#[derive(Drop)]
struct Line {
    /// The offset before it, if it has one.
    offset: Option<u32>,
    text: String,
    /// What is before the line above it.
    before: &'static str,
    /// Where the last cell begins, if it goes on in the next line. Otherwise it is beyond the end.
    opens: usize,
    /// Where the first cell ends, if it goes on from the line before. Otherwise it is 0.
    closes: usize,
}

impl Line {
    fn new(text: String) -> Line {
        Line {
            offset: None,
            text,
            before: MARGIN,
            opens: usize::MAX,
            closes: 0,
        }
    }

    /// Notes which of its cells go on from the line before or in the next line.
    fn join(&mut self, pieces: &[Piece<'_>]) {
        for piece in pieces {
            if !piece.is_last {
                self.opens = (piece.column as usize).saturating_mul(BYTE);
            }
            if !piece.is_first {
                self.closes = (piece.size as usize).saturating_mul(BYTE);
            }
        }
    }
}

/// Appends the bytes of a piece: its words, and then blanks or the shade of padding.
fn push_piece(alloc: Global, text: &mut TextBuilder, piece: &Piece<'_>) {
    let room = (piece.size as usize).saturating_mul(BYTE).saturating_sub(1);
    if piece.cell.member.is_none() {
        text.push_times('░', room);
        return;
    }
    let label = text.kept(label_of(alloc, piece, room.saturating_sub(1)));
    text.push(" ");
    text.push(label.as_str());
    let used = label.as_str().chars().count();
    text.push_times(' ', room.saturating_sub(used).saturating_sub(1));
}

/// The text of a row.
fn row_text(alloc: Global, pieces: &[Piece<'_>]) -> Result<String, AllocError> {
    let mut text = TextBuilder::new(alloc);
    text.push("│");
    for piece in pieces {
        push_piece(alloc, &mut text, piece);
        text.push("│");
    }
    text.finish()
}

/// What is told in place of bytes that are left out, in a line of this width.
fn gap_text(alloc: Global, skipped: u32, width: usize) -> Result<String, AllocError> {
    let mut text = TextBuilder::new(alloc);
    text.push("│ .. ");
    text.push_number(skipped as usize);
    text.push(" bytes are left out");
    let used = text.as_str().chars().count();
    text.push_times(' ', width.saturating_sub(used));
    text.push("│");
    text.finish()
}

/// The lines of a diagram.
#[derive(Drop)]
struct Lines {
    alloc: Global,
    list: Vec<Line>,
    /// No text. It keeps whether an allocation was refused.
    refusals: TextBuilder,
}

impl Lines {
    fn push(&mut self, line: Line) {
        self.refusals.add(&mut self.list, line);
    }

    /// Adds the line of a row. This word is before the line above it.
    fn push_row(&mut self, before: &'static str, row: &Row<'_>) {
        let pieces = row.pieces.as_slice();
        let text = self.refusals.kept(row_text(self.alloc, pieces));
        let mut line = Line::new(text);
        line.offset = Some(row.offset);
        line.before = before;
        line.join(pieces);
        self.push(line);
    }

    /// Adds the line in place of bytes that are left out after a row, if there are some.
    fn push_gap(&mut self, skipped: u32) {
        if skipped == 0 {
            return;
        }
        let width = (ROW as usize).saturating_mul(BYTE);
        let text = self.refusals.kept(gap_text(self.alloc, skipped, width));
        let mut line = Line::new(text);
        line.opens = 0;
        line.closes = width;
        self.push(line);
    }

    /// Adds the lines of rows. This word is before the line above the first of them.
    fn push_rows(&mut self, first: &'static str, rows: &[Row<'_>]) {
        for (index, row) in rows.iter().enumerate() {
            self.push_row(if index == 0 { first } else { MARGIN }, row);
            self.push_gap(row.skipped);
        }
    }

    /// Adds the lines of a lane.
    fn push_lane(&mut self, lane: &Lane) {
        let first = if self.list.len() > 1 {
            "      or "
        } else {
            MARGIN
        };
        match rows_of(self.alloc, lane, ROW) {
            Ok(rows) => self.push_rows(first, rows.as_slice()),
            Err(_) => self.refusals.refuse(),
        }
    }

    /// Adds the lines of these lanes, between two empty ones.
    fn push_lanes(&mut self, lanes: &[Lane]) {
        self.push(Line::new(String::new(self.alloc)));
        for lane in lanes {
            self.push_lane(lane);
        }
        self.push(Line::new(String::new(self.alloc)));
    }
}

/// Where lines meet: those up, down, to the left and to the right.
fn joint(up: bool, down: bool, left: bool, right: bool) -> char {
    match (up, down, left, right) {
        (true, true, true, true) => '┼',
        (true, true, false, _) => '├',
        (true, true, true, false) => '┤',
        (true, false, true, true) => '┴',
        (true, false, false, _) => '└',
        (true, false, true, false) => '┘',
        (false, true, true, true) => '┬',
        (false, true, false, _) => '┌',
        (false, true, true, false) => '┐',
        (false, false, _, _) => '─',
    }
}

/// Appends what is between two lines. Between bytes of one cell it is dashed.
fn push_rule(out: &mut TextBuilder, above: &Line, below: &Line) {
    let (upper, lower) = (above.text.as_str(), below.text.as_str());
    let length = upper.chars().count().max(lower.chars().count());
    let (mut ups, mut downs) = (upper.chars(), lower.chars());
    out.push(below.before);
    for place in 0..length {
        let up = ups.next() == Some('│');
        let down = downs.next() == Some('│');
        let mark = joint(up, down, place > 0, length.saturating_sub(place) > 1);
        let is_one_cell = mark == '─' && above.opens < place && place < below.closes;
        out.push_char(if is_one_cell { '╌' } else { mark });
    }
    out.push("\n");
}

/// Appends the numbers of the bytes of a row.
fn push_ruler(out: &mut TextBuilder, size: u32) {
    if size < 2 {
        return;
    }
    out.push(MARGIN);
    for byte in 0..size.min(ROW) {
        out.push(if byte > 0 { "       " } else { "" });
        out.push_number(byte as usize);
    }
    out.push("\n");
}

/// Appends a line after an offset, if it has one.
fn push_line(alloc: Global, out: &mut TextBuilder, offset: Option<u32>, text: &str) {
    match offset {
        Some(offset) => out.push_made(format!(in alloc; "{offset:>8} ")),
        None => out.push(MARGIN),
    }
    out.push(text);
    out.push("\n");
}

/// Appends these lines, and what is between each two.
fn push_lines(alloc: Global, out: &mut TextBuilder, lines: &[Line]) {
    for pair in lines.windows(2) {
        let [above, below] = pair else {
            continue;
        };
        if !above.text.is_empty() {
            push_line(alloc, out, above.offset, above.text.as_str());
        }
        push_rule(out, above, below);
    }
}

/// Appends the boxes of a diagram of a type of this size.
pub fn push_boxes(alloc: Global, out: &mut TextBuilder, diagram: &Diagram, size: u32) {
    let mut lines = Lines {
        alloc,
        list: Vec::new(alloc),
        refusals: TextBuilder::new(alloc),
    };
    lines.push_lanes(diagram.lanes.as_slice());
    push_ruler(out, size);
    push_lines(alloc, out, lines.list.as_slice());
    out.append(lines.refusals);
}

/// Appends the list below boxes.
pub fn push_notes(alloc: Global, out: &mut TextBuilder, notes: &[Note]) {
    for note in notes {
        push_line(alloc, out, note.offset, note.text.as_str());
    }
}
