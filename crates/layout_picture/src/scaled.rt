//! Diagrams as rectangles of an SVG picture.

use crate::cells::{Cell, Diagram, Lane, Note};
use crate::rows::{Piece, Row, label_of, rows_of};
use std::alloc::Global;
use svg_drawing::{Area, Drawing, Fill, Ink, Point};

/// The bytes of a row.
const ROW: u32 = 16;

/// The pixels of a byte, which is as wide everywhere.
const BYTE: u32 = 48;

/// The pixels of a row of boxes.
const HEIGHT: u32 = 26;

/// The pixels of a line of text.
pub const LINE: u32 = 18;

/// The pixels between two cases.
const GAP: u32 = 16;

/// Where boxes begin. Offsets end before it.
const LEFT: u32 = 72;

/// How many characters fit into a byte.
const CHARACTERS: usize = 6;

/// Adds a text before the boxes.
fn push_margin(drawing: &mut Drawing, y: u32, text: &str) {
    let x = LEFT - 8;
    drawing.text_before(Point { x, y }, Ink::Dim, text);
}

/// Adds an offset before the boxes.
fn push_offset(alloc: Global, drawing: &mut Drawing, y: u32, offset: u32) {
    let text = drawing.kept(format!(in alloc; "{offset}"));
    push_margin(drawing, y, text.as_str());
}

/// Adds the rectangle of a piece.
fn push_rectangle(alloc: Global, drawing: &mut Drawing, area: Area, cell: &Cell) {
    let (offset, size, text) = (cell.offset, cell.size, cell.text.as_str());
    let about = drawing.kept(format!(in alloc; "{offset}: {text}, size {size}"));
    let fill = match cell.member {
        Some(member) => Fill::Hue(member),
        None => Fill::Hatched,
    };
    drawing.rectangle(area, fill, about.as_str());
}

/// Adds the words of a piece that begins at a place.
fn push_label(alloc: Global, drawing: &mut Drawing, at: Point, piece: &Piece<'_>) {
    let room = (piece.size as usize)
        .saturating_mul(CHARACTERS)
        .saturating_sub(1);
    let label = drawing.kept(label_of(alloc, piece, room));
    if !label.is_empty() {
        drawing.text(at, Ink::Plain, label.as_str());
    }
}

/// Adds the box of a piece, with its words.
fn push_piece(alloc: Global, drawing: &mut Drawing, top: u32, piece: &Piece<'_>) {
    let left = LEFT.saturating_add(piece.column.saturating_mul(BYTE));
    let area = Area {
        left,
        top,
        width: piece.size.saturating_mul(BYTE),
        height: HEIGHT,
    };
    push_rectangle(alloc, drawing, area, piece.cell);
    let at = Point {
        x: left.saturating_add(5),
        y: top.saturating_add(17),
    };
    push_label(alloc, drawing, at, piece);
}

/// Adds what is told of bytes that are left out after a row that ends here. Returns where it ends.
fn push_gap(alloc: Global, drawing: &mut Drawing, bottom: u32, skipped: u32) -> u32 {
    if skipped == 0 {
        return bottom;
    }
    let at = Point {
        x: LEFT.saturating_add(5),
        y: bottom.saturating_add(13),
    };
    let words = drawing.kept(format!(in alloc; ".. {skipped} bytes are left out"));
    drawing.text(at, Ink::Dim, words.as_str());
    bottom.saturating_add(LINE)
}

/// Adds a row, and what is told of bytes that are left out after it. Returns where it ends.
fn push_row(alloc: Global, drawing: &mut Drawing, top: u32, row: &Row<'_>) -> u32 {
    push_offset(alloc, drawing, top.saturating_add(17), row.offset);
    for piece in &row.pieces {
        push_piece(alloc, drawing, top, piece);
    }
    push_gap(alloc, drawing, top.saturating_add(HEIGHT), row.skipped)
}

/// Adds the rows of a lane. Returns where they end.
fn push_lane(alloc: Global, drawing: &mut Drawing, top: u32, lane: &Lane) -> u32 {
    let mut bottom = top;
    match rows_of(alloc, lane, ROW) {
        Ok(rows) => {
            for row in &rows {
                bottom = push_row(alloc, drawing, bottom, row);
            }
        }
        Err(_) => drawing.refuse(),
    }
    bottom
}

/// Adds the numbers of the bytes of a row. Returns where they end.
fn push_ruler(alloc: Global, drawing: &mut Drawing, top: u32, size: u32) -> u32 {
    if size < 2 {
        return top.saturating_add(4);
    }
    for byte in 0..size.min(ROW) {
        let at = Point {
            x: LEFT
                .saturating_add(byte.saturating_mul(BYTE))
                .saturating_add(BYTE / 2),
            y: top.saturating_add(13),
        };
        let number = drawing.kept(format!(in alloc; "{byte}"));
        drawing.text_around(at, Ink::Dim, number.as_str());
    }
    top.saturating_add(LINE)
}

/// Adds the boxes of a diagram of a type of this size. Returns where they end.
pub fn push_scaled(
    alloc: Global,
    drawing: &mut Drawing,
    from: (u32, u32),
    diagram: &Diagram,
) -> u32 {
    let (top, size) = from;
    let mut bottom = push_ruler(alloc, drawing, top, size);
    for (index, lane) in diagram.lanes.iter().enumerate() {
        if index > 0 {
            push_margin(drawing, bottom.saturating_add(12), "or");
            bottom = bottom.saturating_add(GAP);
        }
        bottom = push_lane(alloc, drawing, bottom, lane);
    }
    bottom.saturating_add(4)
}

/// Adds the list below boxes. Returns where it ends.
pub fn push_list(alloc: Global, drawing: &mut Drawing, top: u32, notes: &[Note]) -> u32 {
    let mut bottom = top;
    for note in notes {
        let y = bottom.saturating_add(13);
        if let Some(offset) = note.offset {
            push_offset(alloc, drawing, y, offset);
        }
        drawing.text(Point { x: LEFT, y }, Ink::Dim, note.text.as_str());
        bottom = bottom.saturating_add(LINE);
    }
    bottom
}
