//! Lanes in rows of so many bytes.

use crate::cells::{Cell, Lane};
use std::alloc::{AllocError, Global};

/// The bytes that a cell has in a row.
#[derive(Clone, Copy)]
pub struct Piece<'a> {
    pub cell: &'a Cell,
    /// How many bytes are before it in the row.
    pub column: u32,
    /// In bytes.
    pub size: u32,
    /// Whether the cell begins with it.
    pub is_first: bool,
    /// Whether the cell ends with it.
    pub is_last: bool,
}

/// Some bytes of a lane.
#[derive(Drop)]
pub struct Row<'a> {
    /// The offset of the first byte.
    pub offset: u32,
    pub pieces: Vec<Piece<'a>>,
    /// How many bytes are left out after the row, all of one cell.
    pub skipped: u32,
}

/// How many rows a cell has at most. If it has more, those in the middle are left out.
const MOST_ROWS: u32 = 4;

/// The rows so far.
#[derive(Drop)]
struct Rows<'a> {
    alloc: Global,
    /// The bytes of a row.
    width: u32,
    list: Vec<Row<'a>>,
    /// The row that is not full yet.
    pieces: Vec<Piece<'a>>,
    offset: u32,
    column: u32,
    /// Whether no allocation was refused.
    is_whole: bool,
}

/// How many of the bytes that a cell has left are left out: whole rows, so that one row or less is left.
fn skipped_of(left: u32, width: u32) -> u32 {
    let rows = left.saturating_sub(1).checked_div(width).unwrap_or(0);
    if rows < MOST_ROWS {
        return 0;
    }
    rows.saturating_mul(width)
}

impl<'a> Rows<'a> {
    /// Ends the row, after which so many bytes are left out.
    fn end_row(&mut self, skipped: u32) {
        let row = Row {
            offset: self.offset,
            pieces: std::mem::replace(&mut self.pieces, Vec::new(self.alloc)),
            skipped,
        };
        if self.list.push(row).is_err() {
            self.is_whole = false;
        }
        let after = self.offset.saturating_add(self.width);
        self.offset = after.saturating_add(skipped);
        self.column = 0;
    }

    /// Adds the next bytes of a cell, as many as the row has room for. Returns how many of the cell are left.
    fn push_piece(&mut self, cell: &'a Cell, left: u32) -> u32 {
        let size = self.width.saturating_sub(self.column).min(left);
        let piece = Piece {
            cell,
            column: self.column,
            size,
            is_first: left == cell.size,
            is_last: left == size,
        };
        if self.pieces.push(piece).is_err() {
            self.is_whole = false;
        }
        self.column = self.column.saturating_add(size);
        let left = left.saturating_sub(size);
        if self.column < self.width {
            return left;
        }
        let skipped = skipped_of(left, self.width);
        self.end_row(skipped);
        left.saturating_sub(skipped)
    }

    /// Adds a cell.
    fn push_cell(&mut self, cell: &'a Cell) {
        let mut left = cell.size;
        for _ in 0..MOST_ROWS + 2 {
            if left == 0 {
                break;
            }
            left = self.push_piece(cell, left);
        }
    }
}

/// The rows of a lane, each of so many bytes.
pub fn rows_of<'a>(alloc: Global, lane: &'a Lane, width: u32) -> Result<Vec<Row<'a>>, AllocError> {
    let mut rows = Rows {
        alloc,
        width,
        list: Vec::new(alloc),
        pieces: Vec::new(alloc),
        offset: 0,
        column: 0,
        is_whole: true,
    };
    for cell in lane.cells.as_slice() {
        rows.push_cell(cell);
    }
    if rows.column > 0 {
        rows.end_row(0);
    }
    if rows.is_whole {
        Ok(rows.list)
    } else {
        Err(AllocError)
    }
}

/// The words for a piece that has room for so many characters: as many as fit, of those of its cell. What is cut ends
/// in `..`, and what goes on from the row before begins with it.
pub fn label_of(alloc: Global, piece: &Piece<'_>, room: usize) -> Result<String, AllocError> {
    let (name, text) = (piece.cell.name.as_str(), piece.cell.text.as_str());
    let length = name.chars().count();
    if piece.cell.member.is_none() {
        Ok(String::new(alloc))
    } else if !piece.is_first {
        format!(in alloc; ".. {}", front_of(name, room.saturating_sub(3)))
    } else if text.chars().count() <= room {
        String::from_str(alloc, text)
    } else if length <= room {
        String::from_str(alloc, name)
    } else {
        format!(in alloc; "{}..", front_of(name, room.saturating_sub(2)))
    }
}

/// The first characters of a text.
fn front_of(text: &str, count: usize) -> &str {
    match text.char_indices().nth(count) {
        Some((place, _)) => text.get(..place).unwrap_or(""),
        None => text,
    }
}
