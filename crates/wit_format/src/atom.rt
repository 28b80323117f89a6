//! Atoms: the pieces of a text that are no blanks, with the room before each.

use crate::solid::is_solid;
use std::alloc::{AllocError, Global};
use wit_tokens::{Piece, PieceKind};

/// What is between two atoms.
#[derive(Clone, Copy, PartialEq, Eq)]
pub enum Room {
    Nothing,
    /// Blanks in which no line ends.
    Blanks,
    /// A line ends.
    LineEnd,
    /// A line without anything is between them, or several.
    EmptyLine,
}

/// A piece that is no blanks, with the room before it.
#[derive(Clone, Copy)]
pub struct Atom {
    pub kind: PieceKind,
    pub start: u32,
    pub end: u32,
    pub room: Room,
}

impl Atom {
    /// Whether the grammar sees it.
    pub fn is_word(self) -> bool {
        matches!(self.kind, PieceKind::Token(_) | PieceKind::BadWord)
    }

    /// Whether it begins behind a line end.
    pub fn is_behind_line(self) -> bool {
        matches!(self.room, Room::LineEnd | Room::EmptyLine)
    }

    /// Its bytes.
    pub fn text(self, text: &str) -> &str {
        text.get(self.start as usize..self.end as usize)
            .unwrap_or("")
    }

    /// How many bytes it has.
    pub fn width(self) -> usize {
        self.end.saturating_sub(self.start) as usize
    }

    /// Whether it is a comment to the end of its line.
    pub fn is_line_comment(self, text: &str) -> bool {
        self.kind == PieceKind::Comment && self.text(text).starts_with("//")
    }
}

/// The room that blanks make.
fn room_of(blanks: &[u8]) -> Room {
    match blanks.iter().filter(|byte| **byte == b'\n').count() {
        0 => Room::Blanks,
        1 => Room::LineEnd,
        _ => Room::EmptyLine,
    }
}

/// The atoms of a text that has these pieces.
pub fn atoms_of(alloc: Global, text: &[u8], pieces: &[Piece]) -> Result<Vec<Atom>, AllocError> {
    let mut atoms = Vec::with_capacity(alloc, pieces.len())?;
    let mut room = Room::Nothing;
    for piece in pieces {
        let (start, end) = (piece.start, piece.end);
        if is_solid(piece.kind) {
            atoms.push(Atom {
                kind: piece.kind,
                start,
                end,
                room,
            })?;
            room = Room::Nothing;
        } else {
            room = room_of(text.get(start as usize..end as usize).unwrap_or(&[]));
        }
    }
    Ok(atoms)
}
