//! The writing of words and comments.

use crate::atom::{Atom, Room};
use crate::layout::{Gap, INDENTATION, Place};
use crate::spacing::{is_tight_before, mark_of};
use std::alloc::{AllocError, Global};
use text_builder::TextBuilder;
use wit_tokens::PieceKind;

/// Whether a word and the comments before it are on one line of the text.
fn is_on_line(word: Atom, between: &[Atom]) -> bool {
    !word.is_behind_line() && between.iter().all(|atom| !atom.is_behind_line())
}

/// What is written so far of a text.
#[derive(Drop)]
pub struct Page<'a> {
    text: &'a str,
    out: TextBuilder,
}

impl<'a> Page<'a> {
    /// Nothing yet.
    pub fn new(alloc: Global, text: &'a str) -> Page<'a> {
        Page {
            text,
            out: TextBuilder::new(alloc),
        }
    }

    /// Whether nothing is written.
    fn is_empty(&self) -> bool {
        self.out.as_str().is_empty()
    }

    /// Begins a line of so many levels, unless it is the first. An empty one is before it if it is apart.
    fn line(&mut self, depth: usize, is_apart: bool) {
        if self.is_empty() {
            return;
        }
        self.out.push(if is_apart { "\n\n" } else { "\n" });
        self.out.push_times(' ', depth.saturating_mul(INDENTATION));
    }

    /// Writes a space, unless nothing is before it.
    fn space(&mut self) {
        if !self.is_empty() {
            self.out.push(" ");
        }
    }

    /// Writes an atom.
    fn atom(&mut self, atom: Atom) {
        self.out.push(atom.text(self.text));
    }

    /// Writes a comment before a word, or a character that is none of WIT. The first is right behind the word before.
    fn comment(&mut self, atom: Atom, place: Place, is_first: bool) {
        if atom.kind == PieceKind::BadCharacter {
            if atom.room != Room::Nothing {
                self.space();
            }
        } else if atom.is_behind_line() {
            let is_apart = atom.room == Room::EmptyLine && !(is_first && place.is_first);
            self.line(place.comments, is_apart);
        } else if !(is_first && place.is_tight()) {
            self.space();
        }
        self.atom(atom);
    }

    /// Writes the comments before a word, or at the end of the text.
    pub fn comments(&mut self, between: &[Atom], place: Place) {
        for (at, atom) in between.iter().enumerate() {
            self.comment(*atom, place, at == 0);
        }
    }

    /// Writes what is between a word and the last comment before it, or a character that is none of WIT.
    fn room_behind(&mut self, between: &[Atom], place: Place, word: Atom) {
        let Some(last) = between.last() else {
            return;
        };
        let has_line = between.iter().any(|atom| atom.is_behind_line());
        let is_line = place.gap == Gap::Line || (place.is_end && has_line);
        let stays = has_line && !word.is_behind_line() && !place.is_end;
        if last.kind == PieceKind::BadCharacter {
            if word.room != Room::Nothing {
                self.space();
            }
        } else if last.is_line_comment(self.text) || (is_line && !stays) {
            let is_apart = place.gap == Gap::Line && word.room == Room::EmptyLine;
            self.line(place.depth, is_apart && !place.is_end);
        } else if !mark_of(word.kind).is_some_and(is_tight_before) {
            self.space();
        }
    }

    /// Writes what is between a word and the one before it.
    fn room(&mut self, place: Place, word: Atom) {
        match place.gap {
            Gap::Nothing => {}
            Gap::Space => self.space(),
            Gap::Line => {
                let is_apart = word.room == Room::EmptyLine && !place.is_end && !place.is_first;
                self.line(place.depth, is_apart);
            }
        }
    }

    /// Writes comments and the word behind them, which stand on one line, as a line of their own.
    fn together(&mut self, place: Place, between: &[Atom]) {
        self.line(place.depth, false);
        for atom in between {
            self.atom(*atom);
            self.space();
        }
    }

    /// Writes a word with what is before it.
    pub fn word(&mut self, place: Place, word: Atom, between: &[Atom]) {
        match between.last() {
            None => self.room(place, word),
            Some(_) if place.gap == Gap::Line && !place.is_end && is_on_line(word, between) => {
                self.together(place, between);
            }
            Some(_) => {
                self.comments(between, place);
                self.room_behind(between, place, word);
            }
        }
        self.atom(word);
    }

    /// The text, with an end of its last line.
    pub fn finish(self) -> Result<String, AllocError> {
        let mut out = self.out;
        if !out.as_str().is_empty() {
            out.push("\n");
        }
        out.finish()
    }
}
