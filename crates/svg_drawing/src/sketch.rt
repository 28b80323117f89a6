//! A page of lines, of rows of bytes, and of arrows between them.

use crate::drawing::{Area, Drawing, Point, text_width};
use crate::style::{Fill, Ink};
use std::alloc::{AllocError, Global};

/// The pixels of a byte.
const BYTE: u32 = 24;

/// The pixels of a line.
const LINE: u32 = 24;

/// Where bytes begin. Addresses end before them.
const LEFT: u32 = 128;

/// Where the words of a block begin.
const WORDS: u32 = 64;

/// Where values go on in a next line.
const RIGHT: u32 = 700;

/// How many arrows are beside each other.
const ARROWS: u32 = 6;

/// How far a line is from the left.
#[derive(Clone, Copy)]
pub enum Level {
    /// About a whole or a side of it.
    Outer,
    /// About a part of a side.
    Inner,
    /// About bytes.
    Bytes,
}

/// Where an arrow begins.
#[derive(Clone, Copy)]
pub enum Start {
    /// At a line of bytes, in pixels from the top.
    Line(u32),
    /// Below a value.
    Value(Point),
}

/// A page that is drawn from the top on.
#[derive(Drop)]
pub struct Sketch {
    alloc: Global,
    drawing: Drawing,
    /// Where it ends, in pixels.
    bottom: u32,
    /// Where the next value begins.
    right: u32,
    /// How many arrows there are.
    arrows: u32,
}

impl Sketch {
    /// Nothing yet.
    pub fn new(alloc: Global) -> Sketch {
        Sketch {
            alloc,
            drawing: Drawing::new(alloc),
            bottom: 4,
            right: 0,
            arrows: 0,
        }
    }

    /// Adds a text on the next line, so many pixels from the left.
    fn push_words(&mut self, x: u32, ink: Ink, text: &str) {
        let y = self.bottom.saturating_add(16);
        self.drawing.text(Point { x, y }, ink, text);
        self.bottom = self.bottom.saturating_add(LINE);
    }

    /// Adds a line of text at a level from the left.
    pub fn push_text(&mut self, level: Level, text: &str) {
        let x = match level {
            Level::Outer => 12,
            Level::Inner => WORDS,
            Level::Bytes => LEFT,
        };
        self.push_words(x, Ink::Plain, text);
    }

    /// Adds the heading of a part.
    pub fn push_heading(&mut self, text: &str) {
        self.bottom = self.bottom.saturating_add(10);
        self.push_words(12, Ink::Heading, text);
    }

    /// Adds values beside each other, and notes where each of them is.
    fn push_row(&mut self, values: &[String], starts: &mut Vec<Start>) {
        self.right = LEFT;
        for value in values {
            if starts.push(self.push_value(value.as_str())).is_err() {
                self.drawing.refuse();
            }
        }
        self.bottom = self.bottom.saturating_add(LINE).saturating_add(18);
    }

    /// Adds values after a word for them. Returns where each of them is.
    pub fn push_values(&mut self, word: &str, values: &[String]) -> Vec<Start> {
        let y = self.bottom.saturating_add(16);
        self.drawing.text(Point { x: 52, y }, Ink::Plain, word);
        let mut starts = Vec::new(self.alloc);
        self.push_row(values, &mut starts);
        starts
    }

    /// Adds a value. Returns where it is.
    fn push_value(&mut self, text: &str) -> Start {
        let width = text_width(text).saturating_add(12);
        if self.right.saturating_add(width) > RIGHT {
            self.right = LEFT;
            self.bottom = self.bottom.saturating_add(LINE).saturating_add(14);
        }
        let area = Area {
            left: self.right,
            top: self.bottom,
            width,
            height: LINE,
        };
        self.drawing.rectangle(area, Fill::Blank, text);
        let middle = self.right.saturating_add(width / 2);
        let at = Point {
            x: middle,
            y: self.bottom.saturating_add(16),
        };
        self.drawing.text_around(at, Ink::Plain, text);
        self.right = self.right.saturating_add(width);
        Start::Value(Point {
            x: middle,
            y: self.bottom.saturating_add(LINE),
        })
    }

    /// Where the last line is.
    pub fn last(&self) -> Start {
        Start::Line(self.bottom.saturating_sub(LINE / 2))
    }

    /// Adds an arrow to a place at the words of a block.
    fn push_arrow(&mut self, start: Start, y: u32) {
        let place = self.arrows % ARROWS;
        self.arrows = self.arrows.saturating_add(1);
        let x = ARROWS.saturating_sub(place).saturating_mul(7);
        let end = Point { x: WORDS - 6, y };
        let turn = Point { x, y };
        match start {
            Start::Line(from) => {
                let first = Point {
                    x: WORDS - 6,
                    y: from,
                };
                let second = Point { x, y: from };
                self.drawing.arrow(&[first, second, turn, end]);
            }
            Start::Value(first) => {
                let below = first
                    .y
                    .saturating_add(place.saturating_mul(2))
                    .saturating_add(3);
                let second = Point {
                    x: first.x,
                    y: below,
                };
                let third = Point { x, y: below };
                self.drawing.arrow(&[first, second, third, turn, end]);
            }
        }
    }

    /// Adds the heading of a block, and an arrow to it.
    pub fn push_block(&mut self, heading: &str, start: Option<Start>) {
        self.bottom = self.bottom.saturating_add(6);
        if let Some(start) = start {
            self.push_arrow(start, self.bottom.saturating_add(12));
        }
        self.push_words(WORDS, Ink::Bold, heading);
    }

    /// Adds the box of a byte.
    fn push_byte(&mut self, left: u32, byte: u8, fill: Fill) {
        let area = Area {
            left,
            top: self.bottom,
            width: BYTE,
            height: LINE,
        };
        self.drawing.rectangle(area, fill, "");
        let at = Point {
            x: left.saturating_add(BYTE / 2),
            y: self.bottom.saturating_add(16),
        };
        let text = self.drawing.kept(format!(in self.alloc; "{byte:02x}"));
        self.drawing.text_around(at, Ink::Plain, text.as_str());
    }

    /// Adds an address before a line of bytes.
    fn push_address(&mut self, address: u32) {
        let at = Point {
            x: LEFT - 6,
            y: self.bottom.saturating_add(16),
        };
        let text = self.drawing.kept(format!(in self.alloc; "{address}"));
        self.drawing.text_before(at, Ink::Dim, text.as_str());
    }

    /// Adds a line of bytes: the address of the first, and what they are.
    pub fn push_bytes(&mut self, at: u32, bytes: &[u8], fill: Fill, note: &str) {
        self.push_address(at);
        let mut left = LEFT;
        for byte in bytes {
            self.push_byte(left, *byte, fill);
            left = left.saturating_add(BYTE);
        }
        let x = left.max(LEFT + 8 * BYTE).saturating_add(10);
        self.push_words(x, Ink::Plain, note);
    }

    /// The page as a document with a title.
    pub fn finish(self, title: &str) -> Result<String, AllocError> {
        let drawing = self.drawing;
        drawing.finish(title)
    }
}
