//! The lines of a picture.

use crate::core_values::{flat_texts, push_list};
use canonical_abi::Flat;
use layout_picture::Form;
use std::alloc::{AllocError, Global};
use svg_drawing::{Fill, Level, Sketch, Start};
use text_builder::TextBuilder;

/// The most lines that are shown. What comes after them is left out.
const MAX_LINES: usize = 4_000;

/// The most bytes of a line.
pub const LINE: usize = 16;

/// Lines of text, or the same as a drawing.
#[derive(Drop)]
pub struct Page {
    pub alloc: Global,
    form: Form,
    /// The lines. It keeps whether an allocation was refused.
    text: TextBuilder,
    sketch: Sketch,
    lines: usize,
}

/// Bytes in hex, with a blank between each two.
fn hex_of(alloc: Global, bytes: &[u8]) -> Result<String, AllocError> {
    let mut text = TextBuilder::new(alloc);
    for (index, byte) in bytes.iter().enumerate() {
        text.push(if index > 0 { " " } else { "" });
        text.push_made(format!(in alloc; "{byte:02x}"));
    }
    text.finish()
}

/// A line of bytes: the address of the first, and what they are.
fn bytes_line(alloc: Global, at: u32, bytes: &[u8], note: &str) -> Result<String, AllocError> {
    let hex = match hex_of(alloc, bytes) {
        Ok(hex) => hex,
        Err(error) => return Err(error),
    };
    let hex = hex.as_str();
    if bytes.len() * 2 > LINE {
        format!(in alloc; "{at:>8}  {hex:<47}  {note}\n")
    } else {
        format!(in alloc; "{at:>8}  {hex:<23}  {note}\n")
    }
}

impl Page {
    /// An empty page.
    pub fn new(alloc: Global, form: Form) -> Page {
        Page {
            alloc,
            form,
            text: TextBuilder::new(alloc),
            sketch: Sketch::new(alloc),
            lines: 0,
        }
    }

    /// Notes that an allocation was refused.
    pub fn refuse(&mut self) {
        self.text.refuse();
    }

    /// A text that was made, or an empty one if an allocation was refused for it.
    pub fn kept(&mut self, made: Result<String, AllocError>) -> String {
        self.text.kept(made)
    }

    /// Counts a line. False if there are too many already.
    fn takes_line(&mut self) -> bool {
        let count = self.lines;
        self.lines = count.saturating_add(1);
        if count == MAX_LINES {
            self.add(Level::Inner, ".. more lines");
        }
        count < MAX_LINES
    }

    /// Adds a line of text at a level from the left, however many there are.
    pub fn add(&mut self, level: Level, line: &str) {
        match (self.form, level) {
            (Form::Svg, _) => self.sketch.push_text(level, line),
            (Form::Boxes, Level::Outer) => {
                self.text.push(line);
                self.text.push("\n");
            }
            (Form::Boxes, Level::Inner) => self.text.push_three("    ", line, "\n"),
            (Form::Boxes, Level::Bytes) => self.text.push_three("          ", line, "\n"),
        }
    }

    /// Adds a line of text, unless there are too many.
    pub fn push_line(&mut self, level: Level, line: &str) {
        if self.takes_line() {
            self.add(level, line);
        }
    }

    /// Adds a line of text that was made, unless there are too many.
    pub fn push_made(&mut self, level: Level, line: Result<String, AllocError>) {
        let line = self.kept(line);
        self.push_line(level, line.as_str());
    }

    /// Adds the heading of a side.
    pub fn push_side(&mut self, heading: &str) {
        match self.form {
            Form::Svg => self.sketch.push_heading(heading),
            Form::Boxes => self.push_line(Level::Outer, heading),
        }
    }

    /// Adds a line of core values after a word for them.
    fn push_flats(&mut self, word: &str, values: &[String]) {
        let mut line = TextBuilder::new(self.alloc);
        line.push(word);
        line.push(if values.is_empty() { ": nothing" } else { ": " });
        push_list(&mut line, values);
        self.push_made(Level::Inner, line.finish());
    }

    /// Adds core values after a word for them. Returns where each of them is drawn.
    pub fn push_values(&mut self, word: &str, flats: &[Flat]) -> Vec<Start> {
        let values = flat_texts(self.alloc, &mut self.text, flats);
        if matches!(self.form, Form::Svg) && !flats.is_empty() {
            self.sketch.push_values(word, values.as_slice())
        } else {
            self.push_flats(word, values.as_slice());
            Vec::new(self.alloc)
        }
    }

    /// Adds the heading of a block, and an arrow from its pointer if it is drawn.
    pub fn push_block(&mut self, heading: &str, start: Option<Start>) {
        if !self.takes_line() {
            return;
        }
        match self.form {
            Form::Svg => self.sketch.push_block(heading, start),
            Form::Boxes => self.add(Level::Inner, heading),
        }
    }

    /// Where the line is that was added last. None if it is not drawn.
    pub fn last(&self) -> Option<Start> {
        if self.lines > MAX_LINES {
            return None;
        }
        Some(self.sketch.last())
    }

    /// Adds a line of bytes: the address of the first, at most sixteen, and what they are.
    pub fn push_bytes(&mut self, at: u32, bytes: &[u8], fill: Fill, note: &str) {
        if !self.takes_line() {
            return;
        }
        match self.form {
            Form::Svg => self.sketch.push_bytes(at, bytes, fill, note),
            Form::Boxes => self.text.push_made(bytes_line(self.alloc, at, bytes, note)),
        }
    }

    /// Says that so many bytes are left out, if there are some.
    pub fn push_more(&mut self, bytes: usize) {
        if bytes > 0 {
            self.push_made(
                Level::Bytes,
                format!(in self.alloc; ".. {bytes} more bytes"),
            );
        }
    }

    /// The page as a text.
    pub fn finish(self) -> Result<String, AllocError> {
        let (mut text, sketch) = (self.text, self.sketch);
        if matches!(self.form, Form::Svg) {
            text.push_made(sketch.finish("A call, and what it did to both memories"));
        }
        text.finish()
    }
}
