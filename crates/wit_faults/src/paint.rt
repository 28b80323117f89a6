//! Colors of a terminal.

use text_builder::TextBuilder;

/// What a part of a shown fault is. Each has a color of its own.
#[derive(Clone, Copy)]
pub enum Part {
    Place,
    Words,
    Gutter,
    Carets,
    Hint,
}

/// Whether parts are colored.
#[derive(Clone, Copy)]
pub enum Paint {
    Plain,
    Colored,
}

impl Paint {
    /// Appends what begins a part.
    pub fn begin(self, out: &mut TextBuilder, part: Part) {
        if matches!(self, Paint::Colored) {
            out.push(match part {
                Part::Place => "\u{1B}[1m",
                Part::Words | Part::Carets => "\u{1B}[1;31m",
                Part::Gutter => "\u{1B}[34m",
                Part::Hint => "\u{1B}[36m",
            });
        }
    }

    /// Appends what ends a part.
    pub fn end(self, out: &mut TextBuilder) {
        if matches!(self, Paint::Colored) {
            out.push("\u{1B}[0m");
        }
    }

    /// Appends a part.
    pub fn push(self, out: &mut TextBuilder, part: Part, text: &str) {
        self.begin(out, part);
        out.push(text);
        self.end(out);
    }
}
