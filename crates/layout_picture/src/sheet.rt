//! What pictures are drawn on.

use crate::boxes::{push_boxes, push_notes};
use crate::cells::diagram_of;
use crate::scaled::{LINE, push_list, push_scaled};
use crate::type_layout::TypeLayout;
use std::alloc::{AllocError, Global};
use std::collections::BTreeSet;
use svg_drawing::{Drawing, Ink, Point};
use text_builder::TextBuilder;

/// How a picture is written.
#[derive(Clone, Copy)]
pub enum Form {
    /// As lines of characters, for a terminal.
    Boxes,
    /// As one SVG document.
    Svg,
}

/// How far a line of text is from the left.
#[derive(Clone, Copy)]
pub enum Level {
    /// A line about an item.
    First,
    /// What a part of an item is about.
    Title,
    /// A line about a part of an item.
    Second,
}

/// What is drawn so far: lines of text and boxes, from the top on.
#[derive(Drop)]
pub struct Sheet {
    pub alloc: Global,
    form: Form,
    /// The lines. It keeps whether an allocation was refused.
    text: TextBuilder,
    drawing: Drawing,
    /// Where the drawing ends, in pixels.
    bottom: u32,
    /// The types that were drawn, by their interfaces and names.
    drawn: BTreeSet<String>,
    /// Whether nothing is drawn yet, and no allocation was refused.
    is_empty: bool,
}

impl Sheet {
    /// Nothing yet.
    pub fn new(alloc: Global, form: Form) -> Sheet {
        Sheet {
            alloc,
            form,
            text: TextBuilder::new(alloc),
            drawing: Drawing::new(alloc),
            bottom: 0,
            drawn: BTreeSet::new(alloc),
            is_empty: true,
        }
    }

    /// Whether nothing is drawn yet. False if an allocation was refused.
    pub fn is_empty(&self) -> bool {
        self.is_empty
    }

    /// Notes that an allocation was refused.
    pub fn refuse(&mut self) {
        self.is_empty = false;
        self.text.refuse();
    }

    /// A text that was made, or an empty one if an allocation was refused for it.
    pub fn kept(&mut self, made: Result<String, AllocError>) -> String {
        if made.is_err() {
            self.is_empty = false;
        }
        self.text.kept(made)
    }

    /// Notes that a type is drawn. False if it was drawn already.
    pub fn draw_once(&mut self, type_name: &str) -> bool {
        let type_name = self.kept(String::from_str(self.alloc, type_name));
        match self.drawn.insert(type_name) {
            Ok(is_new) => is_new,
            Err(_) => {
                self.refuse();
                false
            }
        }
    }

    /// Adds a line of text to the drawing, so many pixels from the left.
    fn draw_line(&mut self, x: u32, ink: Ink, line: &str) {
        let y = self.bottom.saturating_add(14);
        self.drawing.text(Point { x, y }, ink, line);
        self.bottom = self.bottom.saturating_add(LINE);
    }

    /// Begins an item, after an empty line if there is one before it.
    pub fn push_heading(&mut self, heading: &str) {
        match self.form {
            Form::Boxes => {
                let gap = if self.is_empty { "" } else { "\n" };
                self.text.push_three(gap, heading, "\n");
            }
            Form::Svg => {
                self.bottom = self.bottom.saturating_add(8);
                self.draw_line(12, Ink::Heading, heading);
            }
        }
        self.is_empty = false;
    }

    /// Adds a line of text about an item.
    pub fn push_line(&mut self, level: Level, line: &str) {
        self.is_empty = false;
        match (self.form, level) {
            (Form::Boxes, Level::Second) => self.text.push_three("        ", line, "\n"),
            (Form::Boxes, _) => self.text.push_three("    ", line, "\n"),
            (Form::Svg, Level::First) => self.draw_line(28, Ink::Plain, line),
            (Form::Svg, Level::Title) => self.draw_line(28, Ink::Bold, line),
            (Form::Svg, Level::Second) => self.draw_line(44, Ink::Plain, line),
        }
    }

    /// Adds the boxes of a type, and a list of what is in them.
    pub fn push_diagram(&mut self, layout: &TypeLayout<'_>) {
        self.is_empty = false;
        let diagram = diagram_of(self.alloc, layout);
        let (size, notes) = (layout.size(), diagram.notes.as_slice());
        match self.form {
            Form::Boxes => {
                push_boxes(self.alloc, &mut self.text, &diagram, size);
                push_notes(self.alloc, &mut self.text, notes);
            }
            Form::Svg => {
                let from = (self.bottom, size);
                let end = push_scaled(self.alloc, &mut self.drawing, from, &diagram);
                self.bottom = push_list(self.alloc, &mut self.drawing, end, notes);
            }
        }
        self.text.append(diagram.refusals);
    }

    /// What is drawn, as a text.
    pub fn finish(self) -> Result<String, AllocError> {
        let (mut text, drawing) = (self.text, self.drawing);
        if matches!(self.form, Form::Svg) {
            text.push_made(drawing.finish("The bytes of types"));
        }
        text.finish()
    }
}
