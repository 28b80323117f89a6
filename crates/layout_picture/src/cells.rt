//! What is in the bytes of a type, from its first byte on.

use crate::names::{member_name, type_text};
use crate::type_layout::{Part, TypeLayout, case_number_size};
use layout::Shape;
use std::alloc::Global;
use text_builder::TextBuilder;

/// Bytes that belong together.
#[derive(Drop)]
pub struct Cell {
    /// In bytes, from the first of the type.
    pub offset: u32,
    /// In bytes.
    pub size: u32,
    /// A short word for it. No text for padding.
    pub name: String,
    /// All words for it.
    pub text: String,
    /// The number of its member. None for padding.
    pub member: Option<usize>,
}

/// All bytes of a type, as the values of one case have them, or all values if there are no cases.
#[derive(Drop)]
pub struct Lane {
    pub cells: Vec<Cell>,
}

/// A line of the list below the boxes of a type.
#[derive(Drop)]
pub struct Note {
    /// The offset that it tells of. None if it goes on from the line above.
    pub offset: Option<u32>,
    pub text: String,
}

/// What is drawn of a type.
#[derive(Drop)]
pub struct Diagram {
    alloc: Global,
    pub lanes: Vec<Lane>,
    pub notes: Vec<Note>,
    /// The cells of the next lane.
    cells: Vec<Cell>,
    /// The offset after the last of them.
    end: u32,
    /// No text. It keeps whether an allocation was refused.
    pub refusals: TextBuilder,
}

/// The most characters of a line of labels.
const LINE: usize = 96;

impl Diagram {
    /// Adds a cell where it begins, after those before it.
    fn push_cell(&mut self, cell: Cell) {
        self.end = cell.offset.saturating_add(cell.size);
        self.refusals.add(&mut self.cells, cell);
    }

    /// Adds a cell of these words, which is a member of this number.
    fn push_words(&mut self, offset: u32, size: u32, words: (&str, &str, usize)) {
        let (name, text, member) = words;
        let cell = Cell {
            offset,
            size,
            name: self.refusals.kept(String::from_str(self.alloc, name)),
            text: self.refusals.kept(String::from_str(self.alloc, text)),
            member: Some(member),
        };
        self.push_cell(cell);
    }

    /// Adds bytes that no value uses, up to an offset. Returns how many they are.
    fn pad(&mut self, offset: u32) -> u32 {
        let size = offset.saturating_sub(self.end);
        if size > 0 {
            let cell = Cell {
                offset: self.end,
                size,
                name: String::new(self.alloc),
                text: self.refusals.kept(String::from_str(self.alloc, "padding")),
                member: None,
            };
            self.push_cell(cell);
        }
        size
    }

    /// Ends the lane of the cells that were added last.
    fn end_lane(&mut self) {
        let lane = Lane {
            cells: std::mem::replace(&mut self.cells, Vec::new(self.alloc)),
        };
        self.refusals.add(&mut self.lanes, lane);
        self.end = 0;
    }

    /// Adds a line that tells of an offset, if there is one.
    fn note(&mut self, offset: Option<u32>, text: String) {
        self.refusals.add(&mut self.notes, Note { offset, text });
    }

    /// Adds a line that tells of padding before an offset, if there is some.
    fn note_padding(&mut self, offset: u32, size: u32) {
        if size > 0 {
            let text = self
                .refusals
                .kept(format!(in self.alloc; "padding, size {size}"));
            self.note(Some(offset.saturating_sub(size)), text);
        }
    }

    /// Adds a line that tells what is at an offset, with the size and the alignment of its type.
    fn note_sized(&mut self, offset: u32, text: &str, layout: &TypeLayout<'_>) {
        let (size, align) = (layout.size(), layout.align());
        let text = self.refusals.kept(format!(in self.alloc; "{text}, size {size}, align {align}"));
        self.note(Some(offset), text);
    }

    /// Adds a line of labels.
    fn note_line(&mut self, line: TextBuilder) {
        let text = self.refusals.kept(line.finish());
        self.note(None, text);
    }

    /// Adds a line of labels, if it has no room for a label of this length, and begins the next one.
    fn end_line(&mut self, line: &mut TextBuilder, length: usize) {
        if line.as_str().len().saturating_add(length) > LINE {
            let full = std::mem::replace(line, TextBuilder::new(self.alloc));
            self.note_line(full);
        }
    }

    /// Adds lines of all labels of a type, each with its number.
    fn note_labels(&mut self, layout: &TypeLayout<'_>, count: usize) {
        let mut line = TextBuilder::new(self.alloc);
        for index in 0..count {
            let name = member_name(layout, index);
            self.end_line(&mut line, name.len());
            line.push(if line.as_str().is_empty() { "" } else { " " });
            line.push_number(index);
            line.push_three(" ", name, if index + 1 == count { "" } else { "," });
        }
        self.note_line(line);
    }

    /// The bytes of a value of this name.
    fn named_cell(&mut self, part: &Part<'_>, name: String, member: usize) -> Cell {
        let mut text = TextBuilder::new(self.alloc);
        text.push(name.as_str());
        text.push(": ");
        text.push_made(type_text(self.alloc, part.layout.resolve, part.layout.ty));
        Cell {
            offset: part.offset,
            size: part.layout.size(),
            text: self.refusals.kept(text.finish()),
            name,
            member: Some(member),
        }
    }

    /// Adds a field of a record, with what is told of it. One of a tuple goes by its number.
    fn push_field(&mut self, part: &Part<'_>, label: &str, index: usize) {
        let name = self.refusals.kept(match label {
            "" => format!(in self.alloc; "{index}"),
            _ => String::from_str(self.alloc, label),
        });
        let cell = self.named_cell(part, name, index);
        self.note_sized(part.offset, cell.text.as_str(), &part.layout);
        self.push_cell(cell);
    }

    /// Adds padding up to an offset, with what is told of it.
    fn push_padding(&mut self, offset: u32) {
        let size = self.pad(offset);
        self.note_padding(offset, size);
    }

    /// Adds the fields of a record, and the padding between and after them.
    fn push_fields(&mut self, layout: &TypeLayout<'_>, count: usize) {
        for index in 0..count {
            let Some(part) = layout.field(index) else {
                break;
            };
            self.push_padding(part.offset);
            self.push_field(&part, member_name(layout, index), index);
        }
        self.push_padding(layout.size());
        self.end_lane();
    }

    /// Adds the number of a case of this name, in so many bytes.
    fn push_case_number(&mut self, name: &str, index: usize, size: u32) {
        let cell = Cell {
            offset: 0,
            size,
            name: self.refusals.kept(format!(in self.alloc; "{index}")),
            text: self.refusals.kept(format!(in self.alloc; "{index} {name}")),
            member: Some(0),
        };
        self.push_cell(cell);
    }

    /// Adds a payload of the case of this name and number, with what is told of the case at this offset.
    fn push_part(&mut self, part: &Part<'_>, start: u32, named: (&str, usize)) {
        let (name, index) = named;
        self.pad(part.offset);
        let name = self.refusals.kept(String::from_str(self.alloc, name));
        let cell = self.named_cell(part, name, index.saturating_add(1));
        let text = cell.text.as_str();
        let told = self
            .refusals
            .kept(format!(in self.alloc; "case {index} {text}"));
        self.note_sized(start, told.as_str(), &part.layout);
        self.push_cell(cell);
    }

    /// Adds what a case of this name and number has after the number, with what is told of the case at this offset.
    fn push_payload(&mut self, layout: &TypeLayout<'_>, start: u32, named: (&str, usize)) {
        let (name, index) = named;
        match layout.payload(index) {
            Some(part) => self.push_part(&part, start, named),
            None => {
                let told = self
                    .refusals
                    .kept(format!(in self.alloc; "case {index} {name}"));
                self.note(Some(start), told);
            }
        }
    }

    /// Adds the cases of a variant, each in a lane of its own.
    fn push_cases(&mut self, layout: &TypeLayout<'_>, count: usize) {
        let size = case_number_size(count);
        let start = layout.payload_offset().unwrap_or(size);
        let told = self.refusals.kept(format!(in self.alloc;
            "case number, size {size}, align {size}"
        ));
        self.note(Some(0), told);
        self.note_padding(start, start.saturating_sub(size));
        for index in 0..count {
            let name = member_name(layout, index);
            self.push_case_number(name, index, size);
            self.push_payload(layout, start, (name, index));
            self.pad(layout.size());
            self.end_lane();
        }
    }

    /// Adds a lane of one cell, with all bytes of the type.
    fn push_whole(&mut self, layout: &TypeLayout<'_>, name: &str, text: &str) {
        self.note_sized(0, text, layout);
        self.push_words(0, layout.size(), (name, text, 0));
        self.end_lane();
    }

    /// Adds the address or the length of a string or a list, at this offset.
    fn push_half(&mut self, offset: u32, words: (&str, &str, usize)) {
        self.push_words(offset, 4, words);
        let text = [words.1, ", size 4, align 4"].concat(self.alloc);
        let text = self.refusals.kept(text);
        self.note(Some(offset), text);
    }

    /// Adds what a string or a list has in place: the address of its bytes or elements, and their number.
    fn push_pointer(&mut self, length: &str) {
        self.push_half(0, ("address", "address", 0));
        self.push_half(4, ("length", length, 1));
        self.end_lane();
    }

    /// Adds what is drawn of a type.
    fn push_type(&mut self, layout: &TypeLayout<'_>) {
        match layout.shape() {
            Shape::Record(count) => self.push_fields(layout, count),
            Shape::Variant(count) if layout.size() == case_number_size(count) => {
                self.push_whole(layout, "case", "case number");
                self.note_labels(layout, count);
            }
            Shape::Variant(count) => self.push_cases(layout, count),
            Shape::Flags(count) => {
                self.push_whole(layout, "bits", "a bit for each label");
                self.note_labels(layout, count);
            }
            Shape::String => self.push_pointer("length in bytes"),
            Shape::List(_) => self.push_pointer("length in elements"),
            Shape::Primitive(_) => {
                let text = type_text(self.alloc, layout.resolve, layout.ty);
                let text = self.refusals.kept(text);
                self.push_whole(layout, text.as_str(), text.as_str());
            }
        }
    }
}

/// What is drawn of a type.
pub fn diagram_of(alloc: Global, layout: &TypeLayout<'_>) -> Diagram {
    let mut diagram = Diagram {
        alloc,
        lanes: Vec::new(alloc),
        notes: Vec::new(alloc),
        cells: Vec::new(alloc),
        end: 0,
        refusals: TextBuilder::new(alloc),
    };
    diagram.push_type(layout);
    diagram
}
