//! The bytes of a block, field by field.
ghost use Rattle.std.specs.Prelude.{◌≡◌};
ghost use Rattle.layout.specs.Layout.{layouts_of};

use crate::page::{LINE, Page};
use crate::place::{Block, Content, Members, Part, Place, Spot};
use crate::words::{member_path, own_size, own_words};
use layout::{Kinds, Layouts, Shape};
use layout_picture::{TypeLayout, case_number_size, member_name};
use lift_lower::Val;
use std::alloc::{AllocError, Global};
use svg_drawing::{Fill, Start};
use tables::{Resolve, ValType};
use text_builder::TextBuilder;

/// The most elements of a list that are shown.
const SHOWN_ELEMENTS: usize = 16;

/// The most bytes of a string that are shown.
const SHOWN_BYTES: usize = 64;

/// What is shown of one memory.
#[derive(Drop)]
pub struct Viewer<'a> {
    pub page: Page,
    pub resolve: &'a Resolve,
    pub layouts: &'a Layouts,
    pub memory: &'a [u8],
    /// What is still to be shown of a block, the last first.
    pub parts: Vec<Part<'a>>,
    /// The blocks of the values that were shown.
    pub found: Vec<Block<'a>>,
    /// The blocks that come next, the last first.
    pub next: Vec<Block<'a>>,
    /// Where the core values of the arguments are drawn, if they are.
    pub starts: &'a [Start],
    /// How many values were shown.
    pub values: usize,
    /// How many blocks were left out since the last one that was shown.
    pub hidden: usize,
    pub ghost laid_out: { layouts.now ≡ layouts_of resolve.now },
}

/// So many bytes of a memory, or those that it has of them.
fn bytes_at(memory: &[u8], at: u32, size: usize) -> &[u8] {
    let rest = memory.get(at as usize..).unwrap_or(&[]);
    rest.get(..size).unwrap_or(rest)
}

/// The offset after the field before this one.
fn end_before(layout: &TypeLayout<'_>, index: usize) -> u32 {
    let Some(before) = index.checked_sub(1) else {
        return 0;
    };
    match layout.field(before) {
        Some(part) => part.offset.saturating_add(part.layout.size()),
        None => 0,
    }
}

/// A place after so many core values, if it is in these.
fn after(place: Place, count: usize) -> Place {
    match place {
        Place::Core(index) => Place::Core(index.saturating_add(count)),
        other => other,
    }
}

/// How many core values carry a value of a type.
fn core_count(layout: &TypeLayout<'_>) -> usize {
    match layout.flat() {
        Kinds::Flat(kinds) => kinds.len(),
        Kinds::Spilled => 0,
    }
}

/// Bytes as characters, with a dot for each that is none of ASCII's.
fn characters_of(alloc: Global, bytes: &[u8]) -> Result<String, AllocError> {
    let mut note = TextBuilder::new(alloc);
    note.push("|");
    for byte in bytes {
        let is_shown = byte.is_ascii_graphic() || *byte == b' ';
        note.push_char(if is_shown { char::from(*byte) } else { '.' });
    }
    note.push("|");
    note.finish()
}

impl<'a> Viewer<'a> {
    pub fn layout(&self, ty: ValType) -> Option<TypeLayout<'a>> {
        TypeLayout::new(self.resolve, self.layouts, ty)
    }

    /// Leaves a part to be shown.
    fn push_part(&mut self, part: Part<'a>) {
        if self.parts.push(part).is_err() {
            self.page.refuse();
        }
    }

    /// Leaves padding to be shown: the bytes between two offsets, if there are some.
    fn push_padding(&mut self, place: Place, from: u32, to: u32) {
        let size = to.saturating_sub(from);
        if let Place::At(at) = place.plus(from) {
            if size > 0 {
                self.push_part(Part::Padding(at, size));
            }
        }
    }

    fn show_padding(&mut self, at: u32, size: u32) {
        let size = size as usize;
        let bytes = bytes_at(self.memory, at, size.min(LINE));
        self.page.push_bytes(at, bytes, Fill::Hatched, "padding");
        self.page.push_more(size.saturating_sub(LINE));
    }

    /// What the bytes of the next value are filled with.
    fn next_fill(&mut self) -> Fill {
        let fill = Fill::Hue(self.values);
        self.values = self.values.saturating_add(1);
        fill
    }

    /// Shows the bytes of a string.
    fn show_text(&mut self, at: u32, size: u32) {
        let size = size as usize;
        let bytes = bytes_at(self.memory, at, size.min(SHOWN_BYTES));
        let fill = self.next_fill();
        let mut start = at;
        for chunk in bytes.chunks(LINE) {
            let note = characters_of(self.page.alloc, chunk);
            let note = self.page.kept(note);
            self.page.push_bytes(start, chunk, fill, note.as_str());
            start = start.saturating_add(16);
        }
        self.page.push_more(size.saturating_sub(SHOWN_BYTES));
    }

    /// Shows the bytes that a value has of its own.
    fn show_own(&mut self, layout: &TypeLayout<'a>, spot: &Spot<'a>) {
        let Place::At(at) = spot.place else {
            return;
        };
        let size = own_size(layout, spot.value);
        if size == 0 {
            return;
        }
        let note = own_words(self.page.alloc, spot.path.as_str(), layout, spot.value);
        let note = self.page.kept(note);
        let bytes = bytes_at(self.memory, at, size as usize);
        let fill = self.next_fill();
        self.page.push_bytes(at, bytes, fill, note.as_str());
    }

    /// Leaves the block of a string or a list to be shown.
    fn find(&mut self, content: Content<'a>, place: Place, path: String) {
        let is_shown = !matches!(place, Place::Hidden);
        let start = match place {
            Place::At(_) => self.page.last(),
            Place::Core(index) => self.starts.get(index).copied(),
            Place::Elsewhere | Place::Hidden => None,
        };
        let block = Block {
            content,
            path,
            start,
            is_shown,
        };
        if self.found.push(block).is_err() {
            self.page.refuse();
        }
    }

    /// The name of a field or a payload of a value of this name.
    fn path_of(&mut self, layout: &TypeLayout<'a>, path: &str, index: usize) -> String {
        let path = member_path(self.page.alloc, path, member_name(layout, index), index);
        self.page.kept(path)
    }

    /// Leaves the payload of a case to be shown, with the padding around it.
    fn push_payload(
        &mut self,
        layout: &TypeLayout<'a>,
        spot: &Spot<'a>,
        case: u32,
        payload: Option<&'a Val>,
    ) {
        let case = case as usize;
        let start = own_size(layout, spot.value);
        let (Some(part), Some(value)) = (layout.payload(case), payload) else {
            self.push_padding(spot.place, start, layout.size());
            return;
        };
        let end = part.offset.saturating_add(part.layout.size());
        self.push_padding(spot.place, end, layout.size());
        let path = self.path_of(layout, spot.path.as_str(), case);
        self.push_part(Part::Value(Spot {
            value,
            ty: part.layout.ty,
            place: after(spot.place, 1).plus(part.offset),
            path,
        }));
        self.push_padding(spot.place, start, part.offset);
    }

    /// Leaves the payload of a value that is a case to be shown, with the padding around it.
    fn push_case(&mut self, layout: &TypeLayout<'a>, spot: &Spot<'a>) {
        if let Val::Variant(case, payload) = spot.value {
            let payload = match payload {
                Some(payload) => Some(&**payload),
                None => None,
            };
            self.push_payload(layout, spot, *case, payload);
        }
    }

    /// Leaves what is below a value to be shown.
    fn push_below(&mut self, layout: &TypeLayout<'a>, spot: Spot<'a>) {
        match (spot.value, layout.shape()) {
            (Val::String(_), _) => self.find(Content::Text, spot.place, spot.path),
            (Val::List(values), Shape::List(element)) => {
                let content = Content::Elements(values.as_slice(), element);
                self.find(content, spot.place, spot.path);
            }
            (Val::Record(values), _) => self.push_part(Part::Fields(Members {
                values: values.as_slice(),
                ty: spot.ty,
                place: spot.place,
                path: spot.path,
                index: 0,
            })),
            _ => self.push_case(layout, &spot),
        }
    }

    fn show_value(&mut self, spot: Spot<'a>) {
        if let Some(layout) = self.layout(spot.ty) {
            self.show_own(&layout, &spot);
            self.push_below(&layout, spot);
        }
    }

    /// Leaves the next field of a record of this type to be shown, or the padding after the last.
    fn push_field(&mut self, layout: &TypeLayout<'a>, fields: Members<'a>) {
        let (index, place) = (fields.index, fields.place);
        let end = end_before(layout, index);
        let (Some(value), Some(part)) = (fields.values.get(index), layout.field(index)) else {
            self.push_padding(place, end, layout.size());
            return;
        };
        let path = self.path_of(layout, fields.path.as_str(), index);
        self.push_part(Part::Fields(Members {
            values: fields.values,
            ty: fields.ty,
            place: after(place, core_count(&part.layout)),
            path: fields.path,
            index: index.saturating_add(1),
        }));
        self.push_part(Part::Value(Spot {
            value,
            ty: part.layout.ty,
            place: place.plus(part.offset),
            path,
        }));
        self.push_padding(place, end, part.offset);
    }

    fn show_fields(&mut self, fields: Members<'a>) {
        if let Some(layout) = self.layout(fields.ty) {
            self.push_field(&layout, fields);
        }
    }

    /// The place of the next element. After the last one that is shown it says how many bytes are left out.
    fn element_place(&mut self, list: &Members<'a>, size: u32) -> Place {
        if list.index < SHOWN_ELEMENTS {
            return list.place;
        }
        if matches!(list.place, Place::At(_)) {
            let left = list.values.len().saturating_sub(list.index);
            self.page.push_more(left.saturating_mul(size as usize));
        }
        Place::Hidden
    }

    /// Leaves the next element of a list to be shown.
    fn show_elements(&mut self, list: Members<'a>) {
        let Some(value) = list.values.get(list.index) else {
            return;
        };
        let size = match self.layout(list.ty) {
            Some(layout) => layout.size(),
            None => 0,
        };
        let place = self.element_place(&list, size);
        let (ty, index) = (list.ty, list.index);
        let path = format!(in self.page.alloc; "{}[{index}]", list.path.as_str());
        let path = self.page.kept(path);
        self.push_part(Part::Elements(Members {
            values: list.values,
            ty,
            place: place.plus(size),
            path: list.path,
            index: index.saturating_add(1),
        }));
        self.push_part(Part::Value(Spot {
            value,
            ty,
            place,
            path,
        }));
    }

    /// Shows what is left to be shown of a block.
    fn show_parts(&mut self) {
        for _ in 0..u64::MAX {
            match self.parts.pop() {
                Some(Part::Value(spot)) => self.show_value(spot),
                Some(Part::Fields(fields)) => self.show_fields(fields),
                Some(Part::Elements(elements)) => self.show_elements(elements),
                Some(Part::Padding(at, size)) => self.show_padding(at, size),
                None => return,
            }
        }
    }

    /// Shows what is in a block, or what is at no place.
    pub fn show_content(&mut self, content: Content<'a>, place: Place, size: u32, path: String) {
        match (content, place) {
            (Content::Text, Place::At(at)) => self.show_text(at, size),
            (Content::Text, _) => {}
            (Content::Value(value, ty), _) => self.push_part(Part::Value(Spot {
                value,
                ty,
                place,
                path,
            })),
            (Content::Fields(values, ty), _) => self.push_part(Part::Fields(Members {
                values,
                ty,
                place,
                path,
                index: 0,
            })),
            (Content::Elements(values, ty), _) => self.push_part(Part::Elements(Members {
                values,
                ty,
                place,
                path,
                index: 0,
            })),
        }
        self.show_parts();
    }
}
