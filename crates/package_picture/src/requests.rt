//! What allocators are asked for when values cross.
ghost use Rattle.std.specs.Prelude.{◌≡◌};
ghost use Rattle.layout.specs.Layout.{layouts_of};

use layout::{Layouts, Shape};
use layout_picture::{TypeLayout, member_name, type_text};
use std::alloc::{AllocError, Global};
use tables::{Resolve, ValType};
use text_builder::TextBuilder;

/// The most blocks that are told.
const MOST_BLOCKS: usize = 64;

/// The most types that are looked at.
const MOST_TYPES: usize = 4_096;

/// A value that may need blocks: its name, from the parameter or the result on, and its type.
#[derive(Drop)]
struct Part {
    path: String,
    ty: ValType,
}

/// The blocks that values need, as far as they were looked at.
#[derive(Drop)]
pub struct Requests<'a> {
    alloc: Global,
    resolve: &'a Resolve,
    layouts: &'a Layouts,
    /// The values that are still to be looked at, the last first.
    parts: Vec<Part>,
    /// A line of each block: the name of the value, its type, and its size.
    pub lines: Vec<String>,
    /// No text. It keeps whether an allocation was refused.
    pub refusals: TextBuilder,
    ghost laid_out: { layouts.now ≡ layouts_of resolve.now },
}

/// The path of a member: a parameter, a field, a payload.
fn member_path(
    alloc: Global,
    path: &str,
    layout: &TypeLayout<'_>,
    index: usize,
) -> Result<String, AllocError> {
    match (path, member_name(layout, index)) {
        (_, "") => format!(in alloc; "{path}.{index}"),
        ("", name) => String::from_str(alloc, name),
        (_, name) => format!(in alloc; "{path}.{name}"),
    }
}

impl<'a> Requests<'a> {
    /// None yet.
    pub fn new(alloc: Global, resolve: &'a Resolve, layouts: &'a Layouts) -> Requests<'a>
        requires { layouts.now ≡ layouts_of resolve.now }
    {
        Requests {
            alloc,
            resolve,
            layouts,
            parts: Vec::new(alloc),
            lines: Vec::new(alloc),
            refusals: TextBuilder::new(alloc),
        }
    }

    /// Leaves a value to be looked at.
    fn push_part(&mut self, path: Result<String, AllocError>, ty: ValType) {
        let path = self.refusals.kept(path);
        self.refusals.add(&mut self.parts, Part { path, ty });
    }

    /// Tells a block.
    fn push_line(&mut self, line: Result<String, AllocError>) {
        let line = self.refusals.kept(line);
        self.refusals.add(&mut self.lines, line);
    }

    /// Leaves the members of a value to be looked at: fields, or payloads.
    fn push_members(&mut self, layout: &TypeLayout<'_>, path: &str, count: usize) {
        let is_record = matches!(layout.shape(), Shape::Record(_));
        for index in (0..count).rev() {
            let part = if is_record {
                layout.field(index)
            } else {
                layout.payload(index)
            };
            if let Some(part) = part {
                let path = member_path(self.alloc, path, layout, index);
                self.push_part(path, part.layout.ty);
            }
        }
    }

    /// Tells the block of a list, and leaves an element to be looked at.
    fn push_list(&mut self, path: &str, ty: ValType, element: ValType) {
        let alloc = self.alloc;
        let Some(layout) = TypeLayout::new(self.resolve, self.layouts, element) else {
            return;
        };
        let text = self.refusals.kept(type_text(alloc, self.resolve, ty));
        let text = text.as_str();
        let (size, align) = (layout.size(), layout.align());
        let line = format!(in alloc; "{path}: {text}, size {size} for each element, align {align}");
        self.push_line(line);
        self.push_part([path, "[]"].concat(alloc), element);
    }

    /// Tells the block of a value, if it needs one, and leaves what is below it to be looked at.
    fn take(&mut self, part: &Part) {
        let Some(layout) = TypeLayout::new(self.resolve, self.layouts, part.ty) else {
            return;
        };
        let path = part.path.as_str();
        match layout.shape() {
            Shape::Record(count) | Shape::Variant(count) => self.push_members(&layout, path, count),
            Shape::List(element) => self.push_list(path, part.ty, element),
            Shape::String => {
                let words = [path, ": string, size 1 for each byte, align 1"];
                self.push_line(words.concat(self.alloc));
            }
            Shape::Primitive(_) | Shape::Flags(_) => {}
        }
    }

    /// Looks at all that is left to be looked at. Ends with a line `..` if that is too much.
    fn take_all(&mut self) {
        for _ in 0..MOST_TYPES {
            if self.lines.len() >= MOST_BLOCKS {
                break;
            }
            let Some(part) = self.parts.pop() else {
                return;
            };
            self.take(&part);
        }
        self.push_line(String::from_str(self.alloc, ".."));
    }

    /// Looks at a value of this name, and at what is below it. The name of a function's parameters is empty.
    pub fn look_at(&mut self, path: &str, ty: ValType) {
        self.push_part(String::from_str(self.alloc, path), ty);
        self.take_all();
    }
}
