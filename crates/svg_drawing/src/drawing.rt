//! A picture that grows.

use crate::escaping::push_escaped;
use crate::style::{Fill, Ink, STYLE};
use std::alloc::{AllocError, Global};
use text_builder::TextBuilder;

/// The pixels that a character of a text has room in. It takes some less.
pub const CHARACTER: u32 = 8;

/// The pixels around all that is drawn.
const MARGIN: u32 = 12;

/// A place, in pixels from the left and from the top.
#[derive(Clone, Copy)]
pub struct Point {
    pub x: u32,
    pub y: u32,
}

/// A rectangle, in pixels.
#[derive(Clone, Copy)]
pub struct Area {
    pub left: u32,
    pub top: u32,
    pub width: u32,
    pub height: u32,
}

/// A picture: what is drawn so far.
#[derive(Drop)]
pub struct Drawing {
    alloc: Global,
    content: TextBuilder,
    /// Where what is drawn ends on the right.
    right: u32,
    /// Where it ends below.
    bottom: u32,
}

/// The pixels that a text has room in.
pub fn text_width(text: &str) -> u32 {
    let characters = u32::try_from(text.chars().count()).unwrap_or(u32::MAX);
    characters.saturating_mul(CHARACTER)
}

/// Appends two attributes of an element, whose values are numbers.
fn push_attributes(text: &mut TextBuilder, names: (&str, &str), numbers: (u32, u32)) {
    text.push_three(" ", names.0, "=\"");
    text.push_number(numbers.0 as usize);
    text.push_three("\" ", names.1, "=\"");
    text.push_number(numbers.1 as usize);
    text.push("\"");
}

impl Drawing {
    /// Nothing yet.
    pub fn new(alloc: Global) -> Drawing {
        Drawing {
            alloc,
            content: TextBuilder::new(alloc),
            right: 0,
            bottom: 0,
        }
    }

    /// Notes that an allocation was refused.
    pub fn refuse(&mut self) {
        self.content.refuse();
    }

    /// A text that was made, or an empty one if an allocation was refused for it.
    pub fn kept(&mut self, made: Result<String, AllocError>) -> String {
        self.content.kept(made)
    }

    /// Grows the picture to have a place.
    fn reach(&mut self, x: u32, y: u32) {
        self.right = self.right.max(x);
        self.bottom = self.bottom.max(y);
    }

    /// Adds a text whose anchor is at a place on its line.
    fn push_text(&mut self, at: Point, ink: Ink, anchor: &str, text: &str) {
        let content = &mut self.content;
        content.push_three("<text class=\"", ink.class(), "\"");
        push_attributes(content, ("x", "y"), (at.x, at.y));
        content.push(anchor);
        content.push(">");
        push_escaped(content, text);
        content.push("</text>\n");
    }

    /// Adds a text that begins at a place on its line. Blanks beside each other are drawn as one.
    pub fn text(&mut self, at: Point, ink: Ink, text: &str) {
        let width = match ink {
            Ink::Heading => text_width(text).saturating_mul(9) / 8,
            _ => text_width(text),
        };
        self.reach(at.x.saturating_add(width), at.y);
        self.push_text(at, ink, "", text);
    }

    /// Adds a text that ends at a place on its line.
    pub fn text_before(&mut self, at: Point, ink: Ink, text: &str) {
        self.reach(at.x, at.y);
        self.push_text(at, ink, " text-anchor=\"end\"", text);
    }

    /// Adds a text whose middle is at a place on its line.
    pub fn text_around(&mut self, at: Point, ink: Ink, text: &str) {
        self.reach(at.x.saturating_add(text_width(text) / 2), at.y);
        self.push_text(at, ink, " text-anchor=\"middle\"", text);
    }

    /// Adds a rectangle, with a text that is shown where a pointer is on it.
    pub fn rectangle(&mut self, area: Area, fill: Fill, about: &str) {
        let content = &mut self.content;
        content.push_three("<rect class=\"", fill.class(), "\"");
        push_attributes(content, ("x", "y"), (area.left, area.top));
        push_attributes(content, ("width", "height"), (area.width, area.height));
        content.push("><title>");
        push_escaped(content, about);
        content.push("</title></rect>\n");
        self.reach(
            area.left.saturating_add(area.width),
            area.top.saturating_add(area.height),
        );
    }

    /// Adds a place to a line, after a mark.
    fn push_point(&mut self, mark: &str, at: Point) {
        self.reach(at.x, at.y);
        self.content.push(mark);
        self.content.push_number(at.x as usize);
        self.content.push(" ");
        self.content.push_number(at.y as usize);
    }

    /// Adds a line through some places, with a head at the last.
    pub fn arrow(&mut self, points: &[Point]) {
        self.content.push("<path class=\"arrow\" d=\"");
        for (index, point) in points.iter().enumerate() {
            self.push_point(if index == 0 { "M" } else { "L" }, *point);
        }
        self.content.push("\" marker-end=\"url(#head)\"/>\n");
    }

    /// Appends what is before the shapes in a document with a title.
    fn push_head(&self, title: &str, out: &mut TextBuilder) {
        let width = self.right.saturating_add(MARGIN);
        let height = self.bottom.saturating_add(MARGIN);
        out.push("<svg xmlns=\"http://www.w3.org/2000/svg\"");
        push_attributes(out, ("width", "height"), (width, height));
        out.push(" viewBox=\"0 0 ");
        out.push_number(width as usize);
        out.push(" ");
        out.push_number(height as usize);
        out.push("\" role=\"img\">\n<title>");
        push_escaped(out, title);
        out.push("</title>\n");
        out.push(STYLE);
        out.push("<rect class=\"page\"");
        push_attributes(out, ("width", "height"), (width, height));
        out.push("/>\n");
    }

    /// The picture as a document, with a title.
    pub fn finish(self, title: &str) -> Result<String, AllocError> {
        let mut document = TextBuilder::new(self.alloc);
        self.push_head(title, &mut document);
        document.append(self.content);
        document.push("</svg>\n");
        document.finish()
    }
}
