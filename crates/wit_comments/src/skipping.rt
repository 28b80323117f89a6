//! The items of a text, and the text without one of them. Comments are no part of an item's code.

use std::alloc::{AllocError, Global};
use text_builder::TextBuilder;
use wit_text::Span;

/// Where a byte of a text stands.
#[derive(Clone, Copy, PartialEq, Eq)]
enum Region {
    Code,
    LineComment,
    /// Within so many comments.
    BlockComment(usize),
}

impl Region {
    /// Where the text goes on behind the first of two bytes, and whether the second one belongs to a mark with it.
    fn behind(self, pair: [u8; 2]) -> (Region, bool) {
        match (self, pair) {
            (Region::Code, [b'/', b'/']) => (Region::LineComment, true),
            (Region::Code, [b'/', b'*']) => (Region::BlockComment(1), true),
            (Region::LineComment, [b'\n', _]) => (Region::Code, false),
            (Region::BlockComment(depth), [b'/', b'*']) => {
                (Region::BlockComment(depth.saturating_add(1)), true)
            }
            (Region::BlockComment(1), [b'*', b'/']) => (Region::Code, true),
            (Region::BlockComment(depth), [b'*', b'/']) => {
                (Region::BlockComment(depth.saturating_sub(1)), true)
            }
            _ => (self, false),
        }
    }
}

/// The bytes of a text, with blanks in place of its comments.
fn code_of(alloc: Global, text: &str) -> Result<Vec<u8>, AllocError> {
    let bytes = text.as_bytes();
    let mut code = Vec::new(alloc);
    let mut region = Region::Code;
    let mut is_taken = false;
    for (index, byte) in bytes.iter().enumerate() {
        if is_taken {
            is_taken = false;
            code.push(b' ')?;
            continue;
        }
        let second = bytes.get(index.saturating_add(1)).copied().unwrap_or(b'\n');
        let before = region;
        (region, is_taken) = before.behind([*byte, second]);
        let is_code = before == Region::Code && region == Region::Code;
        code.push(if is_code { *byte } else { b' ' })?;
    }
    Ok(code)
}

/// An interface, a world, or a line of the package or of a `use`.
#[derive(Clone, Copy)]
struct Outer {
    span: Span,
    /// Where its members begin. Its end if it has none.
    members: usize,
}

/// The items of a text so far.
#[derive(Drop)]
struct Items {
    outers: Vec<Outer>,
    /// Those of interfaces and worlds.
    members: Vec<Span>,
    depth: usize,
    outer: Option<usize>,
    /// Where the braces of the interface or the world begin.
    brace: usize,
    member: Option<usize>,
    /// How many `(` and `<` are open.
    open: usize,
    /// Whether the names of a `use` are read.
    is_used: bool,
    /// The byte of the code before.
    last: u8,
    /// Whether each brace has another one so far.
    are_paired: bool,
}

impl Items {
    fn new(alloc: Global) -> Items {
        Items {
            outers: Vec::new(alloc),
            members: Vec::new(alloc),
            depth: 0,
            outer: None,
            brace: 0,
            member: None,
            open: 0,
            is_used: false,
            last: b' ',
            are_paired: true,
        }
    }

    /// Notes where an item begins, if this byte does it.
    fn begin(&mut self, place: usize) {
        match self.depth {
            0 if self.outer.is_none() => self.outer = Some(place),
            1 if self.member.is_none() => self.member = Some(place),
            _ => {}
        }
    }

    fn end_member(&mut self, end: usize) -> Result<(), AllocError> {
        if let Some(start) = self.member {
            self.member = None;
            self.members.push(Span { start, end })?;
        } else if let Some(last) = self.members.last_mut()
            && last.start > self.brace
        {
            last.end = end;
        }
        Ok(())
    }

    fn end_outer(&mut self, members: usize, end: usize) -> Result<(), AllocError> {
        if let Some(start) = self.outer {
            self.outer = None;
            let span = Span { start, end };
            self.outers.push(Outer { span, members })?;
        } else if let Some(last) = self.outers.last_mut() {
            last.span.end = end;
        }
        Ok(())
    }

    fn open_brace(&mut self, place: usize) {
        self.begin(place);
        if self.last == b'.' {
            self.is_used = true;
            return;
        }
        if self.depth == 0 {
            self.brace = place;
        }
        self.depth = self.depth.saturating_add(1);
    }

    fn close_brace(&mut self, place: usize) -> Result<(), AllocError> {
        let behind = place.saturating_add(1);
        if self.is_used {
            self.is_used = false;
            return Ok(());
        }
        match self.depth {
            0 => self.are_paired = false,
            1 => {
                if self.member.is_some() {
                    self.end_member(place)?;
                }
                self.depth = 0;
                self.end_outer(self.brace, behind)?;
            }
            2 => {
                self.depth = 1;
                self.end_member(behind)?;
            }
            depth => self.depth = depth.saturating_sub(1),
        }
        Ok(())
    }

    fn semicolon(&mut self, place: usize) -> Result<(), AllocError> {
        let behind = place.saturating_add(1);
        self.open = 0;
        match self.depth {
            0 => self.end_outer(behind, behind),
            1 => self.end_member(behind),
            _ => Ok(()),
        }
    }

    /// The last item that has no item around it and begins before a place, or there.
    fn outer_before(&self, place: usize) -> Option<Outer> {
        let mut found: Option<Outer> = None;
        for outer in self.outers.as_slice() {
            if outer.span.start <= place {
                found = Some(*outer);
            }
        }
        found
    }

    /// The item around a place, or before it if it stands between two: a member, or what has none. None either if the
    /// braces are no pairs.
    fn around(&self, place: usize) -> Option<Span> {
        if !self.are_paired || self.depth != 0 {
            return None;
        }
        let outer = self.outer_before(place)?;
        if place <= outer.members {
            return Some(outer.span);
        }
        let mut span = outer.span;
        for member in self.members.as_slice() {
            if member.start > outer.members && member.start <= place {
                span = *member;
            }
        }
        Some(span)
    }
}

/// Whether there is more in the line behind a place.
fn goes_on(code: &[u8], place: usize) -> bool {
    let behind = code.get(place.saturating_add(1)..).unwrap_or(&[]);
    let first = behind
        .iter()
        .find(|byte| !matches!(**byte, b' ' | b'\t' | b'\r'));
    !matches!(first, None | Some(b'\n'))
}

impl Items {
    /// Takes a byte of code. A `;` within `(` or `<` ends an item if it ends a line.
    fn take(&mut self, code: &[u8], place: usize, byte: u8) -> Result<(), AllocError> {
        match byte {
            b'{' => self.open_brace(place),
            b'}' => self.close_brace(place)?,
            b';' if self.open > 0 && goes_on(code, place) => {}
            b';' => self.semicolon(place)?,
            b'(' | b'<' => self.open = self.open.saturating_add(1),
            b')' => self.open = self.open.saturating_sub(1),
            b'>' if self.last != b'-' => self.open = self.open.saturating_sub(1),
            _ => self.begin(place),
        }
        self.last = byte;
        Ok(())
    }
}

impl Items {
    /// Takes code up to its end.
    fn take_all(&mut self, code: &[u8]) -> Result<(), AllocError> {
        for (place, byte) in code.iter().enumerate() {
            if !matches!(*byte, b' ' | b'\t' | b'\r' | b'\n') {
                self.take(code, place, *byte)?;
            }
        }
        if self.outer.is_some() {
            self.end_outer(code.len(), code.len())?;
        }
        Ok(())
    }
}

/// The item of this code around a place.
fn item_of(alloc: Global, code: &[u8], place: usize) -> Result<Option<Span>, AllocError> {
    let mut items = Items::new(alloc);
    items.take_all(code)?;
    Ok(items.around(place))
}

/// The item of a text around a place.
fn item_around(alloc: Global, text: &str, place: usize) -> Result<Option<Span>, AllocError> {
    let code = code_of(alloc, text)?;
    item_of(alloc, code.as_slice(), place)
}

/// A text without one of its items, in whose place there are as many blanks.
#[derive(Drop)]
pub struct Skipped {
    pub text: String,
    /// Where the item was.
    pub span: Span,
}

/// The text with blanks at a span. Lines stay as they are.
fn blanked(alloc: Global, text: &str, span: Span) -> Result<String, AllocError> {
    let mut left = TextBuilder::new(alloc);
    left.push(text.get(..span.start).unwrap_or(""));
    for byte in text.get(span.start..span.end).unwrap_or("").as_bytes() {
        left.push_char(if *byte == b'\n' { '\n' } else { ' ' });
    }
    left.push(text.get(span.end..).unwrap_or(""));
    left.finish()
}

/// A text without the item at a place: a member of an interface or a world, or the whole of one. None if it is the line
/// of the package, or if the braces of the text are no pairs.
pub fn without_item(
    alloc: Global,
    text: &str,
    place: usize,
) -> Result<Option<Skipped>, AllocError> {
    let Some(span) = item_around(alloc, text, place)? else {
        return Ok(None);
    };
    let item = text.get(span.start..span.end).unwrap_or("");
    if item.is_empty() || item.trim_start_matches('\u{FEFF}').starts_with("package") {
        return Ok(None);
    }
    let text = blanked(alloc, text, span)?;
    Ok(Some(Skipped { text, span }))
}
