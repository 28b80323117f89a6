//! Where words are written.

use crate::role::{Role, has_entries};
use crate::spacing::{is_mark, is_spaced, mark_of};
use wit_tokens::{PieceKind, Punctuation};
use wit_tree::NodeKind;

/// The columns of a line.
const COLUMNS: usize = 100;

/// The columns of a level.
pub const INDENTATION: usize = 2;

/// What is written before a word.
#[derive(Clone, Copy, PartialEq, Eq)]
pub enum Gap {
    Nothing,
    Space,
    Line,
}

/// Where a word is written.
#[derive(Clone, Copy)]
pub struct Place {
    pub gap: Gap,
    /// The levels of a line that begins with it.
    pub depth: usize,
    /// The levels of comments before it that have lines of their own.
    pub comments: usize,
    /// The mark before it.
    pub last: Option<Punctuation>,
    /// It is the first in a list or a body, or what a gate is of.
    pub is_first: bool,
    /// It closes a list or a body.
    pub is_end: bool,
}

impl Place {
    /// The end of a text.
    pub fn end() -> Place {
        Place {
            gap: Gap::Line,
            depth: 0,
            comments: 0,
            last: None,
            is_first: false,
            is_end: true,
        }
    }

    /// Whether no space is before a comment that follows the mark before it.
    pub fn is_tight(self) -> bool {
        matches!(
            self.last,
            Some(Punctuation::Less) | Some(Punctuation::OpenParenthesis)
        )
    }
}

/// The words so far.
#[derive(Clone, Copy)]
pub struct Layout {
    /// The bodies that are open.
    depth: usize,
    item: NodeKind,
    /// The entries of the item have lines of their own.
    is_broken: bool,
    /// The braces that are open last have entries.
    in_list: bool,
    last: Option<PieceKind>,
}

impl Layout {
    /// No word yet.
    pub fn new() -> Layout {
        Layout {
            depth: 0,
            item: NodeKind::File,
            is_broken: false,
            in_list: false,
            last: None,
        }
    }

    /// A place with this gap, as deep as what stands in the item.
    fn at(&self, gap: Gap) -> Place {
        let inside = self.depth.saturating_add(1);
        let last = self.last.and_then(mark_of);
        let is_first = matches!(
            last,
            Some(Punctuation::OpenBrace) | Some(Punctuation::OpenParenthesis)
        );
        Place {
            gap,
            depth: inside,
            comments: inside,
            last,
            is_first,
            is_end: false,
        }
    }

    /// The place of a word on the line of the one before it.
    fn on_line(&self, kind: PieceKind) -> Place {
        match self.last {
            Some(last) if is_spaced(self.item, last, kind) => self.at(Gap::Space),
            _ => self.at(Gap::Nothing),
        }
    }

    /// The place of an item that is so wide in one line.
    fn item(&mut self, item: NodeKind, width: usize) -> Place {
        let mut place = self.at(Gap::Line);
        place.is_first = place.is_first || self.item == NodeKind::Gate;
        self.item = item;
        self.is_broken = self.depth.saturating_mul(INDENTATION).saturating_add(width) > COLUMNS;
        place.depth = self.depth;
        place.comments = self.depth;
        place
    }

    /// The place of a word that begins an entry.
    fn entry(&self, kind: PieceKind) -> Place {
        if self.is_broken {
            self.at(Gap::Line)
        } else {
            self.on_line(kind)
        }
    }

    /// The place of a mark that closes entries, or nothing.
    fn close(&self, kind: PieceKind) -> Place {
        let mut place = self.entry(kind);
        if place.last == Some(Punctuation::OpenParenthesis) {
            place.gap = Gap::Nothing;
        }
        place.depth = self.depth;
        place.is_end = true;
        place
    }

    /// The place of a `}`.
    fn close_brace(&mut self, kind: PieceKind) -> Place {
        if self.in_list {
            self.in_list = false;
            return self.close(kind);
        }
        let mut place = self.at(Gap::Line);
        if place.last == Some(Punctuation::OpenBrace) {
            place.gap = Gap::Nothing;
        }
        self.depth = self.depth.saturating_sub(1);
        place.depth = self.depth;
        place.comments = self.depth.saturating_add(1);
        place.is_end = true;
        place
    }

    /// The place of a `{`.
    fn open_brace(&mut self, kind: PieceKind) -> Place {
        let place = self.on_line(kind);
        if has_entries(self.item) {
            self.in_list = true;
        } else {
            self.depth = self.depth.saturating_add(1);
        }
        place
    }

    /// The place of a word that has no role.
    fn other(&mut self, kind: PieceKind) -> Place {
        if is_mark(kind, Punctuation::OpenBrace) {
            self.open_brace(kind)
        } else if is_mark(kind, Punctuation::CloseBrace) {
            self.close_brace(kind)
        } else {
            self.on_line(kind)
        }
    }

    /// The place of the next word. An item is so wide in one line.
    pub fn place(&mut self, kind: PieceKind, role: Role, width: usize) -> Place {
        let place = match role {
            Role::Item(item) => self.item(item, width),
            Role::Entry => self.entry(kind),
            Role::Close => self.close(kind),
            Role::Path => self.at(Gap::Nothing),
            Role::Other => self.other(kind),
        };
        self.last = Some(kind);
        place
    }
}
