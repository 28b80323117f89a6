//! How long items are, if each is written in one line.

use crate::atom::Atom;
use crate::role::{Role, has_entries, is_item};
use crate::source::Source;
use crate::spacing::is_spaced;
use std::alloc::{AllocError, Global};
use wit_tokens::PieceKind;
use wit_tree::{Node, NodeKind};

/// The width of an item that is not written in one line.
const BROKEN: usize = 1_000_000_000;

/// What there is up to a word, and with it.
#[derive(Clone, Copy)]
struct Sums {
    /// The column at which the word begins, if all is in one line.
    start: usize,
    /// The column behind it.
    end: usize,
    /// The comments that make a line end.
    breaks: usize,
    /// The words that begin a line of the text.
    lines: usize,
}

/// The words so far, in one line.
#[derive(Drop)]
struct Line<'a> {
    text: &'a str,
    item: NodeKind,
    last: Option<PieceKind>,
    sums: Sums,
}

impl<'a> Line<'a> {
    /// No word yet.
    fn new(text: &'a str) -> Line<'a> {
        Line {
            text,
            item: NodeKind::File,
            last: None,
            sums: Sums {
                start: 0,
                end: 0,
                breaks: 0,
                lines: 0,
            },
        }
    }

    /// Adds a comment.
    fn add_between(&mut self, atom: Atom) {
        let width = atom.width().saturating_add(1);
        self.sums.end = self.sums.end.saturating_add(width);
        let is_break = atom.is_behind_line()
            || atom.is_line_comment(self.text)
            || atom.text(self.text).contains('\n');
        if is_break {
            self.sums.breaks = self.sums.breaks.saturating_add(1);
        }
    }

    /// The columns between the last word and this one.
    fn space_before(&self, kind: PieceKind, role: Role) -> usize {
        match self.last {
            Some(last) if role != Role::Path && is_spaced(self.item, last, kind) => 1,
            _ => 0,
        }
    }

    /// Adds a word.
    fn add_word(&mut self, atom: Atom, role: Role, begins_line: bool) {
        if let Role::Item(kind) = role {
            self.item = kind;
        }
        let space = self.space_before(atom.kind, role);
        self.sums.start = self.sums.end.saturating_add(space);
        self.sums.end = self.sums.start.saturating_add(atom.width());
        if begins_line {
            self.sums.lines = self.sums.lines.saturating_add(1);
        }
        self.last = Some(atom.kind);
    }
}

/// The sums of each word.
fn sums_of(alloc: Global, source: &Source<'_>) -> Result<Vec<Sums>, AllocError> {
    let mut sums = Vec::with_capacity(alloc, source.roles.len())?;
    let mut line = Line::new(source.text);
    for atom in source.atoms.as_slice() {
        if !atom.is_word() {
            line.add_between(*atom);
            continue;
        }
        let at = sums.len();
        line.add_word(*atom, source.role(at), source.begins_line(at));
        sums.push(line.sums)?;
    }
    Ok(sums)
}

/// The sums of the first and of the last word of a node.
fn ends_of(sums: &[Sums], node: Node) -> Option<(Sums, Sums)> {
    let first = sums.get(node.from)?;
    let last = sums.get(node.to.checked_sub(1)?)?;
    Some((*first, *last))
}

/// Whether a line of the text begins in braces, behind the first.
fn is_in_lines(sums: &[Sums], body: Node) -> bool {
    match ends_of(sums, body) {
        Some((first, last)) => first.lines < last.lines,
        None => false,
    }
}

/// The width of an item that has these braces, if they are its own.
fn width_of(sums: &[Sums], node: Node, body: Option<Node>) -> usize {
    let Some((first, last)) = ends_of(sums, node) else {
        return BROKEN;
    };
    let in_lines = match body {
        Some(body) => {
            has_entries(node.kind) && node.from <= body.from && is_in_lines(sums, body)
        }
        None => false,
    };
    if in_lines || first.breaks < last.breaks {
        return BROKEN;
    }
    last.end.saturating_sub(first.start)
}

/// The width of each item in one line, at the item's first word. One that is not written in one line is wider than any
/// line.
pub fn widths_of(alloc: Global, source: &Source<'_>) -> Result<Vec<usize>, AllocError> {
    let sums = sums_of(alloc, source)?;
    let mut widths = vec![in alloc; 0; sums.len()]?;
    let mut body = None;
    for node in source.tree.nodes.as_slice() {
        if node.kind == NodeKind::Body {
            body = Some(*node);
        }
        if !is_item(node.kind) {
            continue;
        }
        if let Some(width) = widths.get_mut(node.from) {
            *width = width_of(sums.as_slice(), *node, body);
        }
    }
    Ok(widths)
}
