//! A place of a tree, and what is around it.

use std::alloc::{AllocError, Global};
use wit_tokens::{Keyword, PieceKind, Punctuation, TokenKind};
use wit_tree::{Node, NodeKind, Tree, Word, is_name};

/// For each word the innermost node of those that tell where it is, and for each node the one around it.
#[derive(Drop)]
pub struct Scopes {
    of_words: Vec<usize>,
    around: Vec<usize>,
}

/// Whether a node tells where its words are.
fn is_scope(kind: NodeKind) -> bool {
    !matches!(
        kind,
        NodeKind::File
            | NodeKind::Body
            | NodeKind::Name
            | NodeKind::NameUse
            | NodeKind::Type
            | NodeKind::Field
            | NodeKind::Parameter
            | NodeKind::Label
            | NodeKind::UsedName
    )
}

/// Notes a node for its words.
fn paint(words: &mut [usize], node: &Node, index: usize) {
    for at in node.from..node.to {
        if at < words.len() {
            words[at] = index;
        }
    }
}

impl Scopes {
    pub fn of(alloc: Global, tree: &Tree) -> Result<Scopes, AllocError> {
        let none = tree.nodes.len();
        let mut of_words = vec![in alloc; none; tree.words.len()]?;
        let mut around = vec![in alloc; none; none]?;
        for (index, node) in tree.nodes.as_slice().iter().enumerate().rev() {
            if is_scope(node.kind) {
                if index < around.len() && node.from < of_words.len() {
                    around[index] = of_words[node.from];
                }
                paint(of_words.as_mut_slice(), node, index);
            }
        }
        Ok(Scopes { of_words, around })
    }
}

/// A word of a tree, or its end.
#[derive(Clone, Copy)]
pub struct Spot<'a> {
    pub text: &'a str,
    pub tree: &'a Tree,
    pub scopes: &'a Scopes,
    pub at: usize,
}

impl<'a> Spot<'a> {
    /// The word at an index. No text if there is none.
    pub fn word(self, index: usize) -> &'a str {
        match self.tree.words.as_slice().get(index) {
            Some(word) => self.between(word.start as usize, word.end as usize),
            None => "",
        }
    }

    /// The text between two bytes. No text if they are not in it.
    pub fn between(self, start: usize, end: usize) -> &'a str {
        self.text.get(start..end).unwrap_or("")
    }

    /// The text from a byte on.
    pub fn behind(self, start: usize) -> &'a str {
        self.text.get(start..).unwrap_or("")
    }

    /// The text of the words `from..=to`.
    pub fn words(self, from: usize, to: usize) -> &'a str {
        self.between(self.start(from), self.end(to))
    }

    /// The word here.
    pub fn here(self) -> &'a str {
        self.word(self.at)
    }

    /// The word before. No text if this is the first.
    pub fn before(self) -> &'a str {
        match self.at.checked_sub(1) {
            Some(index) => self.word(index),
            None => "",
        }
    }

    /// The index of a word so far behind this one.
    pub fn ahead(self, count: usize) -> usize {
        self.at.saturating_add(count)
    }

    fn kind(self, index: usize) -> Option<PieceKind> {
        match self.tree.words.as_slice().get(index) {
            Some(word) => Some(word.kind),
            None => None,
        }
    }

    /// The mark at an index, if one is there.
    pub fn mark(self, index: usize) -> Option<Punctuation> {
        match self.kind(index) {
            Some(PieceKind::Token(TokenKind::Punctuation(mark))) => Some(mark),
            _ => None,
        }
    }

    /// The mark before, if one is there.
    pub fn mark_before(self) -> Option<Punctuation> {
        self.mark(self.at.checked_sub(1)?)
    }

    /// The keyword at an index, if one is there.
    pub fn keyword(self, index: usize) -> Option<Keyword> {
        match self.kind(index) {
            Some(PieceKind::Token(TokenKind::Keyword(keyword))) => Some(keyword),
            _ => None,
        }
    }

    /// Whether a word is at an index that may be meant as a name, and is no keyword.
    pub fn is_name(self, index: usize) -> bool {
        match self.kind(index) {
            Some(kind) => is_name(kind),
            None => false,
        }
    }

    /// Whether a name or a keyword is at an index.
    pub fn is_word(self, index: usize) -> bool {
        self.is_name(index) || self.keyword(index).is_some()
    }

    /// Whether the word here is none of WIT.
    pub fn is_bad(self) -> bool {
        self.kind(self.at) == Some(PieceKind::BadWord)
    }

    pub fn is_version(self, index: usize) -> bool {
        self.kind(index) == Some(PieceKind::Token(TokenKind::Version))
    }

    pub fn is_number(self, index: usize) -> bool {
        self.kind(index) == Some(PieceKind::Token(TokenKind::Integer))
    }

    /// Whether a name and `:` are at an index.
    pub fn is_named(self, index: usize) -> bool {
        self.is_word(index) && self.mark(index.saturating_add(1)) == Some(Punctuation::Colon)
    }

    /// Where the word at an index begins: the end of the text if there is none.
    pub fn start(self, index: usize) -> usize {
        match self.tree.words.as_slice().get(index) {
            Some(word) => word.start as usize,
            None => self.text.len(),
        }
    }

    /// Where the word at an index ends: the end of the text if there is none.
    pub fn end(self, index: usize) -> usize {
        match self.tree.words.as_slice().get(index) {
            Some(word) => word.end as usize,
            None => self.text.len(),
        }
    }

    /// Where the word before this one ends.
    pub fn end_before(self) -> usize {
        match self.at.checked_sub(1) {
            Some(index) => self.end(index),
            None => 0,
        }
    }

    /// Whether this is the first word of its line, or the end.
    pub fn begins_line(self) -> bool {
        match self.tree.words.as_slice().get(self.at) {
            Some(word) => word.begins_line,
            None => true,
        }
    }

    /// Where the line ends that the word at an index begins in.
    pub fn line_end(self, index: usize) -> usize {
        let start = self.start(index);
        match self.behind(start).split_once('\n') {
            Some((line, _)) => start.saturating_add(line.len()),
            None => self.text.len(),
        }
    }

    /// Whether two words have nothing between them.
    pub fn are_joined(self, index: usize) -> bool {
        self.end(index) == self.start(index.saturating_add(1))
    }

    /// The node at an index.
    fn node(self, index: usize) -> Option<Node> {
        self.tree.nodes.as_slice().get(index).copied()
    }

    /// The innermost node that tells where a word is.
    pub fn scope(self, word: usize) -> Option<Node> {
        self.node(*self.scopes.of_words.as_slice().get(word)?)
    }

    /// The innermost node of a word that could be read.
    pub fn read_scope(self, word: usize) -> Option<Node> {
        let mut index = *self.scopes.of_words.as_slice().get(word)?;
        for _turn in 0..4 {
            let node = self.node(index)?;
            if node.kind != NodeKind::Skipped {
                return Some(node);
            }
            index = *self.scopes.around.as_slice().get(index)?;
        }
        None
    }

    /// What a word is in, of what could be read. It is a file, if it is in nothing else.
    pub fn within(self, word: usize) -> NodeKind {
        match self.read_scope(word) {
            Some(node) => node.kind,
            None => NodeKind::File,
        }
    }

    /// What the word before is in.
    pub fn within_before(self) -> NodeKind {
        self.within(self.at.saturating_sub(1))
    }

    /// The index of the last word that is passed over from here on: this one, if none is.
    pub fn last_skipped(self) -> usize {
        match self.scope(self.at) {
            Some(node) if node.kind == NodeKind::Skipped && node.from == self.at => {
                node.to.saturating_sub(1)
            }
            _ => self.at,
        }
    }

    /// The same tree at another word.
    pub fn moved(self, at: usize) -> Spot<'a> {
        Spot { at, ..self }
    }
}
