//! A parser's state: the words, the nodes so far and the faults so far.
ghost use Rattle.std.specs.Prelude.{◌≡◌, ◌≤◌, ◌+◌, ◌↔◌, min, length, [], All, IfOk, IsTrue, false, if◌then◌else◌};
ghost use Rattle.std.specs.Option.{option_map_or};
ghost use Rattle.tree_nodes.specs.Forests.{Forest};
ghost use Rattle.wit_tree.specs.Faults.{IsNoted, IsWithin};
ghost use Rattle.wit_tree.specs.Words.{is_name, kind_at};

use crate::fault::{Fault, Fix, Problem, Wanted};
use crate::word::{Word, is_name};
use std::alloc::{AllocError, Global};
use tree_nodes::{Builder, Node, NodeKind};
use wit_tokens::{Feature, Keyword, PieceKind, Punctuation, TokenKind};

/// Whether the last of these faults is at this word, and hides others that are noted there.
fn is_told(faults: &[Fault], at: usize) -> bool {
    match faults.last() {
        Some(fault) => fault.from == at && !matches!(fault.problem, Problem::Outside(_)),
        None => false,
    }
}

/// The kind of a mark.
fn mark_kind(mark: Punctuation) -> PieceKind {
    PieceKind::Token(TokenKind::Punctuation(mark))
}

/// Whether the braces are pairs.
fn has_pairs(words: &[Word]) -> bool {
    let mut level = 0usize;
    for word in words {
        if word.kind == mark_kind(Punctuation::OpenBrace) {
            level = level.saturating_add(1);
        } else if word.kind == mark_kind(Punctuation::CloseBrace) {
            if level == 0 {
                return false;
            }
            level -= 1;
        }
    }
    level == 0
}

/// What a parser made of its words.
#[derive(Drop)]
pub struct Parsed {
    pub nodes: Vec<Node>,
    pub faults: Vec<Fault>,
}

/// A parser before one of its words. Functions of the grammar take it, and have no results. Once an allocation was
/// refused, it goes on to the end, and `finish` fails.
#[derive(Drop)]
pub struct Parser<'a> {
    words: &'a [Word],
    has_pairs: bool,
    builder: Builder,
    faults: Vec<Fault>,
    is_whole: bool,
    ghost counted: { builder.count ≡ length words.now },
    ghost within: { All (IsWithin builder.count) faults.items },
}

impl<'a> Parser<'a> {
    /// A parser before the first of these words.
    pub fn new(alloc: Global, words: &'a [Word]) -> Parser<'a>
        ensures words { result.words.now ≡ words.now }
        ensures at { result.builder.taken ≡ 0 }
        ensures faults { result.faults.items ≡ [] }
    {
        Parser {
            words,
            has_pairs: has_pairs(words),
            builder: Builder::new(alloc, words.len()),
            faults: Vec::new(alloc),
            is_whole: true,
        }
    }

    /// Whether the braces of the text are pairs.
    pub fn has_pairs(&self) -> bool
        ensures { result ≡ self.now.has_pairs }
    {
        self.has_pairs
    }

    /// The index of the next word.
    pub fn at(&self) -> usize
        ensures is { result ≡ self.now.builder.taken }
        ensures within { result ≤ length self.now.words.now }
    {
        self.builder.taken()
    }

    /// How many words are left.
    pub fn left(&self) -> usize
        ensures { result + self.now.builder.taken ≡ length self.now.words.now }
    {
        self.words.len() - self.builder.taken()
    }

    /// Whether no word is left.
    pub fn is_over(&self) -> bool
        ensures { IsTrue result ↔ (self.now.builder.taken ≡ length self.now.words.now) }
    {
        self.left() == 0
    }

    /// The kind of the word so many after the next one.
    pub fn ahead(&self, count: usize) -> Option<PieceKind>
        ensures { result ≡ kind_at self.now.words.now (self.now.builder.taken + count) }
    {
        if count < self.left() {
            Some(self.words[self.builder.taken() + count].kind)
        } else {
            None
        }
    }

    /// Whether the word so many after the next one is this mark.
    pub fn is_mark_ahead(&self, count: usize, mark: Punctuation) -> bool
        ensures { IsTrue result ↔ (kind_at self.now.words.now (self.now.builder.taken + count)
            ≡ Some (PieceKind.Token (TokenKind.Punctuation mark))) }
    {
        self.ahead(count) == Some(PieceKind::Token(TokenKind::Punctuation(mark)))
    }

    /// Whether the word so many after the next one is this keyword.
    pub fn is_keyword_ahead(&self, count: usize, keyword: Keyword) -> bool
        ensures { IsTrue result ↔ (kind_at self.now.words.now (self.now.builder.taken + count)
            ≡ Some (PieceKind.Token (TokenKind.Keyword keyword))) }
    {
        self.ahead(count) == Some(PieceKind::Token(TokenKind::Keyword(keyword)))
    }

    /// Whether the word so many after the next one may be meant as a name, and is no keyword.
    pub fn is_name_ahead(&self, count: usize) -> bool
        ensures { result ≡ option_map_or is_name (kind_at self.now.words.now (self.now.builder.taken + count)) false }
    {
        self.ahead(count).is_some_and(is_name)
    }

    /// Whether the word so many after the next one is a keyword.
    pub fn is_any_keyword_ahead(&self, count: usize) -> bool {
        matches!(
            self.ahead(count),
            Some(PieceKind::Token(TokenKind::Keyword(_)))
        )
    }

    /// Whether the next word is this mark.
    pub fn is_mark(&self, mark: Punctuation) -> bool
        ensures { IsTrue result ↔ (kind_at self.now.words.now self.now.builder.taken
            ≡ Some (PieceKind.Token (TokenKind.Punctuation mark))) }
    {
        self.is_mark_ahead(0, mark)
    }

    /// Whether the next word is this keyword.
    pub fn is_keyword(&self, keyword: Keyword) -> bool
        ensures { IsTrue result ↔ (kind_at self.now.words.now self.now.builder.taken
            ≡ Some (PieceKind.Token (TokenKind.Keyword keyword))) }
    {
        self.is_keyword_ahead(0, keyword)
    }

    /// Whether the next word may be meant as a name, and is no keyword.
    pub fn is_name(&self) -> bool
        ensures { result ≡ option_map_or is_name (kind_at self.now.words.now self.now.builder.taken) false }
    {
        self.is_name_ahead(0)
    }

    /// Whether the next word is the first of its line, or there is none.
    pub fn begins_line(&self) -> bool {
        match self.words.get(self.builder.taken()) {
            Some(word) => word.begins_line,
            None => true,
        }
    }

    /// Whether a bad character is right before the next word.
    fn is_behind_bad(&self) -> bool {
        match self.words.get(self.builder.taken()) {
            Some(word) => word.is_behind_bad,
            None => false,
        }
    }

    /// Takes the next word.
    pub fn take(&mut self)
        ensures { self.new.builder.taken ≡ min (self.old.builder.taken + 1) (length self.old.words.now) }
    {
        self.builder.take();
    }

    /// Opens a node before the next word.
    pub fn start_node(&mut self)
        ensures { self.new.builder.taken ≡ self.old.builder.taken }
    {
        self.builder.start_node();
    }

    /// Closes the node that was opened last, after the last word that was taken.
    pub fn end_node(&mut self, kind: NodeKind)
        ensures { self.new.builder.taken ≡ self.old.builder.taken }
    {
        self.builder.end_node(kind);
    }

    /// Notes a fault of so many words, from the next one on. It is not noted if there is one at this word, or a bad
    /// character right before it.
    pub fn note(&mut self, problem: Problem, count: usize, fix: Fix)
        ensures at { self.new.builder.taken ≡ self.old.builder.taken }
        ensures faults { IsNoted problem fix self.old.builder.taken self.old.faults.items self.new.faults.items }
    {
        let from = self.builder.taken();
        if is_told(self.faults.as_slice(), from) || self.is_behind_bad() {
            return;
        }
        let fault = Fault {
            problem,
            from,
            to: from.saturating_add(count).min(self.builder.count()),
            fix,
        };
        if self.faults.push(fault).is_err() {
            self.is_whole = false;
        }
    }

    /// Notes that something else is needed at the next word.
    pub fn wanted(&mut self, wanted: Wanted)
        ensures at { self.new.builder.taken ≡ self.old.builder.taken }
        ensures faults { IsNoted (Problem.Expected wanted) Fix.None self.old.builder.taken
            self.old.faults.items self.new.faults.items }
    {
        self.note(Problem::Expected(wanted), 1, Fix::None);
    }

    /// Notes what is WIT, and is not read here.
    pub fn outside(&mut self, feature: Feature)
        ensures at { self.new.builder.taken ≡ self.old.builder.taken }
        ensures faults { IsNoted (Problem.Outside feature) Fix.None self.old.builder.taken
            self.old.faults.items self.new.faults.items }
    {
        self.note(Problem::Outside(feature), 1, Fix::None);
    }

    /// Takes the mark, or notes that it is missing.
    pub fn expect(&mut self, mark: Punctuation) {
        if !self.eats(mark) {
            self.note(Problem::Missing(mark), 1, Fix::InsertBefore(mark));
        }
    }

    /// Takes the mark if it is there.
    pub fn eats(&mut self, mark: Punctuation) -> bool
        ensures is { IsTrue result ↔ (kind_at self.old.words.now self.old.builder.taken
            ≡ Some (PieceKind.Token (TokenKind.Punctuation mark))) }
        ensures at { self.new.builder.taken ≡ self.old.builder.taken + (if result then 1 else 0) }
    {
        let is_there = self.is_mark(mark);
        if is_there {
            self.builder.take();
        }
        is_there
    }

    /// Takes the keyword if it is there.
    pub fn eats_keyword(&mut self, keyword: Keyword) -> bool
        ensures is { IsTrue result ↔ (kind_at self.old.words.now self.old.builder.taken
            ≡ Some (PieceKind.Token (TokenKind.Keyword keyword))) }
        ensures at { self.new.builder.taken ≡ self.old.builder.taken + (if result then 1 else 0) }
    {
        let is_there = self.is_keyword(keyword);
        if is_there {
            self.builder.take();
        }
        is_there
    }

    /// Takes the next word, which has to go.
    pub fn take_stray(&mut self) {
        self.note(Problem::Stray, 1, Fix::Remove);
        self.builder.start_node();
        self.builder.take();
        self.builder.end_node(NodeKind::Skipped);
    }

    /// The nodes over so many words, and the faults. It fails if an allocation was refused, or if these are not as many
    /// words as the parser has.
    pub fn finish(self, count: usize) -> Result<Parsed, AllocError>
        ensures nest { IfOk result (λ p. ∥ Forest 0 count p.nodes.items ∥₁) }
        ensures few { IfOk result (λ p. length p.nodes.items ≤ count + count) }
        ensures within { IfOk result (λ p. All (IsWithin count) p.faults.items) }
    {
        if !self.is_whole || self.builder.count() != count {
            return Err(AllocError);
        }
        let nodes = self.builder.finish(count)?;
        Ok(Parsed {
            nodes,
            faults: self.faults,
        })
    }
}
