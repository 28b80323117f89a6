//! What is written.

use atoms::KeyedState;
use c_types::c_names::{NameKind, Names, ShortNames};
use c_types::{Laid, Types};
use std::alloc::{AllocError, Global};
use std::mem::replace;
use text_builder::TextBuilder;
use wit_comments::{Block, Comments};

/// Who includes a header.
#[derive(Clone, Copy, PartialEq, Eq)]
pub enum Includer {
    /// A host, which has linear memories as arrays of bytes.
    Host,
    /// A guest, whose addresses are those of its linear memory.
    Guest,
}

/// Who a header is for, and what its items are said to be.
#[derive(Clone, Copy)]
pub struct Purpose<'a> {
    pub includer: Includer,
    pub comments: &'a Comments,
}

/// Appends what declares a name as one of a type, after a front.
pub(crate) fn push_declaration(text: &mut TextBuilder, front: &str, c: &str, name: &str) {
    text.push_three(front, c, " ");
    text.push(name);
    text.push(";\n");
}

/// Writes a text that takes effect once, which a name guards.
fn push_guarded(text: &mut TextBuilder, guard: &str, own: &str) {
    text.push_three("#ifndef ", guard, "\n#define ");
    text.push_three(guard, "\n", own);
    text.push_three("#endif /* ", guard, " */\n");
}

/// The header so far.
#[derive(Drop)]
pub struct Header<'a> {
    pub alloc: Global,
    pub purpose: Purpose<'a>,
    pub text: TextBuilder,
    pub names: Names,
    pub types: Types<'a>,
    short_names: ShortNames,
    /// What the names of the package begin with that is written.
    front: String,
}

impl<'a> Header<'a> {
    /// Nothing yet.
    pub fn new(
        alloc: Global,
        laid: Laid<'a>,
        keyed: KeyedState,
        purpose: Purpose<'a>,
    ) -> Result<Header<'a>, AllocError> {
        Ok(Header {
            alloc,
            purpose,
            text: TextBuilder::new(alloc),
            names: Names::new(alloc, keyed)?,
            types: Types::new(alloc, laid, keyed)?,
            short_names: ShortNames::new(alloc, keyed),
            front: String::new(alloc),
        })
    }

    /// Begins a package, whose names begin with a prefix and `_`.
    pub fn begin_package(&mut self, prefix: &str) {
        self.front = self.text.kept([prefix, "_"].concat(self.alloc));
    }

    /// Writes the comment of an item that these words name, and what it is.
    pub fn put_comment(&mut self, key: &str, last: &str) {
        let block = Block {
            open: "/*",
            indent: "",
            lines: self.purpose.comments.of(key),
            last,
        };
        self.text.push("\n");
        block.push(&mut self.text);
        self.text.push("\n");
    }

    /// Begins a text of its own, and gives the text before it.
    pub fn begin(&mut self) -> TextBuilder {
        replace(&mut self.text, TextBuilder::new(self.alloc))
    }

    /// Goes on with the text before, and gives the text of its own.
    pub fn end(&mut self, before: TextBuilder) -> String {
        let own = replace(&mut self.text, before);
        self.text.kept(own.finish())
    }

    /// Takes a name in upper case.
    pub fn take_upper(&mut self, name: &str) -> String {
        let upper = self.text.kept(name.to_ascii_uppercase(self.alloc));
        self.text.kept(self.names.take(upper))
    }

    /// Takes a name of a type or a function of the package.
    pub fn take_own(&mut self, kind: NameKind, name: String) -> String {
        let full = self.text.kept(self.names.take(name));
        let added = self
            .short_names
            .add(kind, self.front.as_str(), full.as_str());
        self.text.note(added);
        full
    }

    /// Takes a name of a function of the package, which consists of these words.
    pub(crate) fn take_function(&mut self, words: &[&str]) -> String {
        let name = self.text.kept(words.concat(self.alloc));
        self.take_own(NameKind::Function, name)
    }

    /// Takes a name of a constant of the package, in upper case.
    pub fn take_constant(&mut self, name: &str) -> String {
        let upper = self.text.kept(name.to_ascii_uppercase(self.alloc));
        self.take_own(NameKind::Constant, upper)
    }

    /// Writes the short names that nothing else has.
    pub fn put_short_names(&mut self) {
        self.short_names.push_lines(&mut self.text, &self.names);
    }

    /// Writes a text that takes effect once, though several headers have it. It is guarded by this name in upper case.
    pub fn put_guarded(&mut self, name: &str, text: &str) {
        let guard = self.take_upper(name);
        push_guarded(&mut self.text, guard.as_str(), text);
    }
}
