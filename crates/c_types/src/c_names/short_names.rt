//! Names without what the names of their package begin with.

use crate::c_names::names::Names;
use crate::c_names::words::is_reserved;
use atoms::KeyedState;
use indexmap::IndexSet;
use std::alloc::{AllocError, Global};
use text_builder::TextBuilder;

/// What a name in C is of.
#[derive(Clone, Copy)]
pub enum NameKind {
    Type,
    Function,
    Constant,
}

/// A name, and the same without its package.
#[derive(Drop)]
struct ShortName {
    kind: NameKind,
    full: String,
    short: String,
}

/// The short names of a header.
#[derive(Drop)]
pub struct ShortNames {
    alloc: Global,
    list: Vec<ShortName>,
    met: IndexSet<String, KeyedState>,
    repeated: IndexSet<String, KeyedState>,
}

/// Whether a name is, or may be, one of C, of its libraries or of what all headers have.
fn is_foreign(name: &str) -> bool {
    is_reserved(name)
        || name.ends_with("_t")
        || name.starts_with("wit_")
        || name.starts_with("WIT_")
        || name.starts_with("witcall_")
        || name.starts_with("WITCALL_")
}

/// A name without its first letters.
fn without_first(alloc: Global, name: &str, count: usize) -> Result<String, AllocError> {
    let mut rest = TextBuilder::new(alloc);
    for character in name.chars().skip(count) {
        rest.push_char(character);
    }
    rest.finish()
}

/// A name of a type without a name, of which the parts lose what the names of their package begin with.
fn without_each(alloc: Global, name: &str, front: &str) -> Result<String, AllocError> {
    let (mut made, mut rest) = (TextBuilder::new(alloc), name);
    for _ in 0..name.len() {
        let Some((before, after)) = rest.split_once(front) else {
            break;
        };
        made.push(before);
        rest = after;
    }
    made.push(rest);
    made.finish()
}

/// Writes the line that defines a short name.
fn push_line(text: &mut TextBuilder, name: &ShortName) {
    let (full, short) = (name.full.as_str(), name.short.as_str());
    match name.kind {
        NameKind::Type => {
            text.push_three("typedef ", full, " ");
            text.push(short);
            text.push(";\n");
        }
        NameKind::Function => {
            text.push_three("#define ", short, "(...) ");
            text.push(full);
            text.push("(__VA_ARGS__)\n");
        }
        NameKind::Constant => {
            text.push_three("#define ", short, " ");
            text.push(full);
            text.push("\n");
        }
    }
}

impl ShortNames {
    pub fn new(alloc: Global, keyed: KeyedState) -> ShortNames {
        ShortNames {
            alloc,
            list: Vec::new(alloc),
            met: IndexSet::with_hasher(alloc, keyed),
            repeated: IndexSet::with_hasher(alloc, keyed),
        }
    }

    /// Notes that a name has this short name.
    fn meet(&mut self, short: &str) -> Result<(), AllocError> {
        let name = String::from_str(self.alloc, short)?;
        if self.met.contains(short) {
            self.repeated.insert(name)?;
        } else {
            self.met.insert(name)?;
        }
        Ok(())
    }

    fn insert(&mut self, kind: NameKind, full: &str, short: String) -> Result<(), AllocError> {
        self.meet(short.as_str())?;
        self.list.push(ShortName {
            kind,
            full: String::from_str(self.alloc, full)?,
            short,
        })?;
        Ok(())
    }

    /// Adds a name that is taken, in a package whose names begin so. A type without a name that has no parts of the
    /// package has no short name.
    pub fn add(&mut self, kind: NameKind, front: &str, full: &str) -> Result<(), AllocError> {
        let alloc = self.alloc;
        if matches!(kind, NameKind::Constant) || full.starts_with(front) {
            let short = without_first(alloc, full, front.len())?;
            if !is_foreign(short.as_str()) {
                self.insert(kind, full, short)?;
            }
            return Ok(());
        }
        let short = without_each(alloc, full, front)?;
        if short.len() < full.len() {
            self.insert(kind, full, short)?;
        }
        Ok(())
    }

    /// Writes the lines that define the short names that nothing else has.
    pub fn push_lines(&self, text: &mut TextBuilder, names: &Names) {
        for name in &self.list {
            let short = name.short.as_str();
            if !self.repeated.contains(short) && !names.has(short) {
                push_line(text, name);
            }
        }
    }
}
