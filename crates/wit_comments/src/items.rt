//! Where the items of a text begin.

use std::alloc::{AllocError, Global};
use wit_places::{Lexed, keyword_at, mark_at};
use wit_text::{Keyword, Punctuation};

/// An item: a package, an interface or a world, what this has, or a field, a case or a label. A name is empty if the
/// item stands higher.
#[derive(Clone, Copy)]
pub struct Item<'a> {
    /// The token that it begins with.
    pub first: usize,
    pub scope: &'a str,
    /// What is imported or exported has the keyword too.
    pub side: Option<Keyword>,
    pub name: &'a str,
    pub member: &'a str,
}

/// The walk over the tokens of a text.
#[derive(Drop)]
struct Walk<'a> {
    lexed: &'a Lexed<'a>,
    items: Vec<Item<'a>>,
    depth: usize,
    /// How many `<` and `(` are open.
    open: usize,
    /// Whether the names of a `use` are read.
    is_used: bool,
    /// Whether an item may begin.
    is_start: bool,
    scope: &'a str,
    name: &'a str,
}

/// The last name of the path that begins at a token.
fn last_name<'a>(lexed: &'a Lexed<'a>, first: usize) -> &'a str {
    let mut name = "";
    for index in first..lexed.tokens.len() {
        match lexed.name_at(index) {
            Some(found) => name = found,
            None if lexed.is_mark(index, Punctuation::Semicolon) => return name,
            None if lexed.is_keyword(index.saturating_add(1), Keyword::Func) => return name,
            None => {}
        }
    }
    name
}

impl<'a> Walk<'a> {
    fn push(
        &mut self,
        first: usize,
        side: Option<Keyword>,
        member: &'a str,
    ) -> Result<(), AllocError> {
        let (scope, name) = (self.scope, self.name);
        self.items.push(Item {
            first,
            scope,
            side,
            name,
            member,
        })?;
        Ok(())
    }

    /// The package, an interface or a world.
    fn begin_outer(&mut self, index: usize) -> Result<(), AllocError> {
        match keyword_at(self.lexed, index) {
            Some(Keyword::Interface | Keyword::World) => {
                self.scope = self.lexed.name_at(index.saturating_add(1)).unwrap_or("");
            }
            Some(Keyword::Package) => self.scope = "",
            _ => return Ok(()),
        }
        self.name = "";
        self.push(index, None, "")
    }

    /// A type, a function, an import or an export.
    fn begin_inner(&mut self, index: usize) -> Result<(), AllocError> {
        let next = index.saturating_add(1);
        let side = match keyword_at(self.lexed, index) {
            Some(Keyword::Use) => return Ok(()),
            Some(side @ (Keyword::Import | Keyword::Export)) => {
                self.name = last_name(self.lexed, next);
                Some(side)
            }
            Some(_) => {
                self.name = self.lexed.name_at(next).unwrap_or("");
                None
            }
            None => {
                self.name = self.lexed.name_at(index).unwrap_or("");
                None
            }
        };
        self.push(index, side, "")
    }

    fn begin(&mut self, index: usize) -> Result<(), AllocError> {
        match self.depth {
            0 => self.begin_outer(index),
            1 => self.begin_inner(index),
            _ => {
                let member = self.lexed.name_at(index).unwrap_or("");
                self.push(index, None, member)
            }
        }
    }

    fn open_brace(&mut self, index: usize) {
        if self.lexed.is_used_list(index) {
            self.is_used = true;
        } else {
            self.depth = self.depth.saturating_add(1);
            self.is_start = true;
        }
    }

    fn close_brace(&mut self) {
        if self.is_used {
            self.is_used = false;
        } else {
            self.depth = self.depth.saturating_sub(1);
            self.is_start = true;
        }
    }

    fn take(&mut self, index: usize) -> Result<(), AllocError> {
        let is_start = self.is_start;
        self.is_start = false;
        match mark_at(self.lexed, index) {
            Some(Punctuation::OpenBrace) => self.open_brace(index),
            Some(Punctuation::CloseBrace) => self.close_brace(),
            Some(Punctuation::Semicolon) => self.is_start = true,
            Some(Punctuation::Comma) => self.is_start = self.depth >= 2 && self.open == 0,
            Some(Punctuation::Less | Punctuation::OpenParenthesis) => {
                self.open = self.open.saturating_add(1);
            }
            Some(Punctuation::Greater | Punctuation::CloseParenthesis) => {
                self.open = self.open.saturating_sub(1);
            }
            _ if is_start => self.begin(index)?,
            _ => {}
        }
        Ok(())
    }
}

/// The items of a text, in its order.
pub fn items_of<'a>(alloc: Global, lexed: &'a Lexed<'a>) -> Result<Vec<Item<'a>>, AllocError> {
    let mut walk = Walk {
        lexed,
        items: Vec::new(alloc),
        depth: 0,
        open: 0,
        is_used: false,
        is_start: true,
        scope: "",
        name: "",
    };
    for index in 0..lexed.tokens.len() {
        walk.take(index)?;
    }
    Ok(walk.items)
}
