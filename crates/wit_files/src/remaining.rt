//! A package that is read again without items that have faults.

use crate::members::{Member, append};
use crate::texts::{read_if_whole, tokens_of, tree_below};
use std::alloc::{AllocError, Global};
use wit_comments::{Skipped, without_item};
use wit_faults::Lexed;
use wit_places::names_of_types;
use wit_text::{Ast, Span, TextError, parse};

/// A package without the items that were skipped.
#[derive(Drop)]
pub struct RemainingItems<'a> {
    alloc: Global,
    /// The name of the package, as a text spells it.
    package: String,
    /// Its files: their whole texts, and the tokens without those of items that were skipped.
    pub files: Vec<Lexed<'a>>,
    /// The texts with blanks in place of items that were skipped.
    texts: Vec<String>,
    /// The types that items which were skipped declare or use.
    names: Vec<&'a str>,
}

impl<'a> RemainingItems<'a> {
    /// The whole of a package.
    pub fn of(alloc: Global, member: &Member<'a>) -> Result<RemainingItems<'a>, AllocError> {
        let mut rest = RemainingItems {
            alloc,
            package: member.package().to_string(alloc)?,
            files: Vec::new(alloc),
            texts: Vec::new(alloc),
            names: Vec::new(alloc),
        };
        rest.add_files(member.files.as_slice())?;
        Ok(rest)
    }

    /// Adds files.
    fn add_files(&mut self, files: &[Lexed<'a>]) -> Result<(), AllocError> {
        for lexed in files {
            let (path, text) = (lexed.path, lexed.text);
            let tokens = tokens_of(self.alloc, text)?;
            self.files.push(Lexed { path, text, tokens })?;
            self.texts.push(String::from_str(self.alloc, lexed.text)?)?;
        }
        Ok(())
    }

    /// The text of a file at a span.
    fn item_at(&self, file: usize, span: Span) -> &'a str {
        match self.files.get(file) {
            Some(lexed) => lexed.at(span),
            None => "",
        }
    }

    /// Notes the types that an item declares or uses.
    fn note_names(&mut self, item: &'a str) -> Result<(), AllocError> {
        let lexed = Lexed {
            path: "",
            text: item,
            tokens: tokens_of(self.alloc, item)?,
        };
        let mut names = names_of_types(self.alloc, &lexed)?;
        self.names.append(&mut names)?;
        Ok(())
    }

    /// Gives a file another text.
    fn replace(&mut self, file: usize, left: String) -> Result<(), AllocError> {
        let tokens = tokens_of(self.alloc, left.as_str())?;
        if let Some(lexed) = self.files.get_mut(file) {
            lexed.tokens = tokens;
        }
        if let Some(text) = self.texts.get_mut(file) {
            *text = left;
        }
        Ok(())
    }

    /// The text of a file without the item at a place.
    fn without(&self, file: usize, place: usize) -> Result<Option<Skipped>, AllocError> {
        match self.texts.get(file) {
            Some(text) => without_item(self.alloc, text.as_str(), place),
            None => Ok(None),
        }
    }

    /// The number of the file that has this path.
    pub fn file_at(&self, path: &str) -> Option<usize> {
        self.files.iter().position(|lexed| lexed.path == path)
    }

    /// Skips the item at a place of a file. False if there is none.
    pub fn skip(&mut self, file: usize, place: usize) -> Result<bool, AllocError> {
        let Some(skipped) = self.without(file, place)? else {
            return Ok(false);
        };
        self.note_names(self.item_at(file, skipped.span))?;
        self.replace(file, skipped.text)?;
        Ok(true)
    }

    /// Whether an item that was skipped declares or uses a type of this name.
    pub fn has_skipped(&self, name: &str) -> bool {
        self.names.iter().any(|skipped| *skipped == name)
    }

    /// The tree of one of its files.
    fn tree_of(&self, lexed: &Lexed<'_>, text: &str) -> Result<Ast, TextError> {
        if lexed.has_package_line() {
            parse(self.alloc, text)
        } else {
            tree_below(self.alloc, self.package.as_str(), text)
        }
    }

    /// The tree of what is left. None if a text of it can't be read.
    pub fn tree(&self) -> Result<Option<Ast>, AllocError> {
        let mut whole: Option<Ast> = None;
        for (lexed, text) in self.files.iter().zip(self.texts.iter()) {
            let Some(tree) = read_if_whole(self.tree_of(lexed, text.as_str()))? else {
                return Ok(None);
            };
            match &mut whole {
                Some(first) => append(first, tree.items)?,
                None => whole = Some(tree),
            }
        }
        Ok(whole)
    }
}
