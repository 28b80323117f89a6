//! Comments by items, and texts with them.

use crate::items::{Item, items_of};
use crate::lines::lines_of;
use std::alloc::{AllocError, Global};
use std::collections::BTreeMap;
use text_builder::TextBuilder;
use wit_places::{Lexed, PackageRef};
use wit_text::Keyword;

/// The comments of packages.
#[derive(Drop)]
pub struct Comments {
    alloc: Global,
    /// The lines of each, by the words that name the item.
    lines: BTreeMap<String, Vec<String>>,
}

/// The word before the name of an item of a world.
fn side_word(side: Option<Keyword>) -> &'static str {
    match side {
        Some(Keyword::Import) => "import ",
        Some(Keyword::Export) => "export ",
        _ => "",
    }
}

/// Appends the words that name an interface or a world of a package, or the package.
fn push_scope(key: &mut TextBuilder, package: PackageRef<'_>, scope: &str) {
    key.push_three(package.namespace, ":", package.name);
    if !scope.is_empty() {
        key.push("/");
        key.push(scope);
    }
    if let Some(version) = package.version {
        key.push("@");
        key.push(version);
    }
}

/// Appends the words that name what an interface or a world has.
fn push_item(key: &mut TextBuilder, item: &Item<'_>) {
    if !item.name.is_empty() {
        key.push(" ");
        key.push(side_word(item.side));
        key.push(item.name);
    }
    if !item.member.is_empty() {
        key.push(" ");
        key.push(item.member);
    }
}

/// The words that name an item of a package.
fn key_of(alloc: Global, package: PackageRef<'_>, item: &Item<'_>) -> Result<String, AllocError> {
    let mut key = TextBuilder::new(alloc);
    push_scope(&mut key, package, item.scope);
    push_item(&mut key, item);
    key.finish()
}

/// Where the text between the token before and a token is.
fn between<'a>(lexed: &Lexed<'a>, index: usize) -> &'a str {
    let start = match index.checked_sub(1) {
        Some(before) => lexed.span_at(before).map_or(0, |span| span.end),
        None => 0,
    };
    let end = lexed.span_at(index).map_or(start, |span| span.start);
    lexed.text.get(start..end).unwrap_or("")
}

impl Comments {
    /// No comments.
    pub fn new(alloc: Global) -> Comments {
        Comments {
            alloc,
            lines: BTreeMap::new(alloc),
        }
    }

    /// Adds the lines of the comment of an item of a package.
    fn insert(
        &mut self,
        package: PackageRef<'_>,
        item: &Item<'_>,
        lines: Vec<String>,
    ) -> Result<(), AllocError> {
        let key = key_of(self.alloc, package, item)?;
        self.lines.insert(key, lines)?;
        Ok(())
    }

    /// Adds the comment of an item of a file of a package, if it has one.
    fn add_item(
        &mut self,
        package: PackageRef<'_>,
        lexed: &Lexed<'_>,
        item: &Item<'_>,
    ) -> Result<(), AllocError> {
        let lines = lines_of(self.alloc, between(lexed, item.first))?;
        if lines.is_empty() {
            return Ok(());
        }
        self.insert(package, item, lines)
    }

    /// Adds those of a file of a package.
    pub fn add(&mut self, package: PackageRef<'_>, lexed: &Lexed<'_>) -> Result<(), AllocError> {
        let items = items_of(self.alloc, lexed)?;
        for item in items.as_slice() {
            self.add_item(package, lexed, item)?;
        }
        Ok(())
    }

    /// The lines of the comment of an item, without the marks of comments. It is named as `namespace:name` or
    /// `namespace:name/interface`, with the version, then the name of what this has, then that of its member.
    pub fn of(&self, key: &str) -> &[String] {
        let Some(lines) = self.lines.get(key) else {
            return &[];
        };
        lines.as_slice()
    }
}

/// The blanks that the line of a place begins with.
fn indent_at(text: &str, place: usize) -> &str {
    let front = text.get(..place).unwrap_or("");
    match front.rsplit_once('\n') {
        Some((_, indent)) => indent,
        None => front,
    }
}

/// Writes lines as comments of WIT.
fn push_lines(text: &mut TextBuilder, indent: &str, lines: &[String]) {
    for line in lines {
        let line = line.as_str();
        let blank = if line.is_empty() { "" } else { " " };
        text.push_three(indent, "///", blank);
        text.push(line);
        text.push("\n");
    }
}

impl Comments {
    /// Writes a text with these comments, each in lines before its item.
    fn push_three(
        &self,
        text: &mut TextBuilder,
        lexed: &Lexed<'_>,
        package: PackageRef<'_>,
        items: &[Item<'_>],
    ) {
        let plain = lexed.text;
        let mut done = 0;
        for item in items {
            let key = text.kept(key_of(self.alloc, package, item));
            let lines = self.of(key.as_str());
            let first = lexed.span_at(item.first).map_or(0, |span| span.start);
            let indent = indent_at(plain, first);
            let line = first.saturating_sub(indent.len());
            if !lines.is_empty() {
                text.push(plain.get(done..line).unwrap_or(""));
                push_lines(text, indent, lines);
                done = line;
            }
        }
        text.push(plain.get(done..).unwrap_or(""));
    }
}

/// A canonical text of a package with its comments, each in lines before its item.
pub fn with_comments(
    alloc: Global,
    text: &str,
    package: PackageRef<'_>,
    comments: &Comments,
) -> Result<String, AllocError> {
    let lexed = Lexed::new(alloc, "", text);
    let items = items_of(alloc, &lexed)?;
    let mut commented = TextBuilder::new(alloc);
    comments.push_three(&mut commented, &lexed, package, items.as_slice());
    commented.finish()
}

/// Writes a line of a comment that must not end it.
fn push_inside(text: &mut TextBuilder, line: &str) {
    for (index, part) in line.split("*/").enumerate() {
        text.push(if index == 0 { "" } else { "* /" });
        text.push(part);
    }
}

/// A comment of C or TypeScript.
#[derive(Clone, Copy)]
pub struct Block<'a> {
    /// What it opens with.
    pub open: &'a str,
    /// The blanks before each line.
    pub indent: &'a str,
    /// What the text of a package says.
    pub lines: &'a [String],
    /// What the item is.
    pub last: &'a str,
}

impl Block<'_> {
    /// Writes a line of the package's text.
    fn push_line(&self, text: &mut TextBuilder, line: &str) {
        let blank = if line.is_empty() { "" } else { " " };
        text.push_three("\n", self.indent, " *");
        text.push(blank);
        push_inside(text, line);
    }

    /// Writes the lines, then what the item is. It ends with the comment's last mark.
    pub fn push(&self, text: &mut TextBuilder) {
        let (indent, last) = (self.indent, self.last);
        text.push(indent);
        text.push(self.open);
        if self.lines.is_empty() {
            text.push_three(" ", last, " */");
            return;
        }
        for line in self.lines {
            self.push_line(text, line.as_str());
        }
        text.push_three("\n", indent, " *\n");
        text.push_three(indent, " * ", last);
        text.push_three("\n", indent, " */");
    }
}
