//! Packages whose files were read.
ghost use Rattle.std.specs.Prelude.{◌≡◌, ◌+◌, length, IfOk, OnOk};
ghost use Rattle.std.specs.List.{sum_by};

use crate::sources::Source;
use crate::texts::{Headers, Text, texts_of};
use std::alloc::{AllocError, Global};
use std::collections::BTreeMap;
use wit_faults::{Lexed, PackageRef, Report};
use wit_text::Ast;
use wit_tokens::wit_syntax::Item;

/// A package whose files were read, as one tree.
#[derive(Drop)]
pub struct Member<'a> {
    /// In the order of their names, or as the command names them.
    pub files: Vec<Lexed<'a>>,
    pub is_dependency: bool,
    pub tree: Ast,
    /// Whether a text of it has a fault, which is reported. The tree has what is without one.
    pub has_fault: bool,
}

impl Member<'_> {
    pub fn package(&self) -> PackageRef<'_> {
        PackageRef::of_tree(&self.tree.package)
    }
}

/// The packages of files, and whether each file is known to be of one.
#[derive(Drop)]
pub struct Members<'a> {
    pub list: Vec<Member<'a>>,
    pub are_all: bool,
}

/// A file whose text was read, or a part of it.
#[derive(Drop)]
struct Part<'a> {
    text: Text<'a>,
    tree: Ast,
    has_fault: bool,
}

/// The files whose packages are known.
#[derive(Drop)]
struct Parts<'a> {
    list: Vec<Part<'a>>,
    are_all: bool,
}

/// The numbers of packages of folders, in the order of their first files.
#[derive(Drop)]
struct Numbers {
    alloc: Global,
    /// By the words of a package and its folder.
    list: BTreeMap<String, usize>,
}

impl Numbers {
    /// The number of the package of a file, which is a new one if it was not found before.
    fn of(&mut self, part: &Part<'_>) -> Result<usize, AllocError> {
        let package = PackageRef::of_tree(&part.tree.package);
        let folder = part.text.source.folder.as_str();
        let words = format!(in self.alloc; "{package} {folder}")?;
        if let Some(number) = self.list.get(words.as_str()) {
            return Ok(*number);
        }
        let number = self.list.len();
        self.list.insert(words, number)?;
        Ok(number)
    }
}

/// A file with the number of its package.
#[derive(Drop)]
struct Numbered<'a> {
    number: usize,
    part: Part<'a>,
}

/// Files of one package, which were found in one folder, and what these have together.
#[derive(Drop)]
struct Joined<'a> {
    number: usize,
    is_dependency: bool,
    files: Vec<Lexed<'a>>,
    tree: Ast,
    has_fault: bool,
}

/// Adds items after those of a tree.
pub(crate) fn append(tree: &mut Ast, more: Vec<Item>) -> Result<(), AllocError> {
    for item in more {
        tree.items.push(item)?;
    }
    Ok(())
}

impl<'a> Joined<'a> {
    /// The package of a file.
    fn of(alloc: Global, first: Numbered<'a>) -> Result<Joined<'a>, AllocError>
        ensures { IfOk result (λ joined. length joined.files.items ≡ 1) }
    {
        let Numbered { number, part } = first;
        let Part {
            text,
            tree,
            has_fault,
        } = part;
        let Text { source, lexed } = text;
        let mut files = Vec::new(alloc);
        files.push(lexed)?;
        Ok(Joined {
            number,
            is_dependency: source.is_dependency,
            files,
            tree,
            has_fault,
        })
    }

    /// Adds what a file has.
    fn add(&mut self, part: Part<'a>) -> Result<(), AllocError>
        ensures { OnOk result (length self.new.files.items ≡ length self.old.files.items + 1) }
    {
        let Part {
            text,
            tree,
            has_fault,
        } = part;
        let Text { source: _, lexed } = text;
        let Ast { package: _, items } = tree;
        append(&mut self.tree, items)?;
        self.files.push(lexed)?;
        self.has_fault = self.has_fault || has_fault;
        Ok(())
    }
}

/// The files whose packages are known. The faults of their texts are reported: if the status is 0, there are none.
fn parts_of<'a>(
    alloc: Global,
    report: &mut Report,
    texts: Vec<Text<'a>>,
    headers: &Headers<'a>,
) -> Result<Parts<'a>, AllocError>
    ensures { IfOk result (λ parts. report.new.status ≡ 0 → length parts.list.items ≡ length texts.entry.items) }
{
    let mut list = Vec::new(alloc);
    let mut are_all = true;
    for text in texts {
        let (tree, has_fault) = match headers.tree_of(&text) {
            Ok(tree) => (Some(tree), false),
            Err(cause) => (headers.rest_of(report, &text, cause)?, true),
        };
        match tree {
            Some(tree) => list.push(Part {
                text,
                tree,
                has_fault,
            })?,
            None => are_all = false,
        }
    }
    Ok(Parts { list, are_all })
}

/// Files in the order of their packages.
fn in_order<'a>(alloc: Global, parts: Vec<Part<'a>>) -> Result<Vec<Numbered<'a>>, AllocError>
    ensures { IfOk result (λ files. length files.items ≡ length parts.entry.items) }
{
    let mut numbers = Numbers {
        alloc,
        list: BTreeMap::new(alloc),
    };
    let mut files = Vec::new(alloc);
    for part in parts {
        let number = numbers.of(&part)?;
        files.push(Numbered { number, part })?;
    }
    files.sort_by_key(|file| file.number)?;
    Ok(files)
}

/// Adds a package.
fn push_member<'a>(members: &mut Vec<Member<'a>>, joined: Joined<'a>) -> Result<(), AllocError>
    ensures { OnOk result (sum_by (λ m. length m.files.items) members.new.items
        ≡ sum_by (λ m. length m.files.items) members.old.items + length joined.entry.files.items) }
{
    let Joined {
        number: _,
        is_dependency,
        files,
        tree,
        has_fault,
    } = joined;
    members.push(Member {
        files,
        is_dependency,
        tree,
        has_fault,
    })?;
    Ok(())
}

/// The packages of these files. No file is dropped: each is one of a package.
fn packages_of<'a>(alloc: Global, parts: Vec<Part<'a>>) -> Result<Vec<Member<'a>>, AllocError>
    ensures { IfOk result (λ members. sum_by (λ m. length m.files.items) members.items ≡ length parts.entry.items) }
{
    let mut members = Vec::new(alloc);
    let mut files = in_order(alloc, parts)?;
    if files.is_empty() {
        return Ok(members);
    }
    let mut joined = Joined::of(alloc, files.remove(0))?;
    for file in files {
        if file.number == joined.number {
            joined.add(file.part)?;
        } else {
            let next = Joined::of(alloc, file)?;
            push_member(&mut members, std::mem::replace(&mut joined, next))?;
        }
    }
    push_member(&mut members, joined)?;
    Ok(members)
}

/// The packages of files, as far as their texts can be read. The faults of these are reported: if the status is 0,
/// there are none, and each file is one of a package.
pub fn members_of<'a>(
    alloc: Global,
    report: &mut Report,
    sources: &'a [Source],
) -> Result<Members<'a>, AllocError>
    ensures { IfOk result (λ members. report.new.status ≡ 0
        → sum_by (λ m. length m.files.items) members.list.items ≡ length sources.now) }
{
    let texts = texts_of(alloc, sources)?;
    let headers = Headers::of(alloc, texts.as_slice())?;
    let parts = parts_of(alloc, report, texts, &headers)?;
    let list = packages_of(alloc, parts.list)?;
    Ok(Members {
        list,
        are_all: parts.are_all,
    })
}
