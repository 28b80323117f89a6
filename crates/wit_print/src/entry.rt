//! Items of interfaces and of worlds.
ghost use Rattle.std.specs.Prelude.{◌≡◌, [], ◌++◌, map, OnOk};
ghost use Rattle.wit_tokens.specs.Syntax.{Uses};
ghost use Rattle.wit_tokens.specs.View.{used_view, version_view, path_view, entry_view, world_entry_view};
ghost use Rattle.wit_print.specs.Canonical.{local_words, used_words, uses_words, version_words, path_words};
ghost use Rattle.wit_print.specs.Canonical.{direction_keyword, entry_words, world_entry_words, braced_words};
ghost use Rattle.wit_print.specs.Adding.{AddsWords};

use crate::definition::{ITEM_LINE, write_definition};
use crate::function::write_function;
use crate::list::write_comma;
use crate::word::{write_keyword, write_mark, write_name, write_version};
use atoms::Label;
use std::alloc::AllocError;
use wit_tokens::wit_syntax::{
    Direction, InterfaceItem, Path, Use, UsedName, WorldItem, WorldItemKind,
};
use wit_tokens::{Keyword, Punctuation};

fn write_local(out: &mut String, local: &Option<Label>) -> Result<(), AllocError>
    ensures { OnOk result (AddsWords (local_words local.now) out.old out.new) }
{
    let Some(local) = local else {
        return Ok(());
    };
    write_keyword(out, " ", Keyword::As)?;
    write_name(out, " ", local)
}

fn write_used(out: &mut String, space: &str, used: &UsedName) -> Result<(), AllocError>
    ensures { OnOk result (AddsWords (used_words space.now (used_view used.now)) out.old out.new) }
{
    write_name(out, space, &used.name)?;
    write_local(out, &used.local)
}

/// Puts used names behind the text, and the `}`.
fn write_names(out: &mut String, names: &[UsedName]) -> Result<(), AllocError>
    ensures { OnOk result (AddsWords (uses_words [] (map used_view names.now)) out.old out.new) }
{
    for (index, name) in names.iter().enumerate() {
        let space = write_comma(out, index)?;
        write_used(out, space, name)?;
    }
    write_mark(out, "", Punctuation::CloseBrace)
}

/// Puts a version behind the text, if there is one.
pub(crate) fn write_optional_version(
    out: &mut String,
    version: &Option<String>,
) -> Result<(), AllocError>
    ensures { OnOk result (AddsWords (version_words (version_view version.now)) out.old out.new) }
{
    match version {
        Some(version) => write_version(out, version.as_str()),
        None => Ok(()),
    }
}

/// Puts the name of an interface behind the text, of another package's in full.
fn write_path(out: &mut String, space: &str, path: &Path) -> Result<(), AllocError>
    ensures { OnOk result (AddsWords (path_words space.now (path_view path.now)) out.old out.new) }
{
    match path {
        Path::Local(name) => write_name(out, space, name),
        Path::Foreign { package, interface } => {
            write_name(out, space, &package.namespace)?;
            write_mark(out, "", Punctuation::Colon)?;
            write_name(out, "", &package.name)?;
            write_mark(out, "", Punctuation::Slash)?;
            write_name(out, "", interface)?;
            write_optional_version(out, &package.version)
        }
    }
}

fn write_use(out: &mut String, item: &Use) -> Result<(), AllocError>
    ensures { OnOk result (AddsWords (entry_words
        (Uses item.now.span (path_view item.now.interface) (map used_view item.now.names.items))) out.old out.new) }
{
    write_keyword(out, ITEM_LINE, Keyword::Use)?;
    write_path(out, " ", &item.interface)?;
    write_mark(out, "", Punctuation::Dot)?;
    write_mark(out, "", Punctuation::OpenBrace)?;
    write_names(out, item.names.as_slice())?;
    write_mark(out, "", Punctuation::Semicolon)
}

fn write_entry(out: &mut String, item: &InterfaceItem) -> Result<(), AllocError>
    ensures { OnOk result (AddsWords (entry_words (entry_view item.now)) out.old out.new) }
{
    match item {
        InterfaceItem::Use(item) => write_use(out, item),
        InterfaceItem::TypeDef(definition) => write_definition(
            out,
            &definition.name,
            &definition.kind,
        ),
        InterfaceItem::Func(func) => {
            write_name(out, ITEM_LINE, &func.name)?;
            write_function(out, &func.ty)
        }
    }
}

/// Puts the items of an interface behind the text, and the `}`.
pub(crate) fn write_entries(out: &mut String, items: &[InterfaceItem]) -> Result<(), AllocError>
    ensures { OnOk result (AddsWords (braced_words entry_words (map entry_view items.now)) out.old out.new) }
{
    for item in items {
        write_entry(out, item)?;
    }
    write_mark(out, "\n", Punctuation::CloseBrace)
}

fn direction_keyword(direction: Direction) -> Keyword
    ensures { result ≡ direction_keyword direction }
{
    match direction {
        Direction::Import => Keyword::Import,
        Direction::Export => Keyword::Export,
    }
}

fn write_world_entry(out: &mut String, item: &WorldItem) -> Result<(), AllocError>
    ensures { OnOk result (AddsWords (world_entry_words (world_entry_view item.now)) out.old out.new) }
{
    write_keyword(out, ITEM_LINE, direction_keyword(item.direction))?;
    match &item.kind {
        WorldItemKind::Interface(path) => {
            write_path(out, " ", path)?;
            write_mark(out, "", Punctuation::Semicolon)
        }
        WorldItemKind::Func(func) => {
            write_name(out, " ", &func.name)?;
            write_function(out, &func.ty)
        }
    }
}

/// Puts the items of a world behind the text, and the `}`.
pub(crate) fn write_world_entries(out: &mut String, items: &[WorldItem]) -> Result<(), AllocError>
    ensures { OnOk result (AddsWords (braced_words world_entry_words (map world_entry_view items.now)) out.old
        out.new) }
{
    for item in items {
        write_world_entry(out, item)?;
    }
    write_mark(out, "\n", Punctuation::CloseBrace)
}
