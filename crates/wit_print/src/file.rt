//! Whole files.
ghost use Rattle.std.specs.Prelude.{◌≡◌, [], ◌++◌, map, OnOk, OnErr};
ghost use Rattle.std.specs.String.{string_bytes};
ghost use Rattle.wit_tokens.specs.View.{item_view, file_view};
ghost use Rattle.wit_print.specs.Canonical.{file_entry_words, items_words, file_words, canonical_text};
ghost use Rattle.wit_print.specs.Adding.{AddsWords};

use crate::entry::{write_entries, write_optional_version, write_world_entries};
use crate::word::{write_keyword, write_mark, write_name};
use std::alloc::{AllocError, Global};
use wit_tokens::wit_syntax::{Ast, Item};
use wit_tokens::{Keyword, Punctuation};

fn write_item(out: &mut String, item: &Item) -> Result<(), AllocError>
    ensures { OnOk result (AddsWords (file_entry_words (item_view item.now)) out.old out.new) }
{
    match item {
        Item::Interface(interface) => {
            write_keyword(out, "\n\n", Keyword::Interface)?;
            write_name(out, " ", &interface.name)?;
            write_mark(out, " ", Punctuation::OpenBrace)?;
            write_entries(out, interface.items.as_slice())
        }
        Item::World(world) => {
            write_keyword(out, "\n\n", Keyword::World)?;
            write_name(out, " ", &world.name)?;
            write_mark(out, " ", Punctuation::OpenBrace)?;
            write_world_entries(out, world.items.as_slice())
        }
    }
}

fn write_items(out: &mut String, items: &[Item]) -> Result<(), AllocError>
    ensures { OnOk result (AddsWords (items_words (map item_view items.now)) out.old out.new) }
{
    for item in items {
        write_item(out, item)?;
    }
    Ok(())
}

fn write_file(out: &mut String, ast: &Ast) -> Result<(), AllocError>
    ensures { OnOk result (AddsWords (file_words (file_view ast.now)) out.old out.new) }
{
    write_keyword(out, "", Keyword::Package)?;
    write_name(out, " ", &ast.package.namespace)?;
    write_mark(out, "", Punctuation::Colon)?;
    write_name(out, "", &ast.package.name)?;
    write_optional_version(out, &ast.package.version)?;
    write_mark(out, "", Punctuation::Semicolon)?;
    write_items(out, ast.items.as_slice())
}

/// Appends the canonical text of a file: a line for each item, members of a definition on lines of their own. Where
/// memory is wanting, the text is as it was.
pub fn print_file(alloc: Global, ast: &Ast, out: &mut String) -> Result<(), AllocError>
    ensures ok { OnOk result (string_bytes out.new ≡ string_bytes out.old ++ canonical_text (file_view ast.now)) }
    ensures err { OnErr result (string_bytes out.new ≡ string_bytes out.old) }
{
    let mut text = String::new(alloc);
    write_file(&mut text, ast)?;
    text.push('\n')?;
    out.push_str(text.as_str())
}
