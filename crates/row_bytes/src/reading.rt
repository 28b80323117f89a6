//! Rows of numbers, names, the parts of a text, command lines, memories and binaries.

use crate::memories::{self, Kind};
use crate::{binaries, trees};
use atoms::{FullName, Label, is_version, read_s33, read_u32, write_s33, write_u32};
use std::alloc::AllocError;
use text_builder::TextBuilder;
use wit_print::print_file;
use wit_text::{lex, parse};
use words::command;

/// Writes a number of a binary, and how many bytes it has.
fn push_number(text: &mut TextBuilder, digits: &str, is_signed: bool) -> anyhow::Result<()> {
    let bytes = hex::decode(text.alloc(), digits)?;
    let (number, count) = if is_signed {
        read_s33(bytes.as_slice())?
    } else {
        read_u32(bytes.as_slice())?
    };
    text.push_number(number as usize);
    text.push(" in ");
    text.push_number(count);
    Ok(())
}

/// Writes the bytes of a number, behind a byte that is there.
fn push_written(text: &mut TextBuilder, word: &str, is_signed: bool) -> anyhow::Result<()> {
    let number = word.parse::<u32>()?;
    let mut out = vec![in text.alloc(); 0xaa]?;
    if is_signed {
        write_s33(&mut out, number)?;
    } else {
        write_u32(&mut out, number)?;
    }
    text.push_made(hex::encode(text.alloc(), out.as_slice()));
    Ok(())
}

/// Writes the copy of a label.
fn push_label(text: &mut TextBuilder, word: &str) -> anyhow::Result<()> {
    let label = Label::new(text.alloc(), word)?.copy(text.alloc())?;
    text.push(label.as_str());
    Ok(())
}

/// Writes a full name that was read.
fn push_full_name(text: &mut TextBuilder, word: &str) -> anyhow::Result<()> {
    let name = FullName::parse(text.alloc(), word)?;
    text.push_made(name.text(text.alloc()));
    Ok(())
}

/// Writes whether a text is a version.
fn push_version(text: &mut TextBuilder, word: &str) -> anyhow::Result<()> {
    text.push_made(is_version(text.alloc(), word)?.to_string(text.alloc()));
    Ok(())
}

/// Writes how many tokens a text has.
fn push_tokens(text: &mut TextBuilder, wit: &str) -> anyhow::Result<()> {
    text.push_number(lex(text.alloc(), wit)?.len());
    Ok(())
}

/// Writes the name of a text's package, and how many items it has.
fn push_tree(text: &mut TextBuilder, wit: &str) -> anyhow::Result<()> {
    let ast = parse(text.alloc(), wit)?;
    text.push(ast.package.namespace.as_str());
    text.push(":");
    text.push(ast.package.name.as_str());
    text.push(" ");
    text.push_number(ast.items.len());
    Ok(())
}

/// Writes what was printed, unless the text was refused.
fn push_out(text: &mut TextBuilder, done: Result<(), AllocError>, out: &str) -> anyhow::Result<()> {
    match done {
        Ok(()) => text.push_made(format!(in text.alloc(); "{out:?}")),
        Err(error) if out == "x" => return Err(anyhow::anyhow!("{error}")),
        Err(_) => return Err(anyhow::anyhow!("printed where it is refused")),
    }
    Ok(())
}

/// Writes the canonical text of a tree, behind a letter that is there, and is left alone where the text is refused.
fn push_printed(text: &mut TextBuilder, wit: &str) -> anyhow::Result<()> {
    let ast = parse(text.alloc(), wit)?;
    let mut out = text.kept("x".to_string(text.alloc()));
    let done = print_file(text.alloc(), &ast, &mut out);
    push_out(text, done, out.as_str())
}

/// The words of a command line, which single spaces part.
fn words_of(text: &mut TextBuilder, line: &str) -> Vec<String> {
    let mut words = Vec::new(text.alloc());
    for word in line.split(' ') {
        let word = text.kept(word.to_string(text.alloc()));
        text.add(&mut words, word);
    }
    words
}

/// Writes what the words of a command line ask for.
fn push_command(text: &mut TextBuilder, line: &str) -> anyhow::Result<()> {
    let words = words_of(text, line);
    let command = command(text.alloc(), words.as_slice())?;
    text.push_made(format!(in text.alloc(); "{command:?}"));
    Ok(())
}

/// Writes what a command is answered.
pub fn push_answer(text: &mut TextBuilder, word: &str, rest: &str) -> anyhow::Result<()> {
    match word {
        "u32" => push_number(text, rest, false),
        "s33" => push_number(text, rest, true),
        "write-u32" => push_written(text, rest, false),
        "write-s33" => push_written(text, rest, true),
        "label" => push_label(text, rest),
        "full-name" => push_full_name(text, rest),
        "version" => push_version(text, rest),
        "tokens" => push_tokens(text, rest),
        "tree" => push_tree(text, rest),
        "print" => push_printed(text, rest),
        "words" => push_command(text, rest),
        _ => push_of_memory(text, word, rest),
    }
}

/// Writes what a command about memories or binaries is answered.
fn push_of_memory(text: &mut TextBuilder, word: &str, rest: &str) -> anyhow::Result<()> {
    match word {
        "bump" => memories::push_asked(text, Kind::Bump, rest),
        "first-fit" => memories::push_asked(text, Kind::FirstFit, rest),
        "headers" => memories::push_headers(text, rest),
        "can-lend" => memories::push_lendable(text, rest),
        "lent" => memories::push_lent(text, rest),
        "scripted" => memories::push_scripted(text, rest),
        "maxima" => trees::push_asked(text, rest),
        _ => binaries::push_answer(text, word, rest),
    }
}
