//! Lines: comments, inputs that are kept, and rows.

use crate::answers::push_answer;
use atoms::Watched;
use row_inputs::{Inputs, Set, inputs_in, parted};
use std::alloc::Global;
use std::fs;
use text_builder::TextBuilder;
use witcall::read_all;

/// A row that was read: what is asked, and what is to be answered.
#[derive(Drop)]
struct Row<'a> {
    name: &'a str,
    asked: &'a str,
    wanted: TextBuilder,
}

/// The inputs that were kept so far, and the row whose answer may have further lines.
#[derive(Drop)]
pub struct Rows<'a> {
    kept: Inputs<'a>,
    last: Option<Row<'a>>,
}

/// The bytes of a file.
pub fn read(rt: &HostRuntime, alloc: Global, path: &str) -> anyhow::Result<Vec<u8>> {
    let mut input = Watched::new(fs::open(rt, path)?);
    Ok(read_all(alloc, &mut input)?)
}

/// What an answer begins with or goes on with, without the space before it.
fn push_wanted(wanted: &mut TextBuilder, line: &str) {
    wanted.push(line.strip_prefix(" ").unwrap_or(line));
}

/// The row that a line begins.
fn row_of(alloc: Global, line: &str) -> anyhow::Result<Row<'_>> {
    let (name, rest) = parted(line, ": ")?;
    let (asked, front) = parted(rest, " =>")?;
    let mut wanted = TextBuilder::new(alloc);
    push_wanted(&mut wanted, front);
    Ok(Row {
        name,
        asked,
        wanted,
    })
}

/// The answer to what is asked. Memory that was refused is told before anything else that is wrong.
fn answered(alloc: Global, kept: &Inputs<'_>, asked: &str) -> anyhow::Result<String> {
    let mut text = TextBuilder::new(alloc);
    let pushed = push_answer(&mut text, kept, asked);
    let answer = text.finish()?;
    pushed?;
    Ok(answer)
}

/// The answer to what is asked, or why there is none.
fn answer_to(alloc: Global, kept: &Inputs<'_>, asked: &str) -> anyhow::Result<String> {
    match answered(alloc, kept, asked) {
        Ok(answer) => Ok(answer),
        Err(error) => Ok(error.to_string(alloc)?),
    }
}

/// Answers a row: writes its name, and the answer if that is another than it says.
fn answer_row(
    rt: &HostRuntime,
    alloc: Global,
    kept: &Inputs<'_>,
    row: Row<'_>,
) -> anyhow::Result<()> {
    let answer = answer_to(alloc, kept, row.asked)?;
    if answer == row.wanted.finish()? {
        println!(rt; "{}", row.name)?;
    } else {
        println!(rt; "{}: {answer}", row.name)?;
    }
    Ok(())
}

/// The input that a line says: a file, or what its parts are.
fn input_of(
    rt: &HostRuntime,
    text: &mut TextBuilder,
    kept: &Inputs<'_>,
    line: &str,
) -> anyhow::Result<Set> {
    match line.strip_prefix("file ") {
        Some(path) => Ok(Set {
            earlier: Vec::new(text.alloc()),
            last: read(rt, text.alloc(), path)?,
        }),
        None => inputs_in(text, kept, line),
    }
}

impl<'a> Rows<'a> {
    pub fn new(alloc: Global) -> Rows<'a> {
        Rows {
            kept: Inputs::new(alloc),
            last: None,
        }
    }

    /// Takes a line: it goes on with the answer of the row before it, or that row is answered and the line begins
    /// something.
    pub fn take_line(
        &mut self,
        rt: &HostRuntime,
        alloc: Global,
        line: &'a str,
    ) -> anyhow::Result<()> {
        if let Some(more) = line.strip_prefix("|") {
            return self.go_on(more);
        }
        self.finish(rt, alloc)?;
        self.begin(rt, alloc, line)
    }

    /// Begins what a line says: an input, a row, or nothing.
    fn begin(&mut self, rt: &HostRuntime, alloc: Global, line: &'a str) -> anyhow::Result<()> {
        if line.is_empty() || line.starts_with("#") {
            return Ok(());
        }
        if let Some(given) = line.strip_prefix("let ") {
            return self.keep(rt, alloc, given);
        }
        self.last = Some(row_of(alloc, line)?);
        Ok(())
    }

    /// Adds a line to the answer of the last row.
    fn go_on(&mut self, more: &str) -> anyhow::Result<()> {
        let Some(row) = &mut self.last else {
            return Err(anyhow::anyhow!("no row before: {more}"));
        };
        push_wanted(&mut row.wanted, more);
        row.wanted.push("\n");
        Ok(())
    }

    /// Keeps inputs under their name.
    fn keep(&mut self, rt: &HostRuntime, alloc: Global, given: &'a str) -> anyhow::Result<()> {
        let (name, rest) = parted(given, " = ")?;
        let mut text = TextBuilder::new(alloc);
        let set = input_of(rt, &mut text, &self.kept, rest)?;
        self.kept.keep(&mut text, name, set);
        text.finish()?;
        Ok(())
    }

    /// Answers the last row, if there is one, and writes its name.
    pub fn finish(&mut self, rt: &HostRuntime, alloc: Global) -> anyhow::Result<()> {
        match self.last.take() {
            Some(row) => answer_row(rt, alloc, &self.kept, row),
            None => Ok(()),
        }
    }
}
