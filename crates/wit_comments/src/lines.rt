//! The lines of comments.

use std::alloc::{AllocError, Global};

/// The part of a line of documentation that is shown.
fn shown(line: &str) -> &str {
    line.strip_prefix(" ").unwrap_or(line).trim_end()
}

/// The part of a line within `/**` and `*/` that is shown.
fn shown_in_block(line: &str) -> &str {
    let line = line.trim();
    shown(line.strip_prefix("*").unwrap_or(line))
}

/// The lines of documentation so far.
#[derive(Drop)]
struct Lines {
    alloc: Global,
    list: Vec<String>,
    /// Whether a `/**` is open.
    is_block: bool,
}

impl Lines {
    fn push(&mut self, line: &str) -> Result<(), AllocError> {
        self.list.push(String::from_str(self.alloc, line)?)?;
        Ok(())
    }

    /// Adds what comes behind a `/**`, or a line after it.
    fn add_in_block(&mut self, line: &str) -> Result<(), AllocError> {
        let (content, is_over) = match line.split_once("*/") {
            Some((content, _)) => (content, true),
            None => (line, false),
        };
        let is_edge = is_over || !self.is_block;
        self.is_block = !is_over;
        let content = shown_in_block(content);
        if is_edge && content.is_empty() {
            return Ok(());
        }
        self.push(content)
    }

    fn add(&mut self, line: &str) -> Result<(), AllocError> {
        if self.is_block {
            return self.add_in_block(line);
        }
        let line = line.trim();
        match (line.strip_prefix("///"), line.strip_prefix("/**")) {
            (Some(content), _) => self.push(shown(content)),
            (None, Some(content)) => self.add_in_block(content),
            (None, None) => Ok(()),
        }
    }
}

/// The lines of documentation in a text between two tokens.
pub fn lines_of(alloc: Global, between: &str) -> Result<Vec<String>, AllocError> {
    let mut lines = Lines {
        alloc,
        list: Vec::new(alloc),
        is_block: false,
    };
    for line in between.lines() {
        lines.add(line)?;
    }
    Ok(lines.list)
}
