//! Text on its way to a sink.

use atoms::{Sink, write_all};
use std::fmt;

/// Text on its way to a sink, which takes no memory of the host. After a failed write nothing more is
/// written.
#[derive(Drop)]
pub struct Line<'a, W: Sink> {
    sink: &'a mut W,
}

impl<'a, W: Sink> Line<'a, W> {
    pub fn new(sink: &'a mut W) -> Line<'a, W> {
        Line { sink }
    }
}

impl<'a, W: Sink> fmt::Write for Line<'a, W> {
    fn write_str(&mut self, text: &str) -> fmt::Result {
        if self.sink.failed() {
            return Err(fmt::Error);
        }
        match write_all(self.sink, text.as_bytes()) {
            Ok(()) => Ok(()),
            Err(_failed) => Err(fmt::Error),
        }
    }
}
