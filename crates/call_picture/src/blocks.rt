//! The blocks of one side of a call, in the order in which they were requested.

use crate::noted::Request;
use crate::place::{Block, Content, Place};
use crate::viewer::Viewer;
use svg_drawing::{Level, Start};
use text_builder::TextBuilder;

/// Values that were put into a memory: the arguments, or the result.
#[derive(Clone, Copy)]
pub struct Way<'a> {
    pub content: Content<'a>,
    pub path: &'static str,
    /// Whether they are in a block of their own. If not, core values carry them.
    pub has_block: bool,
    /// Where the pointer to this block is drawn, if it is.
    pub start: Option<Start>,
    /// Whether all of them are in the memory.
    pub is_whole: bool,
}

/// What a block is for.
fn purpose(content: Content<'_>) -> &'static str {
    match content {
        Content::Text => "the bytes of ",
        Content::Elements(_, _) => "the elements of ",
        Content::Fields(_, _) => "the parameters",
        Content::Value(_, _) => "the ",
    }
}

/// Appends which block was granted, if one was.
fn push_granted(text: &mut TextBuilder, at: Option<u32>) {
    match at {
        Some(at) => {
            text.push("block at ");
            text.push_number(at as usize);
        }
        None => text.push("no block"),
    }
}

impl<'a> Viewer<'a> {
    /// Says what was requested and what was granted.
    fn push_heading(&mut self, block: &Block<'a>, request: Request) {
        let mut heading = TextBuilder::new(self.page.alloc);
        push_granted(&mut heading, request.at);
        heading.push(": size ");
        heading.push_number(request.size as usize);
        heading.push(", align ");
        heading.push_number(request.align as usize);
        heading.push(", ");
        heading.push(purpose(block.content));
        heading.push(block.path.as_str());
        let heading = self.page.kept(heading.finish());
        let is_drawn = request.size > 0 && request.at.is_some();
        let start = if is_drawn { block.start } else { None };
        self.page.push_block(heading.as_str(), start);
    }

    /// Says how many blocks were left out since the last one that is shown, if there are some.
    fn end_hidden(&mut self) {
        let count = self.hidden;
        if count > 0 {
            let line = format!(in self.page.alloc; ".. {count} more blocks");
            self.page.push_made(Level::Inner, line);
            self.hidden = 0;
        }
    }

    /// Begins to show a block that was requested. Returns where its values are.
    fn begin_block(&mut self, block: &Block<'a>, request: Request, is_whole: bool) -> Place {
        if !block.is_shown {
            self.hidden = self.hidden.saturating_add(1);
            return Place::Hidden;
        }
        self.end_hidden();
        self.push_heading(block, request);
        match request.at {
            Some(at) if is_whole => Place::At(at),
            _ => Place::Elsewhere,
        }
    }

    /// Leaves a block to be shown before those that come next.
    fn push_next(&mut self, block: Block<'a>) {
        if self.next.push(block).is_err() {
            self.page.refuse();
        }
    }

    /// Moves the blocks that were found last before those that come next.
    fn move_found(&mut self) {
        for _ in 0..self.found.len() {
            if let Some(block) = self.found.pop() {
                self.push_next(block);
            }
        }
    }

    /// Leaves the blocks with which values begin to be shown.
    fn push_first(&mut self, way: &Way<'a>) {
        self.next.clear();
        let path = String::from_str(self.page.alloc, way.path);
        let path = self.page.kept(path);
        if way.has_block {
            self.push_next(Block {
                content: way.content,
                path,
                start: way.start,
                is_shown: true,
            });
        } else {
            let place = if way.is_whole {
                Place::Core(0)
            } else {
                Place::Elsewhere
            };
            self.show_content(way.content, place, 0, path);
            self.move_found();
        }
    }

    /// Shows the blocks of values, which were requested by the first of these requests. Returns how many they are.
    fn show_blocks(&mut self, way: &Way<'a>, requests: &[Request]) -> usize {
        self.push_first(way);
        for (index, request) in requests.iter().enumerate() {
            let Some(block) = self.next.pop() else {
                return index;
            };
            let place = self.begin_block(&block, *request, way.is_whole);
            self.show_content(block.content, place, request.size, block.path);
            self.move_found();
        }
        requests.len()
    }

    /// The same. Then it says how many blocks were left out at the end.
    pub fn show_way(&mut self, way: &Way<'a>, requests: &[Request]) -> usize {
        let count = self.show_blocks(way, requests);
        self.end_hidden();
        count
    }
}
