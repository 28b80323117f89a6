//! The whole picture.
ghost use Rattle.std.specs.Prelude.{◌≡◌, map};
ghost use Rattle.canonical_abi.specs.Values.{HaveTypes};
ghost use Rattle.values.specs.Members.{fields_of_types};
ghost use Rattle.values.specs.Val.{value_of};
ghost use Rattle.tables.specs.Closed.{function_type};

use crate::blocks::Way;
use crate::call::Call;
use crate::course::Course;
use crate::noted::Noted;
use crate::page::Page;
use crate::place::Content;
use crate::viewer::Viewer;
use canonical_abi::{Fault, Flat, Guest};
use layout::Kinds;
use layout_picture::{Form, Sheet, TypeLayout};
use lift_lower::Val;
use package_picture::draw_function;
use std::alloc::AllocError;
use svg_drawing::{Level, Start};
use tables::{TypeId, ValType};

/// What a call did.
#[derive(Drop)]
pub struct Picture {
    pub text: String,
    /// Whether there was no trap.
    pub is_answered: bool,
}

/// What is shown of one side.
#[derive(Clone, Copy)]
struct Side<'a> {
    is_caller: bool,
    /// Its heading, and the words before its core values.
    words: [&'static str; 3],
    memory: &'a Noted,
    arguments: &'a [Val],
    answer: &'a [Val],
    given: &'a Option<Vec<Flat>>,
    answered: &'a Option<Vec<Flat>>,
}

impl<'a> Side<'a> {
    fn caller(course: &'a Course, arguments: &'a [Val], answer: &'a [Val]) -> Side<'a> {
        Side {
            is_caller: true,
            words: ["the caller", "passes", "gets back"],
            memory: &course.caller,
            arguments,
            answer,
            given: &course.passed,
            answered: &course.returned,
        }
    }

    fn callee(course: &'a Course, arguments: &'a [Val], answer: &'a [Val]) -> Side<'a> {
        Side {
            is_caller: false,
            words: ["the callee", "is given", "returns"],
            memory: &course.callee,
            arguments,
            answer,
            given: &course.handed,
            answered: &course.answered,
        }
    }
}

/// Adds core values, if the call came to them. Returns where each of them is drawn.
fn push_values(page: &mut Page, word: &'static str, flats: &Option<Vec<Flat>>) -> Vec<Start> {
    match flats {
        Some(flats) => page.push_values(word, flats.as_slice()),
        None => Vec::new(page.alloc),
    }
}

/// Where the pointers to the blocks of a side are drawn that core values have.
#[derive(Drop)]
struct Starts {
    /// Of the core values that are passed.
    given: Vec<Start>,
    /// Of the return area.
    area: Option<Start>,
}

impl Call<'_> {
    fn type_layout(&self, ty: ValType) -> Option<TypeLayout<'_>> {
        TypeLayout::new(self.resolve, self.layouts, ty)
    }

    /// The arguments on their way. They are in a block of their own if more than sixteen core values would carry them.
    fn arguments_way<'a>(&self, side: &Side<'a>, starts: &Starts) -> Way<'a> {
        // A function's row is the record of its parameters.
        let row = ValType::Id(TypeId(self.func.0));
        let has_block = match self.type_layout(row) {
            Some(layout) => matches!(layout.flat(), Kinds::Spilled),
            None => false,
        };
        Way {
            content: Content::Fields(side.arguments, row),
            path: "",
            has_block,
            start: starts.given.first().copied(),
            is_whole: side.given.is_some(),
        }
    }

    /// The result on its way. It is in a block of its own if more than one core value would carry it. None if there is
    /// no result.
    fn answer_way<'a>(&self, side: &Side<'a>, starts: &Starts) -> Option<Way<'a>> {
        let ty = *self.results.first()?;
        let value = side.answer.first()?;
        let has_block = match self.type_layout(ty)?.flat() {
            Kinds::Flat(kinds) => kinds.len() > 1,
            Kinds::Spilled => true,
        };
        Some(Way {
            content: Content::Value(value, ty),
            path: "result",
            has_block,
            start: starts.area,
            is_whole: side.answered.is_some(),
        })
    }

    /// Shows the blocks of one side.
    fn show_blocks<'a>(&self, viewer: &mut Viewer<'a>, side: &Side<'a>, starts: &Starts) {
        let Ok(requests) = side.memory.requests() else {
            viewer.page.refuse();
            return;
        };
        let way = self.arguments_way(side, starts);
        let count = viewer.show_way(&way, requests);
        if let Some(way) = self.answer_way(side, starts) {
            viewer.show_way(&way, requests.get(count..).unwrap_or(&[]));
        }
    }

    /// Adds the blocks of one side to a page.
    fn draw_blocks(&self, page: Page, side: &Side<'_>, starts: &Starts) -> Page {
        let alloc = self.alloc;
        let mut viewer = Viewer {
            page,
            resolve: self.resolve,
            layouts: self.layouts,
            memory: side.memory.bytes(),
            parts: Vec::new(alloc),
            found: Vec::new(alloc),
            next: Vec::new(alloc),
            starts: starts.given.as_slice(),
            values: 0,
            hidden: 0,
        };
        self.show_blocks(&mut viewer, side, starts);
        viewer.page
    }

    /// Adds one side to a page.
    fn draw_side(&self, page: Page, side: &Side<'_>) -> Page {
        let mut page = page;
        let [heading, given, answered] = side.words;
        page.push_side(heading);
        let given = push_values(&mut page, given, side.given);
        let answered = push_values(&mut page, answered, side.answered);
        let area = if side.is_caller {
            given.last().copied()
        } else {
            answered.first().copied()
        };
        self.draw_blocks(page, side, &Starts { given, area })
    }

    /// Adds how the call ended.
    fn push_outcome(&self, page: &mut Page, outcome: &Result<Option<Val>, Fault>) {
        match outcome {
            Ok(Some(value)) => {
                let json = page.kept(self.json_text(value));
                let line = page.kept(["answer: ", json.as_str()].concat(self.alloc));
                page.add(Level::Outer, line.as_str());
            }
            Ok(None) => page.add(Level::Outer, "answer: nothing"),
            Err(Fault::NoMemory) => page.refuse(),
            Err(Fault::Trap(trap)) => {
                let line = page.kept(trap.to_string(self.alloc));
                page.add(Level::Outer, line.as_str());
            }
        }
    }

    /// The page of a call that was made.
    fn page(&self, title: (&str, Form), course: &Course, values: (&[Val], &[Val])) -> Page {
        let (interface, form) = title;
        let (arguments, answer) = values;
        let mut page = Page::new(self.alloc, form);
        let mut sheet = Sheet::new(self.alloc, Form::Boxes);
        let tables = (self.resolve, self.layouts);
        draw_function(&mut sheet, tables, interface, self.func);
        let heading = page.kept(sheet.finish());
        push_heading(&mut page, heading.as_str());
        let page = self.draw_side(page, &Side::caller(course, arguments, answer));
        self.draw_side(page, &Side::callee(course, arguments, answer))
    }

    /// Makes the call over two fresh memories, and shows what it did, in this form. The interface is that of the
    /// function, by its full name.
    pub fn picture(
        &self,
        title: (&str, Form),
        arguments: &[Val],
        answer: &[Val],
    ) -> Result<Picture, AllocError>
        requires arguments { HaveTypes (map value_of arguments.now)
            (function_type self.now.resolve.now self.now.func).params }
        requires answer { HaveTypes (map value_of answer.now)
            (fields_of_types self.now.resolve.now self.now.results.items) }
    {
        let mut course = Course::new(self.alloc)?;
        let outcome = self.make(&mut course, arguments, answer);
        let mut page = self.page(title, &course, (arguments, answer));
        let (there, back) = (course.nodes_there, course.nodes_back);
        let nodes = format!(in self.alloc; "nodes: {there} of the arguments, {back} of the result");
        let nodes = page.kept(nodes);
        page.add(Level::Outer, nodes.as_str());
        self.push_outcome(&mut page, &outcome);
        match page.finish() {
            Ok(text) => Ok(Picture {
                text,
                is_answered: outcome.is_ok(),
            }),
            Err(error) => Err(error),
        }
    }
}

/// Adds the lines of a heading: the function, and its core signatures.
fn push_heading(page: &mut Page, heading: &str) {
    for (index, line) in heading.lines().enumerate() {
        if index == 0 {
            page.push_side(line);
        } else {
            page.push_line(Level::Inner, line.trim_start());
        }
    }
}
