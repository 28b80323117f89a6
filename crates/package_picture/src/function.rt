//! What is shown of a function.
ghost use Rattle.std.specs.Prelude.{◌≡◌, ◌<◌, length};
ghost use Rattle.layout.specs.Layout.{layouts_of};
ghost use Rattle.tables.specs.Closed.{IsFunction};

use crate::requests::Requests;
use layout::{CoreSignature, Kinds, Layouts};
use layout_picture::{Level, Sheet, TypeLayout, member_name, push_flat, push_signature, type_text};
use std::alloc::{AllocError, Global};
use tables::{FunctionId, Resolve, TypeId, ValType};
use text_builder::TextBuilder;

/// A function of the tables.
#[derive(Drop)]
pub struct FunctionView<'a> {
    resolve: &'a Resolve,
    layouts: &'a Layouts,
    id: FunctionId,
    ghost laid_out: { layouts.now ≡ layouts_of resolve.now },
    ghost row: { id.0 < length layouts.now.rows },
    ghost function: { IsFunction resolve.now id },
}

impl<'a> FunctionView<'a> {
    /// A function of these tables. None if they have no such function.
    pub fn new(
        resolve: &'a Resolve,
        layouts: &'a Layouts,
        id: FunctionId,
    ) -> Option<FunctionView<'a>>
        requires { layouts.now ≡ layouts_of resolve.now }
    {
        if !layouts.has_function(id) || !resolve.is_function(id) {
            return None;
        }
        Some(FunctionView {
            resolve,
            layouts,
            id,
        })
    }

    pub fn name(&self) -> &'a str {
        self.resolve.signature(self.id).name.as_str()
    }

    /// Adds a line with a core signature, after what it is of.
    fn push_signature(&self, sheet: &mut Sheet, whose: &str, signature: &CoreSignature) {
        let mut line = TextBuilder::new(sheet.alloc);
        line.push(whose);
        push_signature(&mut line, signature);
        let line = sheet.kept(line.finish());
        sheet.push_line(Level::First, line.as_str());
    }

    /// Adds the core signatures under a heading with the function's owner.
    pub fn push_signatures(&self, sheet: &mut Sheet, owner: &str) {
        let heading = ["func ", owner, " ", self.name()].concat(sheet.alloc);
        let heading = sheet.kept(heading);
        sheet.push_heading(heading.as_str());
        self.push_signature(sheet, "the callee exports: ", &self.layouts.lifted(self.id));
        self.push_signature(
            sheet,
            "the caller imports: ",
            &self.layouts.lowered(self.id),
        );
    }

    fn layout(&self, ty: ValType) -> Option<TypeLayout<'a>> {
        TypeLayout::new(self.resolve, self.layouts, ty)
    }

    /// The type of the record of its parameters: that of its row.
    fn record(&self) -> ValType {
        ValType::Id(TypeId(self.id.0))
    }

    /// The type of its result, if it has one.
    fn result(&self) -> Option<ValType> {
        self.resolve.signature(self.id).result
    }

    /// Draws a record of parameters or a result under a title.
    fn push_area(&self, sheet: &mut Sheet, title: &str, layout: &TypeLayout<'a>) {
        let line = sheet.kept(sized(sheet.alloc, title, ":", layout));
        sheet.push_line(Level::Title, line.as_str());
        sheet.push_diagram(layout);
    }

    /// Adds the core values of a parameter.
    fn push_core_value(&self, sheet: &mut Sheet, name: &str, layout: &TypeLayout<'a>) {
        let mut line = TextBuilder::new(sheet.alloc);
        line.push(name);
        line.push(": ");
        line.push_made(type_text(sheet.alloc, self.resolve, layout.ty));
        line.push(" is ");
        push_flat(&mut line, &layout.flat());
        let line = sheet.kept(line.finish());
        sheet.push_line(Level::Second, line.as_str());
    }

    /// Adds the core values of each parameter.
    fn push_core_values(&self, sheet: &mut Sheet, record: &TypeLayout<'a>) {
        sheet.push_line(Level::Title, "the parameters as core values");
        let count = self.resolve.signature(self.id).params.len();
        for index in 0..count {
            if let Some(part) = record.field(index) {
                self.push_core_value(sheet, member_name(record, index), &part.layout);
            }
        }
    }

    /// Draws the record of the parameters if it is in memory, or adds their core values.
    fn push_parameters(&self, sheet: &mut Sheet, record: &TypeLayout<'a>) {
        match record.flat() {
            Kinds::Spilled => {
                let title =
                    "the parameters are more than 16 core values, so they are a record in memory";
                self.push_area(sheet, title, record);
                sheet.push_line(
                    Level::Second,
                    "the caller passes the address of its record, and the callee gets that of a copy",
                );
            }
            Kinds::Flat(kinds) if kinds.as_slice().is_empty() => {}
            Kinds::Flat(_) => self.push_core_values(sheet, record),
        }
    }

    /// Draws the return area if there is one.
    fn push_result(&self, sheet: &mut Sheet, layout: &TypeLayout<'a>) {
        let is_area = match layout.flat() {
            Kinds::Flat(kinds) => kinds.len() > 1,
            Kinds::Spilled => true,
        };
        if !is_area {
            return;
        }
        let title = "the result is more than 1 core value, so it is in a return area";
        self.push_area(sheet, title, layout);
        sheet.push_line(
            Level::Second,
            "the caller passes the address of its area last, and the callee returns that of its own",
        );
    }

    /// Adds what an allocator is asked for: first this, if it is a text, and then the blocks that a value of a type
    /// needs.
    fn push_requests(&self, sheet: &mut Sheet, words: [&str; 3], ty: ValType) {
        let mut requests = Requests::new(sheet.alloc, self.resolve, self.layouts);
        let [allocator, first, path] = words;
        requests.look_at(path, ty);
        push_lines(sheet, allocator, first, requests.lines.as_slice());
        sheet.kept(requests.refusals.finish());
    }

    /// Adds what the callee's allocator is asked for: for the record of the parameters, and for what they point to.
    fn push_callee_requests(&self, sheet: &mut Sheet, record: &TypeLayout<'a>) {
        let first = match record.flat() {
            Kinds::Spilled => sized(sheet.alloc, "the parameters", ",", record),
            Kinds::Flat(_) => Ok(String::new(sheet.alloc)),
        };
        let first = sheet.kept(first);
        let words = ["the callee's allocator", first.as_str(), ""];
        self.push_requests(sheet, words, record.ty);
    }

    /// Adds what the function has in both memories: its parameters if they are there, its return area, and what
    /// allocators are asked for.
    pub fn push_memory(&self, sheet: &mut Sheet) {
        if let Some(record) = self.layout(self.record()) {
            self.push_parameters(sheet, &record);
            self.push_callee_requests(sheet, &record);
        }
        if let Some(ty) = self.result()
            && let Some(layout) = self.layout(ty)
        {
            self.push_result(sheet, &layout);
            self.push_requests(sheet, ["the caller's allocator", "", "result"], ty);
        }
    }
}

/// Words and a mark, and the size and the alignment of a type.
fn sized(
    alloc: Global,
    words: &str,
    mark: &str,
    layout: &TypeLayout<'_>,
) -> Result<String, AllocError> {
    let (size, align) = (layout.size(), layout.align());
    format!(in alloc; "{words}{mark} size {size}, align {align}")
}

/// Adds what an allocator is asked for: first this, if it is a text, and then these lines.
fn push_lines(sheet: &mut Sheet, allocator: &str, first: &str, lines: &[String]) {
    let is_nothing = first.is_empty() && lines.is_empty();
    let words = if is_nothing {
        " is asked for nothing"
    } else {
        " is asked for"
    };
    let title = sheet.kept([allocator, words].concat(sheet.alloc));
    sheet.push_line(Level::Title, title.as_str());
    if !first.is_empty() {
        sheet.push_line(Level::Second, first);
    }
    for line in lines {
        sheet.push_line(Level::Second, line.as_str());
    }
}
