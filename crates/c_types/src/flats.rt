//! How the core values of values are made, and how values are read out of them.

use crate::laid::tag_bits;
use crate::types::{Form, Part, Types, has_held};
use std::alloc::AllocError;
use tables::{Primitive, ValType};
use text_builder::TextBuilder;

/// Which way values go.
#[derive(Clone, Copy)]
enum Way {
    /// Core values are made of a value.
    Made,
    /// A value is read out of its core values.
    Read,
}

/// A value that is still to be written.
#[derive(Drop)]
struct Value {
    ty: ValType,
    /// The value in C.
    path: String,
    /// The number of its first core value.
    place: usize,
    indent: String,
}

/// A member of a value that is a core value of its own.
#[derive(Clone, Copy)]
struct Member {
    name: &'static str,
    /// The core values of the value before it.
    step: usize,
    /// What makes it of 32 bits.
    cast: &'static str,
}

const ADDRESS: Member = Member {
    name: "address",
    step: 0,
    cast: "",
};

const LENGTH: Member = Member {
    name: "length",
    step: 1,
    cast: "",
};

/// The number of one of so many cases.
fn tag_of(cases: usize) -> Member {
    Member {
        name: "tag",
        step: 0,
        cast: match tag_bits(cases) {
            8 => "(uint8_t)",
            16 => "(uint16_t)",
            _ => "",
        },
    }
}

/// What is still to be written.
#[derive(Drop)]
enum Step {
    Line(String),
    Value(Value),
}

/// Fields that are still to be written.
#[derive(Clone, Copy)]
struct Fields<'a> {
    /// What they begin with in C.
    front: [&'a str; 2],
    /// The number of their first core value.
    place: usize,
    indent: &'a str,
    parts: &'a [Part],
}

/// Turns the steps after so many around.
fn turn(steps: &mut Vec<Step>, count: usize) {
    if let Some(last) = steps.as_mut_slice().get_mut(count..) {
        last.reverse();
    }
}

/// Writes how a number becomes a core value: what comes before the value in C and after it.
fn push_made(text: &mut TextBuilder, value: &Value, place: usize, words: (&str, &[&str])) {
    let (before, after) = words;
    text.push(value.indent.as_str());
    text.push("wit_put(flats, ");
    text.push_number(place);
    text.push_three(", ", before, value.path.as_str());
    text.push_all(after);
    text.push(");\n");
}

/// Writes how a number is read out of a core value: what comes before the core value, up to what reads it, and after it.
fn push_read(text: &mut TextBuilder, value: &Value, place: usize, words: (&[&str], &str)) {
    let (before, after) = words;
    text.push(value.indent.as_str());
    text.push(value.path.as_str());
    text.push_all(before);
    text.push("(&flats[");
    text.push_number(place);
    text.push_three("])", after, ";\n");
}

impl<'a> Types<'a> {
    /// Leaves lines to be written, which consist of these words.
    fn leave_line(&self, text: &mut TextBuilder, steps: &mut Vec<Step>, words: &[&str]) {
        let line = text.kept(words.concat(self.alloc));
        text.add(steps, Step::Line(line));
    }

    /// Leaves a value of a type to be written, by the number of its first core value, the words that it is in C, and
    /// its indent.
    fn leave_value(
        &self,
        text: &mut TextBuilder,
        steps: &mut Vec<Step>,
        held: (ValType, usize),
        words: (&[&str], &[&str]),
    ) {
        let ((ty, place), (path, indent)) = (held, words);
        let value = Value {
            ty,
            path: text.kept(path.concat(self.alloc)),
            place,
            indent: text.kept(indent.concat(self.alloc)),
        };
        text.add(steps, Step::Value(value));
    }

    /// The steps for fields.
    fn leave_fields(&self, text: &mut TextBuilder, steps: &mut Vec<Step>, fields: Fields<'_>) {
        let (front, mut place) = (fields.front, fields.place);
        for part in fields.parts {
            if let Some(ty) = part.ty {
                let path = [front[0], front[1], part.label.as_str()];
                self.leave_value(text, steps, (ty, place), (&path, &[fields.indent]));
                place = place.saturating_add(self.laid.count(ty).unwrap_or(0));
            }
        }
    }

    /// The steps for a case, if it holds a value.
    fn leave_case<'b>(
        &self,
        text: &mut TextBuilder,
        steps: &mut Vec<Step>,
        value: &'b Value,
        part: &'b Part,
    ) {
        let Some(ty) = part.ty else {
            return;
        };
        let indent = value.indent.as_str();
        let head = [indent, "case ", part.constant.as_str(), ":\n"];
        self.leave_line(text, steps, &head);
        let held = (ty, value.place.saturating_add(1));
        let path = [value.path.as_str(), ".as.", part.label.as_str()];
        self.leave_value(text, steps, held, (&path, &[indent, "    "]));
        self.leave_line(text, steps, &[indent, "    break;\n"]);
    }

    /// The steps for the payload of a variant of these cases. There are none if no case holds something.
    fn leave_cases(
        &self,
        text: &mut TextBuilder,
        steps: &mut Vec<Step>,
        value: &Value,
        parts: &[Part],
    ) {
        if !has_held(parts) {
            return;
        }
        let indent = value.indent.as_str();
        let head = [indent, "switch (", value.path.as_str(), ".tag) {\n"];
        self.leave_line(text, steps, &head);
        for part in parts {
            self.leave_case(text, steps, value, part);
        }
        let end = [indent, "default:\n", indent, "    break;\n", indent, "}\n"];
        self.leave_line(text, steps, &end);
    }

    /// The parts of a type.
    pub(crate) fn parts(&self, ty: ValType) -> &[Part] {
        match self.end_row(ty) {
            Some(row) => row.parts.as_slice(),
            None => &[],
        }
    }

    /// What makes a core value of a number, before it and after it: one with a sign has it in all 32 bits.
    fn bits(&self, ty: ValType) -> (&'static str, &'static str) {
        match self.end(ty) {
            ValType::Primitive(Primitive::Bool) => ("", " != 0"),
            ValType::Primitive(Primitive::S8 | Primitive::S16 | Primitive::S32) => {
                ("(uint32_t)(int32_t)", "")
            }
            ValType::Primitive(Primitive::S64) => ("(uint64_t)", ""),
            _ => ("", ""),
        }
    }

    /// Writes how a number becomes a core value.
    fn push_bits(&self, text: &mut TextBuilder, value: &Value) {
        let (before, after) = self.bits(value.ty);
        push_made(text, value, value.place, (before, &[after]));
    }

    /// Writes how a number is read out of a core value.
    fn push_number(&self, text: &mut TextBuilder, value: &Value) {
        let (place, c) = (value.place, self.c(value.ty));
        match self.end(value.ty) {
            ValType::Primitive(Primitive::Bool) => {
                push_read(text, value, place, (&[" = wit_i32"], " != 0"))
            }
            ValType::Primitive(Primitive::S64 | Primitive::U64) => {
                push_read(text, value, place, (&[" = (", c, ")wit_i64"], ""))
            }
            _ => push_read(text, value, place, (&[" = (", c, ")wit_i32"], "")),
        }
    }
}

/// Writes how a member of a value becomes a core value, or the other way round.
fn push_member(text: &mut TextBuilder, way: Way, value: &Value, member: Member) {
    let place = value.place.saturating_add(member.step);
    match way {
        Way::Made => push_made(text, value, place, ("", &[".", member.name])),
        Way::Read => {
            let before = [".", member.name, " = ", member.cast, "wit_i32"];
            push_read(text, value, place, (&before, ""))
        }
    }
}

impl<'a> Types<'a> {
    /// Writes the tag of a variant. The steps for its payload.
    fn push_variant(&self, text: &mut TextBuilder, way: Way, value: &Value, steps: &mut Vec<Step>) {
        let parts = self.parts(value.ty);
        push_member(text, way, value, tag_of(parts.len()));
        self.leave_cases(text, steps, value, parts);
    }

    /// Writes what comes first of a value. The steps for the rest of it.
    fn push_value(&self, text: &mut TextBuilder, way: Way, value: &Value, steps: &mut Vec<Step>) {
        match (self.form(value.ty), way) {
            (Form::Number, Way::Made) => self.push_bits(text, value),
            (Form::Number, Way::Read) => self.push_number(text, value),
            (Form::Pair, _) => {
                push_member(text, way, value, ADDRESS);
                push_member(text, way, value, LENGTH);
            }
            (Form::Record, _) => self.leave_record(text, value, steps),
            (Form::Variant, _) => self.push_variant(text, way, value, steps),
        }
    }

    /// The steps for the fields of a record.
    fn leave_record<'b>(&'b self, text: &mut TextBuilder, value: &'b Value, steps: &mut Vec<Step>) {
        let fields = Fields {
            front: [value.path.as_str(), "."],
            place: value.place,
            indent: value.indent.as_str(),
            parts: self.parts(value.ty),
        };
        self.leave_fields(text, steps, fields);
    }

    /// What a step writes. The steps that come of it are the next.
    fn step_text(&self, way: Way, step: Step, stack: &mut Vec<Step>) -> Result<String, AllocError> {
        match step {
            Step::Line(line) => Ok(line),
            Step::Value(value) => {
                let count = stack.len();
                let mut text = TextBuilder::new(self.alloc);
                self.push_value(&mut text, way, &value, stack);
                turn(stack, count);
                text.finish()
            }
        }
    }

    /// What these steps write. Each writes a line, so memory ends before the steps do.
    fn steps_text(&self, way: Way, mut steps: Vec<Step>) -> Result<String, AllocError> {
        let mut text = String::new(self.alloc);
        turn(&mut steps, 0);
        for _ in 0..usize::MAX {
            let Some(step) = steps.pop() else {
                return Ok(text);
            };
            text.push_str(self.step_text(way, step, &mut steps)?.as_str())?;
        }
        Err(AllocError)
    }

    /// Writes how parameters become core values, or the other way round. They are named in C by a front and their labels.
    fn push_parameters<'b>(
        &self,
        text: &mut TextBuilder,
        way: Way,
        front: &'b str,
        parameters: &'b [Part],
    ) {
        let mut steps = Vec::new(self.alloc);
        let fields = Fields {
            front: [front, ""],
            place: 0,
            indent: "    ",
            parts: parameters,
        };
        self.leave_fields(text, &mut steps, fields);
        text.push_made(self.steps_text(way, steps));
    }

    /// Writes how the core values of parameters are made, which are named in C by a front and their labels.
    pub fn push_flats(&self, text: &mut TextBuilder, front: &str, parameters: &[Part]) {
        self.push_parameters(text, Way::Made, front, parameters);
    }

    /// Writes how parameters are read out of their core values. They are named in C by a front and their labels.
    pub fn push_received(&self, text: &mut TextBuilder, front: &str, parameters: &[Part]) {
        self.push_parameters(text, Way::Read, front, parameters);
    }

    /// Writes how the core values of one value of a type are made.
    pub fn push_answered(&self, text: &mut TextBuilder, ty: ValType) {
        let mut steps = Vec::new(self.alloc);
        self.leave_value(text, &mut steps, (ty, 0), (&["value"], &["    "]));
        text.push_made(self.steps_text(Way::Made, steps));
    }
}
