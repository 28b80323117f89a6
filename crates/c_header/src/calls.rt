//! What is made for a function: the record of its parameters, the blocks that a call needs, and the names of what makes
//! and reads its core values and its result.

use crate::answers::push_answer;
use crate::fills::push_fill;
use crate::reads::push_read;
use crate::receives::push_receive;
use c_declarations::{Header, Scope};
use c_types::c_names::{NameKind, c_label};
use c_types::{Form, Laid, Part, Passing, Row, Types, parameters_of};
use std::alloc::{AllocError, Global};
use tables::{Definition, Function, FunctionId, Parameter, ValType};
use text_builder::TextBuilder;

/// A function, and how it is called.
#[derive(Drop)]
pub struct Called<'a> {
    pub function: &'a Function,
    /// The record of its parameters.
    pub ty: ValType,
    pub passing: Passing,
}

/// The names of what is made for a function.
#[derive(Drop)]
pub struct CallNames {
    pub fill: String,
    pub read: String,
    pub count: String,
    pub receive: String,
    pub answer: String,
}

/// What is made for a function.
#[derive(Drop)]
pub struct Call<'a> {
    pub called: Called<'a>,
    pub parameters: Row,
    pub names: CallNames,
}

/// The function of this number. None if the tables have no such function.
pub fn called_of<'a>(laid: &Laid<'a>, id: FunctionId) -> Option<Called<'a>> {
    let definitions = laid.resolve.definitions.as_slice();
    let Some(Definition::Function(function)) = definitions.get(id.0 as usize) else {
        return None;
    };
    Some(Called {
        function,
        ty: parameters_of(id),
        passing: laid.passing(id)?,
    })
}

fn parameter_part(text: &mut TextBuilder, alloc: Global, parameter: &Parameter) -> Part {
    Part {
        label: text.kept(c_label(alloc, parameter.name.as_str())),
        ty: Some(parameter.ty),
        constant: String::new(alloc),
    }
}

fn parameter_parts(header: &mut Header<'_>, parameters: &[Parameter]) -> Vec<Part> {
    let mut parts = Vec::new(header.alloc);
    for parameter in parameters {
        let part = parameter_part(&mut header.text, header.alloc, parameter);
        header.text.add(&mut parts, part);
    }
    parts
}

/// Appends a function as WIT spells it.
fn push_signature(text: &mut TextBuilder, types: &Types<'_>, function: &Function) {
    text.push(function.name.as_str());
    text.push(": func(");
    for (index, parameter) in function.params.as_slice().iter().enumerate() {
        let mark = if index == 0 { "" } else { ", " };
        let ty = types.spelling(Some(parameter.ty));
        text.push_three(mark, parameter.name.as_str(), ": ");
        text.push(ty);
    }
    match function.result {
        Some(ty) => {
            text.push(") -> ");
            text.push(types.spelling(Some(ty)));
        }
        None => text.push(")"),
    }
}

/// A function as WIT spells it.
pub fn signature_of(
    alloc: Global,
    types: &Types<'_>,
    function: &Function,
) -> Result<String, AllocError> {
    let mut text = TextBuilder::new(alloc);
    push_signature(&mut text, types, function);
    text.finish()
}

/// Writes the comment of a function.
fn put_signature(header: &mut Header<'_>, scope: &Scope, function: &Function) {
    let alloc = header.alloc;
    let signature = signature_of(alloc, &header.types, function);
    let signature = header.text.kept(signature);
    let key = [scope.full_name.as_str(), " ", function.name.as_str()].concat(alloc);
    let key = header.text.kept(key);
    header.put_comment(key.as_str(), signature.as_str());
}

/// Takes the name of a constant, which consists of these words.
pub fn take_constant(header: &mut Header<'_>, words: &[&str]) -> String {
    let name = header.text.kept(words.concat(header.alloc));
    header.take_constant(name.as_str())
}

/// Writes a macro that is a string.
pub fn push_macro(text: &mut TextBuilder, constant: &str, value: &str) {
    text.push_three("#define ", constant, " \"");
    text.push(value);
    text.push("\"\n");
}

/// Writes the name of a function.
fn put_name(header: &mut Header<'_>, stem: &str, name: &str) {
    let constant = take_constant(header, &[stem, "_name"]);
    push_macro(&mut header.text, constant.as_str(), name);
}

/// Takes a name, which consists of these words. It has a short one if it is written.
pub fn take_if(
    header: &mut Header<'_>,
    is_written: bool,
    kind: NameKind,
    words: &[&str],
) -> String {
    let name = header.text.kept(words.concat(header.alloc));
    if is_written {
        header.take_own(kind, name)
    } else {
        let name = header.names.take(name);
        header.text.kept(name)
    }
}

/// Takes the name of the record of parameters, and writes it if it is to be written.
pub fn put_parameters(
    header: &mut Header<'_>,
    stem: &str,
    called: &Called<'_>,
    is_written: bool,
) -> Row {
    let alloc = header.alloc;
    let row = Row {
        end: called.ty,
        spelling: String::new(alloc),
        c: take_if(header, is_written, NameKind::Type, &[stem, "_parameters"]),
        key: String::new(alloc),
        form: Form::Record,
        parts: parameter_parts(header, called.function.params.as_slice()),
    };
    if is_written {
        header.put_struct(called.ty, &row);
    }
    row
}

/// Takes the names of what is made for a function.
fn take_names(header: &mut Header<'_>, stem: &str, function: &Function) -> CallNames {
    let kind = NameKind::Function;
    let has_parameters = !function.params.as_slice().is_empty();
    let has_result = function.result.is_some();
    CallNames {
        fill: take_if(header, true, kind, &[stem, "_fill"]),
        read: take_if(header, has_result, kind, &[stem, "_read"]),
        count: take_constant(header, &[stem, "_flats"]),
        receive: take_if(header, has_parameters, kind, &[stem, "_receive"]),
        answer: take_if(header, has_result, kind, &[stem, "_answer"]),
    }
}

/// Writes the parameters of a function, and takes the names of what is made for it.
fn call_of<'a>(header: &mut Header<'_>, stem: &str, called: Called<'a>) -> Call<'a> {
    let has_parameters = !called.function.params.as_slice().is_empty();
    Call {
        parameters: put_parameters(header, stem, &called, has_parameters),
        names: take_names(header, stem, called.function),
        called,
    }
}

/// Writes a number as a constant of this name.
fn push_define(text: &mut TextBuilder, name: &str, number: usize) {
    text.push_three("#define ", name, " ");
    text.push_number(number);
    text.push("\n");
}

/// Writes a number as a constant, whose name consists of these words.
fn put_number(header: &mut Header<'_>, words: &[&str], number: u32) {
    let name = take_constant(header, words);
    push_define(&mut header.text, name.as_str(), number as usize);
}

/// Writes the size and the alignment of a block for a value of a type, under names that begin so.
fn put_block(header: &mut Header<'_>, stem: &str, word: &str, ty: ValType) {
    let (size, align) = (header.types.laid.size(ty), header.types.laid.align(ty));
    put_number(header, &[stem, word, "_size"], size);
    put_number(header, &[stem, word, "_align"], align);
}

/// Writes the number of core values of a call, and the blocks that it needs.
fn put_numbers(header: &mut Header<'_>, stem: &str, call: &Call<'_>) {
    let (called, count) = (&call.called, call.names.count.as_str());
    let flats = called.passing.lowered.params.len();
    push_define(&mut header.text, count, flats);
    if called.passing.is_spilled {
        put_block(header, stem, "_parameters", called.ty);
    }
    if let Some(ty) = called.function.result
        && called.passing.has_area()
    {
        put_block(header, stem, "_area", ty);
    }
}

/// Writes the functions that make the core values of a call and read its result, and those of its callee.
fn push_call(text: &mut TextBuilder, types: &Types<'_>, call: &Call<'_>) {
    push_fill(text, types, call);
    if let Some(ty) = call.called.function.result {
        push_read(text, types, call, ty);
    }
    push_receive(text, types, call);
    if let Some(ty) = call.called.function.result {
        push_answer(text, types, call, ty);
    }
}

/// Writes what is made for a function that is called so.
fn put_called(header: &mut Header<'_>, stem: &str, called: Called<'_>) {
    let call = call_of(header, stem, called);
    put_numbers(header, stem, &call);
    push_call(&mut header.text, &header.types, &call);
}

/// Writes what is made for a function.
pub fn put_function(header: &mut Header<'_>, scope: &Scope, id: FunctionId) {
    let Some(called) = called_of(&header.types.laid, id) else {
        return;
    };
    header.put_inners(id.0);
    let stem = scope.name(header.alloc, called.function.name.as_str());
    let stem = header.text.kept(stem);
    put_signature(header, scope, called.function);
    put_name(header, stem.as_str(), called.function.name.as_str());
    put_called(header, stem.as_str(), called);
}
