//! Types and functions as WIT spells them.

use atoms::Label;
use layout_picture::type_text;
use std::alloc::{AllocError, Global};
use tables::{Case, Field, Function, Parameter, Resolve, TypeDefKind, ValType};
use text_builder::TextBuilder;

/// A text about types of a table.
#[derive(Drop)]
struct Words<'a> {
    alloc: Global,
    table: &'a Resolve,
    text: TextBuilder,
}

impl<'a> Words<'a> {
    fn new(alloc: Global, table: &'a Resolve) -> Words<'a> {
        Words {
            alloc,
            table,
            text: TextBuilder::new(alloc),
        }
    }

    fn push_type(&mut self, ty: ValType) {
        self.text.push_made(type_text(self.alloc, self.table, ty));
    }

    fn push_fields(&mut self, fields: &[Field]) {
        for (index, field) in fields.iter().enumerate() {
            self.text.separate(index, ", ");
            self.text.push(field.name.as_str());
            self.text.push(": ");
            self.push_type(field.ty);
        }
    }

    fn push_parameters(&mut self, parameters: &[Parameter]) {
        for (index, parameter) in parameters.iter().enumerate() {
            self.text.separate(index, ", ");
            self.text.push(parameter.name.as_str());
            self.text.push(": ");
            self.push_type(parameter.ty);
        }
    }

    fn push_cases(&mut self, cases: &[Case]) {
        for (index, case) in cases.iter().enumerate() {
            self.text.separate(index, ", ");
            self.text.push(case.name.as_str());
            if let Some(ty) = case.ty {
                self.text.push("(");
                self.push_type(ty);
                self.text.push(")");
            }
        }
    }

    fn push_labels(&mut self, labels: &[Label]) {
        for (index, label) in labels.iter().enumerate() {
            self.text.separate(index, ", ");
            self.text.push(label.as_str());
        }
    }

    fn push_payload(&mut self, ty: Option<ValType>) {
        match ty {
            Some(ty) => self.push_type(ty),
            None => self.text.push("_"),
        }
    }

    fn push_payloads(&mut self, types: &[Option<ValType>]) {
        for (index, ty) in types.iter().enumerate() {
            self.text.separate(index, ", ");
            self.push_payload(*ty);
        }
    }

    fn push_elements(&mut self, types: &[ValType]) {
        for (index, ty) in types.iter().enumerate() {
            self.text.separate(index, ", ");
            self.push_type(*ty);
        }
    }

    /// Appends what stands between the brackets of a type.
    fn push_members(&mut self, kind: &TypeDefKind) {
        match kind {
            TypeDefKind::Use(target) => self.push_type(ValType::Id(*target)),
            TypeDefKind::Alias(ty) | TypeDefKind::List(ty) | TypeDefKind::Option(ty) => {
                self.push_type(*ty)
            }
            TypeDefKind::Result(ok, error) => self.push_payloads(&[*ok, *error]),
            TypeDefKind::Tuple(types) => self.push_elements(types.as_slice()),
            TypeDefKind::Record(fields) => self.push_fields(fields.as_slice()),
            TypeDefKind::Variant(cases) => self.push_cases(cases.as_slice()),
            TypeDefKind::Enum(labels) | TypeDefKind::Flags(labels) => {
                self.push_labels(labels.as_slice())
            }
        }
    }
}

/// What stands before the members of a type of this kind, and behind them.
fn brackets(kind: &TypeDefKind) -> (&'static str, &'static str) {
    match kind {
        TypeDefKind::Use(_) => ("use ", ""),
        TypeDefKind::Alias(_) => ("type ", ""),
        TypeDefKind::List(_) => ("type list<", ">"),
        TypeDefKind::Option(_) => ("type option<", ">"),
        TypeDefKind::Result(_, _) => ("type result<", ">"),
        TypeDefKind::Tuple(_) => ("type tuple<", ">"),
        TypeDefKind::Record(_) => ("record { ", " }"),
        TypeDefKind::Variant(_) => ("variant { ", " }"),
        TypeDefKind::Enum(_) => ("enum { ", " }"),
        TypeDefKind::Flags(_) => ("flags { ", " }"),
    }
}

/// What a type with a label is, as `record { count: u32 }` or `type list<u8>`.
pub fn type_words(
    alloc: Global,
    table: &Resolve,
    kind: &TypeDefKind,
) -> Result<String, AllocError> {
    let (front, back) = brackets(kind);
    let mut words = Words::new(alloc, table);
    words.text.push(front);
    words.push_members(kind);
    words.text.push(back);
    words.text.finish()
}

/// What a function is, as `func(count: u32) -> u32`.
pub fn function_words(
    alloc: Global,
    table: &Resolve,
    function: &Function,
) -> Result<String, AllocError> {
    let mut words = Words::new(alloc, table);
    words.text.push("func(");
    words.push_parameters(function.params.as_slice());
    words.text.push(")");
    if let Some(ty) = function.result {
        words.text.push(" -> ");
        words.push_type(ty);
    }
    words.text.finish()
}
