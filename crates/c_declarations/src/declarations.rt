//! The types of an interface.

use crate::header::{Header, push_declaration};
use crate::structs::push_extent;
use atoms::Label;
use c_types::c_names::{NameKind, c_label, c_word};
use c_types::{Form, Part, Row, Types, tag_bits};
use std::alloc::{AllocError, Global};
use tables::{Case, Field, TypeDefKind, TypeId, ValType};
use text_builder::TextBuilder;

/// The interface that is written.
#[derive(Drop)]
pub struct Scope {
    /// What its names in C begin with.
    pub prefix: String,
    pub full_name: String,
}

/// The type that is written.
#[derive(Drop)]
pub(crate) struct Entry<'a> {
    pub scope: &'a Scope,
    pub id: TypeId,
    pub label: &'a str,
}

impl Scope {
    /// A label of the interface as a name in C.
    pub fn name(&self, alloc: Global, label: &str) -> Result<String, AllocError> {
        let word = c_word(alloc, label)?;
        format!(in alloc; "{}_{}", self.prefix.as_str(), word.as_str())
    }
}

/// The bits of flags of so many labels.
fn flag_bits(labels: usize) -> u32 {
    if labels <= 8 {
        8
    } else if labels <= 16 {
        16
    } else {
        32
    }
}

/// Writes another name of a type, with the assertion of its size and its alignment.
fn push_typedef(text: &mut TextBuilder, types: &Types<'_>, name: &str, target: ValType) {
    push_declaration(text, "typedef ", types.c(target), name);
    push_extent(text, &types.laid, name, target);
}

/// Writes the numbers of cases.
fn push_constants(text: &mut TextBuilder, parts: &[Part]) {
    text.push("enum {\n");
    for (index, part) in parts.iter().enumerate() {
        text.push_three("    ", part.constant.as_str(), " = ");
        text.push_number(index);
        text.push(",\n");
    }
    text.push("};\n");
}

/// Writes the bits of flags of so many bits.
fn push_bits(text: &mut TextBuilder, parts: &[Part], bits: u32) {
    for (index, part) in parts.iter().enumerate() {
        text.push_three("#define ", part.constant.as_str(), " ((uint");
        text.push_number(bits as usize);
        text.push("_t)(UINT32_C(1) << ");
        text.push_number(index);
        text.push("))\n");
    }
}

/// Writes a type of this name that is a number of so many bits.
fn push_number(text: &mut TextBuilder, c: &str, bits: u32) {
    text.push("typedef uint");
    text.push_number(bits as usize);
    text.push_three("_t ", c, ";\n");
}

impl<'a> Header<'a> {
    /// Takes the name of a type.
    fn take_type(&mut self, entry: &Entry<'_>) -> String {
        let name = self.text.kept(entry.scope.name(self.alloc, entry.label));
        self.take_own(NameKind::Type, name)
    }

    /// Writes the comment of a type, and what it is.
    fn put_keyed(&mut self, entry: &Entry<'_>, last: &str) {
        let words = [entry.scope.full_name.as_str(), " ", entry.label];
        let key = self.text.kept(words.concat(self.alloc));
        self.put_comment(key.as_str(), last);
    }

    /// Writes another name of a type.
    fn put_alias(&mut self, entry: &Entry<'_>, target: ValType, comment: &str) {
        let name = self.take_type(entry);
        self.put_keyed(entry, comment);
        push_typedef(&mut self.text, &self.types, name.as_str(), target);
        let spelling = self.text.kept(String::from_str(self.alloc, entry.label));
        self.types.set_end(entry.id, target, spelling);
    }

    /// Writes another name of a type that is spelled so.
    pub(crate) fn put_type_alias(&mut self, entry: &Entry<'_>, target: ValType, spelling: &str) {
        let full_name = entry.scope.full_name.as_str();
        let words = ["type ", full_name, " ", entry.label, " = ", spelling];
        let comment = self.text.kept(words.concat(self.alloc));
        self.put_alias(entry, target, comment.as_str());
    }

    /// Appends the full name of the interface of a type, and its name there.
    fn push_path(&self, text: &mut TextBuilder, id: TypeId) {
        let resolve = self.types.laid.resolve;
        let Some(definition) = self.types.laid.definition(id) else {
            return;
        };
        let Some(name) = &definition.name else {
            return;
        };
        let Some(interface) = resolve.interfaces.as_slice().get(name.interface.0 as usize) else {
            return;
        };
        if let Some(package) = resolve
            .packages
            .as_slice()
            .get(interface.package.0 as usize)
        {
            match package.full_name(self.alloc, &interface.name) {
                Ok(full_name) => text.push_three(full_name.as_str(), " ", name.name.as_str()),
                Err(_) => text.refuse(),
            }
        }
    }

    /// Writes a used name.
    fn put_use(&mut self, entry: &Entry<'_>, target: TypeId) {
        let full_name = entry.scope.full_name.as_str();
        let mut comment = TextBuilder::new(self.alloc);
        comment.push_three(full_name, " ", entry.label);
        comment.push(", which is ");
        self.push_path(&mut comment, target);
        let comment = self.text.kept(comment.finish());
        self.put_alias(entry, ValType::Id(target), comment.as_str());
    }

    /// Takes the name of a type, and writes its comment. The name.
    fn put_heading(&mut self, word: &str, entry: &Entry<'_>) -> String {
        let c = self.take_type(entry);
        let full_name = entry.scope.full_name.as_str();
        let words = [word, " ", full_name, " ", entry.label];
        let last = self.text.kept(words.concat(self.alloc));
        self.put_keyed(entry, last.as_str());
        c
    }

    /// The row of a type with a name.
    fn named_row(&mut self, entry: &Entry<'_>, c: String, form: Form, parts: Vec<Part>) -> Row {
        Row {
            end: ValType::Id(entry.id),
            spelling: self.text.kept(String::from_str(self.alloc, entry.label)),
            key: self.text.kept(c.clone()),
            c,
            form,
            parts,
        }
    }

    /// Writes a record or a variant of this name in C and of these parts.
    fn put_parts(&mut self, entry: &Entry<'_>, c: String, form: Form, parts: Vec<Part>) {
        let row = self.named_row(entry, c, form, parts);
        self.put_struct(ValType::Id(entry.id), &row);
        self.put_access(row.c.as_str());
        self.types.set(entry.id, row);
    }

    fn field_parts(&mut self, fields: &[Field]) -> Vec<Part> {
        let mut parts = Vec::new(self.alloc);
        for field in fields {
            let part = Part {
                label: self.text.kept(c_label(self.alloc, field.name.as_str())),
                ty: Some(field.ty),
                constant: String::new(self.alloc),
            };
            self.text.add(&mut parts, part);
        }
        parts
    }

    fn put_record(&mut self, entry: &Entry<'_>, fields: &[Field]) {
        let c = self.put_heading("record", entry);
        let parts = self.field_parts(fields);
        self.put_parts(entry, c, Form::Record, parts);
    }

    /// A case or a flag of a type of this name.
    fn case_part(&mut self, c: &str, label: &str, ty: Option<ValType>) -> Part {
        let word = self.text.kept(c_word(self.alloc, label));
        let name = self.text.kept([c, "_", word.as_str()].concat(self.alloc));
        Part {
            label: self.text.kept(c_label(self.alloc, label)),
            ty,
            constant: self.take_constant(name.as_str()),
        }
    }

    fn case_parts(&mut self, c: &str, cases: &[Case]) -> Vec<Part> {
        let mut parts = Vec::new(self.alloc);
        for case in cases {
            let part = self.case_part(c, case.name.as_str(), case.ty);
            self.text.add(&mut parts, part);
        }
        parts
    }

    fn label_parts(&mut self, c: &str, labels: &[Label]) -> Vec<Part> {
        let mut parts = Vec::new(self.alloc);
        for label in labels {
            let part = self.case_part(c, label.as_str(), None);
            self.text.add(&mut parts, part);
        }
        parts
    }

    fn put_variant(&mut self, entry: &Entry<'_>, cases: &[Case]) {
        let c = self.put_heading("variant", entry);
        let parts = self.case_parts(c.as_str(), cases);
        push_constants(&mut self.text, parts.as_slice());
        self.put_parts(entry, c, Form::Variant, parts);
    }

    /// Writes a type that is a number of so many bits.
    fn put_number(&mut self, entry: &Entry<'_>, c: String, bits: u32) {
        push_number(&mut self.text, c.as_str(), bits);
        let row = self.named_row(entry, c, Form::Number, Vec::new(self.alloc));
        self.types.set(entry.id, row);
    }

    fn put_enum(&mut self, entry: &Entry<'_>, labels: &[Label]) {
        let c = self.put_heading("enum", entry);
        let parts = self.label_parts(c.as_str(), labels);
        push_constants(&mut self.text, parts.as_slice());
        self.put_number(entry, c, tag_bits(labels.len()));
    }

    fn put_flags(&mut self, entry: &Entry<'_>, labels: &[Label]) {
        let c = self.put_heading("flags", entry);
        let bits = flag_bits(labels.len());
        let parts = self.label_parts(c.as_str(), labels);
        push_bits(&mut self.text, parts.as_slice(), bits);
        self.put_number(entry, c, bits);
    }

    /// Writes another name of a type with a name, or of a primitive one.
    fn put_plain_alias(&mut self, entry: &Entry<'_>, target: ValType) {
        let made = String::from_str(self.alloc, self.types.spelling(Some(target)));
        let spelling = self.text.kept(made);
        self.put_type_alias(entry, target, spelling.as_str());
    }

    /// Writes a type with a name.
    fn put_named(&mut self, entry: &Entry<'_>, kind: &TypeDefKind) {
        match kind {
            TypeDefKind::Use(target) => self.put_use(entry, *target),
            TypeDefKind::Alias(target) => self.put_plain_alias(entry, *target),
            TypeDefKind::Record(fields) => self.put_record(entry, fields.as_slice()),
            TypeDefKind::Variant(cases) => self.put_variant(entry, cases.as_slice()),
            TypeDefKind::Enum(labels) => self.put_enum(entry, labels.as_slice()),
            TypeDefKind::Flags(labels) => self.put_flags(entry, labels.as_slice()),
            _ => self.put_named_inner(entry, kind),
        }
    }

    /// Writes these types, and what they are made of.
    pub fn put_types(&mut self, scope: &Scope, ids: &[TypeId]) {
        for id in ids {
            self.put_inners(id.0);
            if let Some(definition) = self.types.laid.definition(*id)
                && let Some(name) = &definition.name
            {
                let entry = Entry {
                    scope,
                    id: *id,
                    label: name.name.as_str(),
                };
                self.put_named(&entry, &definition.kind);
            }
        }
    }
}
