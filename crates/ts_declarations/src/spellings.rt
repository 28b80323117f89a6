//! Types as TypeScript spells them.

use crate::labels::{push_key, type_name};
use std::alloc::{AllocError, Global};
use tables::{Definition, Primitive, Resolve, TypeDefKind, ValType};
use text_builder::TextBuilder;

/// What matters of a type to those that are made of it. Other names of a type mean the same.
#[derive(Clone, Copy)]
pub enum Meaning {
    /// A number, which this typed array may have.
    Number(&'static str),
    /// A list of such numbers.
    Numbers(&'static str),
    Option,
    Other,
}

/// A type of a row of the table.
#[derive(Drop)]
pub struct Spelling {
    pub text: String,
    /// Whether the text is a union, which is put in brackets before `[]`.
    pub is_union: bool,
    pub meaning: Meaning,
}

/// The types of a table.
#[derive(Drop)]
pub struct Spellings {
    alloc: Global,
    rows: Vec<Spelling>,
}

/// A primitive type as TypeScript spells it.
fn ts_word(primitive: Primitive) -> &'static str {
    match primitive {
        Primitive::Bool => "boolean",
        Primitive::Char => "string",
        Primitive::S8 | Primitive::U8 | Primitive::S16 | Primitive::U16 => "number",
        Primitive::S32 | Primitive::U32 => "number",
        Primitive::S64 | Primitive::U64 => "bigint",
    }
}

/// Numbers of 64 bits have no typed array in the oldest libraries of TypeScript.
fn meaning_of(primitive: Primitive) -> Meaning {
    match primitive {
        Primitive::S8 => Meaning::Number("Int8Array"),
        Primitive::U8 => Meaning::Number("Uint8Array"),
        Primitive::S16 => Meaning::Number("Int16Array"),
        Primitive::U16 => Meaning::Number("Uint16Array"),
        Primitive::S32 => Meaning::Number("Int32Array"),
        Primitive::U32 => Meaning::Number("Uint32Array"),
        Primitive::Bool | Primitive::S64 | Primitive::U64 | Primitive::Char => Meaning::Other,
    }
}

impl Spellings {
    /// The types of a table.
    pub fn of(alloc: Global, resolve: &Resolve) -> Result<Spellings, AllocError> {
        let mut spellings = Spellings {
            alloc,
            rows: Vec::new(alloc),
        };
        for definition in resolve.definitions.as_slice() {
            let row = spellings.row_of(definition)?;
            spellings.rows.push(row)?;
        }
        Ok(spellings)
    }

    fn blank(&self) -> Spelling {
        Spelling {
            text: String::new(self.alloc),
            is_union: false,
            meaning: Meaning::Other,
        }
    }

    fn row_of(&self, definition: &Definition) -> Result<Spelling, AllocError> {
        match definition {
            Definition::Function(_) => Ok(self.blank()),
            Definition::Type(definition) => match &definition.name {
                None => self.unnamed(&definition.kind),
                Some(name) => self.named(name.name.as_str(), &definition.kind),
            },
        }
    }

    /// A type of an interface, by its label.
    fn named(&self, label: &str, kind: &TypeDefKind) -> Result<Spelling, AllocError> {
        Ok(Spelling {
            text: type_name(self.alloc, label)?,
            is_union: false,
            meaning: self.meaning_of_kind(kind),
        })
    }

    /// A type without a name.
    pub fn unnamed(&self, kind: &TypeDefKind) -> Result<Spelling, AllocError> {
        let mut text = TextBuilder::new(self.alloc);
        self.push_unnamed(&mut text, kind);
        Ok(Spelling {
            text: text.finish()?,
            is_union: matches!(kind, TypeDefKind::Option(_) | TypeDefKind::Result(_, _)),
            meaning: self.meaning_of_kind(kind),
        })
    }

    fn row(&self, ty: ValType) -> Option<&Spelling> {
        match ty {
            ValType::Id(id) => self.rows.get(id.0 as usize),
            _ => None,
        }
    }

    /// A type as TypeScript spells it.
    pub fn text(&self, ty: ValType) -> &str {
        match ty {
            ValType::Primitive(primitive) => ts_word(primitive),
            ValType::String => "string",
            ValType::Id(_) => match self.row(ty) {
                Some(row) => row.text.as_str(),
                None => "",
            },
        }
    }

    /// What matters of a type to those that are made of it.
    pub fn meaning(&self, ty: ValType) -> Meaning {
        match ty {
            ValType::Primitive(primitive) => meaning_of(primitive),
            ValType::String => Meaning::Other,
            ValType::Id(_) => match self.row(ty) {
                Some(row) => row.meaning,
                None => Meaning::Other,
            },
        }
    }

    fn meaning_of_kind(&self, kind: &TypeDefKind) -> Meaning {
        match kind {
            TypeDefKind::Use(target) => self.meaning(ValType::Id(*target)),
            TypeDefKind::Alias(target) => self.meaning(*target),
            TypeDefKind::Option(_) => Meaning::Option,
            TypeDefKind::List(element) => match self.meaning(*element) {
                Meaning::Number(array) => Meaning::Numbers(array),
                _ => Meaning::Other,
            },
            _ => Meaning::Other,
        }
    }

    fn push_list(&self, text: &mut TextBuilder, element: ValType) {
        let spelled = self.text(element);
        match self.row(element) {
            Some(row) if row.is_union => text.push_three("(", spelled, ")[]"),
            _ => {
                text.push(spelled);
                text.push("[]");
            }
        }
    }

    fn push_option(&self, text: &mut TextBuilder, payload: ValType) {
        let spelled = self.text(payload);
        match self.meaning(payload) {
            Meaning::Option => text.push_three("\"none\" | { some: ", spelled, " }"),
            _ => {
                text.push(spelled);
                text.push(" | undefined");
            }
        }
    }

    /// Appends a case: its label, or an object with its payload under this key.
    fn push_case(&self, text: &mut TextBuilder, label: &str, payload: Option<ValType>) {
        match payload {
            None => text.push_three("\"", label, "\""),
            Some(ty) => {
                text.push("{ ");
                push_key(text, label);
                text.push_three(": ", self.text(ty), " }");
            }
        }
    }

    fn push_tuple(&self, text: &mut TextBuilder, types: &[ValType]) {
        text.push("[");
        for (index, ty) in types.iter().enumerate() {
            text.push(if index == 0 { "" } else { ", " });
            text.push(self.text(*ty));
        }
        text.push("]");
    }

    fn push_unnamed(&self, text: &mut TextBuilder, kind: &TypeDefKind) {
        match kind {
            TypeDefKind::List(element) => self.push_list(text, *element),
            TypeDefKind::Option(payload) => self.push_option(text, *payload),
            TypeDefKind::Tuple(types) => self.push_tuple(text, types.as_slice()),
            TypeDefKind::Result(ok, error) => {
                self.push_case(text, "ok", *ok);
                text.push(" | ");
                self.push_case(text, "error", *error);
            }
            _ => {}
        }
    }
}
