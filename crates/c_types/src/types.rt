//! The types of a table as C has them.

use crate::laid::Laid;
use atoms::KeyedState;
use indexmap::IndexMap;
use std::alloc::{AllocError, Global};
use tables::{Primitive, TypeId, ValType};

/// What a type is in C.
#[derive(Clone, Copy, PartialEq, Eq)]
pub enum Form {
    Number,
    /// An address and a length.
    Pair,
    Record,
    /// A tag and a union.
    Variant,
}

/// A field of a record, or a case.
#[derive(Drop)]
pub struct Part {
    /// The name of its field.
    pub label: String,
    /// What it holds, if it holds something.
    pub ty: Option<ValType>,
    /// The number of a case in C. No text for a field.
    pub constant: String,
}

/// A type of a row of the table.
#[derive(Drop)]
pub struct Row {
    /// What it is in the end. If this is another type, what comes after `spelling` is not used.
    pub end: ValType,
    /// As WIT spells it.
    pub spelling: String,
    /// Its name in C.
    pub c: String,
    /// As a part of the names of types without a name.
    pub key: String,
    pub form: Form,
    pub parts: Vec<Part>,
}

impl Row {
    /// A type that isn't written yet.
    fn blank(alloc: Global) -> Row {
        Row {
            end: ValType::String,
            spelling: String::new(alloc),
            c: String::new(alloc),
            key: String::new(alloc),
            form: Form::Number,
            parts: Vec::new(alloc),
        }
    }
}

/// Whether a part holds something.
pub fn has_held(parts: &[Part]) -> bool {
    for part in parts {
        if part.ty.is_some() {
            return true;
        }
    }
    false
}

/// The name of a primitive type in C.
fn c_word(primitive: Primitive) -> &'static str {
    match primitive {
        Primitive::Bool => "wit_bool",
        Primitive::S8 => "int8_t",
        Primitive::U8 => "uint8_t",
        Primitive::S16 => "int16_t",
        Primitive::U16 => "uint16_t",
        Primitive::S32 => "int32_t",
        Primitive::U32 => "uint32_t",
        Primitive::S64 => "int64_t",
        Primitive::U64 => "uint64_t",
        Primitive::Char => "wit_char",
    }
}

/// The types so far.
#[derive(Drop)]
pub struct Types<'a> {
    pub alloc: Global,
    pub laid: Laid<'a>,
    rows: Vec<Row>,
    /// The types without a name, by their keys.
    unnamed: IndexMap<String, ValType, KeyedState>,
}

impl<'a> Types<'a> {
    pub fn new(alloc: Global, laid: Laid<'a>, keyed: KeyedState) -> Result<Types<'a>, AllocError> {
        let mut rows = Vec::new(alloc);
        for _ in 0..laid.resolve.definitions.len() {
            rows.push(Row::blank(alloc))?;
        }
        Ok(Types {
            alloc,
            laid,
            rows,
            unnamed: IndexMap::with_hasher(alloc, keyed),
        })
    }

    pub(crate) fn row(&self, id: TypeId) -> Option<&Row> {
        self.rows.get(id.0 as usize)
    }

    /// What a type is in the end: names are followed, and types without a name that are alike are one.
    pub fn end(&self, ty: ValType) -> ValType {
        match ty {
            ValType::Id(id) => match self.row(id) {
                Some(row) => row.end,
                None => ty,
            },
            _ => ty,
        }
    }

    /// The row of what a type is in the end. None if it is a primitive or a string.
    pub fn end_row(&self, ty: ValType) -> Option<&Row> {
        match self.end(ty) {
            ValType::Id(id) => self.row(id),
            _ => None,
        }
    }

    /// The name of a type in C.
    pub fn c(&self, ty: ValType) -> &str {
        match self.end(ty) {
            ValType::Primitive(primitive) => c_word(primitive),
            ValType::String => "wit_string",
            ValType::Id(id) => match self.row(id) {
                Some(row) => row.c.as_str(),
                None => "",
            },
        }
    }

    /// A type as a part of the names of types without a name.
    pub fn key(&self, ty: Option<ValType>) -> &str {
        match ty {
            None => "void",
            Some(ty) => match self.end(ty) {
                ValType::Primitive(primitive) => primitive.keyword(),
                ValType::String => "string",
                ValType::Id(id) => match self.row(id) {
                    Some(row) => row.key.as_str(),
                    None => "",
                },
            },
        }
    }

    /// A type as WIT spells it.
    pub fn spelling(&self, ty: Option<ValType>) -> &str {
        match ty {
            None => "_",
            Some(ValType::Primitive(primitive)) => primitive.keyword(),
            Some(ValType::String) => "string",
            Some(ValType::Id(id)) => match self.row(id) {
                Some(row) => row.spelling.as_str(),
                None => "",
            },
        }
    }

    /// What a type is in C.
    pub fn form(&self, ty: ValType) -> Form {
        match self.end(ty) {
            ValType::Primitive(_) => Form::Number,
            ValType::String => Form::Pair,
            ValType::Id(id) => match self.row(id) {
                Some(row) => row.form,
                None => Form::Number,
            },
        }
    }

    /// The type without a name that was added under this key.
    pub fn unnamed_with(&self, key: &str) -> Option<ValType> {
        self.unnamed.get(key).copied()
    }

    /// Adds a type without a name.
    pub fn add_unnamed(&mut self, key: &str, ty: ValType) -> Result<(), AllocError> {
        let key = String::from_str(self.alloc, key)?;
        self.unnamed.insert(key, ty)?;
        Ok(())
    }

    /// Says what the type of a row is.
    pub fn set(&mut self, id: TypeId, row: Row) {
        if let Some(place) = self.rows.get_mut(id.0 as usize) {
            *place = row;
        }
    }

    /// Says what the type of a row is in the end, and how it is spelled.
    pub fn set_end(&mut self, id: TypeId, end: ValType, spelling: String) {
        let end = self.end(end);
        if let Some(place) = self.rows.get_mut(id.0 as usize) {
            place.end = end;
            place.spelling = spelling;
        }
    }
}
