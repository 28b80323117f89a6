//! Types and functions as WIT spells them.

use std::alloc::{AllocError, Global};
use tables::{Definition, Function, Resolve, TypeDefKind, ValType};
use text_builder::TextBuilder;

/// What WIT writes for each type of a table. One with a name is its label.
#[derive(Drop)]
pub struct WitTypes {
    alloc: Global,
    rows: Vec<String>,
}

impl WitTypes {
    /// The types of a table.
    pub fn of(alloc: Global, resolve: &Resolve) -> Result<WitTypes, AllocError> {
        let mut types = WitTypes {
            alloc,
            rows: Vec::new(alloc),
        };
        for definition in resolve.definitions.as_slice() {
            let row = types.row_of(definition)?;
            types.rows.push(row)?;
        }
        Ok(types)
    }

    fn row_of(&self, definition: &Definition) -> Result<String, AllocError> {
        match definition {
            Definition::Function(_) => Ok(String::new(self.alloc)),
            Definition::Type(definition) => match &definition.name {
                None => self.unnamed(&definition.kind),
                Some(name) => String::from_str(self.alloc, name.name.as_str()),
            },
        }
    }

    /// A type without a name.
    pub fn unnamed(&self, kind: &TypeDefKind) -> Result<String, AllocError> {
        let mut text = TextBuilder::new(self.alloc);
        self.push_unnamed(&mut text, kind);
        text.finish()
    }

    /// A type; `_` is none.
    pub fn text(&self, ty: Option<ValType>) -> &str {
        match ty {
            None => "_",
            Some(ValType::Primitive(primitive)) => primitive.keyword(),
            Some(ValType::String) => "string",
            Some(ValType::Id(id)) => match self.rows.get(id.0 as usize) {
                Some(row) => row.as_str(),
                None => "",
            },
        }
    }

    fn push_tuple(&self, text: &mut TextBuilder, types: &[ValType]) {
        text.push("tuple<");
        for (index, ty) in types.iter().enumerate() {
            text.push(if index == 0 { "" } else { ", " });
            text.push(self.text(Some(*ty)));
        }
        text.push(">");
    }

    fn push_unnamed(&self, text: &mut TextBuilder, kind: &TypeDefKind) {
        match kind {
            TypeDefKind::List(element) => text.push_three("list<", self.text(Some(*element)), ">"),
            TypeDefKind::Option(payload) => {
                text.push_three("option<", self.text(Some(*payload)), ">")
            }
            TypeDefKind::Result(None, None) => text.push("result"),
            TypeDefKind::Result(ok, None) => text.push_three("result<", self.text(*ok), ">"),
            TypeDefKind::Result(ok, error) => {
                text.push_three("result<", self.text(*ok), ", ");
                text.push(self.text(*error));
                text.push(">");
            }
            TypeDefKind::Tuple(types) => self.push_tuple(text, types.as_slice()),
            _ => {}
        }
    }

    fn push_signature(&self, text: &mut TextBuilder, function: &Function) {
        text.push("func(");
        for (index, parameter) in function.params.as_slice().iter().enumerate() {
            let before = if index == 0 { "" } else { ", " };
            text.push_three(before, parameter.name.as_str(), ": ");
            text.push(self.text(Some(parameter.ty)));
        }
        text.push(")");
        if let Some(ty) = function.result {
            text.push(" -> ");
            text.push(self.text(Some(ty)));
        }
    }

    /// The type of a function, without its name.
    pub fn signature(&self, function: &Function) -> Result<String, AllocError> {
        let mut text = TextBuilder::new(self.alloc);
        self.push_signature(&mut text, function);
        text.finish()
    }
}
