//! Types as Python spells them.

use crate::names::type_name;
use declared_names::Namespaces;
use std::alloc::{AllocError, Global};
use tables::{Definition, Primitive, Resolve, TypeDefKind, TypeName, ValType};
use text_builder::TextBuilder;

/// What matters of a type to those that are made of it. Other names of a type mean the same.
#[derive(Clone, Copy)]
pub enum Meaning {
    /// A list of these is `bytes`.
    Byte,
    Option,
    Other,
}

/// A type of a row of the table.
#[derive(Drop)]
pub struct Spelling {
    pub text: String,
    pub meaning: Meaning,
}

/// The types of a table.
#[derive(Drop)]
pub struct Spellings {
    alloc: Global,
    rows: Vec<Spelling>,
}

/// A primitive type as Python spells it.
fn python_word(primitive: Primitive) -> &'static str {
    match primitive {
        Primitive::Bool => "bool",
        Primitive::Char => "str",
        _ => "int",
    }
}

impl Spellings {
    /// The types of a table, those with a name in the class of their interface.
    pub fn of(
        alloc: Global,
        resolve: &Resolve,
        namespaces: &Namespaces,
    ) -> Result<Spellings, AllocError> {
        let mut spellings = Spellings {
            alloc,
            rows: Vec::new(alloc),
        };
        for definition in resolve.definitions.as_slice() {
            let row = spellings.row_of(definition, namespaces)?;
            spellings.rows.push(row)?;
        }
        Ok(spellings)
    }

    fn row_of(
        &self,
        definition: &Definition,
        namespaces: &Namespaces,
    ) -> Result<Spelling, AllocError> {
        match definition {
            Definition::Function(_) => Ok(Spelling {
                text: String::new(self.alloc),
                meaning: Meaning::Other,
            }),
            Definition::Type(definition) => Ok(Spelling {
                text: match &definition.name {
                    None => self.unnamed(&definition.kind)?,
                    Some(name) => self.named(name, namespaces)?,
                },
                meaning: self.meaning_of_kind(&definition.kind),
            }),
        }
    }

    /// A type of an interface.
    fn named(&self, name: &TypeName, namespaces: &Namespaces) -> Result<String, AllocError> {
        let own = type_name(self.alloc, name.name.as_str())?;
        let place = name.interface.0 as usize;
        let mut text = TextBuilder::new(self.alloc);
        text.push_three(namespaces.interface(place), ".", own.as_str());
        text.finish()
    }

    /// A type without a name.
    pub fn unnamed(&self, kind: &TypeDefKind) -> Result<String, AllocError> {
        let mut text = TextBuilder::new(self.alloc);
        self.push_unnamed(&mut text, kind);
        text.finish()
    }

    fn row(&self, ty: ValType) -> Option<&Spelling> {
        match ty {
            ValType::Id(id) => self.rows.get(id.0 as usize),
            _ => None,
        }
    }

    /// A type as Python spells it.
    pub fn text(&self, ty: ValType) -> &str {
        match ty {
            ValType::Primitive(primitive) => python_word(primitive),
            ValType::String => "str",
            ValType::Id(_) => match self.row(ty) {
                Some(row) => row.text.as_str(),
                None => "",
            },
        }
    }

    /// A result or a payload, which may be missing.
    pub fn text_or_none(&self, ty: Option<ValType>) -> &str {
        match ty {
            Some(ty) => self.text(ty),
            None => "None",
        }
    }

    fn meaning(&self, ty: ValType) -> Meaning {
        match ty {
            ValType::Primitive(Primitive::U8) => Meaning::Byte,
            ValType::Primitive(_) | ValType::String => Meaning::Other,
            ValType::Id(_) => match self.row(ty) {
                Some(row) => row.meaning,
                None => Meaning::Other,
            },
        }
    }

    fn meaning_of_kind(&self, kind: &TypeDefKind) -> Meaning {
        match kind {
            TypeDefKind::Use(target) => self.meaning(ValType::Id(*target)),
            TypeDefKind::Alias(target) => self.meaning(*target),
            TypeDefKind::Option(_) => Meaning::Option,
            _ => Meaning::Other,
        }
    }

    fn push_list(&self, text: &mut TextBuilder, element: ValType) {
        match self.meaning(element) {
            Meaning::Byte => text.push("bytes"),
            _ => text.push_three("list[", self.text(element), "]"),
        }
    }

    fn push_option(&self, text: &mut TextBuilder, payload: ValType) {
        let spelled = self.text(payload);
        match self.meaning(payload) {
            Meaning::Option => text.push_three("typing.Optional[witcall.Some[", spelled, "]]"),
            _ => text.push_three("typing.Optional[", spelled, "]"),
        }
    }

    fn push_result(&self, text: &mut TextBuilder, ok: Option<ValType>, error: Option<ValType>) {
        text.push_three("typing.Union[witcall.Ok[", self.text_or_none(ok), "], ");
        text.push_three("witcall.Err[", self.text_or_none(error), "]]");
    }

    /// Appends types, with commas between them.
    pub fn push_types(&self, text: &mut TextBuilder, types: &[ValType]) {
        for (index, ty) in types.iter().enumerate() {
            text.push(if index == 0 { "" } else { ", " });
            text.push(self.text(*ty));
        }
    }

    fn push_unnamed(&self, text: &mut TextBuilder, kind: &TypeDefKind) {
        match kind {
            TypeDefKind::List(element) => self.push_list(text, *element),
            TypeDefKind::Option(payload) => self.push_option(text, *payload),
            TypeDefKind::Result(ok, error) => self.push_result(text, *ok, *error),
            TypeDefKind::Tuple(types) => {
                text.push("tuple[");
                self.push_types(text, types.as_slice());
                text.push("]");
            }
            _ => {}
        }
    }
}
