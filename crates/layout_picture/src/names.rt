//! Types as WIT spells them, and the names of fields and cases.

use crate::type_layout::TypeLayout;
use std::alloc::{AllocError, Global};
use tables::{Definition, Resolve, TypeDef, TypeDefKind, TypeId, ValType};
use text_builder::TextBuilder;

/// The most pieces of which a type is spelled. After these it goes on with `..`.
const MAX_PIECES: usize = 32;

/// A piece of a type's text that is still to be written.
#[derive(Clone, Copy)]
enum Piece {
    Mark(&'static str),
    /// A type, or `_` in its place.
    Type(Option<ValType>),
}

fn definition(resolve: &Resolve, id: TypeId) -> Option<&TypeDef> {
    match resolve.definitions.as_slice().get(id.0 as usize) {
        Some(Definition::Type(definition)) => Some(definition),
        _ => None,
    }
}

/// The label of a type. No text if it has none.
pub fn label_of(resolve: &Resolve, id: TypeId) -> &str {
    match definition(resolve, id) {
        Some(
            TypeDef {
                name: Some(name),
                ..
            },
        ) => name.name.as_str(),
        _ => "",
    }
}

/// The type that a used name is of, where it was declared.
pub fn origin_of(resolve: &Resolve, id: TypeId) -> TypeId {
    let mut origin = id;
    for _ in 0..resolve.definitions.len() {
        match definition(resolve, origin) {
            Some(
                TypeDef {
                    kind: TypeDefKind::Use(next),
                    ..
                },
            ) => origin = *next,
            _ => return origin,
        }
    }
    origin
}

/// The full name of the interface that declares a type. No text if the type has no name.
pub fn owner_of(alloc: Global, resolve: &Resolve, id: TypeId) -> Result<String, AllocError> {
    if let Some(definition) = definition(resolve, id)
        && let Some(name) = &definition.name
        && let Some(interface) = resolve.interfaces.as_slice().get(name.interface.0 as usize)
        && let Some(package) = resolve
            .packages
            .as_slice()
            .get(interface.package.0 as usize)
    {
        return String::from_str(alloc, package.full_name(alloc, &interface.name)?.as_str());
    }
    Ok(String::new(alloc))
}

/// The text of a type while it is written.
#[derive(Drop)]
struct Spelling<'a> {
    resolve: &'a Resolve,
    text: TextBuilder,
    /// The pieces that are still to be written, the last first.
    pieces: Vec<Piece>,
}

impl Spelling<'_> {
    /// Leaves a piece to be written.
    fn leave(&mut self, piece: Piece) {
        self.text.add(&mut self.pieces, piece);
    }

    /// Leaves types between `<` and `>` to be written.
    fn leave_members(&mut self, members: &[Option<ValType>]) {
        self.leave(Piece::Mark(">"));
        for (index, member) in members.iter().rev().enumerate() {
            if index > 0 {
                self.leave(Piece::Mark(", "));
            }
            self.leave(Piece::Type(*member));
        }
        self.leave(Piece::Mark("<"));
    }

    /// Leaves the types of a tuple to be written.
    fn leave_elements(&mut self, types: &[ValType]) {
        self.leave(Piece::Mark(">"));
        for (index, ty) in types.iter().rev().enumerate() {
            if index > 0 {
                self.leave(Piece::Mark(", "));
            }
            self.leave(Piece::Type(Some(*ty)));
        }
        self.leave(Piece::Mark("<"));
    }

    /// Leaves the pieces of a type without a label to be written, after its word.
    fn push_kind(&mut self, kind: &TypeDefKind) {
        self.text.push(kind_word(kind));
        match kind {
            TypeDefKind::List(ty) | TypeDefKind::Option(ty) => self.leave_members(&[Some(*ty)]),
            TypeDefKind::Result(None, None) => {}
            TypeDefKind::Result(ok, None) => self.leave_members(&[*ok]),
            TypeDefKind::Result(ok, error) => self.leave_members(&[*ok, *error]),
            TypeDefKind::Tuple(types) => self.leave_elements(types.as_slice()),
            _ => {}
        }
    }

    /// Appends the label of a type, or its word.
    fn push_definition(&mut self, id: TypeId) {
        let resolve = self.resolve;
        match (label_of(resolve, id), definition(resolve, id)) {
            ("", Some(definition)) => self.push_kind(&definition.kind),
            (label, _) => self.text.push(label),
        }
    }

    /// Appends the next word. What comes after it is left in the pieces.
    fn push_piece(&mut self, piece: Piece) {
        match piece {
            Piece::Mark(mark) => self.text.push(mark),
            Piece::Type(None) => self.text.push("_"),
            Piece::Type(Some(ValType::Primitive(primitive))) => self.text.push(primitive.keyword()),
            Piece::Type(Some(ValType::String)) => self.text.push("string"),
            Piece::Type(Some(ValType::Id(id))) => self.push_definition(id),
        }
    }

    /// Appends all pieces, as far as a type is spelled.
    fn push_pieces(&mut self) {
        for _ in 0..MAX_PIECES {
            let Some(piece) = self.pieces.pop() else {
                return;
            };
            self.push_piece(piece);
        }
        self.text.push("..");
    }
}

/// The word of a type without a label.
fn kind_word(kind: &TypeDefKind) -> &'static str {
    match kind {
        TypeDefKind::List(_) => "list",
        TypeDefKind::Option(_) => "option",
        TypeDefKind::Result(_, _) => "result",
        TypeDefKind::Tuple(_) => "tuple",
        _ => "_",
    }
}

/// A type as WIT spells it: its label, or what it is.
pub fn type_text(alloc: Global, resolve: &Resolve, ty: ValType) -> Result<String, AllocError> {
    let mut spelling = Spelling {
        resolve,
        text: TextBuilder::new(alloc),
        pieces: Vec::new(alloc),
    };
    spelling.leave(Piece::Type(Some(ty)));
    spelling.push_pieces();
    spelling.text.finish()
}

/// What a type is in the end: used names and aliases are followed.
fn end_of<'a>(resolve: &'a Resolve, ty: ValType) -> Option<&'a TypeDefKind> {
    let mut end = ty;
    for _ in 0..resolve.definitions.len() {
        let ValType::Id(id) = end else {
            return None;
        };
        match &definition(resolve, id)?.kind {
            TypeDefKind::Use(next) => end = ValType::Id(*next),
            TypeDefKind::Alias(next) => end = *next,
            kind => return Some(kind),
        }
    }
    None
}

/// The label of a field or a case of a type. None if it has none.
fn member_label(kind: &TypeDefKind, index: usize) -> Option<&str> {
    let label = match kind {
        TypeDefKind::Record(fields) => &fields.as_slice().get(index)?.name,
        TypeDefKind::Variant(cases) => &cases.as_slice().get(index)?.name,
        TypeDefKind::Enum(labels) | TypeDefKind::Flags(labels) => labels.as_slice().get(index)?,
        TypeDefKind::Option(_) => return Some(if index == 0 { "none" } else { "some" }),
        TypeDefKind::Result(_, _) => return Some(if index == 0 { "ok" } else { "error" }),
        _ => return None,
    };
    Some(label.as_str())
}

/// The name of a parameter, if a type is the row of a function: the record of its parameters.
fn parameter_name(resolve: &Resolve, ty: ValType, index: usize) -> Option<&str> {
    let ValType::Id(id) = ty else {
        return None;
    };
    match resolve.definitions.as_slice().get(id.0 as usize) {
        Some(Definition::Function(function)) => {
            Some(function.params.as_slice().get(index)?.name.as_str())
        }
        _ => None,
    }
}

/// The label of a field or a case of a type, or the name of a parameter of a function's row. No text if it has none.
pub fn member_name<'a>(layout: &TypeLayout<'a>, index: usize) -> &'a str {
    let (resolve, ty) = (layout.resolve, layout.ty);
    let label = match end_of(resolve, ty) {
        Some(kind) => member_label(kind, index),
        None => parameter_name(resolve, ty, index),
    };
    label.unwrap_or("")
}
