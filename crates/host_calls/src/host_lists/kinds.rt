//! The numbers of kinds, as the header has them.
ghost use Rattle.std.specs.Prelude.{◌≡◌};
ghost use Rattle.host_calls.specs.Kinds.{primitive_number, definition_kind_number, type_number};

use tables::{Definition, Primitive, Resolve, TypeDefKind, ValType};

fn primitive_number(primitive: Primitive) -> u32
    ensures { result ≡ primitive_number primitive }
{
    match primitive {
        Primitive::Bool => 1,
        Primitive::S8 => 2,
        Primitive::U8 => 3,
        Primitive::S16 => 4,
        Primitive::U16 => 5,
        Primitive::S32 => 6,
        Primitive::U32 => 7,
        Primitive::S64 => 8,
        Primitive::U64 => 9,
        Primitive::Char => 10,
    }
}

fn kind_number(kind: &TypeDefKind) -> u32
    ensures { result ≡ definition_kind_number kind.now }
{
    match kind {
        TypeDefKind::List(_) => 12,
        TypeDefKind::Option(_) => 13,
        TypeDefKind::Result(_, _) => 14,
        TypeDefKind::Tuple(_) => 15,
        TypeDefKind::Record(_) => 16,
        TypeDefKind::Variant(_) => 17,
        TypeDefKind::Enum(_) => 18,
        TypeDefKind::Flags(_) => 19,
        TypeDefKind::Alias(_) => 20,
        TypeDefKind::Use(_) => 21,
    }
}

/// The number of the kind of a type: of one of the table that of its row.
pub(crate) fn type_number(resolve: &Resolve, ty: ValType) -> u32
    ensures { result ≡ type_number resolve.now.definitions ty }
{
    match ty {
        ValType::Primitive(primitive) => primitive_number(primitive),
        ValType::String => 11,
        ValType::Id(id) => match resolve.definitions.as_slice().get(id.0 as usize) {
            Some(Definition::Type(definition)) => kind_number(&definition.kind),
            Some(Definition::Function(_)) => 22,
            None => 0,
        },
    }
}
