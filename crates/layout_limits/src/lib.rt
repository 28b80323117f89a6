//! What is above the limits of layouts: the first definition of a package that is too deep or too large.
//!
//! `first_above_limits` names it. It stands on `layout`, which has the limits, and on `tables`.
#![tactic(auto)]

use layout::{MAX_DEPTH, MAX_SIZE};
use std::alloc::{AllocError, Global};
use tables::{
    Choice, Definition, Function, Member, Owner, Primitive, Resolve, TypeDef, TypeDefKind, ValType,
};

/// A type or a function that is above the limits. A type without a name goes by what it is in.
#[derive(Debug, Drop)]
pub struct Refused {
    /// The interface or the world that has it.
    pub scope: String,
    pub name: String,
    pub is_function: bool,
}

/// How deep a type is, and its size and its alignment in bytes.
#[derive(Clone, Copy)]
struct Extent {
    depth: u32,
    size: u32,
    align: u32,
}

/// The first multiple of an alignment from a place on.
fn aligned(place: u32, align: u32) -> u32 {
    match place.checked_rem(align) {
        None | Some(0) => place,
        Some(rest) => place.saturating_add(align.saturating_sub(rest)),
    }
}

/// The bytes of a primitive type.
fn primitive_bytes(primitive: Primitive) -> u32 {
    match primitive {
        Primitive::Bool | Primitive::S8 | Primitive::U8 => 1,
        Primitive::S16 | Primitive::U16 => 2,
        Primitive::S32 | Primitive::U32 | Primitive::Char => 4,
        Primitive::S64 | Primitive::U64 => 8,
    }
}

/// The bytes of a number that tells so many cases apart.
fn case_bytes(cases: usize) -> u32 {
    match cases {
        0..=256 => 1,
        257..=65_536 => 2,
        _ => 4,
    }
}

/// The bytes of so many flags.
fn flag_bytes(labels: usize) -> u32 {
    match labels {
        0..=8 => 1,
        9..=16 => 2,
        _ => 4,
    }
}

impl Extent {
    /// What has nothing in it.
    fn nothing() -> Extent {
        Extent {
            depth: 0,
            size: 0,
            align: 1,
        }
    }

    /// A number of so many bytes.
    fn number(bytes: u32) -> Extent {
        Extent {
            depth: 1,
            size: bytes,
            align: bytes,
        }
    }

    /// An address and a length.
    fn block(depth: u32) -> Extent {
        Extent {
            depth,
            size: 8,
            align: 4,
        }
    }

    /// A type, by the rows of the definitions before it.
    fn of(rows: &[Extent], ty: ValType) -> Extent {
        match ty {
            ValType::Primitive(primitive) => Extent::number(primitive_bytes(primitive)),
            ValType::String => Extent::block(1),
            ValType::Id(id) => rows
                .get(id.0 as usize)
                .copied()
                .unwrap_or(Extent::nothing()),
        }
    }

    /// This with a field after it.
    fn with_field(self, field: Extent) -> Extent {
        Extent {
            depth: self.depth.max(field.depth),
            size: aligned(self.size, field.align).saturating_add(field.size),
            align: self.align.max(field.align),
        }
    }

    /// The room of this or of another payload.
    fn with_payload(self, payload: Extent) -> Extent {
        Extent {
            depth: self.depth.max(payload.depth),
            size: self.size.max(payload.size),
            align: self.align.max(payload.align),
        }
    }

    /// The type that has these fields.
    fn closed(self) -> Extent {
        Extent {
            depth: self.depth.saturating_add(1),
            size: aligned(self.size, self.align),
            align: self.align,
        }
    }

    fn record_of<M: Member>(rows: &[Extent], members: &[M]) -> Extent {
        let mut fields = Extent::nothing();
        for member in members {
            fields = fields.with_field(Extent::of(rows, member.ty()));
        }
        fields.closed()
    }

    fn variant_of<C: Choice>(rows: &[Extent], cases: &[C]) -> Extent {
        let mut payloads = Extent::nothing();
        for case in cases {
            if let Some(payload) = case.payload() {
                payloads = payloads.with_payload(Extent::of(rows, payload));
            }
        }
        let bytes = case_bytes(cases.len());
        let number = Extent {
            depth: 0,
            size: bytes,
            align: bytes,
        };
        number.with_field(payloads).closed()
    }

    fn of_kind(rows: &[Extent], kind: &TypeDefKind) -> Extent {
        match kind {
            TypeDefKind::Use(target) => Extent::of(rows, ValType::Id(*target)),
            TypeDefKind::Alias(target) => Extent::of(rows, *target),
            TypeDefKind::List(element) => {
                Extent::block(Extent::of(rows, *element).depth.saturating_add(1))
            }
            TypeDefKind::Option(payload) => Extent::variant_of(rows, &[None, Some(*payload)]),
            TypeDefKind::Result(ok, error) => Extent::variant_of(rows, &[*ok, *error]),
            TypeDefKind::Tuple(types) => Extent::record_of(rows, types.as_slice()),
            TypeDefKind::Record(fields) => Extent::record_of(rows, fields.as_slice()),
            TypeDefKind::Variant(cases) => Extent::variant_of(rows, cases.as_slice()),
            TypeDefKind::Enum(labels) => Extent::variant_of(rows, labels.as_slice()),
            TypeDefKind::Flags(labels) => Extent::number(flag_bytes(labels.len())),
        }
    }

    /// A definition. A function is the record of its parameters, which may be one deeper than a type: it counts as one
    /// less.
    fn of_definition(rows: &[Extent], definition: &Definition) -> Extent {
        match definition {
            Definition::Type(definition) => Extent::of_kind(rows, &definition.kind),
            Definition::Function(function) => {
                let params = Extent::record_of(rows, function.params.as_slice());
                Extent {
                    depth: params.depth.saturating_sub(1),
                    size: params.size,
                    align: params.align,
                }
            }
        }
    }

    fn is_refused(self) -> bool {
        self.depth > MAX_DEPTH || self.size > MAX_SIZE
    }
}

/// The place of the first definition that is above the limits.
fn first_refused(alloc: Global, definitions: &[Definition]) -> Result<Option<usize>, AllocError> {
    let mut rows = Vec::new(alloc);
    for (place, definition) in definitions.iter().enumerate() {
        let extent = Extent::of_definition(rows.as_slice(), definition);
        if extent.is_refused() {
            return Ok(Some(place));
        }
        rows.push(extent)?;
    }
    Ok(None)
}

/// The name of the interface or the world that has a function.
fn owner_name<'a>(resolve: &'a Resolve, function: &Function) -> &'a str {
    match function.owner {
        Owner::Interface(id) => match resolve.interfaces.as_slice().get(id.0 as usize) {
            Some(interface) => interface.name.as_str(),
            None => "",
        },
        Owner::World(id) => match resolve.worlds.as_slice().get(id.0 as usize) {
            Some(world) => world.name.as_str(),
            None => "",
        },
    }
}

/// A definition by its name. None if it has none.
fn named(
    alloc: Global,
    resolve: &Resolve,
    definition: &Definition,
) -> Result<Option<Refused>, AllocError> {
    let (scope, name, is_function) = match definition {
        Definition::Function(function) => {
            (owner_name(resolve, function), function.name.as_str(), true)
        }
        Definition::Type(
            TypeDef {
                name: Some(name),
                ..
            },
        ) => match resolve.interfaces.as_slice().get(name.interface.0 as usize) {
            Some(interface) => (interface.name.as_str(), name.name.as_str(), false),
            None => return Ok(None),
        },
        Definition::Type(_) => return Ok(None),
    };
    Ok(Some(Refused {
        scope: String::from_str(alloc, scope)?,
        name: String::from_str(alloc, name)?,
        is_function,
    }))
}

/// The first definition of a package that is above the limits of layouts. One without a name goes by the next that has
/// one, of which it is a part.
pub fn first_above_limits(alloc: Global, resolve: &Resolve) -> Result<Option<Refused>, AllocError> {
    let definitions = resolve.definitions.as_slice();
    let Some(first) = first_refused(alloc, definitions)? else {
        return Ok(None);
    };
    for definition in definitions.get(first..).unwrap_or(&[]) {
        let found = named(alloc, resolve, definition)?;
        if found.is_some() {
            return Ok(found);
        }
    }
    Ok(None)
}
