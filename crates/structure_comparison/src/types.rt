//! Types of values, functions, and types with a name.
ghost use Rattle.std.specs.Prelude.{◌≡◌, IsTrue, slice_get};
ghost use Rattle.component_structure.specs.Parts.{kind_view, definition_view, function_view, instance_view, item_view};
ghost use Rattle.structure_comparison.specs.InStep.{Both};
ghost use Rattle.structure_comparison.specs.Types.{site_view, primitive_of, IsValue, IsOptional, IsKind, IsDefined};
ghost use Rattle.structure_comparison.specs.Types.{IsUnnamed};
ghost use Rattle.structure_comparison.specs.Types.{IsFunction, IsFunctionItem, IsInstanceOf, IsUsed, IsUse};
ghost use Rattle.structure_comparison.specs.Types.{IsMadeOf, IsTarget, IsPair, AreUnnamed, type_at};

use crate::lookup::{definition_at, function_at, function_type_at, instance_at, name_at, type_at};
use crate::names::is_full_name;
use crate::site::Site;
use crate::written::{WrittenAs, are_written};
use atoms::Label;
use component_structure::{
    Case as ReadCase, Definition, Extern, Field as ReadField, Function as ReadFunction, Instance,
    Kind, NamedId, Used, ValType as ReadType, What,
};
use ctype_format::Primitive as ReadPrimitive;
use tables::{
    Case, Direction, Field, Function, FunctionId, InterfaceId, Parameter, Primitive, Resolve,
    TypeDefKind, TypeId, TypeName, ValType,
};

fn primitive_of(primitive: Primitive) -> ReadPrimitive
    ensures { result ≡ primitive_of primitive }
{
    match primitive {
        Primitive::Bool => ReadPrimitive::Bool,
        Primitive::S8 => ReadPrimitive::S8,
        Primitive::U8 => ReadPrimitive::U8,
        Primitive::S16 => ReadPrimitive::S16,
        Primitive::U16 => ReadPrimitive::U16,
        Primitive::S32 => ReadPrimitive::S32,
        Primitive::U32 => ReadPrimitive::U32,
        Primitive::S64 => ReadPrimitive::S64,
        Primitive::U64 => ReadPrimitive::U64,
        Primitive::Char => ReadPrimitive::Char,
    }
}

/// Whether a type of values is written as this, where it is used.
fn is_value(site: &Site<'_>, ty: ValType, read: ReadType) -> bool
    ensures { IsTrue result → IsValue (site_view site.now) ty read }
{
    match (ty, read) {
        (ValType::Primitive(own), ReadType::Primitive(read)) => read == primitive_of(own),
        (ValType::String, ReadType::Primitive(read)) => read == ReadPrimitive::String,
        (ValType::Id(row), ReadType::Named(id)) => site.is_named(row, id),
        (ValType::Id(row), ReadType::Defined(id)) => site.is_written(row, id.0),
        _ => false,
    }
}

fn is_optional(site: &Site<'_>, ty: Option<ValType>, read: Option<ReadType>) -> bool
    ensures { IsTrue result → IsOptional (site_view site.now) ty read }
{
    match (ty, read) {
        (Some(ty), Some(read)) => is_value(site, ty, read),
        (None, None) => true,
        _ => false,
    }
}

impl WrittenAs<ReadType> for ValType {
    ghost use Rattle.structure_comparison.specs.Types.{IsValue};

    ghost written = { IsValue };

    fn is_written(&self, read: &ReadType, site: &Site<'_>) -> bool {
        is_value(site, *self, *read)
    }
}

impl WrittenAs<ReadField> for Field {
    ghost use Rattle.structure_comparison.specs.Types.{IsField};

    ghost written = { IsField };

    fn is_written(&self, read: &ReadField, site: &Site<'_>) -> bool {
        read.label.as_bytes() == self.name.as_bytes() && is_value(site, self.ty, read.ty)
    }
}

impl WrittenAs<ReadField> for Parameter {
    ghost use Rattle.structure_comparison.specs.Types.{IsParameter};

    ghost written = { IsParameter };

    fn is_written(&self, read: &ReadField, site: &Site<'_>) -> bool {
        read.label.as_bytes() == self.name.as_bytes() && is_value(site, self.ty, read.ty)
    }
}

impl WrittenAs<ReadCase> for Case {
    ghost use Rattle.structure_comparison.specs.Types.{IsCase};

    ghost written = { IsCase };

    fn is_written(&self, read: &ReadCase, site: &Site<'_>) -> bool {
        read.label.as_bytes() == self.name.as_bytes() && is_optional(site, self.ty, read.payload)
    }
}

impl WrittenAs<Label> for Label {
    ghost use Rattle.std.specs.Prelude.{◌≡◌};

    ghost written = { λ site own read. read ≡ own };

    fn is_written(&self, read: &Label, _site: &Site<'_>) -> bool {
        read.as_bytes() == self.as_bytes()
    }
}

/// Whether both are the same labels, in order.
#[tactic(auto, using(crate::proofs::ListsInStep::in_step_same))]
fn are_labels(site: &Site<'_>, own: &[Label], read: &[Label]) -> bool
    ensures { IsTrue result → read.now ≡ own.now }
{
    are_written(site, own, read)
}

/// Whether a type is made of these parts.
fn is_kind(site: &Site<'_>, kind: &TypeDefKind, read: &Kind) -> bool
    ensures { IsTrue result → IsKind (site_view site.now) kind.now (kind_view read.now) }
{
    match (kind, read) {
        (TypeDefKind::List(ty), Kind::List(read)) => is_value(site, *ty, *read),
        (TypeDefKind::Option(ty), Kind::Option(read)) => is_value(site, *ty, *read),
        (
            TypeDefKind::Result(ok, error),
            Kind::Result {
                ok: read_ok,
                error: read_error,
            },
        ) => { is_optional(site, *ok, *read_ok) && is_optional(site, *error, *read_error) }
        (TypeDefKind::Tuple(types), Kind::Tuple(read)) => {
            are_written(site, types.as_slice(), read.as_slice())
        }
        (TypeDefKind::Record(fields), Kind::Record(read)) => {
            are_written(site, fields.as_slice(), read.as_slice())
        }
        (TypeDefKind::Variant(cases), Kind::Variant(read)) => {
            are_written(site, cases.as_slice(), read.as_slice())
        }
        (TypeDefKind::Enum(labels), Kind::Enum(read)) => {
            are_labels(site, labels.as_slice(), read.as_slice())
        }
        (TypeDefKind::Flags(labels), Kind::Flags(read)) => {
            are_labels(site, labels.as_slice(), read.as_slice())
        }
        _ => false,
    }
}

/// Whether a type is written as a definition of the scope.
fn is_defined(site: &Site<'_>, kind: &TypeDefKind, read: &Definition) -> bool
    ensures { IsTrue result → IsDefined (site_view site.now) kind.now (definition_view read.now) }
{
    read.scope == site.scope && is_kind(site, kind, &read.kind)
}

/// Whether a function has these parameters and this result.
fn is_function(site: &Site<'_>, function: &Function, read: &ReadFunction) -> bool
    ensures { IsTrue result → IsFunction (site_view site.now) function.now (function_view read.now) }
{
    are_written(site, function.params.as_slice(), read.params.as_slice())
        && is_optional(site, function.result, read.result)
}

/// Whether an item is a function under its label.
fn is_function_item(site: &Site<'_>, function: &Function, read: &What) -> bool
    ensures { IsTrue result → IsFunctionItem (site_view site.now) function.now (item_view read.now) }
{
    let What::Function { name, ty } = read else {
        return false;
    };
    match function_type_at(site.structure, *ty) {
        Some(read) => name.as_bytes() == function.name.as_bytes()
            && is_function(site, function, read),
        None => false,
    }
}

impl WrittenAs<Extern> for FunctionId {
    ghost use Rattle.component_structure.specs.Parts.{extern_part};
    ghost use Rattle.structure_comparison.specs.Types.{IsFunctionExtern};

    ghost written = { λ site id e. IsFunctionExtern site id (extern_part e) };

    fn is_written(&self, read: &Extern, site: &Site<'_>) -> bool {
        match function_at(site.resolve, *self) {
            Some(function) => {
                read.direction == site.way && is_function_item(site, function, &read.what)
            }
            None => false,
        }
    }
}

/// Whether an instance has the full name of an interface.
pub fn is_instance_of(resolve: &Resolve, id: InterfaceId, read: &Instance) -> bool
    ensures { IsTrue result → IsInstanceOf resolve.now id (instance_view read.now) }
{
    match resolve.interfaces.as_slice().get(id.0 as usize) {
        Some(interface) => is_full_name(resolve, interface.package, &interface.name, &read.name),
        None => false,
    }
}

/// Whether a type with this name is a type of an instance.
fn is_used(site: &Site<'_>, name: &TypeName, read: &Used) -> bool
    ensures { IsTrue result → IsUsed (site_view site.now) name.now read.now }
{
    match instance_at(site.structure, read.instance) {
        Some(instance) => {
            read.name.as_bytes() == name.name.as_bytes()
                && is_instance_of(site.resolve, name.interface, instance)
        }
        None => false,
    }
}

/// Whether a type is that of another interface in a row.
fn is_use(site: &Site<'_>, row: TypeId, read: ReadType) -> bool
    ensures { IsTrue result → IsUse (site_view site.now) row read }
{
    let ReadType::Used(id) = read else {
        return false;
    };
    match (
        name_at(site.resolve, row),
        site.structure.used.as_slice().get(id.0),
    ) {
        (Some(name), Some(used)) => is_used(site, name, used),
        _ => false,
    }
}

/// Whether a type is a definition that is made of this.
fn is_made_of(site: &Site<'_>, kind: &TypeDefKind, read: ReadType) -> bool
    ensures { IsTrue result → IsMadeOf (site_view site.now) kind.now read }
{
    let ReadType::Defined(id) = read else {
        return false;
    };
    match definition_at(site.structure, id.0) {
        Some(definition) => is_defined(site, kind, definition),
        None => false,
    }
}

/// Whether a type with a name is equal to this one.
fn is_target(site: &Site<'_>, kind: &TypeDefKind, read: ReadType) -> bool
    ensures { IsTrue result → IsTarget (site_view site.now) kind.now read }
{
    match kind {
        TypeDefKind::Use(row) => is_use(site, *row, read),
        TypeDefKind::Alias(ty) => is_value(site, *ty, read),
        _ => is_made_of(site, kind, read),
    }
}

/// Whether the type in a row is equal to what a type with a name is.
fn is_equal(site: &Site<'_>, row: TypeId, id: NamedId) -> bool
    ensures { IsTrue result → Both (λ t named. IsTarget (site_view site.now) t.kind named.target)
        (type_at site.now.resolve.now row.0) (slice_get site.now.structure.now.named.items id.0) }
{
    match (
        type_at(site.resolve, row),
        site.structure.named.as_slice().get(id.0),
    ) {
        (Some(own), Some(named)) => is_target(site, &own.kind, named.target),
        _ => false,
    }
}

impl WrittenAs<Extern> for TypeId {
    ghost use Rattle.component_structure.specs.Parts.{extern_part};
    ghost use Rattle.structure_comparison.specs.Types.{IsTypeExtern};

    ghost written = { λ site row e. IsTypeExtern site row (extern_part e) };

    fn is_written(&self, read: &Extern, site: &Site<'_>) -> bool {
        match (read.direction, &read.what) {
            (Direction::Export, What::Type(id)) => {
                site.is_named(*self, *id) && is_equal(site, *self, *id)
            }
            _ => false,
        }
    }
}

/// Whether a row without a name is a definition.
fn is_pair(site: &Site<'_>, row: u32, id: usize) -> bool
    ensures { IsTrue result → IsPair (site_view site.now) (row, id) }
{
    match (
        type_at(site.resolve, TypeId(row)),
        definition_at(site.structure, id),
    ) {
        (Some(own), Some(read)) => own.name.is_none() && is_defined(site, &own.kind, read),
        _ => false,
    }
}

/// Whether each row without a name that was met is written as its definition.
pub fn are_unnamed(site: &Site<'_>) -> bool
    ensures { IsTrue result → AreUnnamed (site_view site.now) }
{
    for (row, id) in &site.written {
        if !is_pair(site, *row, *id) {
            return false;
        }
    }
    true
}
