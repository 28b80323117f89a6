//! Writing a component in its shortest spelling.
ghost use Rattle.std.specs.Prelude.{◌≡◌, ◌<◌, ◌++◌, ◌∷◌, [], length, IfOk, IfErr, OnOk};
ghost use Rattle.ctype_format.specs.View.{defined_view, raw_function_view, type_view, decl_view, export_view};
ghost use Rattle.ctype_format.specs.Names.{name_view};
ghost use Rattle.ctype_format.specs.Writing.{u32_bytes, s33_bytes, counted, name_bytes, extern_bytes, primitive_byte};
ghost use Rattle.ctype_format.specs.Writing.{valtype_bytes, optional_bytes, field_bytes, case_bytes, defined_bytes};
ghost use Rattle.ctype_format.specs.Writing.{outcome_bytes, function_bytes, alias_bytes, description_bytes, type_bytes};
ghost use Rattle.ctype_format.specs.Writing.{decl_bytes, exported_bytes, section_bytes};
ghost use Rattle.ctype_format.specs.Formed.{FitsU32, Counted, FormedLabel, FormedName, FormedValType, FormedOption};
ghost use Rattle.ctype_format.specs.Formed.{FormedField, FormedCase, FormedDefined, FormedFunction, FormedAlias};
ghost use Rattle.ctype_format.specs.Formed.{FormedDescription, FormedType, FormedDecl, FormedExport};

use crate::name::ExternName;
use crate::raw::{
    Primitive, RawAlias, RawCase, RawDecl, RawDefinedType, RawDescription, RawExport, RawField,
    RawFunction, RawType, RawValType,
};
use atoms::{Label, write_s33, write_u32};
use std::alloc::{AllocError, Global};

fn put_u32(out: &mut Vec<u8>, value: u32) -> Result<(), AllocError>
    ensures { OnOk result (out.new.items ≡ out.old.items ++ u32_bytes value) }
{
    match write_u32(out, value) {
        Ok(()) => Ok(()),
        Err(_) => Err(AllocError),
    }
}

fn put_s33(out: &mut Vec<u8>, value: u32) -> Result<(), AllocError>
    ensures { OnOk result (out.new.items ≡ out.old.items ++ s33_bytes value) }
{
    match write_s33(out, value) {
        Ok(()) => Ok(()),
        Err(_) => Err(AllocError),
    }
}

/// The count in 32 bits. No memory where these have no room for it.
fn narrow_count(count: usize) -> Result<u32, AllocError>
    ensures ok { IfOk result (λ narrow. narrow ≡ count) }
    ensures fits { IfOk result FitsU32 }
    ensures err { IfErr result (λ _. u32.MAX < count) }
{
    match u32::try_from(count) {
        Ok(narrow) => Ok(narrow),
        Err(_) => Err(AllocError),
    }
}

/// A count, for which there is no memory where it passes 32 bits.
pub fn put_count(out: &mut Vec<u8>, count: usize) -> Result<(), AllocError>
    ensures bytes { OnOk result (out.new.items ≡ out.old.items ++ u32_bytes count) }
    ensures formed { OnOk result (FitsU32 count) }
{
    put_u32(out, narrow_count(count)?)
}

fn put_name(out: &mut Vec<u8>, text: &[u8]) -> Result<(), AllocError>
    ensures bytes { OnOk result (out.new.items ≡ out.old.items ++ name_bytes text.now) }
    ensures formed { OnOk result (FitsU32 (length text.now)) }
{
    put_count(out, text.len())?;
    out.extend_from_slice(text)?;
    Ok(())
}

pub fn put_extern_name(
    alloc: Global,
    out: &mut Vec<u8>,
    name: &ExternName,
) -> Result<(), AllocError>
    ensures bytes { OnOk result (out.new.items ≡ out.old.items ++ extern_bytes (name_view name.now)) }
    ensures formed { OnOk result (FormedName (name_view name.now)) }
{
    out.push(0)?;
    match name {
        ExternName::Label(label) => put_name(out, label.as_bytes()),
        ExternName::FullName(name) => {
            let text = name.text(alloc)?;
            put_name(out, text.as_bytes())
        }
    }
}

fn primitive_byte(primitive: Primitive) -> u8
    ensures { result ≡ primitive_byte primitive }
{
    match primitive {
        Primitive::Bool => 0x7f,
        Primitive::S8 => 0x7e,
        Primitive::U8 => 0x7d,
        Primitive::S16 => 0x7c,
        Primitive::U16 => 0x7b,
        Primitive::S32 => 0x7a,
        Primitive::U32 => 0x79,
        Primitive::S64 => 0x78,
        Primitive::U64 => 0x77,
        Primitive::Char => 0x74,
        Primitive::String => 0x73,
    }
}

fn put_valtype(out: &mut Vec<u8>, ty: RawValType) -> Result<(), AllocError>
    ensures bytes { OnOk result (out.new.items ≡ out.old.items ++ valtype_bytes ty) }
    ensures formed { OnOk result (FormedValType ty) }
{
    match ty {
        RawValType::Primitive(primitive) => Ok(out.push(primitive_byte(primitive))?),
        RawValType::Index(index) => put_s33(out, index),
    }
}

fn put_optional(out: &mut Vec<u8>, ty: Option<RawValType>) -> Result<(), AllocError>
    ensures bytes { OnOk result (out.new.items ≡ out.old.items ++ optional_bytes ty) }
    ensures formed { OnOk result (FormedOption ty) }
{
    match ty {
        None => Ok(out.push(0)?),
        Some(ty) => {
            out.push(1)?;
            put_valtype(out, ty)
        }
    }
}

fn put_field(out: &mut Vec<u8>, field: &RawField) -> Result<(), AllocError>
    ensures bytes { OnOk result (out.new.items ≡ out.old.items ++ field_bytes field.now) }
    ensures formed { OnOk result (FormedField field.now) }
{
    put_name(out, field.label.as_bytes())?;
    put_valtype(out, field.ty)
}

fn put_fields(out: &mut Vec<u8>, fields: &[RawField]) -> Result<(), AllocError>
    ensures bytes { OnOk result (out.new.items ≡ out.old.items ++ counted field_bytes fields.now) }
    ensures formed { OnOk result (Counted FormedField fields.now) }
{
    put_count(out, fields.len())?;
    for field in fields {
        put_field(out, field)?;
    }
    Ok(())
}

fn put_case(out: &mut Vec<u8>, case: &RawCase) -> Result<(), AllocError>
    ensures bytes { OnOk result (out.new.items ≡ out.old.items ++ case_bytes case.now) }
    ensures formed { OnOk result (FormedCase case.now) }
{
    put_name(out, case.label.as_bytes())?;
    put_optional(out, case.payload)?;
    out.push(0)?;
    Ok(())
}

fn put_cases(out: &mut Vec<u8>, cases: &[RawCase]) -> Result<(), AllocError>
    ensures bytes { OnOk result (out.new.items ≡ out.old.items ++ counted case_bytes cases.now) }
    ensures formed { OnOk result (Counted FormedCase cases.now) }
{
    put_count(out, cases.len())?;
    for case in cases {
        put_case(out, case)?;
    }
    Ok(())
}

fn put_members(out: &mut Vec<u8>, members: &[RawValType]) -> Result<(), AllocError>
    ensures bytes { OnOk result (out.new.items ≡ out.old.items ++ counted valtype_bytes members.now) }
    ensures formed { OnOk result (Counted FormedValType members.now) }
{
    put_count(out, members.len())?;
    for member in members {
        put_valtype(out, *member)?;
    }
    Ok(())
}

fn put_labels(out: &mut Vec<u8>, labels: &[Label]) -> Result<(), AllocError>
    ensures bytes { OnOk result (out.new.items ≡ out.old.items ++ counted name_bytes labels.now) }
    ensures formed { OnOk result (Counted FormedLabel labels.now) }
{
    put_count(out, labels.len())?;
    for label in labels {
        put_name(out, label.as_bytes())?;
    }
    Ok(())
}

fn put_defined(out: &mut Vec<u8>, ty: &RawDefinedType) -> Result<(), AllocError>
    ensures bytes { OnOk result (out.new.items ≡ out.old.items ++ defined_bytes (defined_view ty.now)) }
    ensures formed { OnOk result (FormedDefined (defined_view ty.now)) }
{
    match ty {
        RawDefinedType::Primitive(primitive) => Ok(out.push(primitive_byte(*primitive))?),
        RawDefinedType::Record(fields) => {
            out.push(0x72)?;
            put_fields(out, fields.as_slice())
        }
        RawDefinedType::Variant(cases) => {
            out.push(0x71)?;
            put_cases(out, cases.as_slice())
        }
        RawDefinedType::List(element) => {
            out.push(0x70)?;
            put_valtype(out, *element)
        }
        RawDefinedType::Tuple(members) => {
            out.push(0x6f)?;
            put_members(out, members.as_slice())
        }
        RawDefinedType::Flags(labels) => {
            out.push(0x6e)?;
            put_labels(out, labels.as_slice())
        }
        RawDefinedType::Enum(labels) => {
            out.push(0x6d)?;
            put_labels(out, labels.as_slice())
        }
        RawDefinedType::Option(some) => {
            out.push(0x6b)?;
            put_valtype(out, *some)
        }
        RawDefinedType::Result { ok, error } => {
            out.push(0x6a)?;
            put_optional(out, *ok)?;
            put_optional(out, *error)
        }
    }
}

fn put_outcome(out: &mut Vec<u8>, ty: Option<RawValType>) -> Result<(), AllocError>
    ensures bytes { OnOk result (out.new.items ≡ out.old.items ++ outcome_bytes ty) }
    ensures formed { OnOk result (FormedOption ty) }
{
    match ty {
        Some(ty) => {
            out.push(0)?;
            put_valtype(out, ty)
        }
        None => Ok(out.extend_from_slice(&[1, 0])?),
    }
}

fn put_function(out: &mut Vec<u8>, function: &RawFunction) -> Result<(), AllocError>
    ensures bytes { OnOk result (out.new.items ≡ out.old.items ++ function_bytes (raw_function_view function.now)) }
    ensures formed { OnOk result (FormedFunction (raw_function_view function.now)) }
{
    out.push(0x40)?;
    put_fields(out, function.params.as_slice())?;
    put_outcome(out, function.result)
}

fn put_alias(out: &mut Vec<u8>, alias: &RawAlias) -> Result<(), AllocError>
    ensures bytes { OnOk result (out.new.items ≡ out.old.items ++ alias_bytes alias.now) }
    ensures formed { OnOk result (FormedAlias alias.now) }
{
    out.push(3)?;
    match alias {
        RawAlias::InstanceExport { instance, name } => {
            out.push(0)?;
            put_u32(out, *instance)?;
            put_name(out, name.as_bytes())
        }
        RawAlias::Outer { count, index } => {
            out.push(2)?;
            put_u32(out, *count)?;
            put_u32(out, *index)
        }
    }
}

fn put_description(out: &mut Vec<u8>, description: RawDescription) -> Result<(), AllocError>
    ensures bytes { OnOk result (out.new.items ≡ out.old.items ++ description_bytes description) }
    ensures formed { OnOk result (FormedDescription description) }
{
    match description {
        RawDescription::Function(index) => {
            out.push(1)?;
            put_u32(out, index)
        }
        RawDescription::TypeEqual(index) => {
            out.extend_from_slice(&[3, 0])?;
            put_u32(out, index)
        }
        RawDescription::Component(index) => {
            out.push(4)?;
            put_u32(out, index)
        }
        RawDescription::Instance(index) => {
            out.push(5)?;
            put_u32(out, index)
        }
    }
}

fn put_external(
    alloc: Global,
    out: &mut Vec<u8>,
    name: &ExternName,
    description: RawDescription,
) -> Result<(), AllocError>
    ensures bytes { OnOk result (out.new.items ≡ out.old.items
        ++ (extern_bytes (name_view name.now) ++ description_bytes description)) }
    ensures formed { OnOk result (FormedName (name_view name.now) × FormedDescription description) }
{
    put_extern_name(alloc, out, name)?;
    put_description(out, description)
}

#[cycle(types)]
#[tactic(auto, unfolding(crate::specs::Writing::decl_bytes, crate::specs::View::decl_view, crate::specs::Formed::FormedDecl))]
fn put_decl(alloc: Global, out: &mut Vec<u8>, decl: &RawDecl) -> Result<(), AllocError>
    ensures bytes { OnOk result (out.new.items ≡ out.old.items ++ decl_bytes (decl_view decl.now)) }
    ensures formed { OnOk result (FormedDecl (decl_view decl.now)) }
{
    match decl {
        RawDecl::Type(ty) => {
            out.push(1)?;
            put_type(alloc, out, ty)
        }
        RawDecl::Alias(alias) => {
            out.push(2)?;
            put_alias(out, alias)
        }
        RawDecl::Import(name, description) => {
            out.push(3)?;
            put_external(alloc, out, name, *description)
        }
        RawDecl::Export(name, description) => {
            out.push(4)?;
            put_external(alloc, out, name, *description)
        }
    }
}

#[cycle(types)]
fn put_decls(alloc: Global, out: &mut Vec<u8>, decls: &[RawDecl]) -> Result<(), AllocError>
    ensures bytes { OnOk result (out.new.items ≡ out.old.items ++ counted (λ d. decl_bytes (decl_view d)) decls.now) }
    ensures formed { OnOk result (Counted (λ d. FormedDecl (decl_view d)) decls.now) }
{
    put_count(out, decls.len())?;
    for decl in decls {
        put_decl(alloc, out, decl)?;
    }
    Ok(())
}

#[cycle(types)]
#[tactic(auto, unfolding(crate::specs::Writing::type_bytes, crate::specs::View::type_view, crate::specs::Formed::FormedType))]
fn put_type(alloc: Global, out: &mut Vec<u8>, ty: &RawType) -> Result<(), AllocError>
    ensures bytes { OnOk result (out.new.items ≡ out.old.items ++ type_bytes (type_view ty.now)) }
    ensures formed { OnOk result (FormedType (type_view ty.now)) }
{
    match ty {
        RawType::Defined(ty) => put_defined(out, ty),
        RawType::Function(function) => put_function(out, function),
        RawType::Component(decls) => {
            out.push(0x41)?;
            put_decls(alloc, out, decls.as_slice())
        }
        RawType::Instance(decls) => {
            out.push(0x42)?;
            put_decls(alloc, out, decls.as_slice())
        }
    }
}

pub fn put_types(alloc: Global, out: &mut Vec<u8>, types: &[RawType]) -> Result<(), AllocError>
    ensures bytes { OnOk result (out.new.items ≡ out.old.items ++ counted (λ t. type_bytes (type_view t)) types.now) }
    ensures formed { OnOk result (Counted (λ t. FormedType (type_view t)) types.now) }
{
    put_count(out, types.len())?;
    for ty in types {
        put_type(alloc, out, ty)?;
    }
    Ok(())
}

fn put_export(alloc: Global, out: &mut Vec<u8>, export: &RawExport) -> Result<(), AllocError>
    ensures bytes { OnOk result (out.new.items ≡ out.old.items ++ exported_bytes (export_view export.now)) }
    ensures formed { OnOk result (FormedExport (export_view export.now)) }
{
    put_extern_name(alloc, out, &export.name)?;
    out.push(3)?;
    put_u32(out, export.ty)?;
    out.push(0)?;
    Ok(())
}

pub fn put_exports(
    alloc: Global,
    out: &mut Vec<u8>,
    exports: &[RawExport],
) -> Result<(), AllocError>
    ensures bytes { OnOk result (out.new.items ≡ out.old.items
        ++ counted (λ e. exported_bytes (export_view e)) exports.now) }
    ensures formed { OnOk result (Counted (λ e. FormedExport (export_view e)) exports.now) }
{
    put_count(out, exports.len())?;
    for export in exports {
        put_export(alloc, out, export)?;
    }
    Ok(())
}

pub fn put_section(out: &mut Vec<u8>, id: u8, content: &[u8]) -> Result<(), AllocError>
    ensures bytes { OnOk result (out.new.items ≡ out.old.items ++ section_bytes id content.now) }
    ensures formed { OnOk result (FitsU32 (length content.now)) }
{
    out.push(id)?;
    put_count(out, content.len())?;
    out.extend_from_slice(content)?;
    Ok(())
}
