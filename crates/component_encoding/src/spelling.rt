//! Numbers, names and custom sections. (Binary.md)
ghost use Rattle.std.specs.Prelude.{◌≡◌, ◌++◌, ℕ, List, IfOk, OnOk, slice_get};
ghost use Rattle.tables.specs.Names.{full_name_in};
ghost use Rattle.ctype_format.specs.Writing.{section_bytes};

use atoms::{Label, write_s33, write_u32};
use ctype_format::put_section;
use std::alloc::{AllocError, Global};
use tables::{Name, PackageId, Resolve};

/// The section that only tools read.
const CUSTOM_SECTION: u8 = 0;

/// Appends a number.
pub fn put_u32(out: &mut Vec<u8>, value: u32) -> Result<(), AllocError> {
    match write_u32(out, value) {
        Ok(()) => Ok(()),
        Err(_) => Err(AllocError),
    }
}

/// Appends a type index in the place of a value's type.
pub fn put_s33(out: &mut Vec<u8>, value: u32) -> Result<(), AllocError> {
    match write_s33(out, value) {
        Ok(()) => Ok(()),
        Err(_) => Err(AllocError),
    }
}

/// Appends a count, for which there is no memory if it passes 32 bits.
pub fn put_count(out: &mut Vec<u8>, count: usize) -> Result<(), AllocError> {
    match u32::try_from(count) {
        Ok(count) => put_u32(out, count),
        Err(_) => Err(AllocError),
    }
}

/// Appends a name.
pub fn put_name(out: &mut Vec<u8>, text: &[u8]) -> Result<(), AllocError> {
    put_count(out, text.len())?;
    out.extend_from_slice(text)?;
    Ok(())
}

/// Appends the name of an import or an export.
pub fn put_extern_name(out: &mut Vec<u8>, text: &[u8]) -> Result<(), AllocError> {
    out.push(0)?;
    put_name(out, text)
}

/// Appends a custom section of this name, which tools alone read.
pub fn put_custom(
    alloc: Global,
    out: &mut Vec<u8>,
    name: &[u8],
    data: &[u8],
) -> Result<(), AllocError>
    ensures { OnOk result ((content : List ℕ) × (out.new.items ≡ out.old.items ++ section_bytes 0 content)) }
{
    let mut content = Vec::new(alloc);
    put_name(&mut content, name)?;
    content.extend_from_slice(data)?;
    put_section(out, CUSTOM_SECTION, content.as_slice())
}

/// The full name of a name in a package; the name alone if the table has no such package.
pub fn full_name(
    alloc: Global,
    resolve: &Resolve,
    package: PackageId,
    name: &Label,
) -> Result<Name, AllocError>
    ensures { IfOk result (λ n. n ≡ full_name_in (slice_get resolve.now.packages «package».0) name.now) }
{
    match resolve.packages.as_slice().get(package.0 as usize) {
        Some(package) => package.full_name(alloc, name),
        None => Name::of(alloc, name),
    }
}
