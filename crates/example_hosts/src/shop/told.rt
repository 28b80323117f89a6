//! What a package is told of: places in memory, and numbers of errors.

use std::alloc::Global;
use witcall::{Numbered, Package, Refused, Shape, TypeId, ValType, open};

/// The offsets of the fields of the first record of the package.
pub fn places(alloc: Global, package: &Package) -> Result<String, Refused> {
    let ty = ValType::Id(TypeId(0));
    let layouts = package.layouts();
    let mut text = String::from_str(alloc, "fields at")?;
    if !layouts.has(ty) {
        return Ok(text);
    }
    if let Shape::Record(count) = layouts.shape(ty) {
        for index in 0..count {
            if let Some(place) = layouts.field_offset(ty, index) {
                let told = format!(in alloc; " {place}")?;
                text.push_str(told.as_str())?;
            }
        }
    }
    Ok(text)
}

/// Why a text is no package, by its number and its line.
pub fn refusal(alloc: Global, text: &str) -> Result<String, Refused> {
    match open(alloc, text.as_bytes()) {
        Ok(_) => Ok(String::from_str(alloc, "a package")?),
        Err(error) => {
            let number = error.number();
            Ok(format!(in alloc; "{number}: {error}")?)
        }
    }
}
