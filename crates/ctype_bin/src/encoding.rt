//! Encoding a component.
ghost use Rattle.std.specs.Prelude.{◌≡◌, ◌++◌, IfOk, IfErr, OnOk, OnErr, map};
ghost use Rattle.ctype_format.specs.View.{type_view, export_view};
ghost use Rattle.ctype_bin.specs.FileView.{raw_component_view};
ghost use Rattle.ctype_format.specs.Writing.{file_bytes};
ghost use Rattle.ctype_format.specs.Formed.{FormedFile};
ghost use Rattle.ctype_bin.specs.Encoding.{AppendsSpelling};

use crate::component::RawComponent;
use crate::sections::{EXPORT_SECTION, PREAMBLE, TYPE_SECTION};
use ctype_format::{BinError, RawExport, RawType, put_exports, put_section, put_types};
use std::alloc::{AllocError, Global};

/// The shortest spelling of a component of these parts.
pub(crate) fn spelling(
    alloc: Global,
    types: &[RawType],
    exports: &[RawExport],
) -> Result<Vec<u8>, AllocError>
    ensures bytes { IfOk result (λ v. v.items
        ≡ file_bytes (record { types = map type_view types.now; exports = map export_view exports.now })) }
    ensures formed { IfOk result (λ _. FormedFile
        (record { types = map type_view types.now; exports = map export_view exports.now })) }
{
    let mut type_section = Vec::new(alloc);
    put_types(alloc, &mut type_section, types)?;
    let mut export_section = Vec::new(alloc);
    put_exports(alloc, &mut export_section, exports)?;
    let mut bytes = Vec::from_slice(alloc, &PREAMBLE)?;
    put_section(&mut bytes, TYPE_SECTION, type_section.as_slice())?;
    put_section(&mut bytes, EXPORT_SECTION, export_section.as_slice())?;
    Ok(bytes)
}

/// Appends bytes that spell the component, and that `decode` reads as it where there are no more than 1,048,576: each
/// number in its shortest spelling, and no custom section. 21 where memory is wanting; then what was there is as
/// before. (Binary.md)
pub fn encode(alloc: Global, component: &RawComponent, out: &mut Vec<u8>) -> Result<(), BinError>
    ensures ok { OnOk result ∥ AppendsSpelling out.old.items out.new.items (raw_component_view component.now) ∥₁ }
    ensures err { OnErr result (out.new.items ≡ out.old.items) }
    ensures memory { IfErr result (λ e. e ≡ BinError.NoMemory) }
    // The same as one function of the component.
    ensures exact { OnOk result (out.new.items ≡ out.old.items ++ file_bytes (raw_component_view component.now)) }
{
    let Ok(bytes) = spelling(alloc, component.types(), component.exports()) else {
        return Err(BinError::NoMemory);
    };
    match out.extend_from_slice(bytes.as_slice()) {
        Ok(()) => Ok(()),
        Err(_) => Err(BinError::NoMemory),
    }
}
