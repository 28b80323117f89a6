//! A package, written: as a binary, as a text, and as one JSON document.
ghost use Rattle.std.specs.Option.{option_map};
ghost use Rattle.c_border.specs.Written.{Describes, WritesBinary, WritesText};

use ctype_format::BinError;
use host_calls::CallError;
use host_calls::host_lists::tell_bytes;
use opening::Package;
use package_document::document;
use std::alloc::Global;
use wit_tokens::TextError;

/// Tells the package's binary: 70 where none is open, 17 where it would be too long.
pub fn to_binary(
    package: Option<&Package>,
    alloc: Global,
    out: &mut [u8],
) -> Result<usize, CallError>
    ensures { WritesBinary (option_map (λ p. p.now) «package».entry) out.old result out.new }
{
    let Some(package) = package else {
        return Err(CallError::NotOpen);
    };
    match package.to_binary(alloc) {
        Ok(bytes) => tell_bytes(bytes.as_slice(), out),
        Err(BinError::NoMemory) => Err(CallError::NoMemory),
        Err(BinError::At(_, _) | BinError::Read(_)) => Err(CallError::LongBinary),
    }
}

/// Tells the package's canonical text: 70 where none is open, 36 where it would be too long.
pub fn to_text(package: Option<&Package>, alloc: Global, out: &mut [u8]) -> Result<usize, CallError>
    ensures { WritesText (option_map (λ p. p.now) «package».entry) out.old result out.new }
{
    let Some(package) = package else {
        return Err(CallError::NotOpen);
    };
    match package.to_text(alloc) {
        Ok(text) => tell_bytes(text.as_str().as_bytes(), out),
        Err(TextError::NoMemory) => Err(CallError::NoMemory),
        Err(_) => Err(CallError::LongText),
    }
}

/// Tells the document of the package and of those before it: 70 where none is open.
pub fn describe(
    package: Option<&Package>,
    alloc: Global,
    out: &mut [u8],
) -> Result<usize, CallError>
    ensures { Describes (option_map (λ p. p.now) «package».entry) out.old result out.new }
{
    let Some(package) = package else {
        return Err(CallError::NotOpen);
    };
    match document(alloc, package.resolve(), package.layouts()) {
        Ok(text) => tell_bytes(text.as_str().as_bytes(), out),
        Err(_) => Err(CallError::NoMemory),
    }
}
