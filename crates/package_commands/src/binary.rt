//! Packages as binaries.

use crate::refusal::Unwritten;
use checked_packages::Checked;
use std::alloc::Global;
use wit_component::to_written;
use wit_files::MAX_TEXT;

/// The bytes of a package as a component type: at most 1,048,576.
pub fn binary_of(alloc: Global, package: &Checked) -> Result<Vec<u8>, Unwritten> {
    let (_, bytes) = to_written(alloc, &package.tables)?;
    if bytes.len() > MAX_TEXT {
        return Err(Unwritten::LongBinary);
    }
    Ok(bytes)
}
