//! What the names of a package begin with in C.

use c_types::c_names::c_word;
use std::alloc::{AllocError, Global};
use tables::PackageName;

/// The names of a package in C, without its version.
fn stem_of(alloc: Global, package: &PackageName) -> Result<String, AllocError> {
    let namespace = c_word(alloc, package.namespace.as_str())?;
    let name = c_word(alloc, package.name.as_str())?;
    format!(in alloc; "{}_{}", namespace.as_str(), name.as_str())
}

/// The names of packages in C, without their versions.
pub fn stems_of(alloc: Global, packages: &[PackageName]) -> Result<Vec<String>, AllocError> {
    let mut stems = Vec::new(alloc);
    for package in packages {
        stems.push(stem_of(alloc, package)?)?;
    }
    Ok(stems)
}

/// Whether several of these are this one.
fn is_repeated(stems: &[String], stem: &str) -> bool {
    let mut is_met = false;
    for other in stems {
        if other.as_str() == stem {
            if is_met {
                return true;
            }
            is_met = true;
        }
    }
    false
}

/// What the names of a package begin with: its namespace and name, and its version if another package differs in
/// nothing else.
pub fn prefix_of(
    alloc: Global,
    stems: &[String],
    package: &PackageName,
) -> Result<String, AllocError> {
    let stem = stem_of(alloc, package)?;
    match &package.version {
        Some(version) if is_repeated(stems, stem.as_str()) => {
            let version = c_word(alloc, version.as_str())?;
            format!(in alloc; "{}_{}", stem.as_str(), version.as_str())
        }
        _ => Ok(stem),
    }
}
