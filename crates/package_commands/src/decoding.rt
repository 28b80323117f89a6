//! Packages of the binaries that other tools write.

use crate::canonical_text::text_of;
use crate::refusal::Unwritten;
use checked_packages::{CheckedSet, check_sources};
use component_decoding::{DecodeError, Fault};
use std::alloc::{AllocError, AllocFailed, Global};
use thiserror::Error;
use wit_faults::{ReadError, Report};
use wit_files::{Source, is_binary, source_of};

/// Why the packages of a binary are not written. What is wrong in one is reported as faults of files are.
#[derive(Debug, Drop, Error)]
pub enum Undecoded {
    #[error(transparent)]
    Read(ReadError),
    #[error(transparent)]
    Decode(DecodeError),
    #[error(transparent)]
    Unwritten(Unwritten),
}

impl From<Unwritten> for Undecoded {
    fn from(error: Unwritten) -> Undecoded {
        Undecoded::Unwritten(error)
    }
}

impl From<AllocError> for Undecoded {
    fn from(_error: AllocError) -> Undecoded {
        Undecoded::Read(ReadError::NoMemory)
    }
}

impl<T: Drop> From<AllocFailed<T>> for Undecoded {
    fn from(_error: AllocFailed<T>) -> Undecoded {
        Undecoded::Read(ReadError::NoMemory)
    }
}

/// Refuses a file that can't be read, and one that is no binary.
fn check_binary(source: &Source) -> Result<(), Undecoded> {
    match &source.bytes {
        Ok(bytes) if is_binary(bytes.as_slice()) => Ok(()),
        Ok(_) => Err(Undecoded::Decode(DecodeError::At(Fault::NotComponent, 0))),
        Err(error) => Err(Undecoded::Read(*error)),
    }
}

/// Appends the canonical texts of packages, with an empty line between them.
fn push_texts(alloc: Global, report: &mut Report, packages: &CheckedSet) -> Result<(), Undecoded> {
    for (place, package) in packages.list.iter().enumerate() {
        if place > 0 {
            report.text.push("\n");
        }
        let text = text_of(alloc, packages, package)?;
        report.text.push(text.as_str());
    }
    Ok(())
}

/// Appends the canonical texts of the packages of a binary, each after those that it depends on. What makes no packages
/// is reported as faults of files are.
pub fn push_decoded(rt: &HostRuntime, report: &mut Report, path: &str) -> Result<(), Undecoded> {
    let alloc = rt.alloc();
    let source = source_of(rt, path)?;
    check_binary(&source)?;
    let mut sources = Vec::new(alloc);
    sources.push(source)?;
    let packages = check_sources(alloc, report, sources)?;
    if report.status == 0 {
        push_texts(alloc, report, &packages)?;
    }
    Ok(())
}
