//! Binaries as texts of packages.
ghost use Rattle.std.specs.Prelude.{◌≡◌, ◌+◌, ◌<◌, ◌≤◌, length, IfOk, OnOk};

use crate::decoded_packages::{PackageText, packages_of};
use component_decoding::{DecodeError, Fault, decode};
use std::alloc::{AllocError, Global};
use wit_faults::{Lexed, Report};
use wit_files::{MAX_BINARY, Source, is_binary};

/// The texts of the packages of a binary: that of what it exports, and those that this uses, in any order. Its bytes
/// are those of a component, or of a core module with a section that is one. It has at most 67,108,864 bytes.
pub fn texts_in(alloc: Global, bytes: &[u8]) -> Result<Vec<PackageText>, DecodeError>
    ensures { IfOk result (λ texts. 0 < length texts.items) }
{
    if bytes.len() > MAX_BINARY {
        return Err(DecodeError::At(Fault::Limit, MAX_BINARY));
    }
    let structure = decode(alloc, bytes)?;
    let texts = packages_of(alloc, &structure)?;
    if texts.is_empty() {
        return Err(DecodeError::At(Fault::NoExport, 0));
    }
    Ok(texts)
}

/// Adds the text of a package of a binary. Its faults are shown at the binary's path and the package's name. It is
/// found in a folder of its own, so no other file is of the same package.
fn push_text(
    alloc: Global,
    texts: &mut Vec<Source>,
    binary: &Source,
    package: PackageText,
) -> Result<(), AllocError>
    ensures { OnOk result (length texts.new.items ≡ length texts.old.items + 1) }
{
    let (path, name) = (binary.path.as_str(), package.name.as_str());
    texts.push(Source {
        path: format!(in alloc; "{path}: {name}")?,
        folder: String::from_str(alloc, path)?,
        is_dependency: binary.is_dependency || package.is_dependency,
        bytes: Ok(package.text.into_bytes()),
    })?;
    Ok(())
}

/// Adds the texts of the packages of a binary.
fn push_texts(
    alloc: Global,
    texts: &mut Vec<Source>,
    binary: &Source,
    packages: Vec<PackageText>,
) -> Result<(), AllocError>
    ensures { OnOk result (length texts.new.items ≡ length texts.old.items + length packages.items) }
{
    for package in packages {
        push_text(alloc, texts, binary, package)?;
    }
    Ok(())
}

/// What to do about a binary that has no packages. No text if there is nothing to say.
fn hint_of(error: &DecodeError) -> &'static str {
    match error {
        DecodeError::At(Fault::NotOneExport, _) => {
            "`witcall text` prints the package of a binary that `witcall bin` or `wit-explain bin` wrote"
        }
        _ => "",
    }
}

/// Reports a binary that has no packages.
fn refuse(alloc: Global, report: &mut Report, binary: &Source, error: &DecodeError)
    ensures { report.new.status ≡ 1 }
{
    let words = report.text.kept(error.to_string(alloc));
    let lexed = Lexed::new(alloc, binary.path.as_str(), "");
    report.add_at(alloc, &lexed, None, words.as_str(), hint_of(error));
}

/// Adds a text, or the texts of a binary. If it has no packages, it is reported.
fn push_source(
    alloc: Global,
    report: &mut Report,
    texts: &mut Vec<Source>,
    source: Source,
) -> Result<(), AllocError>
    ensures { OnOk result (report.new.status ≡ 0 → (report.old.status ≡ 0)
        × (length texts.old.items + 1 ≤ length texts.new.items)) }
{
    match &source.bytes {
        Ok(bytes) if is_binary(bytes.as_slice()) => match texts_in(alloc, bytes.as_slice()) {
            Ok(packages) => push_texts(alloc, texts, &source, packages),
            Err(error) => {
                refuse(alloc, report, &source, &error);
                Ok(())
            }
        },
        _ => {
            texts.push(source)?;
            Ok(())
        }
    }
}

/// These files, with the texts of its packages in the place of each binary. A binary that has no packages is reported:
/// if the status is 0, no file was dropped.
pub fn with_texts(
    alloc: Global,
    report: &mut Report,
    sources: Vec<Source>,
) -> Result<Vec<Source>, AllocError>
    ensures { IfOk result (λ texts. report.new.status ≡ 0 → length sources.items ≤ length texts.items) }
{
    let mut texts = Vec::new(alloc);
    for source in sources {
        push_source(alloc, report, &mut texts, source)?;
    }
    Ok(texts)
}
