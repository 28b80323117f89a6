//! Packages as canonical texts.

use crate::refusal::Unwritten;
use checked_packages::{Checked, CheckedSet, is_in_form};
use package_text::print;
use std::alloc::{AllocError, Global};
use tables::Resolve;
use wit_comments::{Comments, with_comments};
use wit_faults::PackageRef;
use wit_files::MAX_TEXT;

/// A text of the last package of a table, with its comments.
fn commented(
    alloc: Global,
    table: &Resolve,
    text: String,
    comments: &Comments,
) -> Result<String, AllocError> {
    match table.packages.as_slice().last() {
        Some(name) => {
            let package = PackageRef::of_tables(name);
            with_comments(alloc, text.as_str(), package, comments)
        }
        None => Ok(text),
    }
}

/// The canonical text of a package of a set with the comments of its files, of at most 1,048,576 bytes.
pub fn text_of(
    alloc: Global,
    packages: &CheckedSet,
    package: &Checked,
) -> Result<String, Unwritten> {
    is_in_form(&package.tables);
    let mut text = String::new(alloc);
    print(alloc, &package.tables, &mut text)?;
    let text = commented(alloc, &package.tables, text, &packages.comments)?;
    if text.len() > MAX_TEXT {
        return Err(Unwritten::LongText);
    }
    Ok(text)
}
