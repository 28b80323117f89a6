//! What packages have.

use checked_packages::Checked;
use overview::shown;
use package_document::document;
use std::alloc::{AllocError, Global};
use wit_faults::Report;

/// Appends what each package has that is no dependency: the lines of `witcall show`.
pub fn push_contents(alloc: Global, report: &mut Report, packages: &[Checked]) {
    for package in packages {
        if !package.is_dependency {
            report.text.push_made(shown(alloc, &package.tables));
        }
    }
}

/// All that a package and those that it uses have, as one JSON document.
pub fn document_of(alloc: Global, package: &Checked) -> Result<String, AllocError> {
    document(alloc, &package.tables, &package.layouts)
}
