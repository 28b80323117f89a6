//! What changed from one package to another.

use checked_packages::{Checked, main_of};
use package_diff::{Changes, Side, changes_of};
use std::alloc::Global;
use wit_faults::Report;

fn side(package: &Checked) -> Side<'_> {
    Side::new(&package.tables, &package.layouts)
}

/// Appends changes. The status is 1 if a function can't be called any more.
fn push_changes(report: &mut Report, changes: &Changes) {
    report.text.push(changes.text.as_str());
    if changes.lost > 0 {
        report.status = 1;
        report
            .text
            .push("a host built for the old package can't call ");
        report.text.push_number(changes.lost);
        report.text.push(" of its ");
        report.text.push_number(changes.functions);
        report.text.push(" functions\n");
    }
}

/// Appends what changed from the last package that is no dependency of one list to that of another one. The status is 1
/// if a host that was built for the old one can't call each of its functions any more.
pub fn push_differences(alloc: Global, report: &mut Report, old: &[Checked], new: &[Checked]) {
    if let (Some(old), Some(new)) = (old.get(main_of(old)), new.get(main_of(new))) {
        match &changes_of(alloc, side(old), side(new)) {
            Ok(changes) => push_changes(report, changes),
            Err(_) => report.text.refuse(),
        }
    }
}
