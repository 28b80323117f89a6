//! Faults of WIT texts: where they are, what to do about them, and how they are shown.
//!
//! A `Cause` says why files are no package, in the words of `witcall`. `Report::add` shows it at a place of a text, and
//! `package_fault` finds its place in one of the package's files: the line with carets, and a hint. The place of a
//! byte offset and most hints are those of `wit_hints`. It stands on the crates whose errors it shows: `wit_text`,
//! `tables` and `layout`.
#![tactic(auto)]

mod cause;
mod drawing;
mod hints;
mod json;
mod paint;
mod places;
mod report;
mod unknown;

pub use cause::{Cause, ReadError};
pub use hints::{Around, Known, PackageFault, package_fault};
pub use paint::{Paint, Part};
pub use places::{Found, first_path};
pub use report::{Report, Style};
pub use wit_places::{Lexed, PackagePath, PackageRef};
