//! The WIT files of folders, as packages.
//!
//! `sources_of` reads the files that paths are or have, binaries too, and `members_of` makes the packages of texts: a
//! tree of each, of one file or of several. Faults go to a `Report`: behind one, a text is read on at its next item.
//! `RemainingItems` is a package without the items whose names have faults. It stands on `wit_text`,
//! `wit_comments` and `wit_faults`.
#![tactic(auto)]

mod members;
mod remaining;
mod sources;
mod texts;

pub use members::{Member, Members, members_of};
pub use remaining::RemainingItems;
pub use sources::{MAX_BINARY, MAX_TEXT, Source, is_binary, source_of, sources_of};
pub use texts::MAX_FAULTS;
