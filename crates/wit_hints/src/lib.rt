//! Hints: what to do about a fault of a WIT text.
//!
//! `hint_of_text` looks at the token that is not allowed where it is, and at what is around it: the brackets that it
//! is in, and the tokens beside it. `hint_of_unknown` and `hint_of_duplicate` are hints about names; `find_twins`
//! finds the two places of a name that is twice. `source_lines` has the line and the column of a byte offset. It
//! stands on `wit_text`, `wit_places` and `near_names`.
#![tactic(auto)]

mod bad;
mod earlier;
mod features;
mod marks;
mod missing;
mod names;
mod scopes;
pub mod source_lines;
mod texts;
mod types;
mod versions;
mod words;

pub use names::{hint_of_duplicate, hint_of_unknown};
pub use scopes::{Twins, find_twins};
pub use texts::{MORE_MEMORY, hint_of_text};
