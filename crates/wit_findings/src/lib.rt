//! Findings: what is told of a WIT text, how one is written, and the place of a tree that it is about.
//!
//! `Ordered` keeps findings in the order of a text, no two of them at one byte, with edits that are apart. `judged`
//! carries the other promise: what is told is empty exactly if the opening accepted the text. `Spot` is a word of a
//! tree with what is around it, and a `Draft` is a finding that is being written. `wit_rules` has the rules. It stands
//! on `wit_tree` and `text_edits`.
#![tactic(auto)]

mod draft;
mod finding;
mod headlines;
mod judging;
mod ordered;
mod refusal;
mod shapes;
mod spot;

pub use draft::Draft;
pub use finding::{Finding, Related, Severity};
pub use headlines::push_headline;
pub use judging::judged;
pub use ordered::Ordered;
pub use refusal::refusal_of;
pub use shapes::{begins_type, closing, is_function, is_item, is_type, type_end, type_start};
pub use spot::{Scopes, Spot};
