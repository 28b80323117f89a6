//! Rules: what a fault of a WIT text means, what to do, and the edit that mends it.
//!
//! `findings_of` tells what is wrong with a text, from the faults of its tree: each finding names the token that it is
//! about, says what to do, and has an edit if there is one way to mend it. Each edit was tried. `wit_findings` has the
//! findings' order and what an opening makes of them, and `word_rules` what is wrong with a word or a character by
//! itself. It stands on `wit_reading` for trees.
#![tactic(auto)]

mod findings;
mod generics;
mod items;
mod marks;
mod missing;
mod notes;
mod places;
mod rules;
mod trial;

pub use findings::findings_of;
pub use wit_findings::{Finding, Related, Severity, judged, refusal_of};
