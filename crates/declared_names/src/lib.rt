//! Names that declarations for several languages share: those of namespaces, and types as WIT spells them.
//!
//! `Namespaces` has a name for each interface and each world of a table, `WitTypes` what WIT writes for each type. It
//! stands on `tables`, and on `atoms` for labels.
#![tactic(auto)]

mod full_names;
mod labels;
mod namespaces;
mod wit_types;

pub use full_names::full_name_of;
pub use labels::{is_among, push_capital, push_capitals};
pub use namespaces::Namespaces;
pub use wit_types::WitTypes;
