//! What the names that a set of WIT files uses mean. `targets_of` carries the promise: the declaration that a use means is
//! spelled as the use. Stands on `wit_scopes` for names.
#![tactic(auto)]

mod chains;
mod finding;
mod included;
mod judging;
mod target;
mod targets;

pub use target::{Target, Use};
pub use targets::{Targets, targets_of};
