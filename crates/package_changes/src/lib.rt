//! What a host that was built for one version of a package can do with another one: a verdict for each function.
//!
//! `verdicts_of` pairs each function of the older package with the newer one of the same names, and compares their labelled
//! types and closed types at each place. Its contract carries the theorem: the verdicts are exact. `lost` counts those
//! that a host does without, and `TypeComparison` compares two types. Stands on `layout` (which types take the same
//! room), `function_index` (names) and `tables`.
#![tactic(auto)]

mod comparing;
mod edition;
mod judging;
mod known;
mod likeness;
mod places;
mod type_nodes;
mod types;
mod verdicts;

pub use edition::Edition;
pub use judging::{Judged, are_versions, last_package, lost, verdicts_of};
pub use likeness::Likeness;
pub use places::{Place, Standing, is_last, is_side};
pub use types::TypeComparison;
pub use verdicts::{Role, Verdict};
