//! Packages of WIT files, checked in an order in which each comes after those that it depends on.
//!
//! `check_sources` reports each fault. It puts packages in order by its module `package_order`, adds each to a set by
//! `package_adding`, and shows faults by `wit_faults`. Binaries are read as texts by `wit_binaries`. `faults_of` tells
//! the faults of texts that no file has, and `Carried` has the texts of a binary in order. `is_in_form` is a fact about
//! each package that is given, and `main_of` is the place of the one that a command is about.
#![tactic(auto)]

mod carried;
mod checking;
mod graph;
mod names;
mod package_order;
mod texts;

pub use carried::Carried;
pub use checking::{Checked, CheckedSet, check_members, check_sources, is_in_form, main_of};
pub use texts::faults_of;
