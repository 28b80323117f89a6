//! The values of a package: as texts of JSON, both ways.
//!
//! `from_json`, `values_from_json` and `arguments_from_json` read the values that a text says, `to_json` writes a
//! value. Stands on `opening` (packages) and `value_json` (values as JSON).
#![tactic(auto)]

mod calls;
mod json;
pub mod laws;

pub use calls::Called;
pub use json::{JsonError, arguments_from_json, from_json, to_json, values_from_json};
