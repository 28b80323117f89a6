//! The command `call` of `wit-explain`: one call of a function of checked packages, or why it isn't made.
//!
//! `report_call` finds the function of an interface or of a world, and makes the call by `call_picture`. If a text of JSON
//! is no value of its type, it says where, by `json_faults`. A name that no package has is told with the nearest one. It
//! stands on `checked_packages` for packages, and on `wit_faults` for reports.
#![tactic(auto)]

mod calling;
mod missing;

pub use calling::{CallWords, report_call};
