//! Typed values in memories that a host keeps: which blocks they ask for, how they are put there, and how they are
//! read.
//!
//! `argument_requests` and `result_requests` tell the blocks that values ask for, in the order in which lowering asks
//! for them. An `ImportCall` is a guest's call of a function that the host serves. Stands on `host_calls` (core values
//! in arrays, errors) and `lift_lower` (lifting and lowering).
#![tactic(auto)]

mod filling;
mod import_values;
mod reading;
mod requests;
mod telling;

pub use filling::fill_arguments;
pub use import_values::ImportCall;
pub use reading::Reading;
pub use requests::{argument_requests, result_requests};
