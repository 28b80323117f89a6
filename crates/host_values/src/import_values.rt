//! A guest's call of a function that a host serves, with typed values: its arguments are read from the guest's memory,
//! and its result is put there.
//!
//! An `ImportCall` has the core values that the guest passed. Its result goes flat, or into the return area, whose
//! address is the last of them.

mod answering;
mod call;
mod reading;

pub use call::ImportCall;
