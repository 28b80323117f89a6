//! What a host in C hands over and gets besides handles: core values of a call, inputs of a set, lines, values as JSON,
//! and a package as bytes.
//!
//! `Call` keeps the core values of a call between its halves, `pieces` cuts the inputs of a set, and `tell_line` tells
//! a line. A `JsonCall` is a function of a package by its number: its arguments are put into a memory from a text of
//! JSON, and its result is read as one. A `JsonImport` is a guest's call of a function that a host serves: its
//! arguments are read as a text, and its result is put into the guest's memory from one. A package is written as its
//! binary, its text or its document, `explain` tells what is wrong with texts, and `open_module` opens the packages
//! that a module carries. `witcall_c` exports all this. Stands on `package_values` (arguments as JSON), `host_values`
//! (reading, and calls of a guest), `json_faults` (what is wrong in JSON), `package_document` and `checked_packages`.
#![tactic(auto)]

mod argument_texts;
mod call;
mod explaining;
mod faults;
mod functions;
mod imports;
mod json;
mod line;
mod modules;
mod result_texts;
mod set;
mod telling;
mod writing;

pub use call::Call;
pub use explaining::explain;
pub use functions::function;
pub use imports::JsonImport;
pub use json::JsonCall;
pub use line::tell_line;
pub use modules::open_module;
pub use set::pieces;
pub use writing::{describe, to_binary, to_text};
