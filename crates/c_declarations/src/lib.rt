//! The types of packages as C declares them, with assertions of how they lie in a linear memory, and with functions
//! that load and store them.
//!
//! `Header` is what is written so far, with the names that are taken and the short ones. `Header::put_types` writes
//! types of an interface, and `Header::put_inners` those without a name that come first. In a header for guests a list
//! has functions that give its elements and make it, in place of those that load and store. `needs_of` says which
//! interfaces a world needs. It writes nothing of functions or of packages. It stands on `c_types`, which has the
//! numbers and the names, and on `tables`.
#![tactic(auto)]

mod accessors;
mod declarations;
mod header;
mod lists;
mod needs;
mod structs;
mod unnamed;

pub use declarations::Scope;
pub use header::{Header, Includer, Purpose};
pub use needs::needs_of;
