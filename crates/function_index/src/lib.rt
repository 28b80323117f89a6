//! The functions of a table by their names: an index that is made once, and those of worlds.
//!
//! A `FunctionIndex` finds a function by the full name of its interface and its own name, in time that doesn't grow
//! with the table. `Resolve::function` finds the same by a walk over all interfaces. `world_function` finds one that is
//! itself an item of a world. It stands on `tables` and on `atoms`.
#![tactic(auto)]

mod index;
mod keys;
mod names;
mod world_functions;

pub use index::FunctionIndex;
pub use world_functions::world_function;
