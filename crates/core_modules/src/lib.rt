//! What a core module declares: the types of its functions, its imports and exports, and its custom sections.
//!
//! `read_module` reads these sections in one walk, and allocates no more than a constant times the bytes that it has
//! read: no count that the module states is trusted. Code and data are not read, so a module that is read may still be
//! invalid. `specs/` has the grammar of the core specification for what is read: what `read_module` answers is what it
//! reads of the bytes. Bytes are those of `component_structure`, and on `atoms` it stands for the laws of grammars.
#![tactic(auto)]

mod module;
mod sections;
mod types;

pub use module::{CoreModule, Custom, Import, Item};
pub use sections::read_module;
pub use types::{CoreType, FunctionType};
