//! What a component has, as a structure, and the bytes and types that it is read of.
//!
//! `Structure` has component types and instance types, each index of them followed. Types are kept once each, however
//! often they are named, so that what is read is no larger than the bytes by more than a factor. `Reader` takes
//! numbers, names and sized parts of the bytes, and `Types` the types of values and of functions, each with the grammar
//! of Binary.md in `specs/`. `DecodeError` has all faults, each with its place in the bytes. The crate stands on
//! `atoms`, `ctype_format` and `tables`.
#![tactic(auto)]

mod error;
mod names;
mod reader;
mod structure;
mod types;

pub use error::{DecodeError, Fault, Feature};
pub use names::Names;
pub use reader::Reader;
pub use structure::{
    Case, Definition, DefinitionId, Docs, Entry, Exported, Extern, Field, Function, FunctionId,
    Instance, InstanceId, Kind, Named, NamedId, Scope, ScopeId, Structure, Used, UsedId, ValType,
    What,
};
pub use types::{Types, type_fault};
