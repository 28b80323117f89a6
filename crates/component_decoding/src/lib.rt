//! The binaries that other tools write of WIT, as a structure: component types and instance types, with each index of
//! them followed.
//!
//! `decode` reads a package as `wasm-tools component wit --wasm` writes it, a world as wit-bindgen puts it into a
//! module's section `component-type`, or a module with such a section. docs/FORMATS.md has both formats. `specs/` has
//! the grammar of Binary.md for the declarations and sections that these tools write, with each index followed and the
//! place of each fault: what `decode` answers is what it reads of the bytes. Bytes and types are those of
//! `component_structure`, and on `ctype_format` it stands for opcodes.
#![tactic(auto)]

mod declarations;
mod file;

pub use component_structure::{
    Case, DecodeError, Definition, DefinitionId, Docs, Entry, Exported, Extern, Fault, Feature,
    Field, Function, FunctionId, Instance, InstanceId, Kind, Named, NamedId, Scope, ScopeId,
    Structure, Used, UsedId, ValType, What,
};
pub use file::decode;
