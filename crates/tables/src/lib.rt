//! The tables of a package: what its names and indices stand for.
//!
//! `Resolve` holds a package's name, its interfaces and worlds, and one table of definitions in which types and
//! functions stand in order, each after those that it names. The closed types of a table are defined in
//! `specs/Closed.antt`, in `canonical_abi`'s words; the crates above ask by them alone. It knows no syntax,
//! and stands on `canonical_abi` and `atoms`.
#![tactic(auto)]

mod error;
mod keyword;
pub mod laws;
mod lookup;
mod members;
mod name;
mod sequence;
mod tables;

pub use error::ResolveError;
pub use members::{Choice, Member};
pub use name::{Name, copy_version};
pub use sequence::Sequence;
pub use tables::{
    Case, Definition, Direction, Field, Function, FunctionId, Interface, InterfaceId, Owner,
    PackageId, PackageName, Parameter, Primitive, Resolve, TypeDef, TypeDefKind, TypeId, TypeName,
    ValType, World, WorldId, WorldItem, WorldItemKind,
};
