//! A package as tables, under the names that the rules of the profile give to it. It has no code of its own.
//!
//! `Resolve` is a set of packages as one table, which has `function`. `PackageSet` adds packages to one, `from_ast` and
//! `from_raw` make the table of a package alone, `to_raw` and `print` write a package of a set, and `copy` makes the
//! same table under the same ids. It stands on `tables`, `table_building`, `function_index` and `package_adding`,
//! which declare these.
#![tactic(auto)]

pub use function_index::world_function;
pub use package_adding::{PackageSet, from_ast, from_raw, print, table, to_raw};
pub use table_building::{copy_of, copy_of as copy, from_parts};
pub use tables::{
    Case, Definition, Direction, Field, Function, FunctionId, Interface, InterfaceId, Name, Owner,
    PackageId, PackageName, Parameter, Primitive, Resolve, ResolveError, Sequence, TypeDef,
    TypeDefKind, TypeId, TypeName, ValType, World, WorldId, WorldItem, WorldItemKind,
};
