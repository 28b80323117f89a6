//! The syntax trees of WIT texts, and in `specs/View.antt` the plain tree that each stands for. Stands on `atoms` for
//! labels and on `wit_tokens` for spans.

mod ast;
mod inner;

pub use ast::{
    Ast, Case, Direction, Field, Func, FuncType, InnerType, Interface, InterfaceItem, Item,
    PackageId, Path, Primitive, ResultType, TypeDef, TypeDefKind, TypeExpression, Use, UsedName,
    World, WorldItem, WorldItemKind,
};
