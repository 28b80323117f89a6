//! WIT texts: how tokens are read as syntax trees. `parse` carries the promise: it answers the tree exactly where the
//! text's tokens spell it by the grammar, and else the first fault with its span. The whole profile is read: interfaces
//! with uses, types and functions, and worlds. Stands on `wit_grammar`, on `wit_tokens` for tokens and trees, and on
//! `atoms` for labels and versions.
#![tactic(auto)]

mod definitions;
mod file;
mod functions;
mod interfaces;
mod laws;
mod uses;
mod worlds;

pub use file::parse;
pub use laws::{files_are_read_exactly, texts_have_full_names};
pub use wit_tokens::wit_syntax::{
    Ast, Case, Direction, Field, Func, FuncType, InnerType, Interface, InterfaceItem, Item,
    PackageId, Path, Primitive, TypeDef, TypeDefKind, TypeExpression, Use, UsedName, World,
    WorldItem, WorldItemKind,
};
pub use wit_tokens::{
    Expected, Feature, Keyword, Punctuation, Span, TextError, Token, TokenKind, lex,
    texts_have_one_lexing,
};
