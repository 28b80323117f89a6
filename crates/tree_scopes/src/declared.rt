//! What an interface of a syntax tree declares, by kind.
ghost use Rattle.std.specs.Prelude.{map, All};
ghost use Rattle.tree_meaning.specs.Declarations.{use_local, type_name};
ghost use Rattle.tree_meaning.specs.Knowing.{TellsPlaces};
ghost use Rattle.tree_scopes.specs.Lent.{declared_type, used_item_of};

use crate::names::PlacesByName;
use atoms::Label;
use wit_tokens::wit_syntax::{Func, Path, TypeDef};

/// One used name: `use path.{name as local};`
#[derive(Drop)]
pub struct UsedType<'a> {
    pub path: &'a Path,
    pub name: &'a Label,
    pub local: &'a Label,
}

/// What an interface declares, each kind in source order.
#[derive(Drop)]
pub struct Declarations<'a> {
    pub name: &'a Label,
    pub uses: Vec<UsedType<'a>>,
    pub types: Vec<&'a TypeDef>,
    pub functions: Vec<&'a Func>,
    /// A table of the names that used names get, if they are more than a few.
    pub(crate) locals: Vec<PlacesByName<'a>>,
    /// A table of the names of the types, if they are more than a few.
    pub(crate) own: Vec<PlacesByName<'a>>,
    ghost used: { All (λ p. TellsPlaces (λ s. s.now) p.entries (map use_local (map used_item_of uses.items)))
        locals.items },
    ghost named: { All (λ p. TellsPlaces (λ s. s.now) p.entries (map type_name (map declared_type types.items)))
        own.items },
}
