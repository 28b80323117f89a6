//! What the rows of a tree are made of.
use atoms::{KeyedState, Label};
use package_names::IndexedTable;
use tables::{InterfaceId, Sequence};
use tree_scopes::{Declarations, Names};
use wit_tokens::wit_syntax::Ast;

/// A tree behind its imports, in the order of its definitions.
#[derive(Clone, Copy)]
pub struct Plan<'a> {
    /// The key of all tables of names.
    pub keyed: KeyedState,
    pub imports: &'a IndexedTable<'a>,
    pub ast: &'a Ast,
    /// What each interface declares.
    pub all: &'a [Declarations<'a>],
    /// The order of the interfaces.
    pub order: &'a [usize],
    /// For each interface the order of its types.
    pub types: &'a [Sequence<usize>],
    /// The names of the interfaces in their order.
    pub names: &'a Names<'a>,
    /// The same names.
    pub labels: &'a [Label],
}

/// An interface of the own package.
#[derive(Clone, Copy)]
pub struct Own<'a> {
    pub id: InterfaceId,
    pub declared: &'a Declarations<'a>,
    /// The order of its types.
    pub types: &'a [usize],
}

/// How many definitions of each kind have their names in an interface.
#[derive(Clone, Copy)]
pub struct Counts {
    pub uses: usize,
    pub types: usize,
    pub functions: usize,
}

impl Counts {
    /// How many an interface declares.
    fn of(declared: &Declarations) -> Counts {
        Counts {
            uses: declared.uses.len(),
            types: declared.types.len(),
            functions: declared.functions.len(),
        }
    }
}

impl Plan<'_> {
    /// How many definitions the interface at this place has.
    pub fn counts(&self, place: usize) -> Counts {
        let declared = match self.order.get(place) {
            Some(index) => self.all.get(*index),
            None => None,
        };
        match declared {
            Some(declared) => Counts::of(declared),
            None => Counts {
                uses: 0,
                types: 0,
                functions: 0,
            },
        }
    }

    /// How many definitions have their names in an interface.
    pub fn named_count(&self) -> usize {
        let mut count: usize = 0;
        for declared in self.all {
            let counts = Counts::of(declared);
            count = count
                .saturating_add(counts.uses)
                .saturating_add(counts.types)
                .saturating_add(counts.functions);
        }
        count
    }
}
