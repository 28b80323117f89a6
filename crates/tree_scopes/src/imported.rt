//! The imports of a tree, as all passes over it share them.
ghost use Rattle.std.specs.Prelude.{◌≡◌, IfOk};
ghost use Rattle.tree_scopes.specs.KnownScopes.{HaveImportNames, AreImportScopes};

use crate::imports::import_scopes;
use crate::known::KnownTypes;
use atoms::KeyedState;
use package_names::IndexedTable;
use std::alloc::{AllocError, Global};
use tables::Resolve;

/// The imports of a tree: their table, in which each is found by its name, and the types of each.
#[derive(Drop)]
pub struct Imports<'a> {
    /// The key of all tables of names.
    pub keyed: KeyedState,
    pub table: IndexedTable<'a>,
    pub scopes: Vec<KnownTypes<'a>>,
    ghost named: { HaveImportNames table scopes.items },
}

impl<'a> Imports<'a> {
    /// The interfaces of a table as imports. Names are told apart by hashers with this key.
    pub fn of(
        alloc: Global,
        keyed: KeyedState,
        imports: &'a Resolve,
    ) -> Result<Imports<'a>, AllocError>
        ensures table { IfOk result (λ i. i.table ≡ imports.now) }
        ensures scopes { IfOk result (λ i. AreImportScopes i.table i.scopes.items) }
    {
        let scopes = import_scopes(alloc, keyed, imports)?;
        let table = IndexedTable::of(alloc, imports)?;
        Ok(Imports {
            keyed,
            table,
            scopes,
        })
    }
}
