//! Where types are written.
ghost use Rattle.std.specs.Prelude.{IsTrue, Contains};
ghost use Rattle.structure_comparison.specs.Types.{site_view, IsNamed, IsOfName};

use crate::lookup::name_at;
use component_structure::{Named, NamedId, Structure};
use std::collections::BTreeMap;
use tables::{Direction, InterfaceId, Resolve, TypeId, TypeName};

/// A scope that was read, and what of a table stands in it.
#[derive(Drop)]
pub struct Site<'a> {
    pub resolve: &'a Resolve,
    pub structure: &'a Structure,
    /// The scope's number.
    pub scope: usize,
    /// The interface that it is, if it is no world.
    pub interface: Option<InterfaceId>,
    /// Which way its functions cross.
    pub way: Direction,
    /// By row without a name: the place of its definition.
    pub written: BTreeMap<u32, usize>,
}

impl Site<'_> {
    /// Whether a type has a name's label, and its interface is the scope's.
    fn is_of_name(&self, name: &TypeName, named: &Named) -> bool
        ensures { IsTrue result → IsOfName (site_view self.now) name.now named.now }
    {
        self.interface == Some(name.interface)
            && named.scope == self.scope
            && named.name.as_bytes() == name.name.as_bytes()
    }

    /// Whether a row of the table has a name, and is this type of the scope.
    pub fn is_named(&self, row: TypeId, id: NamedId) -> bool
        ensures { IsTrue result → IsNamed (site_view self.now) row id }
    {
        match (
            name_at(self.resolve, row),
            self.structure.named.as_slice().get(id.0),
        ) {
            (Some(name), Some(named)) => self.is_of_name(name, named),
            _ => false,
        }
    }

    /// Whether a row of the table has no name, and is this definition of the scope.
    pub fn is_written(&self, row: TypeId, id: usize) -> bool
        ensures { IsTrue result → Contains (site_view self.now).written (row.0, id) }
    {
        match self.written.get(&row.0) {
            Some(written) => *written == id,
            None => false,
        }
    }
}
