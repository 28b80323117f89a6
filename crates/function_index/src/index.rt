//! Functions of a table by the full names of their interfaces and by their own.
ghost use Rattle.std.specs.Prelude.{◌≡◌, ◌++◌, ◌∷◌, ◌&&◌, [], List, ℕ, None, Some, IfOk, OnOk, IfSome, IfNone};
ghost use Rattle.std.specs.Prelude.{if◌then◌else◌};
ghost use Rattle.std.specs.Option.{option_or};
ghost use Rattle.std.specs.Str.{bytes_eq};
ghost use Rattle.tables.specs.Closed.{IsFunction};
ghost use Rattle.tables.specs.Names.{IsNamed};
ghost use Rattle.tables.specs.declared.tables.FunctionId.{FunctionId};
ghost use Rattle.tables.specs.declared.tables.Resolve.{Resolve};
ghost use Rattle.function_index.specs.Index.{Candidate, IsIndexOf, IsIndexOver, function_in, under};

use crate::keys::keyed_by_functions;
use crate::names::NamedFunctions;
use atoms::{KeyedState, Label};
use indexmap::IndexMap;
use std::alloc::{AllocError, Global};
use std::marker::Model;
use tables::{FunctionId, Resolve};

/// The functions of a table, found by the full name of an interface and a name without a walk over the table.
///
/// It has a copy of each full name and each name, and doesn't borrow the table. The names' hashers have a key that is
/// made of these names, so that none who writes a package can choose names that collide.
#[derive(Drop)]
pub struct FunctionIndex {
    interfaces: IndexMap<String, NamedFunctions, KeyedState>,
}

impl Model for FunctionIndex {
    ghost use Rattle.std.specs.Prelude.{List, ℕ, map};
    ghost use Rattle.tables.specs.declared.tables.FunctionId.{FunctionId};
    ghost use Rattle.function_index.specs.Index.{named};

    ghost Value = { List (List ℕ × List (List ℕ × FunctionId)) };

    ghost view = { λ x. map named x.interfaces.entries };
}

impl FunctionIndex {
    /// No functions; their names are told apart by hashers with this key.
    fn empty(alloc: Global, keyed: KeyedState) -> FunctionIndex
        ensures { result ≡ [] }
    {
        FunctionIndex {
            interfaces: IndexMap::with_hasher(alloc, keyed),
        }
    }

    /// Puts a function under the full name of its interface and its own, unless there is one.
    fn put(
        &mut self,
        alloc: Global,
        interface: &str,
        name: &Label,
        func: FunctionId,
    ) -> Result<(), AllocError>
        ensures { OnOk result ((i n : List ℕ) → function_in self.new i n
            ≡ option_or (function_in self.old i n)
            (if bytes_eq i interface.now && bytes_eq n name.now then Some func else None)) }
    {
        if let Some(functions) = self.interfaces.get_mut(interface) {
            return functions.put(alloc, name, func);
        }
        let functions = NamedFunctions::of(alloc, *self.interfaces.hasher(), name, func)?;
        self.interfaces
            .insert(String::from_str(alloc, interface)?, functions)?;
        Ok(())
    }

    /// Puts a row of a table under the full name of its interface, if it is a function.
    fn put_row(
        &mut self,
        alloc: Global,
        table: &Resolve,
        interface: &str,
        row: FunctionId,
    ) -> Result<(), AllocError>
        ensures { (cs : List Candidate) → IsIndexOver table.now cs self.old
            → OnOk result (IsIndexOver table.now (cs ++ under interface.now (row ∷ [])) self.new) }
    {
        if !table.is_function(row) {
            return Ok(());
        }
        let function = table.signature(row);
        self.put(alloc, interface, &function.name, row)
    }

    /// Puts those of these rows that are functions.
    fn put_rows(
        &mut self,
        alloc: Global,
        table: &Resolve,
        interface: &str,
        rows: &[FunctionId],
    ) -> Result<(), AllocError>
        ensures { (cs : List Candidate) → IsIndexOver table.now cs self.old
            → OnOk result (IsIndexOver table.now (cs ++ under interface.now rows.now) self.new) }
    {
        for row in rows {
            self.put_row(alloc, table, interface, *row)?;
        }
        Ok(())
    }

    /// The index of a table's functions, in time and memory that grow with their number and the lengths of their names.
    pub fn of(alloc: Global, table: &Resolve) -> Result<FunctionIndex, AllocError>
        ensures { IfOk result (IsIndexOf table.now) }
    {
        let packages = table.packages.as_slice();
        let mut index = FunctionIndex::empty(alloc, keyed_by_functions(table));
        for interface in table.interfaces.as_slice() {
            let package = &packages[interface.package.0 as usize];
            let name = package.full_name(alloc, &interface.name)?;
            let functions = interface.functions.as_slice();
            index.put_rows(alloc, table, name.as_str(), functions)?;
        }
        Ok(index)
    }

    /// What stands under a full name and a name.
    fn look_up(&self, iface: &str, name: &str) -> Option<FunctionId>
        ensures { result ≡ function_in self.now iface.now name.now }
    {
        self.interfaces.get(iface)?.get(name)
    }

    /// The function of this name in the interface of this full name: of the table that this is an index of.
    pub fn function(&self, iface: &str, name: &str) -> Option<FunctionId>
        ensures value { result ≡ function_in self.now iface.now name.now }
        ensures found { (r : Resolve) → IsIndexOf r self.now → IfSome result (IsNamed r iface.now name.now) }
        ensures function { (r : Resolve) → IsIndexOf r self.now → IfSome result (IsFunction r) }
        ensures none { (r : Resolve) → IsIndexOf r self.now
            → IfNone result ((f : FunctionId) → ¬ IsNamed r iface.now name.now f) }
    {
        self.look_up(iface, name)
    }
}
