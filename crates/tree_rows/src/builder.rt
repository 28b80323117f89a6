//! The table of definitions while it is made.
ghost use Rattle.std.specs.Prelude.{◌≡◌, ◌≢◌, ◌<◌, ◌++◌, ◌∷◌, [], length, IfOk, IfErr};
ghost use Rattle.tables.specs.Package.{Tree, interface_names};
ghost use Rattle.package_form.specs.Entries.{Table};
ghost use Rattle.tree_meaning.specs.Building.{LowersInner, LowersType};

use atoms::Label;
use package_names::IndexedTable;
use std::alloc::{AllocError, Global};
use std::marker::Model;
use tables::{Definition, Resolve, TypeDef, TypeDefKind, TypeId, ValType};

/// The imports and the names of the own interfaces in package order, and the definitions so far.
#[derive(Drop)]
pub struct Builder<'a> {
    imports: &'a Resolve,
    own: &'a [Label],
    rows: Vec<Definition>,
}

impl<'a> Model for Builder<'a> {
    ghost use Rattle.std.specs.Prelude.{◌++◌, []};
    ghost use Rattle.package_form.specs.Entries.{Table};
    ghost use Rattle.tables.specs.Package.{interface_names};

    ghost Value = { Table };

    ghost view = { λ b. record {
      interfaces = interface_names b.imports.now ++ b.own.now;
      worlds = [];
      rows = b.rows.items;
    } };
}

/// The id of the row at this place. No memory where an id can't tell it.
fn row_id(place: usize) -> Result<TypeId, AllocError>
    ensures ok { IfOk result (λ id. id.0 ≡ place) }
    ensures err { IfErr result (λ _. u32.MAX < place) }
{
    match u32::try_from(place) {
        Ok(place) => Ok(TypeId(place)),
        Err(_) => Err(AllocError),
    }
}

impl<'a> Builder<'a> {
    /// A table of these definitions, those of the imports, which go by their full names.
    pub fn new(imports: &IndexedTable<'a>, own: &'a [Label], rows: Vec<Definition>) -> Self
        ensures { result ≡ record {
          interfaces = interface_names imports.now ++ own.now;
          worlds = [];
          rows = rows.items;
        } }
    {
        Builder {
            imports: imports.table(),
            own,
            rows,
        }
    }

    /// The definitions.
    pub fn into_rows(self) -> Vec<Definition>
        ensures { result.items ≡ self.entry.rows }
    {
        self.rows
    }

    /// Puts a definition at the end of the table. No memory, too, where an id can't tell its place.
    pub fn define(&mut self, definition: Definition) -> Result<TypeId, AllocError>
        ensures { IfOk result (λ id. (id.0 ≡ length self.old.rows)
            × (self.new ≡ record {
              interfaces = self.old.interfaces;
              worlds = self.old.worlds;
              rows = self.old.rows ++ definition ∷ [];
            })) }
    {
        let id = row_id(self.rows.len())?;
        self.rows.push(definition)?;
        Ok(id)
    }

    /// A type of this kind inside another: a row of its own, but for a name or a primitive.
    pub fn inner(&mut self, kind: TypeDefKind) -> Result<ValType, AllocError>
        ensures { IfOk result (λ v. (first : Table) (tree : Tree) → LowersInner first self.old kind tree
            → LowersType first self.new v tree) }
    {
        match kind {
            TypeDefKind::Alias(target) => Ok(target),
            kind => {
                let id = self.define(Definition::Type(TypeDef { name: None, kind }))?;
                Ok(ValType::Id(id))
            }
        }
    }
}
