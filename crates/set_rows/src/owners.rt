//! Whose the rows of a table are.
ghost use Rattle.std.specs.Prelude.{◌≡◌, IfOk, slice_index_or, None};
ghost use Rattle.package_form.specs.Reached.{used_in};
ghost use Rattle.set_rows.specs.Owners.{owners, names};
ghost use Rattle.tables.specs.Names.{owner_of};

use package_form::push_references;
use std::alloc::{AllocError, Global};
use tables::{Definition, Owner, TypeDefKind, TypeId};

/// Whose a row with a name is.
fn owner_of(row: &Definition) -> Option<Owner>
    ensures { result ≡ owner_of row.now }
{
    match row {
        Definition::Type(definition) => match &definition.name {
            Some(name) => Some(Owner::Interface(name.interface)),
            None => None,
        },
        Definition::Function(function) => Some(function.owner),
    }
}

/// Whose each row is.
pub fn owners(alloc: Global, rows: &[Definition]) -> Result<Vec<Option<Owner>>, AllocError>
    ensures { IfOk result (λ os. os.items ≡ owners rows.now) }
{
    let mut owners = Vec::with_capacity(alloc, rows.len())?;
    let mut last = None;
    for behind in 0..rows.len() {
        last = owner_of(&rows[rows.len() - 1 - behind]).or(last);
        owners.push(last)?;
    }
    owners.reverse();
    Ok(owners)
}

/// Whose the row at this place is, where there is one.
pub fn owner_at(owners: &[Option<Owner>], id: TypeId) -> Option<Owner>
    ensures { result ≡ slice_index_or owners.now id.0 None }
{
    match owners.get(id.0 as usize) {
        Some(owner) => *owner,
        None => None,
    }
}

/// The type that a used name stands for.
fn used(row: &Definition) -> Option<TypeId>
    ensures { result ≡ used_in row.now }
{
    match row {
        Definition::Type(definition) => match &definition.kind {
            TypeDefKind::Use(target) => Some(*target),
            _ => None,
        },
        Definition::Function(_) => None,
    }
}

/// The rows that a row names: what it is made of, and the type that a used name stands for.
pub fn names(alloc: Global, row: &Definition) -> Result<Vec<TypeId>, AllocError>
    ensures { IfOk result (λ ids. ids.items ≡ names row.now) }
{
    let mut ids = Vec::new(alloc);
    match used(row) {
        Some(target) => ids.push(target)?,
        None => push_references(&mut ids, row)?,
    }
    Ok(ids)
}
