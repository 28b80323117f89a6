//! Whether rows without names stand in postfix order.
ghost use Rattle.std.specs.Prelude.{◌≡◌, ◌<◌, ◌==◌, ◌++◌, [], slice_get, Decides, IfOk, IfErr, OnOk};
ghost use Rattle.std.specs.List.{ends_with};
ghost use Rattle.package_form.specs.Postfix.{is_unnamed, is_unnamed_row, is_inner, IsPostfix};
ghost use Rattle.package_form.specs.Unused.{unnamed_at, inner_rows, is_alias, can_use, closes, is_next, are_used};

use crate::references::push_references;
use std::alloc::{AllocError, Global};
use tables::{Definition, Resolve, TypeDefKind, TypeId};

pub fn is_unnamed(row: &Definition) -> bool
    ensures { result ≡ is_unnamed row.now }
{
    match row {
        Definition::Type(definition) => definition.name.is_none(),
        Definition::Function(_) => false,
    }
}

fn is_unnamed_row(rows: &[Definition], id: TypeId) -> bool
    ensures { result ≡ is_unnamed_row (slice_get rows.now id.0) }
{
    match rows.get(id.0 as usize) {
        Some(row) => is_unnamed(row),
        None => false,
    }
}

fn is_inner(kind: &TypeDefKind) -> bool
    ensures { result ≡ is_inner kind.now }
{
    matches!(
        kind,
        TypeDefKind::List(_)
            | TypeDefKind::Option(_)
            | TypeDefKind::Result(_, _)
            | TypeDefKind::Tuple(_)
    )
}

fn is_alias(kind: &TypeDefKind) -> bool
    ensures { result ≡ is_alias kind.now }
{
    matches!(kind, TypeDefKind::Alias(_))
}

/// Appends the row of a reference, if it has no name.
fn push_unnamed(inner: &mut Vec<u32>, rows: &[Definition], id: TypeId) -> Result<(), AllocError>
    ensures { OnOk result (inner.new.items ≡ inner.old.items ++ unnamed_at rows.now id) }
{
    if is_unnamed_row(rows, id) {
        inner.push(id.0)?;
    }
    Ok(())
}

/// Puts the rows that a row is made of in place of what is in `ids`, and those of them that have no names in place of
/// what is in `inner`.
fn find_inner(
    ids: &mut Vec<TypeId>,
    inner: &mut Vec<u32>,
    rows: &[Definition],
    row: &Definition,
) -> Result<(), AllocError>
    ensures { OnOk result (inner.new.items ≡ inner_rows rows.now row.now) }
{
    ids.clear();
    push_references(ids, row)?;
    inner.clear();
    for id in &*ids {
        push_unnamed(inner, rows, *id)?;
    }
    Ok(())
}

fn can_use(row: &Definition, inner: &[u32]) -> bool
    ensures { result ≡ can_use row.now inner.now }
{
    match row {
        Definition::Type(definition) if is_alias(&definition.kind) => inner.is_empty(),
        _ => true,
    }
}

/// Whether a row may leave so many rows unused.
fn closes(row: &Definition, left: usize) -> bool
    ensures { result ≡ closes row.now left }
{
    match row {
        Definition::Type(definition) if definition.name.is_none() => is_inner(&definition.kind),
        _ => left == 0,
    }
}

/// Whether the rows without names of a row stand last among the unused, and it may leave the others.
fn is_next(unused: &[u32], inner: &[u32], row: &Definition) -> bool
    ensures value { result ≡ is_next unused.now inner.now row.now }
{
    can_use(row, inner) && unused.ends_with(inner) && closes(row, unused.len() - inner.len())
}

/// The id of the row at this place. No memory where an id can't tell it.
fn row_id(place: usize) -> Result<u32, AllocError>
    ensures ok { IfOk result (λ id. id ≡ place) }
    ensures err { IfErr result (λ _. u32.MAX < place) }
{
    match u32::try_from(place) {
        Ok(id) => Ok(id),
        Err(_) => Err(AllocError),
    }
}

/// Whether each row without a name is used once, in order, by the next row that is made of it.
pub fn are_used(alloc: Global, rows: &[Definition]) -> Result<bool, AllocError>
    ensures { IfOk result (λ b. b ≡ are_used rows.now 0 [] rows.now) }
{
    let mut ids = Vec::new(alloc);
    let mut inner = Vec::new(alloc);
    let mut unused = Vec::new(alloc);
    for (place, row) in rows.iter().enumerate() {
        find_inner(&mut ids, &mut inner, rows, row)?;
        if !is_next(&unused, &inner, row) {
            return Ok(false);
        }
        unused.truncate(unused.len() - inner.len());
        if is_unnamed(row) {
            unused.push(row_id(place)?)?;
        }
    }
    Ok(unused.is_empty())
}

/// Whether the definitions of a table stand in postfix order: each type without a name is used once, by the next
/// definition that is made of it. No memory, too, where an id can't tell the place of such a type.
pub fn is_postfix(alloc: Global, resolve: &Resolve) -> Result<bool, AllocError>
    ensures { IfOk result (λ b. Decides b (IsPostfix resolve.now.definitions)) }
{
    are_used(alloc, resolve.definitions.as_slice())
}
