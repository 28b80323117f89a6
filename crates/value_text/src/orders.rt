//! The order of each record's labels, made once for all values of a table.
ghost use Rattle.std.specs.Prelude.{◌≡◌, IfOk, IsPermutation, IsSorted};
ghost use Rattle.std.specs.Cmp.Lexicographic.{slice_cmp};
ghost use Rattle.std.specs.Ordering.{nat_cmp};
ghost use Rattle.value_json.specs.Apart.{HasApartLabels, HaveLabelsApart, RowApart};
ghost use Rattle.value_text.specs.Orders.{label_at, AreOrders, IsLabelOrder, RowOrdered};

use std::alloc::{AllocError, Global};
use tables::{Definition, Field, Resolve, TypeDefKind};

/// The indexes of each record's fields in the order of their labels' bytes, by the record's row; none in any other row.
pub fn label_orders(alloc: Global, resolve: &Resolve) -> Result<Vec<Vec<usize>>, AllocError>
    requires { HasApartLabels resolve.now }
    ensures { IfOk result (λ orders. AreOrders resolve.now.definitions orders.items) }
{
    let mut orders = Vec::with_capacity(alloc, resolve.definitions.len())?;
    for definition in resolve.definitions.as_slice() {
        orders.push(row_order(alloc, definition)?)?;
    }
    Ok(orders)
}

/// The order of a row.
fn row_order(alloc: Global, definition: &Definition) -> Result<Vec<usize>, AllocError>
    requires { RowApart definition.now }
    ensures { IfOk result (λ order. RowOrdered definition.now order.items) }
{
    match definition {
        Definition::Type(definition) => match &definition.kind {
            TypeDefKind::Record(fields) => label_order(alloc, fields.as_slice()),
            _ => Ok(Vec::new(alloc)),
        },
        Definition::Function(_) => Ok(Vec::new(alloc)),
    }
}

/// The indexes of fields in the order of their labels.
fn label_order(alloc: Global, fields: &[Field]) -> Result<Vec<usize>, AllocError>
    requires { HaveLabelsApart fields.now }
    ensures { IfOk result (λ order. IsLabelOrder fields.now order.items) }
{
    let mut order = Vec::with_capacity(alloc, fields.len())?;
    for index in 0..fields.len() {
        order.push(index)?;
    }
    sort_by_label(fields, &mut order);
    Ok(order)
}

/// Sorts indexes of fields by the labels.
fn sort_by_label(fields: &[Field], order: &mut Vec<usize>)
    ensures same { IsPermutation order.old.items order.new.items }
    ensures sorted { IsSorted (λ i j. slice_cmp nat_cmp (label_at fields.now i) (label_at fields.now j))
        order.new.items }
{
    order.sort_unstable_by(|a, b| label_at(fields, *a).cmp(label_at(fields, *b)));
}

/// The label of a field, or no bytes where there is none.
fn label_at(fields: &[Field], index: usize) -> &str
    ensures { result.now ≡ label_at fields.now index }
{
    match fields.get(index) {
        Some(field) => field.name.as_str(),
        None => "",
    }
}
