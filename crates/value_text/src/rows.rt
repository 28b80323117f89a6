//! The rows of a package's table.
ghost use Rattle.std.specs.Prelude.{◌≡◌, IsTrue};
ghost use Rattle.tables.specs.Labelled.{labelled_kind, labelled_types, labelled_val};
ghost use Rattle.tables.specs.Tables.{is_below, is_type, is_type_id, kind_all, is_standard_kind};
ghost use Rattle.value_json.specs.Apart.{HasApartLabels, KindApart};
ghost use Rattle.value_text.specs.Orders.{AreOrders, IsKindOf, IsLabelOrder};

use tables::{Definition, Field, Resolve, TypeDefKind, TypeId, ValType};

/// The kind of a type of the table.
pub(crate) fn kind_of(resolve: &Resolve, id: TypeId) -> &TypeDefKind
    requires inside { IsTrue (is_type_id resolve.now.definitions id) }
    requires labels { HasApartLabels resolve.now }
    ensures is { labelled_val (labelled_types resolve.now) (ValType.Id id)
        ≡ labelled_kind (labelled_types resolve.now) result.now }
    ensures below { IsTrue (kind_all (is_below id.0) result.now) }
    ensures typed { IsTrue (kind_all (is_type resolve.now.definitions) result.now) }
    ensures standard { IsTrue (is_standard_kind result.now) }
    ensures apart { KindApart result.now }
    ensures stands { IsKindOf resolve.now.definitions id.0 result.now }
{
    match &resolve.definitions.as_slice()[id.0 as usize] {
        Definition::Type(definition) => &definition.kind,
        Definition::Function(_) => unreachable!(),
    }
}

/// The indexes of a record's fields, in the order of their labels' bytes.
pub(crate) fn order_of<'a>(
    _resolve: &Resolve,
    orders: &'a [Vec<usize>],
    id: TypeId,
    _fields: &[Field],
) -> &'a [usize]
    requires record { IsKindOf _resolve.now.definitions id.0 (TypeDefKind.Record _fields.now) }
    requires ordered { AreOrders _resolve.now.definitions orders.now }
    ensures { IsLabelOrder _fields.now result.now }
{
    orders[id.0 as usize].as_slice()
}
