//! The fields of a record, with their places.
ghost use Rattle.std.specs.Prelude.{◌≡◌, Some, IfSome, option_map, slice_get};
ghost use Rattle.canonical_abi.specs.Layout.{field_places};
ghost use Rattle.canonical_abi.specs.Types.{record_fields, nth_field};
ghost use Rattle.tables.specs.Closed.{closed_type};
ghost use Rattle.values.specs.Types.{IsInside};

use layout::FieldInfo;
use tables::ValType;
use values::Types;

/// A field of a record or of a tuple, with its place in bytes.
#[inline(always)]
pub(crate) fn field_at(table: &Types, ty: ValType, index: usize) -> Option<FieldInfo>
    requires { IsInside table.now ty }
    ensures found { option_map (λ f. closed_type table.now f.ty) result
        ≡ nth_field (record_fields (closed_type table.now ty)) index }
    ensures place { IfSome result (λ f. slice_get (field_places (record_fields (closed_type table.now ty))) index
        ≡ Some f.offset) }
    ensures inside { IfSome result (λ f. IsInside table.now f.ty) }
{
    table.layouts().field(ty, index)
}
