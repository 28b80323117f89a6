//! The members of a record: the fields of a type, or types side by side.
ghost use Rattle.std.specs.Prelude.{◌≡◌, slice_get};

use tables::ValType;

/// Types side by side.
#[derive(Clone, Copy, Debug)]
pub enum Members<'a> {
    /// The fields of a record or of a tuple.
    Of(ValType),
    /// These types.
    Listed(&'a [ValType]),
}

pub(crate) fn type_at(types: &[ValType], index: usize) -> Option<ValType>
    ensures { result ≡ slice_get types.now index }
{
    types.get(index).copied()
}
