//! The caps of a type's bytes.
ghost use Rattle.std.specs.Prelude.{◌≡◌, ◌≢◌, ℕ, ◌+◌, ◌*◌, ◌<◌, ◌≤◌, get_or, IfSome};
ghost use Rattle.canonical_abi.specs.Types.{record_type, record_fields, field_count};
ghost use Rattle.canonical_abi.specs.Layout.{size};
ghost use Rattle.values.specs.Types.{IsInside};
ghost use Rattle.ranges.specs.Bytewise.{caps};
ghost use Rattle.ranges.specs.Plan.{IsBlank, Fills};
ghost use Rattle.tables.specs.Closed.{closed_type};

use layout::Shape;
use tables::{Primitive, ValType};
use values::{Members, Types};

/// Puts one cap for so many bytes.
pub(crate) fn put(bytes: &mut [u8; 256], at: usize, width: usize, cap: u8)
    requires room { at + width ≤ 256 }
    requires blank { IsBlank bytes.old at }
    ensures put { (i : ℕ) → get_or bytes.new (at + i) 0 ≡ caps width cap i }
    ensures below { (i : ℕ) → i < at → get_or bytes.new i 0 ≡ get_or bytes.old i 0 }
{
    for i in at..at + width {
        bytes[i] = cap;
    }
}

/// Puts the caps of a type's values at a place, and answers the nodes of a value. None for a type that has none.
#[cycle(fill)]
pub(crate) fn fill(table: &Types, ty: ValType, bytes: &mut [u8; 256], at: usize) -> Option<u8>
    requires inside { IsInside table.now ty }
    requires room { at + size (closed_type table.now ty) ≤ 256 }
    requires blank { IsBlank bytes.old at }
    ensures { IfSome result (λ k. Fills (closed_type table.now ty) at bytes.old bytes.new k) }
{
    match table.shape_of(ty) {
        Shape::Primitive(Primitive::Char) => None,
        Shape::Primitive(primitive) => {
            let cap = if primitive == Primitive::Bool { 1 } else { 255 };
            put(bytes, at, table.size_of(ty), cap);
            Some(1)
        }
        Shape::Record(count) => fill_fields(table, ty, count, bytes, at),
        Shape::Flags(labels) => {
            let size = table.size_of(ty);
            if labels != 8 * size {
                return None;
            }
            put(bytes, at, size, 255);
            Some(1)
        }
        _ => None,
    }
}

/// Puts the caps of a record's fields, and answers its nodes.
#[cycle(fill)]
fn fill_fields(
    table: &Types,
    ty: ValType,
    count: usize,
    bytes: &mut [u8; 256],
    at: usize,
) -> Option<u8>
    requires inside { IsInside table.now ty }
    requires record { record_type (record_fields (closed_type table.now ty)) ≡ closed_type table.now ty }
    requires counted { field_count (record_fields (closed_type table.now ty)) ≡ count }
    requires room { at + size (closed_type table.now ty) ≤ 256 }
    requires blank { IsBlank bytes.old at }
    ensures { IfSome result (λ k. Fills (closed_type table.now ty) at bytes.old bytes.new k) }
{
    let mut end: usize = 0;
    let mut nodes: u8 = 1;
    for index in 0..count {
        let Some(member) = table.member_type(&Members::Of(ty), index) else {
            unreachable!()
        };
        let place = end.next_multiple_of(table.align_of(member));
        let inner = fill(table, member, bytes, at + place)?;
        nodes = nodes.checked_add(inner)?;
        end = place + table.size_of(member);
    }
    Some(nodes)
}
