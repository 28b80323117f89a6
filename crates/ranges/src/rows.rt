//! Rows of caps, one for each case of a variant.
ghost use Rattle.std.specs.Prelude.{◌≡◌, ℕ, ◌+◌, ◌*◌, ◌<◌, ◌≤◌, get_or, IfSome};
ghost use Rattle.canonical_abi.specs.Types.{variant_type, variant_cases, case_count};
ghost use Rattle.canonical_abi.specs.Layout.{size};
ghost use Rattle.values.specs.Types.{IsInside};
ghost use Rattle.ranges.specs.Bytewise.{IsBytewise, HasRows};
ghost use Rattle.ranges.specs.Plan.{IsBlank, IsRow};
ghost use Rattle.tables.specs.Closed.{closed_type};

use crate::caps::{fill, put};
use tables::ValType;
use values::Types;

/// The most bytes of an element that has rows, and the most cases.
const MOST: usize = 16;

/// How the elements of a variant cross: by case, the caps of an element's bytes, sixteen for each case, and its nodes.
#[derive(Clone, Copy)]
pub struct Rows {
    pub size: usize,
    pub cases: usize,
    pub caps: [u8; 256],
    pub nodes: [u8; 16],
}

/// How the elements of a variant of so many cases cross, where each payload crosses byte by byte with no tests: at most
/// 16 bytes and 16 cases.
pub(crate) fn rows_of(table: &Types, ty: ValType, count: usize) -> Option<Rows>
    requires inside { IsInside table.now ty }
    requires variant { variant_type (variant_cases (closed_type table.now ty)) ≡ closed_type table.now ty }
    requires counted { case_count (variant_cases (closed_type table.now ty)) ≡ count }
    ensures bytewise { IfSome result (λ _. IsBytewise (closed_type table.now ty)) }
    ensures rows { IfSome result (λ r. HasRows (closed_type table.now ty) r.size r.cases r.caps r.nodes) }
    ensures some { IfSome result (λ r. 0 < r.size) }
    ensures few { IfSome result (λ r. r.size ≤ 16) }
    ensures few_cases { IfSome result (λ r. r.cases ≤ 16) }
{
    let size = table.size_of(ty);
    if size == 0 || size > MOST || count > MOST {
        return None;
    }
    let mut caps = [0; 256];
    let mut nodes = [0; 16];
    for case in 0..count {
        nodes[case] = fill_case(table, ty, case, &mut caps)?;
    }
    Some(Rows {
        size,
        cases: count,
        caps,
        nodes,
    })
}

/// Puts the caps of a case's values, and answers their nodes.
fn fill_case(table: &Types, ty: ValType, case: usize, caps: &mut [u8; 256]) -> Option<u8>
    requires inside { IsInside table.now ty }
    requires variant { variant_type (variant_cases (closed_type table.now ty)) ≡ closed_type table.now ty }
    requires known { case < case_count (variant_cases (closed_type table.now ty)) }
    requires few_cases { case_count (variant_cases (closed_type table.now ty)) ≤ 16 }
    requires few { size (closed_type table.now ty) ≤ 16 }
    requires blank { IsBlank caps.old (case * 16) }
    ensures row { IfSome result (λ k. IsRow (variant_cases (closed_type table.now ty)) case caps.new k) }
    ensures below { IfSome result (λ k. (i : ℕ) → i < case * 16 → get_or caps.new i 0 ≡ get_or caps.old i 0) }
    ensures blank { IfSome result (λ k. IsBlank caps.new (case * 16 + 16)) }
{
    let known = table.case_payload(ty, case)?;
    let at = case * 16;
    put(caps, at, 1, 255);
    let Some(member) = known else {
        return Some(1);
    };
    // A payload stands at the variant's alignment.
    let inner = fill(table, member, caps, at + table.align_of(ty))?;
    let nodes = inner.checked_add(1)?;
    Some(nodes)
}
