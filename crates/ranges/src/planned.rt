//! The plan of a type's values.
ghost use Rattle.std.specs.Prelude.{◌≡◌, [], ◌∷◌, ◌+◌, ◌-◌, ◌*◌, ◌^◌, ◌<◌, ◌≤◌, min, length, IfSome};
ghost use Rattle.std.specs.Int.{next_multiple_of};
ghost use Rattle.canonical_abi.specs.Guest.{IsAlignment};
ghost use Rattle.canonical_abi.specs.Types.{ClosedType, record_type, record_fields, field_count, variant_type};
ghost use Rattle.canonical_abi.specs.Types.{variant_cases, case_count};
ghost use Rattle.canonical_abi.specs.Layout.{size};
ghost use Rattle.values.specs.Types.{IsInside};
ghost use Rattle.ranges.specs.Columns.{AreBefore, AreMasks, HasPlain, HasPlan, IsBounded, Plans};
ghost use Rattle.ranges.specs.Bytewise.{Crosses, each_nodes};
ghost use Rattle.ranges.specs.Plan.{IsBlank};
ghost use Rattle.tables.specs.Closed.{closed_type};

use crate::blend::{Caps, cross_capped};
use crate::caps::fill;
use crate::columns::{Column, cross_columns};
use crate::elements::Elements;
use crate::rows::rows_of;
use crate::words::{are_masks, cross_words};
use arrayvec::ArrayVec;
use canonical_abi::Guest;
use layout::Shape;
use tables::ValType;
use values::{Members, Types};

/// The most bytes of an element that has a plan.
const MOST: usize = 64;

/// How an element's bytes cross: the caps of those that stand in no variant, and its variants.
#[derive(Drop)]
pub struct Plan {
    pub plain: Caps,
    pub columns: ArrayVec<Column, 8>,
}

/// How the values of a type cross, where they do so byte by byte with no tests but those of cases: numbers, bools,
/// flags of 8, 16 or 32 labels, variants of these within 16 bytes and 16 cases, and records of all these, within 64
/// bytes, 255 nodes and 8 variants.
pub fn plan_of(table: &Types, ty: ValType) -> Option<Plan>
    requires inside { IsInside table.now ty }
    ensures planned { IfSome result (λ p. HasPlan (closed_type table.now ty) p) }
    ensures bounded { IfSome result (λ p. IsBounded p) }
{
    let size = table.size_of(ty);
    if size == 0 || size > MOST {
        return None;
    }
    let plain = Caps {
        size,
        nodes: 0,
        bytes: [0; 256],
    };
    let mut plan = Plan {
        plain,
        columns: ArrayVec::new(),
    };
    plan_value(table, ty, &mut plan, 0)?;
    Some(plan)
}

/// Crosses elements without variants, and answers how many: all.
fn cross_plain<G: Guest>(
    plain: &Caps,
    source: &[u8],
    elements: Elements,
    guest: &mut G,
    nodes: &mut u64,
) -> usize
    requires some { 0 < plain.now.size }
    requires few { plain.now.size ≤ 64 }
    requires inside { elements.from + elements.count * plain.now.size ≤ length source.now }
    requires room { elements.to + elements.count * plain.now.size ≤ length (G.memory guest.old).bytes }
    requires small { elements.to + elements.count * plain.now.size < 2 ^ 32 }
    ensures all { result ≡ elements.count }
    ensures crosses { (t : ClosedType) → HasPlain t plain.now
        → Crosses t source.now elements.from result G.allocates (G.memory guest.old) elements.to (G.memory guest.new) }
    ensures visited { (t : ClosedType) → HasPlain t plain.now
        → min nodes.new (2 ^ 64 - 1) ≡ min (nodes.old + each_nodes t source.now elements.from result) (2 ^ 64 - 1) }
    ensures same_length { length (G.memory guest.new).bytes ≡ length (G.memory guest.old).bytes }
{
    cross_capped(plain, source, elements, guest);
    *nodes = nodes.saturating_add((elements.count * usize::from(plain.nodes)) as u64);
    elements.count
}

/// Crosses elements up to the chunk with the first fault. Answers how many crossed, and `nodes` grows by their nodes,
/// as far as it has room.
pub fn cross_planned<G: Guest>(
    plan: &Plan,
    source: &[u8],
    elements: Elements,
    guest: &mut G,
    nodes: &mut u64,
) -> usize
    requires bounded { IsBounded plan.now }
    requires inside { elements.from + elements.count * plan.now.plain.size ≤ length source.now }
    requires room { elements.to + elements.count * plan.now.plain.size ≤ length (G.memory guest.old).bytes }
    requires small { elements.to + elements.count * plan.now.plain.size < 2 ^ 32 }
    ensures within { result ≤ elements.count }
    ensures crosses { (t : ClosedType) → HasPlan t plan.now
        → Crosses t source.now elements.from result G.allocates (G.memory guest.old) elements.to (G.memory guest.new) }
    ensures visited { (t : ClosedType) → HasPlan t plan.now
        → min nodes.new (2 ^ 64 - 1) ≡ min (nodes.old + each_nodes t source.now elements.from result) (2 ^ 64 - 1) }
    ensures same_length { length (G.memory guest.new).bytes ≡ length (G.memory guest.old).bytes }
{
    if plan.columns.is_empty() {
        return cross_plain(&plan.plain, source, elements, guest, nodes);
    }
    let Some(column) = word_column(plan) else {
        return cross_columns(plan, source, elements, guest, nodes);
    };
    let front = cross_words(column, source, elements, guest);
    let own = front.count as u64 * u64::from(plan.plain.nodes);
    *nodes = nodes.saturating_add(front.seen + own);
    front.count
}

/// The one column of elements that are variants of eight bytes or more, or records of one, where the caps of all cases
/// are masks. Of eight bytes with more cases than two, caps are laid and blended faster than words are chosen by row.
fn word_column(plan: &Plan) -> Option<&Column>
    requires { IsBounded plan.now }
    ensures one { IfSome result (λ c. plan.now.columns.items ≡ c.now ∷ []) }
    ensures whole { IfSome result (λ c. plan.now.plain.size ≡ c.now.rows.size) }
    ensures front { IfSome result (λ c. c.now.at ≡ 0) }
    ensures long { IfSome result (λ c. 8 ≤ c.now.rows.size) }
    ensures short { IfSome result (λ c. c.now.rows.size ≤ 16) }
    ensures few_cases { IfSome result (λ c. c.now.rows.cases ≤ 16) }
    ensures masks { IfSome result (λ c. AreMasks c.now.rows) }
{
    let [column] = plan.columns.as_slice() else {
        return None;
    };
    let size = column.rows.size;
    let is_usual = size > 8 || size == 8 && column.rows.cases == 2;
    if is_usual && size == plan.plain.size && are_masks(&column.rows) {
        Some(column)
    } else {
        None
    }
}

/// Plans a type's values at a place of an element. None for a type that has no plan.
#[cycle(plan_value)]
fn plan_value(table: &Types, ty: ValType, plan: &mut Plan, at: usize) -> Option<()>
    requires inside { IsInside table.now ty }
    requires room { at + size (closed_type table.now ty) ≤ 256 }
    requires blank { IsBlank plan.old.plain.bytes at }
    requires before { AreBefore at plan.old.columns.items }
    ensures { IfSome result (λ _. Plans (closed_type table.now ty) at plan.old plan.new) }
{
    match table.shape_of(ty) {
        Shape::Record(count) => plan_fields(table, ty, count, plan, at),
        Shape::Variant(cases) => plan_variant(table, ty, cases, plan, at),
        _ => plan_plain(table, ty, plan, at),
    }
}

/// Plans the values of a type without variants.
fn plan_plain(table: &Types, ty: ValType, plan: &mut Plan, at: usize) -> Option<()>
    requires inside { IsInside table.now ty }
    requires room { at + size (closed_type table.now ty) ≤ 256 }
    requires blank { IsBlank plan.old.plain.bytes at }
    requires before { AreBefore at plan.old.columns.items }
    ensures { IfSome result (λ _. Plans (closed_type table.now ty) at plan.old plan.new) }
{
    let nodes = fill(table, ty, &mut plan.plain.bytes, at)?;
    plan.plain.nodes = plan.plain.nodes.checked_add(nodes)?;
    Some(())
}

/// Plans the values of a variant of so many cases: a column more.
fn plan_variant(table: &Types, ty: ValType, cases: usize, plan: &mut Plan, at: usize) -> Option<()>
    requires inside { IsInside table.now ty }
    requires variant { variant_type (variant_cases (closed_type table.now ty)) ≡ closed_type table.now ty }
    requires counted { case_count (variant_cases (closed_type table.now ty)) ≡ cases }
    requires blank { IsBlank plan.old.plain.bytes at }
    requires before { AreBefore at plan.old.columns.items }
    ensures { IfSome result (λ _. Plans (closed_type table.now ty) at plan.old plan.new) }
{
    let rows = rows_of(table, ty, cases)?;
    if plan.columns.is_full() {
        return None;
    }
    plan.columns.push(Column { at, rows });
    Some(())
}

/// The next multiple of an alignment. Each has a constant divisor here, so that nothing is divided.
#[inline(always)]
fn aligned(place: usize, align: usize) -> usize
    requires alignment { IsAlignment align }
    requires fits { next_multiple_of place align < 2 ^ 64 }
    ensures { result ≡ next_multiple_of place align }
{
    match align {
        1 => place,
        2 => place.next_multiple_of(2),
        4 => place.next_multiple_of(4),
        _ => place.next_multiple_of(8),
    }
}

/// Plans the values of a record's fields.
#[cycle(plan_value)]
fn plan_fields(table: &Types, ty: ValType, count: usize, plan: &mut Plan, at: usize) -> Option<()>
    requires inside { IsInside table.now ty }
    requires record { record_type (record_fields (closed_type table.now ty)) ≡ closed_type table.now ty }
    requires counted { field_count (record_fields (closed_type table.now ty)) ≡ count }
    requires room { at + size (closed_type table.now ty) ≤ 256 }
    requires blank { IsBlank plan.old.plain.bytes at }
    requires before { AreBefore at plan.old.columns.items }
    ensures { IfSome result (λ _. Plans (closed_type table.now ty) at plan.old plan.new) }
{
    plan.plain.nodes = plan.plain.nodes.checked_add(1)?;
    let mut end: usize = 0;
    for index in 0..count {
        let Some(member) = table.member_type(&Members::Of(ty), index) else {
            unreachable!()
        };
        let place = aligned(end, table.align_of(member));
        plan_value(table, member, plan, at + place)?;
        end = place + table.size_of(member);
    }
    Some(())
}
