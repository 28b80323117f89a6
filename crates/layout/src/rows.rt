//! The row of a definition, by the rows of the definitions before it.
ghost use Rattle.std.specs.Prelude.{◌≡◌, ◌+◌, ◌≤◌, ◌++◌, ◌∷◌, [], map, length, drop};
ghost use Rattle.std.specs.Prelude.{All, IsTrue, IfOk, IfErr};
ghost use Rattle.std.specs.Int.{next_multiple_of};
ghost use Rattle.canonical_abi.specs.Types.{prim_type, string_type, flags_type};
ghost use Rattle.canonical_abi.specs.Layout.{size, align, flat_kinds, discriminant_size, places_from, payload_at};
ghost use Rattle.tables.specs.Closed.{prim_of};
ghost use Rattle.tables.specs.Tables.{is_below, option_below};
ghost use Rattle.layout.specs.Kinds.{count_of};
ghost use Rattle.layout.specs.Layout.{row_of, capped, IsSound, max_size};
ghost use Rattle.layout.specs.Heads.{AreAdded, field_types, field_offsets};
ghost use Rattle.layout.specs.Parts.{payloads};
ghost use Rattle.layout.specs.Rows.{row_in, rows_at, extents, record_row, choices_at, variant_row, number_row};
ghost use Rattle.layout.specs.Rows.{empty_row, row_with, joined_rows, tagged_row, AreLaid, AreJoined};
ghost use Rattle.layout.specs.Rows.{IsKeptRow, IsLimitedRow, RefusesDeeper, RefusesRow};
ghost use Rattle.layout.specs.Work.{saturated};

use crate::error::LayoutError;
use crate::packed_kinds::PackedKinds;
use crate::queries::FieldInfo;
use crate::work::Steps;
use canonical_abi::CoreKind;
use tables::{Choice, Member, Primitive, ValType};

/// The greatest depth of a type.
pub const MAX_DEPTH: u32 = 64;

/// The greatest size of a type, in bytes.
pub const MAX_SIZE: u32 = 16_777_216;

/// What the layout table has for a definition.
#[derive(Drop)]
pub struct Row {
    /// How deep types stand in it, itself counted; 65 where it is deeper than 64.
    pub depth: u32,
    /// Its size in memory, in bytes.
    pub size: u32,
    /// Its alignment in memory, in bytes.
    pub align: u32,
    /// The flat kinds that carry it.
    pub kinds: PackedKinds,
}

impl Row {
    /// No bytes, aligned to one, and no kinds.
    fn empty() -> Row
        ensures { result ≡ empty_row }
    {
        Row {
            depth: 0,
            size: 0,
            align: 1,
            kinds: PackedKinds::none(),
        }
    }

    /// Puts a field at that offset, where this row is that of the fields before it.
    #[inline]
    fn follow(&mut self, offset: u32, field: &Row)
        requires place { offset ≤ 33554432 }
        requires size { field.now.size ≤ max_size }
        ensures { self.new ≡ row_with self.old offset field.now }
    {
        self.depth = self.depth.max(field.depth);
        self.size = (offset + field.size).min(MAX_SIZE + 1);
        self.align = self.align.max(field.align);
        self.kinds.append(&field.kinds);
    }

    /// Makes room for that payload, where this row is that of the payloads so far.
    #[inline]
    fn join(&mut self, payload: &Row)
        ensures { self.new ≡ joined_rows self.old payload.now }
    {
        self.depth = self.depth.max(payload.depth);
        self.size = self.size.max(payload.size);
        self.align = self.align.max(payload.align);
        self.kinds.join(&payload.kinds);
    }
}

/// The depth of what has something of this depth in it.
pub(crate) fn deeper(depth: u32) -> u32
    requires { depth ≤ 65 }
    ensures { result ≡ capped (depth + 1) }
{
    (depth + 1).min(MAX_DEPTH + 1)
}

fn align_up(place: u32, align: u32) -> u32
    requires place { place ≤ 33554432 }
    requires least { 1 ≤ align }
    requires most { align ≤ 8 }
    ensures value { result ≡ next_multiple_of place align }
    ensures below { place ≤ result }
    ensures above { result ≤ place + 7 }
{
    place.next_multiple_of(align)
}

/// A number of so many bytes, which is aligned to its size.
fn number_row(bytes: u32, kind: CoreKind) -> Row
    ensures { result ≡ number_row bytes kind }
{
    Row {
        depth: 1,
        size: bytes,
        align: bytes,
        kinds: PackedKinds::one(kind),
    }
}

/// The bytes of a number, which is aligned to its size.
fn primitive_bytes(primitive: Primitive) -> u32
    ensures size { result ≡ size (prim_type (prim_of primitive)) }
    ensures align { result ≡ align (prim_type (prim_of primitive)) }
{
    match primitive {
        Primitive::Bool | Primitive::S8 | Primitive::U8 => 1,
        Primitive::S16 | Primitive::U16 => 2,
        Primitive::S32 | Primitive::U32 | Primitive::Char => 4,
        Primitive::S64 | Primitive::U64 => 8,
    }
}

/// The flat kind that carries a number.
pub(crate) fn primitive_kind(primitive: Primitive) -> CoreKind
    ensures { result ∷ [] ≡ flat_kinds (prim_type (prim_of primitive)) }
{
    match primitive {
        Primitive::S64 | Primitive::U64 => CoreKind::I64,
        _ => CoreKind::I32,
    }
}

/// An address and a length.
pub(crate) fn block_row(depth: u32) -> Row
    ensures { result ≡ record (row_of string_type) { depth = depth } }
{
    let mut kinds = PackedKinds::one(CoreKind::I32);
    kinds.append(&PackedKinds::one(CoreKind::I32));
    Row {
        depth,
        size: 8,
        align: 4,
        kinds,
    }
}

pub(crate) fn flags_row(labels: usize) -> Row
    ensures { result ≡ row_of (flags_type labels) }
{
    let bytes = if labels <= 8 {
        1
    } else if labels <= 16 {
        2
    } else {
        4
    };
    number_row(bytes, CoreKind::I32)
}

/// The row of a type.
#[inline(always)]
pub(crate) fn row_in(rows: &[Row], ty: ValType) -> Row
    requires below { IsTrue (is_below (length rows.now) ty) }
    requires sound { All IsSound rows.now }
    ensures value { result ≡ row_in rows.now ty }
    ensures sound { IsSound result }
{
    match ty {
        ValType::Primitive(primitive) => number_row(
            primitive_bytes(primitive),
            primitive_kind(primitive),
        ),
        ValType::String => block_row(1),
        ValType::Id(id) => {
            let row = &rows[id.0 as usize];
            Row {
                depth: row.depth,
                size: row.size,
                align: row.align,
                kinds: row.kinds.copy(),
            }
        }
    }
}

/// How many flat values carry a type, without its row.
pub(crate) fn count_in(rows: &[Row], ty: ValType) -> Option<usize>
    requires { IsTrue (is_below (length rows.now) ty) }
    ensures { result ≡ count_of (row_in rows.now ty).kinds }
{
    match ty {
        ValType::Primitive(_) => Some(1),
        ValType::String => Some(2),
        ValType::Id(id) => rows[id.0 as usize].kinds.count(),
    }
}

/// The row of a type that stands directly in a definition whose row is made, which is one step.
pub(crate) fn look(rows: &[Row], ty: ValType, steps: &mut Steps) -> Row
    requires below { IsTrue (is_below (length rows.now) ty) }
    requires sound { All IsSound rows.now }
    ensures value { result ≡ row_in rows.now ty }
    ensures sound { IsSound result }
    ensures steps { steps.new.count ≡ saturated (steps.old.count + 1) }
{
    steps.take_one();
    row_in(rows, ty)
}

/// Puts the fields of a record behind those that are there. What it answers has their greatest depth and alignment, the
/// bytes up to the end of the last one, and their kinds; one byte above the greatest size stands for more.
#[inline]
fn laid_fields<M: Member>(
    fields: &mut Vec<FieldInfo>,
    rows: &[Row],
    members: &[M],
    steps: &mut Steps,
) -> Result<Row, LayoutError>
    requires below { All (λ m. IsTrue (is_below (length rows.now) (M.type_of m))) members.now }
    requires sound { All IsSound rows.now }
    ensures laid { IfOk result (λ r. AreLaid (rows_at rows.now M.type_of members.now) r
        (field_offsets (drop (length fields.old.items) fields.new.items))) }
    ensures types { IfOk result (λ _. field_types (drop (length fields.old.items) fields.new.items)
        ≡ map M.type_of members.now) }
    ensures kept { fields.new.items ≡ fields.old.items ++ drop (length fields.old.items) fields.new.items }
    ensures steps { IfOk result (λ _. steps.new.count ≡ saturated (steps.old.count + length members.now)) }
    ensures err { IfErr result (λ e. e ≡ LayoutError.NoMemory) }
{
    let mut laid = Row::empty();
    for member in members {
        let ty = member.ty();
        let row = look(rows, ty, steps);
        let offset = align_up(laid.size, row.align);
        fields.push(FieldInfo { ty, offset })?;
        laid.follow(offset, &row);
    }
    Ok(laid)
}

/// Puts the row of a record, whose depth is at most `most`, and its fields behind those that are there.
pub(crate) fn record_row<M: Member>(
    fields: &mut Vec<FieldInfo>,
    rows: &mut Vec<Row>,
    members: &[M],
    most: u32,
    steps: &mut Steps,
) -> Result<(), LayoutError>
    requires below { All (λ m. IsTrue (is_below (length rows.old.items) (M.type_of m))) members.now }
    requires sound { All IsSound rows.old.items }
    requires most { most ≤ 65 }
    ensures row { IfOk result (λ _. rows.new.items
        ≡ rows.old.items ++ record_row (rows_at rows.old.items M.type_of members.now) ∷ []) }
    ensures fields { IfOk result (λ _. AreAdded fields.old.items fields.new.items (map M.type_of members.now)
        (places_from 0 (extents (rows_at rows.old.items M.type_of members.now)))) }
    ensures kept { length fields.old.items ≤ length fields.new.items }
    ensures sound { IfOk result (λ _. IsSound (record_row (rows_at rows.old.items M.type_of members.now))) }
    ensures depth { IfOk result (λ _. (record_row (rows_at rows.old.items M.type_of members.now)).depth ≤ most) }
    ensures steps { IfOk result (λ _. steps.new.count ≡ saturated (steps.old.count + length members.now)) }
    ensures err { IfErr result (λ e. RefusesDeeper most e (record_row (rows_at rows.old.items M.type_of members.now))) }
{
    let laid = laid_fields(fields, rows.as_slice(), members, steps)?;
    let depth = deeper(laid.depth);
    if depth > most {
        return Err(LayoutError::TooDeep);
    }
    let size = align_up(laid.size, laid.align);
    if size > MAX_SIZE {
        return Err(LayoutError::TooLarge);
    }
    rows.push(Row {
        depth,
        size,
        align: laid.align,
        kinds: laid.kinds,
    })?;
    Ok(())
}

/// The bytes of a discriminant of so many cases.
fn discriminant_size(cases: usize) -> u32
    ensures value { result ≡ discriminant_size cases }
    ensures least { 1 ≤ result }
    ensures most { result ≤ 4 }
{
    if cases <= 256 {
        1
    } else if cases <= 65536 {
        2
    } else {
        4
    }
}

/// Puts the payloads of these cases behind those that are there. What it answers has their greatest depth, size and
/// alignment, and their kinds joined.
#[inline(always)]
fn joined_payloads<C: Choice>(
    all_payloads: &mut Vec<Option<ValType>>,
    rows: &[Row],
    cases: &[C],
    steps: &mut Steps,
) -> Result<Row, LayoutError>
    requires below { All (λ c. IsTrue (option_below (length rows.now) (C.payload_of c))) cases.now }
    requires sound { All IsSound rows.now }
    ensures joined { IfOk result (λ r. AreJoined (payloads (choices_at rows.now C.payload_of cases.now)) r) }
    ensures payloads { IfOk result (λ _. all_payloads.new.items
        ≡ all_payloads.old.items ++ map C.payload_of cases.now) }
    ensures kept { length all_payloads.old.items ≤ length all_payloads.new.items }
    ensures steps { IfOk result (λ _. steps.new.count ≡ saturated
        (steps.old.count + length (payloads (choices_at rows.now C.payload_of cases.now)))) }
    ensures err { IfErr result (λ e. e ≡ LayoutError.NoMemory) }
{
    let mut joined = Row::empty();
    for case in cases {
        let payload = case.payload();
        all_payloads.push(payload)?;
        if let Some(payload) = payload {
            joined.join(&look(rows, payload, steps));
        }
    }
    Ok(joined)
}

/// The row of a variant, by the bytes of its discriminant, the place of its payload, and what its payloads come to.
fn tagged(discriminant: u32, place: u32, joined: &Row) -> Row
    requires discriminant { discriminant ≤ 4 }
    requires place { place ≤ 16 }
    requires least { 1 ≤ joined.now.align }
    requires most { joined.now.align ≤ 8 }
    requires size { joined.now.size ≤ max_size }
    requires depth { joined.now.depth ≤ 65 }
    ensures value { result ≡ tagged_row discriminant place joined.now }
    ensures kept { IsKeptRow result }
{
    let align = discriminant.max(joined.align);
    let mut kinds = PackedKinds::one(CoreKind::I32);
    kinds.append(&joined.kinds);
    Row {
        depth: deeper(joined.depth),
        size: align_up(place + joined.size, align),
        align,
        kinds,
    }
}

/// Puts the row of a variant and the payloads of its cases behind those that are there; the place of its payload.
#[inline(always)]
pub(crate) fn variant_row<C: Choice>(
    all_payloads: &mut Vec<Option<ValType>>,
    rows: &mut Vec<Row>,
    cases: &[C],
    steps: &mut Steps,
) -> Result<u32, LayoutError>
    requires below { All (λ c. IsTrue (option_below (length rows.old.items) (C.payload_of c))) cases.now }
    requires sound { All IsSound rows.old.items }
    ensures value { IfOk result (λ _. rows.new.items
        ≡ rows.old.items ++ variant_row (choices_at rows.old.items C.payload_of cases.now) ∷ []) }
    ensures place { IfOk result (λ x. x ≡ payload_at (length cases.now)
        (extents (payloads (choices_at rows.old.items C.payload_of cases.now)))) }
    ensures payloads { IfOk result (λ _. all_payloads.new.items
        ≡ all_payloads.old.items ++ map C.payload_of cases.now) }
    ensures kept { length all_payloads.old.items ≤ length all_payloads.new.items }
    ensures sound { IfOk result (λ _. IsSound (variant_row (choices_at rows.old.items C.payload_of cases.now))) }
    ensures within { IfOk result (λ _. IsLimitedRow (variant_row (choices_at rows.old.items C.payload_of cases.now))) }
    ensures steps { IfOk result (λ _. steps.new.count ≡ saturated
        (steps.old.count + length (payloads (choices_at rows.old.items C.payload_of cases.now)))) }
    ensures err { IfErr result (λ e. RefusesRow e (variant_row (choices_at rows.old.items C.payload_of cases.now))) }
{
    let joined = joined_payloads(all_payloads, rows.as_slice(), cases, steps)?;
    let discriminant = discriminant_size(cases.len());
    let payload = align_up(discriminant, joined.align);
    let row = tagged(discriminant, payload, &joined);
    limited(&row)?;
    rows.push(row)?;
    Ok(payload)
}

/// Refuses a row that is not within the limits of a type.
pub(crate) fn limited(row: &Row) -> Result<(), LayoutError>
    requires { IsKeptRow row.now }
    ensures sound { IfOk result (λ _. IsSound row.now) }
    ensures within { IfOk result (λ _. IsLimitedRow row.now) }
    ensures err { IfErr result (λ e. RefusesRow e row.now) }
{
    if row.depth > MAX_DEPTH {
        return Err(LayoutError::TooDeep);
    }
    if row.size > MAX_SIZE {
        return Err(LayoutError::TooLarge);
    }
    Ok(())
}
