//! What stands directly in the types of a package.
ghost use Rattle.std.specs.Prelude.{◌≡◌, ◌+◌, ◌<◌, ◌≤◌, ◌++◌, ◌∷◌, [], length, map, All, IsTrue, IfOk, IfErr};
ghost use Rattle.tables.specs.Tables.{is_below, option_below, kind_below, definition_below};
ghost use Rattle.canonical_abi.specs.Types.{flags_type};
ghost use Rattle.layout.specs.Layout.{row_of, IsSound};
ghost use Rattle.layout.specs.Standing as parts;
ghost use Rattle.layout.specs.Heads.{standing};
ghost use Rattle.layout.specs.Parts.{payloads, final_type, record_parts, variant_parts, kind_parts, definition_parts};
ghost use Rattle.layout.specs.Parts.{is_no_name};
ghost use Rattle.layout.specs.Queries.{shape_by, field_info_by, case_info_by};
ghost use Rattle.layout.specs.Rows.{row_in, rows_at, extent_at, record_row, choices_at, variant_row, list_row};
ghost use Rattle.layout.specs.Rows.{kind_row, definition_row, IsLimitedRow, IsLimitedDefinition};
ghost use Rattle.layout.specs.Rows.{RefusesDeeper, RefusesRow, RefusesDefinition};
ghost use Rattle.layout.specs.Work.{direct_types, laid_in, saturated};

use crate::error::LayoutError;
use crate::queries::{CaseInfo, FieldInfo, Shape};
use crate::rows::{
    MAX_DEPTH, Row, block_row, deeper, flags_row, limited, look, record_row, row_in, variant_row,
};
use crate::work::Steps;
use std::alloc::Global;
use std::marker::Model;
use tables::{Choice, Definition, Member, Resolve, TypeDefKind, ValType};

/// What stands directly in a type, whose fields or payloads lie among those of all types.
#[derive(Drop)]
pub enum Head {
    /// The type is another one, which is no used name and no new name itself.
    Same(ValType),
    /// The type of a list's elements.
    List(ValType),
    /// The place of a record's first field, and the number of its fields.
    Record(usize, usize),
    /// The place of a variant's payload in bytes, the place of its first case, and the number of its cases.
    Variant(u32, usize, usize),
    /// The number of a flags type's labels.
    Flags(usize),
}

/// What stands directly in each definition of a package, in table order.
#[derive(Drop)]
pub struct PartsTable {
    heads: Vec<Head>,
    /// The fields of all records.
    fields: Vec<FieldInfo>,
    /// The payloads of the cases of all variants.
    payloads: Vec<Option<ValType>>,
}

impl Model for PartsTable {
    ghost use Rattle.std.specs.Prelude.{List, All, length, map};
    ghost use Rattle.layout.specs.Standing.{Parts};
    ghost use Rattle.layout.specs.Heads.{parts_by, LiesWithin};

    ghost Value = { List Parts };

    ghost view = { λ t. map (parts_by t.fields.items t.payloads.items) t.heads.items };

    ghost invariant = { λ t. All (LiesWithin (length t.fields.items) (length t.payloads.items)) t.heads.items };
}

/// How many fields and how many payloads stand directly in a definition.
fn counts(definition: &Definition) -> (usize, usize) {
    match definition {
        Definition::Type(definition) => match &definition.kind {
            TypeDefKind::Use(_)
            | TypeDefKind::Alias(_)
            | TypeDefKind::List(_)
            | TypeDefKind::Flags(_) => (0, 0),
            TypeDefKind::Option(_) | TypeDefKind::Result(_, _) => (0, 2),
            TypeDefKind::Tuple(types) => (types.len(), 0),
            TypeDefKind::Record(fields) => (fields.len(), 0),
            TypeDefKind::Variant(cases) => (0, cases.len()),
            TypeDefKind::Enum(names) => (0, names.len()),
        },
        Definition::Function(function) => (function.params.len(), 0),
    }
}

/// How many stand directly in all definitions.
fn all_counts(definitions: &[Definition]) -> (usize, usize) {
    let mut fields: usize = 0;
    let mut payloads: usize = 0;
    for definition in definitions {
        let more = counts(definition);
        fields = fields.saturating_add(more.0);
        payloads = payloads.saturating_add(more.1);
    }
    (fields, payloads)
}

impl PartsTable {
    /// Nothing, with room for what stands in a package.
    pub(crate) fn with_room(alloc: Global, resolve: &Resolve) -> Result<PartsTable, LayoutError>
        ensures ok { IfOk result (λ t. t ≡ []) }
        ensures err { IfErr result (λ e. e ≡ LayoutError.NoMemory) }
    {
        let definitions = resolve.definitions.as_slice();
        let (fields, payloads) = all_counts(definitions);
        Ok(PartsTable {
            heads: Vec::with_capacity(alloc, definitions.len())?,
            fields: Vec::with_capacity(alloc, fields)?,
            payloads: Vec::with_capacity(alloc, payloads)?,
        })
    }

    /// What a type stands for in the end.
    #[inline]
    pub(crate) fn final_type(&self, ty: ValType) -> ValType
        requires { IsTrue (is_below (length self.now) ty) }
        ensures { result ≡ final_type self.now ty }
    {
        match ty {
            ValType::Id(id) => match &self.heads[id.0 as usize] {
                Head::Same(end) => *end,
                _ => ty,
            },
            _ => ty,
        }
    }

    /// The shape of the type at this place, which is no name.
    #[inline]
    pub(crate) fn shape(&self, place: usize) -> Shape
        requires within { place < length self.now }
        requires end { IsTrue (is_no_name (standing self.now place)) }
        ensures { result ≡ shape_by (standing self.now place) }
    {
        match &self.heads[place] {
            Head::Same(_) => unreachable!(),
            Head::List(element) => Shape::List(*element),
            Head::Record(_, count) => Shape::Record(*count),
            Head::Variant(_, _, count) => Shape::Variant(*count),
            Head::Flags(labels) => Shape::Flags(*labels),
        }
    }

    /// A field of the type at this place, with its place in bytes; None where the type has no such field.
    #[inline]
    pub(crate) fn field(&self, place: usize, index: usize) -> Option<FieldInfo>
        requires { place < length self.now }
        ensures { result ≡ field_info_by (standing self.now place) index }
    {
        match &self.heads[place] {
            Head::Record(first, count) if index < *count => Some(self.fields[*first + index]),
            _ => None,
        }
    }

    /// A case of the type at this place; None where the type has no such case.
    #[inline]
    pub(crate) fn case(&self, place: usize, index: usize) -> Option<CaseInfo>
        requires { place < length self.now }
        ensures { result ≡ case_info_by (standing self.now place) index }
    {
        match &self.heads[place] {
            Head::Variant(offset, first, count) if index < *count => Some(CaseInfo {
                place: *offset,
                payload: self.payloads[*first + index],
            }),
            _ => None,
        }
    }

    /// Lays out the members of a record, a tuple or a function, whose depth is at most `most`.
    fn lay_members<M: Member>(
        &mut self,
        rows: &mut Vec<Row>,
        members: &[M],
        most: u32,
        steps: &mut Steps,
    ) -> Result<(), LayoutError>
        requires below { All (λ m. IsTrue (is_below (length rows.old.items) (M.type_of m))) members.now }
        requires sound { All IsSound rows.old.items }
        requires most { most ≤ 65 }
        ensures row { IfOk result (λ _. rows.new.items
            ≡ rows.old.items ++ record_row (rows_at rows.old.items M.type_of members.now) ∷ []) }
        ensures parts { IfOk result (λ _. self.new
            ≡ self.old ++ record_parts (extent_at rows.old.items) (map M.type_of members.now) ∷ []) }
        ensures sound { IfOk result (λ _. IsSound (record_row (rows_at rows.old.items M.type_of members.now))) }
        ensures depth { IfOk result (λ _. (record_row (rows_at rows.old.items M.type_of members.now)).depth ≤ most) }
        ensures steps { IfOk result (λ _. steps.new.count ≡ saturated (steps.old.count + length members.now)) }
        ensures err { IfErr result (λ e. RefusesDeeper most e
            (record_row (rows_at rows.old.items M.type_of members.now))) }
    {
        let first = self.fields.len();
        record_row(&mut self.fields, rows, members, most, steps)?;
        self.heads.push(Head::Record(first, members.len()))?;
        Ok(())
    }

    /// Lays out a variant, an enum, an option or a result.
    #[inline(always)]
    fn lay_variant<C: Choice>(
        &mut self,
        rows: &mut Vec<Row>,
        cases: &[C],
        steps: &mut Steps,
    ) -> Result<(), LayoutError>
        requires below { All (λ c. IsTrue (option_below (length rows.old.items) (C.payload_of c))) cases.now }
        requires sound { All IsSound rows.old.items }
        ensures row { IfOk result (λ _. rows.new.items
            ≡ rows.old.items ++ variant_row (choices_at rows.old.items C.payload_of cases.now) ∷ []) }
        ensures parts { IfOk result (λ _. self.new
            ≡ self.old ++ variant_parts (extent_at rows.old.items) (map C.payload_of cases.now) ∷ []) }
        ensures sound { IfOk result (λ _. IsSound (variant_row (choices_at rows.old.items C.payload_of cases.now))) }
        ensures within { IfOk result (λ _. IsLimitedRow
            (variant_row (choices_at rows.old.items C.payload_of cases.now))) }
        ensures steps { IfOk result (λ _. steps.new.count
            ≡ saturated (steps.old.count + length (payloads (choices_at rows.old.items C.payload_of cases.now)))) }
        ensures err { IfErr result (λ e. RefusesRow e
            (variant_row (choices_at rows.old.items C.payload_of cases.now))) }
    {
        let first = self.payloads.len();
        let payload = variant_row(&mut self.payloads, rows, cases, steps)?;
        self.heads.push(Head::Variant(payload, first, cases.len()))?;
        Ok(())
    }

    /// A used name or a new name.
    fn lay_name(
        &mut self,
        rows: &mut Vec<Row>,
        target: ValType,
        steps: &mut Steps,
    ) -> Result<(), LayoutError>
        requires below { IsTrue (is_below (length rows.old.items) target) }
        requires same { length self.old ≡ length rows.old.items }
        requires sound { All IsSound rows.old.items }
        ensures row { IfOk result (λ _. rows.new.items ≡ rows.old.items ++ row_in rows.old.items target ∷ []) }
        ensures parts { IfOk result (λ _. self.new ≡ self.old ++ parts.Same (final_type self.old target) ∷ []) }
        ensures sound { IfOk result (λ _. IsSound (row_in rows.old.items target)) }
        ensures within { IfOk result (λ _. IsLimitedRow (row_in rows.old.items target)) }
        ensures steps { steps.new.count ≡ saturated (steps.old.count + 1) }
        ensures err { IfErr result (λ e. RefusesRow e (row_in rows.old.items target)) }
    {
        steps.take_one();
        let row = row_in(rows.as_slice(), target);
        limited(&row)?;
        rows.push(row)?;
        let end = self.final_type(target);
        self.heads.push(Head::Same(end))?;
        Ok(())
    }

    /// A list of these elements.
    fn lay_list(
        &mut self,
        rows: &mut Vec<Row>,
        element: ValType,
        steps: &mut Steps,
    ) -> Result<(), LayoutError>
        requires below { IsTrue (is_below (length rows.old.items) element) }
        requires sound { All IsSound rows.old.items }
        ensures row { IfOk result (λ _. rows.new.items
            ≡ rows.old.items ++ list_row (row_in rows.old.items element) ∷ []) }
        ensures parts { IfOk result (λ _. self.new ≡ self.old ++ parts.List element ∷ []) }
        ensures sound { IfOk result (λ _. IsSound (list_row (row_in rows.old.items element))) }
        ensures within { IfOk result (λ _. IsLimitedRow (list_row (row_in rows.old.items element))) }
        ensures steps { steps.new.count ≡ saturated (steps.old.count + 1) }
        ensures err { IfErr result (λ e. RefusesRow e (list_row (row_in rows.old.items element))) }
    {
        let row = block_row(deeper(look(rows.as_slice(), element, steps).depth));
        limited(&row)?;
        rows.push(row)?;
        self.heads.push(Head::List(element))?;
        Ok(())
    }

    /// Flags of so many labels.
    fn lay_flags(&mut self, rows: &mut Vec<Row>, labels: usize) -> Result<(), LayoutError>
        ensures row { IfOk result (λ _. rows.new.items ≡ rows.old.items ++ row_of (flags_type labels) ∷ []) }
        ensures parts { IfOk result (λ _. self.new ≡ self.old ++ parts.Flags labels ∷ []) }
        ensures err { IfErr result (λ e. e ≡ LayoutError.NoMemory) }
    {
        rows.push(flags_row(labels))?;
        self.heads.push(Head::Flags(labels))?;
        Ok(())
    }

    /// A type.
    fn lay_kind(
        &mut self,
        rows: &mut Vec<Row>,
        kind: &TypeDefKind,
        steps: &mut Steps,
    ) -> Result<(), LayoutError>
        requires below { IsTrue (kind_below (length rows.old.items) kind.now) }
        requires same { length self.old ≡ length rows.old.items }
        requires sound { All IsSound rows.old.items }
        ensures row { IfOk result (λ _. rows.new.items ≡ rows.old.items ++ kind_row rows.old.items kind.now ∷ []) }
        ensures parts { IfOk result (λ _. self.new
            ≡ self.old ++ kind_parts (extent_at rows.old.items) self.old kind.now ∷ []) }
        ensures sound { IfOk result (λ _. IsSound (kind_row rows.old.items kind.now)) }
        ensures within { IfOk result (λ _. IsLimitedRow (kind_row rows.old.items kind.now)) }
        ensures steps { IfOk result (λ _. steps.new.count ≡ saturated (steps.old.count + direct_types kind.now)) }
        ensures err { IfErr result (λ e. RefusesRow e (kind_row rows.old.items kind.now)) }
    {
        match kind {
            TypeDefKind::Use(target) => self.lay_name(rows, ValType::Id(*target), steps),
            TypeDefKind::Alias(target) => self.lay_name(rows, *target, steps),
            TypeDefKind::List(element) => self.lay_list(rows, *element, steps),
            TypeDefKind::Option(payload) => self.lay_variant(rows, &[None, Some(*payload)], steps),
            TypeDefKind::Result(ok, error) => self.lay_variant(rows, &[*ok, *error], steps),
            TypeDefKind::Tuple(types) => self.lay_members(rows, types.as_slice(), MAX_DEPTH, steps),
            TypeDefKind::Record(fields) => self.lay_members(
                rows,
                fields.as_slice(),
                MAX_DEPTH,
                steps,
            ),
            TypeDefKind::Variant(cases) => self.lay_variant(rows, cases.as_slice(), steps),
            TypeDefKind::Enum(names) => self.lay_variant(rows, names.as_slice(), steps),
            TypeDefKind::Flags(labels) => self.lay_flags(rows, labels.len()),
        }
    }

    /// Lays out a definition: puts its row and what stands in it behind those before it. A function is laid out as the
    /// record of its parameters.
    pub(crate) fn lay_definition(
        &mut self,
        rows: &mut Vec<Row>,
        definition: &Definition,
        steps: &mut Steps,
    ) -> Result<(), LayoutError>
        requires below { IsTrue (definition_below (length rows.old.items) definition.now) }
        requires same { length self.old ≡ length rows.old.items }
        requires sound { All IsSound rows.old.items }
        ensures row { IfOk result (λ _. rows.new.items
            ≡ rows.old.items ++ definition_row rows.old.items definition.now ∷ []) }
        ensures parts { IfOk result (λ _. self.new
            ≡ self.old ++ definition_parts (extent_at rows.old.items) self.old definition.now ∷ []) }
        ensures sound { IfOk result (λ _. IsSound (definition_row rows.old.items definition.now)) }
        ensures within { IfOk result (λ _. IsLimitedDefinition definition.now
            (definition_row rows.old.items definition.now)) }
        ensures steps { IfOk result (λ _. steps.new.count
            ≡ saturated (steps.old.count + (1 + laid_in definition.now))) }
        ensures err { IfErr result (λ e. RefusesDefinition e definition.now
            (definition_row rows.old.items definition.now)) }
    {
        steps.take_one();
        match definition {
            Definition::Type(definition) => self.lay_kind(rows, &definition.kind, steps),
            Definition::Function(function) => {
                self.lay_members(rows, function.params.as_slice(), MAX_DEPTH + 1, steps)
            }
        }
    }
}
