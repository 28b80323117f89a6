//! The layout table of a package.
ghost use Rattle.std.specs.Prelude.{◌≡◌, ◌+◌, ◌↔◌, ◌<◌, ◌++◌, ◌∷◌, [], length, map, fold, option_map, slice_get};
ghost use Rattle.std.specs.Prelude.{All, IsTrue, IfOk, IfErr, Some};
ghost use Rattle.tables.specs.declared.tables.Resolve.{Resolve};
ghost use Rattle.tables.specs.Closed.{closed_types, closed_type, function_type, IsFunction};
ghost use Rattle.tables.specs.Tables.{is_below};
ghost use Rattle.canonical_abi.specs.Types.{fields_of, record_fields};
ghost use Rattle.canonical_abi.specs.Layout.{extent_of, size, align, field_kinds, field_places, lifted_signature};
ghost use Rattle.canonical_abi.specs.Layout.{lowered_signature};
ghost use Rattle.canonical_abi.specs.Reading.{kind_of};
ghost use Rattle.layout.specs.Kinds.{kinds_of, count_of, append_kinds};
ghost use Rattle.layout.specs.Layout.{row_of, result_of, layouts_of, results_of, core_signature_of, RefusesFirst};
ghost use Rattle.layout.specs.Layout.{AreWithin, IsSound};
ghost use Rattle.layout.specs.Parts.{parts_from, AreEnded, final_type, is_end};
ghost use Rattle.layout.specs.Named.{OfNamed, own_shape, own_member, own_case};
ghost use Rattle.layout.specs.Queries.{shape_of, field_info_of, case_info_of, IsShaped, TellsField, TellsCase};
ghost use Rattle.layout.specs.Rows.{rows_at, definition_result, result_below};
ghost use Rattle.layout.specs.Work.{laid_work, results_work, results_in, total_work, saturated};

use crate::error::LayoutError;
use crate::kinds::Kinds;
use crate::packed_kinds::PackedKinds;
use crate::parts::PartsTable;
use crate::queries::{CaseInfo, FieldInfo, Shape};
use crate::rows::{Row, count_in, primitive_kind, row_in};
use crate::signature::{
    CoreSignature, are_lowered, lifted_of, lowered_of, passed_count, result_of,
};
use crate::work::Steps;
use canonical_abi::{CoreKind, Flat};
use std::alloc::Global;
use std::fmt;
use std::marker::Model;
use tables::{Definition, FunctionId, Resolve, ValType};

/// The rows of a package's definitions, in table order, and what stands directly in each.
#[derive(Drop)]
struct Tables {
    rows: Vec<Row>,
    parts: PartsTable,
}

fn lay_all(alloc: Global, resolve: &Resolve, steps: &mut Steps) -> Result<Tables, LayoutError>
    ensures rows { IfOk result (λ t. t.rows.items ≡ map row_of (closed_types resolve.now)) }
    ensures parts { IfOk result (λ t. t.parts
        ≡ parts_from (λ v. extent_of (closed_type resolve.now v)) [] resolve.now.definitions) }
    ensures sound { IfOk result (λ t. All IsSound t.rows.items) }
    ensures ended { IfOk result (λ t. AreEnded t.parts) }
    ensures within { IfOk result (λ _. AreWithin resolve.now) }
    ensures steps { IfOk result (λ t. steps.new.count
        ≡ saturated (steps.old.count + laid_work resolve.now.definitions)) }
    ensures err { IfErr result (λ e. RefusesFirst e resolve.now) }
{
    let count = resolve.definitions.len();
    let mut rows = Vec::with_capacity(alloc, count)?;
    let mut parts = PartsTable::with_room(alloc, resolve)?;
    for definition in resolve.definitions.as_slice() {
        parts.lay_definition(&mut rows, definition, steps)?;
    }
    Ok(Tables { rows, parts })
}

/// Puts the kinds of a function's result behind the others, and none of a type.
fn push_result(
    results: &mut Vec<PackedKinds>,
    rows: &[Row],
    definition: &Definition,
    steps: &mut Steps,
) -> Result<(), LayoutError>
    requires below { IsTrue (result_below (length rows.now) definition.now) }
    requires sound { All IsSound rows.now }
    ensures ok { IfOk result (λ _. results.new.items
        ≡ results.old.items ++ definition_result rows.now definition.now ∷ []) }
    ensures steps { IfOk result (λ _. steps.new.count ≡ saturated (steps.old.count + results_in definition.now)) }
    ensures err { IfErr result (λ e. e ≡ LayoutError.NoMemory) }
{
    match definition {
        Definition::Type(_) => results.push(PackedKinds::none())?,
        Definition::Function(function) => match function.result {
            Some(ty) => {
                steps.take_one();
                results.push(row_in(rows, ty).kinds)?
            }
            None => results.push(PackedKinds::none())?,
        },
    }
    Ok(())
}

/// The kinds of the results of a package's functions.
fn all_results(
    alloc: Global,
    resolve: &Resolve,
    rows: &[Row],
    steps: &mut Steps,
) -> Result<Vec<PackedKinds>, LayoutError>
    requires rows { rows.now ≡ map row_of (closed_types resolve.now) }
    requires sound { All IsSound rows.now }
    ensures ok { IfOk result (λ results. results.items
        ≡ map (result_of (closed_types resolve.now)) resolve.now.definitions) }
    ensures steps { IfOk result (λ t. steps.new.count
        ≡ saturated (steps.old.count + results_work resolve.now.definitions)) }
    ensures err { IfErr result (λ e. e ≡ LayoutError.NoMemory) }
{
    let mut results = Vec::with_capacity(alloc, rows.len())?;
    for definition in resolve.definitions.as_slice() {
        push_result(&mut results, rows, definition, steps)?;
    }
    Ok(results)
}

/// The kinds of these types side by side.
fn side_by_side(rows: &[Row], types: &[ValType]) -> PackedKinds
    requires below { All (λ v. IsTrue (is_below (length rows.now) v)) types.now }
    requires sound { All IsSound rows.now }
    ensures { result ≡ fold (λ ks r. append_kinds ks r.kinds) (kinds_of []) (rows_at rows.now (λ v. v) types.now) }
{
    let mut kinds = PackedKinds::none();
    for ty in types {
        kinds.append(&row_in(rows, *ty).kinds);
    }
    kinds
}

/// The layout table of a package.
#[derive(Drop)]
pub struct Layouts {
    rows: Vec<Row>,
    /// The flat kinds of each function's result; none at a type's place.
    results: Vec<PackedKinds>,
    parts: PartsTable,
    work: u64,
}

impl Model for Layouts {
    ghost use Rattle.std.specs.Prelude.{◌≡◌, All, length};
    ghost use Rattle.layout.specs.Layout.{LayoutTable, IsSound};
    ghost use Rattle.layout.specs.Parts.{AreEnded};

    ghost Value = { LayoutTable };

    ghost view = { λ l. record {
      rows = l.rows.items;
      results = l.results.items;
      parts = l.parts;
      work = l.work;
    } };

    ghost invariant = { λ l. All IsSound l.rows.items × (length l.results.items ≡ length l.rows.items)
        × (length l.parts ≡ length l.rows.items) × AreEnded l.parts };
}

impl fmt::Debug for Layouts {
    fn fmt<W: fmt::Write>(&self, f: &mut fmt::Formatter<W>) -> fmt::Result {
        f.debug_struct("Layouts").finish_non_exhaustive()
    }
}

impl Layouts {
    /// Lays out the definitions of a package in turn, each from those before it. 51 or 50 stands for the first
    /// definition that is too deep or too large; 51 comes first where it is both.
    pub fn of(alloc: Global, resolve: &Resolve) -> Result<Layouts, LayoutError>
        ensures ok { IfOk result (λ l. l ≡ layouts_of resolve.now) }
        ensures within { IfOk result (λ _. AreWithin resolve.now) }
        ensures err { IfErr result (λ e. RefusesFirst e resolve.now) }
    {
        let mut steps = Steps { count: 0 };
        let tables = lay_all(alloc, resolve, &mut steps)?;
        let results = all_results(alloc, resolve, tables.rows.as_slice(), &mut steps)?;
        Ok(Layouts {
            rows: tables.rows,
            results,
            parts: tables.parts,
            work: steps.count,
        })
    }

    /// Whether the type stands in the table.
    pub fn has(&self, ty: ValType) -> bool
        ensures { result ≡ is_below (length self.now.rows) ty }
    {
        match ty {
            ValType::Primitive(_) | ValType::String => true,
            ValType::Id(id) => (id.0 as usize) < self.rows.len(),
        }
    }

    /// Whether the place of the function is in the table.
    pub fn has_function(&self, func: FunctionId) -> bool
        ensures { IsTrue result ↔ (func.0 < length self.now.rows) }
    {
        (func.0 as usize) < self.rows.len()
    }

    /// The size of a type of the package, in bytes.
    pub fn size(&self, ty: ValType) -> u32
        requires { IsTrue (is_below (length self.now.rows) ty) }
        ensures { (r : Resolve) → self.now ≡ layouts_of r → result ≡ size (closed_type r ty) }
    {
        row_in(self.rows.as_slice(), ty).size
    }

    /// The alignment of a type of the package, in bytes.
    pub fn align(&self, ty: ValType) -> u32
        requires { IsTrue (is_below (length self.now.rows) ty) }
        ensures { (r : Resolve) → self.now ≡ layouts_of r → result ≡ align (closed_type r ty) }
    {
        row_in(self.rows.as_slice(), ty).align
    }

    /// The flat kinds of these types side by side, where they are at most sixteen.
    pub fn flat(&self, types: &[ValType]) -> Kinds
        requires { All (λ v. IsTrue (is_below (length self.now.rows) v)) types.now }
        ensures { (r : Resolve) → self.now ≡ layouts_of r
            → result ≡ kinds_of (field_kinds (fields_of (map (closed_type r) types.now))) }
    {
        match types {
            [ValType::Primitive(primitive)] => PackedKinds::one(primitive_kind(
                *primitive,
            )).unpacked(),
            _ => side_by_side(self.rows.as_slice(), types).unpacked(),
        }
    }

    /// How many flat values carry these types side by side, where they are at most sixteen: those of `flat`, which this
    /// doesn't make.
    pub fn flat_count(&self, types: &[ValType]) -> Option<usize>
        requires { All (λ v. IsTrue (is_below (length self.now.rows) v)) types.now }
        ensures { (r : Resolve) → self.now ≡ layouts_of r
            → result ≡ count_of (kinds_of (field_kinds (fields_of (map (closed_type r) types.now)))) }
    {
        match types {
            [] => Some(0),
            [ty] => count_in(self.rows.as_slice(), *ty),
            _ => side_by_side(self.rows.as_slice(), types).count(),
        }
    }

    /// The core signature of the callee's function.
    pub fn lifted(&self, func: FunctionId) -> CoreSignature
        requires { func.0 < length self.now.rows }
        ensures { (r : Resolve) → self.now ≡ layouts_of r → IsFunction r func
            → core_signature_of result ≡ lifted_signature (function_type r func) }
    {
        let place = func.0 as usize;
        lifted_of(&self.rows[place].kinds, &self.results[place])
    }

    /// The core signature of the caller's import.
    pub fn lowered(&self, func: FunctionId) -> CoreSignature
        requires { func.0 < length self.now.rows }
        ensures { (r : Resolve) → self.now ≡ layouts_of r → IsFunction r func
            → core_signature_of result ≡ lowered_signature (function_type r func) }
    {
        let place = func.0 as usize;
        lowered_of(&self.rows[place].kinds, &self.results[place])
    }

    /// Whether the flat values are what the caller's import takes: those of `lowered`, which this doesn't make.
    pub fn takes(&self, func: FunctionId, flats: &[Flat]) -> bool
        requires { func.0 < length self.now.rows }
        ensures { (r : Resolve) → self.now ≡ layouts_of r → IsFunction r func
            → IsTrue result ↔ (map kind_of flats.now ≡ (lowered_signature (function_type r func)).params) }
    {
        let place = func.0 as usize;
        are_lowered(&self.rows[place].kinds, &self.results[place], flats)
    }

    /// How many core values the callee's function takes: as many as `lifted` has.
    pub fn lifted_count(&self, func: FunctionId) -> usize
        requires { func.0 < length self.now.rows }
        ensures { (r : Resolve) → self.now ≡ layouts_of r → IsFunction r func
            → result ≡ length (lifted_signature (function_type r func)).params }
    {
        passed_count(&self.rows[func.0 as usize].kinds)
    }

    /// The core value that the callee's function answers, if any.
    pub fn lifted_result(&self, func: FunctionId) -> Option<CoreKind>
        requires { func.0 < length self.now.rows }
        ensures { (r : Resolve) → self.now ≡ layouts_of r → IsFunction r func
            → results_of result ≡ (lifted_signature (function_type r func)).results }
    {
        result_of(&self.results[func.0 as usize])
    }

    /// How many steps the table took, as they were counted while it was made: one for each definition, and one
    /// for the row of each type that stands directly in one. It is the greatest u64 if they are more.
    pub fn work(&self) -> u64
        ensures { (r : Resolve) → self.now ≡ layouts_of r → result ≡ saturated (total_work r.definitions) }
    {
        self.work
    }

    /// What a type stands for in the end.
    fn final_type(&self, ty: ValType) -> ValType
        requires { IsTrue (is_below (length self.now.rows) ty) }
        ensures value { result ≡ final_type self.now.parts ty }
        ensures below { IsTrue (is_below (length self.now.rows) result) }
        ensures end { IsTrue (is_end self.now.parts result) }
    {
        self.parts.final_type(ty)
    }

    fn shape_of(&self, end: ValType) -> Shape
        requires below { IsTrue (is_below (length self.now.rows) end) }
        requires end { IsTrue (is_end self.now.parts end) }
        ensures { result ≡ shape_of self.now.parts end }
    {
        match end {
            ValType::Primitive(primitive) => Shape::Primitive(primitive),
            ValType::String => Shape::String,
            ValType::Id(id) => self.parts.shape(id.0 as usize),
        }
    }

    fn field_of(&self, end: ValType, index: usize) -> Option<FieldInfo>
        requires { IsTrue (is_below (length self.now.rows) end) }
        ensures { result ≡ field_info_of self.now.parts end index }
    {
        match end {
            ValType::Id(id) => self.parts.field(id.0 as usize, index),
            _ => None,
        }
    }

    fn case_of(&self, end: ValType, index: usize) -> Option<CaseInfo>
        requires { IsTrue (is_below (length self.now.rows) end) }
        ensures { result ≡ case_info_of self.now.parts end index }
    {
        match end {
            ValType::Id(id) => self.parts.case(id.0 as usize, index),
            _ => None,
        }
    }

    /// The shape of a type of the package.
    pub fn shape(&self, ty: ValType) -> Shape
        requires { IsTrue (is_below (length self.now.rows) ty) }
        ensures shape { (r : Resolve) → self.now ≡ layouts_of r
            → IsShaped (closed_type r) (length self.now.rows) (closed_type r ty) result }
        ensures own { (r : Resolve) → self.now ≡ layouts_of r
            → OfNamed r ty (λ e. own_shape r.definitions e ≡ Some result) }
    {
        self.shape_of(self.final_type(ty))
    }

    /// A field of a record or a tuple, with its place; None where the type has no such field.
    pub fn field(&self, ty: ValType, index: usize) -> Option<FieldInfo>
        requires { IsTrue (is_below (length self.now.rows) ty) }
        ensures told { (r : Resolve) → self.now ≡ layouts_of r
            → TellsField (closed_type r) (length self.now.rows) (closed_type r ty) index result }
        ensures own { (r : Resolve) → self.now ≡ layouts_of r
            → OfNamed r ty (λ e. own_member r.definitions e index ≡ option_map (λ f. f.ty) result) }
    {
        self.field_of(self.final_type(ty), index)
    }

    /// The place of a field in bytes; None where the type has no such field.
    pub fn field_offset(&self, ty: ValType, index: usize) -> Option<u32>
        requires { IsTrue (is_below (length self.now.rows) ty) }
        ensures { (r : Resolve) → self.now ≡ layouts_of r
            → result ≡ slice_get (field_places (record_fields (closed_type r ty))) index }
    {
        match self.field(ty, index) {
            Some(field) => Some(field.offset),
            None => None,
        }
    }

    /// A case of a variant, an enum, an option or a result; None where the type has no such case.
    pub fn case_info(&self, ty: ValType, index: usize) -> Option<CaseInfo>
        requires { IsTrue (is_below (length self.now.rows) ty) }
        ensures told { (r : Resolve) → self.now ≡ layouts_of r
            → TellsCase (closed_type r) (length self.now.rows) (closed_type r ty) index result }
        ensures own { (r : Resolve) → self.now ≡ layouts_of r
            → OfNamed r ty (λ e. own_case r.definitions e index ≡ option_map (λ c. c.payload) result) }
    {
        self.case_of(self.final_type(ty), index)
    }
}
