//! The core signatures of functions, and whether two functions are called alike.
ghost use Rattle.std.specs.Prelude.{◌≡◌, IfOk, IfSome, IsTrue, ◌↔◌};
ghost use Rattle.canonical_abi.specs.Layout.{lifted_signature, lowered_signature};
ghost use Rattle.layout.specs.Layout.{core_signature_of, layouts_of};
ghost use Rattle.package_diff.specs.Calls.{AreCalledAlike, HaveSameSignatures};
ghost use Rattle.package_diff.specs.Shapes.{AreRowsOf};
ghost use Rattle.tables.specs.Closed.{function_type};

use crate::shapes::{RowShape, Shapes};
use atoms::KeyedState;
use layout::{CoreSignature, Layouts};
use layout_picture::push_signature;
use std::alloc::{AllocError, Global};
use tables::{FunctionId, Resolve};
use text_builder::TextBuilder;

/// A table with its layouts.
#[derive(Clone, Copy)]
pub struct Side<'a> {
    pub(crate) table: &'a Resolve,
    layouts: &'a Layouts,
    ghost laid_out: { layouts.now ≡ layouts_of table.now },
}

/// The old table and the new one, with the shapes of their rows.
#[derive(Drop)]
pub struct Versions<'a> {
    pub(crate) old: Side<'a>,
    pub(crate) new: Side<'a>,
    shapes: Shapes,
    pub(crate) old_rows: Vec<RowShape>,
    pub(crate) new_rows: Vec<RowShape>,
    ghost old_stands: { ∥ AreRowsOf shapes.known.keys old.table.now old_rows.items ∥₁ },
    ghost new_stands: { ∥ AreRowsOf shapes.known.keys new.table.now new_rows.items ∥₁ },
}

/// The core signatures of a function: of the callee's function, and of the caller's import.
#[derive(Drop)]
pub struct Signatures {
    lifted: CoreSignature,
    lowered: CoreSignature,
}

impl<'a> Side<'a> {
    /// A table with its layouts.
    pub fn new(table: &'a Resolve, layouts: &'a Layouts) -> Side<'a>
        requires { layouts.now ≡ layouts_of table.now }
        ensures { result.table.now ≡ table.now }
    {
        Side { table, layouts }
    }

    /// The core signatures of a function. None if it is no function of the table.
    pub(crate) fn signatures(&self, id: FunctionId) -> Option<Signatures>
        ensures lifted { IfSome result (λ s. core_signature_of s.lifted
            ≡ lifted_signature (function_type self.now.table.now id)) }
        ensures lowered { IfSome result (λ s. core_signature_of s.lowered
            ≡ lowered_signature (function_type self.now.table.now id)) }
    {
        if !self.layouts.has_function(id) || !self.table.is_function(id) {
            return None;
        }
        Some(Signatures {
            lifted: self.layouts.lifted(id),
            lowered: self.layouts.lowered(id),
        })
    }
}

/// Whether two rows stand for the same closed types.
fn have_same_shapes(row: RowShape, other: RowShape) -> bool
    ensures { IsTrue result ↔ (row.number ≡ other.number) × (row.result ≡ other.result) }
{
    row.number == other.number && row.result == other.result
}

impl<'a> Versions<'a> {
    /// Two tables. Their shapes are looked up by hashers with this key.
    pub fn of(
        alloc: Global,
        keyed: KeyedState,
        old: Side<'a>,
        new: Side<'a>,
    ) -> Result<Versions<'a>, AllocError>
        ensures old { IfOk result (λ v. v.old.table.now ≡ old.entry.table.now) }
        ensures new { IfOk result (λ v. v.new.table.now ≡ new.entry.table.now) }
    {
        let mut shapes = Shapes::new(alloc, keyed);
        let old_rows = shapes.rows_of(old.table)?;
        let new_rows = shapes.rows_of(new.table)?;
        Ok(Versions {
            old,
            new,
            shapes,
            old_rows,
            new_rows,
        })
    }

    /// Whether a host that calls a function of the old table can call one of the new table as it did.
    pub(crate) fn are_called_alike(&self, function: FunctionId, other: FunctionId) -> bool
        ensures alike { IsTrue result ↔ AreCalledAlike self.now.old.table.now function self.now.new.table.now other }
        ensures signatures { IsTrue result
            → HaveSameSignatures self.now.old.table.now function self.now.new.table.now other }
    {
        if !self.old.table.is_function(function) || !self.new.table.is_function(other) {
            return false;
        }
        let row = self.old_rows[function.0 as usize];
        let other_row = self.new_rows[other.0 as usize];
        have_same_shapes(row, other_row)
    }
}

/// Whether two core signatures are the same.
fn are_same(one: &CoreSignature, other: &CoreSignature) -> bool
    ensures { IsTrue result ↔ core_signature_of one.now ≡ core_signature_of other.now }
{
    one.result == other.result && one.params.as_slice() == other.params.as_slice()
}

impl Signatures {
    /// Whether another function has the same ones.
    pub(crate) fn are_those_of(&self, other: &Signatures) -> bool
        ensures { IsTrue result ↔ (core_signature_of self.now.lifted ≡ core_signature_of other.now.lifted)
            × (core_signature_of self.now.lowered ≡ core_signature_of other.now.lowered) }
    {
        are_same(&self.lifted, &other.lifted) && are_same(&self.lowered, &other.lowered)
    }

    /// Appends both, as `(i32) -> () of the callee and (i32) -> () of the caller`.
    pub(crate) fn push(&self, text: &mut TextBuilder) {
        push_signature(text, &self.lifted);
        text.push(" of the callee and ");
        push_signature(text, &self.lowered);
        text.push(" of the caller");
    }
}
