//! Types of two tables compared.
ghost use Rattle.std.specs.Prelude.{◌≡◌, IfOk};
ghost use Rattle.tables.specs.Labelled.{labelled_type};
ghost use Rattle.tables.specs.Standard.{IsTypeOf};
ghost use Rattle.package_changes.specs.Comparing.{AreRight};
ghost use Rattle.package_changes.specs.Exact.{IsLikeness};
ghost use Rattle.package_changes.specs.Verdicts.{IsTypeVerdict};

use crate::comparing::Comparer;
use crate::edition::Edition;
use crate::known::Known;
use crate::likeness::Likeness;
use crate::verdicts::{Role, Verdict};
use std::alloc::{AllocError, Global};
use tables::ValType;

/// Compares types of an older table with those of a newer one, and no pair of them twice.
#[derive(Drop)]
pub struct TypeComparison<'a> {
    pub comparer: Comparer<'a>,
    pub known: Known,
    ghost right: { AreRight comparer.old.table.now comparer.new.table.now known },
}

impl<'a> TypeComparison<'a> {
    /// Compares types of these tables.
    pub fn of(alloc: Global, old: Edition<'a>, new: Edition<'a>) -> TypeComparison<'a>
        ensures old { result.comparer.old.table.now ≡ old.entry.table.now }
        ensures new { result.comparer.new.table.now ≡ new.entry.table.now }
    {
        let known = Known::new(alloc);
        let comparer = Comparer { alloc, old, new };
        TypeComparison { comparer, known }
    }

    /// What a host that sends values of the older type can do with the newer one.
    pub fn verdict(&mut self, old: ValType, new: ValType) -> Result<Verdict, AllocError>
        requires old { IsTypeOf self.old.comparer.old.table.now old }
        requires new { IsTypeOf self.old.comparer.new.table.now new }
        ensures exact { IfOk result (IsTypeVerdict (labelled_type self.old.comparer.old.table.now old)
            (labelled_type self.old.comparer.new.table.now new)) }
        ensures kept { self.new.comparer ≡ self.old.comparer }
    {
        let likeness = self.comparer.compare(&mut self.known, old, new)?;
        Ok(Role::Called.verdict_of(likeness, Likeness::of_leaves(true)))
    }

    /// How alike two types are.
    pub fn likeness(&mut self, old: ValType, new: ValType) -> Result<Likeness, AllocError>
        requires old { IsTypeOf self.old.comparer.old.table.now old }
        requires new { IsTypeOf self.old.comparer.new.table.now new }
        ensures exact { IfOk result (IsLikeness (labelled_type self.old.comparer.old.table.now old)
            (labelled_type self.old.comparer.new.table.now new)) }
        ensures kept { self.new.comparer ≡ self.old.comparer }
    {
        self.comparer.compare(&mut self.known, old, new)
    }
}
