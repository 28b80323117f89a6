//! Flat kinds as the layout table keeps them.
ghost use Rattle.std.specs.Prelude.{◌≡◌, ◌∷◌, []};
ghost use Rattle.layout.specs.Kinds.{kinds_of, count_of, append_kinds, join_kinds};
ghost use Rattle.layout.specs.Packed.{lowest_kind};

use crate::kind_list::KindList;
use crate::kinds::{Kinds, MAX_FLAT};
use canonical_abi::CoreKind;
use std::marker::Model;

/// The count of kinds that spill.
pub(crate) const SPILLED: u8 = 17;

/// The flat kinds of types side by side, where they are at most sixteen, in four bytes.
#[derive(Drop)]
pub struct PackedKinds {
    /// How many they are; 17 where they spill.
    pub(crate) count: u8,
    /// Bit i tells whether kind i is i64.
    pub(crate) wide: u16,
}

impl Model for PackedKinds {
    ghost use Rattle.std.specs.Prelude.{◌≤◌, ◌<◌, ◌^◌};
    ghost use Rattle.layout.specs.declared.kinds.Kinds.{Kinds};

    ghost Value = { Kinds };

    ghost use Rattle.layout.specs.Packed.{kinds_packed};

    ghost view = { λ k. kinds_packed k.count k.wide };

    ghost invariant = { λ k. (k.count ≤ 17) × (k.wide < 2 ^ k.count) };
}

/// The kind that the lowest bit tells.
pub(crate) fn lowest_kind(wide: u16) -> CoreKind
    ensures { result ≡ lowest_kind wide }
{
    if wide % 2 == 0 {
        CoreKind::I32
    } else {
        CoreKind::I64
    }
}

impl PackedKinds {
    /// No kind at all.
    pub(crate) fn none() -> PackedKinds
        ensures { result ≡ kinds_of [] }
    {
        PackedKinds { count: 0, wide: 0 }
    }

    pub(crate) fn one(kind: CoreKind) -> PackedKinds
        ensures { result ≡ kinds_of (kind ∷ []) }
    {
        let wide = match kind {
            CoreKind::I32 => 0,
            CoreKind::I64 => 1,
        };
        PackedKinds { count: 1, wide }
    }

    pub(crate) fn copy(&self) -> PackedKinds
        ensures { result ≡ self.now }
    {
        PackedKinds {
            count: self.count,
            wide: self.wide,
        }
    }

    /// How many they are, where they are at most sixteen.
    pub(crate) fn count(&self) -> Option<usize>
        ensures { result ≡ count_of self.now }
    {
        let count = usize::from(self.count);
        if count <= MAX_FLAT { Some(count) } else { None }
    }

    /// Puts those kinds behind these.
    pub(crate) fn append(&mut self, more: &PackedKinds)
        ensures { self.new ≡ append_kinds self.old more.now }
    {
        let count = self.count + more.count;
        if count < SPILLED {
            let wide = u32::from(more.wide) << self.count | u32::from(self.wide);
            self.wide = wide as u16;
            self.count = count;
        } else {
            self.count = SPILLED;
        }
    }

    /// Joins those kinds with these, place by place.
    pub(crate) fn join(&mut self, more: &PackedKinds)
        ensures { self.new ≡ join_kinds self.old more.now }
    {
        self.count = self.count.max(more.count);
        self.wide |= more.wide;
    }

    /// The same kinds as a list.
    pub(crate) fn unpacked(&self) -> Kinds
        ensures { result ≡ self.now }
    {
        if self.count == SPILLED {
            return Kinds::Spilled;
        }
        let mut kinds = KindList::new();
        let mut wide = self.wide;
        for _ in 0..self.count {
            kinds.push(lowest_kind(wide));
            wide /= 2;
        }
        Kinds::Flat(kinds)
    }
}
