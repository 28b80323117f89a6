//! The types of a package as the ABI sees them, with their layouts: names are followed, a tuple is a record,
//! and an enum, an option or a result is a variant.
ghost use Rattle.std.specs.Prelude.{◌≡◌, ◌<◌, ◌≤◌, ◌^◌, ◌↔◌, IsTrue, length, true, false, IfSome, IfNone, OnSome};
ghost use Rattle.std.specs.Prelude.{option_map, Some};
ghost use Rattle.canonical_abi.specs.Layout.{size, align, flat_kinds, field_kinds, fits_flat};
ghost use Rattle.canonical_abi.specs.Types.{record_type, record_fields, variant_cases, nth_field, nth_case};
ghost use Rattle.layout.specs.Layout.{layouts_of};
ghost use Rattle.layout.specs.Named.{OfNamed, own_shape, own_member, own_case};
ghost use Rattle.tables.specs.Closed.{closed_type};
ghost use Rattle.values.specs.Members.{fields_of_types, AreAllInside, AreInside, IsOwnMember, members_fields};
ghost use Rattle.values.specs.Types.{HasShape, HasFewFlags, IsInside};

use crate::members::{Members, type_at};
use layout::{KindList, Kinds, Layouts, Shape};
use std::marker::Model;
use tables::{Resolve, ValType};

/// The most bytes of types side by side, as of a type.
const MAX_RECORD: usize = 16_777_216;

/// The types of a package, with their layouts.
#[derive(Drop)]
pub struct Types<'a> {
    resolve: &'a Resolve,
    layouts: &'a Layouts,
    ghost laid_out: { layouts.now ≡ layouts_of resolve.now },
}

impl<'a> Model for Types<'a> {
    ghost use Rattle.tables.specs.declared.tables.Resolve.{Resolve};

    ghost Value = { Resolve };

    ghost view = { λ t. t.resolve.now };
}

impl<'a> Types<'a> {
    /// The types of a package and its layouts.
    pub fn new(resolve: &'a Resolve, layouts: &'a Layouts) -> Types<'a>
        requires { layouts.now ≡ layouts_of resolve.now }
        ensures { result ≡ resolve.now }
    {
        Types { resolve, layouts }
    }

    /// The tables of the package.
    pub fn resolve(&self) -> &Resolve
        ensures { result.now ≡ self.now }
    {
        self.resolve
    }

    /// The layouts of the package.
    pub fn layouts(&self) -> &Layouts
        ensures { result.now ≡ layouts_of self.now }
    {
        self.layouts
    }

    /// The shape of a type of the package.
    pub fn shape_of(&self, ty: ValType) -> Shape
        requires { IsInside self.now ty }
        ensures shape { HasShape self.now (closed_type self.now ty) result }
        ensures few { HasFewFlags result }
        ensures own { OfNamed self.now ty (λ e. own_shape self.now.definitions e ≡ Some result) }
    {
        self.layouts().shape(ty)
    }

    /// The type of a record's field.
    fn field_type(&self, ty: ValType, index: usize) -> Option<ValType>
        requires { IsInside self.now ty }
        ensures found { option_map (closed_type self.now) result
            ≡ nth_field (record_fields (closed_type self.now ty)) index }
        ensures inside { IfSome result (IsInside self.now) }
        ensures own { OfNamed self.now ty (λ e. own_member self.now.definitions e index ≡ result) }
    {
        Some(self.layouts().field(ty, index)?.ty)
    }

    /// The type of a member.
    pub fn member_type(&self, members: &Members, index: usize) -> Option<ValType>
        requires { AreInside self.now members.now }
        ensures found { option_map (closed_type self.now) result
            ≡ nth_field (members_fields self.now members.now) index }
        ensures inside { IfSome result (IsInside self.now) }
        ensures own { IsOwnMember self.now members.now index result }
    {
        match members {
            Members::Of(ty) => self.field_type(*ty, index),
            Members::Listed(types) => type_at(types, index),
        }
    }

    /// A variant's case, with the type of its payload if it has one.
    pub fn case_payload(&self, ty: ValType, index: usize) -> Option<Option<ValType>>
        requires { IsInside self.now ty }
        ensures found { option_map (option_map (closed_type self.now)) result
            ≡ nth_case (variant_cases (closed_type self.now ty)) index }
        ensures inside { IfSome result (λ o. IfSome o (IsInside self.now)) }
        ensures own { OfNamed self.now ty (λ e. own_case self.now.definitions e index ≡ result) }
    {
        Some(self.layouts().case_info(ty, index)?.payload)
    }

    /// The size of a type, in bytes.
    pub fn size_of(&self, ty: ValType) -> usize
        requires { IsInside self.now ty }
        ensures value { result ≡ size (closed_type self.now ty) }
        ensures small { result < 2 ^ 32 }
    {
        self.layouts().size(ty) as usize
    }

    /// The alignment of a type, in bytes.
    pub fn align_of(&self, ty: ValType) -> usize
        requires { IsInside self.now ty }
        ensures value { result ≡ align (closed_type self.now ty) }
        ensures small { result < 2 ^ 32 }
        ensures positive { 0 < result }
    {
        self.layouts().align(ty) as usize
    }

    /// How many flat values carry a type, where at most sixteen do.
    pub fn kind_count(&self, ty: ValType) -> usize
        requires inside { IsInside self.now ty }
        requires flat { length (flat_kinds (closed_type self.now ty)) ≤ 16 }
        ensures { result ≡ length (flat_kinds (closed_type self.now ty)) }
    {
        match self.layouts().flat_count(&[ty]) {
            Some(count) => count,
            None => unreachable!(),
        }
    }

    /// The core values' kinds that carry a type, where they are at most sixteen.
    pub fn kinds_of(&self, ty: ValType) -> KindList
        requires inside { IsInside self.now ty }
        requires flat { length (flat_kinds (closed_type self.now ty)) ≤ 16 }
        ensures { result.items ≡ flat_kinds (closed_type self.now ty) }
    {
        match self.layouts().flat(&[ty]) {
            Kinds::Flat(kinds) => kinds,
            Kinds::Spilled => unreachable!(),
        }
    }

    /// The flat kinds of types side by side, where at most `limit` carry them.
    pub fn kinds_within(&self, types: &[ValType], limit: usize) -> Option<KindList>
        requires inside { AreAllInside self.now types.now }
        requires limit { limit ≤ 16 }
        ensures kinds { IfSome result (λ ks. ks.items ≡ field_kinds (fields_of_types self.now types.now)) }
        ensures flat { OnSome result (fits_flat limit (fields_of_types self.now types.now) ≡ true) }
        ensures spilled { IfNone result (fits_flat limit (fields_of_types self.now types.now) ≡ false) }
    {
        match self.layouts().flat(types) {
            Kinds::Flat(kinds) if kinds.len() <= limit => Some(kinds),
            _ => None,
        }
    }

    /// How many flat values carry types side by side, where they are at most `limit`.
    pub fn count_within(&self, types: &[ValType], limit: usize) -> Option<usize>
        requires inside { AreAllInside self.now types.now }
        requires limit { limit ≤ 16 }
        ensures count { IfSome result (λ n. n ≡ length (field_kinds (fields_of_types self.now types.now))) }
        ensures flat { OnSome result (fits_flat limit (fields_of_types self.now types.now) ≡ true) }
        ensures spilled { IfNone result (fits_flat limit (fields_of_types self.now types.now) ≡ false) }
    {
        match self.layouts().flat_count(types) {
            Some(count) if count <= limit => Some(count),
            _ => None,
        }
    }

    /// The size and the alignment of types side by side, as a record of at most 16,777,216 bytes.
    fn extent_within(&self, types: &[ValType]) -> Option<(usize, usize)>
        requires { AreAllInside self.now types.now }
        ensures size { IfSome result (λ x. x.0 ≡ size (record_type (fields_of_types self.now types.now))) }
        ensures align { IfSome result (λ x. x.1 ≡ align (record_type (fields_of_types self.now types.now))) }
        ensures small { IfSome result (λ x. x.0 ≤ 16777216) }
        ensures none { IfNone result (16777216 < size (record_type (fields_of_types self.now types.now))) }
    {
        let mut end: usize = 0;
        let mut align = 1;
        for index in 0..types.len() {
            let member = self.align_of(types[index]);
            end = end.next_multiple_of(member) + self.size_of(types[index]);
            if end > MAX_RECORD {
                return None;
            }
            align = align.max(member);
        }
        let size = end.next_multiple_of(align);
        if size > MAX_RECORD {
            return None;
        }
        Some((size, align))
    }

    /// Whether types side by side, as a record, have at most 16,777,216 bytes: what `record_extent` asks for.
    pub fn fits_record(&self, types: &[ValType]) -> bool
        requires { AreAllInside self.now types.now }
        ensures { IsTrue result ↔ (size (record_type (fields_of_types self.now types.now)) ≤ 16777216) }
    {
        self.extent_within(types).is_some()
    }

    /// The size and the alignment of types side by side, as a record.
    pub fn record_extent(&self, types: &[ValType]) -> (usize, usize)
        requires inside { AreAllInside self.now types.now }
        requires small { size (record_type (fields_of_types self.now types.now)) ≤ 16777216 }
        ensures size { result.0 ≡ size (record_type (fields_of_types self.now types.now)) }
        ensures align { result.1 ≡ align (record_type (fields_of_types self.now types.now)) }
    {
        match self.extent_within(types) {
            Some(extent) => extent,
            None => unreachable!(),
        }
    }
}
