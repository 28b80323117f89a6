//! A type with its layout: the numbers of a picture.
ghost use Rattle.std.specs.Prelude.{◌≡◌, ◌≢◌, ◌∷◌, [], None, Some, length, slice_get, IsTrue, IsSome, IfNone, IfSome};
ghost use Rattle.std.specs.Prelude.{◌↔◌};
ghost use Rattle.canonical_abi.specs.Types.{ClosedType, nth_case, nth_field, record_fields, variant_cases};
ghost use Rattle.canonical_abi.specs.Layout.{align, discriminant_size, field_places, flat_kinds, payload_place, size};
ghost use Rattle.layout.specs.Kinds.{kinds_of};
ghost use Rattle.layout.specs.Layout.{layouts_of};
ghost use Rattle.layout_picture.specs.Closed.{IsShape, closed_of};
ghost use Rattle.tables.specs.Tables.{is_below};

use layout::{Kinds, Layouts, Shape};
use std::marker::Model;
use tables::{Resolve, ValType};

/// A type of a package's tables, with the layouts of these tables. Contracts see it as the tables and the type.
#[derive(Drop)]
pub struct TypeLayout<'a> {
    pub resolve: &'a Resolve,
    layouts: &'a Layouts,
    pub ty: ValType,
    ghost laid_out: { layouts.now ≡ layouts_of resolve.now },
    ghost below: { IsTrue (is_below (length layouts.now.rows) ty) },
}

impl<'a> Model for TypeLayout<'a> {
    ghost use Rattle.tables.specs.declared.tables.Resolve.{Resolve};
    ghost use Rattle.tables.specs.declared.tables.ValType.{ValType};

    ghost Value = { Resolve × ValType };

    ghost view = { λ t. (t.resolve.now, t.ty) };
}

/// A field of a record, or the payload of a case.
#[derive(Drop)]
pub struct Part<'a> {
    /// In bytes, from the first of the whole type.
    pub offset: u32,
    pub layout: TypeLayout<'a>,
}

impl<'a> TypeLayout<'a> {
    /// A type of these tables. None if they have no such type.
    pub fn new(resolve: &'a Resolve, layouts: &'a Layouts, ty: ValType) -> Option<TypeLayout<'a>>
        requires { layouts.now ≡ layouts_of resolve.now }
        ensures some { IsSome result ↔ IsTrue (is_below (length layouts.now.rows) ty) }
        ensures is { IfSome result (λ t. t ≡ (resolve.now, ty)) }
    {
        if !layouts.has(ty) {
            return None;
        }
        Some(TypeLayout {
            resolve,
            layouts,
            ty,
        })
    }

    /// Its size in bytes.
    pub fn size(&self) -> u32
        ensures { result ≡ size (closed_of self.now) }
    {
        self.layouts.size(self.ty)
    }

    /// Its alignment in bytes.
    pub fn align(&self) -> u32
        ensures { result ≡ align (closed_of self.now) }
    {
        self.layouts.align(self.ty)
    }

    /// Its flat core values.
    pub fn flat(&self) -> Kinds
        ensures { result ≡ kinds_of (flat_kinds (closed_of self.now)) }
    {
        self.layouts.flat(&[self.ty])
    }

    /// What it is for the ABI.
    pub fn shape(&self) -> Shape
        ensures { IsShape self.now result }
    {
        self.layouts.shape(self.ty)
    }

    /// A field of a record or a tuple. None if the type has no such field.
    pub fn field(&self, index: usize) -> Option<Part<'a>>
        ensures none { IfNone result (nth_field (record_fields (closed_of self.now)) index ≡ None) }
        ensures field { IfSome result (λ p. nth_field (record_fields (closed_of self.now)) index
            ≡ Some (closed_of p.layout)) }
        ensures offset { IfSome result (λ p. slice_get (field_places (record_fields (closed_of self.now))) index
            ≡ Some p.offset) }
    {
        let field = self.layouts.field(self.ty, index)?;
        Some(Part {
            offset: field.offset,
            layout: TypeLayout {
                resolve: self.resolve,
                layouts: self.layouts,
                ty: field.ty,
            },
        })
    }

    /// The payload of a case of a variant, an option or a result. None if the type has no such case, or the case no
    /// payload.
    pub fn payload(&self, index: usize) -> Option<Part<'a>>
        ensures none { IfNone result ((t : ClosedType)
            → nth_case (variant_cases (closed_of self.now)) index ≢ Some (Some t)) }
        ensures payload { IfSome result (λ p. nth_case (variant_cases (closed_of self.now)) index
            ≡ Some (Some (closed_of p.layout))) }
        ensures offset { IfSome result (λ p. p.offset ≡ payload_place (variant_cases (closed_of self.now))) }
    {
        let case = self.layouts.case_info(self.ty, index)?;
        let ty = case.payload?;
        Some(Part {
            offset: case.place,
            layout: TypeLayout {
                resolve: self.resolve,
                layouts: self.layouts,
                ty,
            },
        })
    }

    /// The offset of payloads in bytes, whether there are any. None if the type has no cases.
    pub fn payload_offset(&self) -> Option<u32>
        ensures none { IfNone result (nth_case (variant_cases (closed_of self.now)) 0 ≡ None) }
        ensures offset { IfSome result (λ p. p ≡ payload_place (variant_cases (closed_of self.now))) }
    {
        Some(self.layouts.case_info(self.ty, 0)?.place)
    }
}

/// The size of the number of a case in bytes, if there are so many cases.
pub fn case_number_size(cases: usize) -> u32
    ensures { result ≡ discriminant_size cases }
{
    if cases <= 256 {
        1
    } else if cases <= 65536 {
        2
    } else {
        4
    }
}
