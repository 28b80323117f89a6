//! Tables with their layouts: the numbers of a header.
ghost use Rattle.std.specs.Prelude.{◌≡◌, ◌≢◌, ◌↔◌, ◌*◌, ◌<◌, false, length, slice_get, None, Some, IsTrue, IsSome};
ghost use Rattle.std.specs.Prelude.{IfNone, IfSome};
ghost use Rattle.canonical_abi.specs.Types.{nth_case, record_fields, variant_cases};
ghost use Rattle.canonical_abi.specs.Layout.{align, discriminant_size, field_places, fits_flat, flat_kinds};
ghost use Rattle.canonical_abi.specs.Layout.{lifted_signature, lowered_signature, max_flat_params, payload_place, size};
ghost use Rattle.layout.specs.Kinds.{count_of, kinds_of};
ghost use Rattle.layout.specs.Layout.{core_signature_of, layouts_of, results_of};
ghost use Rattle.tables.specs.Closed.{IsFunction, closed_type, function_type};
ghost use Rattle.tables.specs.Tables.{is_below};
ghost use Rattle.tables.specs.declared.tables.TypeDef.{TypeDef};

use canonical_abi::CoreKind;
use layout::{CoreSignature, Layouts};
use tables::{Definition, FunctionId, Resolve, TypeDef, TypeId, ValType};

/// The tables of packages, with the layouts of these tables.
#[derive(Drop)]
pub struct Laid<'a> {
    pub resolve: &'a Resolve,
    layouts: &'a Layouts,
    pub ghost laid_out: { layouts.now ≡ layouts_of resolve.now },
}

/// How the arguments and the result of a function are passed.
#[derive(Drop)]
pub struct Passing {
    /// The core signature of the caller's import.
    pub lowered: CoreSignature,
    /// How many core values the arguments are.
    pub passed: usize,
    /// The core value that the callee returns.
    pub returned: Option<CoreKind>,
    /// The arguments go through memory.
    pub is_spilled: bool,
}

impl Passing {
    /// Whether the result goes through memory.
    pub fn has_area(&self) -> bool
        ensures { IsTrue result ↔ (self.now.passed < length self.now.lowered.params.items) }
    {
        self.lowered.params.len() > self.passed
    }
}

impl<'a> Laid<'a> {
    /// These tables with these layouts.
    pub fn new(resolve: &'a Resolve, layouts: &'a Layouts) -> Laid<'a>
        requires { layouts.now ≡ layouts_of resolve.now }
        ensures { result.resolve.now ≡ resolve.now }
    {
        Laid { resolve, layouts }
    }

    /// The definition of a type.
    pub fn definition(&self, id: TypeId) -> Option<&'a TypeDef>
        ensures none { IfNone result ((d : TypeDef)
            → slice_get self.now.resolve.now.definitions id.0 ≢ Some (Definition.Type d)) }
        ensures some { IfSome result (λ d. slice_get self.now.resolve.now.definitions id.0
            ≡ Some (Definition.Type d.now)) }
    {
        match self.resolve.definitions.as_slice().get(id.0 as usize) {
            Some(Definition::Type(definition)) => Some(definition),
            _ => None,
        }
    }

    /// The size of a type in bytes. 0 if the tables have no such type.
    pub fn size(&self, ty: ValType) -> u32
        ensures size { IsTrue (is_below (length self.now.layouts.now.rows) ty)
            → result ≡ size (closed_type self.now.resolve.now ty) }
        ensures lacking { is_below (length self.now.layouts.now.rows) ty ≡ false → result ≡ 0 }
    {
        if !self.layouts.has(ty) {
            return 0;
        }
        self.layouts.size(ty)
    }

    /// The alignment of a type in bytes. 1 if the tables have no such type.
    pub fn align(&self, ty: ValType) -> u32
        ensures align { IsTrue (is_below (length self.now.layouts.now.rows) ty)
            → result ≡ align (closed_type self.now.resolve.now ty) }
        ensures lacking { is_below (length self.now.layouts.now.rows) ty ≡ false → result ≡ 1 }
    {
        if !self.layouts.has(ty) {
            return 1;
        }
        self.layouts.align(ty)
    }

    /// The offset of a field in bytes. None if the type has no such field.
    pub fn offset(&self, ty: ValType, index: usize) -> Option<u32>
        ensures offset { IsTrue (is_below (length self.now.layouts.now.rows) ty)
            → result ≡ slice_get (field_places (record_fields (closed_type self.now.resolve.now ty))) index }
        ensures lacking { is_below (length self.now.layouts.now.rows) ty ≡ false → result ≡ None }
    {
        if !self.layouts.has(ty) {
            return None;
        }
        self.layouts.field_offset(ty, index)
    }

    /// The offset of payloads in bytes. None if the type has no cases.
    pub fn payload_offset(&self, ty: ValType) -> Option<u32>
        ensures none { IsTrue (is_below (length self.now.layouts.now.rows) ty)
            → IfNone result (nth_case (variant_cases (closed_type self.now.resolve.now ty)) 0 ≡ None) }
        ensures some { IfSome result (λ _. nth_case (variant_cases (closed_type self.now.resolve.now ty)) 0 ≢ None) }
        ensures offset { IfSome result (λ offset. offset
            ≡ payload_place (variant_cases (closed_type self.now.resolve.now ty))) }
        ensures lacking { is_below (length self.now.layouts.now.rows) ty ≡ false → result ≡ None }
    {
        if !self.layouts.has(ty) {
            return None;
        }
        Some(self.layouts.case_info(ty, 0)?.place)
    }

    /// How many core values a value of a type is. None if they are more than 16.
    pub fn count(&self, ty: ValType) -> Option<usize>
        ensures count { IsTrue (is_below (length self.now.layouts.now.rows) ty)
            → result ≡ count_of (kinds_of (flat_kinds (closed_type self.now.resolve.now ty))) }
        ensures lacking { is_below (length self.now.layouts.now.rows) ty ≡ false → result ≡ None }
    {
        if !self.layouts.has(ty) {
            return None;
        }
        self.layouts.flat_count(&[ty])
    }

    /// How a function is called. None if the tables have no such function.
    pub fn passing(&self, id: FunctionId) -> Option<Passing>
        ensures found { IsSome result ↔ (id.0 < length self.now.layouts.now.rows) }
        ensures lowered { IfSome result (λ p. IsFunction self.now.resolve.now id
            → core_signature_of p.lowered ≡ lowered_signature (function_type self.now.resolve.now id)) }
        ensures passed { IfSome result (λ p. IsFunction self.now.resolve.now id
            → p.passed ≡ length (lifted_signature (function_type self.now.resolve.now id)).params) }
        ensures returned { IfSome result (λ p. IsFunction self.now.resolve.now id
            → results_of p.returned ≡ (lifted_signature (function_type self.now.resolve.now id)).results) }
        ensures spilled { IfSome result (λ p. IsFunction self.now.resolve.now id
            → IsTrue p.is_spilled ↔ (fits_flat max_flat_params (function_type self.now.resolve.now id).params
            ≡ false)) }
    {
        if !self.layouts.has_function(id) {
            return None;
        }
        Some(Passing {
            lowered: self.layouts.lowered(id),
            passed: self.layouts.lifted_count(id),
            returned: self.layouts.lifted_result(id),
            is_spilled: self.count(parameters_of(id)).is_none(),
        })
    }
}

/// The record of a function's parameters.
pub fn parameters_of(id: FunctionId) -> ValType
    ensures { result ≡ ValType.Id (record { 0 = id.0 }) }
{
    ValType::Id(TypeId(id.0))
}

/// The bits of the number of one of so many cases.
pub fn tag_bits(cases: usize) -> u32
    ensures { result ≡ 8 * discriminant_size cases }
{
    if cases <= 256 {
        8
    } else if cases <= 65536 {
        16
    } else {
        32
    }
}
