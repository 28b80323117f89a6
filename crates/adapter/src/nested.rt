//! Core values that cross as they are where not all are of primitives: of flags, of cases without a payload, and of
//! records of these, one in another.
ghost use Rattle.std.specs.Prelude.{◌≡◌, ◌≤◌, [], ◌∷◌, length, map, IsTrue, IfSome};
ghost use Rattle.canonical_abi.specs.Types.{prim_type, record_type, record_fields, variant_type, variant_cases};
ghost use Rattle.canonical_abi.specs.Types.{flags_type, field_count};
ghost use Rattle.tables.specs.Closed.{closed_type, function_type, prim_of, IsFunction};
ghost use Rattle.values.specs.Members.{fields_of_types, AreAllInside};
ghost use Rattle.values.specs.Types.{HasShape, IsInside};
ghost use Rattle.adapter.specs.Plain.{CarriesAlone, CarriesBetween, CarryBetween, AreNestedArguments};

use crate::plain::{is_own, is_plain_result};
use canonical_abi::Flat;
use layout::Shape;
use lift_lower::Types;
use lift_lower::nodes::{Members, low_flags};
use tables::{FunctionId, Parameter, Primitive, ValType};

/// Whether a core value is the very one that carries a value of this primitive.
#[inline(always)]
fn is_own_number(primitive: Primitive, flat: Flat) -> bool
    ensures { IsTrue result → CarriesAlone (prim_type (prim_of primitive)) (flat ∷ []) 1 }
{
    is_own(primitive, flat)
}

/// Whether a core value is the very one that carries flags of so many labels.
fn are_own_flags(labels: usize, flat: Flat) -> bool
    ensures { IsTrue result → CarriesAlone (flags_type labels) (flat ∷ []) 1 }
{
    match flat {
        Flat::I32(bits) => low_flags(bits, labels) == bits,
        Flat::I64(_) => false,
    }
}

/// Whether a core value is the number of a case of this variant, of which no case has a payload.
fn is_own_case(types: &Types, ty: ValType, flat: Flat) -> bool
    requires inside { IsInside types.now ty }
    requires variant { variant_type (variant_cases (closed_type types.now ty)) ≡ closed_type types.now ty }
    ensures { IsTrue result → CarriesAlone (closed_type types.now ty) (flat ∷ []) 1 }
{
    let Flat::I32(case) = flat else {
        return false;
    };
    if types.count_within(&[ty], 1).is_none() {
        return false;
    }
    match types.case_payload(ty, case as usize) {
        Some(None) => true,
        _ => false,
    }
}

/// Whether a core value carries a value of a type of this shape, which has one node, and is the very one that does.
#[inline(always)]
fn is_own_node(types: &Types, ty: ValType, shape: Shape, flat: Flat) -> bool
    requires inside { IsInside types.now ty }
    requires shape { HasShape types.now (closed_type types.now ty) shape }
    ensures { IsTrue result → CarriesAlone (closed_type types.now ty) (flat ∷ []) 1 }
{
    match shape {
        Shape::Primitive(primitive) => is_own_number(primitive, flat),
        Shape::Flags(labels) => are_own_flags(labels, flat),
        Shape::Variant(_) => is_own_case(types, ty, flat),
        _ => false,
    }
}

/// A call's core values, and the types that say what they carry.
#[derive(Clone, Copy)]
pub(crate) struct Carried<'t, 'f> {
    pub types: &'t Types<'t>,
    pub flats: &'f [Flat],
}

impl Carried<'_, '_> {
    /// Where the core values end that carry a value of this type alone, from a place on: `nodes` grows by the nodes of
    /// the value, as far as 64 bits count. None where that isn't known of them.
    #[inline(always)]
    #[cycle(nested)]
    fn end_of(&self, ty: ValType, from: usize, nodes: &mut u64) -> Option<usize>
        requires inside { IsInside self.now.types.now ty }
        requires front { from ≤ length self.now.flats.now }
        ensures { IfSome result (λ end. CarriesBetween (closed_type self.now.types.now ty) self.now.flats.now from end
            nodes.old nodes.new) }
    {
        let shape = self.types.shape_of(ty);
        *nodes = nodes.saturating_add(1);
        if let Shape::Record(count) = shape {
            return self.end_of_fields(ty, count, from, nodes);
        }
        if from < self.flats.len() && is_own_node(self.types, ty, shape, self.flats[from]) {
            return Some(from + 1);
        }
        None
    }

    /// The same of the fields of a record, so many, without the record itself.
    #[cycle(nested)]
    fn end_of_fields(
        &self,
        ty: ValType,
        count: usize,
        from: usize,
        nodes: &mut u64,
    ) -> Option<usize>
        requires inside { IsInside self.now.types.now ty }
        requires front { from ≤ length self.now.flats.now }
        requires counted { field_count (record_fields (closed_type self.now.types.now ty)) ≡ count }
        ensures { IfSome result (λ end. CarryBetween (record_fields (closed_type self.now.types.now ty))
            self.now.flats.now from end nodes.old nodes.new) }
    {
        let members = Members::Of(ty);
        let mut end = from;
        for index in 0..count {
            let Some(member) = self.types.member_type(&members, index) else {
                unreachable!()
            };
            end = self.end_of(member, end, nodes)?;
        }
        Some(end)
    }

    /// The same of a function's parameters, from the first core value on.
    #[inline(never)]
    fn end_of_parameters(&self, params: &[Parameter], nodes: &mut u64) -> Option<usize>
        requires { AreAllInside self.now.types.now (map (λ p. p.ty) params.now) }
        ensures { IfSome result (λ end. CarryBetween (fields_of_types self.now.types.now (map (λ p. p.ty) params.now))
            self.now.flats.now 0 end nodes.old nodes.new) }
    {
        let mut end = 0;
        for index in 0..params.len() {
            end = self.end_of(params[index].ty, end, nodes)?;
        }
        Some(end)
    }
}

/// Whether a function's parameters are worth a look: they may go flat, and a text, which is none of these, isn't first.
#[inline(always)]
fn may_be_nested(types: &Types, func: FunctionId) -> bool
    requires { IsFunction types.now func }
{
    match types.resolve().signature(func).params.as_slice() {
        [] => false,
        [first, ..] if first.ty == ValType::String => false,
        params => params.len() <= 16,
    }
}

/// The core values that carry a call's arguments, where the call's are those of the function's signature and these
/// cross as they are; `nodes` then says how many nodes they have.
#[inline(always)]
pub(crate) fn nested_arguments<'a>(
    types: &Types,
    func: FunctionId,
    flats: &'a [Flat],
    nodes: &mut u64,
) -> Option<&'a [Flat]>
    requires function { IsFunction types.now func }
    requires fresh { nodes.old ≡ 0 }
    ensures { IfSome result (λ arguments. AreNestedArguments (function_type types.now func) flats.now nodes.new
        arguments.now) }
{
    if !may_be_nested(types, func) {
        return None;
    }
    let params = types.resolve().signature(func).params.as_slice();
    let end = Carried { types, flats }.end_of_parameters(params, nodes)?;
    if end > 16 {
        return None;
    }
    // A count is a number of 64 bits.
    let _count = *nodes;
    let arguments = &flats[..end];
    if end == flats.len() && is_plain_result(types, func) {
        return Some(arguments);
    }
    // The return area's address is behind them.
    if types.layouts().takes(func, flats) {
        return Some(arguments);
    }
    None
}
