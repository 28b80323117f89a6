//! Reading types without scopes of their own. A stated count requests no memory: each list grows as its items are read.
ghost use Rattle.std.specs.Prelude.{◌≡◌, false};
ghost use Rattle.atoms.specs.Production.{times};
ghost use Rattle.ctype_format.specs.Bytes.{AnswersBytes};
ghost use Rattle.ctype_format.specs.Grammar.{valtype, label, field, case, record_type, variant_type, list_type};
ghost use Rattle.ctype_format.specs.Grammar.{tuple_type, flags_type, enum_type, option_type, result_entry, outcome};
ghost use Rattle.ctype_format.specs.Grammar.{function_entry, plain_entry, is_nested};
ghost use Rattle.ctype_format.specs.View.{type_view};

use atoms::Label;
use ctype_format::{
    ItemError, Opcode, RawCase, RawDefinedType, RawField, RawFunction, RawType, RawValType,
    count_of, count_upto, flag_of, label_of, optional_of, u32_of, valtype_of, zero_of,
};
use std::alloc::Global;

/// The cases that a variant or an enum may have.
const MAX_CASES: u32 = 100_000;

/// The labels that flags may have.
const MAX_FLAGS: u32 = 32;

#[tactic(auto, unfolding(ctype_format::specs::Grammar::field))]
fn field_of(alloc: Global, types: u32, bytes: &[u8]) -> Result<(RawField, &[u8]), ItemError>
    ensures { AnswersBytes (λ x. (x.0, x.1.now)) result ((field types).read bytes.now) }
{
    let (label, rest) = label_of(alloc, bytes)?;
    let (ty, rest) = valtype_of(types, rest)?;
    Ok((RawField { label, ty }, rest))
}

fn fields_of(
    alloc: Global,
    types: u32,
    count: u32,
    bytes: &[u8],
) -> Result<(Vec<RawField>, &[u8]), ItemError>
    ensures { AnswersBytes (λ x. (x.0.items, x.1.now)) result ((times count (field types)).read bytes.now) }
{
    let mut fields = Vec::new(alloc);
    let mut rest = bytes;
    for _ in 0..count {
        let (field, behind) = field_of(alloc, types, rest)?;
        fields.push(field)?;
        rest = behind;
    }
    Ok((fields, rest))
}

#[tactic(auto, unfolding(ctype_format::specs::Grammar::case))]
fn case_of(alloc: Global, types: u32, bytes: &[u8]) -> Result<(RawCase, &[u8]), ItemError>
    ensures { AnswersBytes (λ x. (x.0, x.1.now)) result ((case types).read bytes.now) }
{
    let (label, rest) = label_of(alloc, bytes)?;
    let (payload, rest) = optional_of(types, rest)?;
    let rest = zero_of(rest)?;
    Ok((RawCase { label, payload }, rest))
}

fn cases_of(
    alloc: Global,
    types: u32,
    count: u32,
    bytes: &[u8],
) -> Result<(Vec<RawCase>, &[u8]), ItemError>
    ensures { AnswersBytes (λ x. (x.0.items, x.1.now)) result ((times count (case types)).read bytes.now) }
{
    let mut cases = Vec::new(alloc);
    let mut rest = bytes;
    for _ in 0..count {
        let (case, behind) = case_of(alloc, types, rest)?;
        cases.push(case)?;
        rest = behind;
    }
    Ok((cases, rest))
}

fn members_of(
    alloc: Global,
    types: u32,
    count: u32,
    bytes: &[u8],
) -> Result<(Vec<RawValType>, &[u8]), ItemError>
    ensures { AnswersBytes (λ x. (x.0.items, x.1.now)) result ((times count (valtype types)).read bytes.now) }
{
    let mut members = Vec::new(alloc);
    let mut rest = bytes;
    for _ in 0..count {
        let (member, behind) = valtype_of(types, rest)?;
        members.push(member)?;
        rest = behind;
    }
    Ok((members, rest))
}

fn labels_of(alloc: Global, count: u32, bytes: &[u8]) -> Result<(Vec<Label>, &[u8]), ItemError>
    ensures { AnswersBytes (λ x. (x.0.items, x.1.now)) result ((times count label).read bytes.now) }
{
    let mut labels = Vec::new(alloc);
    let mut rest = bytes;
    for _ in 0..count {
        let (label, behind) = label_of(alloc, rest)?;
        labels.push(label)?;
        rest = behind;
    }
    Ok((labels, rest))
}

#[tactic(auto, unfolding(ctype_format::specs::Grammar::record_type, ctype_format::specs::View::type_view))]
fn record_of(alloc: Global, types: u32, bytes: &[u8]) -> Result<(RawType, &[u8]), ItemError>
    ensures { AnswersBytes (λ x. (type_view x.0, x.1.now)) result ((record_type types).read bytes.now) }
{
    let (count, rest) = count_of(bytes)?;
    let (fields, rest) = fields_of(alloc, types, count, rest)?;
    Ok((RawType::Defined(RawDefinedType::Record(fields)), rest))
}

#[tactic(auto, unfolding(ctype_format::specs::Grammar::variant_type, ctype_format::specs::View::type_view))]
fn variant_of(alloc: Global, types: u32, bytes: &[u8]) -> Result<(RawType, &[u8]), ItemError>
    ensures { AnswersBytes (λ x. (type_view x.0, x.1.now)) result ((variant_type types).read bytes.now) }
{
    let (count, rest) = count_upto(MAX_CASES, bytes)?;
    let (cases, rest) = cases_of(alloc, types, count, rest)?;
    Ok((RawType::Defined(RawDefinedType::Variant(cases)), rest))
}

#[tactic(auto, unfolding(ctype_format::specs::Grammar::list_type, ctype_format::specs::View::type_view))]
fn list_of(types: u32, bytes: &[u8]) -> Result<(RawType, &[u8]), ItemError>
    ensures { AnswersBytes (λ x. (type_view x.0, x.1.now)) result ((list_type types).read bytes.now) }
{
    let (element, rest) = valtype_of(types, bytes)?;
    Ok((RawType::Defined(RawDefinedType::List(element)), rest))
}

#[tactic(auto, unfolding(ctype_format::specs::Grammar::tuple_type, ctype_format::specs::View::type_view))]
fn tuple_of(alloc: Global, types: u32, bytes: &[u8]) -> Result<(RawType, &[u8]), ItemError>
    ensures { AnswersBytes (λ x. (type_view x.0, x.1.now)) result ((tuple_type types).read bytes.now) }
{
    let (count, rest) = count_of(bytes)?;
    let (members, rest) = members_of(alloc, types, count, rest)?;
    Ok((RawType::Defined(RawDefinedType::Tuple(members)), rest))
}

#[tactic(auto, unfolding(ctype_format::specs::Grammar::flags_type, ctype_format::specs::View::type_view))]
fn flags_of(alloc: Global, bytes: &[u8]) -> Result<(RawType, &[u8]), ItemError>
    ensures { AnswersBytes (λ x. (type_view x.0, x.1.now)) result (flags_type.read bytes.now) }
{
    let (count, rest) = count_upto(MAX_FLAGS, bytes)?;
    let (labels, rest) = labels_of(alloc, count, rest)?;
    Ok((RawType::Defined(RawDefinedType::Flags(labels)), rest))
}

#[tactic(auto, unfolding(ctype_format::specs::Grammar::enum_type, ctype_format::specs::View::type_view))]
fn enum_of(alloc: Global, bytes: &[u8]) -> Result<(RawType, &[u8]), ItemError>
    ensures { AnswersBytes (λ x. (type_view x.0, x.1.now)) result (enum_type.read bytes.now) }
{
    let (count, rest) = count_upto(MAX_CASES, bytes)?;
    let (labels, rest) = labels_of(alloc, count, rest)?;
    Ok((RawType::Defined(RawDefinedType::Enum(labels)), rest))
}

#[tactic(auto, unfolding(ctype_format::specs::Grammar::option_type, ctype_format::specs::View::type_view))]
fn option_of(types: u32, bytes: &[u8]) -> Result<(RawType, &[u8]), ItemError>
    ensures { AnswersBytes (λ x. (type_view x.0, x.1.now)) result ((option_type types).read bytes.now) }
{
    let (some, rest) = valtype_of(types, bytes)?;
    Ok((RawType::Defined(RawDefinedType::Option(some)), rest))
}

#[tactic(auto, unfolding(ctype_format::specs::Grammar::result_entry, ctype_format::specs::View::type_view))]
fn result_of(types: u32, bytes: &[u8]) -> Result<(RawType, &[u8]), ItemError>
    ensures { AnswersBytes (λ x. (type_view x.0, x.1.now)) result ((result_entry types).read bytes.now) }
{
    let (ok, rest) = optional_of(types, bytes)?;
    let (error, rest) = optional_of(types, rest)?;
    Ok((RawType::Defined(RawDefinedType::Result { ok, error }), rest))
}

/// 0 and a value type, or 1 and 0.
#[tactic(auto, unfolding(ctype_format::specs::Grammar::outcome))]
fn outcome_of(types: u32, bytes: &[u8]) -> Result<(Option<RawValType>, &[u8]), ItemError>
    ensures { AnswersBytes (λ x. (x.0, x.1.now)) result ((outcome types).read bytes.now) }
{
    let (flag, rest) = flag_of(bytes)?;
    if flag == 0 {
        let (ty, rest) = valtype_of(types, rest)?;
        return Ok((Some(ty), rest));
    }
    let rest = zero_of(rest)?;
    Ok((None, rest))
}

#[tactic(auto, unfolding(ctype_format::specs::Grammar::function_entry, ctype_format::specs::View::type_view))]
fn function_of(alloc: Global, types: u32, bytes: &[u8]) -> Result<(RawType, &[u8]), ItemError>
    ensures { AnswersBytes (λ x. (type_view x.0, x.1.now)) result ((function_entry types).read bytes.now) }
{
    let (count, rest) = u32_of(bytes)?;
    let (params, rest) = fields_of(alloc, types, count, rest)?;
    let (result, rest) = outcome_of(types, rest)?;
    Ok((RawType::Function(RawFunction { params, result }), rest))
}

/// A type behind its opcode.
#[tactic(auto, unfolding(ctype_format::specs::Grammar::plain_entry, ctype_format::specs::View::type_view))]
pub(crate) fn plain_of(
    alloc: Global,
    types: u32,
    opcode: Opcode,
    bytes: &[u8],
) -> Result<(RawType, &[u8]), ItemError>
    requires { is_nested opcode ≡ false }
    ensures { AnswersBytes (λ x. (type_view x.0, x.1.now)) result ((plain_entry types opcode).read bytes.now) }
{
    match opcode {
        Opcode::Primitive(primitive) => {
            let ty = RawDefinedType::Primitive(primitive);
            Ok((RawType::Defined(ty), bytes))
        }
        Opcode::Record => record_of(alloc, types, bytes),
        Opcode::Variant => variant_of(alloc, types, bytes),
        Opcode::List => list_of(types, bytes),
        Opcode::Tuple => tuple_of(alloc, types, bytes),
        Opcode::Flags => flags_of(alloc, bytes),
        Opcode::Enum => enum_of(alloc, bytes),
        Opcode::Option => option_of(types, bytes),
        Opcode::Result => result_of(types, bytes),
        Opcode::Function => function_of(alloc, types, bytes),
        Opcode::Component | Opcode::Instance => unreachable!(),
    }
}
