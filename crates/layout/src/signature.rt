//! The core signatures of a function, of its parameters' kinds and its result's.
ghost use Rattle.std.specs.Prelude.{◌≡◌, ◌≤◌, ◌↔◌, length, map, IsTrue};
ghost use Rattle.canonical_abi.specs.Reading.{kind_of};
ghost use Rattle.layout.specs.Kinds.{passed};
ghost use Rattle.layout.specs.Layout.{results_of, core_signature_of};
ghost use Rattle.layout.specs.Signature.{is_one, single_result, lifted_by, lowered_by};

use crate::kind_list::KindList;
use crate::kinds::Kinds;
use crate::packed_kinds::{PackedKinds, SPILLED, lowest_kind};
use canonical_abi::{CoreKind, Flat};

/// The types of the values that a core function takes and answers.
#[derive(Debug, Drop)]
pub struct CoreSignature {
    pub params: KindList,
    pub result: Option<CoreKind>,
}

/// How parameters of these kinds are passed.
fn params_of(kinds: &PackedKinds) -> KindList
    ensures { result.items ≡ passed kinds.now }
{
    match kinds.unpacked() {
        Kinds::Flat(params) => params,
        Kinds::Spilled => {
            let mut address = KindList::new();
            address.push(CoreKind::I32);
            address
        }
    }
}

/// Whether a result of these kinds goes flat.
fn is_one(kinds: &PackedKinds) -> bool
    ensures { result ≡ is_one kinds.now }
{
    kinds.count <= 1
}

/// How a result of these kinds is passed: by one value, by none, or by an address.
pub(crate) fn result_of(kinds: &PackedKinds) -> Option<CoreKind>
    ensures { results_of result ≡ single_result kinds.now }
{
    match kinds.count {
        0 => None,
        1 => Some(lowest_kind(kinds.wide)),
        _ => Some(CoreKind::I32),
    }
}

/// The signature of the callee's function.
pub(crate) fn lifted_of(params: &PackedKinds, results: &PackedKinds) -> CoreSignature
    ensures { core_signature_of result ≡ lifted_by params.now results.now }
{
    CoreSignature {
        params: params_of(params),
        result: result_of(results),
    }
}

/// The signature of the caller's import.
pub(crate) fn lowered_of(params: &PackedKinds, results: &PackedKinds) -> CoreSignature
    requires { length (passed params.now) ≤ 16 }
    ensures { core_signature_of result ≡ lowered_by params.now results.now }
{
    let mut lowered = lifted_of(params, results);
    if !is_one(results) {
        lowered.params.push(CoreKind::I32);
        lowered.result = None;
    }
    lowered
}

/// Whether the flat values have these kinds.
pub fn are_kinds(kinds: &[CoreKind], flats: &[Flat]) -> bool
    ensures { IsTrue result ↔ (map kind_of flats.now ≡ kinds.now) }
{
    if flats.len() != kinds.len() {
        return false;
    }
    for (i, kind) in kinds.iter().enumerate() {
        if flats[i].kind() != *kind {
            return false;
        }
    }
    true
}

/// Whether the flat values are parameters of these kinds, as they are passed.
fn are_passed(kinds: &PackedKinds, flats: &[Flat]) -> bool
    ensures { IsTrue result ↔ (map kind_of flats.now ≡ passed kinds.now) }
{
    if kinds.count == SPILLED {
        return are_kinds(&[CoreKind::I32], flats);
    }
    if flats.len() != usize::from(kinds.count) {
        return false;
    }
    let mut wide = kinds.wide;
    for flat in flats {
        if flat.kind() != lowest_kind(wide) {
            return false;
        }
        wide /= 2;
    }
    true
}

/// Whether the flat values are what the caller's import takes: the parameters, and behind them an address if the result
/// doesn't go flat.
pub(crate) fn are_lowered(params: &PackedKinds, results: &PackedKinds, flats: &[Flat]) -> bool
    ensures { IsTrue result ↔ (map kind_of flats.now ≡ (lowered_by params.now results.now).params) }
{
    if is_one(results) {
        return are_passed(params, flats);
    }
    match flats.split_last() {
        Some((area, arguments)) => area.kind() == CoreKind::I32 && are_passed(params, arguments),
        None => false,
    }
}

/// How many core values pass parameters of these kinds.
pub(crate) fn passed_count(kinds: &PackedKinds) -> usize
    ensures { result ≡ length (passed kinds.now) }
{
    kinds.count().unwrap_or(1)
}
