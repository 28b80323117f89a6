//! Reading from left to right, up to the first fault: numbers, names and value types.
ghost use Rattle.std.specs.Prelude.{◌≡◌, ◌<◌, length, IfOk};
ghost use Rattle.ctype_format.specs.Bytes.{AnswersBytes, byte, u32, s33, is_negative};
ghost use Rattle.ctype_format.specs.Grammar.{index, some, count_fault, some_upto, name, label, utf8, extern_name};
ghost use Rattle.ctype_format.specs.Grammar.{zero_byte, flag_byte, primitive, type_index, valtype, optional_valtype};
ghost use Rattle.std.specs.Str.{is_utf8};
ghost use Rattle.ctype_format.specs.Names.{name_view};

use crate::error::{Fault, Feature, ItemError, Stuck};
use crate::name::{ExternName, extern_name};
use crate::opcode::primitive_of;
use crate::raw::RawValType;
use atoms::{AtomError, Label, is_label};
use std::alloc::Global;

/// A fault at the first of these bytes.
pub fn at(fault: Fault, bytes: &[u8]) -> ItemError
    ensures { result ≡ ItemError.Stuck (Stuck.At fault (length bytes.now)) }
{
    ItemError::Stuck(Stuck::At(fault, bytes.len()))
}

pub fn byte_of(bytes: &[u8]) -> Result<(u8, &[u8]), ItemError>
    ensures { AnswersBytes (λ x. (x.0, x.1.now)) result (byte.read bytes.now) }
{
    match bytes {
        [] => Err(ItemError::Stuck(Stuck::End)),
        [first, rest @ ..] => Ok((*first, rest)),
    }
}

pub fn u32_of(bytes: &[u8]) -> Result<(u32, &[u8]), ItemError>
    ensures { AnswersBytes (λ x. (x.0, x.1.now)) result (u32.read bytes.now) }
{
    match atoms::read_u32(bytes) {
        Ok((value, used)) => Ok((value, &bytes[used..])),
        Err(AtomError::Overlong) => Err(at(Fault::Overlong, bytes)),
        Err(_) => Err(ItemError::Stuck(Stuck::End)),
    }
}

pub fn index_of(count: u32, bytes: &[u8]) -> Result<(u32, &[u8]), ItemError>
    ensures reads { AnswersBytes (λ x. (x.0, x.1.now)) result ((index count).read bytes.now) }
    ensures below { IfOk result (λ x. x.0 < count) }
{
    let (index, rest) = u32_of(bytes)?;
    if index >= count {
        return Err(at(Fault::BadIndex, bytes));
    }
    Ok((index, rest))
}

/// A count that is not 0.
pub fn count_of(bytes: &[u8]) -> Result<(u32, &[u8]), ItemError>
    ensures { AnswersBytes (λ x. (x.0, x.1.now)) result (some.read bytes.now) }
{
    let (count, rest) = u32_of(bytes)?;
    if count == 0 {
        return Err(at(Fault::EmptyType, bytes));
    }
    Ok((count, rest))
}

/// What is wrong with a count.
fn count_fault(limit: u32, count: u32) -> Option<Fault>
    ensures { result ≡ count_fault limit count }
{
    if count == 0 {
        return Some(Fault::EmptyType);
    }
    if count > limit {
        return Some(Fault::Limit);
    }
    None
}

/// A count that is neither 0 nor above the limit.
pub fn count_upto(limit: u32, bytes: &[u8]) -> Result<(u32, &[u8]), ItemError>
    ensures { AnswersBytes (λ x. (x.0, x.1.now)) result ((some_upto limit).read bytes.now) }
{
    let (count, rest) = u32_of(bytes)?;
    match count_fault(limit, count) {
        Some(fault) => Err(at(fault, bytes)),
        None => Ok((count, rest)),
    }
}

/// A byte that is 0.
pub fn zero_of(bytes: &[u8]) -> Result<&[u8], ItemError>
    ensures { AnswersBytes (λ x. (0, x.now)) result (zero_byte.read bytes.now) }
{
    let (mark, rest) = byte_of(bytes)?;
    if mark != 0 {
        return Err(at(Fault::UnknownOpcode(mark), bytes));
    }
    Ok(rest)
}

/// A byte that is 0 or 1.
pub fn flag_of(bytes: &[u8]) -> Result<(u8, &[u8]), ItemError>
    ensures { AnswersBytes (λ x. (x.0, x.1.now)) result (flag_byte.read bytes.now) }
{
    let (flag, rest) = byte_of(bytes)?;
    if flag != 0 && flag != 1 {
        return Err(at(Fault::UnknownOpcode(flag), bytes));
    }
    Ok((flag, rest))
}

/// A count of bytes and the bytes.
fn name_of(bytes: &[u8]) -> Result<(&[u8], &[u8]), ItemError>
    ensures { AnswersBytes (λ x. (x.0.now, x.1.now)) result (name.read bytes.now) }
{
    let (len, rest) = u32_of(bytes)?;
    let len = len as usize;
    if rest.len() < len {
        return Err(ItemError::Stuck(Stuck::End));
    }
    Ok(rest.split_at(len))
}

#[inline(always)]
#[tactic(auto, unfolding(crate::specs::Grammar::label))]
pub fn label_of(alloc: Global, bytes: &[u8]) -> Result<(Label, &[u8]), ItemError>
    ensures { AnswersBytes (λ x. (x.0, x.1.now)) result (label.read bytes.now) }
{
    let (text, rest) = name_of(bytes)?;
    if !is_label(text) {
        return Err(at(Fault::BadName, bytes));
    }
    Ok((Label::from_bytes(alloc, text)?, rest))
}

/// A name that is only asked to be UTF-8.
#[tactic(auto, unfolding(crate::specs::Grammar::utf8))]
pub fn utf8_of(bytes: &[u8]) -> Result<(&[u8], &[u8]), ItemError>
    ensures { AnswersBytes (λ x. (x.0.now, x.1.now)) result (utf8.read bytes.now) }
{
    let (text, rest) = name_of(bytes)?;
    if !is_utf8(text) {
        return Err(at(Fault::BadName, bytes));
    }
    Ok((text, rest))
}

fn is_utf8(bytes: &[u8]) -> bool
    ensures { result ≡ is_utf8 bytes.now }
{
    simdutf8::compat::from_utf8(bytes).is_ok()
}

#[tactic(auto, unfolding(crate::specs::Grammar::extern_name))]
pub fn extern_name_of(alloc: Global, bytes: &[u8]) -> Result<(ExternName, &[u8]), ItemError>
    ensures { AnswersBytes (λ x. (name_view x.0, x.1.now)) result (extern_name.read bytes.now) }
{
    let named = zero_of(bytes)?;
    let (text, rest) = name_of(named)?;
    match extern_name(alloc, text)? {
        Some(name) => Ok((name, rest)),
        None => Err(at(Fault::BadName, named)),
    }
}

#[tactic(auto, unfolding(crate::specs::Grammar::primitive))]
fn primitive_valtype_of(bytes: &[u8]) -> Result<(RawValType, &[u8]), ItemError>
    ensures { AnswersBytes (λ x. (x.0, x.1.now)) result (primitive.read bytes.now) }
{
    let (opcode, rest) = byte_of(bytes)?;
    match primitive_of(opcode) {
        Some(primitive) => Ok((RawValType::Primitive(primitive), rest)),
        None if opcode == 0x76 || opcode == 0x75 => {
            Err(at(Fault::Unsupported(Feature::Float), bytes))
        }
        None => Err(at(Fault::UnknownOpcode(opcode), bytes)),
    }
}

/// Whether the number at the front, of at most five bytes, has the sign of a negative one.
fn is_negative(bytes: &[u8]) -> bool
    ensures { result ≡ is_negative 4 bytes.now }
{
    for (i, byte) in bytes.iter().enumerate() {
        if i == 4 {
            return *byte >= 112 && *byte < 128;
        }
        if *byte < 128 {
            return *byte >= 64;
        }
    }
    false
}

fn s33_of(bytes: &[u8]) -> Result<(u32, &[u8]), ItemError>
    ensures { AnswersBytes (λ x. (x.0, x.1.now)) result (s33.read bytes.now) }
{
    match atoms::read_s33(bytes) {
        Ok((value, used)) => Ok((value, &bytes[used..])),
        Err(AtomError::Overlong) if is_negative(bytes) => {
            let (first, _) = byte_of(bytes)?;
            Err(at(Fault::UnknownOpcode(first), bytes))
        }
        Err(AtomError::Overlong) => Err(at(Fault::Overlong, bytes)),
        Err(_) => Err(ItemError::Stuck(Stuck::End)),
    }
}

#[inline(never)]
#[tactic(auto, unfolding(crate::specs::Grammar::type_index))]
fn type_index_of(types: u32, bytes: &[u8]) -> Result<(RawValType, &[u8]), ItemError>
    ensures { AnswersBytes (λ x. (x.0, x.1.now)) result ((type_index types).read bytes.now) }
{
    let (index, rest) = s33_of(bytes)?;
    if index >= types {
        return Err(at(Fault::BadIndex, bytes));
    }
    Ok((RawValType::Index(index), rest))
}

/// A primitive, or an index below `types`, which most often is one byte.
#[inline(always)]
#[tactic(auto, unfolding(crate::specs::Grammar::valtype))]
pub fn valtype_of(types: u32, bytes: &[u8]) -> Result<(RawValType, &[u8]), ItemError>
    ensures { AnswersBytes (λ x. (x.0, x.1.now)) result ((valtype types).read bytes.now) }
{
    match bytes {
        [] => Err(ItemError::Stuck(Stuck::End)),
        [index, rest @ ..] if *index < 64 && (*index as u32) < types => {
            Ok((RawValType::Index(*index as u32), rest))
        }
        [64..128, ..] => primitive_valtype_of(bytes),
        [_, ..] => type_index_of(types, bytes),
    }
}

/// 0, or 1 and a value type.
#[tactic(auto, unfolding(crate::specs::Grammar::optional_valtype))]
pub fn optional_of(types: u32, bytes: &[u8]) -> Result<(Option<RawValType>, &[u8]), ItemError>
    ensures { AnswersBytes (λ x. (x.0, x.1.now)) result ((optional_valtype types).read bytes.now) }
{
    let (flag, rest) = flag_of(bytes)?;
    if flag == 0 {
        return Ok((None, rest));
    }
    let (ty, rest) = valtype_of(types, rest)?;
    Ok((Some(ty), rest))
}
