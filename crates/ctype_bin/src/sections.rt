//! Reading sections and the file.
ghost use Rattle.std.specs.Prelude.{◌≡◌, ◌≤◌, ◌∷◌, [], map, IfOk, Some, None, if◌then◌else◌};
ghost use Rattle.atoms.specs.Production.{run, times, at_end};
ghost use Rattle.ctype_format.specs.declared.error.Stuck.TheVariants.{Past, End};
ghost use Rattle.ctype_format.specs.Bytes.{AnswersBytes, sized, in_section, StaysSmall};
ghost use Rattle.ctype_format.specs.Grammar.{new_scope, IsScopeWithin};
ghost use Rattle.ctype_format.specs.File.{exactly, preamble, custom_content, custom, head, section, custom_next};
ghost use Rattle.ctype_format.specs.File.{trailing, trailing_byte, trailing_fault, max_length, entry_of_type};
ghost use Rattle.ctype_format.specs.File.{type_section, exported, export_section, component_file};
ghost use Rattle.ctype_format.specs.View.{type_view, export_view, parts_file};
ghost use Rattle.ctype_bin.specs.FileView.{raw_component_view};

use crate::component::RawComponent;
use crate::types::Nesting;
use ctype_format::{
    Fault, ItemError, RawExport, RawType, Scope, Stuck, at, byte_of, extern_name_of, index_of,
    new_scope, u32_of, utf8_of, with_entries, zero_of,
};
use std::alloc::Global;

/// The bytes of the longest binary, which has fewer custom sections.
pub(crate) const MAX_LENGTH: usize = 1_048_576;

/// How many scopes may stand within one another.
const MAX_DEPTH: u32 = 4;

/// The magic number, the version and the layer.
pub(crate) const PREAMBLE: [u8; 8] = [0x00, 0x61, 0x73, 0x6d, 0x0d, 0x00, 0x01, 0x00];

/// The number of the type section.
pub(crate) const TYPE_SECTION: u8 = 7;

/// The number of the export section.
pub(crate) const EXPORT_SECTION: u8 = 11;

#[tactic(auto, unfolding(ctype_format::specs::File::exactly))]
fn same_of(expected: u8, bytes: &[u8]) -> Result<&[u8], ItemError>
    ensures { AnswersBytes (λ x. (0, x.now)) result ((exactly (expected ∷ [])).read bytes.now) }
{
    let (found, rest) = byte_of(bytes)?;
    if found != expected {
        return Err(at(Fault::NotComponent, bytes));
    }
    Ok(rest)
}

#[tactic(auto, unfolding(ctype_format::specs::File::exactly))]
fn preamble_of(bytes: &[u8]) -> Result<&[u8], ItemError>
    ensures { AnswersBytes (λ x. (0, x.now)) result ((exactly preamble).read bytes.now) }
{
    let rest = same_of(0x00, bytes)?;
    let rest = same_of(0x61, rest)?;
    let rest = same_of(0x73, rest)?;
    let rest = same_of(0x6d, rest)?;
    let rest = same_of(0x0d, rest)?;
    let rest = same_of(0x00, rest)?;
    let rest = same_of(0x01, rest)?;
    same_of(0x00, rest)
}

/// A fault within a section, told from the end of the bytes that go on behind it.
fn in_section(stuck: Stuck, left: usize) -> Stuck
    requires { StaysSmall stuck left }
    ensures { result ≡ in_section left stuck }
{
    match stuck {
        Stuck::At(fault, more) => Stuck::At(fault, more + left),
        Stuck::End | Stuck::Past(_) => Stuck::At(Fault::SizeMismatch, left),
    }
}

#[tactic(auto, unfolding(ctype_format::specs::File::custom_content))]
fn custom_content_of(bytes: &[u8]) -> Result<(), ItemError>
    ensures { AnswersBytes (λ _. (0, [])) result (custom_content.read bytes.now) }
{
    utf8_of(bytes)?;
    Ok(())
}

#[tactic(auto, unfolding(ctype_format::specs::Bytes::sized))]
fn custom_within(size: u32, bytes: &[u8]) -> Result<&[u8], ItemError>
    ensures { AnswersBytes (λ x. (0, x.now)) result ((sized (λ _. End) size custom_content).read bytes.now) }
{
    if size as usize > bytes.len() {
        custom_content_of(bytes)?;
        return Err(ItemError::Stuck(Stuck::End));
    }
    let (section, behind) = bytes.split_at(size as usize);
    match custom_content_of(section) {
        Ok(()) => Ok(behind),
        Err(ItemError::Stuck(stuck)) => Err(ItemError::Stuck(in_section(stuck, behind.len()))),
        Err(ItemError::Memory) => Err(ItemError::Memory),
    }
}

/// A custom section behind its number.
#[tactic(auto, unfolding(ctype_format::specs::File::custom))]
fn custom_of(bytes: &[u8]) -> Result<&[u8], ItemError>
    ensures { AnswersBytes (λ x. (0, x.now)) result (custom.read bytes.now) }
{
    let (size, rest) = u32_of(bytes)?;
    custom_within(size, rest)
}

/// The size of a section with this number, or nothing where a custom section was read.
#[tactic(auto, unfolding(ctype_format::specs::File::head))]
fn head_of(id: u8, bytes: &[u8]) -> Result<(Option<u32>, &[u8]), ItemError>
    ensures { AnswersBytes (λ x. (x.0, x.1.now)) result ((head id).read bytes.now) }
{
    let (found, rest) = byte_of(bytes)?;
    if found == 0 {
        let rest = custom_of(rest)?;
        return Ok((None, rest));
    }
    if found != id {
        return Err(at(Fault::BadSection(found), bytes));
    }
    let (size, rest) = u32_of(rest)?;
    Ok((Some(size), rest))
}

/// The size of the section with this number, behind custom sections.
fn section_of(id: u8, bytes: &[u8]) -> Result<(u32, &[u8]), ItemError>
    ensures { AnswersBytes (λ x. (x.0, x.1.now)) result ((section id max_length).read bytes.now) }
{
    let mut rest = bytes;
    for _ in 0..MAX_LENGTH {
        let (size, behind) = head_of(id, rest)?;
        if let Some(size) = size {
            return Ok((size, behind));
        }
        rest = behind;
    }
    Err(ItemError::Stuck(Stuck::End))
}

/// What stands behind the export section.
fn trailing_byte(first: u8) -> Fault
    ensures { result ≡ trailing_byte first }
{
    match first {
        TYPE_SECTION | EXPORT_SECTION => Fault::Trailing,
        _ => Fault::BadSection(first),
    }
}

/// Whether a custom section stands there, and what stands behind it.
fn skipped(bytes: &[u8]) -> Result<(bool, &[u8]), ItemError>
    ensures { AnswersBytes (λ x. (if x.0 then Some 0 else None, x.1.now)) result (custom_next.read bytes.now) }
{
    match bytes {
        [0, behind @ ..] => {
            let rest = custom_of(behind)?;
            Ok((true, rest))
        }
        _ => Ok((false, bytes)),
    }
}

/// Nothing more stands there.
fn ended(bytes: &[u8]) -> Result<(), ItemError>
    ensures { AnswersBytes (λ _. (0, [])) result ((at_end trailing_fault).read bytes.now) }
{
    match bytes {
        [] => Ok(()),
        [first, ..] => Err(at(trailing_byte(*first), bytes)),
    }
}

/// Custom sections to the end.
fn trailing_of(bytes: &[u8]) -> Result<(), ItemError>
    ensures { AnswersBytes (λ _. (0, [])) result ((trailing max_length).read bytes.now) }
{
    let mut rest = bytes;
    for _ in 0..MAX_LENGTH {
        let (more, behind) = skipped(rest)?;
        if !more {
            return ended(behind);
        }
        rest = behind;
    }
    Err(ItemError::Stuck(Stuck::End))
}

#[tactic(auto, unfolding(ctype_format::specs::File::entry_of_type))]
fn entry_of(alloc: Global, scope: Scope, bytes: &[u8]) -> Result<(RawType, Scope, &[u8]), ItemError>
    requires { IsScopeWithin scope }
    ensures reads { AnswersBytes (λ x. ((type_view x.0, x.1), x.2.now)) result ((entry_of_type scope).read bytes.now) }
    ensures within { IfOk result (λ x. IsScopeWithin x.1) }
{
    let outermost = Nesting {
        alloc,
        depth: MAX_DEPTH,
        around: &[],
    };
    let (ty, entries, rest) = outermost.type_of(scope, bytes)?;
    Ok((ty, with_entries(scope, entries), rest))
}

fn entries_of(
    alloc: Global,
    count: u32,
    bytes: &[u8],
) -> Result<(Vec<RawType>, Scope, &[u8]), ItemError>
    ensures { AnswersBytes (λ x. ((map type_view x.0.items, x.1), x.2.now)) result
        ((run entry_of_type count (new_scope 0)).read bytes.now) }
{
    let mut types = Vec::new(alloc);
    let mut scope = new_scope(0);
    let mut rest = bytes;
    for _ in 0..count {
        let (ty, after, behind) = entry_of(alloc, scope, rest)?;
        types.push(ty)?;
        scope = after;
        rest = behind;
    }
    Ok((types, scope, rest))
}

#[tactic(auto, unfolding(ctype_format::specs::File::type_section))]
fn type_section_of(alloc: Global, bytes: &[u8]) -> Result<(Vec<RawType>, Scope, &[u8]), ItemError>
    ensures { AnswersBytes (λ x. ((map type_view x.0.items, x.1), x.2.now)) result (type_section.read bytes.now) }
{
    let (count, rest) = u32_of(bytes)?;
    entries_of(alloc, count, rest)
}

#[tactic(auto, unfolding(ctype_format::specs::File::exported))]
fn exported_of(alloc: Global, types: u32, bytes: &[u8]) -> Result<(RawExport, &[u8]), ItemError>
    ensures { AnswersBytes (λ x. (export_view x.0, x.1.now)) result ((exported types).read bytes.now) }
{
    let (name, rest) = extern_name_of(alloc, bytes)?;
    let (sort, behind) = byte_of(rest)?;
    if sort != 3 {
        return Err(at(Fault::UnknownOpcode(sort), rest));
    }
    let (ty, rest) = index_of(types, behind)?;
    let rest = zero_of(rest)?;
    Ok((RawExport { name, ty }, rest))
}

fn exports_of(
    alloc: Global,
    types: u32,
    count: u32,
    bytes: &[u8],
) -> Result<(Vec<RawExport>, &[u8]), ItemError>
    ensures { AnswersBytes (λ x. (map export_view x.0.items, x.1.now)) result
        ((times count (exported types)).read bytes.now) }
{
    let mut exports = Vec::new(alloc);
    let mut rest = bytes;
    for _ in 0..count {
        let (export, behind) = exported_of(alloc, types, rest)?;
        exports.push(export)?;
        rest = behind;
    }
    Ok((exports, rest))
}

#[tactic(auto, unfolding(ctype_format::specs::File::export_section))]
fn export_section_of(
    alloc: Global,
    types: u32,
    bytes: &[u8],
) -> Result<(Vec<RawExport>, &[u8]), ItemError>
    ensures { AnswersBytes (λ x. (map export_view x.0.items, x.1.now)) result ((export_section types).read bytes.now) }
{
    let (count, rest) = u32_of(bytes)?;
    exports_of(alloc, types, count, rest)
}

#[tactic(auto, unfolding(ctype_format::specs::Bytes::sized))]
fn types_within(
    alloc: Global,
    size: u32,
    bytes: &[u8],
) -> Result<(Vec<RawType>, Scope, &[u8]), ItemError>
    ensures { AnswersBytes (λ x. ((map type_view x.0.items, x.1), x.2.now)) result
        ((sized Past size type_section).read bytes.now) }
{
    let len = bytes.len();
    if size as usize > len {
        return match type_section_of(alloc, bytes) {
            Ok(_) => Err(ItemError::Stuck(Stuck::Past(size - len as u32))),
            Err(error) => Err(error),
        };
    }
    let (section, behind) = bytes.split_at(size as usize);
    match type_section_of(alloc, section) {
        Ok((types, scope, [])) => Ok((types, scope, behind)),
        Ok(_) => Err(at(Fault::SizeMismatch, behind)),
        Err(ItemError::Stuck(stuck)) => Err(ItemError::Stuck(in_section(stuck, behind.len()))),
        Err(ItemError::Memory) => Err(ItemError::Memory),
    }
}

#[tactic(auto, unfolding(ctype_format::specs::Bytes::sized))]
fn exports_within(
    alloc: Global,
    types: u32,
    size: u32,
    bytes: &[u8],
) -> Result<(Vec<RawExport>, &[u8]), ItemError>
    ensures { AnswersBytes (λ x. (map export_view x.0.items, x.1.now)) result
        ((sized Past size (export_section types)).read bytes.now) }
{
    let len = bytes.len();
    if size as usize > len {
        return match export_section_of(alloc, types, bytes) {
            Ok(_) => Err(ItemError::Stuck(Stuck::Past(size - len as u32))),
            Err(error) => Err(error),
        };
    }
    let (section, behind) = bytes.split_at(size as usize);
    match export_section_of(alloc, types, section) {
        Ok((exports, [])) => Ok((exports, behind)),
        Ok(_) => Err(at(Fault::SizeMismatch, behind)),
        Err(ItemError::Stuck(stuck)) => Err(ItemError::Stuck(in_section(stuck, behind.len()))),
        Err(ItemError::Memory) => Err(ItemError::Memory),
    }
}

/// The parts of a whole file.
#[tactic(auto, unfolding(ctype_format::specs::File::component_file))]
pub(crate) fn parts_of(
    alloc: Global,
    bytes: &[u8],
) -> Result<(Vec<RawType>, Vec<RawExport>), ItemError>
    ensures { AnswersBytes (λ x. (parts_file x.0 x.1, [])) result (component_file.read bytes.now) }
{
    let rest = preamble_of(bytes)?;
    let (size, rest) = section_of(TYPE_SECTION, rest)?;
    let (types, scope, rest) = types_within(alloc, size, rest)?;
    let (size, rest) = section_of(EXPORT_SECTION, rest)?;
    let (exports, rest) = exports_within(alloc, scope.types, size, rest)?;
    trailing_of(rest)?;
    Ok((types, exports))
}

/// A whole file.
pub(crate) fn file_of(alloc: Global, bytes: &[u8]) -> Result<RawComponent, ItemError>
    ensures { AnswersBytes (λ x. (raw_component_view x, [])) result (component_file.read bytes.now) }
{
    let (types, exports) = parts_of(alloc, bytes)?;
    Ok(RawComponent::of(types, exports))
}
