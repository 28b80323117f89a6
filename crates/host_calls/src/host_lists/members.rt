//! What stands in a row: fields, elements, cases, labels or parameters.
ghost use Rattle.std.specs.Prelude.{◌≡◌, ◌<◌, map, length, slice_get, Some};
ghost use Rattle.tables.specs.Closed.{closed_type};
ghost use Rattle.values.specs.Types.{IsInside};
ghost use Rattle.host_calls.specs.Contents.{member_types_in, types_of_members};
ghost use Rattle.host_calls.specs.Members.{member_offset, member_at};
ghost use Rattle.host_calls.specs.Told.{TellsOfTable};

use crate::CallError;
use crate::host_lists::rows::{TypeInfo, type_info};
use tables::{Choice, Definition, Member, TypeDefKind, TypeId, ValType};
use values::Types;

/// A member of a row. `offset` is a field's or a parameter's place in bytes, and of a case the place of the payload,
/// whichever case it is. A case without payload has no type, as a label of flags.
#[repr(C)]
#[derive(Clone, Copy, Debug)]
pub struct MemberInfo {
    pub ty: TypeInfo,
    pub offset: u32,
}

fn kind_count(kind: &TypeDefKind) -> usize
    ensures { result ≡ length (member_types_in kind.now) }
{
    match kind {
        TypeDefKind::Use(_) | TypeDefKind::Alias(_) | TypeDefKind::List(_) => 0,
        TypeDefKind::Option(_) | TypeDefKind::Result(_, _) => 2,
        TypeDefKind::Tuple(types) => types.len(),
        TypeDefKind::Record(fields) => fields.len(),
        TypeDefKind::Variant(cases) => cases.len(),
        TypeDefKind::Enum(labels) | TypeDefKind::Flags(labels) => labels.len(),
    }
}

/// How many members a row has.
pub(crate) fn member_count(definition: &Definition) -> usize
    ensures { result ≡ length (types_of_members definition.now) }
{
    match definition {
        Definition::Type(definition) => kind_count(&definition.kind),
        Definition::Function(function) => function.params.len(),
    }
}

/// The type of a field, an element or a parameter.
fn nth_type<M: Member>(members: &[M], index: usize) -> Option<Option<ValType>>
    ensures { result ≡ slice_get (map (λ m. Some (M.type_of m)) members.now) index }
{
    Some(Some(members.get(index)?.ty()))
}

/// The payload's type of a case, if it has one.
fn nth_payload<C: Choice>(choices: &[C], index: usize) -> Option<Option<ValType>>
    ensures { result ≡ slice_get (map (λ c. C.payload_of c) choices.now) index }
{
    Some(choices.get(index)?.payload())
}

fn kind_member(kind: &TypeDefKind, index: usize) -> Option<Option<ValType>>
    ensures { result ≡ slice_get (member_types_in kind.now) index }
{
    match kind {
        TypeDefKind::Use(_) | TypeDefKind::Alias(_) | TypeDefKind::List(_) => None,
        TypeDefKind::Option(payload) => nth_payload(&[None, Some(*payload)], index),
        TypeDefKind::Result(ok, error) => nth_payload(&[*ok, *error], index),
        TypeDefKind::Tuple(types) => nth_type(types.as_slice(), index),
        TypeDefKind::Record(fields) => nth_type(fields.as_slice(), index),
        TypeDefKind::Variant(cases) => nth_payload(cases.as_slice(), index),
        TypeDefKind::Enum(labels) | TypeDefKind::Flags(labels) => {
            nth_payload(labels.as_slice(), index)
        }
    }
}

/// The type of a member, if there is such a member, and if it has one.
fn member_of(definition: &Definition, index: usize) -> Option<Option<ValType>>
    ensures { result ≡ slice_get (types_of_members definition.now) index }
{
    match definition {
        Definition::Type(definition) => kind_member(&definition.kind, index),
        Definition::Function(function) => nth_type(function.params.as_slice(), index),
    }
}

/// Where a member of a row stands, in bytes.
fn member_offset(types: &Types, row: ValType, index: usize) -> u32
    requires { IsInside types.now row }
    ensures { result ≡ member_offset (closed_type types.now row) index }
{
    let layouts = types.layouts();
    if let Some(offset) = layouts.field_offset(row, index) {
        return offset;
    }
    match layouts.case_info(row, index) {
        Some(case) => case.place,
        None => 0,
    }
}

/// The member of this index of a row, if there is one.
fn member_at(types: &Types, row: u32, index: u32) -> Option<MemberInfo>
    ensures { result ≡ member_at types.now row index }
{
    let definitions = types.resolve().definitions.as_slice();
    let definition = definitions.get(row as usize)?;
    let ty = member_of(definition, index as usize)?;
    Some(MemberInfo {
        ty: type_info(types, ty),
        offset: member_offset(types, ValType::Id(TypeId(row)), index as usize),
    })
}

/// Tells the member of this index of a row: 70 where no package is open, 75 where there is none.
pub fn member(
    types: &Option<Types>,
    row: u32,
    index: u32,
    out: &mut MemberInfo,
) -> Result<usize, CallError>
    ensures { TellsOfTable types.now (λ r. member_at r row index) out.old result out.new }
{
    let Some(types) = types else {
        return Err(CallError::NotOpen);
    };
    let Some(found) = member_at(types, row, index) else {
        return Err(CallError::NotThere);
    };
    *out = found;
    Ok(0)
}
