//! The names of rows and of their members.
ghost use Rattle.std.specs.Prelude.{◌≡◌, ◌∷◌, [], option_map, slice_get};
ghost use Rattle.host_calls.specs.Names.{definition_name, member_labels, definition_labels, row_name_at};
ghost use Rattle.host_calls.specs.Names.{member_name_at};
ghost use Rattle.host_calls.specs.Told.{TellsName};

use crate::CallError;
use crate::host_lists::bytes::tell_bytes;
use atoms::Label;
use tables::{Definition, TypeDefKind};
use values::Types;

/// The name of a row: no bytes where it has none.
fn own_name(definition: &Definition) -> &[u8]
    ensures { result.now ≡ definition_name definition.now }
{
    match definition {
        Definition::Type(definition) => match &definition.name {
            Some(name) => name.name.as_bytes(),
            None => b"",
        },
        Definition::Function(function) => function.name.as_bytes(),
    }
}

/// Tells the name of a row: 70 where no package is open, 75 where no row has this number. A row without a name has 0
/// bytes.
pub fn row_name(types: &Option<Types>, row: u32, out: &mut [u8]) -> Result<usize, CallError>
    ensures { TellsName types.now (λ r. row_name_at r row) out.old result out.new }
{
    let Some(types) = types else {
        return Err(CallError::NotOpen);
    };
    match types.resolve().definitions.as_slice().get(row as usize) {
        Some(definition) => tell_bytes(own_name(definition), out),
        None => Err(CallError::NotThere),
    }
}

/// The label of the first case of two, or of the second.
fn label_of_two<'a>(first: &'a str, second: &'a str, index: usize) -> Option<&'a [u8]>
    ensures { option_map (λ l. l.now) result ≡ slice_get (first.now ∷ second.now ∷ []) index }
{
    match index {
        0 => Some(first.as_bytes()),
        1 => Some(second.as_bytes()),
        _ => None,
    }
}

fn nth_label<'a>(labels: &'a [Label], index: usize) -> Option<&'a [u8]>
    ensures { option_map (λ l. l.now) result ≡ slice_get labels.now index }
{
    Some(labels.get(index)?.as_bytes())
}

fn label_in<'a>(kind: &'a TypeDefKind, index: usize) -> Option<&'a [u8]>
    ensures { option_map (λ l. l.now) result ≡ slice_get (member_labels kind.now) index }
{
    match kind {
        TypeDefKind::Use(_) | TypeDefKind::Alias(_) | TypeDefKind::List(_) => None,
        TypeDefKind::Option(_) => label_of_two("none", "some", index),
        TypeDefKind::Result(_, _) => label_of_two("ok", "error", index),
        TypeDefKind::Tuple(types) => match types.as_slice().get(index) {
            Some(_) => Some(b""),
            None => None,
        },
        TypeDefKind::Record(fields) => Some(fields.as_slice().get(index)?.name.as_bytes()),
        TypeDefKind::Variant(cases) => Some(cases.as_slice().get(index)?.name.as_bytes()),
        TypeDefKind::Enum(labels) | TypeDefKind::Flags(labels) => {
            nth_label(labels.as_slice(), index)
        }
    }
}

/// The label of a member: no bytes of an element of a tuple.
fn label_of<'a>(definition: &'a Definition, index: usize) -> Option<&'a [u8]>
    ensures { option_map (λ l. l.now) result ≡ slice_get (definition_labels definition.now) index }
{
    match definition {
        Definition::Type(definition) => label_in(&definition.kind, index),
        Definition::Function(function) => {
            Some(function.params.as_slice().get(index)?.name.as_bytes())
        }
    }
}

/// Tells the label of a member of a row: 70 where no package is open, 75 where there is none. An element of a tuple has
/// 0 bytes.
pub fn member_name(
    types: &Option<Types>,
    row: u32,
    index: u32,
    out: &mut [u8],
) -> Result<usize, CallError>
    ensures { TellsName types.now (λ r. member_name_at r row index) out.old result out.new }
{
    let Some(types) = types else {
        return Err(CallError::NotOpen);
    };
    let definitions = types.resolve().definitions.as_slice();
    let Some(definition) = definitions.get(row as usize) else {
        return Err(CallError::NotThere);
    };
    match label_of(definition, index as usize) {
        Some(label) => tell_bytes(label, out),
        None => Err(CallError::NotThere),
    }
}
