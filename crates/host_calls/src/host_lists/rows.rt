//! The rows of a package's table: what each is, where it stands, and how much room it takes.
ghost use Rattle.std.specs.Prelude.{◌≡◌, IsTrue, length};
ghost use Rattle.tables.specs.Tables.{option_below};
ghost use Rattle.host_calls.specs.Contents.{target_of};
ghost use Rattle.host_calls.specs.Rows.{type_row, type_info, row_info_at};
ghost use Rattle.host_calls.specs.Told.{TellsOfTable};

use crate::host_lists::kinds::type_number;
use crate::host_lists::members::member_count;
use crate::host_lists::owners::{owner_numbers, stated_owner};
use crate::{CallError, told};
use tables::{Definition, TypeDefKind, TypeId, ValType};
use values::Types;

/// A type: its kind, its row if it has one, and its size and alignment in bytes. All are 0 where there is no type.
#[repr(C)]
#[derive(Clone, Copy, Debug)]
pub struct TypeInfo {
    pub kind: u32,
    pub row: u32,
    pub size: u32,
    pub align: u32,
}

/// A row of the table. `ty` is the row itself as a type; a function's size is that of the record of its parameters.
/// `target` is a list's element, the type that an alias or a used name stands for, or a function's result. `owner_kind`
/// is 1 where the row has a name in an interface, 2 where it has one in a world, and `owner` the number of either.
/// `members` is the number of its fields, elements, cases, labels or parameters.
#[repr(C)]
#[derive(Clone, Copy, Debug)]
pub struct RowInfo {
    pub ty: TypeInfo,
    pub target: TypeInfo,
    pub owner_kind: u32,
    pub owner: u32,
    pub members: u32,
}

/// The row of a type, 0 where it has none.
fn type_row(ty: ValType) -> u32
    ensures { result ≡ type_row ty }
{
    match ty {
        ValType::Primitive(_) | ValType::String => 0,
        ValType::Id(id) => id.0,
    }
}

/// What is told of a type, if there is one.
pub(crate) fn type_info(types: &Types, ty: Option<ValType>) -> TypeInfo
    requires { IsTrue (option_below (length types.now.definitions) ty) }
    ensures { result ≡ type_info types.now ty }
{
    let Some(ty) = ty else {
        return TypeInfo {
            kind: 0,
            row: 0,
            size: 0,
            align: 0,
        };
    };
    let layouts = types.layouts();
    TypeInfo {
        kind: type_number(types.resolve(), ty),
        row: type_row(ty),
        size: layouts.size(ty),
        align: layouts.align(ty),
    }
}

fn target_of(definition: &Definition) -> Option<ValType>
    ensures { result ≡ target_of definition.now }
{
    match definition {
        Definition::Type(definition) => match &definition.kind {
            TypeDefKind::Use(id) => Some(ValType::Id(*id)),
            TypeDefKind::Alias(ty) | TypeDefKind::List(ty) => Some(*ty),
            _ => None,
        },
        Definition::Function(function) => function.result,
    }
}

/// The row of this number, if there is one.
fn row_at(types: &Types, number: u32) -> Option<RowInfo>
    ensures { result ≡ row_info_at types.now number }
{
    let definitions = types.resolve().definitions.as_slice();
    let definition = definitions.get(number as usize)?;
    let (owner_kind, owner) = owner_numbers(stated_owner(definition));
    Some(RowInfo {
        ty: type_info(types, Some(ValType::Id(TypeId(number)))),
        target: type_info(types, target_of(definition)),
        owner_kind,
        owner,
        members: told(member_count(definition)),
    })
}

/// Tells the row of this number: 70 where no package is open, 75 where no row has this number.
pub fn row(types: &Option<Types>, number: u32, out: &mut RowInfo) -> Result<usize, CallError>
    ensures { TellsOfTable types.now (λ r. row_info_at r number) out.old result out.new }
{
    let Some(types) = types else {
        return Err(CallError::NotOpen);
    };
    let Some(found) = row_at(types, number) else {
        return Err(CallError::NotThere);
    };
    *out = found;
    Ok(0)
}
