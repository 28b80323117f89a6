//! Where a row has its name: an interface or a world, and the full names of these.
ghost use Rattle.std.specs.Prelude.{◌≡◌, IfOk, option_map, slice_get};
ghost use Rattle.tables.specs.Names.{full_name_in, owner_of};
ghost use Rattle.host_calls.specs.Owners.{owner_kind, owner_number, numbered_owner, owner_name};
ghost use Rattle.host_calls.specs.Owners.{owner_name_at};
ghost use Rattle.host_calls.specs.Told.{TellsNewName};

use crate::CallError;
use crate::host_lists::bytes::tell_bytes;
use atoms::Label;
use std::alloc::{AllocError, Global};
use tables::{Definition, InterfaceId, Name, Owner, PackageId, Resolve, WorldId};
use values::Types;

/// Where a row has its name, if it has one.
pub(crate) fn stated_owner(definition: &Definition) -> Option<Owner>
    ensures { result ≡ owner_of definition.now }
{
    match definition {
        Definition::Type(definition) => match &definition.name {
            Some(name) => Some(Owner::Interface(name.interface)),
            None => None,
        },
        Definition::Function(function) => Some(function.owner),
    }
}

/// The kind of an owner and its number, as the header has them.
pub(crate) fn owner_numbers(owner: Option<Owner>) -> (u32, u32)
    ensures kind { result.0 ≡ owner_kind owner }
    ensures number { result.1 ≡ owner_number owner }
{
    match owner {
        None => (0, 0),
        Some(Owner::Interface(interface)) => (1, interface.0),
        Some(Owner::World(world)) => (2, world.0),
    }
}

/// The owner of this kind and this number.
fn numbered_owner(kind: u32, number: u32) -> Option<Owner>
    ensures { result ≡ numbered_owner kind number }
{
    match kind {
        1 => Some(Owner::Interface(InterfaceId(number))),
        2 => Some(Owner::World(WorldId(number))),
        _ => None,
    }
}

/// The full name of this name in a package of the table.
fn full_name(
    alloc: Global,
    resolve: &Resolve,
    package: PackageId,
    name: &Label,
) -> Result<Name, AllocError>
    ensures { IfOk result (λ n. n ≡ full_name_in (slice_get resolve.now.packages «package».0) name.now) }
{
    match resolve.packages.as_slice().get(package.0 as usize) {
        Some(own) => own.full_name(alloc, name),
        None => Name::of(alloc, name),
    }
}

/// The package of an interface or of a world, and its own name, if it is there.
fn parts_of_owner(resolve: &Resolve, owner: Owner) -> Option<(PackageId, &Label)>
    ensures { option_map (λ x. full_name_in (slice_get resolve.now.packages x.0.0) x.1.now) result
        ≡ owner_name resolve.now owner }
{
    match owner {
        Owner::Interface(id) => match resolve.interfaces.as_slice().get(id.0 as usize) {
            Some(interface) => Some((interface.package, &interface.name)),
            None => None,
        },
        Owner::World(id) => match resolve.worlds.as_slice().get(id.0 as usize) {
            Some(world) => Some((world.package, &world.name)),
            None => None,
        },
    }
}

/// Tells the full name of an interface (kind 1) or of a world (kind 2): 70 where no package is open, 75 where none has
/// this number.
pub fn owner_name(
    types: &Option<Types>,
    alloc: Global,
    kind: u32,
    number: u32,
    out: &mut [u8],
) -> Result<usize, CallError>
    ensures { TellsNewName types.now (λ r. owner_name_at r kind number) out.old result out.new }
{
    let Some(types) = types else {
        return Err(CallError::NotOpen);
    };
    let Some(owner) = numbered_owner(kind, number) else {
        return Err(CallError::NotThere);
    };
    let Some((package, name)) = parts_of_owner(types.resolve(), owner) else {
        return Err(CallError::NotThere);
    };
    let name = full_name(alloc, types.resolve(), package, name)?;
    tell_bytes(name.as_str().as_bytes(), out)
}
