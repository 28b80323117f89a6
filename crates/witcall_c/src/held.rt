//! What a handle stands for.
ghost use Rattle.std.specs.Prelude.{◌≡◌, IfOk, IfErr};
ghost use Rattle.std.specs.Option.{option_map};
ghost use Rattle.c_border.specs.Functions.{HasNoFunction};
ghost use Rattle.witcall_c.specs.Calls.{opening_status, FindsFunction, FindsOfWorld, HasFunction, LineOf};
ghost use Rattle.witcall_c.specs.Calls.{held_indexed, held_package, held_table};

use c_border::tell_line;
use error_numbers::Numbered;
use host_calls::{CallError, Status, out_of_memory, refused};
use lift_lower::Types;
use opening::{IndexedPackage, OpenError, Package, is_out_of_memory};
use tables::{Direction, FunctionId};

/// A package with an index of its functions, or why the bytes are none.
#[derive(Drop)]
pub struct Held {
    pub opened: Result<IndexedPackage, OpenError>,
}

impl Held {
    /// The status of the opening.
    pub fn status(&self) -> Status
        ensures { result ≡ opening_status self.now.opened }
    {
        let Err(error) = &self.opened else {
            return Status::of(Ok(0));
        };
        let number = error.number();
        if is_out_of_memory(number) {
            return out_of_memory(number);
        }
        refused(number, 0)
    }
}

/// What a handle stands for, if anything.
pub type Target = Option<Box<Held>>;

/// The line of why no package is open, 0 bytes where one is: 70 where the handle stands for nothing.
pub fn line_of(held: &Target, line: &mut [u8]) -> Result<usize, CallError>
    ensures { LineOf (option_map (λ held. held.value) held.now) line.old line.new result }
{
    let Some(held) = held else {
        return Err(CallError::NotOpen);
    };
    match &held.opened {
        Ok(_) => Ok(0),
        Err(error) => tell_line(error, line),
    }
}

/// The number of a function by the full name of its interface and its own: 70 where nothing is open, 63 where no
/// function is called so.
pub fn find(held: &Target, interface: &[u8], name: &[u8]) -> Result<usize, CallError>
    ensures { FindsFunction (held_package (option_map (λ held. held.value) held.now)) interface.now name.now result }
{
    let Some(package) = indexed(held) else {
        return Err(CallError::NotOpen);
    };
    let (Ok(interface), Ok(name)) = (str::from_utf8(interface), str::from_utf8(name)) else {
        return Err(CallError::NoFunction);
    };
    match package.function(interface, name) {
        Some(func) => Ok(func.0 as usize),
        None => Err(CallError::NoFunction),
    }
}

/// The number of a function that a world imports or exports, by the full name of the world and its own: 70 where
/// nothing is open, 63 where no function of that side is called so.
pub fn find_of_world(
    held: &Target,
    world: &[u8],
    side: Direction,
    name: &[u8],
) -> Result<usize, CallError>
    ensures { FindsOfWorld (held_package (option_map (λ held. held.value) held.now)) world.now side name.now result }
{
    let Some(package) = package(held) else {
        return Err(CallError::NotOpen);
    };
    let (Ok(world), Ok(name)) = (str::from_utf8(world), str::from_utf8(name)) else {
        return Err(CallError::NoFunction);
    };
    match package.world_function(world, side, name) {
        Some(func) => Ok(func.0 as usize),
        None => Err(CallError::NoFunction),
    }
}

/// The package with its index, if one is open.
fn indexed(held: &Target) -> Option<&IndexedPackage>
    ensures { option_map (λ p. p.now) result ≡ held_indexed (option_map (λ held. held.value) held.now) }
{
    match held {
        Some(held) => match &held.opened {
            Ok(package) => Some(package),
            Err(_) => None,
        },
        None => None,
    }
}

/// The package, if one is open.
pub fn package(held: &Target) -> Option<&Package>
    ensures { option_map (λ p. p.now) result ≡ held_package (option_map (λ held. held.value) held.now) }
{
    match indexed(held) {
        Some(indexed) => Some(indexed.package()),
        None => None,
    }
}

/// The types of the package, if one is open.
pub fn types(held: &Target) -> Option<Types<'_>>
    ensures { result ≡ held_table (option_map (λ held. held.value) held.now) }
{
    match package(held) {
        Some(package) => Some(package.types()),
        None => None,
    }
}

/// The function of this number, with the types of its package: 70 where nothing is open, 63 where no function has this
/// number.
pub fn function(held: &Target, number: u32) -> Result<(Types<'_>, FunctionId), CallError>
    ensures ok { IfOk result (λ x. HasFunction (held_package (option_map (λ held. held.value) held.now)) number x.0
        x.1) }
    ensures err { IfErr result (HasNoFunction (held_package (option_map (λ held. held.value) held.now)) number) }
{
    match c_border::function(package(held), number) {
        Ok((package, func)) => Ok((package.types(), func)),
        Err(error) => Err(error),
    }
}
