//! The function that is an item of a world.
ghost use Rattle.std.specs.Prelude.{◌≡◌, ◌↔◌, IsTrue, IfSome, IfNone, Some};
ghost use Rattle.tables.specs.Closed.{IsFunction};
ghost use Rattle.tables.specs.Names.{function_name, world_name};
ghost use Rattle.tables.specs.declared.tables.FunctionId.{FunctionId};
ghost use Rattle.function_index.specs.Named.{IsNamedItem, IsNamedOfWorld};

use crate::world_functions::name::is_full_name;
use tables::{Direction, FunctionId, Resolve, World, WorldItem, WorldItemKind};

/// Whether the text is the full name of the world.
fn is_world_name(resolve: &Resolve, world: &World, text: &str) -> bool
    ensures { IsTrue result ↔ (text.now ≡ world_name resolve.now world.now) }
{
    match resolve.packages.as_slice().get(world.package.0 as usize) {
        Some(package) => is_full_name(package, &world.name, text),
        None => text.as_bytes() == world.name.as_bytes(),
    }
}

/// Whether this is a function of this name.
fn has_name(resolve: &Resolve, func: FunctionId, name: &str) -> bool
    ensures named { IsTrue result ↔ (function_name resolve.now func ≡ Some name.now) }
    ensures function { IsTrue result → IsFunction resolve.now func }
{
    resolve.is_function(func) && resolve.signature(func).name.as_bytes() == name.as_bytes()
}

/// The function of this name among the items of one side.
fn function_in(
    resolve: &Resolve,
    items: &[WorldItem],
    side: Direction,
    name: &str,
) -> Option<FunctionId>
    ensures found { IfSome result (IsNamedItem resolve.now items.now side name.now) }
    ensures function { IfSome result (IsFunction resolve.now) }
    ensures none { IfNone result ((f : FunctionId) → ¬ IsNamedItem resolve.now items.now side name.now f) }
{
    for item in items {
        if let WorldItemKind::Function(func) = item.kind {
            if item.direction == side && has_name(resolve, func, name) {
                return Some(func);
            }
        }
    }
    None
}

/// The function of this name that a world imports or exports, as `side` says, by the full name of the world: a function
/// that is itself an item of the world. Those of interfaces are found by `Resolve::function`. (WIT.md, "Item: `world`")
pub fn world_function(
    resolve: &Resolve,
    world: &str,
    side: Direction,
    name: &str,
) -> Option<FunctionId>
    ensures found { IfSome result (IsNamedOfWorld resolve.now world.now side name.now) }
    ensures function { IfSome result (IsFunction resolve.now) }
    ensures none { IfNone result ((f : FunctionId) → ¬ IsNamedOfWorld resolve.now world.now side name.now f) }
{
    for candidate in resolve.worlds.as_slice() {
        if is_world_name(resolve, candidate, world) {
            if let Some(func) = function_in(resolve, candidate.items.as_slice(), side, name) {
                return Some(func);
            }
        }
    }
    None
}
