//! Where the rows of an interface or of a world end.
ghost use Rattle.std.specs.Prelude.{◌≡◌};
ghost use Rattle.package_form.specs.Ends.{behind_types, behind_functions, end_of, interfaces_end, behind_items};
ghost use Rattle.package_form.specs.Ends.{world_end};

use tables::{FunctionId, Interface, TypeId, World, WorldItem, WorldItemKind};

/// The place behind the last of these types, or `start`.
fn behind_types(start: usize, ids: &[TypeId]) -> usize
    ensures { result ≡ behind_types start ids.now }
{
    let mut end = start;
    for id in ids {
        end = id.0 as usize + 1;
    }
    end
}

fn behind_functions(start: usize, ids: &[FunctionId]) -> usize
    ensures { result ≡ behind_functions start ids.now }
{
    let mut end = start;
    for id in ids {
        end = id.0 as usize + 1;
    }
    end
}

/// The place behind an interface's last row, where its rows begin at `start`.
pub fn end_of(start: usize, interface: &Interface) -> usize
    ensures { result ≡ end_of start interface.now }
{
    let end = behind_types(start, interface.uses.as_slice());
    let end = behind_types(end, interface.types.as_slice());
    behind_functions(end, interface.functions.as_slice())
}

/// The place behind the rows of these interfaces, the first of which begin at 0.
pub fn interfaces_end(interfaces: &[Interface]) -> usize
    ensures { result ≡ interfaces_end 0 interfaces.now }
{
    let mut start = 0;
    for interface in interfaces {
        start = end_of(start, interface);
    }
    start
}

/// The place behind the last function of these items, or `start`.
fn behind_items(start: usize, items: &[WorldItem]) -> usize
    ensures { result ≡ behind_items start items.now }
{
    let mut end = start;
    for item in items {
        if let WorldItemKind::Function(id) = item.kind {
            end = id.0 as usize + 1;
        }
    }
    end
}

/// The place behind a world's last row, where its rows begin at `start`.
pub fn world_end(start: usize, world: &World) -> usize
    ensures { result ≡ world_end start world.now }
{
    behind_items(start, world.items.as_slice())
}
