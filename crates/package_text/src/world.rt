//! Worlds: what is written for each of their items.
ghost use Rattle.std.specs.Prelude.{◌≡◌, IfOk, IsTrue};
ghost use Rattle.std.specs.List.{list_all};
ghost use Rattle.wit_tokens.specs.View.{world_entry_view, item_view};
ghost use Rattle.package_form.specs.Form.{IsInPackageForm};
ghost use Rattle.package_text.specs.Written.{direction_for};
ghost use Rattle.package_text.specs.Tree.{item_written, world_written};
ghost use Rattle.package_text.specs.Pieces.{is_item};

use crate::entry::{func, nowhere, path_to};
use std::alloc::{AllocError, Global};
use tables::{Direction, Resolve, World, WorldItem, WorldItemKind};
use wit_tokens::wit_syntax::Item;

fn direction(direction: Direction) -> wit_tokens::wit_syntax::Direction
    ensures { result ≡ direction_for direction }
{
    match direction {
        Direction::Import => wit_tokens::wit_syntax::Direction::Import,
        Direction::Export => wit_tokens::wit_syntax::Direction::Export,
    }
}

fn item_tree(
    alloc: Global,
    resolve: &Resolve,
    item: WorldItem,
) -> Result<wit_tokens::wit_syntax::WorldItem, AllocError>
    requires form { IsInPackageForm resolve.now }
    requires placed { IsTrue (is_item resolve.now item.kind) }
    ensures { IfOk result (λ i. world_entry_view i ≡ item_written resolve.now item) }
{
    let kind = match item.kind {
        WorldItemKind::Interface(id) => {
            wit_tokens::wit_syntax::WorldItemKind::Interface(path_to(alloc, resolve, id)?)
        }
        WorldItemKind::Function(id) => {
            let function = resolve.signature(id);
            wit_tokens::wit_syntax::WorldItemKind::Func(func(
                alloc,
                resolve,
                id.0 as usize,
                function,
            )?)
        }
    };
    Ok(wit_tokens::wit_syntax::WorldItem {
        direction: direction(item.direction),
        kind,
    })
}

/// The tree of a world.
pub(crate) fn world_tree(
    alloc: Global,
    resolve: &Resolve,
    world: &World,
) -> Result<Item, AllocError>
    requires form { IsInPackageForm resolve.now }
    requires placed { IsTrue (list_all (λ i. is_item resolve.now i.kind) world.now.items) }
    ensures { IfOk result (λ i. item_view i ≡ world_written resolve.now world.now) }
{
    let mut items = Vec::new(alloc);
    for item in world.items.as_slice() {
        items.push(item_tree(alloc, resolve, *item)?)?;
    }
    Ok(Item::World(wit_tokens::wit_syntax::World {
        span: nowhere(),
        name: world.name.copy(alloc)?,
        items,
    }))
}
