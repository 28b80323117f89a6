//! What a world imports and exports, by names. An interface without functions has no place there.

use crate::pages::Page;
use tables::{Direction, World, WorldItem, WorldItemKind};

impl<'a> Page<'a> {
    /// Whether an item has a function, as an interface of types alone hasn't.
    fn has_functions(&self, kind: WorldItemKind) -> bool {
        match kind {
            WorldItemKind::Function(_) => true,
            WorldItemKind::Interface(id) => {
                match self.resolve.interfaces.as_slice().get(id.0 as usize) {
                    Some(interface) => !interface.functions.is_empty(),
                    None => false,
                }
            }
        }
    }

    /// Whether a world has a function that crosses its border this way.
    fn has_some(&self, direction: Direction, items: &[WorldItem]) -> bool {
        for item in items {
            if item.direction == direction && self.has_functions(item.kind) {
                return true;
            }
        }
        false
    }

    /// Writes an item of a world: the functions of an interface under its full name, or a function under its own.
    fn put_item(&mut self, kind: WorldItemKind) {
        self.text.push("            \"");
        match kind {
            WorldItemKind::Function(id) => {
                if let Some(function) = self.function(id) {
                    self.text.push_three(function.name.as_str(), "\": ", "");
                    self.put_callable(function);
                }
            }
            WorldItemKind::Interface(id) => {
                let full_name = self.interface_name(id);
                self.text.push_three(full_name.as_str(), "\": ", "");
                self.text.push(self.namespaces.interface(id.0 as usize));
                self.text.push(".Functions");
            }
        }
        self.text.push(",\n");
    }

    fn put_items(&mut self, direction: Direction, items: &[WorldItem]) {
        for item in items {
            if item.direction == direction && self.has_functions(item.kind) {
                self.put_item(item.kind);
            }
        }
    }

    /// Writes what a world imports or exports.
    fn put_side(&mut self, name: &str, direction: Direction, items: &[WorldItem]) {
        self.text.push_three("\n    ", name, " = typing.TypedDict(");
        if self.has_some(direction, items) {
            self.text
                .push_three("\n        \"", name, "\",\n        {\n");
            self.put_items(direction, items);
            self.text.push("        },\n    )\n");
        } else {
            self.text.push_three("\"", name, "\", {})\n");
        }
    }

    /// Writes both sides of a world.
    pub fn put_sides(&mut self, world: &World) {
        let items = world.items.as_slice();
        self.put_side("Imports", Direction::Import, items);
        self.put_side("Exports", Direction::Export, items);
    }
}
