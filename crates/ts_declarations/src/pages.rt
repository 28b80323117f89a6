//! The namespaces of a table, one after another.

use crate::spellings::Spellings;
use atoms::Label;
use declared_names::{Namespaces, WitTypes, full_name_of};
use std::alloc::{AllocError, Global};
use tables::{
    Direction, Interface, InterfaceId, PackageId, Resolve, World, WorldItem, WorldItemKind,
};
use text_builder::TextBuilder;
use wit_comments::{Block, Comments};

/// The declarations so far.
#[derive(Drop)]
pub struct Page<'a> {
    pub alloc: Global,
    pub resolve: &'a Resolve,
    pub text: TextBuilder,
    pub spellings: Spellings,
    pub wit: WitTypes,
    pub namespaces: Namespaces,
    pub comments: &'a Comments,
    /// The full name of the interface or the world that is written.
    pub scope: String,
}

impl<'a> Page<'a> {
    fn new(
        alloc: Global,
        resolve: &'a Resolve,
        comments: &'a Comments,
    ) -> Result<Page<'a>, AllocError> {
        Ok(Page {
            alloc,
            resolve,
            text: TextBuilder::new(alloc),
            spellings: Spellings::of(alloc, resolve)?,
            wit: WitTypes::of(alloc, resolve)?,
            namespaces: Namespaces::of(alloc, resolve)?,
            comments,
            scope: String::new(alloc),
        })
    }

    /// Writes the comment of what a name of the interface or the world has, and what it is.
    pub fn put_comment(&mut self, indent: &str, name: &str, last: &str) {
        let blank = if name.is_empty() { "" } else { " " };
        let key = format!(in self.alloc; "{}{blank}{name}", self.scope.as_str());
        let key = self.text.kept(key);
        let block = Block {
            open: "/**",
            indent,
            lines: self.comments.of(key.as_str()),
            last,
        };
        block.push(&mut self.text);
    }

    /// The full name of an interface or a world of a package.
    fn full_name(&mut self, id: PackageId, label: &Label) -> String {
        let name = full_name_of(self.alloc, self.resolve, id, label);
        self.text.kept(name)
    }

    /// The full name of an interface.
    pub fn interface_name(&mut self, id: InterfaceId) -> String {
        let resolve = self.resolve;
        match resolve.interfaces.as_slice().get(id.0 as usize) {
            Some(interface) => self.full_name(interface.package, &interface.name),
            None => String::new(self.alloc),
        }
    }

    /// Writes the comment of the interface or the world of this full name, and begins its namespace.
    fn put_scope(&mut self, word: &str, full_name: String) {
        let last = format!(in self.alloc; "{word} {}", full_name.as_str());
        let last = self.text.kept(last);
        self.scope = full_name;
        self.text.push("\n");
        self.put_comment("", "", last.as_str());
        self.text.push("\nexport namespace ");
    }

    /// Writes the interface of this number.
    fn put_interface(&mut self, place: usize, interface: &Interface) {
        let full_name = self.full_name(interface.package, &interface.name);
        self.put_scope("interface", full_name);
        self.text.push(self.namespaces.interface(place));
        self.text.push(" {\n");
        self.put_types(interface.uses.as_slice());
        self.put_types(interface.types.as_slice());
        self.text.push("  export interface Functions {\n");
        self.put_functions(interface.functions.as_slice());
        self.text.push("  }\n}\n");
    }

    fn put_interfaces(&mut self, interfaces: &[Interface]) {
        for (place, interface) in interfaces.iter().enumerate() {
            self.put_interface(place, interface);
        }
    }

    /// Writes an item of a world.
    fn put_item(&mut self, kind: WorldItemKind, side: &str) {
        match kind {
            WorldItemKind::Function(id) => self.put_function(id, side),
            WorldItemKind::Interface(id) => {
                let full_name = self.interface_name(id);
                self.text.push_three("    \"", full_name.as_str(), "\": ");
                self.text.push(self.namespaces.interface(id.0 as usize));
                self.text.push(".Functions;\n");
            }
        }
    }

    /// Writes what a world imports or exports.
    fn put_items(&mut self, name: &str, direction: Direction, items: &[WorldItem]) {
        self.text.push_three("  export interface ", name, " {\n");
        let side = match direction {
            Direction::Import => "import ",
            Direction::Export => "export ",
        };
        for item in items {
            if item.direction == direction {
                self.put_item(item.kind, side);
            }
        }
        self.text.push("  }\n");
    }

    /// Writes the world of this number.
    fn put_world(&mut self, place: usize, world: &World) {
        let full_name = self.full_name(world.package, &world.name);
        self.put_scope("world", full_name);
        self.text.push(self.namespaces.world(place));
        self.text.push(" {\n");
        self.put_items("Imports", Direction::Import, world.items.as_slice());
        self.text.push("\n");
        self.put_items("Exports", Direction::Export, world.items.as_slice());
        self.text.push("}\n");
    }

    fn put_worlds(&mut self, worlds: &[World]) {
        for (place, world) in worlds.iter().enumerate() {
            self.put_world(place, world);
        }
    }
}

/// The declarations of a table: of its last package, and of the interfaces of others that it begins with. They have the
/// comments of these.
pub fn declarations_of<'a>(
    alloc: Global,
    resolve: &'a Resolve,
    comments: &'a Comments,
) -> Result<String, AllocError> {
    let mut page = Page::new(alloc, resolve, comments)?;
    if let Some(main) = resolve.packages.as_slice().last() {
        page.text.push("/* ");
        page.text.push_made(main.to_string(alloc));
        page.text.push(" for hosts in TypeScript, by wit-explain bind ts. Do not edit. */\n");
    }
    page.put_interfaces(resolve.interfaces.as_slice());
    page.put_worlds(resolve.worlds.as_slice());
    page.text.finish()
}
