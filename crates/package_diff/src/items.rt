//! The items of a package, each under the words that name it.

use crate::shapes::RowShape;
use crate::words::{function_words, type_words};
use atoms::Label;
use std::alloc::{AllocError, Global};
use tables::{
    Definition, Direction, FunctionId, InterfaceId, PackageId, Resolve, TypeId, WorldItem,
    WorldItemKind,
};
use text_builder::TextBuilder;

/// What crosses of an item.
#[derive(Clone, Copy, PartialEq, Eq)]
pub enum Crossing {
    /// The number of a type's shape.
    Type(usize),
    Function(RowShape),
    /// An interface of a world.
    Nothing,
}

/// An item of an interface or a world.
#[derive(Drop)]
pub struct Item {
    /// Its interface or world without the version, and its label: `demo:shop/desk order`. Of a world also its
    /// direction.
    pub name: String,
    /// What it is, as WIT spells it.
    pub words: String,
    pub crossing: Crossing,
    /// The function that it is.
    pub function: Option<FunctionId>,
}

/// The items of the last package of a table.
#[derive(Drop)]
struct Items<'a> {
    alloc: Global,
    table: &'a Resolve,
    /// The shapes of the rows.
    rows: &'a [RowShape],
    list: Vec<Item>,
    /// No text. It keeps whether an allocation was refused.
    refusals: TextBuilder,
}

fn direction_word(direction: Direction) -> &'static str {
    match direction {
        Direction::Import => "import",
        Direction::Export => "export",
    }
}

impl<'a> Items<'a> {
    fn push(&mut self, item: Item) {
        self.refusals.add(&mut self.list, item);
    }

    /// Whether a package is the last one.
    fn is_own(&self, package: PackageId) -> bool {
        (package.0 as usize).saturating_add(1) == self.table.packages.len()
    }

    /// The full name of an interface or a world, without its version.
    fn plain_name(&mut self, package: PackageId, label: &Label) -> String {
        let label = label.as_str();
        self.refusals.kept(
            match self.table.packages.as_slice().get(package.0 as usize) {
                Some(package) => {
                    let (namespace, name) = (package.namespace.as_str(), package.name.as_str());
                    [namespace, ":", name, "/", label].concat(self.alloc)
                }
                None => String::from_str(self.alloc, label),
            },
        )
    }

    fn push_interfaces(&mut self) {
        for interface in self.table.interfaces.as_slice() {
            if self.is_own(interface.package) {
                let owner = self.plain_name(interface.package, &interface.name);
                self.push_types(owner.as_str(), interface.uses.as_slice());
                self.push_types(owner.as_str(), interface.types.as_slice());
                self.push_functions(owner.as_str(), interface.functions.as_slice());
            }
        }
    }

    fn push_types(&mut self, owner: &str, ids: &[TypeId]) {
        for id in ids {
            self.push_type(owner, *id);
        }
    }

    fn push_functions(&mut self, owner: &str, ids: &[FunctionId]) {
        for id in ids {
            self.push_function(owner, *id);
        }
    }

    fn push_type(&mut self, owner: &str, id: TypeId) {
        let place = id.0 as usize;
        let found = self.table.definitions.as_slice().get(place);
        let (Some(Definition::Type(definition)), Some(shape)) = (found, self.rows.get(place)) else {
            return;
        };
        let label = match &definition.name {
            Some(name) => name.name.as_str(),
            None => "",
        };
        let words = type_words(self.alloc, self.table, &definition.kind);
        let item = Item {
            name: self.refusals.kept([owner, " ", label].concat(self.alloc)),
            words: self.refusals.kept(words),
            crossing: Crossing::Type(shape.number),
            function: None,
        };
        self.push(item);
    }

    fn push_function(&mut self, owner: &str, id: FunctionId) {
        let place = id.0 as usize;
        let found = self.table.definitions.as_slice().get(place);
        let (Some(Definition::Function(function)), Some(shape)) = (found, self.rows.get(place))
        else {
            return;
        };
        let label = function.name.as_str();
        let words = function_words(self.alloc, self.table, function);
        let item = Item {
            name: self.refusals.kept([owner, " ", label].concat(self.alloc)),
            words: self.refusals.kept(words),
            crossing: Crossing::Function(*shape),
            function: Some(id),
        };
        self.push(item);
    }

    fn push_worlds(&mut self) {
        for world in self.table.worlds.as_slice() {
            if self.is_own(world.package) {
                let owner = self.plain_name(world.package, &world.name);
                self.push_world_items(owner.as_str(), world.items.as_slice());
            }
        }
    }

    fn push_world_items(&mut self, world: &str, items: &[WorldItem]) {
        for item in items {
            let direction = direction_word(item.direction);
            let owner = self
                .refusals
                .kept(format!(in self.alloc; "{world} {direction}"));
            match item.kind {
                WorldItemKind::Function(id) => self.push_function(owner.as_str(), id),
                WorldItemKind::Interface(id) => self.push_world_interface(owner.as_str(), id),
            }
        }
    }

    /// Adds an interface of a world, which this text names with its direction.
    fn push_world_interface(&mut self, owner: &str, id: InterfaceId) {
        let Some(interface) = self.table.interfaces.as_slice().get(id.0 as usize) else {
            return;
        };
        let name = self.plain_name(interface.package, &interface.name);
        let words = [owner, " ", name.as_str()];
        let item = Item {
            name: self.refusals.kept(words.concat(self.alloc)),
            words: self
                .refusals
                .kept(String::from_str(self.alloc, "interface")),
            crossing: Crossing::Nothing,
            function: None,
        };
        self.push(item);
    }
}

/// The items of the last package of a table with these rows.
pub fn items_of(
    alloc: Global,
    table: &Resolve,
    rows: &[RowShape],
) -> Result<Vec<Item>, AllocError> {
    let mut items = Items {
        alloc,
        table,
        rows,
        list: Vec::new(alloc),
        refusals: TextBuilder::new(alloc),
    };
    items.push_interfaces();
    items.push_worlds();
    let (list, refusals) = (items.list, items.refusals);
    match refusals.finish() {
        Ok(_) => Ok(list),
        Err(error) => Err(error),
    }
}
