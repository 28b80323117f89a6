//! The header of a world for a guest.

use crate::guest::common::{COMMON, END, IMPLEMENTATION};
use crate::guest::exports::put_export;
use crate::guest::imports::put_import;
use crate::guest::places::{Place, place_of_interface, place_of_world};
use crate::packages::{
    Texts, keyed_by, push_guard, push_guard_end, put_guarded, put_short_names, take_guard,
};
use crate::prefixes::stems_of;
use c_declarations::{Header, Includer, Purpose, Scope, needs_of};
use c_types::Laid;
use std::alloc::{AllocError, Global};
use std::mem::replace;
use tables::{Direction, FunctionId, Interface, InterfaceId, World, WorldItem, WorldItemKind};
use text_builder::TextBuilder;

/// What is written of a world.
#[derive(Drop)]
struct Guest<'a> {
    header: Header<'a>,
    world: &'a World,
    /// The names of the packages in C, without their versions.
    stems: Vec<String>,
    /// For each interface whether the world needs its types.
    needed: Vec<bool>,
    /// What is exported for the functions that the guest defines.
    bodies: TextBuilder,
}

impl<'a> Guest<'a> {
    /// Writes the types of an interface.
    fn put_types(&mut self, scope: &Scope, interface: &Interface) {
        let before = self.header.begin();
        self.header.put_types(scope, interface.uses.as_slice());
        self.header.put_types(scope, interface.types.as_slice());
        let own = self.header.end(before);
        if own.as_str().is_empty() {
            return;
        }
        let full_name = scope.full_name.as_str();
        self.header
            .text
            .push_three("\n/* ---- ", full_name, " */\n\n");
        let prefix = scope.prefix.as_str();
        put_guarded(&mut self.header, "wit_interface_", prefix, own.as_str());
    }

    /// Writes the types of an interface, with the short names of its package.
    fn put_interface(&mut self, interface: &Interface) {
        let place = place_of_interface(&mut self.header, self.stems.as_slice(), interface);
        if let Some(place) = place {
            self.header.begin_package(place.package.as_str());
            self.put_types(&place.scope, interface);
        }
    }

    /// Writes the types that the world needs.
    fn put_interfaces(&mut self) {
        let interfaces = self.header.types.laid.resolve.interfaces.as_slice();
        for (place, interface) in interfaces.iter().enumerate() {
            if self.needed.get(place).copied() == Some(true) {
                self.put_interface(interface);
            }
        }
    }

    /// Writes functions that cross the border of the world in this direction.
    fn put_functions(&mut self, place: &Place, direction: Direction, ids: &[FunctionId]) {
        self.header.begin_package(place.package.as_str());
        for id in ids {
            match direction {
                Direction::Import => put_import(&mut self.header, place, *id),
                Direction::Export => put_export(&mut self.header, &mut self.bodies, place, *id),
            }
        }
    }

    /// Writes the functions of an interface.
    fn put_functions_of(&mut self, direction: Direction, id: InterfaceId) {
        let interfaces = self.header.types.laid.resolve.interfaces.as_slice();
        let Some(interface) = interfaces.get(id.0 as usize) else {
            return;
        };
        let place = place_of_interface(&mut self.header, self.stems.as_slice(), interface);
        if let Some(place) = place {
            self.put_functions(&place, direction, interface.functions.as_slice());
        }
    }

    /// Writes a function of the world itself.
    fn put_function(&mut self, direction: Direction, id: FunctionId) {
        let place = place_of_world(&mut self.header, self.stems.as_slice(), self.world);
        if let Some(place) = place {
            self.put_functions(&place, direction, &[id]);
        }
    }

    /// Writes the functions of an item of the world.
    fn put_item(&mut self, item: &WorldItem) {
        match item.kind {
            WorldItemKind::Interface(id) => self.put_functions_of(item.direction, id),
            WorldItemKind::Function(id) => self.put_function(item.direction, id),
        }
    }

    /// Writes the functions of all items that cross in this direction.
    fn put_items(&mut self, direction: Direction) {
        let world = self.world;
        for item in world.items.as_slice() {
            if item.direction == direction {
                self.put_item(item);
            }
        }
    }

    /// Writes the functions of all items that cross in this direction, below a title of these words if there are some.
    fn put_titled(&mut self, direction: Direction, title: [&str; 3]) {
        let before = self.header.begin();
        self.put_items(direction);
        let own = self.header.end(before);
        if own.as_str().is_empty() {
            return;
        }
        let text = &mut self.header.text;
        text.push("\n/* ---- ");
        text.push_all(&title);
        text.push(" */\n");
        text.push(own.as_str());
    }

    /// Writes the functions of the world of this scope.
    fn put_directions(&mut self, scope: &Scope) {
        let full_name = scope.full_name.as_str();
        self.put_titled(Direction::Import, ["imports of ", full_name, ""]);
        let exports = ["exports of ", full_name, ", which the guest has to define"];
        self.put_titled(Direction::Export, exports);
    }

    /// Writes what a guest has once.
    fn put_implementation(&mut self) {
        let bodies = replace(&mut self.bodies, TextBuilder::new(self.header.alloc));
        let text = &mut self.header.text;
        text.push(IMPLEMENTATION);
        text.append(bodies);
        text.push(END);
    }

    /// Writes the header of the world of this place.
    fn put_header(&mut self, place: &Place) {
        let scope = &place.scope;
        let guard = take_guard(&mut self.header, scope.prefix.as_str());
        let (guard, full_name) = (guard.as_str(), scope.full_name.as_str());
        let text = &mut self.header.text;
        text.push("/* The world ");
        text.push(full_name);
        text.push(" for a guest in C or C++, by wit-explain bind guest. Do not edit. */\n");
        push_guard(text, guard);
        text.push(COMMON);
        self.put_interfaces();
        self.put_directions(scope);
        self.put_implementation();
        put_short_names(&mut self.header);
        push_guard_end(&mut self.header.text, guard);
    }
}

/// The header of a world for a guest, of a table of packages that have these texts. No text if the world's
/// package is not there.
pub fn guest_header_of<'a>(
    alloc: Global,
    laid: Laid<'a>,
    texts: Texts<'a>,
    world: &'a World,
) -> Result<String, AllocError> {
    let purpose = Purpose {
        includer: Includer::Guest,
        comments: texts.comments,
    };
    let stems = stems_of(alloc, laid.resolve.packages.as_slice())?;
    let needed = needs_of(alloc, &laid, world)?;
    let mut header = Header::new(alloc, laid, keyed_by(texts.canonical), purpose)?;
    let place = place_of_world(&mut header, stems.as_slice(), world);
    let mut guest = Guest {
        header,
        world,
        stems,
        needed,
        bodies: TextBuilder::new(alloc),
    };
    if let Some(place) = place {
        guest.put_header(&place);
    }
    guest.header.text.finish()
}
