//! Pictures of the types of a package, and core signatures of its functions.
ghost use Rattle.std.specs.Prelude.{◌≡◌};
ghost use Rattle.layout.specs.Layout.{layouts_of};

use crate::function::FunctionView;
use layout::Layouts;
use layout_picture::{Level, Sheet, TypeLayout, label_of, origin_of, owner_of, push_flat};
use std::alloc::AllocError;
use tables::{Direction, FunctionId, Interface, Resolve, TypeId, ValType, World, WorldItemKind};
use text_builder::TextBuilder;

fn direction_word(direction: Direction) -> &'static str {
    match direction {
        Direction::Import => "import",
        Direction::Export => "export",
    }
}

/// What is drawn of the tables.
#[derive(Drop)]
struct View<'a> {
    resolve: &'a Resolve,
    layouts: &'a Layouts,
    /// The name of the types and functions that are drawn. None for all.
    wanted: Option<&'a str>,
    ghost laid_out: { layouts.now ≡ layouts_of resolve.now },
}

impl<'a> View<'a> {
    fn is_wanted(&self, label: &str) -> bool {
        self.wanted.unwrap_or(label) == label
    }

    /// Draws a type of this full name.
    fn push_layout(&self, sheet: &mut Sheet, name: &str, layout: &TypeLayout<'a>) {
        let alloc = sheet.alloc;
        let (size, align) = (layout.size(), layout.align());
        let heading = sheet.kept(format!(in alloc; "type {name}: size {size}, align {align}"));
        sheet.push_heading(heading.as_str());
        sheet.push_diagram(layout);
        let mut flat = TextBuilder::new(alloc);
        flat.push("flat: ");
        push_flat(&mut flat, &layout.flat());
        let flat = sheet.kept(flat.finish());
        sheet.push_line(Level::First, flat.as_str());
    }

    /// Draws a type, unless it was drawn.
    fn push_type(&self, sheet: &mut Sheet, name: &str, id: TypeId) {
        let ty = ValType::Id(id);
        if let Some(layout) = TypeLayout::new(self.resolve, self.layouts, ty)
            && sheet.draw_once(name)
        {
            self.push_layout(sheet, name, &layout);
        }
    }

    /// Draws the types that an interface declares.
    fn push_types(&self, sheet: &mut Sheet, interface: &str, ids: &[TypeId]) {
        for id in ids {
            let label = label_of(self.resolve, *id);
            if self.is_wanted(label) {
                let name = sheet.kept([interface, " ", label].concat(sheet.alloc));
                self.push_type(sheet, name.as_str(), *id);
            }
        }
    }

    /// Draws a type that an interface uses under this label, by the name that it was declared by.
    fn push_use(&self, sheet: &mut Sheet, used: [&str; 2], id: TypeId) {
        let [interface, label] = used;
        let origin = origin_of(self.resolve, id);
        let owner = sheet.kept(owner_of(sheet.alloc, self.resolve, origin));
        let words = [owner.as_str(), " ", label_of(self.resolve, origin)];
        let name = sheet.kept(words.concat(sheet.alloc));
        self.push_type(sheet, name.as_str(), origin);
        let words = [
            "type ",
            interface,
            " ",
            label,
            ": ",
            name.as_str(),
            ", which it uses",
        ];
        let line = sheet.kept(words.concat(sheet.alloc));
        sheet.push_heading(line.as_str());
    }

    /// Draws the types that an interface uses, each by the name that it was declared by, and says what it is called
    /// here.
    fn push_uses(&self, sheet: &mut Sheet, interface: &str, ids: &[TypeId]) {
        for id in ids {
            let label = label_of(self.resolve, *id);
            if self.is_wanted(label) {
                self.push_use(sheet, [interface, label], *id);
            }
        }
    }

    /// Adds what is shown of an owner's functions: all about one that is wanted by its name, and otherwise core
    /// signatures. The owner is the full name of an interface, or that of a world and the functions' direction.
    fn push_functions(&self, sheet: &mut Sheet, owner: &str, ids: &[FunctionId]) {
        for id in ids {
            let view = FunctionView::new(self.resolve, self.layouts, *id);
            if let Some(view) = view
                && self.is_wanted(view.name())
            {
                view.push_signatures(sheet, owner);
                if self.wanted.is_some() {
                    view.push_memory(sheet);
                }
            }
        }
    }

    fn push_interface(&self, sheet: &mut Sheet, name: &str, interface: &Interface) {
        self.push_uses(sheet, name, interface.uses.as_slice());
        self.push_types(sheet, name, interface.types.as_slice());
        self.push_functions(sheet, name, interface.functions.as_slice());
    }

    /// Adds the functions that the world of this full name imports and exports.
    fn push_world(&self, sheet: &mut Sheet, name: &str, world: &World) {
        for item in world.items.as_slice() {
            if let WorldItemKind::Function(id) = item.kind {
                let direction = direction_word(item.direction);
                let owner = sheet.kept(format!(in sheet.alloc; "{name} {direction}"));
                self.push_functions(sheet, owner.as_str(), &[id]);
            }
        }
    }

    /// Draws the interfaces of the last package.
    fn push_interfaces(&self, sheet: &mut Sheet) {
        let packages = self.resolve.packages.as_slice();
        for interface in self.resolve.interfaces.as_slice() {
            let place = interface.package.0 as usize;
            if place + 1 == packages.len() {
                match packages[place].full_name(sheet.alloc, &interface.name) {
                    Ok(name) => self.push_interface(sheet, name.as_str(), interface),
                    Err(_) => sheet.refuse(),
                }
            }
        }
    }

    /// Adds the functions of the last package's worlds.
    fn push_worlds(&self, sheet: &mut Sheet) {
        let packages = self.resolve.packages.as_slice();
        for world in self.resolve.worlds.as_slice() {
            let place = world.package.0 as usize;
            if place + 1 == packages.len() {
                match packages[place].full_name(sheet.alloc, &world.name) {
                    Ok(name) => self.push_world(sheet, name.as_str(), world),
                    Err(_) => sheet.refuse(),
                }
            }
        }
    }
}

/// Draws the types of each interface of the last package, used ones first, and adds the core signatures of its
/// functions, then those of the functions of its worlds. A type is drawn once, also if more interfaces use it. If a
/// name is wanted, only types and functions of this name are drawn, and of functions also what they have in memory.
/// The sheet keeps whether an allocation was refused.
pub fn draw_package(
    sheet: &mut Sheet,
    resolve: &Resolve,
    layouts: &Layouts,
    wanted: Option<&str>,
) -> Result<(), AllocError>
    requires { layouts.now ≡ layouts_of resolve.now }
{
    let view = View {
        resolve,
        layouts,
        wanted,
    };
    view.push_interfaces(sheet);
    view.push_worlds(sheet);
    Ok(())
}

/// Adds the core signatures of a function under a heading with its owner, the full name of an interface.
pub fn draw_function(sheet: &mut Sheet, tables: (&Resolve, &Layouts), owner: &str, func: FunctionId)
    requires { tables.1.now ≡ layouts_of tables.0.now }
{
    let (resolve, layouts) = tables;
    if let Some(view) = FunctionView::new(resolve, layouts, func) {
        view.push_signatures(sheet, owner);
    }
}
