//! The declarations of a world's component type as items of the world.
ghost use Rattle.std.specs.Prelude.{◌≡◌, List, map};
ghost use Rattle.atoms.specs.Label.{IsLabel};
ghost use Rattle.ctype_format.specs.Names.{name_view};
ghost use Rattle.ctype_format.specs.View.{decl_view, decls_of, type_view};
ghost use Rattle.tables.specs.declared.tables.Definition.{Definition};
ghost use Rattle.component_reader.specs.Types.{ReadsAs, Becomes};
ghost use Rattle.component_reader.specs.World.{no_world, function_named, aliased_interface, interface_met, named_read};
ghost use Rattle.component_reader.specs.World.{entry_read, outer_read, item_read, world_read};
ghost use Rattle.component_reader.specs.Readers.{awaited_view, world_with};

use crate::instance::{Awaited, InstanceReader};
use crate::names::{NameParts, name_parts};
use crate::unread::Unread;
use atoms::{KeyedState, Label};
use ctype_bin::{ExternName, RawAlias, RawDecl, RawDescription, RawType};
use std::alloc::Global;
use tables::{
    Definition, Direction, Function, InterfaceId, Owner, PackageId, Sequence, World, WorldId,
    WorldItem, WorldItemKind,
};

/// What was read of a world's component type, without its rows.
#[derive(Drop)]
pub struct WorldReader {
    /// Its types and functions.
    inside: InstanceReader,
    items: Vec<WorldItem>,
    /// An interface that is imported or exported next.
    interface: Option<InterfaceId>,
}

/// An import or an export.
#[derive(Clone, Copy)]
struct External<'a> {
    direction: Direction,
    name: &'a ExternName,
    description: &'a RawDescription,
}

/// The interface that an alias stands for, where these are around it.
fn aliased_interface(instances: &[Option<InterfaceId>], alias: &RawAlias) -> Option<InterfaceId>
    ensures { result ≡ aliased_interface instances.now alias.now }
{
    let RawAlias::Outer { count: 1, index } = alias else {
        return None;
    };
    match instances.get(*index as usize) {
        Some(found) => *found,
        None => None,
    }
}

impl WorldReader {
    /// Nothing was read.
    fn new(alloc: Global, keyed: KeyedState) -> Self
        ensures { (rows : List Definition) → world_with rows result ≡ no_world rows }
    {
        WorldReader {
            inside: InstanceReader::new(alloc, keyed),
            items: Vec::new(alloc),
            interface: None,
        }
    }

    /// Imports or exports the function that is awaited.
    fn name_function(
        &mut self,
        alloc: Global,
        rows: &mut Vec<Definition>,
        world: WorldId,
        direction: Direction,
        name: &[u8],
    ) -> Result<(), Unread>
        requires { IsLabel name.now }
        ensures { Becomes (function_named world.0 direction name.now (world_with rows.old.items self.old)
            (awaited_view self.old.inside.awaited)) (world_with rows.new.items self.new) result }
    {
        let awaited = std::mem::replace(&mut self.inside.awaited, Awaited::Nothing);
        let Awaited::Function(params, result) = awaited else {
            return Err(Unread::NotThisShape);
        };
        let function = Function {
            owner: Owner::World(world),
            name: Label::from_bytes(alloc, name)?,
            params,
            result,
        };
        let id = self.inside.push_function(rows, function)?;
        let kind = WorldItemKind::Function(id);
        self.items.push(WorldItem { direction, kind })?;
        Ok(())
    }

    /// Imports or exports the interface that is awaited.
    fn name_interface(&mut self, direction: Direction) -> Result<(), Unread>
        ensures { (rows : List Definition)
            → Becomes (interface_met direction (world_with rows self.old)) (world_with rows self.new) result }
    {
        let Some(id) = self.interface.take() else {
            return Err(Unread::NotThisShape);
        };
        let kind = WorldItemKind::Interface(id);
        self.items.push(WorldItem { direction, kind })?;
        Ok(())
    }

    fn name(
        &mut self,
        alloc: Global,
        rows: &mut Vec<Definition>,
        world: WorldId,
        external: &External<'_>,
    ) -> Result<(), Unread>
        ensures { Becomes (named_read world.0 external.now.direction (name_view external.now.name.now)
            external.now.description.now (world_with rows.old.items self.old)) (world_with rows.new.items self.new)
            result }
    {
        match (name_parts(external.name), external.description) {
            (NameParts::Label(name), RawDescription::Function(_)) => {
                self.name_function(alloc, rows, world, external.direction, name)
            }
            (NameParts::FullName(_), RawDescription::Instance(_)) => {
                self.name_interface(external.direction)
            }
            _ => Err(Unread::NotThisShape),
        }
    }

    /// Awaits the import or export of an interface.
    fn alias(
        &mut self,
        rows: &mut Vec<Definition>,
        instances: &[Option<InterfaceId>],
        alias: &RawAlias,
    ) -> Result<(), Unread>
        ensures { Becomes (outer_read instances.now alias.now (world_with rows.old.items self.old))
            (world_with rows.new.items self.new) result }
    {
        self.inside.settle(rows)?;
        let Some(id) = aliased_interface(instances, alias) else {
            return Err(Unread::NotThisShape);
        };
        self.inside.push_index()?;
        self.interface = Some(id);
        Ok(())
    }

    fn define(
        &mut self,
        alloc: Global,
        rows: &mut Vec<Definition>,
        ty: &RawType,
    ) -> Result<(), Unread>
        ensures { Becomes (entry_read (type_view ty.now) (world_with rows.old.items self.old))
            (world_with rows.new.items self.new) result }
    {
        self.inside.settle(rows)?;
        self.inside.define(alloc, ty)
    }

    #[tactic(auto, unfolding(ctype_format::specs::View::decl_view))]
    fn read_decl(
        &mut self,
        alloc: Global,
        rows: &mut Vec<Definition>,
        world: WorldId,
        instances: &[Option<InterfaceId>],
        decl: &RawDecl,
    ) -> Result<(), Unread>
        ensures { Becomes (item_read instances.now world.0 (decl_view decl.now) (world_with rows.old.items self.old))
            (world_with rows.new.items self.new) result }
    {
        match decl {
            RawDecl::Type(ty) => self.define(alloc, rows, ty),
            RawDecl::Alias(alias) => self.alias(rows, instances, alias),
            RawDecl::Import(name, description) => {
                let external = External {
                    direction: Direction::Import,
                    name,
                    description,
                };
                self.name(alloc, rows, world, &external)
            }
            RawDecl::Export(name, description) => {
                let external = External {
                    direction: Direction::Export,
                    name,
                    description,
                };
                self.name(alloc, rows, world, &external)
            }
        }
    }

    /// What the declarations of this world's component type are, behind these rows, where these interfaces' instance
    /// types are around it.
    pub fn read(
        alloc: Global,
        keyed: KeyedState,
        rows: &mut Vec<Definition>,
        world: WorldId,
        instances: &[Option<InterfaceId>],
        decls: &[RawDecl],
    ) -> Result<Self, Unread>
        ensures { ReadsAs (world_with rows.new.items)
            (world_read instances.now world.0 (decls_of (map decl_view decls.now)) rows.old.items) result }
    {
        let mut reader = WorldReader::new(alloc, keyed);
        for decl in decls {
            reader.read_decl(alloc, rows, world, instances, decl)?;
        }
        Ok(reader)
    }

    /// The world of this name in the first package.
    pub fn into_world(self, package: PackageId, name: Label) -> World
        ensures { result ≡ record { «package» = «package»; name = name; items = self.items.items } }
    {
        World {
            package,
            name,
            items: Sequence::new(self.items),
        }
    }
}
