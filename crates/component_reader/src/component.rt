//! The package that a raw component may stand for: whether it does is seen by writing it again.
ghost use Rattle.std.specs.Prelude.{◌≡◌, ◌<◌, ◌-◌, length, map, slice_get, IfOk, IfErr, OnOk};
ghost use Rattle.package_form.specs.Closed.{is_same_package};
ghost use Rattle.atoms.specs.FullName.{IsFullName, full_name_text};
ghost use Rattle.ctype_format.specs.Names.{name_view};
ghost use Rattle.ctype_bin.specs.FileView.{raw_component_view};
ghost use Rattle.ctype_format.specs.View.{decl_view, decls_of, type_view};
ghost use Rattle.ctype_format.specs.Raw.{Component, Instance};
ghost use Rattle.component_reader.specs.Types.{ReadsAs, Becomes};
ghost use Rattle.component_reader.specs.Component.{Makes, no_component, alias_read, type_read, instance_named};
ghost use Rattle.component_reader.specs.Component.{component_exported, import_read, export_read, declaration_read};
ghost use Rattle.component_reader.specs.Component.{declarations_read, package_in_name, has_name, with_package};
ghost use Rattle.component_reader.specs.Component.{last_package, candidate_read, candidate_of_decls, candidate_of_type};
ghost use Rattle.component_reader.specs.Component.{candidate_of};
ghost use Rattle.component_reader.specs.Names.{parts_view, package_parts};
ghost use Rattle.component_reader.specs.Readers.{component_view};

use crate::instance::InstanceReader;
use crate::keys::keyed_by_exports;
use crate::names::{FullNameParts, NameParts, name_parts};
use crate::unread::Unread;
use crate::world::WorldReader;
use atoms::{KeyedState, Label};
use ctype_bin::{ExternName, RawAlias, RawComponent, RawDecl, RawDescription, RawType};
use indexmap::IndexMap;
use package_form::is_same_version;
use std::alloc::{AllocError, Global};
use table_building::from_parts;
use tables::{
    Definition, Interface, InterfaceId, PackageId, PackageName, Resolve, Sequence, TypeId, World,
    WorldId, copy_version,
};

/// What was read of a component type.
#[derive(Drop)]
pub struct ComponentReader {
    packages: Vec<PackageName>,
    rows: Vec<Definition>,
    interfaces: Vec<Interface>,
    /// The types that each interface exports, by their names.
    exports: Vec<IndexMap<Vec<u8>, TypeId, KeyedState>>,
    worlds: Vec<World>,
    /// The row of each type index.
    indices: Vec<Option<TypeId>>,
    /// The interface whose instance type has each type index.
    instances: Vec<Option<InterfaceId>>,
    /// An instance type whose export hasn't come yet.
    awaited: Option<InstanceReader>,
    /// A component type whose export hasn't come yet.
    awaited_world: Option<WorldReader>,
    keyed: KeyedState,
}

/// The place of the next interface. No memory where an id can't tell it.
fn next_interface(interfaces: &[Interface]) -> Result<InterfaceId, AllocError>
    ensures ok { IfOk result (λ id. id.0 ≡ length interfaces.now) }
    ensures err { IfErr result (λ _. u32.MAX < length interfaces.now) }
{
    match u32::try_from(interfaces.len()) {
        Ok(place) => Ok(InterfaceId(place)),
        Err(_) => Err(AllocError),
    }
}

/// The place of the next world. No memory where an id can't tell it.
fn next_world(worlds: &[World]) -> Result<WorldId, AllocError>
    ensures ok { IfOk result (λ id. id.0 ≡ length worlds.now) }
    ensures err { IfErr result (λ _. u32.MAX < length worlds.now) }
{
    match u32::try_from(worlds.len()) {
        Ok(place) => Ok(WorldId(place)),
        Err(_) => Err(AllocError),
    }
}

impl ComponentReader {
    /// Nothing was read.
    fn new(alloc: Global, keyed: KeyedState) -> Self
        ensures { component_view result ≡ no_component }
    {
        ComponentReader {
            packages: Vec::new(alloc),
            rows: Vec::new(alloc),
            interfaces: Vec::new(alloc),
            exports: Vec::new(alloc),
            worlds: Vec::new(alloc),
            indices: Vec::new(alloc),
            instances: Vec::new(alloc),
            awaited: None,
            awaited_world: None,
            keyed,
        }
    }

    fn alias(&mut self, alias: &RawAlias) -> Result<(), Unread>
        ensures { Becomes (alias_read alias.now (component_view self.old)) (component_view self.new) result }
    {
        let RawAlias::InstanceExport { instance, name } = alias else {
            return Err(Unread::NotThisShape);
        };
        let Some(types) = self.exports.get(*instance as usize) else {
            return Err(Unread::NotThisShape);
        };
        let Some(id) = types.get(name.as_bytes()) else {
            return Err(Unread::NotThisShape);
        };
        self.indices.push(Some(*id))?;
        self.instances.push(None)?;
        Ok(())
    }

    /// Awaits the export of an instance type with these declarations.
    fn read_instance(&mut self, alloc: Global, decls: &[RawDecl]) -> Result<(), Unread>
        ensures { Becomes (type_read (Instance (decls_of (map decl_view decls.now))) (component_view self.old))
            (component_view self.new) result }
    {
        let place = next_interface(&self.interfaces)?;
        let reader = InstanceReader::read(
            alloc,
            self.keyed,
            &mut self.rows,
            place,
            &self.indices,
            decls,
        )?;
        self.awaited = Some(reader);
        self.awaited_world = None;
        self.indices.push(None)?;
        self.instances.push(Some(place))?;
        Ok(())
    }

    /// Awaits the export of a component type with these declarations.
    fn read_component(&mut self, alloc: Global, decls: &[RawDecl]) -> Result<(), Unread>
        ensures { Becomes (type_read (Component (decls_of (map decl_view decls.now))) (component_view self.old))
            (component_view self.new) result }
    {
        let place = next_world(&self.worlds)?;
        let reader = WorldReader::read(
            alloc,
            self.keyed,
            &mut self.rows,
            place,
            &self.instances,
            decls,
        )?;
        self.awaited = None;
        self.awaited_world = Some(reader);
        self.indices.push(None)?;
        self.instances.push(None)?;
        Ok(())
    }

    #[tactic(auto, using(ctype_format::proofs::ScopedTypeViews::views), unfolding(ctype_format::specs::View::type_view))]
    fn define(&mut self, alloc: Global, ty: &RawType) -> Result<(), Unread>
        ensures { Becomes (type_read (type_view ty.now) (component_view self.old)) (component_view self.new) result }
    {
        match ty {
            RawType::Instance(decls) => self.read_instance(alloc, decls),
            RawType::Component(decls) => self.read_component(alloc, decls),
            RawType::Defined(_) | RawType::Function(_) => Err(Unread::NotThisShape),
        }
    }

    /// Names the instance type that is awaited, as an interface of this full name.
    fn name_instance(&mut self, alloc: Global, name: FullNameParts<'_>) -> Result<(), Unread>
        requires { IsFullName (full_name_text (parts_view name)) (parts_view name) }
        ensures { Becomes (instance_named (full_name_text (parts_view name.entry)) (component_view self.old))
            (component_view self.new) result }
    {
        let Some(reader) = self.awaited.take() else {
            return Err(Unread::NotThisShape);
        };
        let package = package_of(alloc, &mut self.packages, name)?;
        let label = Label::from_bytes(alloc, name.name)?;
        let (interface, types) = reader.into_interface(package, label);
        self.interfaces.push(interface)?;
        self.exports.push(types)?;
        Ok(())
    }

    /// Exports the component type that is awaited, as a world of this full name.
    fn export_component(&mut self, alloc: Global, name: FullNameParts<'_>) -> Result<(), Unread>
        requires { IsFullName (full_name_text (parts_view name)) (parts_view name) }
        ensures { Becomes (component_exported (full_name_text (parts_view name.entry)) (component_view self.old))
            (component_view self.new) result }
    {
        let Some(reader) = self.awaited_world.take() else {
            return Err(Unread::NotThisShape);
        };
        let package = package_of(alloc, &mut self.packages, name)?;
        let label = Label::from_bytes(alloc, name.name)?;
        self.worlds.push(reader.into_world(package, label))?;
        Ok(())
    }

    /// Imports an interface.
    fn import(
        &mut self,
        alloc: Global,
        name: &ExternName,
        description: &RawDescription,
    ) -> Result<(), Unread>
        ensures { Becomes (import_read (name_view name.now) description.now (component_view self.old))
            (component_view self.new) result }
    {
        match (name_parts(name), description) {
            (NameParts::FullName(name), RawDescription::Instance(_)) => {
                self.name_instance(alloc, name)
            }
            _ => Err(Unread::NotThisShape),
        }
    }

    fn export(
        &mut self,
        alloc: Global,
        name: &ExternName,
        description: &RawDescription,
    ) -> Result<(), Unread>
        ensures { Becomes (export_read (name_view name.now) description.now (component_view self.old))
            (component_view self.new) result }
    {
        match (name_parts(name), description) {
            (NameParts::FullName(name), RawDescription::Instance(_)) => {
                self.name_instance(alloc, name)
            }
            (NameParts::FullName(name), RawDescription::Component(_)) => {
                self.export_component(alloc, name)
            }
            _ => Err(Unread::NotThisShape),
        }
    }

    #[tactic(auto, unfolding(ctype_format::specs::View::decl_view))]
    fn read(&mut self, alloc: Global, decl: &RawDecl) -> Result<(), Unread>
        ensures { Becomes (declaration_read (decl_view decl.now) (component_view self.old)) (component_view self.new)
            result }
    {
        match decl {
            RawDecl::Alias(alias) => self.alias(alias),
            RawDecl::Type(ty) => self.define(alloc, ty),
            RawDecl::Export(name, description) => self.export(alloc, name, description),
            RawDecl::Import(name, description) => self.import(alloc, name, description),
        }
    }

    /// What the declarations of a component type are.
    fn read_all(alloc: Global, decls: &[RawDecl]) -> Result<Self, Unread>
        ensures { ReadsAs component_view (declarations_read (decls_of (map decl_view decls.now)) no_component) result }
    {
        let mut reader = ComponentReader::new(alloc, keyed_by_exports(decls));
        for decl in decls {
            reader.read(alloc, decl)?;
        }
        Ok(reader)
    }

    /// The package of what was read.
    fn finish(self) -> Result<Resolve, Unread>
        ensures { Makes (candidate_read (component_view self)) result }
    {
        let resolve = from_parts(
            Sequence::new(self.packages),
            Sequence::new(self.interfaces),
            Sequence::new(self.worlds),
            Sequence::new(self.rows),
        );
        match resolve {
            Ok(resolve) => Ok(resolve),
            Err(_) => Err(Unread::NotThisShape),
        }
    }
}

/// Whether a package has the name in a full name.
fn is_same_package(package: &PackageName, name: FullNameParts<'_>) -> bool
    ensures { result ≡ is_same_package «package».now (package_parts (parts_view name.entry)) }
{
    package.namespace.as_bytes() == name.namespace
        && package.name.as_bytes() == name.package
        && is_same_version(&package.version, name.version)
}

/// Whether the last of these packages has the name in a full name.
fn has_name(packages: &[PackageName], name: FullNameParts<'_>) -> bool
    ensures { result ≡ has_name (slice_get packages.now (length packages.now - 1))
        (package_parts (parts_view name.entry)) }
{
    match packages.last() {
        Some(package) => is_same_package(package, name),
        None => false,
    }
}

/// The name of the package in a full name.
fn package_name(alloc: Global, name: FullNameParts<'_>) -> Result<PackageName, AllocError>
    requires { IsFullName (full_name_text (parts_view name)) (parts_view name) }
    ensures { IfOk result (λ p. p ≡ package_in_name (full_name_text (parts_view name.entry))) }
{
    Ok(PackageName {
        namespace: Label::from_bytes(alloc, name.namespace)?,
        name: Label::from_bytes(alloc, name.package)?,
        version: copy_version(name.version)?,
    })
}

/// The place of the last package. No memory where an id can't tell it.
fn last_package(packages: &[PackageName]) -> Result<PackageId, AllocError>
    ensures ok { IfOk result (λ id. id ≡ last_package packages.now) }
    ensures err { IfErr result (λ _. u32.MAX < length packages.now - 1) }
{
    match u32::try_from(packages.len().saturating_sub(1)) {
        Ok(place) => Ok(PackageId(place)),
        Err(_) => Err(AllocError),
    }
}

/// The package of a full name: the last of these, or a new one behind it. No memory where an id can't tell it.
fn package_of(
    alloc: Global,
    packages: &mut Vec<PackageName>,
    name: FullNameParts<'_>,
) -> Result<PackageId, AllocError>
    requires { IsFullName (full_name_text (parts_view name)) (parts_view name) }
    ensures packages { OnOk result (packages.new.items
        ≡ with_package packages.old.items (package_in_name (full_name_text (parts_view name.entry)))) }
    ensures last { IfOk result (λ id. id ≡ last_package packages.new.items) }
{
    if !has_name(packages, name) {
        packages.push(package_name(alloc, name)?)?;
    }
    last_package(packages)
}

/// The package of a component type with these declarations.
fn candidate_of_decls(alloc: Global, decls: &[RawDecl]) -> Result<Resolve, Unread>
    ensures { Makes (candidate_of_decls (decls_of (map decl_view decls.now))) result }
{
    let reader = ComponentReader::read_all(alloc, decls)?;
    reader.finish()
}

#[tactic(auto, using(ctype_format::proofs::ScopedTypeViews::views), unfolding(ctype_format::specs::View::type_view))]
fn candidate_of_type(alloc: Global, ty: &RawType) -> Result<Resolve, Unread>
    ensures { Makes (candidate_of_type (type_view ty.now)) result }
{
    match ty {
        RawType::Component(decls) => candidate_of_decls(alloc, decls),
        RawType::Defined(_) | RawType::Function(_) | RawType::Instance(_) => {
            Err(Unread::NotThisShape)
        }
    }
}

/// The package that the component may stand for.
pub fn candidate(alloc: Global, raw: &RawComponent) -> Result<Resolve, Unread>
    ensures { Makes (candidate_of (raw_component_view raw.now)) result }
{
    match raw.types() {
        [ty] => candidate_of_type(alloc, ty),
        _ => Err(Unread::NotThisShape),
    }
}
