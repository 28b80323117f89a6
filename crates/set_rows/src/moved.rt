//! What a table has, as it stands in another table.
ghost use Rattle.std.specs.Prelude.{◌≡◌, ◌++◌, IfOk, OnOk, map, option_map, filter};
ghost use Rattle.set_rows.specs.Moved.{put_id, put_function_id, put_interface_id, put_package_id, put_val, put_owner};
ghost use Rattle.set_rows.specs.Moved.{put_kind, put_name, put_type, put_field, put_case, put_parameter, put_function};
ghost use Rattle.set_rows.specs.Moved.{put_row, put_interface, put_item, put_world, has_type, has_function};
ghost use Rattle.std.specs.List.{items_where_true};

use crate::places::Places;
use atoms::Label;
use std::alloc::{AllocError, Global};
use tables::{
    Case, Definition, Field, Function, FunctionId, Interface, InterfaceId, Owner, PackageId,
    PackageName, Parameter, Sequence, TypeDef, TypeDefKind, TypeId, TypeName, ValType, World,
    WorldId, WorldItem, WorldItemKind, copy_version,
};

/// Where what a table has stands in another.
pub trait Placed {
    ghost use Rattle.std.specs.Prelude.{◌≡◌};
    ghost use Rattle.set_rows.specs.Moved.{Renaming};

    ghost renaming: { Self → Renaming };

    fn package(&self, old: u32) -> u32
        ensures { result ≡ (renaming self.now).packages old };

    fn interface(&self, old: u32) -> u32
        ensures { result ≡ (renaming self.now).interfaces old };

    fn world(&self, old: u32) -> u32
        ensures { result ≡ (renaming self.now).worlds old };

    fn row(&self, old: u32) -> u32
        ensures { result ≡ (renaming self.now).rows old };

    /// Whether the row at this place stands there too.
    fn has_row(&self, old: u32) -> bool
        ensures { result ≡ (renaming self.now).keeps old };
}

/// What is kept of each part of a table, and where it stands then.
#[derive(Drop)]
pub struct Moved {
    pub packages: Places,
    pub interfaces: Places,
    pub worlds: Places,
    pub rows: Places,
}

impl Placed for Moved {
    ghost use Rattle.set_rows.specs.Renamed.{renaming as renaming_of};

    ghost renaming = { renaming_of };

    fn package(&self, old: u32) -> u32 {
        self.packages.at(old)
    }

    fn interface(&self, old: u32) -> u32 {
        self.interfaces.at(old)
    }

    fn world(&self, old: u32) -> u32 {
        self.worlds.at(old)
    }

    fn row(&self, old: u32) -> u32 {
        self.rows.at(old)
    }

    fn has_row(&self, old: u32) -> bool {
        self.rows.has(old as usize)
    }
}

fn type_id<P: Placed>(to: &P, id: TypeId) -> TypeId
    ensures { result ≡ put_id (P.renaming to.now) id }
{
    TypeId(to.row(id.0))
}

fn function_id<P: Placed>(to: &P, id: FunctionId) -> FunctionId
    ensures { result ≡ put_function_id (P.renaming to.now) id }
{
    FunctionId(to.row(id.0))
}

fn interface_id<P: Placed>(to: &P, id: InterfaceId) -> InterfaceId
    ensures { result ≡ put_interface_id (P.renaming to.now) id }
{
    InterfaceId(to.interface(id.0))
}

fn package_id<P: Placed>(to: &P, id: PackageId) -> PackageId
    ensures { result ≡ put_package_id (P.renaming to.now) id }
{
    PackageId(to.package(id.0))
}

fn moved_val<P: Placed>(to: &P, ty: ValType) -> ValType
    ensures { result ≡ put_val (P.renaming to.now) ty }
{
    match ty {
        ValType::Id(id) => ValType::Id(type_id(to, id)),
        ValType::Primitive(_) | ValType::String => ty,
    }
}

fn moved_optional<P: Placed>(to: &P, ty: Option<ValType>) -> Option<ValType>
    ensures { result ≡ option_map (put_val (P.renaming to.now)) ty }
{
    match ty {
        Some(ty) => Some(moved_val(to, ty)),
        None => None,
    }
}

fn moved_owner<P: Placed>(to: &P, owner: Owner) -> Owner
    ensures { result ≡ put_owner (P.renaming to.now) owner }
{
    match owner {
        Owner::Interface(id) => Owner::Interface(interface_id(to, id)),
        Owner::World(id) => Owner::World(WorldId(to.world(id.0))),
    }
}

/// The ids of an interface's types, of which those of rows that are kept stay.
pub fn moved_types<P: Placed>(
    alloc: Global,
    ids: &Sequence<TypeId>,
    to: &P,
) -> Result<Sequence<TypeId>, AllocError>
    ensures { IfOk result (λ ts. ts ≡ map (put_id (P.renaming to.now))
        (filter (has_type (P.renaming to.now)) ids.now)) }
{
    let mut moved = Vec::new(alloc);
    for id in ids.as_slice() {
        if to.has_row(id.0) {
            moved.push(type_id(to, *id))?;
        }
    }
    Ok(Sequence::new(moved))
}

/// The ids of an interface's functions, of which those of rows that are kept stay.
pub fn moved_functions<P: Placed>(
    alloc: Global,
    ids: &Sequence<FunctionId>,
    to: &P,
) -> Result<Sequence<FunctionId>, AllocError>
    ensures { IfOk result (λ fs. fs ≡ map (put_function_id (P.renaming to.now))
        (filter (has_function (P.renaming to.now)) ids.now)) }
{
    let mut moved = Vec::new(alloc);
    for id in ids.as_slice() {
        if to.has_row(id.0) {
            moved.push(function_id(to, *id))?;
        }
    }
    Ok(Sequence::new(moved))
}

/// What can be put into another table.
pub trait Movable: Sized {
    ghost use Rattle.set_rows.specs.Moved.{Renaming};
    ghost use Rattle.std.specs.Prelude.{◌≡◌, IfOk};

    ghost put: { Renaming → Self → Self };

    /// The same value in the other table.
    fn moved<P: Placed>(&self, alloc: Global, to: &P) -> Result<Self, AllocError>
        ensures { IfOk result (λ x. x ≡ put (P.renaming to.now) self.now) };
}

fn moved_all<T: Movable + Drop, P: Placed>(
    alloc: Global,
    items: &Sequence<T>,
    to: &P,
) -> Result<Sequence<T>, AllocError>
    ensures { IfOk result (λ xs. xs ≡ map (T.put (P.renaming to.now)) items.now) }
{
    let mut moved = Vec::new(alloc);
    for item in items.as_slice() {
        moved.push(item.moved(alloc, to)?)?;
    }
    Ok(Sequence::new(moved))
}

/// Puts these elements at the end of a list, as they stand in the other table.
pub fn push_moved<T: Movable + Drop, P: Placed>(
    alloc: Global,
    onto: &mut Sequence<T>,
    items: &[T],
    to: &P,
) -> Result<(), AllocError>
    ensures { OnOk result (onto.new ≡ onto.old ++ map (T.put (P.renaming to.now)) items.now) }
{
    for item in items {
        onto.push(item.moved(alloc, to)?)?;
    }
    Ok(())
}

/// The elements that are kept, as they stand in the other table.
pub fn moved_kept<T: Movable + Drop, P: Placed>(
    alloc: Global,
    items: &Sequence<T>,
    places: &Places,
    to: &P,
) -> Result<Sequence<T>, AllocError>
    ensures { IfOk result (λ xs. xs ≡ map (T.put (P.renaming to.now)) (items_where_true places.now items.now)) }
{
    let mut moved = Vec::new(alloc);
    for (place, item) in items.as_slice().iter().enumerate() {
        if places.has(place) {
            moved.push(item.moved(alloc, to)?)?;
        }
    }
    Ok(Sequence::new(moved))
}

fn copied(alloc: Global, names: &Sequence<Label>) -> Result<Sequence<Label>, AllocError>
    ensures { IfOk result (λ ns. ns ≡ names.now) }
{
    let mut copy = Vec::new(alloc);
    for name in names.as_slice() {
        copy.push(name.copy(alloc)?)?;
    }
    Ok(Sequence::new(copy))
}

impl Movable for ValType {
    ghost put = { put_val };

    fn moved<P: Placed>(&self, _alloc: Global, to: &P) -> Result<Self, AllocError> {
        Ok(moved_val(to, *self))
    }
}

impl Movable for WorldItem {
    ghost put = { put_item };

    fn moved<P: Placed>(&self, _alloc: Global, to: &P) -> Result<Self, AllocError> {
        Ok(WorldItem {
            direction: self.direction,
            kind: match self.kind {
                WorldItemKind::Interface(id) => WorldItemKind::Interface(interface_id(to, id)),
                WorldItemKind::Function(id) => WorldItemKind::Function(function_id(to, id)),
            },
        })
    }
}

impl Movable for Parameter {
    ghost put = { put_parameter };

    fn moved<P: Placed>(&self, alloc: Global, to: &P) -> Result<Self, AllocError> {
        Ok(Parameter {
            name: self.name.copy(alloc)?,
            ty: moved_val(to, self.ty),
        })
    }
}

impl Movable for Field {
    ghost put = { put_field };

    fn moved<P: Placed>(&self, alloc: Global, to: &P) -> Result<Self, AllocError> {
        Ok(Field {
            name: self.name.copy(alloc)?,
            ty: moved_val(to, self.ty),
        })
    }
}

impl Movable for Case {
    ghost put = { put_case };

    fn moved<P: Placed>(&self, alloc: Global, to: &P) -> Result<Self, AllocError> {
        Ok(Case {
            name: self.name.copy(alloc)?,
            ty: moved_optional(to, self.ty),
        })
    }
}

impl Movable for TypeDefKind {
    ghost put = { put_kind };

    fn moved<P: Placed>(&self, alloc: Global, to: &P) -> Result<Self, AllocError> {
        Ok(match self {
            TypeDefKind::Use(target) => TypeDefKind::Use(type_id(to, *target)),
            TypeDefKind::Alias(target) => TypeDefKind::Alias(moved_val(to, *target)),
            TypeDefKind::List(element) => TypeDefKind::List(moved_val(to, *element)),
            TypeDefKind::Option(payload) => TypeDefKind::Option(moved_val(to, *payload)),
            TypeDefKind::Result(ok, error) => {
                TypeDefKind::Result(moved_optional(to, *ok), moved_optional(to, *error))
            }
            TypeDefKind::Tuple(members) => TypeDefKind::Tuple(moved_all(alloc, members, to)?),
            TypeDefKind::Record(fields) => TypeDefKind::Record(moved_all(alloc, fields, to)?),
            TypeDefKind::Variant(cases) => TypeDefKind::Variant(moved_all(alloc, cases, to)?),
            TypeDefKind::Enum(names) => TypeDefKind::Enum(copied(alloc, names)?),
            TypeDefKind::Flags(labels) => TypeDefKind::Flags(copied(alloc, labels)?),
        })
    }
}

impl Movable for TypeName {
    ghost put = { put_name };

    fn moved<P: Placed>(&self, alloc: Global, to: &P) -> Result<Self, AllocError> {
        Ok(TypeName {
            interface: interface_id(to, self.interface),
            name: self.name.copy(alloc)?,
        })
    }
}

impl Movable for TypeDef {
    ghost put = { put_type };

    fn moved<P: Placed>(&self, alloc: Global, to: &P) -> Result<Self, AllocError> {
        let name = match &self.name {
            Some(name) => Some(name.moved(alloc, to)?),
            None => None,
        };
        Ok(TypeDef {
            name,
            kind: self.kind.moved(alloc, to)?,
        })
    }
}

impl Movable for Function {
    ghost put = { put_function };

    fn moved<P: Placed>(&self, alloc: Global, to: &P) -> Result<Self, AllocError> {
        Ok(Function {
            owner: moved_owner(to, self.owner),
            name: self.name.copy(alloc)?,
            params: moved_all(alloc, &self.params, to)?,
            result: moved_optional(to, self.result),
        })
    }
}

impl Movable for Definition {
    ghost put = { put_row };

    fn moved<P: Placed>(&self, alloc: Global, to: &P) -> Result<Self, AllocError> {
        Ok(match self {
            Definition::Type(definition) => Definition::Type(definition.moved(alloc, to)?),
            Definition::Function(function) => Definition::Function(function.moved(alloc, to)?),
        })
    }
}

impl Movable for Interface {
    ghost put = { put_interface };

    fn moved<P: Placed>(&self, alloc: Global, to: &P) -> Result<Self, AllocError> {
        Ok(Interface {
            package: package_id(to, self.package),
            name: self.name.copy(alloc)?,
            uses: moved_types(alloc, &self.uses, to)?,
            types: moved_types(alloc, &self.types, to)?,
            functions: moved_functions(alloc, &self.functions, to)?,
        })
    }
}

impl Movable for World {
    ghost put = { put_world };

    fn moved<P: Placed>(&self, alloc: Global, to: &P) -> Result<Self, AllocError> {
        Ok(World {
            package: package_id(to, self.package),
            name: self.name.copy(alloc)?,
            items: moved_all(alloc, &self.items, to)?,
        })
    }
}

/// The same name of a package.
pub fn copied_name(alloc: Global, name: &PackageName) -> Result<PackageName, AllocError>
    ensures { IfOk result (λ p. p ≡ name.now) }
{
    Ok(PackageName {
        namespace: name.namespace.copy(alloc)?,
        name: name.name.copy(alloc)?,
        version: copy_version(&name.version)?,
    })
}

impl Movable for PackageName {
    ghost put = { λ to p. p };

    fn moved<P: Placed>(&self, alloc: Global, _to: &P) -> Result<Self, AllocError> {
        copied_name(alloc, self)
    }
}
