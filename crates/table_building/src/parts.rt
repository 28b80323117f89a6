//! A package of parts that were made elsewhere.
ghost use Rattle.std.specs.Prelude.{◌≡◌, ◌&&◌, false, IfOk, IfErr, length, slice_get};
ghost use Rattle.std.specs.List.{list_all};
ghost use Rattle.tables.specs.Tables.{option_all, kind_all, function_all, definition_all, is_type_before, are_earlier};
ghost use Rattle.tables.specs.Tables.{name_types, is_within, is_standard_kind, is_standard, are_standard, function_of};
ghost use Rattle.tables.specs.Tables.{is_type_id, is_function_id, is_placed, are_placed, are_grouped};
ghost use Rattle.tables.specs.Tables.{are_worlds_grouped, is_function_of, is_placed_item, is_placed_world};
ghost use Rattle.tables.specs.Tables.{are_placed_worlds};
ghost use Rattle.tables.specs.Parts.{HasParts, are_worlds, is_package};

use tables::{
    Case, Definition, Function, FunctionId, Interface, Member, Owner, PackageName, Resolve,
    ResolveError, Sequence, TypeDefKind, TypeId, ValType, World, WorldItem, WorldItemKind,
};

/// The most cases of a variant or an enum.
const MAX_CASES: usize = 100_000;

/// The most labels of a flags type.
const MAX_LABELS: usize = 32;

/// Whether the type stands before this place, and is no function.
fn is_earlier(definitions: &[Definition], place: usize, ty: ValType) -> bool
    ensures { result ≡ is_type_before definitions.now place ty }
{
    match ty {
        ValType::Primitive(_) | ValType::String => true,
        ValType::Id(id) => (id.0 as usize) < place && is_type_id(definitions, id),
    }
}

fn is_option_earlier(definitions: &[Definition], place: usize, ty: Option<ValType>) -> bool
    ensures { result ≡ option_all (is_type_before definitions.now place) ty }
{
    match ty {
        Some(ty) => is_earlier(definitions, place, ty),
        None => true,
    }
}

fn are_members_earlier<M: Member>(definitions: &[Definition], place: usize, members: &[M]) -> bool
    ensures { result ≡ list_all (λ m. is_type_before definitions.now place (M.type_of m)) members.now }
{
    for member in members {
        if !is_earlier(definitions, place, member.ty()) {
            return false;
        }
    }
    true
}

fn are_cases_earlier(definitions: &[Definition], place: usize, cases: &[Case]) -> bool
    ensures { result ≡ list_all (λ c. option_all (is_type_before definitions.now place) c.ty) cases.now }
{
    for case in cases {
        if !is_option_earlier(definitions, place, case.ty) {
            return false;
        }
    }
    true
}

fn is_kind_earlier(definitions: &[Definition], place: usize, kind: &TypeDefKind) -> bool
    ensures { result ≡ kind_all (is_type_before definitions.now place) kind.now }
{
    match kind {
        TypeDefKind::Use(target) => is_earlier(definitions, place, ValType::Id(*target)),
        TypeDefKind::Alias(ty) | TypeDefKind::List(ty) | TypeDefKind::Option(ty) => {
            is_earlier(definitions, place, *ty)
        }
        TypeDefKind::Result(ok, error) => {
            is_option_earlier(definitions, place, *ok)
                && is_option_earlier(definitions, place, *error)
        }
        TypeDefKind::Tuple(types) => are_members_earlier(definitions, place, types.as_slice()),
        TypeDefKind::Record(fields) => are_members_earlier(definitions, place, fields.as_slice()),
        TypeDefKind::Variant(cases) => are_cases_earlier(definitions, place, cases.as_slice()),
        TypeDefKind::Enum(_) | TypeDefKind::Flags(_) => true,
    }
}

fn is_function_earlier(definitions: &[Definition], place: usize, function: &Function) -> bool
    ensures { result ≡ function_all (is_type_before definitions.now place) function.now }
{
    are_members_earlier(definitions, place, function.params.as_slice())
        && is_option_earlier(definitions, place, function.result)
}

fn is_definition_earlier(definitions: &[Definition], place: usize, definition: &Definition) -> bool
    ensures { result ≡ definition_all (is_type_before definitions.now place) definition.now }
{
    match definition {
        Definition::Type(definition) => is_kind_earlier(definitions, place, &definition.kind),
        Definition::Function(function) => is_function_earlier(definitions, place, function),
    }
}

/// Whether each definition names earlier types alone.
fn name_earlier_types(definitions: &[Definition]) -> bool
    ensures { result ≡ (are_earlier 0 definitions.now && name_types definitions.now) }
{
    for (place, definition) in definitions.iter().enumerate() {
        if !is_definition_earlier(definitions, place, definition) {
            return false;
        }
    }
    true
}

fn is_within(count: usize, limit: usize) -> bool
    ensures { result ≡ is_within count limit }
{
    0 < count && count <= limit
}

fn is_standard_kind(kind: &TypeDefKind) -> bool
    ensures { result ≡ is_standard_kind kind.now }
{
    match kind {
        TypeDefKind::Use(_)
        | TypeDefKind::Alias(_)
        | TypeDefKind::List(_)
        | TypeDefKind::Option(_)
        | TypeDefKind::Result(_, _) => true,
        TypeDefKind::Tuple(types) => 0 < types.len(),
        TypeDefKind::Record(fields) => 0 < fields.len(),
        TypeDefKind::Variant(cases) => is_within(cases.len(), MAX_CASES),
        TypeDefKind::Enum(names) => is_within(names.len(), MAX_CASES),
        TypeDefKind::Flags(labels) => is_within(labels.len(), MAX_LABELS),
    }
}

fn is_standard(definition: &Definition) -> bool
    ensures { result ≡ is_standard definition.now }
{
    match definition {
        Definition::Type(definition) => is_standard_kind(&definition.kind),
        Definition::Function(_) => true,
    }
}

/// Whether each has parts, and no more than a limit.
pub fn are_standard(definitions: &[Definition]) -> bool
    ensures { result ≡ are_standard definitions.now }
{
    for definition in definitions {
        if !is_standard(definition) {
            return false;
        }
    }
    true
}

fn is_type_id(definitions: &[Definition], id: TypeId) -> bool
    ensures { result ≡ is_type_id definitions.now id }
{
    matches!(definitions.get(id.0 as usize), Some(Definition::Type(_)))
}

fn is_function_id(definitions: &[Definition], id: FunctionId) -> bool
    ensures { result ≡ is_function_id definitions.now id }
{
    matches!(
        definitions.get(id.0 as usize),
        Some(Definition::Function(_))
    )
}

fn are_type_ids(definitions: &[Definition], ids: &[TypeId]) -> bool
    ensures { result ≡ list_all (is_type_id definitions.now) ids.now }
{
    for id in ids {
        if !is_type_id(definitions, *id) {
            return false;
        }
    }
    true
}

fn are_function_ids(definitions: &[Definition], ids: &[FunctionId]) -> bool
    ensures { result ≡ list_all (is_function_id definitions.now) ids.now }
{
    for id in ids {
        if !is_function_id(definitions, *id) {
            return false;
        }
    }
    true
}

fn is_placed(definitions: &[Definition], interface: &Interface) -> bool
    ensures { result ≡ is_placed definitions.now interface.now }
{
    are_type_ids(definitions, interface.uses.as_slice())
        && are_type_ids(definitions, interface.types.as_slice())
        && are_function_ids(definitions, interface.functions.as_slice())
}

fn are_placed(definitions: &[Definition], interfaces: &[Interface]) -> bool
    ensures { result ≡ are_placed definitions.now interfaces.now }
{
    for interface in interfaces {
        if !is_placed(definitions, interface) {
            return false;
        }
    }
    true
}

/// Whether each interface is of one of so many packages, and those of a package stand together.
fn are_grouped(count: usize, interfaces: &[Interface]) -> bool
    ensures { result ≡ are_grouped count 0 interfaces.now }
{
    let mut last = 0;
    for interface in interfaces {
        let package = interface.package.0 as usize;
        if package < last || count <= package {
            return false;
        }
        last = package;
    }
    true
}

/// Whether each world is of one of so many packages, and those of a package stand together.
fn are_worlds_grouped(count: usize, worlds: &[World]) -> bool
    ensures { result ≡ are_worlds_grouped count 0 worlds.now }
{
    let mut last = 0;
    for world in worlds {
        let own = world.package.0 as usize;
        if own < last || count <= own {
            return false;
        }
        last = own;
    }
    true
}

/// Whether it is a function of the world at this place.
fn is_function_of(definitions: &[Definition], world: usize, id: FunctionId) -> bool
    ensures { result ≡ is_function_of world (function_of (slice_get definitions.now id.0)) }
{
    match definitions.get(id.0 as usize) {
        Some(Definition::Function(function)) => match function.owner {
            Owner::World(owner) => owner.0 as usize == world,
            Owner::Interface(_) => false,
        },
        _ => false,
    }
}

/// Whether an item of the world at this place is one of so many interfaces, or a function of the world.
fn is_placed_item(definitions: &[Definition], count: usize, world: usize, item: WorldItem) -> bool
    ensures { result ≡ is_placed_item definitions.now count world item.kind }
{
    match item.kind {
        WorldItemKind::Interface(interface) => (interface.0 as usize) < count,
        WorldItemKind::Function(function) => is_function_of(definitions, world, function),
    }
}

fn is_placed_world(definitions: &[Definition], count: usize, place: usize, world: &World) -> bool
    ensures { result ≡ is_placed_world definitions.now count place world.now }
{
    for item in world.items.as_slice() {
        if !is_placed_item(definitions, count, place, *item) {
            return false;
        }
    }
    true
}

fn are_placed_worlds(definitions: &[Definition], count: usize, worlds: &[World]) -> bool
    ensures { result ≡ are_placed_worlds definitions.now count 0 worlds.now }
{
    for (place, world) in worlds.iter().enumerate() {
        if !is_placed_world(definitions, count, place, world) {
            return false;
        }
    }
    true
}

/// Whether worlds are of so many packages, and their items of these definitions and of so many interfaces.
fn are_worlds(count: usize, definitions: &[Definition], interfaces: usize, worlds: &[World]) -> bool
    ensures { result ≡ are_worlds count definitions.now interfaces worlds.now }
{
    are_worlds_grouped(count, worlds) && are_placed_worlds(definitions, interfaces, worlds)
}

fn is_package(
    count: usize,
    definitions: &[Definition],
    interfaces: &[Interface],
    worlds: &[World],
) -> bool
    ensures { result ≡ is_package count definitions.now interfaces.now worlds.now }
{
    name_earlier_types(definitions)
        && are_standard(definitions)
        && are_placed(definitions, interfaces)
        && are_grouped(count, interfaces)
        && are_worlds(count, definitions, interfaces.len(), worlds)
}

/// The package of these parts. 44 exactly where a definition names one that isn't a type before it, or has no
/// or too many parts, where an interface or a world names a place that is of another kind or a function of
/// another world, or where interfaces or worlds are of no package or stand in another order than their packages.
pub fn from_parts(
    packages: Sequence<PackageName>,
    interfaces: Sequence<Interface>,
    worlds: Sequence<World>,
    definitions: Sequence<Definition>,
) -> Result<Resolve, ResolveError>
    ensures ok { IfOk result (λ r. HasParts packages interfaces worlds definitions r) }
    ensures err { IfErr result (λ e. (e ≡ ResolveError.NotThisShape)
        × (is_package (length packages) definitions interfaces worlds ≡ false)) }
{
    if !is_package(
        packages.len(),
        definitions.as_slice(),
        interfaces.as_slice(),
        worlds.as_slice(),
    ) {
        return Err(ResolveError::NotThisShape);
    }
    Ok(Resolve {
        packages,
        interfaces,
        worlds,
        definitions,
    })
}
