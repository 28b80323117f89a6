//! The tables of a package: its name, interfaces, worlds, and one table of definitions.
ghost use Rattle.std.specs.Prelude.{IsTrue, length};
ghost use Rattle.tables.specs.Tables.{are_earlier, name_types, are_standard, are_placed, are_grouped};
ghost use Rattle.tables.specs.Tables.{are_worlds_grouped, are_placed_worlds};

use crate::sequence::Sequence;
use atoms::Label;
use std::marker::Model;

/// The place of a type in the table of definitions.
#[derive(Clone, Copy, PartialEq, Eq, Debug)]
pub struct TypeId(pub u32);

/// The place of a function in the table of definitions.
#[derive(Clone, Copy, PartialEq, Eq, Debug)]
pub struct FunctionId(pub u32);

/// The place of a package's name in the table.
#[derive(Clone, Copy, PartialEq, Eq, Debug)]
pub struct PackageId(pub u32);

/// The place of an interface in package order, in which each stands after those that it uses.
#[derive(Clone, Copy, PartialEq, Eq, Debug)]
pub struct InterfaceId(pub u32);

/// The place of a world, in source order.
#[derive(Clone, Copy, PartialEq, Eq, Debug)]
pub struct WorldId(pub u32);

/// The primitive types but for string, which has parts in memory.
#[derive(Clone, Copy, PartialEq, Eq, Debug)]
pub enum Primitive {
    Bool,
    S8,
    U8,
    S16,
    U16,
    S32,
    U32,
    S64,
    U64,
    Char,
}

/// A type as it is referred to.
#[derive(Clone, Copy, PartialEq, Eq, Debug)]
pub enum ValType {
    Primitive(Primitive),
    String,
    Id(TypeId),
}

/// A parameter of a function.
#[derive(Debug, Drop)]
pub struct Parameter {
    pub name: Label,
    pub ty: ValType,
}

/// A field of a record.
#[derive(Debug, Drop)]
pub struct Field {
    pub name: Label,
    pub ty: ValType,
}

/// A case of a variant, with its payload's type if it has one.
#[derive(Debug, Drop)]
pub struct Case {
    pub name: Label,
    pub ty: Option<ValType>,
}

/// What a type is.
#[derive(Debug, Drop)]
pub enum TypeDefKind {
    /// A used name: a type of another interface.
    Use(TypeId),
    /// `type a = b`
    Alias(ValType),
    List(ValType),
    Option(ValType),
    /// The types of ok and of error.
    Result(Option<ValType>, Option<ValType>),
    Tuple(Sequence<ValType>),
    Record(Sequence<Field>),
    Variant(Sequence<Case>),
    Enum(Sequence<Label>),
    /// The labels, of which label k is bit k.
    Flags(Sequence<Label>),
}

/// The name of a type, and the interface that it stands in.
#[derive(Debug, Drop)]
pub struct TypeName {
    pub interface: InterfaceId,
    pub name: Label,
}

/// A type. One that stands inside another definition has no name.
#[derive(Debug, Drop)]
pub struct TypeDef {
    pub name: Option<TypeName>,
    pub kind: TypeDefKind,
}

/// Where a function stands.
#[derive(Clone, Copy, PartialEq, Eq, Debug)]
pub enum Owner {
    Interface(InterfaceId),
    World(WorldId),
}

/// A function.
#[derive(Debug, Drop)]
pub struct Function {
    pub owner: Owner,
    pub name: Label,
    pub params: Sequence<Parameter>,
    pub result: Option<ValType>,
}

/// One row of the table.
#[derive(Debug, Drop)]
pub enum Definition {
    Type(TypeDef),
    Function(Function),
}

/// The name of a package: `namespace:name`, followed by `@version` where there is a version.
#[derive(Debug, Drop)]
pub struct PackageName {
    pub namespace: Label,
    pub name: Label,
    pub version: Option<String>,
}

impl Model for PackageName {
    ghost use Rattle.std.specs.Prelude.{option_map, string_bytes};
    ghost use Rattle.tables.specs.PackageNames.{PackageParts};

    ghost Value = { PackageParts };

    ghost view = { λ p. record {
      namespace = p.namespace;
      name = p.name;
      version = option_map string_bytes p.version;
    } };
}

/// An interface: the package that it is of, its name, and its used names, its types and its functions, each in
/// table order. Its full name is `namespace:package/name`, followed by `@version` where the package has a version.
#[derive(Debug, Drop)]
pub struct Interface {
    pub package: PackageId,
    pub name: Label,
    pub uses: Sequence<TypeId>,
    pub types: Sequence<TypeId>,
    pub functions: Sequence<FunctionId>,
}

/// Which way an item of a world crosses its border.
#[derive(Clone, Copy, PartialEq, Eq, Debug)]
pub enum Direction {
    Import,
    Export,
}

/// What a world imports or exports.
#[derive(Clone, Copy, PartialEq, Eq, Debug)]
pub enum WorldItemKind {
    Interface(InterfaceId),
    Function(FunctionId),
}

/// An item of a world.
#[derive(Clone, Copy, PartialEq, Eq, Debug)]
pub struct WorldItem {
    pub direction: Direction,
    pub kind: WorldItemKind,
}

/// A world: the package that it is of, its name, and its items in source order. Its full name is as an
/// interface's.
#[derive(Debug, Drop)]
pub struct World {
    pub package: PackageId,
    pub name: Label,
    pub items: Sequence<WorldItem>,
}

/// A package. The interfaces of each name of a package stand together, in the order of these names, and so do
/// the worlds.
#[derive(Debug, Drop)]
pub struct Resolve {
    pub packages: Sequence<PackageName>,
    pub interfaces: Sequence<Interface>,
    pub worlds: Sequence<World>,
    /// Types and functions, each after the types that it names.
    pub definitions: Sequence<Definition>,
    ghost earlier: { IsTrue (are_earlier 0 definitions) },
    ghost typed: { IsTrue (name_types definitions) },
    ghost standard: { IsTrue (are_standard definitions) },
    ghost placed: { IsTrue (are_placed definitions interfaces) },
    ghost grouped: { IsTrue (are_grouped (length packages) 0 interfaces) },
    ghost worlds_grouped: { IsTrue (are_worlds_grouped (length packages) 0 worlds) },
    ghost worlds_placed: { IsTrue (are_placed_worlds definitions (length interfaces) 0 worlds) },
}
