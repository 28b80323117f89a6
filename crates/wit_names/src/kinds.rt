//! What names are declared as, and what they are used as.
use std::fmt;

/// What a type with a name is.
#[derive(Clone, Copy, PartialEq, Eq)]
pub enum TypeKind {
    Alias,
    Record,
    Variant,
    Enum,
    Flags,
    Resource,
}

/// What a name is declared as.
#[derive(Clone, Copy, PartialEq, Eq)]
pub enum Kind {
    Package,
    Interface,
    World,
    Type(TypeKind),
    /// A function of an interface or of a resource.
    Function,
    Field,
    Case,
    /// A case of an enum, or one of the flags.
    Label,
    /// A parameter, or a result with a name.
    Parameter,
    /// An import of a world that has a name of its own.
    Import,
    /// An export of a world that has a name of its own.
    Export,
    /// A type that a `use` brings into an interface or a world.
    UsedType,
    /// An interface or a world that a `use` brings into a file.
    UsedItem,
    /// The new name of an import or an export of a world that is included.
    Included,
}

/// What a name is used as.
#[derive(Clone, Copy, PartialEq, Eq)]
pub enum Wanted {
    Package,
    Interface,
    World,
    InterfaceOrWorld,
    Type,
    /// What `own` and `borrow` are of.
    Resource,
    /// An import, an export or a type of a world that is included.
    WorldItem,
}

/// What names are declared in.
#[derive(Clone, Copy, PartialEq, Eq)]
pub enum ScopeKind {
    /// All files: the packages are declared in it.
    Set,
    /// The interfaces and worlds of a package, in all its files.
    Package,
    /// A file, or a package in a file: what its own `use` items bring in.
    File,
    Interface,
    World,
    InlineInterface,
    Resource,
    /// A record, a variant, an enum, flags, the parameters of a function, or its results.
    Members,
}

impl Kind {
    /// The kind in words.
    fn words(self) -> &'static str {
        match self {
            Kind::Package => "package",
            Kind::Interface => "interface",
            Kind::World => "world",
            Kind::Type(TypeKind::Alias) => "type",
            Kind::Type(TypeKind::Record) => "record",
            Kind::Type(TypeKind::Variant) => "variant",
            Kind::Type(TypeKind::Enum) => "enum",
            Kind::Type(TypeKind::Flags) => "flags",
            Kind::Type(TypeKind::Resource) => "resource",
            Kind::Function => "function",
            Kind::Field => "field",
            Kind::Case => "case",
            Kind::Label => "label",
            Kind::Parameter => "parameter",
            Kind::Import => "import",
            Kind::Export => "export",
            Kind::UsedType => "used type",
            Kind::UsedItem => "used item",
            Kind::Included => "included name",
        }
    }
}

impl fmt::Display for Kind {
    fn fmt<W: fmt::Write>(&self, f: &mut fmt::Formatter<W>) -> fmt::Result {
        f.write_str(self.words())
    }
}
