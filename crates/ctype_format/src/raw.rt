//! Component types as they are spelled: definitions with indices.
use crate::name::ExternName;
use atoms::Label;

/// A type with no parts.
#[derive(Clone, Copy, PartialEq, Eq)]
pub enum Primitive {
    Bool,
    S8,
    U8,
    S16,
    U16,
    S32,
    U32,
    S64,
    U64,
    Char,
    String,
}

/// A type where a value's type stands: a primitive, or the index of a type entry.
#[derive(Clone, Copy, PartialEq, Eq)]
pub enum RawValType {
    Primitive(Primitive),
    Index(u32),
}

/// A field of a record, or a parameter.
#[derive(Drop)]
pub struct RawField {
    pub label: Label,
    pub ty: RawValType,
}

/// A case of a variant.
#[derive(Drop)]
pub struct RawCase {
    pub label: Label,
    pub payload: Option<RawValType>,
}

/// A type of values.
#[derive(Drop)]
pub enum RawDefinedType {
    Primitive(Primitive),
    Record(Vec<RawField>),
    Variant(Vec<RawCase>),
    List(RawValType),
    Tuple(Vec<RawValType>),
    Flags(Vec<Label>),
    Enum(Vec<Label>),
    Option(RawValType),
    Result {
        ok: Option<RawValType>,
        error: Option<RawValType>,
    },
}

/// A type of functions.
#[derive(Drop)]
pub struct RawFunction {
    pub params: Vec<RawField>,
    pub result: Option<RawValType>,
}

/// A type entry that is the same as another.
#[derive(Drop)]
pub enum RawAlias {
    /// The type that an instance exports under a name.
    InstanceExport { instance: u32, name: Label },
    /// A type of the scope that so many scopes stand inside of; 0 is the scope itself.
    Outer { count: u32, index: u32 },
}

/// What an import or an export is.
#[derive(Clone, Copy, PartialEq, Eq)]
pub enum RawDescription {
    /// A function of the function type at an index.
    Function(u32),
    /// A type equal to the one at an index.
    TypeEqual(u32),
    /// A component of the component type at an index.
    Component(u32),
    /// An instance of the instance type at an index.
    Instance(u32),
}

/// A type entry's definition.
#[derive(Drop)]
#[cycle(raw)]
pub enum RawType {
    Defined(RawDefinedType),
    Function(RawFunction),
    Component(Vec<RawDecl>),
    Instance(Vec<RawDecl>),
}

/// A declaration of a component type or an instance type.
#[derive(Drop)]
#[cycle(raw)]
pub enum RawDecl {
    Type(RawType),
    Alias(RawAlias),
    /// In component types alone.
    Import(ExternName, RawDescription),
    Export(ExternName, RawDescription),
}

/// An export of the file: a name, and the index of its type.
#[derive(Drop)]
pub struct RawExport {
    pub name: ExternName,
    pub ty: u32,
}
