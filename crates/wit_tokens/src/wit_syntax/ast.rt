//! The syntax of a WIT text. Names stand as they were written, without the `%` of an escaped word.
ghost use Rattle.std.specs.Prelude.{◌≡◌, ◌⊎◌, ◌&&◌, [], false, IsTrue, IfOk, IfErr, string_bytes, option_map};
ghost use Rattle.atoms.specs.FullName.{is_package_label, is_version_or_none};
ghost use Rattle.atoms.specs.declared.error.AtomError.TheVariants as error;

use crate::Span;
use atoms::{AtomError, Label, is_package_label, is_version};
use std::alloc::{AllocError, Global};

/// A whole text. The names of its package make full names: the namespace and the name have lower-case words alone, and
/// the version is one of SemVer.
#[derive(Drop)]
pub struct Ast {
    pub package: PackageId,
    pub items: Vec<Item>,
    ghost namespace_is: { IsTrue (is_package_label «package».namespace) },
    ghost name_is: { IsTrue (is_package_label «package».name) },
    ghost version_is: { IsTrue (is_version_or_none (option_map string_bytes «package».version)) },
}

impl Ast {
    /// The tree of a package without items, which are put into `items`. 4 `BadName` exactly where its names make no
    /// full names.
    pub fn new(alloc: Global, package: PackageId) -> Result<Ast, AtomError>
        ensures ok { IfOk result (λ a. (a.«package» ≡ «package») × (a.items.items ≡ [])) }
        ensures err { IfErr result (λ e. (e ≡ error.NoMemory) ⊎ ((e ≡ error.BadName)
            × ((is_package_label «package».namespace &&
            (is_package_label «package».name && is_version_or_none (option_map string_bytes «package».version)))
            ≡ false))) }
    {
        if !package.makes_full_names(alloc)? {
            return Err(AtomError::BadName);
        }
        let items = Vec::new(alloc);
        Ok(Ast { package, items })
    }
}

/// The names of a package, as a text's own line or a path has them.
#[derive(Drop)]
pub struct PackageId {
    pub namespace: Label,
    pub name: Label,
    /// What stands behind the `@`.
    pub version: Option<String>,
}

impl PackageId {
    /// Whether the names make full names, as those of a text's own package do. (WIT.md, "Package Names")
    pub fn makes_full_names(&self, alloc: Global) -> Result<bool, AllocError>
        ensures { IfOk result (λ full. full
            ≡ (is_package_label self.now.namespace &&
            (is_package_label self.now.name && is_version_or_none (option_map string_bytes self.now.version)))) }
    {
        if !is_package_label(self.namespace.as_bytes()) || !is_package_label(self.name.as_bytes()) {
            return Ok(false);
        }
        match &self.version {
            Some(version) => is_version(alloc, version.as_str()),
            None => Ok(true),
        }
    }
}

#[derive(Drop)]
pub enum Item {
    Interface(Interface),
    World(World),
}

#[derive(Drop)]
pub struct Interface {
    pub name: Label,
    pub items: Vec<InterfaceItem>,
}

#[derive(Drop)]
pub enum InterfaceItem {
    /// In a box, since it is twice as large as the others, and rarer.
    Use(Box<Use>),
    TypeDef(TypeDef),
    Func(Func),
}

#[derive(Drop)]
pub struct Use {
    /// Where the first token stands.
    pub span: Span,
    pub interface: Path,
    pub names: Vec<UsedName>,
}

/// The interface that a use or an item of a world names.
#[derive(Drop)]
pub enum Path {
    /// One of the text's own package.
    Local(Label),
    /// One of another package.
    Foreign {
        package: PackageId,
        interface: Label,
    },
}

#[derive(Drop)]
pub struct UsedName {
    pub name: Label,
    pub local: Option<Label>,
}

#[derive(Drop)]
pub struct TypeDef {
    /// Where the first token stands.
    pub span: Span,
    pub name: Label,
    pub kind: TypeDefKind,
}

#[derive(Drop)]
pub enum TypeDefKind {
    Alias(TypeExpression),
    Record(Vec<Field>),
    Variant(Vec<Case>),
    Enum(Vec<Label>),
    Flags(Vec<Label>),
}

/// A field of a record, or a parameter.
#[derive(Drop)]
pub struct Field {
    pub name: Label,
    pub ty: TypeExpression,
}

#[derive(Drop)]
pub struct Case {
    pub name: Label,
    pub payload: Option<TypeExpression>,
}

#[derive(Drop)]
pub struct Func {
    /// Where the first token stands.
    pub span: Span,
    pub name: Label,
    pub ty: FuncType,
}

#[derive(Drop)]
pub struct FuncType {
    pub params: Vec<Field>,
    pub result: Option<TypeExpression>,
}

#[derive(Drop)]
pub struct World {
    /// Where the first token stands.
    pub span: Span,
    pub name: Label,
    pub items: Vec<WorldItem>,
}

#[derive(Drop)]
pub struct WorldItem {
    pub direction: Direction,
    pub kind: WorldItemKind,
}

#[derive(Clone, Copy, PartialEq, Eq)]
pub enum Direction {
    Import,
    Export,
}

#[derive(Drop)]
pub enum WorldItemKind {
    Interface(Path),
    Func(Func),
}

#[derive(Clone, Copy, PartialEq, Eq)]
pub enum Primitive {
    Bool,
    Char,
    String,
    S8,
    S16,
    S32,
    S64,
    U8,
    U16,
    U32,
    U64,
}

#[derive(Drop)]
#[cycle(type_expression)]
pub enum TypeExpression {
    Primitive(Primitive),
    Named(Label),
    List(InnerType),
    Option(InnerType),
    Tuple(Vec<TypeExpression>),
    Result { ok: ResultType, error: ResultType },
}

/// A type within another one. A primitive takes no memory of its own.
#[derive(Drop)]
#[cycle(type_expression)]
pub enum InnerType {
    Plain(Primitive),
    Boxed(Box<TypeExpression>),
}

/// The type of ok or of error of a result, if it has one: two of them are as small as a list.
#[derive(Drop)]
#[cycle(type_expression)]
pub enum ResultType {
    Absent,
    Simple(Primitive),
    Other(Box<TypeExpression>),
}
