//! What component types are, each index of them followed.
ghost use Rattle.std.specs.Prelude.{◌≡◌, not, IfOk, OnOk};
ghost use Rattle.tables.specs.declared.tables.Direction.TheVariants.{Export};
ghost use Rattle.component_structure.specs.Names.{has_name};
ghost use Rattle.component_structure.specs.Parts.{scope_view, structure_view};
ghost use Rattle.component_structure.specs.Parts.{new_scope, no_parts, names_of, with_noted, with_exported};

use crate::names::Names;
use atoms::Label;
use ctype_format::{ExternName, Primitive};
use std::alloc::{AllocError, Global};
use std::collections::BTreeMap;
use tables::Direction;

/// The place of a scope in `Structure::scopes`.
#[derive(Clone, Copy)]
pub struct ScopeId(pub usize);

/// The place of a definition in `Structure::definitions`.
#[derive(Clone, Copy)]
pub struct DefinitionId(pub usize);

/// The place of a function's type in `Structure::functions`.
#[derive(Clone, Copy)]
pub struct FunctionId(pub usize);

/// The place of a type with a name in `Structure::named`.
#[derive(Clone, Copy)]
pub struct NamedId(pub usize);

/// The place of a type of an instance in `Structure::used`.
#[derive(Clone, Copy)]
pub struct UsedId(pub usize);

/// The place of an instance in `Structure::instances`.
#[derive(Clone, Copy)]
pub struct InstanceId(pub usize);

/// A type of values.
#[derive(Clone, Copy)]
pub enum ValType {
    Primitive(Primitive),
    /// A type without a name of its own.
    Defined(DefinitionId),
    /// A type that its scope imports or exports under a name.
    Named(NamedId),
    /// A type that an instance exports.
    Used(UsedId),
}

/// A field of a record, or a parameter.
#[derive(Drop)]
pub struct Field {
    pub label: Label,
    pub ty: ValType,
}

/// A case of a variant.
#[derive(Drop)]
pub struct Case {
    pub label: Label,
    pub payload: Option<ValType>,
}

/// What a type is made of.
#[derive(Drop)]
pub enum Kind {
    Record(Vec<Field>),
    Variant(Vec<Case>),
    List(ValType),
    Tuple(Vec<ValType>),
    Flags(Vec<Label>),
    Enum(Vec<Label>),
    Option(ValType),
    Result {
        ok: Option<ValType>,
        error: Option<ValType>,
    },
}

/// A type, and the number of the scope that it is defined in.
#[derive(Drop)]
pub struct Definition {
    pub scope: usize,
    pub kind: Kind,
}

/// A function's type.
#[derive(Drop)]
pub struct Function {
    pub params: Vec<Field>,
    pub result: Option<ValType>,
}

/// A type with a name, and the number of the scope that imports or exports it.
#[derive(Drop)]
pub struct Named {
    pub scope: usize,
    pub name: Label,
    /// What it is equal to.
    pub target: ValType,
}

/// A type that an instance exports under a name.
#[derive(Drop)]
pub struct Used {
    pub instance: InstanceId,
    pub name: Label,
}

/// An instance that a component type imports or exports.
#[derive(Drop)]
pub struct Instance {
    pub direction: Direction,
    pub name: ExternName,
    /// Its instance type.
    pub scope: ScopeId,
}

/// What is imported or exported.
#[derive(Drop)]
pub enum What {
    Type(NamedId),
    Function { name: Label, ty: FunctionId },
    Component { name: ExternName, scope: ScopeId },
    Instance(InstanceId),
}

/// An import or an export.
#[derive(Drop)]
pub struct Extern {
    /// Its offset in the file.
    pub place: usize,
    pub direction: Direction,
    pub what: What,
}

/// What an index of a scope's types stands for.
#[derive(Clone, Copy)]
pub enum Entry {
    Value(ValType),
    Function(FunctionId),
    Component(ScopeId),
    Instance(ScopeId),
}

/// A component type or an instance type.
#[derive(Drop)]
pub struct Scope {
    /// How many scopes began before it.
    pub number: usize,
    pub types: Vec<Entry>,
    pub instances: Vec<InstanceId>,
    pub externs: Vec<Extern>,
    /// The types that it exports, by name.
    pub exported_types: BTreeMap<String, NamedId>,
    imported_names: Names,
    exported_names: Names,
}

impl Scope {
    /// Nothing.
    pub fn new(alloc: Global, number: usize) -> Scope
        ensures { scope_view result ≡ new_scope number }
    {
        Scope {
            number,
            types: Vec::new(alloc),
            instances: Vec::new(alloc),
            externs: Vec::new(alloc),
            exported_types: BTreeMap::new(alloc),
            imported_names: Names::new(alloc),
            exported_names: Names::new(alloc),
        }
    }

    /// Notes the name of an import or an export. False if it has one that differs in case at most.
    pub fn note_name(&mut self, direction: Direction, name: &str) -> Result<bool, AllocError>
        ensures new { IfOk result (λ new. new ≡ not (has_name (names_of direction (scope_view self.old)) name.now)) }
        ensures names { IfOk result (λ _. scope_view self.new
            ≡ with_noted direction (scope_view self.old) name.now) }
    {
        match direction {
            Direction::Import => self.imported_names.add(name),
            Direction::Export => self.exported_names.add(name),
        }
    }

    /// Notes that it exports a type under a name.
    pub fn export_type(&mut self, alloc: Global, name: &str, id: NamedId) -> Result<(), AllocError>
        ensures { OnOk result (scope_view self.new ≡ with_exported Export (scope_view self.old) name.now id) }
    {
        let text = String::from_str(alloc, name)?;
        self.exported_types.insert(text, id)?;
        Ok(())
    }
}

/// A component type that a file exports.
#[derive(Drop)]
pub struct Exported {
    /// Its offset in the file.
    pub place: usize,
    pub name: Label,
    pub scope: ScopeId,
}

/// What the section `package-docs` of a file has.
#[derive(Drop)]
pub struct Docs {
    /// Its offset in the file.
    pub place: usize,
    /// An object of JSON, which is not read here.
    pub json: Vec<u8>,
}

/// What a file has.
#[derive(Drop)]
pub struct Structure {
    pub scopes: Vec<Scope>,
    pub definitions: Vec<Definition>,
    pub functions: Vec<Function>,
    pub named: Vec<Named>,
    pub used: Vec<Used>,
    pub instances: Vec<Instance>,
    pub exports: Vec<Exported>,
    pub docs: Option<Docs>,
    /// Whether the file says that it encodes one world.
    pub is_world: bool,
}

impl Structure {
    /// Nothing.
    pub fn new(alloc: Global) -> Structure
        ensures { structure_view result ≡ no_parts }
    {
        Structure {
            scopes: Vec::new(alloc),
            definitions: Vec::new(alloc),
            functions: Vec::new(alloc),
            named: Vec::new(alloc),
            used: Vec::new(alloc),
            instances: Vec::new(alloc),
            exports: Vec::new(alloc),
            docs: None,
            is_world: false,
        }
    }
}
