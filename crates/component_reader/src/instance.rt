//! The declarations of an instance type as rows of the table.
ghost use Rattle.std.specs.Prelude.{◌≡◌, ◌<◌, List, length, map, IfOk, IfErr, OnOk};
ghost use Rattle.atoms.specs.Label.{IsLabel};
ghost use Rattle.ctype_format.specs.View.{decl_view, decls_of, type_view};
ghost use Rattle.tables.specs.declared.tables.Definition.{Definition};
ghost use Rattle.component_reader.specs.Types.{ReadsAs, Becomes, both_found, all_found, parameter_read, optional_type};
ghost use Rattle.component_reader.specs.Instance.{AFunction, nothing_read, settled, with_unnamed, with_index, with_row};
ghost use Rattle.component_reader.specs.Instance.{with_named, uses_with, types_with, renamed, type_exported};
ghost use Rattle.component_reader.specs.Instance.{function_exported, exported_read, use_read, defined_read, decl_read};
ghost use Rattle.component_reader.specs.Instance.{instance_read};
ghost use Rattle.component_reader.specs.Readers.{awaited_view, read_with};

use crate::names::{NameParts, name_parts};
use crate::types::{kind_of, optional_type, parameters, row_at};
use crate::unread::Unread;
use atoms::{KeyedState, Label};
use ctype_bin::{RawAlias, RawDecl, RawDescription, RawFunction, RawType};
use indexmap::IndexMap;
use std::alloc::{AllocError, Global};
use tables::{
    Definition, Function, FunctionId, Interface, InterfaceId, Owner, PackageId, Parameter,
    Sequence, TypeDef, TypeDefKind, TypeId, TypeName, ValType,
};

/// What the last definition or alias defines, while its export may still come.
#[derive(Drop)]
pub enum Awaited {
    Nothing,
    Type(TypeDefKind),
    Function(Sequence<Parameter>, Option<ValType>),
}

/// What was read of an interface's instance type, without its rows.
#[derive(Drop)]
pub struct InstanceReader {
    /// The row of each type index.
    indices: Vec<Option<TypeId>>,
    pub awaited: Awaited,
    names: IndexMap<Vec<u8>, TypeId, KeyedState>,
    uses: Vec<TypeId>,
    types: Vec<TypeId>,
    functions: Vec<FunctionId>,
}

/// The place of the next row. No memory where an id can't tell it.
fn next_place(rows: &[Definition]) -> Result<u32, AllocError>
    ensures ok { IfOk result (λ place. place ≡ length rows.now) }
    ensures err { IfErr result (λ _. u32.MAX < length rows.now) }
{
    match u32::try_from(rows.len()) {
        Ok(place) => Ok(place),
        Err(_) => Err(AllocError),
    }
}

/// A function's signature, whose export is awaited.
fn signature(
    alloc: Global,
    indices: &[Option<TypeId>],
    function: &RawFunction,
) -> Result<Awaited, Unread>
    ensures { ReadsAs awaited_view (both_found AFunction
        (all_found (parameter_read indices.now) function.now.params.items)
        (optional_type indices.now function.now.result)) result }
{
    let params = parameters(alloc, indices, &function.params)?;
    let result = optional_type(indices, function.result)?;
    Ok(Awaited::Function(params, result))
}

impl InstanceReader {
    /// Nothing was read.
    pub fn new(alloc: Global, keyed: KeyedState) -> Self
        ensures { (rows : List Definition) → read_with rows result ≡ nothing_read rows }
    {
        InstanceReader {
            indices: Vec::new(alloc),
            awaited: Awaited::Nothing,
            names: IndexMap::with_hasher(alloc, keyed),
            uses: Vec::new(alloc),
            types: Vec::new(alloc),
            functions: Vec::new(alloc),
        }
    }

    /// Appends a type without a name.
    fn push_unnamed(
        &mut self,
        rows: &mut Vec<Definition>,
        kind: TypeDefKind,
    ) -> Result<(), AllocError>
        requires { self.old.awaited ≡ Awaited.Nothing }
        ensures { OnOk result (read_with rows.new.items self.new
            ≡ with_unnamed (read_with rows.old.items self.old) kind) }
    {
        let id = TypeId(next_place(rows)?);
        rows.push(Definition::Type(TypeDef { name: None, kind }))?;
        self.indices.push(Some(id))?;
        Ok(())
    }

    /// A definition that no export follows is a type without a name.
    pub fn settle(&mut self, rows: &mut Vec<Definition>) -> Result<(), Unread>
        ensures { Becomes (settled (read_with rows.old.items self.old)) (read_with rows.new.items self.new) result }
    {
        match std::mem::replace(&mut self.awaited, Awaited::Nothing) {
            Awaited::Nothing => Ok(()),
            Awaited::Type(kind) => Ok(self.push_unnamed(rows, kind)?),
            Awaited::Function(_, _) => Err(Unread::NotThisShape),
        }
    }

    /// Lists a type as a used name or as a type of the interface.
    fn list_type(&mut self, kind: &TypeDefKind, id: TypeId) -> Result<(), AllocError>
        ensures uses { OnOk result (self.new.uses.items ≡ uses_with self.old.uses.items id kind.now) }
        ensures types { OnOk result (self.new.types.items ≡ types_with self.old.types.items id kind.now) }
        ensures same { (self.new.indices ≡ self.old.indices) × (self.new.awaited ≡ self.old.awaited)
            × (self.new.names ≡ self.old.names) × (self.new.functions ≡ self.old.functions) }
    {
        match kind {
            TypeDefKind::Use(_) => self.uses.push(id)?,
            _ => self.types.push(id)?,
        }
        Ok(())
    }

    /// Appends a type of this interface under its name.
    fn push_named(
        &mut self,
        alloc: Global,
        rows: &mut Vec<Definition>,
        place: InterfaceId,
        name: &[u8],
        kind: TypeDefKind,
    ) -> Result<(), AllocError>
        requires awaited { self.old.awaited ≡ Awaited.Nothing }
        requires label { IsLabel name.now }
        ensures { OnOk result (read_with rows.new.items self.new
            ≡ with_named place.0 name.now kind (read_with rows.old.items self.old)) }
    {
        let id = TypeId(next_place(rows)?);
        self.list_type(&kind, id)?;
        let label = Label::from_bytes(alloc, name)?;
        rows.push(Definition::Type(TypeDef {
            name: Some(TypeName {
                interface: place,
                name: label,
            }),
            kind,
        }))?;
        self.names.insert(Vec::from_slice(alloc, name)?, id)?;
        self.indices.push(Some(id))?;
        Ok(())
    }

    /// Gives the type at this index a new name.
    fn rename(
        &mut self,
        alloc: Global,
        rows: &mut Vec<Definition>,
        place: InterfaceId,
        name: &[u8],
        index: u32,
    ) -> Result<(), Unread>
        requires awaited { self.old.awaited ≡ Awaited.Nothing }
        requires label { IsLabel name.now }
        ensures { Becomes (renamed place.0 name.now index (read_with rows.old.items self.old))
            (read_with rows.new.items self.new) result }
    {
        let target = row_at(&self.indices, index)?;
        let kind = TypeDefKind::Alias(ValType::Id(target));
        Ok(self.push_named(alloc, rows, place, name, kind)?)
    }

    /// Names the type that is awaited, if it has this index, or gives another one a new name.
    fn export_type(
        &mut self,
        alloc: Global,
        rows: &mut Vec<Definition>,
        place: InterfaceId,
        name: &[u8],
        index: u32,
    ) -> Result<(), Unread>
        requires { IsLabel name.now }
        ensures { Becomes (type_exported place.0 name.now index (read_with rows.old.items self.old)
            (awaited_view self.old.awaited)) (read_with rows.new.items self.new) result }
    {
        match std::mem::replace(&mut self.awaited, Awaited::Nothing) {
            Awaited::Nothing => self.rename(alloc, rows, place, name, index),
            Awaited::Type(kind) => {
                if index as usize == self.indices.len() {
                    self.indices.push(None)?;
                    return Ok(self.push_named(alloc, rows, place, name, kind)?);
                }
                self.push_unnamed(rows, kind)?;
                self.rename(alloc, rows, place, name, index)
            }
            Awaited::Function(_, _) => Err(Unread::NotThisShape),
        }
    }

    /// Passes a type index that stands for no row.
    pub fn push_index(&mut self) -> Result<(), AllocError>
        ensures { (rows : List Definition)
            → OnOk result (read_with rows self.new ≡ with_index (read_with rows self.old)) }
    {
        self.indices.push(None)?;
        Ok(())
    }

    /// Appends a function.
    pub fn push_function(
        &mut self,
        rows: &mut Vec<Definition>,
        function: Function,
    ) -> Result<FunctionId, AllocError>
        requires { self.old.awaited ≡ Awaited.Nothing }
        ensures row { OnOk result (read_with rows.new.items self.new
            ≡ with_row (Definition.Function function) (read_with rows.old.items self.old)) }
        ensures id { IfOk result (λ id. id.0 ≡ length rows.old.items) }
    {
        let id = FunctionId(next_place(rows)?);
        rows.push(Definition::Function(function))?;
        self.indices.push(None)?;
        Ok(id)
    }

    /// Appends the function that is awaited.
    fn export_function(
        &mut self,
        alloc: Global,
        rows: &mut Vec<Definition>,
        place: InterfaceId,
        name: &[u8],
    ) -> Result<(), Unread>
        requires { IsLabel name.now }
        ensures { Becomes (function_exported place.0 name.now (read_with rows.old.items self.old)
            (awaited_view self.old.awaited)) (read_with rows.new.items self.new) result }
    {
        let awaited = std::mem::replace(&mut self.awaited, Awaited::Nothing);
        let Awaited::Function(params, result) = awaited else {
            return Err(Unread::NotThisShape);
        };
        let function = Function {
            owner: Owner::Interface(place),
            name: Label::from_bytes(alloc, name)?,
            params,
            result,
        };
        let id = self.push_function(rows, function)?;
        self.functions.push(id)?;
        Ok(())
    }

    fn export(
        &mut self,
        alloc: Global,
        rows: &mut Vec<Definition>,
        place: InterfaceId,
        name: &[u8],
        description: &RawDescription,
    ) -> Result<(), Unread>
        requires { IsLabel name.now }
        ensures { Becomes (exported_read place.0 name.now description.now (read_with rows.old.items self.old))
            (read_with rows.new.items self.new) result }
    {
        match description {
            RawDescription::TypeEqual(index) => self.export_type(alloc, rows, place, name, *index),
            RawDescription::Function(_) => self.export_function(alloc, rows, place, name),
            RawDescription::Component(_) | RawDescription::Instance(_) => {
                Err(Unread::NotThisShape)
            }
        }
    }

    /// Awaits the export of a type around the instance type.
    fn alias(&mut self, around: &[Option<TypeId>], alias: &RawAlias) -> Result<(), Unread>
        ensures { (rows : List Definition)
            → Becomes (use_read around.now alias.now (read_with rows self.old)) (read_with rows self.new) result }
    {
        let RawAlias::Outer { count: 1, index } = alias else {
            return Err(Unread::NotThisShape);
        };
        self.awaited = Awaited::Type(TypeDefKind::Use(row_at(around, *index)?));
        Ok(())
    }

    #[tactic(auto, unfolding(ctype_format::specs::View::type_view))]
    pub fn define(&mut self, alloc: Global, ty: &RawType) -> Result<(), Unread>
        ensures { (rows : List Definition)
            → Becomes (defined_read (type_view ty.now) (read_with rows self.old)) (read_with rows self.new) result }
    {
        self.awaited = match ty {
            RawType::Defined(defined) => Awaited::Type(kind_of(alloc, &self.indices, defined)?),
            RawType::Function(function) => signature(alloc, &self.indices, function)?,
            RawType::Component(_) | RawType::Instance(_) => return Err(Unread::NotThisShape),
        };
        Ok(())
    }

    #[tactic(auto, unfolding(ctype_format::specs::View::decl_view))]
    fn read_decl(
        &mut self,
        alloc: Global,
        rows: &mut Vec<Definition>,
        place: InterfaceId,
        around: &[Option<TypeId>],
        decl: &RawDecl,
    ) -> Result<(), Unread>
        ensures { Becomes (decl_read around.now place.0 (decl_view decl.now) (read_with rows.old.items self.old))
            (read_with rows.new.items self.new) result }
    {
        match decl {
            RawDecl::Export(name, description) => {
                let NameParts::Label(name) = name_parts(name) else {
                    return Err(Unread::NotThisShape);
                };
                self.export(alloc, rows, place, name, description)
            }
            RawDecl::Alias(alias) => {
                self.settle(rows)?;
                self.alias(around, alias)
            }
            RawDecl::Type(ty) => {
                self.settle(rows)?;
                self.define(alloc, ty)
            }
            RawDecl::Import(_, _) => Err(Unread::NotThisShape),
        }
    }

    /// What the declarations of this interface's instance type are, behind these rows.
    pub fn read(
        alloc: Global,
        keyed: KeyedState,
        rows: &mut Vec<Definition>,
        place: InterfaceId,
        around: &[Option<TypeId>],
        decls: &[RawDecl],
    ) -> Result<Self, Unread>
        ensures { ReadsAs (read_with rows.new.items)
            (instance_read around.now place.0 (decls_of (map decl_view decls.now)) rows.old.items) result }
    {
        let mut reader = InstanceReader::new(alloc, keyed);
        reader.indices.reserve(decls.len())?;
        for decl in decls {
            reader.read_decl(alloc, rows, place, around, decl)?;
        }
        reader.settle(rows)?;
        Ok(reader)
    }

    /// The interface of this name in the first package, and the types that it exports by their names.
    pub fn into_interface(
        self,
        package: PackageId,
        name: Label,
    ) -> (Interface, IndexMap<Vec<u8>, TypeId, KeyedState>)
        ensures interface { result.0 ≡ record {
          «package» = «package»;
          name = name;
          uses = self.uses.items;
          types = self.types.items;
          functions = self.functions.items;
        } }
        ensures names { result.1 ≡ self.names }
    {
        let interface = Interface {
            package,
            name,
            uses: Sequence::new(self.uses),
            types: Sequence::new(self.types),
            functions: Sequence::new(self.functions),
        };
        (interface, self.names)
    }
}
