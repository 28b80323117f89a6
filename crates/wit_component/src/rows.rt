//! Rows as declarations of the type that they stand in: an interface's instance type, or a world's component type.
ghost use Rattle.std.specs.Prelude.{◌≡◌, ◌≤◌, ◌<◌, ◌+◌, ◌*◌, ◌++◌, map, option_map, length, IsTrue, IfOk, OnOk};
ghost use Rattle.std.specs.List.{list_all};
ghost use Rattle.atoms.specs.Label.{IsLabel};
ghost use Rattle.ctype_format.specs.View.{decl_view, defined_view};
ghost use Rattle.ctype_format.specs.Names.{name_view};
ghost use Rattle.ctype_format.specs.Raw.{Define, Func, Entry};
ghost use Rattle.tables.specs.Tables.{function_of, is_there};
ghost use Rattle.package_form.specs.Ids.{is_use};
ghost use Rattle.wit_component.specs.Rows.{Place, signature_of, defined_of, definition_declared, definition_index};
ghost use Rattle.wit_component.specs.Rows.{row_declarations, outer_alias, defined_types, row_types, row_offset};
ghost use Rattle.wit_component.specs.Rows.{place_after, declarations_of, places_after};
ghost use Rattle.wit_component.specs.Worlds.{directed, function_declared};
ghost use Rattle.wit_component.specs.ToComponent.{is_labelled};

use crate::valtypes::{
    cases_of, fields_of, index_of, labels_of, members_of, optional_of, parameters_of,
    raw_primitive, valtype_of,
};
use atoms::Label;
use ctype_bin::{
    ExternName, RawAlias, RawDecl, RawDefinedType, RawDescription, RawFunction, RawType,
};
use std::alloc::{AllocError, Global};
use std::marker::Model;
use tables::{Definition, Direction, Function, TypeDef, TypeDefKind, TypeName, ValType};

/// Where a row stands.
#[derive(Drop)]
pub struct RowPlace {
    /// The type index of each row of the table before it.
    indices: Vec<u32>,
    /// How many types the type that it stands in has before it.
    types: u32,
    /// The component type's index of the type that it uses, if it is a used name.
    used: u32,
}

impl Model for RowPlace {
    ghost use Rattle.wit_component.specs.Rows.{Place};

    ghost Value = { Place };

    ghost view = { λ p. record { indices = p.indices.items; types = p.types; used = p.used } };
}

fn is_use(kind: &TypeDefKind) -> bool
    ensures { result ≡ is_use kind.now }
{
    matches!(kind, TypeDefKind::Use(_))
}

/// The definition of a type, if it has one of its own.
fn defined_of(
    alloc: Global,
    indices: &[u32],
    kind: &TypeDefKind,
) -> Result<Option<RawDefinedType>, AllocError>
    ensures { IfOk result (λ d. option_map defined_view d ≡ defined_of indices.now kind.now) }
{
    let defined = match kind {
        TypeDefKind::Use(_) | TypeDefKind::Alias(ValType::Id(_)) => return Ok(None),
        TypeDefKind::Alias(ValType::Primitive(primitive)) => {
            RawDefinedType::Primitive(raw_primitive(*primitive))
        }
        TypeDefKind::Alias(ValType::String) => {
            RawDefinedType::Primitive(ctype_bin::Primitive::String)
        }
        TypeDefKind::List(element) => RawDefinedType::List(valtype_of(indices, *element)),
        TypeDefKind::Option(payload) => RawDefinedType::Option(valtype_of(indices, *payload)),
        TypeDefKind::Result(ok, error) => RawDefinedType::Result {
            ok: optional_of(indices, *ok),
            error: optional_of(indices, *error),
        },
        TypeDefKind::Tuple(types) => {
            RawDefinedType::Tuple(members_of(alloc, indices, types.as_slice())?)
        }
        TypeDefKind::Record(fields) => {
            RawDefinedType::Record(fields_of(alloc, indices, fields.as_slice())?)
        }
        TypeDefKind::Variant(cases) => {
            RawDefinedType::Variant(cases_of(alloc, indices, cases.as_slice())?)
        }
        TypeDefKind::Enum(names) => RawDefinedType::Enum(labels_of(alloc, names.as_slice())?),
        TypeDefKind::Flags(names) => RawDefinedType::Flags(labels_of(alloc, names.as_slice())?),
    };
    Ok(Some(defined))
}

/// A declaration of a type with this definition.
#[tactic(auto, unfolding(ctype_format::specs::View::decl_view, ctype_format::specs::View::type_view))]
fn definition_decl(defined: RawDefinedType) -> RawDecl
    ensures { decl_view result ≡ Entry (Define (defined_view defined)) }
{
    RawDecl::Type(RawType::Defined(defined))
}

/// The declaration of an alias of the type around at this index.
#[tactic(auto, unfolding(ctype_format::specs::View::decl_view))]
pub fn outer_alias(index: u32) -> RawDecl
    ensures { decl_view result ≡ outer_alias index }
{
    RawDecl::Alias(RawAlias::Outer { count: 1, index })
}

/// The declaration of what is imported or exported under this name.
#[tactic(auto, unfolding(ctype_format::specs::View::decl_view))]
pub fn directed(way: Direction, name: ExternName, description: RawDescription) -> RawDecl
    ensures { decl_view result ≡ directed way (name_view name) description }
{
    match way {
        Direction::Import => RawDecl::Import(name, description),
        Direction::Export => RawDecl::Export(name, description),
    }
}

fn labelled_decl(
    alloc: Global,
    way: Direction,
    name: &Label,
    description: RawDescription,
) -> Result<RawDecl, AllocError>
    ensures declaration { IfOk result (λ d. decl_view d ≡ directed way name.now description) }
    ensures label { IsLabel name.now }
{
    let name = Label::from_bytes(alloc, name.as_bytes())?;
    Ok(directed(way, ExternName::Label(name), description))
}

#[tactic(auto, unfolding(ctype_format::specs::View::decl_view, ctype_format::specs::View::type_view))]
fn signature_decl(
    alloc: Global,
    indices: &[u32],
    function: &Function,
) -> Result<RawDecl, AllocError>
    ensures { IfOk result (λ d. decl_view d ≡ Entry (Func (signature_of indices.now function.now))) }
{
    let params = parameters_of(alloc, indices, function.params.as_slice())?;
    let result = optional_of(indices, function.result);
    Ok(RawDecl::Type(RawType::Function(RawFunction { params, result })))
}

fn defined_types(kind: &TypeDefKind) -> u32
    ensures value { result ≡ defined_types kind.now }
    ensures few { result ≤ 1 }
{
    match kind {
        TypeDefKind::Alias(ValType::Id(_)) => 0,
        _ => 1,
    }
}

/// The type indices that a row takes.
fn row_types(row: &Definition) -> u32
    ensures value { result ≡ row_types row.now }
    ensures few { result ≤ 2 }
{
    match row {
        Definition::Type(definition) => match definition.name {
            Some(_) => defined_types(&definition.kind) + 1,
            None => defined_types(&definition.kind),
        },
        Definition::Function(_) => 1,
    }
}

/// How many of a row's type indices stand before the one by which it is referred to.
fn row_offset(row: &Definition) -> u32
    ensures value { result ≡ row_offset row.now }
    ensures few { result ≤ 1 }
{
    match row {
        Definition::Type(definition) => match definition.name {
            Some(_) => defined_types(&definition.kind),
            None => 0,
        },
        Definition::Function(_) => 0,
    }
}

impl RowPlace {
    /// The place of an interface's first row, whose used types begin at this index of the component type.
    pub fn first(indices: Vec<u32>, used: u32) -> RowPlace
        ensures { result ≡ record { indices = indices.items; types = 0; used = used } }
    {
        RowPlace {
            indices,
            types: 0,
            used,
        }
    }

    /// The type index of each row before it.
    pub fn into_indices(self) -> Vec<u32>
        ensures { result.items ≡ self.indices }
    {
        self.indices
    }

    /// Appends what stands before a type's export.
    fn push_definition(
        &self,
        alloc: Global,
        decls: &mut Vec<RawDecl>,
        kind: &TypeDefKind,
    ) -> Result<(), AllocError>
        ensures { OnOk result (map decl_view decls.new.items ≡ map decl_view decls.old.items
            ++ definition_declared self.now kind.now) }
    {
        if is_use(kind) {
            decls.push(outer_alias(self.used))?;
            return Ok(());
        }
        if let Some(defined) = defined_of(alloc, &self.indices, kind)? {
            decls.push(definition_decl(defined))?;
        }
        Ok(())
    }

    /// The index of what a type is.
    fn definition_index(&self, kind: &TypeDefKind) -> u32
        ensures { result ≡ definition_index self.now kind.now }
    {
        match kind {
            TypeDefKind::Alias(ValType::Id(id)) => index_of(&self.indices, *id),
            _ => self.types,
        }
    }

    /// Appends a function's declarations.
    pub fn push_function(
        &self,
        alloc: Global,
        decls: &mut Vec<RawDecl>,
        way: Direction,
        function: &Function,
    ) -> Result<(), AllocError>
        ensures declarations { OnOk result
            (map decl_view decls.new.items ≡ map decl_view decls.old.items
            ++ function_declared self.now way (Some function.now)) }
        ensures label { OnOk result (IsLabel function.now.name) }
    {
        decls.push(signature_decl(alloc, &self.indices, function)?)?;
        let description = RawDescription::Function(self.types);
        decls.push(labelled_decl(alloc, way, &function.name, description)?)?;
        Ok(())
    }

    /// Appends the declarations of a world's function, which this row is.
    pub fn push_item(
        &self,
        alloc: Global,
        decls: &mut Vec<RawDecl>,
        way: Direction,
        row: &Definition,
    ) -> Result<(), AllocError>
        requires { IsTrue (is_there (function_of (Some row.now))) }
        ensures declarations { OnOk result
            (map decl_view decls.new.items ≡ map decl_view decls.old.items
            ++ function_declared self.now way (function_of (Some row.now))) }
        ensures labelled { OnOk result (IsTrue (is_labelled row.now)) }
    {
        match row {
            Definition::Function(function) => self.push_function(alloc, decls, way, function),
            Definition::Type(_) => Ok(()),
        }
    }

    /// Appends a row's declarations.
    fn push_row(
        &self,
        alloc: Global,
        decls: &mut Vec<RawDecl>,
        row: &Definition,
    ) -> Result<(), AllocError>
        ensures declarations { OnOk result
            (map decl_view decls.new.items ≡ map decl_view decls.old.items ++ row_declarations self.now row.now) }
        ensures labelled { OnOk result (IsTrue (is_labelled row.now)) }
    {
        match row {
            Definition::Type(definition) => {
                self.push_definition(alloc, decls, &definition.kind)?;
                if let Some(name) = &definition.name {
                    let index = self.definition_index(&definition.kind);
                    let description = RawDescription::TypeEqual(index);
                    let way = Direction::Export;
                    decls.push(labelled_decl(alloc, way, &name.name, description)?)?;
                }
            }
            Definition::Function(function) => {
                self.push_function(alloc, decls, Direction::Export, function)?;
            }
        }
        Ok(())
    }

    /// Goes on behind a row.
    pub fn pass(&mut self, row: &Definition) -> Result<(), AllocError>
        requires types { self.old.types ≤ 1048576 }
        requires used { self.old.used ≤ 1048576 }
        ensures passed { OnOk result (self.new ≡ place_after self.old row.now) }
        ensures few { OnOk result (self.new.types ≤ self.old.types + 2) }
    {
        self.indices.push(self.types + row_offset(row))?;
        self.types += row_types(row);
        self.used += 1;
        Ok(())
    }

    /// The type index of an alias, behind which it goes on.
    pub fn pass_alias(&mut self) -> u32
        requires { self.old.types ≤ 1048576 }
        ensures index { result ≡ self.old.types }
        ensures passed { self.new ≡ record
            { indices = self.old.indices; types = self.old.types + 1; used = self.old.used } }
    {
        let index = self.types;
        self.types += 1;
        index
    }

    /// Appends the declarations of these rows, and goes on behind them.
    pub fn push_rows(
        &mut self,
        alloc: Global,
        decls: &mut Vec<RawDecl>,
        rows: &[Definition],
    ) -> Result<(), AllocError>
        requires types { self.old.types ≤ 524288 }
        requires used { self.old.used ≤ 524288 }
        requires rows { length rows.now ≤ 65535 }
        ensures declarations { OnOk result
            (map decl_view decls.new.items ≡ map decl_view decls.old.items ++ declarations_of self.old rows.now) }
        ensures place { OnOk result (self.new ≡ places_after self.old rows.now) }
        ensures few { OnOk result (self.new.types ≤ self.old.types + 2 * length rows.now) }
        ensures passed { OnOk result (self.new.used ≡ self.old.used + length rows.now) }
        ensures labelled { OnOk result (IsTrue (list_all is_labelled rows.now)) }
    {
        for row in rows {
            self.push_row(alloc, decls, row)?;
            self.pass(row)?;
        }
        Ok(())
    }
}

/// The declarations of an interface's rows, and the place behind them.
pub fn declarations_of(
    alloc: Global,
    first: RowPlace,
    rows: &[Definition],
) -> Result<(Vec<RawDecl>, RowPlace), AllocError>
    requires types { first.types ≡ 0 }
    requires used { first.used ≤ 524288 }
    requires rows { length rows.now ≤ 65535 }
    ensures declarations { IfOk result (λ x. map decl_view x.0.items ≡ declarations_of first rows.now) }
    ensures place { IfOk result (λ x. x.1 ≡ places_after first rows.now) }
    ensures labelled { OnOk result (IsTrue (list_all is_labelled rows.now)) }
{
    let mut place = first;
    let mut decls = Vec::new(alloc);
    place.push_rows(alloc, &mut decls, rows)?;
    Ok((decls, place))
}
