//! Types told apart by what crosses: without names and labels.
ghost use Rattle.std.specs.Prelude.{◌≡◌, ◌<◌, [], map, length, Option, Some, None, IfOk, OnOk, All};
ghost use Rattle.std.specs.Option.{option_map};
ghost use Rattle.canonical_abi.specs.Types.{list_type, record_type, fields_of, variant_type, cases_of};
ghost use Rattle.tables.specs.Closed.{closed_val, closed_kind, closed_params, closed_definition};
ghost use Rattle.package_diff.specs.Shapes.{shape_type, shape_types, row_types, result_type, IsNumberOf, IsPartOf};
ghost use Rattle.package_diff.specs.Shapes.{IsMadeBelow, IsRowAmong, AreRowsOf, AreMadeInOrder, TellTypesApart};
ghost use Rattle.package_diff.specs.Shapes.{Extends};

use atoms::{KeyedState, Label};
use indexmap::IndexSet;
use std::alloc::{AllocError, Global};
use tables::{Case, Definition, Field, Parameter, Primitive, Resolve, TypeDefKind, ValType};

/// What a closed type is made of. Types in it are numbers of shapes before it.
#[derive(PartialEq, Eq, Drop)]
#[derive_where(Hash)]
enum Shape {
    /// One of ten, which all hash alike.
    Primitive(#[derive_where(skip(Hash))] Primitive),
    String,
    List(usize),
    /// A record or a tuple, or the parameters of a function.
    Record(Vec<usize>),
    /// The payloads of the cases of a variant, an enum, an option or a result.
    Variant(Vec<Option<usize>>),
    /// How many labels they are.
    Flags(usize),
}

/// Shapes, of which each closed type has one.
#[derive(Drop)]
pub struct Shapes {
    alloc: Global,
    known: IndexSet<Shape, KeyedState>,
    ghost ordered: { AreMadeInOrder known.keys },
    ghost distinct: { TellTypesApart known.keys },
}

/// The shapes of a row: of a type its own, of a function those of its parameters, as a record, and of its result.
#[derive(Clone, Copy, PartialEq, Eq)]
pub struct RowShape {
    pub number: usize,
    pub result: Option<usize>,
}

fn parameter_types(alloc: Global, parameters: &[Parameter]) -> Result<Vec<ValType>, AllocError>
    ensures { IfOk result (λ types. types.items ≡ map (λ p. p.ty) parameters.now) }
{
    parameters
        .iter()
        .map(|parameter| parameter.ty)
        .collect(alloc)
}

fn field_types(alloc: Global, fields: &[Field]) -> Result<Vec<ValType>, AllocError>
    ensures { IfOk result (λ types. types.items ≡ map (λ f. f.ty) fields.now) }
{
    fields.iter().map(|field| field.ty).collect(alloc)
}

fn payload_types(alloc: Global, cases: &[Case]) -> Result<Vec<Option<ValType>>, AllocError>
    ensures { IfOk result (λ types. types.items ≡ map (λ c. c.ty) cases.now) }
{
    cases.iter().map(|case| case.ty).collect(alloc)
}

fn no_payloads(alloc: Global, labels: &[Label]) -> Result<Vec<Option<ValType>>, AllocError>
    ensures { IfOk result (λ types. types.items ≡ map (λ n. None) labels.now) }
{
    labels.iter().map(|_| None).collect(alloc)
}

impl Shapes {
    /// No shapes. They are looked up by hashers with this key.
    pub fn new(alloc: Global, keyed: KeyedState) -> Shapes {
        Shapes {
            alloc,
            known: IndexSet::with_hasher(alloc, keyed),
        }
    }

    /// The number of a shape: that of an equal one, if there is one.
    fn number(&mut self, shape: Shape) -> Result<usize, AllocError>
        requires { IsMadeBelow (length self.old.known.keys) shape }
        ensures extends { OnOk result (Extends self.old.known.keys self.new.known.keys) }
        ensures number { IfOk result (IsNumberOf self.new.known.keys
            (shape_type (shape_types [] self.old.known.keys) shape)) }
    {
        let (number, _) = self.known.insert_full(shape)?;
        Ok(number)
    }

    /// The number of a type's shape, over those of the rows before.
    fn of_type(&mut self, rows: &[RowShape], ty: ValType) -> Result<usize, AllocError>
        requires { All (IsRowAmong self.old.known.keys) rows.now }
        ensures extends { OnOk result (Extends self.old.known.keys self.new.known.keys) }
        ensures number { IfOk result (IsNumberOf self.new.known.keys
            (closed_val (row_types self.old.known.keys rows.now) ty)) }
    {
        match ty {
            ValType::Primitive(primitive) => self.number(Shape::Primitive(primitive)),
            ValType::String => self.number(Shape::String),
            ValType::Id(id) => match rows.get(id.0 as usize) {
                Some(row) => Ok(row.number),
                None => self.number(Shape::String),
            },
        }
    }

    /// The same of what may be no type.
    fn of_payload(
        &mut self,
        rows: &[RowShape],
        ty: Option<ValType>,
    ) -> Result<Option<usize>, AllocError>
        requires { All (IsRowAmong self.old.known.keys) rows.now }
        ensures extends { OnOk result (Extends self.old.known.keys self.new.known.keys) }
        ensures part { IfOk result (IsPartOf self.new.known.keys
            (option_map (closed_val (row_types self.old.known.keys rows.now)) ty)) }
    {
        match ty {
            Some(ty) => Ok(Some(self.of_type(rows, ty)?)),
            None => Ok(None),
        }
    }

    /// The number of a record with fields of these types.
    fn of_fields(&mut self, rows: &[RowShape], types: &[ValType]) -> Result<usize, AllocError>
        requires { All (IsRowAmong self.old.known.keys) rows.now }
        ensures extends { OnOk result (Extends self.old.known.keys self.new.known.keys) }
        ensures number { IfOk result (IsNumberOf self.new.known.keys
            (record_type (fields_of (map (closed_val (row_types self.old.known.keys rows.now)) types.now)))) }
    {
        let mut fields = Vec::new(self.alloc);
        for ty in types {
            let field = self.of_type(rows, *ty)?;
            fields.push(field)?;
        }
        self.number(Shape::Record(fields))
    }

    /// The number of a variant with cases of these payloads.
    fn of_cases(
        &mut self,
        rows: &[RowShape],
        payloads: &[Option<ValType>],
    ) -> Result<usize, AllocError>
        requires { All (IsRowAmong self.old.known.keys) rows.now }
        ensures extends { OnOk result (Extends self.old.known.keys self.new.known.keys) }
        ensures number { IfOk result (IsNumberOf self.new.known.keys (variant_type (cases_of
            (map (option_map (closed_val (row_types self.old.known.keys rows.now))) payloads.now)))) }
    {
        let mut cases = Vec::new(self.alloc);
        for ty in payloads {
            let payload = self.of_payload(rows, *ty)?;
            cases.push(payload)?;
        }
        self.number(Shape::Variant(cases))
    }

    /// The number of the record of a function's parameters.
    fn of_parameters(
        &mut self,
        rows: &[RowShape],
        parameters: &[Parameter],
    ) -> Result<usize, AllocError>
        requires { All (IsRowAmong self.old.known.keys) rows.now }
        ensures extends { OnOk result (Extends self.old.known.keys self.new.known.keys) }
        ensures number { IfOk result (IsNumberOf self.new.known.keys
            (record_type (fields_of (closed_params (row_types self.old.known.keys rows.now) parameters.now)))) }
    {
        let types = parameter_types(self.alloc, parameters)?;
        self.of_fields(rows, types.as_slice())
    }

    fn of_record(&mut self, rows: &[RowShape], fields: &[Field]) -> Result<usize, AllocError>
        requires { All (IsRowAmong self.old.known.keys) rows.now }
        ensures extends { OnOk result (Extends self.old.known.keys self.new.known.keys) }
        ensures number { IfOk result (IsNumberOf self.new.known.keys (record_type (fields_of
            (map (λ f. closed_val (row_types self.old.known.keys rows.now) f.ty) fields.now)))) }
    {
        let types = field_types(self.alloc, fields)?;
        self.of_fields(rows, types.as_slice())
    }

    fn of_variant(&mut self, rows: &[RowShape], cases: &[Case]) -> Result<usize, AllocError>
        requires { All (IsRowAmong self.old.known.keys) rows.now }
        ensures extends { OnOk result (Extends self.old.known.keys self.new.known.keys) }
        ensures number { IfOk result (IsNumberOf self.new.known.keys (variant_type (cases_of
            (map (λ c. option_map (closed_val (row_types self.old.known.keys rows.now)) c.ty) cases.now)))) }
    {
        let payloads = payload_types(self.alloc, cases)?;
        self.of_cases(rows, payloads.as_slice())
    }

    fn of_enum(&mut self, rows: &[RowShape], labels: &[Label]) -> Result<usize, AllocError>
        requires { All (IsRowAmong self.old.known.keys) rows.now }
        ensures extends { OnOk result (Extends self.old.known.keys self.new.known.keys) }
        ensures number { IfOk result (IsNumberOf self.new.known.keys (variant_type (cases_of
            (map (λ n. None) labels.now)))) }
    {
        let payloads = no_payloads(self.alloc, labels)?;
        self.of_cases(rows, payloads.as_slice())
    }

    fn of_list(&mut self, rows: &[RowShape], ty: ValType) -> Result<usize, AllocError>
        requires { All (IsRowAmong self.old.known.keys) rows.now }
        ensures extends { OnOk result (Extends self.old.known.keys self.new.known.keys) }
        ensures number { IfOk result (IsNumberOf self.new.known.keys
            (list_type (closed_val (row_types self.old.known.keys rows.now) ty))) }
    {
        let element = self.of_type(rows, ty)?;
        self.number(Shape::List(element))
    }

    /// The number of the shape of a type of this kind.
    fn of_kind(&mut self, rows: &[RowShape], kind: &TypeDefKind) -> Result<usize, AllocError>
        requires { All (IsRowAmong self.old.known.keys) rows.now }
        ensures extends { OnOk result (Extends self.old.known.keys self.new.known.keys) }
        ensures number { IfOk result (IsNumberOf self.new.known.keys
            (closed_kind (row_types self.old.known.keys rows.now) kind.now)) }
    {
        match kind {
            TypeDefKind::Use(id) => self.of_type(rows, ValType::Id(*id)),
            TypeDefKind::Alias(ty) => self.of_type(rows, *ty),
            TypeDefKind::List(ty) => self.of_list(rows, *ty),
            TypeDefKind::Option(ty) => self.of_cases(rows, &[None, Some(*ty)]),
            TypeDefKind::Result(ok, error) => self.of_cases(rows, &[*ok, *error]),
            TypeDefKind::Tuple(types) => self.of_fields(rows, types.as_slice()),
            TypeDefKind::Record(fields) => self.of_record(rows, fields.as_slice()),
            TypeDefKind::Variant(cases) => self.of_variant(rows, cases.as_slice()),
            TypeDefKind::Enum(labels) => self.of_enum(rows, labels.as_slice()),
            TypeDefKind::Flags(labels) => self.number(Shape::Flags(labels.len())),
        }
    }

    fn of_definition(
        &mut self,
        rows: &[RowShape],
        definition: &Definition,
    ) -> Result<RowShape, AllocError>
        requires { All (IsRowAmong self.old.known.keys) rows.now }
        ensures extends { OnOk result (Extends self.old.known.keys self.new.known.keys) }
        ensures number { IfOk result (λ row. IsNumberOf self.new.known.keys
            (closed_definition (row_types self.old.known.keys rows.now) definition.now) row.number) }
        ensures answer { IfOk result (λ row. IsPartOf self.new.known.keys
            (result_type (row_types self.old.known.keys rows.now) definition.now) row.result) }
    {
        match definition {
            Definition::Type(definition) => {
                let number = self.of_kind(rows, &definition.kind)?;
                Ok(RowShape {
                    number,
                    result: None,
                })
            }
            Definition::Function(function) => {
                let number = self.of_parameters(rows, function.params.as_slice())?;
                let result = self.of_payload(rows, function.result)?;
                Ok(RowShape { number, result })
            }
        }
    }

    /// The shapes of the rows of a table.
    pub fn rows_of(&mut self, table: &Resolve) -> Result<Vec<RowShape>, AllocError>
        ensures extends { OnOk result (Extends self.old.known.keys self.new.known.keys) }
        ensures rows { IfOk result (λ rows. AreRowsOf self.new.known.keys table.now rows.items) }
    {
        let mut rows = Vec::new(self.alloc);
        for definition in table.definitions.as_slice() {
            let row = self.of_definition(rows.as_slice(), definition)?;
            rows.push(row)?;
        }
        Ok(rows)
    }
}
