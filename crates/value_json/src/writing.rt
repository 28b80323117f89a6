//! JSON values of values: over the types that stand above in the table.
ghost use Rattle.std.specs.Prelude.{◌≡◌, false, ◌<◌, ◌≤◌, ◌^◌, ◌++◌, ℕ, List, map, IfOk, IsTrue};
ghost use Rattle.std.specs.List.{list_all, AllByRecursion};
ghost use Rattle.canonical_abi.specs.Labelled.{labelled_enum, labelled_flags, labelled_string, closed, closed_members};
ghost use Rattle.canonical_abi.specs.Labelled.{closed_fields, closed_cases, plain_cases};
ghost use Rattle.canonical_abi.specs.Types.{variant_type, depth};
ghost use Rattle.canonical_abi.specs.Values.{HasType, HaveTypes};
ghost use Rattle.serde_json.specs.Data.{string, put, depth as json_depth};
ghost use Rattle.serde_json.specs.View.{view, members_view};
ghost use Rattle.serde_json.specs.Written.{has_float};
ghost use Rattle.tables.specs.Closed.{closed_type};
ghost use Rattle.tables.specs.Standard.{IsTypeOf};
ghost use Rattle.tables.specs.Tables.{is_below, is_type, option_all, kind_all, is_standard_kind};
ghost use Rattle.values.specs.Val.{value_of};
ghost use Rattle.value_json.specs.Json.{Json as StandsAs, EachJson, MembersJson, PayloadJson, CasesJson, FieldsJson};
ghost use Rattle.tables.specs.Labelled.{labelled_type, labelled_types, labelled_kind, labelled_payload};
ghost use Rattle.tables.specs.Labelled.{labelled_members, labelled_fields, labelled_cases};
ghost use Rattle.value_json.specs.Apart.{HasApartLabels, KindApart, HaveLabelsApart};
ghost use Rattle.value_json.specs.Writing.{HasCase, HasPayload};

use crate::reading::kind_of;
use crate::scalars::json_of_scalar;
use atoms::Label;
use serde_json::{Map, Value as Json};
use std::alloc::{AllocError, Global};
use tables::{Case, Field, Resolve, TypeDefKind, ValType};
use values::Val;

/// Writes values of types of a package.
#[derive(Clone, Copy)]
struct Writer<'a> {
    alloc: Global,
    resolve: &'a Resolve,
}

/// The JSON value of a value of the type.
pub fn json_of_value(
    alloc: Global,
    resolve: &Resolve,
    ty: ValType,
    value: &Val,
) -> Result<Json, AllocError>
    requires inside { IsTypeOf resolve.now ty }
    requires labels { HasApartLabels resolve.now }
    requires typed { HasType (value_of value.now) (closed_type resolve.now ty) }
    ensures ok { IfOk result (λ json. StandsAs (labelled_type resolve.now ty) (value_of value.now) (view json)) }
    ensures whole { IfOk result (λ json. has_float (view json) ≡ false) }
    ensures nests { IfOk result (λ json. json_depth (view json) ≤ depth (closed_type resolve.now ty)) }
{
    let writer = Writer { alloc, resolve };
    writer.write_value(ty, value)
}

/// A text.
fn text_of(alloc: Global, text: &str) -> Result<Json, AllocError>
    ensures { IfOk result (λ json. view json ≡ string text.now) }
{
    Ok(Json::String(String::from_str(alloc, text)?))
}

/// Puts a member into an object.
fn put_member(
    alloc: Global,
    members: &mut Map<String, Json>,
    label: &str,
    member: Json,
) -> Result<(), AllocError>
    ensures { IfOk result (λ done. members_view members.new.entries
        ≡ put label.now (view member) (members_view members.old.entries)) }
{
    members.insert(String::from_str(alloc, label)?, member)?;
    Ok(())
}

/// The number of a variant's case.
fn case_of(value: &Val) -> u32
    requires { (n : ℕ) × HasCase (value_of value.now) n }
    ensures { HasCase (value_of value.now) result }
{
    let Val::Variant(case, _payload) = value else {
        unreachable!()
    };
    *case
}

fn write_text(alloc: Global, value: &Val) -> Result<Json, AllocError>
    requires typed { HasType (value_of value.now) (closed labelled_string) }
    ensures { IfOk result (λ json. StandsAs labelled_string (value_of value.now) (view json)) }
{
    let Val::String(text) = value else {
        unreachable!()
    };
    text_of(alloc, text.as_str())
}

impl Writer<'_> {
    #[cycle(writing)]
    fn write_value(&self, ty: ValType, value: &Val) -> Result<Json, AllocError>
        requires inside { IsTypeOf self.now.resolve.now ty }
        requires labels { HasApartLabels self.now.resolve.now }
        requires typed { HasType (value_of value.now) (closed (labelled_type self.now.resolve.now ty)) }
        ensures { IfOk result (λ json. StandsAs (labelled_type self.now.resolve.now ty) (value_of value.now)
            (view json)) }
    {
        match ty {
            ValType::Primitive(_primitive) => json_of_scalar(self.alloc, value),
            ValType::String => write_text(self.alloc, value),
            ValType::Id(id) => {
                let kind = kind_of(self.resolve, id);
                self.write_kind(id.0, kind, value)
            }
        }
    }

    /// The JSON value of a value of what stands at a place of the table.
    #[cycle(writing)]
    fn write_kind(&self, place: u32, kind: &TypeDefKind, value: &Val) -> Result<Json, AllocError>
        requires below { IsTrue (kind_all (is_below place) kind.now) }
        requires types { IsTrue (kind_all (is_type self.now.resolve.now.definitions) kind.now) }
        requires labels { HasApartLabels self.now.resolve.now }
        requires standard { IsTrue (is_standard_kind kind.now) }
        requires apart { KindApart kind.now }
        requires typed { HasType (value_of value.now)
            (closed (labelled_kind (labelled_types self.now.resolve.now) kind.now)) }
        ensures { IfOk result (λ json. StandsAs (labelled_kind (labelled_types self.now.resolve.now) kind.now)
            (value_of value.now) (view json)) }
    {
        match kind {
            TypeDefKind::Use(target) => self.write_value(ValType::Id(*target), value),
            TypeDefKind::Alias(ty) => self.write_value(*ty, value),
            TypeDefKind::List(element) => {
                let Val::List(values) = value else {
                    unreachable!()
                };
                Ok(Json::Array(self.write_items(*element, values.as_slice())?))
            }
            TypeDefKind::Option(ty) => {
                if case_of(value) == 0 {
                    self.write_case(place, 0, "none", None, value)
                } else {
                    self.write_case(place, 1, "some", Some(*ty), value)
                }
            }
            TypeDefKind::Result(ok, error) => {
                if case_of(value) == 0 {
                    self.write_case(place, 0, "ok", *ok, value)
                } else {
                    self.write_case(place, 1, "error", *error, value)
                }
            }
            TypeDefKind::Tuple(types) => {
                let Val::Record(values) = value else {
                    unreachable!()
                };
                Ok(Json::Array(self.write_members(place, types.as_slice(), values.as_slice())?))
            }
            TypeDefKind::Record(fields) => {
                let Val::Record(values) = value else {
                    unreachable!()
                };
                Ok(Json::Object(self.write_fields(place, fields.as_slice(), values.as_slice())?))
            }
            TypeDefKind::Variant(cases) => self.write_variant(place, cases.as_slice(), value),
            TypeDefKind::Enum(labels) => write_label(self.alloc, labels.as_slice(), value),
            TypeDefKind::Flags(labels) => write_flags(self.alloc, labels.as_slice(), value),
        }
    }

    /// The JSON values of values of one type.
    #[cycle(writing)]
    fn write_items(&self, element: ValType, values: &[Val]) -> Result<Vec<Json>, AllocError>
        requires inside { IsTypeOf self.now.resolve.now element }
        requires labels { HasApartLabels self.now.resolve.now }
        requires typed { AllByRecursion (λ v. HasType v (closed (labelled_type self.now.resolve.now element)))
            (map value_of values.now) }
        ensures { IfOk result (λ items. EachJson (StandsAs (labelled_type self.now.resolve.now element))
            (map value_of values.now) (map view items.items)) }
    {
        let mut items = Vec::new(self.alloc);
        for value in values {
            items.push(self.write_value(element, value)?)?;
        }
        Ok(items)
    }

    /// The JSON values of values, each of its member's type.
    #[cycle(writing)]
    fn write_members(
        &self,
        _place: u32,
        types: &[ValType],
        values: &[Val],
    ) -> Result<Vec<Json>, AllocError>
        requires below { IsTrue (list_all (is_below _place) types.now) }
        requires types { IsTrue (list_all (is_type self.now.resolve.now.definitions) types.now) }
        requires labels { HasApartLabels self.now.resolve.now }
        requires typed { HaveTypes (map value_of values.now)
            (closed_members (labelled_members (labelled_types self.now.resolve.now) types.now)) }
        ensures { IfOk result (λ items. MembersJson (labelled_members (labelled_types self.now.resolve.now) types.now)
            (map value_of values.now) (map view items.items)) }
    {
        let mut items = Vec::new(self.alloc);
        for (i, value) in values.iter().enumerate() {
            items.push(self.write_value(types[i], value)?)?;
        }
        Ok(items)
    }

    /// The members of the object of a record's values.
    #[cycle(writing)]
    fn write_fields(
        &self,
        _place: u32,
        fields: &[Field],
        values: &[Val],
    ) -> Result<Map<String, Json>, AllocError>
        requires below { IsTrue (list_all (λ f. is_below _place f.ty) fields.now) }
        requires types { IsTrue (list_all (λ f. is_type self.now.resolve.now.definitions f.ty) fields.now) }
        requires labels { HasApartLabels self.now.resolve.now }
        requires apart { HaveLabelsApart fields.now }
        requires typed { HaveTypes (map value_of values.now)
            (closed_fields (labelled_fields (labelled_types self.now.resolve.now) fields.now)) }
        ensures { IfOk result (λ members. FieldsJson (labelled_fields (labelled_types self.now.resolve.now) fields.now)
            (map value_of values.now) (members_view members.entries)) }
    {
        let mut members = Map::new(self.alloc);
        for i in (0..fields.len()).rev() {
            let field = &fields[i];
            let member = self.write_value(field.ty, &values[i])?;
            put_member(self.alloc, &mut members, field.name.as_str(), member)?;
        }
        Ok(members)
    }

    /// The JSON value of a value of a case of this label and payload.
    #[cycle(writing)]
    fn write_case(
        &self,
        _place: u32,
        _case: u32,
        label: &str,
        payload: Option<ValType>,
        value: &Val,
    ) -> Result<Json, AllocError>
        requires below { IsTrue (option_all (is_below _place) payload) }
        requires types { IsTrue (option_all (is_type self.now.resolve.now.definitions) payload) }
        requires labels { HasApartLabels self.now.resolve.now }
        requires typed { HasPayload (labelled_payload (labelled_types self.now.resolve.now) payload) _case
            (value_of value.now) }
        ensures { IfOk result (λ json. PayloadJson (labelled_payload (labelled_types self.now.resolve.now) payload)
            label.now _case (value_of value.now) (view json)) }
    {
        let Some(ty) = payload else {
            return text_of(self.alloc, label);
        };
        let Val::Variant(_, Some(inner)) = value else {
            unreachable!()
        };
        let member = self.write_value(ty, inner)?;
        let mut members = Map::new(self.alloc);
        put_member(self.alloc, &mut members, label, member)?;
        Ok(Json::Object(members))
    }

    /// The JSON value of a value of one of these cases.
    #[cycle(writing)]
    fn write_variant(&self, place: u32, cases: &[Case], value: &Val) -> Result<Json, AllocError>
        requires below { IsTrue (list_all (λ c. option_all (is_below place) c.ty) cases.now) }
        requires types { IsTrue (list_all (λ c. option_all (is_type self.now.resolve.now.definitions) c.ty) cases.now) }
        requires labels { HasApartLabels self.now.resolve.now }
        requires typed { HasType (value_of value.now)
            (variant_type (closed_cases (labelled_cases (labelled_types self.now.resolve.now) cases.now))) }
        ensures { IfOk result (λ json. CasesJson (labelled_cases (labelled_types self.now.resolve.now) cases.now) 0
            (value_of value.now) (view json)) }
    {
        let number = case_of(value);
        let case = &cases[number as usize];
        self.write_case(place, number, case.name.as_str(), case.ty, value)
    }
}

/// The label of an enum's case.
fn write_label(alloc: Global, labels: &[Label], value: &Val) -> Result<Json, AllocError>
    requires typed { HasType (value_of value.now) (variant_type (plain_cases labels.now)) }
    ensures { IfOk result (λ json. StandsAs (labelled_enum labels.now) (value_of value.now) (view json)) }
{
    let number = case_of(value);
    text_of(alloc, labels[number as usize].as_str())
}

/// The labels of the flags that are set: the first label's bit is the lowest.
fn write_flags(alloc: Global, labels: &[Label], value: &Val) -> Result<Json, AllocError>
    requires typed { HasType (value_of value.now) (closed (labelled_flags labels.now)) }
    ensures { IfOk result (λ json. StandsAs (labelled_flags labels.now) (value_of value.now) (view json)) }
{
    let Val::Flags(bits) = value else {
        unreachable!()
    };
    let mut rest = *bits;
    let mut items = Vec::new(alloc);
    for label in labels {
        if rest % 2 == 1 {
            items.push(text_of(alloc, label.as_str())?)?;
        }
        rest /= 2;
    }
    Ok(Json::Array(items))
}
