//! Values of JSON.
ghost use Rattle.std.specs.Prelude.{◌≡◌, ◌≤◌, ◌<◌, ◌^◌, ℕ, IsTrue, IfSome, IfNone, IfOk, IsErrOf, map, List, length};
ghost use Rattle.std.specs.List.{list_all};
ghost use Rattle.serde_json.specs.View.{view};
ghost use Rattle.canonical_abi.specs.Values.{Value, HasType, HaveTypes};
ghost use Rattle.canonical_abi.specs.Labelled.{labelled_string, labelled_enum, labelled_flags};
ghost use Rattle.tables.specs.Closed.{closed_type};
ghost use Rattle.tables.specs.Standard.{IsTypeOf};
ghost use Rattle.tables.specs.Tables.{is_type_id, is_type, is_below, kind_all, option_all, is_standard_kind};
ghost use Rattle.values.specs.Members.{fields_of_types, AreTypesOf};
ghost use Rattle.values.specs.Val.{value_of};
ghost use Rattle.tables.specs.Labelled.{labelled_type, labelled_types, labelled_val, labelled_kind, labelled_payload};
ghost use Rattle.tables.specs.Labelled.{labelled_members, labelled_fields, labelled_cases};
ghost use Rattle.value_json.specs.Apart.{HaveLabelsApart, KindApart, HasApartLabels};
ghost use Rattle.value_json.specs.Json.{Json as StandsAs, HasNone, EachJson, MembersJson, PayloadJson, CasesJson};
ghost use Rattle.value_json.specs.Json.{HasFields, HasMembers, FlagsJson};

use crate::error::JsonError;
use crate::parts::{is_text, only_member};
use crate::scalars::scalar_of_json;
use atoms::Label;
use serde_json::Value as Json;
use std::alloc::Global;
use tables::{Case, Definition, Field, Resolve, TypeDefKind, TypeId, ValType};
use values::Val;

/// Reads values of types of a package.
#[derive(Clone, Copy)]
struct Reader<'a> {
    alloc: Global,
    resolve: &'a Resolve,
}

/// The value of a type of the package that stands as this JSON value.
pub fn value_of_json(
    alloc: Global,
    resolve: &Resolve,
    ty: ValType,
    json: &Json,
) -> Result<Val, JsonError>
    requires inside { IsTypeOf resolve.now ty }
    requires labels { HasApartLabels resolve.now }
    ensures ok { IfOk result (λ v. StandsAs (labelled_type resolve.now ty) (value_of v) (view json.now)) }
    ensures typed { IfOk result (λ v. HasType (value_of v) (closed_type resolve.now ty)) }
    ensures other { IsErrOf result JsonError.NotThisType → HasNone (labelled_type resolve.now ty) (view json.now) }
{
    let reader = Reader { alloc, resolve };
    reader.read_value(ty, json)
}

/// The values of types of the package that stand as the items of an array: each of its type, and as many as the types.
pub fn values_of_json(
    alloc: Global,
    resolve: &Resolve,
    types: &[ValType],
    json: &Json,
) -> Result<Vec<Val>, JsonError>
    requires known { AreTypesOf resolve.now types.now }
    requires labels { HasApartLabels resolve.now }
    ensures ok { IfOk result (λ vs. HasMembers (labelled_members (labelled_types resolve.now) types.now)
        (map value_of vs.items) (view json.now)) }
    ensures typed { IfOk result (λ vs. HaveTypes (map value_of vs.items) (fields_of_types resolve.now types.now)) }
    ensures other { IsErrOf result JsonError.NotThisType
        → (vs : List Value) → HasMembers (labelled_members (labelled_types resolve.now) types.now) vs (view json.now)
        → ⊥ }
{
    let Some(items) = json.as_array() else {
        return Err(JsonError::NotThisType);
    };
    let place = resolve.definitions.len();
    let reader = Reader { alloc, resolve };
    match reader.read_members(place, types, items.as_slice()) {
        Ok(values) => Ok(values),
        Err(error) => Err(error),
    }
}

/// What the type at this place is.
pub(crate) fn kind_of(resolve: &Resolve, id: TypeId) -> &TypeDefKind
    requires inside { IsTrue (is_type_id resolve.now.definitions id) }
    requires labels { HasApartLabels resolve.now }
    ensures is { labelled_val (labelled_types resolve.now) (ValType.Id id)
        ≡ labelled_kind (labelled_types resolve.now) result.now }
    ensures below { IsTrue (kind_all (is_below id.0) result.now) }
    ensures typed { IsTrue (kind_all (is_type resolve.now.definitions) result.now) }
    ensures standard { IsTrue (is_standard_kind result.now) }
    ensures apart { KindApart result.now }
{
    match &resolve.definitions.as_slice()[id.0 as usize] {
        Definition::Type(definition) => &definition.kind,
        Definition::Function(_) => unreachable!(),
    }
}

fn read_text(alloc: Global, json: &Json) -> Result<Val, JsonError>
    ensures ok { IfOk result (λ v. StandsAs labelled_string (value_of v) (view json.now)) }
    ensures other { IsErrOf result JsonError.NotThisType → HasNone labelled_string (view json.now) }
{
    match json.as_str() {
        Some(text) => Ok(Val::String(String::from_str(alloc, text)?)),
        None => Err(JsonError::NotThisType),
    }
}

impl Reader<'_> {
    #[cycle(reading)]
    fn read_value(&self, ty: ValType, json: &Json) -> Result<Val, JsonError>
        requires inside { IsTypeOf self.now.resolve.now ty }
        requires labels { HasApartLabels self.now.resolve.now }
        ensures ok { IfOk result (λ v. StandsAs (labelled_type self.now.resolve.now ty) (value_of v) (view json.now)) }
        ensures other { IsErrOf result JsonError.NotThisType
            → HasNone (labelled_type self.now.resolve.now ty) (view json.now) }
    {
        match ty {
            ValType::Primitive(primitive) => match scalar_of_json(primitive, json) {
                Some(value) => Ok(value),
                None => Err(JsonError::NotThisType),
            },
            ValType::String => read_text(self.alloc, json),
            ValType::Id(id) => {
                let kind = kind_of(self.resolve, id);
                self.read_kind(id.0, kind, json)
            }
        }
    }

    /// The value of what stands at a place of the table.
    #[cycle(reading)]
    fn read_kind(&self, place: u32, kind: &TypeDefKind, json: &Json) -> Result<Val, JsonError>
        requires below { IsTrue (kind_all (is_below place) kind.now) }
        requires typed { IsTrue (kind_all (is_type self.now.resolve.now.definitions) kind.now) }
        requires labels { HasApartLabels self.now.resolve.now }
        requires standard { IsTrue (is_standard_kind kind.now) }
        requires apart { KindApart kind.now }
        ensures ok { IfOk result (λ v. StandsAs (labelled_kind (labelled_types self.now.resolve.now) kind.now)
            (value_of v) (view json.now)) }
        ensures other { IsErrOf result JsonError.NotThisType
            → HasNone (labelled_kind (labelled_types self.now.resolve.now) kind.now) (view json.now) }
    {
        match kind {
            TypeDefKind::Use(target) => self.read_value(ValType::Id(*target), json),
            TypeDefKind::Alias(ty) => self.read_value(*ty, json),
            TypeDefKind::List(element) => {
                let Some(items) = json.as_array() else {
                    return Err(JsonError::NotThisType);
                };
                match self.read_items(*element, items.as_slice()) {
                    Ok(values) => Ok(Val::List(values)),
                    Err(error) => Err(error),
                }
            }
            TypeDefKind::Option(ty) => {
                match self.read_case(place, 0, "none", None, json) {
                    Err(JsonError::NotThisType) => {
                        self.read_case(place, 1, "some", Some(*ty), json)
                    }
                    other => other,
                }
            }
            TypeDefKind::Result(ok, error) => {
                match self.read_case(place, 0, "ok", *ok, json) {
                    Err(JsonError::NotThisType) => {
                        self.read_case(place, 1, "error", *error, json)
                    }
                    other => other,
                }
            }
            TypeDefKind::Tuple(types) => {
                let Some(items) = json.as_array() else {
                    return Err(JsonError::NotThisType);
                };
                let place = place as usize;
                match self.read_members(place, types.as_slice(), items.as_slice()) {
                    Ok(values) => Ok(Val::Record(values)),
                    Err(error) => Err(error),
                }
            }
            TypeDefKind::Record(fields) => {
                match self.read_fields(place, fields.as_slice(), json) {
                    Ok(values) => Ok(Val::Record(values)),
                    Err(error) => Err(error),
                }
            }
            TypeDefKind::Variant(cases) => self.read_cases(place, cases.as_slice(), json),
            TypeDefKind::Enum(labels) => read_label(labels.as_slice(), json),
            TypeDefKind::Flags(labels) => read_flags(labels.as_slice(), json),
        }
    }

    /// The values, each of one type.
    #[cycle(reading)]
    fn read_items(&self, element: ValType, items: &[Json]) -> Result<Vec<Val>, JsonError>
        requires inside { IsTypeOf self.now.resolve.now element }
        requires labels { HasApartLabels self.now.resolve.now }
        ensures ok { IfOk result (λ vs. EachJson (StandsAs (labelled_type self.now.resolve.now element))
            (map value_of vs.items) (map view items.now)) }
        ensures other { IsErrOf result JsonError.NotThisType
            → (vs : List Value) → EachJson (StandsAs (labelled_type self.now.resolve.now element)) vs
            (map view items.now) → ⊥ }
    {
        let mut values = Vec::new(self.alloc);
        for (i, item) in items.iter().enumerate() {
            match self.read_value(element, item) {
                Ok(value) => values.push(value)?,
                Err(error) => return Err(error),
            }
        }
        Ok(values)
    }

    /// The values, each of its member's type.
    #[cycle(reading)]
    fn read_members(
        &self,
        _place: usize,
        types: &[ValType],
        items: &[Json],
    ) -> Result<Vec<Val>, JsonError>
        requires below { IsTrue (list_all (is_below _place) types.now) }
        requires typed { IsTrue (list_all (is_type self.now.resolve.now.definitions) types.now) }
        requires labels { HasApartLabels self.now.resolve.now }
        ensures ok { IfOk result (λ vs. MembersJson (labelled_members (labelled_types self.now.resolve.now) types.now)
            (map value_of vs.items) (map view items.now)) }
        ensures other { IsErrOf result JsonError.NotThisType
            → (vs : List Value) → MembersJson (labelled_members (labelled_types self.now.resolve.now) types.now) vs
            (map view items.now) → ⊥ }
    {
        if items.len() != types.len() {
            return Err(JsonError::NotThisType);
        }
        let mut values = Vec::new(self.alloc);
        for (i, item) in items.iter().enumerate() {
            match self.read_value(types[i], item) {
                Ok(value) => values.push(value)?,
                Err(error) => return Err(error),
            }
        }
        Ok(values)
    }

    /// The values, each of the member of its field's label.
    #[cycle(reading)]
    fn read_fields(&self, _place: u32, fields: &[Field], json: &Json) -> Result<Vec<Val>, JsonError>
        requires below { IsTrue (list_all (λ f. is_below _place f.ty) fields.now) }
        requires typed { IsTrue (list_all (λ f. is_type self.now.resolve.now.definitions f.ty) fields.now) }
        requires labels { HasApartLabels self.now.resolve.now }
        requires apart { HaveLabelsApart fields.now }
        ensures ok { IfOk result (λ vs. HasFields (labelled_fields (labelled_types self.now.resolve.now) fields.now)
            (map value_of vs.items) (view json.now)) }
        ensures other { IsErrOf result JsonError.NotThisType
            → (vs : List Value) → HasFields (labelled_fields (labelled_types self.now.resolve.now) fields.now) vs
            (view json.now) → ⊥ }
    {
        let Some(object) = json.as_object() else {
            return Err(JsonError::NotThisType);
        };
        if object.len() != fields.len() {
            return Err(JsonError::NotThisType);
        }
        let mut values = Vec::new(self.alloc);
        for (i, field) in fields.iter().enumerate() {
            let Some(member) = json.get(field.name.as_str()) else {
                return Err(JsonError::NotThisType);
            };
            match self.read_value(field.ty, member) {
                Ok(value) => values.push(value)?,
                Err(error) => return Err(error),
            }
        }
        Ok(values)
    }

    /// The value of a case of this label and payload.
    #[cycle(reading)]
    fn read_case(
        &self,
        _place: u32,
        case: u32,
        label: &str,
        payload: Option<ValType>,
        json: &Json,
    ) -> Result<Val, JsonError>
        requires below { IsTrue (option_all (is_below _place) payload) }
        requires typed { IsTrue (option_all (is_type self.now.resolve.now.definitions) payload) }
        requires labels { HasApartLabels self.now.resolve.now }
        ensures ok { IfOk result (λ v. PayloadJson (labelled_payload (labelled_types self.now.resolve.now) payload)
            label.now case (value_of v) (view json.now)) }
        ensures other { IsErrOf result JsonError.NotThisType
            → (v : Value) → PayloadJson (labelled_payload (labelled_types self.now.resolve.now) payload) label.now case
            v (view json.now) → ⊥ }
    {
        match payload {
            None => {
                if is_text(json, label) {
                    Ok(Val::Variant(case, None))
                } else {
                    Err(JsonError::NotThisType)
                }
            }
            Some(ty) => match only_member(json, label) {
                Some(member) => match self.read_value(ty, member) {
                    Ok(value) => Ok(Val::Variant(case, Some(Box::new(self.alloc, value)?))),
                    Err(error) => Err(error),
                },
                None => Err(JsonError::NotThisType),
            },
        }
    }

    /// The value of one of these cases.
    #[cycle(reading)]
    fn read_cases(&self, place: u32, cases: &[Case], json: &Json) -> Result<Val, JsonError>
        requires below { IsTrue (list_all (λ c. option_all (is_below place) c.ty) cases.now) }
        requires typed { IsTrue (list_all (λ c. option_all (is_type self.now.resolve.now.definitions) c.ty) cases.now) }
        requires labels { HasApartLabels self.now.resolve.now }
        requires few { length cases.now ≤ 100000 }
        ensures ok { IfOk result (λ v. CasesJson (labelled_cases (labelled_types self.now.resolve.now) cases.now) 0
            (value_of v) (view json.now)) }
        ensures other { IsErrOf result JsonError.NotThisType
            → (v : Value) → CasesJson (labelled_cases (labelled_types self.now.resolve.now) cases.now) 0 v
            (view json.now) → ⊥ }
    {
        for (i, case) in cases.iter().enumerate() {
            match self.read_case(place, i as u32, case.name.as_str(), case.ty, json) {
                Ok(value) => return Ok(value),
                Err(JsonError::NotThisType) => {}
                Err(JsonError::NoMemory) => return Err(JsonError::NoMemory),
            }
        }
        Err(JsonError::NotThisType)
    }
}

/// The case of this label.
fn read_label(labels: &[Label], json: &Json) -> Result<Val, JsonError>
    requires few { length labels.now ≤ 100000 }
    ensures ok { IfOk result (λ v. StandsAs (labelled_enum labels.now) (value_of v) (view json.now)) }
    ensures other { IsErrOf result JsonError.NotThisType → HasNone (labelled_enum labels.now) (view json.now) }
{
    for (i, label) in labels.iter().enumerate() {
        if is_text(json, label.as_str()) {
            return Ok(Val::Variant(i as u32, None));
        }
    }
    Err(JsonError::NotThisType)
}

/// The flags whose labels stand in an array, in their order.
fn read_flags(labels: &[Label], json: &Json) -> Result<Val, JsonError>
    requires few { length labels.now ≤ 32 }
    ensures ok { IfOk result (λ v. StandsAs (labelled_flags labels.now) (value_of v) (view json.now)) }
    ensures other { IsErrOf result JsonError.NotThisType → HasNone (labelled_flags labels.now) (view json.now) }
{
    let Some(items) = json.as_array() else {
        return Err(JsonError::NotThisType);
    };
    match read_bits(labels, items.as_slice()) {
        Some(bits) => Ok(Val::Flags(bits)),
        None => Err(JsonError::NotThisType),
    }
}

/// The bits of the labels that stand here: the first label's bit is the lowest.
fn read_bits(labels: &[Label], items: &[Json]) -> Option<u32>
    requires few { length labels.now ≤ 32 }
    ensures some { IfSome result (λ n. FlagsJson labels.now n (map view items.now)) }
    ensures small { IfSome result (λ n. n < 2 ^ length labels.now) }
    ensures none { IfNone result ((n : ℕ) → FlagsJson labels.now n (map view items.now) → ⊥) }
{
    let [label, others @ ..] = labels else {
        if items.is_empty() {
            return Some(0);
        }
        return None;
    };
    if let [item, behind @ ..] = items {
        if is_text(item, label.as_str()) {
            return match read_bits(others, behind) {
                Some(rest) => Some(2 * rest + 1),
                None => None,
            };
        }
    }
    match read_bits(others, items) {
        Some(rest) => Some(2 * rest),
        None => None,
    }
}
