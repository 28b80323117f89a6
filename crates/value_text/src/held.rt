//! Values that stand in a memory, as texts of JSON.
ghost use Rattle.std.specs.Prelude.{◌≡◌, ◌+◌, ◌*◌, ◌<◌, ◌≤◌, ◌^◌, ◌++◌, ℕ, List, Some, length, map, slice_get, IsTrue};
ghost use Rattle.std.specs.List.{list_all};
ghost use Rattle.canonical_abi.specs.Labelled.{closed, labelled_enum, labelled_flags, labelled_list, labelled_prim};
ghost use Rattle.canonical_abi.specs.Labelled.{labelled_record, labelled_string, labelled_tuple, labelled_variant};
ghost use Rattle.canonical_abi.specs.Labelled.{labelled_option, labelled_result};
ghost use Rattle.canonical_abi.specs.Layout.{discriminant_size, field_places, size};
ghost use Rattle.canonical_abi.specs.Memory.{EachHolds, Holds};
ghost use Rattle.canonical_abi.specs.Reading.{byte_width, number_at};
ghost use Rattle.canonical_abi.specs.Types.{field_count, prim_type, record_fields};
ghost use Rattle.canonical_abi.specs.Values.{Value};
ghost use Rattle.serde_json.specs.Data.{array};
ghost use Rattle.serde_json.specs.View.{items_of};
ghost use Rattle.serde_json.specs.Written.{compact_text};
ghost use Rattle.tables.specs.Closed.{closed_type, prim_of};
ghost use Rattle.tables.specs.Labelled.{labelled_cases, labelled_fields, labelled_kind, labelled_members};
ghost use Rattle.tables.specs.Labelled.{labelled_payload, labelled_type, labelled_types, labelled_val};
ghost use Rattle.tables.specs.Standard.{IsTypeOf};
ghost use Rattle.tables.specs.Tables.{is_below, is_type, is_type_id, kind_all, option_all};
ghost use Rattle.value_json.specs.Json.{one_member};
ghost use Rattle.value_json.specs.Apart.{HasApartLabels, HaveLabelsApart, KindApart};
ghost use Rattle.value_text.specs.Function.{json_of, payload_json};
ghost use Rattle.value_text.specs.Held.{IsHeld, PayloadFits, PayloadHolds, PutsHeld};
ghost use Rattle.value_text.specs.Orders.{AreOrders, IsKindOf};
ghost use Rattle.value_text.specs.Puts.{PutsWithin};
ghost use Rattle.value_text.specs.Texts.{comma_at, key_at};

use crate::puts::{TooLong, put, put_bytes, put_comma, put_flags, put_key, put_quoted};
use crate::rows::{kind_of, order_of};
use crate::scalars::put_scalar;
use atoms::Label;
use lift_lower::Types;
use lift_lower::nodes::{
    discriminant_bytes, flags_bytes, low_flags, number_of_size, scalar_at, u32_at,
};
use tables::{Case, Field, Primitive, TypeDefKind, TypeId, ValType};

/// Writes values that a memory holds, up to a length.
#[derive(Clone, Copy)]
pub struct Held<'a> {
    pub types: &'a Types<'a>,
    /// For each row of the table that is a record the indexes of its fields, in the order of their labels' bytes.
    pub orders: &'a [Vec<usize>],
    pub memory: &'a [u8],
    /// The most bytes that there may be in the text.
    pub limit: usize,
}

impl Held<'_> {
    /// Puts the text of the value that the memory holds at an address behind `at` bytes of the array, as far as there
    /// is room, and answers how many bytes there are then. What the memory holds was tested before.
    #[cycle(held)]
    pub fn write_at(
        &self,
        ty: ValType,
        from: usize,
        room: &mut [u8],
        at: usize,
    ) -> Result<usize, TooLong>
        requires inside { IsTypeOf self.now.types.now ty }
        requires labels { HasApartLabels self.now.types.now }
        requires ordered { AreOrders self.now.types.now.definitions self.now.orders.now }
        requires short { length self.now.memory.now < 2 ^ 32 }
        requires fits { from + size (closed (labelled_type self.now.types.now ty)) ≤ length self.now.memory.now }
        requires holds { IsHeld (labelled_type self.now.types.now ty) self.now.memory.now from }
        requires few { at ≤ self.now.limit }
        ensures { PutsHeld self.now.limit (labelled_type self.now.types.now ty) self.now.memory.now from
            room.old at result room.new }
    {
        match ty {
            ValType::Primitive(primitive) => self.write_scalar(primitive, from, room, at),
            ValType::String => self.write_text(from, room, at),
            ValType::Id(id) => {
                let kind = kind_of(self.types.resolve(), id);
                self.write_kind(id, kind, from, room, at)
            }
        }
    }

    /// Puts the text of a scalar.
    fn write_scalar(
        &self,
        primitive: Primitive,
        from: usize,
        room: &mut [u8],
        at: usize,
    ) -> Result<usize, TooLong>
        requires fits { from + size (prim_type (prim_of primitive)) ≤ length self.now.memory.now }
        requires holds { IsHeld (labelled_prim (prim_of primitive)) self.now.memory.now from }
        requires few { at ≤ self.now.limit }
        ensures { PutsHeld self.now.limit (labelled_prim (prim_of primitive)) self.now.memory.now from
            room.old at result room.new }
    {
        let Ok(scalar) = scalar_at(primitive, self.memory, from) else {
            unreachable!()
        };
        put_scalar(self.limit, room, at, scalar)
    }

    /// Puts the text of a string.
    fn write_text(&self, from: usize, room: &mut [u8], at: usize) -> Result<usize, TooLong>
        requires fits { from + 8 ≤ length self.now.memory.now }
        requires holds { IsHeld labelled_string self.now.memory.now from }
        requires few { at ≤ self.now.limit }
        ensures { PutsHeld self.now.limit labelled_string self.now.memory.now from room.old at result room.new }
    {
        let start = u32_at(self.memory, from) as usize;
        let len = u32_at(self.memory, from + 4) as usize;
        put_bytes(self.limit, room, at, &self.memory[start..start + len])
    }

    /// Puts the text of a value of what stands at a place of the table.
    #[cycle(held)]
    fn write_kind(
        &self,
        id: TypeId,
        kind: &TypeDefKind,
        from: usize,
        room: &mut [u8],
        at: usize,
    ) -> Result<usize, TooLong>
        requires inside { IsTypeOf self.now.types.now (ValType.Id id) }
        requires is { labelled_type self.now.types.now (ValType.Id id)
            ≡ labelled_kind (labelled_types self.now.types.now) kind.now }
        requires below { IsTrue (kind_all (is_below id.0) kind.now) }
        requires types { IsTrue (kind_all (is_type self.now.types.now.definitions) kind.now) }
        requires apart { KindApart kind.now }
        requires stands { IsKindOf self.now.types.now.definitions id.0 kind.now }
        requires labels { HasApartLabels self.now.types.now }
        requires ordered { AreOrders self.now.types.now.definitions self.now.orders.now }
        requires short { length self.now.memory.now < 2 ^ 32 }
        requires fits { from + size (closed (labelled_kind (labelled_types self.now.types.now) kind.now))
            ≤ length self.now.memory.now }
        requires holds { IsHeld (labelled_kind (labelled_types self.now.types.now) kind.now) self.now.memory.now from }
        requires few { at ≤ self.now.limit }
        ensures { PutsHeld self.now.limit (labelled_kind (labelled_types self.now.types.now) kind.now)
            self.now.memory.now from room.old at result room.new }
    {
        match kind {
            TypeDefKind::Use(target) => self.write_at(ValType::Id(*target), from, room, at),
            TypeDefKind::Alias(ty) => self.write_at(*ty, from, room, at),
            TypeDefKind::List(element) => self.write_list(*element, from, room, at),
            TypeDefKind::Record(fields) => self.write_record(id, fields.as_slice(), from, room, at),
            TypeDefKind::Variant(cases) => self.write_variant(id, cases.as_slice(), from, room, at),
            TypeDefKind::Option(ty) => self.write_option(id, *ty, from, room, at),
            TypeDefKind::Result(ok, error) => {
                self.write_result(id, *ok, *error, from, room, at)
            },
            TypeDefKind::Tuple(types) => self.write_tuple(id, types.as_slice(), from, room, at),
            TypeDefKind::Enum(labels) => self.write_enum(labels.as_slice(), from, room, at),
            TypeDefKind::Flags(labels) => self.write_flags(labels.as_slice(), from, room, at),
        }
    }

    /// Puts the text of an item of an array, behind a comma but for the first item.
    #[cycle(held)]
    pub(crate) fn write_item(
        &self,
        ty: ValType,
        from: usize,
        index: usize,
        room: &mut [u8],
        at: usize,
    ) -> Result<usize, TooLong>
        requires inside { IsTypeOf self.now.types.now ty }
        requires labels { HasApartLabels self.now.types.now }
        requires ordered { AreOrders self.now.types.now.definitions self.now.orders.now }
        requires short { length self.now.memory.now < 2 ^ 32 }
        requires fits { from + size (closed (labelled_type self.now.types.now ty)) ≤ length self.now.memory.now }
        requires holds { IsHeld (labelled_type self.now.types.now ty) self.now.memory.now from }
        requires few { at ≤ self.now.limit }
        ensures { let t = labelled_type self.now.types.now ty in
            (v : Value) → Holds (closed t) self.now.memory.now from v
            → PutsWithin self.now.limit (comma_at index ++ compact_text (json_of t v)) room.old at result room.new }
    {
        let begun = put_comma(self.limit, room, at, index)?;
        self.write_at(ty, from, room, begun)
    }

    /// Puts the text of a list.
    #[cycle(held)]
    fn write_list(
        &self,
        element: ValType,
        from: usize,
        room: &mut [u8],
        at: usize,
    ) -> Result<usize, TooLong>
        requires inside { IsTypeOf self.now.types.now element }
        requires labels { HasApartLabels self.now.types.now }
        requires ordered { AreOrders self.now.types.now.definitions self.now.orders.now }
        requires short { length self.now.memory.now < 2 ^ 32 }
        requires fits { from + 8 ≤ length self.now.memory.now }
        requires holds { IsHeld (labelled_list (labelled_type self.now.types.now element)) self.now.memory.now from }
        requires few { at ≤ self.now.limit }
        ensures { PutsHeld self.now.limit (labelled_list (labelled_type self.now.types.now element))
            self.now.memory.now from room.old at result room.new }
    {
        let start = u32_at(self.memory, from) as usize;
        let count = u32_at(self.memory, from + 4) as usize;
        self.write_elements(element, start, count, room, at)
    }

    /// Puts the text of an array of so many elements, which stand one after another.
    #[cycle(held)]
    pub(crate) fn write_elements(
        &self,
        element: ValType,
        start: usize,
        count: usize,
        room: &mut [u8],
        at: usize,
    ) -> Result<usize, TooLong>
        requires inside { IsTypeOf self.now.types.now element }
        requires labels { HasApartLabels self.now.types.now }
        requires ordered { AreOrders self.now.types.now.definitions self.now.orders.now }
        requires short { length self.now.memory.now < 2 ^ 32 }
        requires fits { start + count * size (closed (labelled_type self.now.types.now element))
            ≤ length self.now.memory.now }
        requires holds { let t = closed (labelled_type self.now.types.now element) in
            (vs : List Value) × EachHolds (Holds t self.now.memory.now) (size t) start count vs }
        requires few { at ≤ self.now.limit }
        ensures { let t = labelled_type self.now.types.now element in
            (vs : List Value) → EachHolds (Holds (closed t) self.now.memory.now) (size (closed t)) start count vs
            → PutsWithin self.now.limit (compact_text (array (items_of (map (json_of t) vs)))) room.old at
            result room.new }
    {
        let step = self.types.size_of(element);
        let mut end = put(self.limit, room, at, b"[")?;
        for index in 0..count {
            end = self.write_item(element, start + index * step, index, room, end)?;
        }
        put(self.limit, room, end, b"]")
    }

    /// The place of a field of a record or a tuple, in bytes.
    fn place_of(&self, id: TypeId, index: usize) -> usize
        requires inside { IsTypeOf self.now.types.now (ValType.Id id) }
        requires field { index < field_count (record_fields (closed_type self.now.types.now (ValType.Id id))) }
        ensures { slice_get (field_places (record_fields (closed_type self.now.types.now (ValType.Id id)))) index
            ≡ Some result }
    {
        match self.types.layouts().field_offset(ValType::Id(id), index) {
            Some(offset) => offset as usize,
            None => unreachable!(),
        }
    }

    /// Puts the text of a tuple.
    #[cycle(held)]
    fn write_tuple(
        &self,
        id: TypeId,
        types: &[ValType],
        from: usize,
        room: &mut [u8],
        at: usize,
    ) -> Result<usize, TooLong>
        requires itself { IsTypeOf self.now.types.now (ValType.Id id) }
        requires is { labelled_type self.now.types.now (ValType.Id id)
            ≡ labelled_tuple (labelled_members (labelled_types self.now.types.now) types.now) }
        requires below { IsTrue (list_all (is_below id.0) types.now) }
        requires types { IsTrue (list_all (is_type self.now.types.now.definitions) types.now) }
        requires labels { HasApartLabels self.now.types.now }
        requires ordered { AreOrders self.now.types.now.definitions self.now.orders.now }
        requires short { length self.now.memory.now < 2 ^ 32 }
        requires fits { from
            + size (closed (labelled_tuple (labelled_members (labelled_types self.now.types.now) types.now)))
            ≤ length self.now.memory.now }
        requires holds { IsHeld (labelled_tuple (labelled_members (labelled_types self.now.types.now) types.now))
            self.now.memory.now from }
        requires few { at ≤ self.now.limit }
        ensures { PutsHeld self.now.limit
            (labelled_tuple (labelled_members (labelled_types self.now.types.now) types.now)) self.now.memory.now from
            room.old at result room.new }
    {
        let mut end = put(self.limit, room, at, b"[")?;
        for (index, ty) in types.iter().enumerate() {
            let place = from + self.place_of(id, index);
            end = self.write_item(*ty, place, index, room, end)?;
        }
        put(self.limit, room, end, b"]")
    }

    /// Puts the key of a field and the text of its value, behind a comma but for the first field.
    #[cycle(held)]
    fn write_field(
        &self,
        field: &Field,
        from: usize,
        index: usize,
        room: &mut [u8],
        at: usize,
    ) -> Result<usize, TooLong>
        requires inside { IsTypeOf self.now.types.now field.now.ty }
        requires labels { HasApartLabels self.now.types.now }
        requires ordered { AreOrders self.now.types.now.definitions self.now.orders.now }
        requires short { length self.now.memory.now < 2 ^ 32 }
        requires fits { from + size (closed (labelled_type self.now.types.now field.now.ty))
            ≤ length self.now.memory.now }
        requires holds { IsHeld (labelled_type self.now.types.now field.now.ty) self.now.memory.now from }
        requires few { at ≤ self.now.limit }
        ensures { let t = labelled_type self.now.types.now field.now.ty in
            (v : Value) → Holds (closed t) self.now.memory.now from v
            → PutsWithin self.now.limit (key_at index field.now.name ++ compact_text (json_of t v)) room.old at
            result room.new }
    {
        let named = put_key(self.limit, room, at, index, field.name.as_str())?;
        self.write_at(field.ty, from, room, named)
    }

    /// Puts the text of a record, with its fields in the order of their labels' bytes.
    #[cycle(held)]
    fn write_record(
        &self,
        id: TypeId,
        fields: &[Field],
        from: usize,
        room: &mut [u8],
        at: usize,
    ) -> Result<usize, TooLong>
        requires itself { IsTypeOf self.now.types.now (ValType.Id id) }
        requires is { labelled_type self.now.types.now (ValType.Id id)
            ≡ labelled_record (labelled_fields (labelled_types self.now.types.now) fields.now) }
        requires below { IsTrue (list_all (λ f. is_below id.0 f.ty) fields.now) }
        requires types { IsTrue (list_all (λ f. is_type self.now.types.now.definitions f.ty) fields.now) }
        requires apart { HaveLabelsApart fields.now }
        requires stands { IsKindOf self.now.types.now.definitions id.0 (TypeDefKind.Record fields.now) }
        requires labels { HasApartLabels self.now.types.now }
        requires ordered { AreOrders self.now.types.now.definitions self.now.orders.now }
        requires short { length self.now.memory.now < 2 ^ 32 }
        requires fits { from
            + size (closed (labelled_record (labelled_fields (labelled_types self.now.types.now) fields.now)))
            ≤ length self.now.memory.now }
        requires holds { IsHeld (labelled_record (labelled_fields (labelled_types self.now.types.now) fields.now))
            self.now.memory.now from }
        requires few { at ≤ self.now.limit }
        ensures { PutsHeld self.now.limit
            (labelled_record (labelled_fields (labelled_types self.now.types.now) fields.now)) self.now.memory.now from
            room.old at result room.new }
    {
        let order = order_of(self.types.resolve(), self.orders, id, fields);
        let mut end = put(self.limit, room, at, b"{")?;
        for (index, i) in order.iter().enumerate() {
            let place = from + self.place_of(id, *i);
            end = self.write_field(&fields[*i], place, index, room, end)?;
        }
        put(self.limit, room, end, b"}")
    }

    /// Puts an object of one member: the label of a case, with the text of the payload that stands at an address.
    #[cycle(held)]
    fn write_payload(
        &self,
        ty: ValType,
        label: &str,
        from: usize,
        room: &mut [u8],
        at: usize,
    ) -> Result<usize, TooLong>
        requires inside { IsTypeOf self.now.types.now ty }
        requires labels { HasApartLabels self.now.types.now }
        requires ordered { AreOrders self.now.types.now.definitions self.now.orders.now }
        requires short { length self.now.memory.now < 2 ^ 32 }
        requires fits { from + size (closed (labelled_type self.now.types.now ty)) ≤ length self.now.memory.now }
        requires holds { IsHeld (labelled_type self.now.types.now ty) self.now.memory.now from }
        requires few { at ≤ self.now.limit }
        ensures { let t = labelled_type self.now.types.now ty in
            (v : Value) → Holds (closed t) self.now.memory.now from v
            → PutsWithin self.now.limit (compact_text (one_member label.now (json_of t v))) room.old at
            result room.new }
    {
        let open = put(self.limit, room, at, b"{")?;
        let named = put_key(self.limit, room, open, 0, label)?;
        let end = self.write_at(ty, from, room, named)?;
        put(self.limit, room, end, b"}")
    }

    /// Puts the text of a value of a case: its label alone, or an object where the case has a payload.
    #[cycle(held)]
    fn write_case(
        &self,
        payload: Option<ValType>,
        label: &str,
        from: usize,
        room: &mut [u8],
        at: usize,
    ) -> Result<usize, TooLong>
        requires inside { IsTrue (option_all (is_type self.now.types.now.definitions) payload) }
        requires labels { HasApartLabels self.now.types.now }
        requires ordered { AreOrders self.now.types.now.definitions self.now.orders.now }
        requires short { length self.now.memory.now < 2 ^ 32 }
        requires fits { PayloadFits (labelled_payload (labelled_types self.now.types.now) payload)
            self.now.memory.now from }
        requires holds { (i : ℕ) × (v : Value)
            × PayloadHolds (labelled_payload (labelled_types self.now.types.now) payload) self.now.memory.now from i v }
        requires few { at ≤ self.now.limit }
        ensures { let p = labelled_payload (labelled_types self.now.types.now) payload in
            (i : ℕ) (v : Value) → PayloadHolds p self.now.memory.now from i v
            → PutsWithin self.now.limit (compact_text (payload_json p label.now v)) room.old at result room.new }
    {
        match payload {
            Some(ty) => self.write_payload(ty, label, from, room, at),
            None => put_quoted(self.limit, room, at, label),
        }
    }

    /// The number of the case of a value that has so many.
    fn case_at(&self, cases: usize, from: usize) -> u32
        requires { from + discriminant_size cases ≤ length self.now.memory.now }
        ensures { result ≡ number_at self.now.memory.now from (byte_width (discriminant_size cases)) }
    {
        number_of_size(self.memory, from, discriminant_bytes(cases))
    }

    /// Puts the text of a value of a variant. A payload stands at the variant's alignment.
    #[cycle(held)]
    fn write_variant(
        &self,
        id: TypeId,
        cases: &[Case],
        from: usize,
        room: &mut [u8],
        at: usize,
    ) -> Result<usize, TooLong>
        requires itself { IsTypeOf self.now.types.now (ValType.Id id) }
        requires is { labelled_type self.now.types.now (ValType.Id id)
            ≡ labelled_variant (labelled_cases (labelled_types self.now.types.now) cases.now) }
        requires below { IsTrue (list_all (λ c. option_all (is_below id.0) c.ty) cases.now) }
        requires types { IsTrue (list_all (λ c. option_all (is_type self.now.types.now.definitions) c.ty)
            cases.now) }
        requires labels { HasApartLabels self.now.types.now }
        requires ordered { AreOrders self.now.types.now.definitions self.now.orders.now }
        requires short { length self.now.memory.now < 2 ^ 32 }
        requires fits { from
            + size (closed (labelled_variant (labelled_cases (labelled_types self.now.types.now) cases.now)))
            ≤ length self.now.memory.now }
        requires holds { IsHeld (labelled_variant (labelled_cases (labelled_types self.now.types.now) cases.now))
            self.now.memory.now from }
        requires few { at ≤ self.now.limit }
        ensures { PutsHeld self.now.limit
            (labelled_variant (labelled_cases (labelled_types self.now.types.now) cases.now)) self.now.memory.now from
            room.old at result room.new }
    {
        let case = &cases[self.case_at(cases.len(), from) as usize];
        let place = from + self.types.align_of(ValType::Id(id));
        self.write_case(case.ty, case.name.as_str(), place, room, at)
    }

    /// Puts the text of an option.
    #[cycle(held)]
    fn write_option(
        &self,
        id: TypeId,
        ty: ValType,
        from: usize,
        room: &mut [u8],
        at: usize,
    ) -> Result<usize, TooLong>
        requires itself { IsTypeOf self.now.types.now (ValType.Id id) }
        requires is { labelled_type self.now.types.now (ValType.Id id)
            ≡ labelled_option (labelled_type self.now.types.now ty) }
        requires below { IsTrue (is_below id.0 ty) }
        requires inside { IsTypeOf self.now.types.now ty }
        requires labels { HasApartLabels self.now.types.now }
        requires ordered { AreOrders self.now.types.now.definitions self.now.orders.now }
        requires short { length self.now.memory.now < 2 ^ 32 }
        requires fits { from + size (closed (labelled_option (labelled_type self.now.types.now ty)))
            ≤ length self.now.memory.now }
        requires holds { IsHeld (labelled_option (labelled_type self.now.types.now ty)) self.now.memory.now from }
        requires few { at ≤ self.now.limit }
        ensures { PutsHeld self.now.limit (labelled_option (labelled_type self.now.types.now ty))
            self.now.memory.now from room.old at result room.new }
    {
        if self.case_at(2, from) == 0 {
            return put_quoted(self.limit, room, at, "none");
        }
        let place = from + self.types.align_of(ValType::Id(id));
        self.write_payload(ty, "some", place, room, at)
    }

    /// Puts the text of a result, by the payloads of its two cases.
    #[cycle(held)]
    fn write_result(
        &self,
        id: TypeId,
        ok: Option<ValType>,
        error: Option<ValType>,
        from: usize,
        room: &mut [u8],
        at: usize,
    ) -> Result<usize, TooLong>
        requires itself { IsTypeOf self.now.types.now (ValType.Id id) }
        requires is { labelled_type self.now.types.now (ValType.Id id)
            ≡ labelled_result (labelled_payload (labelled_types self.now.types.now) ok)
            (labelled_payload (labelled_types self.now.types.now) error) }
        requires below { IsTrue (option_all (is_below id.0) ok) }
        requires below_too { IsTrue (option_all (is_below id.0) error) }
        requires types { IsTrue (option_all (is_type self.now.types.now.definitions) ok) }
        requires types_too { IsTrue (option_all (is_type self.now.types.now.definitions) error) }
        requires labels { HasApartLabels self.now.types.now }
        requires ordered { AreOrders self.now.types.now.definitions self.now.orders.now }
        requires short { length self.now.memory.now < 2 ^ 32 }
        requires fits { from + size (closed (labelled_type self.now.types.now (ValType.Id id)))
            ≤ length self.now.memory.now }
        requires holds { IsHeld (labelled_type self.now.types.now (ValType.Id id)) self.now.memory.now from }
        requires few { at ≤ self.now.limit }
        ensures { PutsHeld self.now.limit (labelled_type self.now.types.now (ValType.Id id)) self.now.memory.now from
            room.old at result room.new }
    {
        let place = from + self.types.align_of(ValType::Id(id));
        if self.case_at(2, from) == 0 {
            self.write_case(ok, "ok", place, room, at)
        } else {
            self.write_case(error, "error", place, room, at)
        }
    }

    /// Puts the text of a value of an enum.
    fn write_enum(
        &self,
        labels: &[Label],
        from: usize,
        room: &mut [u8],
        at: usize,
    ) -> Result<usize, TooLong>
        requires fits { from + size (closed (labelled_enum labels.now)) ≤ length self.now.memory.now }
        requires holds { IsHeld (labelled_enum labels.now) self.now.memory.now from }
        requires few { at ≤ self.now.limit }
        ensures { PutsHeld self.now.limit (labelled_enum labels.now) self.now.memory.now from room.old at
            result room.new }
    {
        let number = self.case_at(labels.len(), from) as usize;
        put_quoted(self.limit, room, at, labels[number].as_str())
    }

    /// Puts the text of flags.
    fn write_flags(
        &self,
        labels: &[Label],
        from: usize,
        room: &mut [u8],
        at: usize,
    ) -> Result<usize, TooLong>
        requires fits { from + size (closed (labelled_flags labels.now)) ≤ length self.now.memory.now }
        requires holds { IsHeld (labelled_flags labels.now) self.now.memory.now from }
        requires few { at ≤ self.now.limit }
        ensures { PutsHeld self.now.limit (labelled_flags labels.now) self.now.memory.now from room.old at
            result room.new }
    {
        let bits = number_of_size(self.memory, from, flags_bytes(labels.len()));
        put_flags(self.limit, room, at, labels, low_flags(bits, labels.len()))
    }
}
