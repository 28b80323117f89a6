//! Values that core values carry, as texts of JSON: CanonicalABI.md, "Flat Lifting". Their texts and lists stand in the
//! memory. No value is made.
ghost use Rattle.std.specs.Prelude.{◌≡◌, ◌++◌, ◌<◌, ◌≤◌, ◌^◌, length, map, IsTrue};
ghost use Rattle.std.specs.List.{list_all};
ghost use Rattle.canonical_abi.specs.Labelled.{closed, closed_members, closed_fields, labelled_prim, labelled_string};
ghost use Rattle.canonical_abi.specs.Labelled.{labelled_list};
ghost use Rattle.canonical_abi.specs.Layout.{flat_kinds, field_kinds};
ghost use Rattle.canonical_abi.specs.Reading.{number_of};
ghost use Rattle.canonical_abi.specs.Flat.{Lifts};
ghost use Rattle.canonical_abi.specs.Values.{Value};
ghost use Rattle.serde_json.specs.Written.{compact_text};
ghost use Rattle.tables.specs.Closed.{prim_of};
ghost use Rattle.tables.specs.Labelled.{labelled_fields, labelled_kind, labelled_members};
ghost use Rattle.tables.specs.Labelled.{labelled_type, labelled_types};
ghost use Rattle.tables.specs.Standard.{IsTypeOf};
ghost use Rattle.tables.specs.Tables.{is_below, is_type, kind_all};
ghost use Rattle.value_json.specs.Apart.{HasApartLabels, HaveLabelsApart};
ghost use Rattle.value_text.specs.Cases.{HasCases};
ghost use Rattle.value_text.specs.Flats.{IsCarried, AreCarried, FieldsAreCarried};
ghost use Rattle.value_text.specs.Flats.{flats_before, PutsCarried, PutsAllCarried, PutsFieldsCarried};
ghost use Rattle.value_text.specs.Function.{json_of};
ghost use Rattle.value_text.specs.Puts.{PutsWithin};
ghost use Rattle.value_text.specs.Texts.{comma_at, key_at};
ghost use Rattle.value_text.specs.Orders.{AreOrders, IsLabelOrder};

use crate::cases::named_case;
use crate::held::Held;
use crate::puts::{TooLong, put, put_bytes, put_comma, put_flags, put_key, put_quoted};
use crate::rows::{kind_of, order_of};
use crate::scalars::put_scalar;
use canonical_abi::Flat;
use lift_lower::low_word;
use lift_lower::nodes::{flags_in, scalar_in};
use tables::{Field, Primitive, TypeDefKind, ValType};

impl Held<'_> {
    /// Puts the text of the value that the first of these core values carry behind `at` bytes, and answers how many
    /// bytes there are then.
    #[cycle(flat)]
    pub(crate) fn write_flat(
        &self,
        ty: ValType,
        flats: &[Flat],
        room: &mut [u8],
        at: usize,
    ) -> Result<usize, TooLong>
        requires inside { IsTypeOf self.now.types.now ty }
        requires labels { HasApartLabels self.now.types.now }
        requires ordered { AreOrders self.now.types.now.definitions self.now.orders.now }
        requires short { length self.now.memory.now < 2 ^ 32 }
        requires flat { length (flat_kinds (closed (labelled_type self.now.types.now ty))) ≤ length flats.now }
        requires few_flats { length flats.now ≤ 16 }
        requires carried { IsCarried (labelled_type self.now.types.now ty) self.now.memory.now
            (map number_of flats.now) }
        requires few { at ≤ self.now.limit }
        ensures { PutsCarried self.now.limit (labelled_type self.now.types.now ty) self.now.memory.now
            (map number_of flats.now) room.old at result room.new }
    {
        let id = match ty {
            ValType::Primitive(primitive) => {
                return self.write_flat_scalar(primitive, flats, room, at);
            }
            ValType::String => return self.write_flat_text(flats, room, at),
            ValType::Id(id) => id,
        };
        let kind = kind_of(self.types.resolve(), id);
        match kind {
            TypeDefKind::Use(target) => self.write_flat(ValType::Id(*target), flats, room, at),
            TypeDefKind::Alias(same) => self.write_flat(*same, flats, room, at),
            TypeDefKind::List(element) => self.write_flat_list(*element, flats, room, at),
            TypeDefKind::Record(fields) => {
                let fields = fields.as_slice();
                let order = order_of(self.types.resolve(), self.orders, id, fields);
                self.write_flat_fields(id.0, fields, order, flats, room, at)
            }
            TypeDefKind::Tuple(types) => self.write_flat_members(types.as_slice(), flats, room, at),
            TypeDefKind::Flags(labels) => {
                let bits = flags_in(flats, labels.as_slice().len());
                put_flags(self.limit, room, at, labels.as_slice(), bits)
            }
            TypeDefKind::Variant(_)
            | TypeDefKind::Option(_)
            | TypeDefKind::Result(_, _)
            | TypeDefKind::Enum(_) => self.write_flat_case(id.0, kind, flats, room, at),
        }
    }

    /// Puts the text of a scalar.
    fn write_flat_scalar(
        &self,
        primitive: Primitive,
        flats: &[Flat],
        room: &mut [u8],
        at: usize,
    ) -> Result<usize, TooLong>
        requires some { 0 < length flats.now }
        requires carried { IsCarried (labelled_prim (prim_of primitive)) self.now.memory.now (map number_of flats.now) }
        requires few { at ≤ self.now.limit }
        ensures { PutsCarried self.now.limit (labelled_prim (prim_of primitive)) self.now.memory.now
            (map number_of flats.now) room.old at result room.new }
    {
        let Ok(scalar) = scalar_in(primitive, flats) else {
            unreachable!()
        };
        put_scalar(self.limit, room, at, scalar)
    }

    /// Puts the text of a string.
    fn write_flat_text(&self, flats: &[Flat], room: &mut [u8], at: usize) -> Result<usize, TooLong>
        requires some { 1 < length flats.now }
        requires carried { IsCarried labelled_string self.now.memory.now (map number_of flats.now) }
        requires few { at ≤ self.now.limit }
        ensures { PutsCarried self.now.limit labelled_string self.now.memory.now (map number_of flats.now)
            room.old at result room.new }
    {
        let start = low_word(flats, 0) as usize;
        let len = low_word(flats, 1) as usize;
        put_bytes(self.limit, room, at, &self.memory[start..start + len])
    }

    /// Puts the text of a list.
    fn write_flat_list(
        &self,
        element: ValType,
        flats: &[Flat],
        room: &mut [u8],
        at: usize,
    ) -> Result<usize, TooLong>
        requires inside { IsTypeOf self.now.types.now element }
        requires labels { HasApartLabels self.now.types.now }
        requires ordered { AreOrders self.now.types.now.definitions self.now.orders.now }
        requires short { length self.now.memory.now < 2 ^ 32 }
        requires some { 1 < length flats.now }
        requires carried { IsCarried (labelled_list (labelled_type self.now.types.now element)) self.now.memory.now
            (map number_of flats.now) }
        requires few { at ≤ self.now.limit }
        ensures { PutsCarried self.now.limit (labelled_list (labelled_type self.now.types.now element))
            self.now.memory.now (map number_of flats.now) room.old at result room.new }
    {
        let start = low_word(flats, 0) as usize;
        let count = low_word(flats, 1) as usize;
        self.write_elements(element, start, count, room, at)
    }

    /// Puts the text of an item of an array, behind a comma but for the first item.
    #[cycle(flat)]
    fn write_flat_item(
        &self,
        ty: ValType,
        flats: &[Flat],
        index: usize,
        room: &mut [u8],
        at: usize,
    ) -> Result<usize, TooLong>
        requires inside { IsTypeOf self.now.types.now ty }
        requires labels { HasApartLabels self.now.types.now }
        requires ordered { AreOrders self.now.types.now.definitions self.now.orders.now }
        requires short { length self.now.memory.now < 2 ^ 32 }
        requires flat { length (flat_kinds (closed (labelled_type self.now.types.now ty))) ≤ length flats.now }
        requires few_flats { length flats.now ≤ 16 }
        requires carried { IsCarried (labelled_type self.now.types.now ty) self.now.memory.now
            (map number_of flats.now) }
        requires few { at ≤ self.now.limit }
        ensures { let t = labelled_type self.now.types.now ty in
            (v : Value) → Lifts (closed t) self.now.memory.now (map number_of flats.now) v
            → PutsWithin self.now.limit (comma_at index ++ compact_text (json_of t v)) room.old at result room.new }
    {
        let begun = put_comma(self.limit, room, at, index)?;
        self.write_flat(ty, flats, room, begun)
    }

    /// Puts the text of an array of values, each of its type, behind one another in the core values.
    #[cycle(flat)]
    pub(crate) fn write_flat_members(
        &self,
        types: &[ValType],
        flats: &[Flat],
        room: &mut [u8],
        at: usize,
    ) -> Result<usize, TooLong>
        requires types { IsTrue (list_all (is_type self.now.types.now.definitions) types.now) }
        requires labels { HasApartLabels self.now.types.now }
        requires ordered { AreOrders self.now.types.now.definitions self.now.orders.now }
        requires short { length self.now.memory.now < 2 ^ 32 }
        requires flat { length (field_kinds (closed_members (labelled_members (labelled_types self.now.types.now)
            types.now))) ≤ length flats.now }
        requires few_flats { length flats.now ≤ 16 }
        requires carried { AreCarried (labelled_members (labelled_types self.now.types.now) types.now)
            self.now.memory.now (map number_of flats.now) }
        requires few { at ≤ self.now.limit }
        ensures { PutsAllCarried self.now.limit (labelled_members (labelled_types self.now.types.now) types.now)
            self.now.memory.now (map number_of flats.now) room.old at result room.new }
    {
        let mut used: usize = 0;
        let mut end = put(self.limit, room, at, b"[")?;
        for index in 0..types.len() {
            end = self.write_flat_item(types[index], &flats[used..], index, room, end)?;
            used += self.types.kind_count(types[index]);
        }
        put(self.limit, room, end, b"]")
    }

    /// Puts the key of a field and the text of its value, behind a comma but for the first field.
    #[cycle(flat)]
    fn write_flat_field(
        &self,
        field: &Field,
        flats: &[Flat],
        index: usize,
        room: &mut [u8],
        at: usize,
    ) -> Result<usize, TooLong>
        requires inside { IsTypeOf self.now.types.now field.now.ty }
        requires labels { HasApartLabels self.now.types.now }
        requires ordered { AreOrders self.now.types.now.definitions self.now.orders.now }
        requires short { length self.now.memory.now < 2 ^ 32 }
        requires flat { length (flat_kinds (closed (labelled_type self.now.types.now field.now.ty)))
            ≤ length flats.now }
        requires few_flats { length flats.now ≤ 16 }
        requires carried { IsCarried (labelled_type self.now.types.now field.now.ty) self.now.memory.now
            (map number_of flats.now) }
        requires few { at ≤ self.now.limit }
        ensures { let t = labelled_type self.now.types.now field.now.ty in
            (v : Value) → Lifts (closed t) self.now.memory.now (map number_of flats.now) v
            → PutsWithin self.now.limit (key_at index field.now.name ++ compact_text (json_of t v)) room.old at
            result room.new }
    {
        let named = put_key(self.limit, room, at, index, field.name.as_str())?;
        self.write_flat(field.ty, flats, room, named)
    }

    /// Puts the text of an object of a record's values, in the order of the labels' bytes.
    #[cycle(flat)]
    fn write_flat_fields(
        &self,
        _place: u32,
        fields: &[Field],
        order: &[usize],
        flats: &[Flat],
        room: &mut [u8],
        at: usize,
    ) -> Result<usize, TooLong>
        requires below { IsTrue (list_all (λ f. is_below _place f.ty) fields.now) }
        requires types { IsTrue (list_all (λ f. is_type self.now.types.now.definitions f.ty) fields.now) }
        requires labels { HasApartLabels self.now.types.now }
        requires ordered { AreOrders self.now.types.now.definitions self.now.orders.now }
        requires short { length self.now.memory.now < 2 ^ 32 }
        requires apart { HaveLabelsApart fields.now }
        requires sorted { IsLabelOrder fields.now order.now }
        requires flat { length (field_kinds (closed_fields (labelled_fields (labelled_types self.now.types.now)
            fields.now))) ≤ length flats.now }
        requires few_flats { length flats.now ≤ 16 }
        requires carried { FieldsAreCarried (labelled_fields (labelled_types self.now.types.now) fields.now)
            self.now.memory.now (map number_of flats.now) }
        requires few { at ≤ self.now.limit }
        ensures { PutsFieldsCarried self.now.limit (labelled_fields (labelled_types self.now.types.now) fields.now)
            self.now.memory.now (map number_of flats.now) room.old at result room.new }
    {
        let mut end = put(self.limit, room, at, b"{")?;
        for (k, i) in order.iter().enumerate() {
            let used = self.flats_before(fields, *i);
            end = self.write_flat_field(&fields[*i], &flats[used..], k, room, end)?;
        }
        put(self.limit, room, end, b"}")
    }

    /// How many core values stand before those of a field.
    fn flats_before(&self, fields: &[Field], index: usize) -> usize
        requires types { IsTrue (list_all (λ f. is_type self.now.types.now.definitions f.ty) fields.now) }
        requires inside { index ≤ length fields.now }
        requires few { length (field_kinds (closed_fields (labelled_fields (labelled_types self.now.types.now)
            fields.now))) ≤ 16 }
        ensures { result ≡ flats_before (labelled_types self.now.types.now) (map (λ f. f.ty) fields.now) index }
    {
        let mut count: usize = 0;
        for i in 0..index {
            count += self.types.kind_count(fields[i].ty);
        }
        count
    }

    /// Puts the text of a value of a type that has cases.
    #[cycle(flat)]
    fn write_flat_case(
        &self,
        place: u32,
        kind: &TypeDefKind,
        flats: &[Flat],
        room: &mut [u8],
        at: usize,
    ) -> Result<usize, TooLong>
        requires cases { HasCases kind.now }
        requires below { IsTrue (kind_all (is_below place) kind.now) }
        requires types { IsTrue (kind_all (is_type self.now.types.now.definitions) kind.now) }
        requires labels { HasApartLabels self.now.types.now }
        requires ordered { AreOrders self.now.types.now.definitions self.now.orders.now }
        requires short { length self.now.memory.now < 2 ^ 32 }
        requires flat { length (flat_kinds (closed (labelled_kind (labelled_types self.now.types.now) kind.now)))
            ≤ length flats.now }
        requires few_flats { length flats.now ≤ 16 }
        requires carried { IsCarried (labelled_kind (labelled_types self.now.types.now) kind.now)
            self.now.memory.now (map number_of flats.now) }
        requires few { at ≤ self.now.limit }
        ensures { PutsCarried self.now.limit (labelled_kind (labelled_types self.now.types.now) kind.now)
            self.now.memory.now (map number_of flats.now) room.old at result room.new }
    {
        let number = low_word(flats, 0);
        let (label, payload) = named_case(kind, number);
        let Some(ty) = payload else {
            return put_quoted(self.limit, room, at, label);
        };
        let open = put(self.limit, room, at, b"{")?;
        let named = put_key(self.limit, room, open, 0, label)?;
        let ended = self.write_flat(ty, &flats[1..], room, named)?;
        put(self.limit, room, ended, b"}")
    }
}
