//! The texts of a whole call: of a function's result, and of its arguments.
ghost use Rattle.std.specs.Prelude.{◌≡◌, ◌+◌, ◌<◌, ◌≤◌, ◌^◌, List, length, option_to_list, IfSome, IsTrue};
ghost use Rattle.std.specs.List.{list_all};
ghost use Rattle.canonical_abi.specs.Flat.{Denotes};
ghost use Rattle.canonical_abi.specs.Labelled.{closed_members};
ghost use Rattle.canonical_abi.specs.Layout.{max_flat_params, max_flat_results, size};
ghost use Rattle.canonical_abi.specs.Memory.{FieldsHold};
ghost use Rattle.canonical_abi.specs.Types.{record_type};
ghost use Rattle.canonical_abi.specs.Values.{Value};
ghost use Rattle.tables.specs.Labelled.{labelled_members, labelled_types};
ghost use Rattle.tables.specs.Standard.{IsTypeOf};
ghost use Rattle.tables.specs.Tables.{is_type};
ghost use Rattle.values.specs.Members.{AreTypesOf, fields_of_types};
ghost use Rattle.value_json.specs.Apart.{HasApartLabels};
ghost use Rattle.value_text.specs.Flats.{result_text, values_text};
ghost use Rattle.value_text.specs.Orders.{AreOrders};
ghost use Rattle.value_text.specs.Puts.{PutsWithin};

use crate::held::Held;
use crate::puts::{TooLong, put};
use canonical_abi::Flat;
use lift_lower::low_word;
use tables::ValType;

impl Held<'_> {
    /// Puts the text of the result that the core values of an answer carry at the front of the array, as far as there
    /// is room, and answers how many bytes it has: none if the function has no result. The answer was tested before.
    pub fn write_answer(
        &self,
        ty: Option<ValType>,
        flats: &[Flat],
        room: &mut [u8],
    ) -> Result<usize, TooLong>
        requires inside { IfSome ty (IsTypeOf self.now.types.now) }
        requires labels { HasApartLabels self.now.types.now }
        requires ordered { AreOrders self.now.types.now.definitions self.now.orders.now }
        requires short { length self.now.memory.now < 2 ^ 32 }
        requires denoted { (vs : List Value) × Denotes max_flat_results
            (fields_of_types self.now.types.now (option_to_list ty)) self.now.memory.now flats.now vs }
        ensures { (vs : List Value) → Denotes max_flat_results
            (fields_of_types self.now.types.now (option_to_list ty)) self.now.memory.now flats.now vs
            → PutsWithin self.now.limit (result_text self.now.types.now ty vs) room.old 0 result room.new }
    {
        let Some(ty) = ty else {
            return put(self.limit, room, 0, b"");
        };
        if self.types.count_within(&[ty], 1).is_some() {
            self.write_flat(ty, flats, room, 0)
        } else {
            self.write_at(ty, low_word(flats, 0) as usize, room, 0)
        }
    }

    /// Puts the text of the array of the arguments that the core values of a call carry at the front of the array, as
    /// far as there is room, and answers how many bytes it has. There is a type for each parameter, and no core value
    /// of a return area. The arguments were tested before.
    pub fn write_arguments(
        &self,
        types: &[ValType],
        flats: &[Flat],
        room: &mut [u8],
    ) -> Result<usize, TooLong>
        requires types { AreTypesOf self.now.types.now types.now }
        requires labels { HasApartLabels self.now.types.now }
        requires ordered { AreOrders self.now.types.now.definitions self.now.orders.now }
        requires short { length self.now.memory.now < 2 ^ 32 }
        requires denoted { (vs : List Value) × Denotes max_flat_params
            (fields_of_types self.now.types.now types.now) self.now.memory.now flats.now vs }
        ensures { (vs : List Value) → Denotes max_flat_params
            (fields_of_types self.now.types.now types.now) self.now.memory.now flats.now vs
            → PutsWithin self.now.limit
            (values_text (labelled_members (labelled_types self.now.types.now) types.now) vs) room.old 0
            result room.new }
    {
        if self.types.count_within(types, 16).is_some() {
            self.write_flat_members(types, flats, room, 0)
        } else {
            self.write_spilled(types, low_word(flats, 0) as usize, room)
        }
    }

    /// Puts the text of the array of values that stand behind one another from an address on, as the fields of a
    /// record.
    fn write_spilled(
        &self,
        types: &[ValType],
        from: usize,
        room: &mut [u8],
    ) -> Result<usize, TooLong>
        requires types { IsTrue (list_all (is_type self.now.types.now.definitions) types.now) }
        requires labels { HasApartLabels self.now.types.now }
        requires ordered { AreOrders self.now.types.now.definitions self.now.orders.now }
        requires short { length self.now.memory.now < 2 ^ 32 }
        requires fits { from
            + size (record_type (closed_members (labelled_members (labelled_types self.now.types.now) types.now)))
            ≤ length self.now.memory.now }
        requires holds { (vs : List Value) × FieldsHold
            (closed_members (labelled_members (labelled_types self.now.types.now) types.now)) self.now.memory.now
            from 0 vs }
        ensures { (vs : List Value) → FieldsHold
            (closed_members (labelled_members (labelled_types self.now.types.now) types.now)) self.now.memory.now
            from 0 vs
            → PutsWithin self.now.limit
            (values_text (labelled_members (labelled_types self.now.types.now) types.now) vs) room.old 0
            result room.new }
    {
        let mut place: usize = 0;
        let mut end = put(self.limit, room, 0, b"[")?;
        for index in 0..types.len() {
            let ty = types[index];
            place = place.next_multiple_of(self.types.align_of(ty));
            end = self.write_item(ty, from + place, index, room, end)?;
            place += self.types.size_of(ty);
        }
        put(self.limit, room, end, b"]")
    }
}
