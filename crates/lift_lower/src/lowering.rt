//! Lowering: the core values that carry values, whose texts and lists are put into a memory.
ghost use Rattle.std.specs.Prelude.{◌≡◌, ◌<◌, ◌≤◌, map, IfOk, IfErr};
ghost use Rattle.canonical_abi.specs.Types.{record_type, AreStandardFields};
ghost use Rattle.canonical_abi.specs.Values.{HaveTypes};
ghost use Rattle.canonical_abi.specs.Layout.{size};
ghost use Rattle.canonical_abi.specs.Lowering.{PassesParams, SpilledLower};
ghost use Rattle.layout.specs.Layout.{layouts_of};
ghost use Rattle.values.specs.Members.{fields_of_types, AreAllInside, AreTypesOf};
ghost use Rattle.lift_lower.specs.Crossing.{AreLowered, LowerFails, AreAnswered, AnswerFails};
ghost use Rattle.lift_lower.specs.Lowered.{PassesParamsBy, SpilledLowerBy};
ghost use Rattle.lift_lower.specs.Scripts.{IsDone, HasEnded};
ghost use Rattle.values.specs.Val.{value_of};

use crate::guest_blocks::ask_block;
use crate::lower_flat::lower_fields;
use crate::storing::{MAX_BLOCK, place_fault, store_fields};
use canonical_abi::{Fault, Flat, Guest, TrapKind};
use layout::Layouts;
use tables::{Resolve, ValType};
use values::{FlatResults, Flats, Members, Types, Val, flat_results};

/// The core values that carry values of these types, whose texts and lists are put into the guest's memory.
/// A trap is in step `place`: the first request that fails. Takes no memory of the host.
pub fn lower<G: Guest>(
    resolve: &Resolve,
    layouts: &Layouts,
    types: &[ValType],
    values: &[Val],
    guest: &mut G,
) -> Result<Flats, Fault>
    requires laid_out { layouts.now ≡ layouts_of resolve.now }
    requires known { AreTypesOf resolve.now types.now }
    requires small { size (record_type (fields_of_types resolve.now types.now)) ≤ 16777216 }
    requires typed { HaveTypes (map value_of values.now) (fields_of_types resolve.now types.now) }
    ensures flats { IfOk result (λ flats. AreLowered G.allocates (fields_of_types resolve.now types.now)
        (map value_of values.now) (G.memory guest.old) flats.items (G.memory guest.new)) }
    ensures fault { IfErr result (λ fault. LowerFails G.allocates (fields_of_types resolve.now types.now)
        (map value_of values.now) (G.memory guest.old) fault (G.memory guest.new)) }
{
    let table = &Types::new(resolve, layouts);
    match lower_params(table, 16, MAX_BLOCK, types, values, guest) {
        Ok(flats) => Ok(flats),
        Err(kind) => Err(place_fault(kind)),
    }
}

/// The core values with which a component answers values of these types: flat where one carries them, else the address
/// of a block of its own, which is asked for before those of texts and lists. Takes no memory of the host.
pub fn lower_answer<G: Guest>(
    table: &Types,
    types: &[ValType],
    values: &[Val],
    guest: &mut G,
) -> Result<FlatResults, TrapKind>
    requires known { AreTypesOf table.now types.now }
    requires small { size (record_type (fields_of_types table.now types.now)) ≤ 16777216 }
    requires typed { HaveTypes (map value_of values.now) (fields_of_types table.now types.now) }
    ensures flats { IfOk result (λ flats. AreAnswered G.allocates (fields_of_types table.now types.now)
        (map value_of values.now) (G.memory guest.old) flats.items (G.memory guest.new)) }
    ensures fault { IfErr result (λ k. AnswerFails G.allocates (fields_of_types table.now types.now)
        (map value_of values.now) (G.memory guest.old) k (G.memory guest.new)) }
{
    let flats = lower_params(table, 1, MAX_BLOCK, types, values, guest)?;
    Ok(flat_results(flats.as_slice()))
}

/// Lowers values as parameters: flat, or into a block where more than `flat` core values would carry them.
pub(crate) fn lower_params<G: Guest>(
    table: &Types,
    flat: usize,
    limit: u32,
    types: &[ValType],
    values: &[Val],
    guest: &mut G,
) -> Result<Flats, TrapKind>
    requires few { flat ≤ 16 }
    requires inside { AreAllInside table.now types.now }
    requires small { size (record_type (fields_of_types table.now types.now)) ≤ 16777216 }
    requires standard { AreStandardFields (fields_of_types table.now types.now) }
    requires typed { HaveTypes (map value_of values.now) (fields_of_types table.now types.now) }
    ensures ok { IfOk result (λ flats. IsDone limit G.allocates
        (λ es. PassesParams flat (fields_of_types table.now types.now) (map value_of values.now) es flats.items)
        (G.memory guest.old) (G.memory guest.new)) }
    ensures fault { IfErr result (λ k. HasEnded limit G.allocates
        (PassesParamsBy flat (fields_of_types table.now types.now) (map value_of values.now))
        (G.memory guest.old) k (G.memory guest.new)) }
{
    let Some(_) = table.kinds_within(types, flat) else {
        return lower_spilled(table, limit, types, values, guest);
    };
    let mut flats = Flats::new();
    let members = Members::Listed(types);
    lower_fields(table, limit, &members, values, guest, &mut flats)?;
    Ok(flats)
}

/// Stores values as a record in a block of its own, whose address is the one core value.
fn lower_spilled<G: Guest>(
    table: &Types,
    limit: u32,
    types: &[ValType],
    values: &[Val],
    guest: &mut G,
) -> Result<Flats, TrapKind>
    requires inside { AreAllInside table.now types.now }
    requires small { size (record_type (fields_of_types table.now types.now)) ≤ 16777216 }
    requires standard { AreStandardFields (fields_of_types table.now types.now) }
    requires typed { HaveTypes (map value_of values.now) (fields_of_types table.now types.now) }
    ensures ok { IfOk result (λ flats. IsDone limit G.allocates
        (λ es. SpilledLower (fields_of_types table.now types.now) (map value_of values.now) es flats.items)
        (G.memory guest.old) (G.memory guest.new)) }
    ensures fault { IfErr result (λ k. HasEnded limit G.allocates
        (SpilledLowerBy (fields_of_types table.now types.now) (map value_of values.now))
        (G.memory guest.old) k (G.memory guest.new)) }
{
    let (size, align) = table.record_extent(types);
    let start = ask_block(guest, limit, align, size)?;
    let members = Members::Listed(types);
    store_fields(table, limit, &members, values, guest, start)?;
    let mut flats = Flats::new();
    flats.push(Flat::I32(start as u32));
    Ok(flats)
}
