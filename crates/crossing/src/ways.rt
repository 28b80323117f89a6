//! Whole ways of a call: its parameters, and its result.
ghost use Rattle.std.specs.Prelude.{◌≡◌, ◌+◌, ◌^◌, ◌<◌, ◌≤◌, [], length, map, false};
ghost use Rattle.canonical_abi.specs.Types.{field_count, record_type, record_fields};
ghost use Rattle.canonical_abi.specs.Layout.{size, align, max_flat_params, max_flat_results, fits_flat, passed_kinds};
ghost use Rattle.canonical_abi.specs.Reading.{kind_of};
ghost use Rattle.canonical_abi.specs.Script.{AddressFaulty};
ghost use Rattle.crossing.specs.Outcome.{FieldsWalk, Ends};
ghost use Rattle.crossing.specs.Ways.{ParamsWalk, ResultWalk, AreaIsBad, WayEnds};
ghost use Rattle.values.specs.Members.{fields_of_types, AreAllInside};
ghost use Rattle.values.specs.Types.{IsInside};
ghost use Rattle.tables.specs.Closed.{closed_type};

use crate::addresses::Addresses;
use crate::stopped::Stopped;
use crate::walk::{Fields, Walk, are_bytes};
use arrayvec::ArrayVec;
use canonical_abi::{Flat, Guest};
use layout::Shape;
use lift_lower::low_word;
use lift_lower::nodes::{Members, ask_block, test_block};
use tables::{Parameter, ValType};

/// A function's parameters: the record of them, and each.
#[derive(Clone, Copy)]
pub struct Parameters<'a> {
    pub row: ValType,
    pub each: &'a [Parameter],
}

/// What a core function returned, and the address that its result goes to if it doesn't go flat.
#[derive(Clone, Copy)]
pub struct Returned<'a> {
    pub flats: &'a [Flat],
    pub area: u32,
}

impl Walk<'_> {
    /// Crosses the parameters of a call: what `flats` denote over the source is put into the target, and the flat
    /// values that carry it there into `out`, which was empty. The kinds of `flats` were tested before. If the
    /// parameters don't go flat, the address of their record is tested first. If it ends early, what was put into `out`
    /// says nothing. CanonicalABI.md, "Lifting and Lowering Values".
    pub fn cross_params<G: Guest, const N: usize>(
        &self,
        params: &Parameters,
        flats: &[Flat],
        guest: &mut G,
        out: &mut ArrayVec<Flat, N>,
        nodes: &mut u64,
    ) -> Result<(), Stopped>
        requires inside { IsInside self.now.types.now params.now.row }
        requires is_record { closed_type self.now.types.now params.now.row
            ≡ record_type (record_fields (closed_type self.now.types.now params.now.row)) }
        requires short { length self.now.source.now < 2 ^ 32 }
        requires kinds { map kind_of flats.now
            ≡ passed_kinds max_flat_params (record_fields (closed_type self.now.types.now params.now.row)) }
        requires all_inside { AreAllInside self.now.types.now (map (λ p. p.ty) params.now.each.now) }
        requires listed { record_fields (closed_type self.now.types.now params.now.row)
            ≡ fields_of_types self.now.types.now (map (λ p. p.ty) params.now.each.now) }
        requires capacity { N ≤ 17 }
        requires room { length flats.now ≤ N }
        requires empty { out.old.items ≡ [] }
        ensures { WayEnds G.allocates (ParamsWalk max_flat_params
            (record_fields (closed_type self.now.types.now params.now.row)) self.now.source.now flats.now)
            (AddressFaulty max_flat_params (record_fields (closed_type self.now.types.now params.now.row))
            self.now.source.now flats.now) (λ k. ⊥)
            (G.memory guest.old) nodes.old result (G.memory guest.new) nodes.new out.new.items }
    {
        let Some(_) = self.types.count_within(&[params.row], 16) else {
            return self.cross_record(params.row, flats, guest, out, nodes);
        };
        self.carry_parameters(params.each, flats, guest, out, nodes)
    }

    /// The members of a record.
    fn fields_of(&self, ty: ValType) -> Fields<'_>
        requires inside { IsInside self.now.types.now ty }
        requires is_record { closed_type self.now.types.now ty
            ≡ record_type (record_fields (closed_type self.now.types.now ty)) }
        ensures members { result.members ≡ Members.Of ty }
        ensures counted { field_count (record_fields (closed_type self.now.types.now ty)) ≡ result.count }
    {
        let Shape::Record(count) = self.types.shape_of(ty) else {
            unreachable!()
        };
        Fields {
            members: Members::Of(ty),
            count,
        }
    }

    /// Crosses a record of parameters into a block of its own, whose address is the one flat value.
    fn cross_record<G: Guest, const N: usize>(
        &self,
        params: ValType,
        flats: &[Flat],
        guest: &mut G,
        out: &mut ArrayVec<Flat, N>,
        nodes: &mut u64,
    ) -> Result<(), Stopped>
        requires inside { IsInside self.now.types.now params }
        requires is_record { closed_type self.now.types.now params
            ≡ record_type (record_fields (closed_type self.now.types.now params)) }
        requires short { length self.now.source.now < 2 ^ 32 }
        requires spilled { fits_flat max_flat_params (record_fields (closed_type self.now.types.now params)) ≡ false }
        requires kinds { map kind_of flats.now
            ≡ passed_kinds max_flat_params (record_fields (closed_type self.now.types.now params)) }
        requires capacity { N ≤ 17 }
        requires room { 1 ≤ N }
        requires empty { out.old.items ≡ [] }
        ensures { WayEnds G.allocates (ParamsWalk max_flat_params
            (record_fields (closed_type self.now.types.now params)) self.now.source.now flats.now)
            (AddressFaulty max_flat_params (record_fields (closed_type self.now.types.now params)) self.now.source.now
            flats.now) (λ k. ⊥)
            (G.memory guest.old) nodes.old result (G.memory guest.new) nodes.new out.new.items }
    {
        canonical_abi::laws::reads_exactly();
        are_bytes(self.source);
        let from = low_word(flats, 0) as usize;
        let align = self.types.align_of(params);
        let size = self.types.size_of(params);
        if let Err(kind) = test_block(self.source.len(), from, align, size) {
            return Err(Stopped::Source(kind));
        }
        let place = match ask_block(guest, u32::MAX, align, size) {
            Ok(place) => place,
            Err(kind) => return Err(Stopped::Target(kind)),
        };
        let fields = self.fields_of(params);
        self.cross_fields(&fields, Addresses { from, to: place }, guest, nodes)?;
        out.push(Flat::I32(place as u32));
        Ok(())
    }

    /// Crosses the result of a call, of at most one type: what the returned `flats` denote over the source is put into
    /// the target, and the flat values that carry it there into `out`, which was empty. The kinds of `flats` were
    /// tested before. If the result doesn't go flat it is put at the address `area`; the source's address is tested
    /// first, then the area. If it ends early, what was put into `out` says nothing. CanonicalABI.md, "Lifting and
    /// Lowering Values".
    pub fn cross_result<G: Guest, const N: usize>(
        &self,
        types: &[ValType],
        returned: &Returned,
        guest: &mut G,
        out: &mut ArrayVec<Flat, N>,
        nodes: &mut u64,
    ) -> Result<(), Stopped>
        requires inside { AreAllInside self.now.types.now types.now }
        requires small { size (record_type (fields_of_types self.now.types.now types.now)) ≤ 16777216 }
        requires short { length self.now.source.now < 2 ^ 32 }
        requires kinds { map kind_of returned.now.flats.now
            ≡ passed_kinds max_flat_results (fields_of_types self.now.types.now types.now) }
        requires capacity { N ≤ 17 }
        requires room { 1 ≤ N }
        requires empty { out.old.items ≡ [] }
        ensures { let ts = fields_of_types self.now.types.now types.now in
            WayEnds G.allocates (ResultWalk max_flat_results ts self.now.source.now returned.now.flats.now
            returned.now.area (G.memory guest.old).bytes)
            (AddressFaulty max_flat_results ts self.now.source.now returned.now.flats.now)
            (AreaIsBad max_flat_results ts self.now.source.now returned.now.flats.now returned.now.area
            (G.memory guest.old).bytes)
            (G.memory guest.old) nodes.old result (G.memory guest.new) nodes.new out.new.items }
    {
        let Some(_) = self.types.count_within(types, 1) else {
            return self.cross_to_area(types, returned, guest, out, nodes);
        };
        let fields = Fields {
            members: Members::Listed(types),
            count: types.len(),
        };
        self.carry_fields(&fields, returned.flats, guest, out, nodes)
    }

    /// Crosses a result into the return area.
    fn cross_to_area<G: Guest, const N: usize>(
        &self,
        types: &[ValType],
        returned: &Returned,
        guest: &mut G,
        out: &mut ArrayVec<Flat, N>,
        nodes: &mut u64,
    ) -> Result<(), Stopped>
        requires inside { AreAllInside self.now.types.now types.now }
        requires small { size (record_type (fields_of_types self.now.types.now types.now)) ≤ 16777216 }
        requires short { length self.now.source.now < 2 ^ 32 }
        requires spilled { fits_flat max_flat_results (fields_of_types self.now.types.now types.now) ≡ false }
        requires kinds { map kind_of returned.now.flats.now
            ≡ passed_kinds max_flat_results (fields_of_types self.now.types.now types.now) }
        requires capacity { N ≤ 17 }
        requires empty { out.old.items ≡ [] }
        ensures { let ts = fields_of_types self.now.types.now types.now in
            WayEnds G.allocates (ResultWalk max_flat_results ts self.now.source.now returned.now.flats.now
            returned.now.area (G.memory guest.old).bytes)
            (AddressFaulty max_flat_results ts self.now.source.now returned.now.flats.now)
            (AreaIsBad max_flat_results ts self.now.source.now returned.now.flats.now returned.now.area
            (G.memory guest.old).bytes)
            (G.memory guest.old) nodes.old result (G.memory guest.new) nodes.new out.new.items }
    {
        let (size, align) = self.extent_of(types);
        let from = low_word(returned.flats, 0) as usize;
        if let Err(kind) = test_block(self.source.len(), from, align, size) {
            return Err(Stopped::Source(kind));
        }
        let to = returned.area as usize;
        if let Err(kind) = test_block(guest.len() as usize, to, align, size) {
            return Err(Stopped::Target(kind));
        }
        self.cross_types(types, Addresses { from, to }, guest, nodes)
    }

    /// The size and the alignment of types side by side, as a record.
    #[inline(always)]
    fn extent_of(&self, types: &[ValType]) -> (usize, usize)
        requires inside { AreAllInside self.now.types.now types.now }
        requires small { size (record_type (fields_of_types self.now.types.now types.now)) ≤ 16777216 }
        ensures size { result.0 ≡ size (record_type (fields_of_types self.now.types.now types.now)) }
        ensures align { result.1 ≡ align (record_type (fields_of_types self.now.types.now types.now)) }
    {
        match types {
            [ty] => (self.types.size_of(*ty), self.types.align_of(*ty)),
            _ => self.types.record_extent(types),
        }
    }

    /// Crosses values of types side by side, of which the first is at `at.from`.
    #[inline(always)]
    fn cross_types<G: Guest>(
        &self,
        types: &[ValType],
        at: Addresses,
        guest: &mut G,
        nodes: &mut u64,
    ) -> Result<(), Stopped>
        requires inside { AreAllInside self.now.types.now types.now }
        requires short { length self.now.source.now < 2 ^ 32 }
        requires fits { at.from + size (record_type (fields_of_types self.now.types.now types.now))
            ≤ length self.now.source.now }
        requires room { at.to + size (record_type (fields_of_types self.now.types.now types.now))
            ≤ length (G.memory guest.old).bytes }
        requires small { at.to + size (record_type (fields_of_types self.now.types.now types.now)) < 2 ^ 32 }
        ensures { Ends G.allocates (FieldsWalk (fields_of_types self.now.types.now types.now)
            self.now.source.now at.from at.to 0)
            (G.memory guest.old) nodes.old result (G.memory guest.new) nodes.new }
    {
        canonical_abi::laws::reads_exactly();
        are_bytes(self.source);
        if let [ty] = types {
            return self.cross_at(*ty, at, guest, nodes);
        }
        let fields = Fields {
            members: Members::Listed(types),
            count: types.len(),
        };
        self.cross_fields(&fields, at, guest, nodes)
    }
}
