//! What whole ways of a call ask for: its parameters, and its result.
ghost use Rattle.std.specs.Prelude.{◌≡◌, ◌+◌, ◌*◌, ◌^◌, ◌<◌, ◌≤◌, ℕ, length, map, IfOk, IfErr};
ghost use Rattle.canonical_abi.specs.Flat.{Denotes, DenotesFault};
ghost use Rattle.canonical_abi.specs.Layout.{size, max_flat_params, max_flat_results, passed_kinds};
ghost use Rattle.canonical_abi.specs.Reading.{kind_of};
ghost use Rattle.canonical_abi.specs.Requests.{params_requests, fields_requests};
ghost use Rattle.canonical_abi.specs.Types.{record_type, record_fields, AreStandardFields, fields_depth};
ghost use Rattle.values.specs.Members.{fields_of_types, AreAllInside};
ghost use Rattle.values.specs.Types.{IsInside};
ghost use Rattle.tables.specs.Closed.{closed_type};
ghost use Rattle.adapter.specs.Ahead.{params_asked, result_asked, TellsLimit};
ghost use Rattle.adapter.specs.Asking.{IsToldAhead, IsUntold};

use crate::asking::request::{Request, Untold, tell};
use crate::asking::walk::Walk;
use canonical_abi::Flat;
use layout::Shape;
use lift_lower::low_word;
use lift_lower::nodes::{Members, test_block};
use tables::ValType;

impl Walk<'_> {
    /// Lists what the parameters of a call ask for, given as the record of them, which `flats` denote over the source:
    /// the first requests, as many as there are slots, and how many there are in all, as far as 64 bits count. If
    /// they denote none, it returns the first fault, and the slots then say nothing. The kinds of `flats` were tested
    /// before. CanonicalABI.md, "Lifting and Lowering Values". It visits `nodes` values, whatever it returns; elements
    /// that ask for nothing whatever their bytes are, are not visited.
    pub fn ask_params(
        &self,
        params: ValType,
        flats: &[Flat],
        slots: &mut [Request],
        limit: u64,
        nodes: &mut u64,
    ) -> Result<usize, Untold>
        requires inside { IsInside self.now.types.now params }
        requires is_record { closed_type self.now.types.now params
            ≡ record_type (record_fields (closed_type self.now.types.now params)) }
        requires short { length self.now.source.now < 2 ^ 32 }
        requires kinds { map kind_of flats.now
            ≡ passed_kinds max_flat_params (record_fields (closed_type self.now.types.now params)) }
        ensures told { let ts = record_fields (closed_type self.now.types.now params) in
            IfOk result (IsToldAhead (Denotes max_flat_params ts self.now.source.now flats.now)
            (params_requests max_flat_params ts) limit slots.old slots.new) }
        ensures fault { let ts = record_fields (closed_type self.now.types.now params) in
            IfErr result (IsUntold (Denotes max_flat_params ts self.now.source.now flats.now)
            (DenotesFault max_flat_params ts self.now.source.now flats.now) (params_requests max_flat_params ts)
            limit) }
        ensures limit { TellsLimit (params_asked (record_fields (closed_type self.now.types.now params))
            self.now.source.now flats.now) limit result }
        ensures few { let ts = record_fields (closed_type self.now.types.now params) in
            (d : ℕ) → AreStandardFields ts → fields_depth ts ≤ d → nodes.new ≤ d * (limit + 16) }
        ensures each { IfOk result (λ count. count ≤ nodes.new + 1) }
    {
        let Shape::Record(fields) = self.types.shape_of(params) else {
            unreachable!()
        };
        *nodes = 0;
        let mut count = 0;
        let mut left = limit;
        let members = Members::Of(params);
        let Some(_) = self.types.count_within(&[params], 16) else {
            let from = low_word(flats, 0) as usize;
            let align = self.types.align_of(params);
            let size = self.types.size_of(params);
            match test_block(self.source.len(), from, align, size) {
                Ok(()) => (),
                Err(kind) => return Err(Untold::Fault(kind)),
            }
            if left < size as u64 {
                return Err(Untold::AboveLimit);
            }
            tell(slots, &mut count, &mut left, align, size);
            self.ask_fields(&members, fields, from, slots, &mut count, &mut left, nodes)?;
            return Ok(count);
        };
        self.ask_flat_fields(&members, fields, flats, slots, &mut count, &mut left, nodes)?;
        Ok(count)
    }

    /// Lists the same of the result of a call, of at most one type. If it doesn't go flat it is put into the return
    /// area, for which nothing is asked.
    pub fn ask_result(
        &self,
        types: &[ValType],
        flats: &[Flat],
        slots: &mut [Request],
        limit: u64,
        nodes: &mut u64,
    ) -> Result<usize, Untold>
        requires inside { AreAllInside self.now.types.now types.now }
        requires small { size (record_type (fields_of_types self.now.types.now types.now)) ≤ 16777216 }
        requires short { length self.now.source.now < 2 ^ 32 }
        requires kinds { map kind_of flats.now
            ≡ passed_kinds max_flat_results (fields_of_types self.now.types.now types.now) }
        ensures told { let ts = fields_of_types self.now.types.now types.now in
            IfOk result (IsToldAhead (Denotes max_flat_results ts self.now.source.now flats.now) (fields_requests ts)
            limit slots.old slots.new) }
        ensures fault { let ts = fields_of_types self.now.types.now types.now in
            IfErr result (IsUntold (Denotes max_flat_results ts self.now.source.now flats.now)
            (DenotesFault max_flat_results ts self.now.source.now flats.now) (fields_requests ts) limit) }
        ensures limit { TellsLimit (result_asked (fields_of_types self.now.types.now types.now) self.now.source.now
            flats.now) limit result }
        ensures few { let ts = fields_of_types self.now.types.now types.now in
            (d : ℕ) → AreStandardFields ts → fields_depth ts ≤ d
            → nodes.new ≤ d * (limit + size (record_type ts) + 16) }
        ensures each { IfOk result (λ count. count ≤ nodes.new) }
    {
        *nodes = 0;
        let mut count = 0;
        let mut left = limit;
        let members = Members::Listed(types);
        let fields = types.len();
        let Some(_) = self.types.count_within(types, 1) else {
            let (size, align) = self.types.record_extent(types);
            let from = low_word(flats, 0) as usize;
            match test_block(self.source.len(), from, align, size) {
                Ok(()) => (),
                Err(kind) => return Err(Untold::Fault(kind)),
            }
            self.ask_fields(&members, fields, from, slots, &mut count, &mut left, nodes)?;
            return Ok(count);
        };
        self.ask_flat_fields(&members, fields, flats, slots, &mut count, &mut left, nodes)?;
        Ok(count)
    }
}
