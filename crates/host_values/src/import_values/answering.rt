//! The result of a call, put into the guest's memory.
ghost use Rattle.std.specs.Prelude.{◌≡◌, ◌<◌, ℕ, map, length, IfOk, IfErr, IsTrue};
ghost use Rattle.canonical_abi.specs.Types.{result_fields};
ghost use Rattle.canonical_abi.specs.Values.{HaveTypes};
ghost use Rattle.layout.specs.Layout.{AreWithin};
ghost use Rattle.memory.specs.Blocks.{are_good};
ghost use Rattle.tables.specs.Closed.{IsFunction, function_type};
ghost use Rattle.values.specs.Val.{value_of};
ghost use Rattle.host_values.specs.Results.{IsAnswered, AnswerFails, AnswersLent, AnswerOfLentFails, AnswerDone};

use crate::import_values::call::ImportCall;
use adapter::result_type;
use canonical_abi::{Fault, Guest};
use host_calls::{
    CallError, HalfError, Value, begin, broken_off, of_half, put_flats, return_area, room_in, tell,
};
use lift_lower::{Flats, Val, lower, store};
use memory::{Block, Lent, can_lend};

impl ImportCall<'_> {
    /// Puts the result into the blocks of the guest's memory, and its record into the return area if it does not go
    /// flat. Tells the core values that carry it, of which there is at most one, at the front of `back`, which has room
    /// for 17 whatever the function. Answers how many they are. There is one value, or none if the function has no
    /// result. The blocks are those that `result_requests` tells.
    ///
    /// 71 if there is no room; K8 in `lift-args` if the core values of the call are of another number or kind; 72 if
    /// the blocks can't be handed out, or one meets the return area; 66 if no memory is left to test them; K3 or K4 in
    /// `place` if the return area is no place for the result, and then nothing was written; 73 if a block has another
    /// size or alignment than was asked for, and the blocks before it were written to; K6 in `place` if there are too
    /// few.
    pub fn answer(
        &self,
        values: &[Val],
        blocks: &[Block],
        memory: &mut [u8],
        back: &mut [Value],
    ) -> Result<usize, CallError>
        requires within { ∥ AreWithin self.now.types.now ∥₁ }
        requires function { IsFunction self.now.types.now self.now.func }
        requires typed { HaveTypes (map value_of values.now)
            (result_fields (function_type self.now.types.now self.now.func).result) }
        ensures { AnswerDone (function_type self.now.types.now self.now.func) self.now.flats.now
            (map value_of values.now) memory.old blocks.now back.old result memory.new back.new }
    {
        room_in(back)?;
        begin(self.types, self.func, self.flats)?;
        let mut flats = Flats::new();
        if !put_flats(self.flats, &mut flats) {
            unreachable!()
        }
        let area = return_area(self.types, self.func, flats.as_slice());
        if !can_lend(self.alloc, memory.len(), &area, blocks)? {
            return Err(CallError::BadBlock);
        }
        match self.put_lent(area.at, values, blocks, memory) {
            Ok(given) => {
                let count = given.len();
                tell(given.as_slice(), back);
                Ok(count)
            }
            Err(error) => Err(of_half(error)),
        }
    }

    /// Puts the result into the blocks and the return area of a memory. A block of another size or alignment than the
    /// one that is asked for is told by its index; where there are too few, this is K6.
    fn put_lent(
        &self,
        area: u32,
        values: &[Val],
        blocks: &[Block],
        memory: &mut [u8],
    ) -> Result<Flats, HalfError>
        requires within { ∥ AreWithin self.now.types.now ∥₁ }
        requires function { IsFunction self.now.types.now self.now.func }
        requires typed { HaveTypes (map value_of values.now)
            (result_fields (function_type self.now.types.now self.now.func).result) }
        requires limited { length memory.old < 4294967296 }
        requires good { IsTrue (are_good (length memory.old) blocks.now) }
        ensures given { IfOk result (λ given. (name : ℕ)
            × AnswersLent name (result_fields (function_type self.now.types.now self.now.func).result) area
            (map value_of values.now) memory.old blocks.now given.items memory.new) }
        ensures error { IfErr result (λ error. (name : ℕ)
            × AnswerOfLentFails name (result_fields (function_type self.now.types.now self.now.func).result) area
            (map value_of values.now) memory.old blocks.now error memory.new) }
    {
        let mut target = Lent::new(memory, blocks);
        let done = self.put(area, values, &mut target);
        let left = target.left().len();
        match done {
            Ok(given) => Ok(given),
            Err(fault) => Err(broken_off(fault, blocks.len(), left)),
        }
    }

    /// Puts the result into a guest's memory: flat, or to the return area's address, which is tested first.
    fn put<G: Guest>(&self, area: u32, values: &[Val], guest: &mut G) -> Result<Flats, Fault>
        requires within { ∥ AreWithin self.now.types.now ∥₁ }
        requires function { IsFunction self.now.types.now self.now.func }
        requires typed { HaveTypes (map value_of values.now)
            (result_fields (function_type self.now.types.now self.now.func).result) }
        ensures given { IfOk result (λ given. IsAnswered G.allocates
            (result_fields (function_type self.now.types.now self.now.func).result) area (map value_of values.now)
            (G.memory guest.old) given.items (G.memory guest.new)) }
        ensures fault { IfErr result (λ fault. AnswerFails G.allocates
            (result_fields (function_type self.now.types.now self.now.func).result) area (map value_of values.now)
            (G.memory guest.old) fault (G.memory guest.new)) }
    {
        let (resolve, layouts) = (self.types.resolve(), self.types.layouts());
        let Some(ty) = result_type(resolve, self.func) else {
            return Ok(Flats::new());
        };
        let Some(_) = self.types.kinds_within(&[ty], 1) else {
            return match store(resolve, layouts, ty, &values[0], guest, area) {
                Ok(()) => Ok(Flats::new()),
                Err(fault) => Err(fault),
            };
        };
        lower(resolve, layouts, &[ty], values, guest)
    }
}
