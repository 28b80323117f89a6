//! The two halves of a call with core values in arrays.
ghost use Rattle.std.specs.Prelude.{◌≡◌, ◌⊎◌, ◌≤◌, ◌<◌, List, [], IfOk, IfErr, OnOk, IsTrue, length, map};
ghost use Rattle.layout.specs.Layout.{AreWithin};
ghost use Rattle.tables.specs.Closed.{IsFunction, function_type};
ghost use Rattle.tables.specs.declared.tables.FunctionId.{FunctionId};
ghost use Rattle.host_calls.specs.Values.{flat_of};
ghost use Rattle.host_calls.specs.declared.value.Value.{Value};
ghost use Rattle.adapter.specs.Plain.{AreOwn, PassAsTheyAre};
ghost use Rattle.canonical_abi.specs.Types.{result_fields};
ghost use Rattle.canonical_abi.specs.Call.{KindsFit};
ghost use Rattle.canonical_abi.specs.declared.trap.Step.TheVariants.{LiftArgs};
ghost use Rattle.host_calls.specs.Calling.{AnswerFits, AreTooMany, AreOtherKinds, IsOtherAnswer, of_half, EnterDone};
ghost use Rattle.host_calls.specs.Calling.{LeaveDone, EnterAsks, LeaveAsks};

use crate::error::CallError;
use crate::half::{Half, NOWHERE};
use crate::half_error::HalfError;
use crate::plain::{are_plain, is_plain_answer};
use crate::value::{MAX_VALUES, Value, put_flats, tell, tell_values};
use adapter::{Link, Request, Unasked};
use arrayvec::ArrayVec;
use canonical_abi::{Fault, Flat, Step, Trap, TrapKind};
use lift_lower::{Flats, Types, are_kinds};
use memory::{Lent, can_lend};
use tables::FunctionId;

/// A list for few flat values, as most calls have them: a longer one takes longer to make.
type Few = ArrayVec<Flat, 4>;

/// The function of this number.
pub fn function_of(types: &Types, number: u32) -> Result<FunctionId, CallError>
    ensures number { IfOk result (λ f. f.0 ≡ number) }
    ensures function { IfOk result (IsFunction types.now) }
    ensures none { IfErr result (λ e. (e ≡ CallError.NoFunction)
        × ((f : FunctionId) → f.0 ≡ number → IsFunction types.now f → ⊥)) }
{
    let func = FunctionId(number);
    if types.resolve().is_function(func) {
        return Ok(func);
    }
    Err(CallError::NoFunction)
}

/// K8 in this step: core values of another number or of other kinds than a signature's.
fn core_signature(step: Step) -> CallError
    ensures { result ≡ CallError.Fault (Fault.Trap (record { kind = TrapKind.CoreSignature; step = step })) }
{
    CallError::Fault(Fault::Trap(Trap {
        kind: TrapKind::CoreSignature,
        step,
    }))
}

/// Puts core values as flat values where there were none; a trap of their number where they are more than any core
/// function takes.
fn put_values(values: &[Value], flats: &mut Flats, step: Step) -> Result<(), CallError>
    requires empty { flats.old.items ≡ [] }
    ensures ok { OnOk result (flats.new.items ≡ map flat_of values.now) }
    ensures few { OnOk result (length values.now ≤ 17) }
    ensures many { IfErr result (AreTooMany values.now step) }
{
    if put_flats(values, flats) {
        return Ok(());
    }
    Err(core_signature(step))
}

/// Why a half was broken off.
pub fn of_half(error: HalfError) -> CallError
    ensures { result ≡ of_half error }
{
    match error {
        HalfError::OtherBlock(index) => CallError::OtherBlock(index),
        HalfError::Fault(fault) => CallError::Fault(fault),
    }
}

/// Tests that core values are those of the function's signature, by their number and kinds.
fn fit(types: &Types, func: FunctionId, flats: &[Flat], step: Step) -> Result<(), CallError>
    requires function { IsFunction types.now func }
    ensures ok { OnOk result (KindsFit (function_type types.now func) flats.now) }
    ensures other { IfErr result (AreOtherKinds (function_type types.now func) flats.now step) }
{
    if types.layouts().takes(func, flats) {
        return Ok(());
    }
    Err(core_signature(step))
}

/// Tests that core values of an answer are those of the core function's signature, by their number and kinds.
fn fit_answer(types: &Types, func: FunctionId, answer: &[Flat]) -> Result<(), CallError>
    requires function { IsFunction types.now func }
    ensures ok { OnOk result (AnswerFits (function_type types.now func) answer.now) }
    ensures other { IfErr result (IsOtherAnswer (function_type types.now func) answer.now) }
{
    let kind = types.layouts().lifted_result(func);
    if are_kinds(kind.as_slice(), answer) {
        return Ok(());
    }
    Err(core_signature(Step::LiftResult))
}

/// Tests that core values are those of a whole call, the return area's address behind the arguments: K8 in `lift-args`
/// if they are of another number or kind.
pub fn begin(types: &Types, func: FunctionId, flats: &[Value]) -> Result<(), CallError>
    requires function { IsFunction types.now func }
    ensures ok { OnOk result (KindsFit (function_type types.now func) (map flat_of flats.now)) }
    ensures few { OnOk result (length flats.now ≤ 17) }
    ensures err { IfErr result (λ e. AreTooMany flats.now LiftArgs e
        ⊎ AreOtherKinds (function_type types.now func) (map flat_of flats.now) LiftArgs e) }
{
    let mut values = Flats::new();
    put_values(flats, &mut values, Step::LiftArgs)?;
    fit(types, func, values.as_slice(), Step::LiftArgs)
}

/// Tests that an array has room for all core values of a function.
pub fn room_in(values: &[Value]) -> Result<(), CallError>
    ensures ok { IfOk result (λ _. 17 ≤ length values.now) }
    ensures room { IfErr result (λ e. (e ≡ CallError.NoRoom 17) × (length values.now < 17)) }
{
    if values.len() < MAX_VALUES {
        return Err(CallError::NoRoom(MAX_VALUES));
    }
    Ok(())
}

impl Half<'_> {
    /// The first half of a call, of core values that cross as they are, where no block was granted.
    fn enter_plain(
        &self,
        flats: &[Value],
        caller: &mut [u8],
        callee: &mut [u8],
        handed: &mut [Value],
    ) -> Result<usize, CallError>
        requires plain { PassAsTheyAre (function_type self.now.types.now self.now.func) (map flat_of flats.now) }
        requires kinds { KindsFit (function_type self.now.types.now self.now.func) (map flat_of flats.now) }
        requires none { self.now.blocks.now ≡ [] }
        requires room { 17 ≤ length handed.old }
        ensures done { EnterDone (function_type self.now.types.now self.now.func) flats.now caller.old callee.old
            self.now.blocks.now handed.old result callee.new handed.new }
        ensures same_caller { caller.new ≡ caller.old }
    {
        if u32::try_from(caller.len()).is_err() {
            return Err(CallError::BadBlock);
        }
        if u32::try_from(callee.len()).is_err() {
            return Err(CallError::BadBlock);
        }
        tell_values(flats, handed);
        Ok(flats.len())
    }

    /// The first half of a call, of flat values: what `enter` does of core values that are these.
    fn enter_values(
        &self,
        flats: &[Flat],
        caller: &mut [u8],
        callee: &mut [u8],
        handed: &mut [Value],
    ) -> Result<usize, CallError>
        requires within { ∥ AreWithin self.now.types.now ∥₁ }
        requires function { IsFunction self.now.types.now self.now.func }
        requires room { 17 ≤ length handed.old }
        ensures done { (values : List Value) → flats.now ≡ map flat_of values
            → EnterDone (function_type self.now.types.now self.now.func) values caller.old callee.old
            self.now.blocks.now handed.old result callee.new handed.new }
        ensures same_caller { caller.new ≡ caller.old }
    {
        fit(self.types, self.func, flats, Step::LiftArgs)?;
        if u32::try_from(caller.len()).is_err() {
            return Err(CallError::BadBlock);
        }
        if !can_lend(self.alloc, callee.len(), &NOWHERE, self.blocks)? {
            return Err(CallError::BadBlock);
        }
        let mut given = Flats::new();
        match self.enter_flats(flats, caller, callee, &mut given) {
            Ok(()) => {
                let count = given.len();
                tell(given.as_slice(), handed);
                Ok(count)
            }
            Err(error) => Err(of_half(error)),
        }
    }

    /// The first half of a call: puts the arguments into the callee's blocks, and tells the core values for its core
    /// function at the front of `handed`, which has room for 17 whatever the function. Answers how many they are.
    /// `flats` are those of a whole call, the return area's address behind the arguments. The caller is only read. 71
    /// if there is no room; K8 if the values are of another number or kind; 72 if the blocks can't be handed out or the
    /// caller has 2^32 bytes or more; 66 if the blocks don't rise and no memory is left to test them; 73 if a block has
    /// another size or alignment than was asked for, and the blocks before it were written to; otherwise a trap.
    pub fn enter(
        &self,
        flats: &[Value],
        caller: &mut [u8],
        callee: &mut [u8],
        handed: &mut [Value],
    ) -> Result<usize, CallError>
        requires within { ∥ AreWithin self.now.types.now ∥₁ }
        requires function { IsFunction self.now.types.now self.now.func }
        ensures done { EnterDone (function_type self.now.types.now self.now.func) flats.now caller.old callee.old
            self.now.blocks.now handed.old result callee.new handed.new }
        ensures same_caller { caller.new ≡ caller.old }
    {
        room_in(handed)?;
        if self.blocks.is_empty() && are_plain(self.types, self.func, flats) {
            return self.enter_plain(flats, caller, callee, handed);
        }
        let mut few = Few::new();
        if put_flats(flats, &mut few) {
            return self.enter_values(few.as_slice(), caller, callee, handed);
        }
        let mut values = Flats::new();
        put_values(flats, &mut values, Step::LiftArgs)?;
        self.enter_values(values.as_slice(), caller, callee, handed)
    }

    /// Whether an answer crosses as it is, and no block was granted.
    fn is_unasked(&self, answer: &[Value]) -> bool
        requires function { IsFunction self.now.types.now self.now.func }
        ensures own { IsTrue result → AreOwn (result_fields (function_type self.now.types.now self.now.func).result)
            (map flat_of answer.now) }
        ensures few { IsTrue result → length answer.now ≤ 1 }
        ensures none { IsTrue result → self.now.blocks.now ≡ [] }
    {
        self.blocks.is_empty() && is_plain_answer(self.types, self.func, answer)
    }

    /// The second half, of such an answer.
    fn leave_plain(
        &self,
        answer: &[Value],
        callee: &mut [u8],
        caller: &mut [u8],
        back: &mut [Value],
    ) -> Result<usize, CallError>
        requires room { 17 ≤ length back.old }
        requires none { self.now.blocks.now ≡ [] }
        requires own { AreOwn (result_fields (function_type self.now.types.now self.now.func).result)
            (map flat_of answer.now) }
        requires fits { AnswerFits (function_type self.now.types.now self.now.func) (map flat_of answer.now) }
        requires few { length answer.now ≤ 1 }
        ensures done { (values : List Value)
            → KindsFit (function_type self.now.types.now self.now.func) (map flat_of values)
            → LeaveDone (function_type self.now.types.now self.now.func) values callee.old answer.now caller.old
            self.now.blocks.now back.old result caller.new back.new }
        ensures same_callee { callee.new ≡ callee.old }
    {
        if u32::try_from(callee.len()).is_err() {
            return Err(CallError::BadBlock);
        }
        if u32::try_from(caller.len()).is_err() {
            return Err(CallError::BadBlock);
        }
        tell_values(answer, back);
        Ok(answer.len())
    }

    /// The second half, of flat values: what `leave` does of core values that are these.
    fn leave_values(
        &self,
        flats: &[Flat],
        answer: &[Flat],
        callee: &mut [u8],
        caller: &mut [u8],
        back: &mut [Value],
    ) -> Result<usize, CallError>
        requires within { ∥ AreWithin self.now.types.now ∥₁ }
        requires function { IsFunction self.now.types.now self.now.func }
        requires room { 17 ≤ length back.old }
        requires kinds { KindsFit (function_type self.now.types.now self.now.func) flats.now }
        ensures done { (values answers : List Value) → flats.now ≡ map flat_of values → answer.now ≡ map flat_of answers
            → LeaveDone (function_type self.now.types.now self.now.func) values callee.old answers caller.old
            self.now.blocks.now back.old result caller.new back.new }
        ensures same_callee { callee.new ≡ callee.old }
    {
        fit_answer(self.types, self.func, answer)?;
        if u32::try_from(callee.len()).is_err() {
            return Err(CallError::BadBlock);
        }
        if !self.can_return(flats, caller.len())? {
            return Err(CallError::BadBlock);
        }
        let mut given = Flats::new();
        match self.leave_flats(flats, answer, callee, caller, &mut given) {
            Ok(()) => {
                let count = given.len();
                tell(given.as_slice(), back);
                Ok(count)
            }
            Err(error) => Err(of_half(error)),
        }
    }

    /// The second half, of flat values and of the core values of the answer.
    fn leave_answer(
        &self,
        flats: &[Flat],
        answer: &[Value],
        callee: &mut [u8],
        caller: &mut [u8],
        back: &mut [Value],
    ) -> Result<usize, CallError>
        requires within { ∥ AreWithin self.now.types.now ∥₁ }
        requires function { IsFunction self.now.types.now self.now.func }
        requires room { 17 ≤ length back.old }
        ensures done { (values : List Value) → flats.now ≡ map flat_of values
            → LeaveDone (function_type self.now.types.now self.now.func) values callee.old answer.now caller.old
            self.now.blocks.now back.old result caller.new back.new }
        ensures same_callee { callee.new ≡ callee.old }
    {
        fit(self.types, self.func, flats, Step::LowerResult)?;
        if self.is_unasked(answer) {
            return self.leave_plain(answer, callee, caller, back);
        }
        let mut few = Few::new();
        if put_flats(answer, &mut few) {
            return self.leave_values(flats, few.as_slice(), callee, caller, back);
        }
        let mut answers = Flats::new();
        put_values(answer, &mut answers, Step::LiftResult)?;
        self.leave_values(flats, answers.as_slice(), callee, caller, back)
    }

    /// The second half: puts what the core function answered into the caller's blocks and its return area, and tells
    /// the core values for the caller at the front of `back`, which has room for 17. Answers how many they are. `flats`
    /// are those that the first half was given: K8 in `lower-result` if they are not of the function's kinds, and then
    /// in `lift-result` if those of the answer are not, before the blocks are tested. The callee is only read. Refused
    /// as the first half is, and by 72, too, if a block meets the return area.
    pub fn leave(
        &self,
        flats: &[Value],
        answer: &[Value],
        callee: &mut [u8],
        caller: &mut [u8],
        back: &mut [Value],
    ) -> Result<usize, CallError>
        requires within { ∥ AreWithin self.now.types.now ∥₁ }
        requires function { IsFunction self.now.types.now self.now.func }
        ensures done { LeaveDone (function_type self.now.types.now self.now.func) flats.now callee.old answer.now
            caller.old self.now.blocks.now back.old result caller.new back.new }
        ensures same_callee { callee.new ≡ callee.old }
    {
        room_in(back)?;
        if are_plain(self.types, self.func, flats) && self.is_unasked(answer) {
            return self.leave_plain(answer, callee, caller, back);
        }
        let mut few = Few::new();
        if put_flats(flats, &mut few) {
            return self.leave_answer(few.as_slice(), answer, callee, caller, back);
        }
        let mut values = Flats::new();
        put_values(flats, &mut values, Step::LowerResult)?;
        self.leave_answer(values.as_slice(), answer, callee, caller, back)
    }
}

/// Tells what the first half will ask the callee for, in its order: as many requests as there is room for, and how many
/// there are in all. The slots behind them stay. K8 if the values are of another number or kind; 72 if the caller has
/// 2^32 bytes or more; then the trap of the arguments, or 76 if they ask for more than `limit` bytes. After an error
/// the slots of `requests` say nothing.
pub fn enter_requests(
    types: &Types,
    func: FunctionId,
    flats: &[Value],
    caller: &mut [u8],
    requests: &mut [Request],
    limit: u64,
) -> Result<usize, CallError>
    requires within { ∥ AreWithin types.now ∥₁ }
    requires function { IsFunction types.now func }
    ensures done { EnterAsks (function_type types.now func) flats.now caller.old limit requests.old result
        requests.new }
    ensures same_caller { caller.new ≡ caller.old }
{
    let mut values = Flats::new();
    put_values(flats, &mut values, Step::LiftArgs)?;
    fit(types, func, values.as_slice(), Step::LiftArgs)?;
    if u32::try_from(caller.len()).is_err() {
        return Err(CallError::BadBlock);
    }
    let source = Lent::new(caller, &[]);
    let mut link = Link::new(types.resolve(), types.layouts());
    match link.enter_requests(func, values.as_slice(), &source, requests, limit) {
        Ok(count) => Ok(count),
        Err(Unasked::Fault(fault)) => Err(CallError::Fault(fault)),
        Err(Unasked::AboveLimit) => Err(CallError::AboveLimit),
    }
}

/// Tells what the second half will ask the caller for, in the same way: of what the core function answered, which lies
/// in the callee.
pub fn leave_requests(
    types: &Types,
    func: FunctionId,
    answer: &[Value],
    callee: &mut [u8],
    requests: &mut [Request],
    limit: u64,
) -> Result<usize, CallError>
    requires within { ∥ AreWithin types.now ∥₁ }
    requires function { IsFunction types.now func }
    ensures done { LeaveAsks (function_type types.now func) answer.now callee.old limit requests.old result
        requests.new }
    ensures same_callee { callee.new ≡ callee.old }
{
    let mut answers = Flats::new();
    put_values(answer, &mut answers, Step::LiftResult)?;
    fit_answer(types, func, answers.as_slice())?;
    if u32::try_from(callee.len()).is_err() {
        return Err(CallError::BadBlock);
    }
    let source = Lent::new(callee, &[]);
    let mut link = Link::new(types.resolve(), types.layouts());
    match link.leave_requests(func, answers.as_slice(), &source, requests, limit) {
        Ok(count) => Ok(count),
        Err(Unasked::Fault(fault)) => Err(CallError::Fault(fault)),
        Err(Unasked::AboveLimit) => Err(CallError::AboveLimit),
    }
}
