//! Calls of the package that a handle stands for.
ghost use Rattle.std.specs.Prelude.{◌≡◌, Result};
ghost use Rattle.std.specs.Option.{option_map};
ghost use Rattle.canonical_abi.specs.Types.{result_fields};
ghost use Rattle.host_calls.specs.Calling.{EnterDone, LeaveDone, EnterAsks, LeaveAsks};
ghost use Rattle.host_calls.specs.Parts.{PartsDone};
ghost use Rattle.host_calls.specs.Signatures.{KindsDone};
ghost use Rattle.c_border.specs.CallObject.{BeginsCall};
ghost use Rattle.witcall_c.specs.Calls.{CallsFunction, held_package, kinds_of_part};

use crate::held::{Target, function};
use adapter::Request;
use c_border::Call;
use host_calls::{CallError, Half, Part, Value};
use memory::Block;
use std::alloc::Global;

/// Begins a call of the function of this number: tests its core values, and keeps them.
pub fn begin(
    held: &Target,
    number: u32,
    flats: &[Value],
    call: &mut Call,
) -> Result<usize, CallError>
    ensures { CallsFunction (held_package (option_map (λ held. held.value) held.now)) number
        (λ f done. BeginsCall f number flats.now call.old done call.new) (call.new ≡ call.old) result }
{
    let (types, func) = function(held, number)?;
    host_calls::begin(&types, func, flats)?;
    call.keep(number, flats);
    Ok(0)
}

/// A half of a call of the function of this number, with the core values of the whole call.
#[derive(Drop)]
pub struct NumberedHalf<'a> {
    pub alloc: Global,
    pub number: u32,
    pub flats: &'a [Value],
    /// The blocks that were granted for this half before.
    pub blocks: &'a [Block],
}

impl NumberedHalf<'_> {
    /// The first half.
    pub fn enter(
        &self,
        held: &Target,
        caller: &mut [u8],
        callee: &mut [u8],
        handed: &mut [Value],
    ) -> Result<usize, CallError>
        ensures done { CallsFunction (held_package (option_map (λ held. held.value) held.now)) self.now.number
            (λ f done. EnterDone f self.now.flats.now caller.old callee.old self.now.blocks.now handed.old done
            callee.new handed.new)
            ((callee.new ≡ callee.old) × (handed.new ≡ handed.old)) result }
        ensures same_caller { caller.new ≡ caller.old }
    {
        let (types, func) = function(held, self.number)?;
        let half = Half {
            alloc: self.alloc,
            types: &types,
            func,
            blocks: self.blocks,
        };
        half.enter(self.flats, caller, callee, handed)
    }

    /// The second half.
    pub fn leave(
        &self,
        held: &Target,
        answer: &[Value],
        callee: &mut [u8],
        caller: &mut [u8],
        back: &mut [Value],
    ) -> Result<usize, CallError>
        ensures done { CallsFunction (held_package (option_map (λ held. held.value) held.now)) self.now.number
            (λ f done. LeaveDone f self.now.flats.now callee.old answer.now caller.old self.now.blocks.now back.old done
            caller.new back.new)
            ((caller.new ≡ caller.old) × (back.new ≡ back.old)) result }
        ensures same_callee { callee.new ≡ callee.old }
    {
        let (types, func) = function(held, self.number)?;
        let half = Half {
            alloc: self.alloc,
            types: &types,
            func,
            blocks: self.blocks,
        };
        half.leave(self.flats, answer, callee, caller, back)
    }
}

/// What the first half will ask for, of `limit` bytes at most.
pub fn enter_requests(
    held: &Target,
    number: u32,
    flats: &[Value],
    caller: &mut [u8],
    requests: &mut [Request],
    limit: u64,
) -> Result<usize, CallError>
    ensures done { CallsFunction (held_package (option_map (λ held. held.value) held.now)) number
        (λ f done. EnterAsks f flats.now caller.old limit requests.old done requests.new) (requests.new ≡ requests.old)
        result }
    ensures same_caller { caller.new ≡ caller.old }
{
    let (types, func) = function(held, number)?;
    host_calls::enter_requests(&types, func, flats, caller, requests, limit)
}

/// What the second half will ask for, of `limit` bytes at most.
pub fn leave_requests(
    held: &Target,
    number: u32,
    answer: &[Value],
    callee: &mut [u8],
    requests: &mut [Request],
    limit: u64,
) -> Result<usize, CallError>
    ensures done { CallsFunction (held_package (option_map (λ held. held.value) held.now)) number
        (λ f done. LeaveAsks f answer.now callee.old limit requests.old done requests.new) (requests.new ≡ requests.old)
        result }
    ensures same_callee { callee.new ≡ callee.old }
{
    let (types, func) = function(held, number)?;
    host_calls::leave_requests(&types, func, answer, callee, requests, limit)
}

/// How the parameters lie in memory.
pub fn parameter_parts(held: &Target, number: u32, out: &mut [Part]) -> Result<usize, CallError>
    ensures { CallsFunction (held_package (option_map (λ held. held.value) held.now)) number
        (λ f done. PartsDone f.params out.old done out.new) (out.new ≡ out.old) result }
{
    let (types, func) = function(held, number)?;
    host_calls::parameter_parts(&types, func, out)
}

/// How the result lies in memory.
pub fn result_part(held: &Target, number: u32, out: &mut [Part]) -> Result<usize, CallError>
    ensures { CallsFunction (held_package (option_map (λ held. held.value) held.now)) number
        (λ f done. PartsDone (result_fields f.result) out.old done out.new) (out.new ≡ out.old) result }
{
    let (types, func) = function(held, number)?;
    host_calls::result_part(&types, func, out)
}

/// A part of the core signatures of a function: of the callee's core function, or of the caller's import.
#[derive(Drop)]
pub enum SignaturePart {
    LiftedParams,
    LiftedResult,
    LoweredParams,
    LoweredResult,
}

/// The kinds of a part of the core signatures.
pub fn kinds(
    held: &Target,
    number: u32,
    part: SignaturePart,
    out: &mut [u32],
) -> Result<usize, CallError>
    ensures { CallsFunction (held_package (option_map (λ held. held.value) held.now)) number
        (λ f done. KindsDone (kinds_of_part part f) out.old done out.new) (out.new ≡ out.old) result }
{
    let (types, func) = function(held, number)?;
    match part {
        SignaturePart::LiftedParams => host_calls::lifted_params(&types, func, out),
        SignaturePart::LiftedResult => host_calls::lifted_result(&types, func, out),
        SignaturePart::LoweredParams => host_calls::lowered_params(&types, func, out),
        SignaturePart::LoweredResult => host_calls::lowered_result(&types, func, out),
    }
}
