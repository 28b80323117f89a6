//! The call itself.
ghost use Rattle.std.specs.Prelude.{◌≡◌, ◌≢◌, ◌+◌, ◌*◌, ◌≤◌, min, [], Err, Some, length, map, IfOk, OnOk, IfErr};
ghost use Rattle.adapter.specs.Asking.{IsToldAhead};
ghost use Rattle.canonical_abi.specs.Call.{Calls, Ways, exact, AllowsSameRuns, AllowsSamePosts, KindsFit};
ghost use Rattle.canonical_abi.specs.Few.{AreFewNodes};
ghost use Rattle.canonical_abi.specs.Flat.{Denotes, DenotesFault};
ghost use Rattle.canonical_abi.specs.Halves.{as_state, HasEntered, EntryFails, HasReturned, ReturnFails, RunsBetween};
ghost use Rattle.canonical_abi.specs.Halves.{CallsInHalves};
ghost use Rattle.canonical_abi.specs.Headline.{IsLinkPromised, AreArguments, IsArgumentFault};
ghost use Rattle.canonical_abi.specs.Layout.{lifted_signature, max_flat_params, max_flat_results, size};
ghost use Rattle.canonical_abi.specs.Reading.{kind_of};
ghost use Rattle.canonical_abi.specs.Requests.{params_requests, fields_requests};
ghost use Rattle.canonical_abi.specs.Tame.{IsLinkPromisedLive};
ghost use Rattle.canonical_abi.specs.Types.{record_type, result_fields};
ghost use Rattle.canonical_abi.specs.declared.trap.Step.TheVariants.{LiftArgs, LiftResult};
ghost use Rattle.tables.specs.Closed.{function_type, IsFunction};
ghost use Rattle.layout.specs.Layout.{layouts_of, AreWithin};
ghost use Rattle.adapter.specs.Ahead.{arguments_asked, result_asked, HalfTellsLimit};
ghost use Rattle.adapter.specs.Asked.{IsUnasked};
ghost use Rattle.adapter.specs.Carrying.{listed_answer};
ghost use Rattle.adapter.specs.Leaving.{LeaveFails};
ghost use Rattle.adapter.specs.Linked.{TellsNodes};

use crate::arguments::pass_arguments;
use crate::asking::Request;
use crate::body::Body;
use crate::fault::trap;
use crate::invocation::Invocation;
use crate::nested::nested_arguments;
use crate::plain::{is_plain_answer, plain_arguments, put};
use crate::requests::{Unasked, ask_answer, ask_arguments};
use crate::results::pass_answer;
use arrayvec::ArrayVec;
use canonical_abi::{Fault, Flat, Guest, Step, TrapKind};
use crossing::Walk;
use layout::Layouts;
use std::marker::Model;
use tables::{FunctionId, Resolve};
use values::{FlatResults, Flats, Types, flat_results};

/// Calls functions of one component from another, whose package is the same.
#[derive(Drop)]
pub struct Link<'a> {
    resolve: &'a Resolve,
    layouts: &'a Layouts,
    there: u64,
    back: u64,
    ghost laid_out: { layouts.now ≡ layouts_of resolve.now },
    ghost within: { ∥ AreWithin resolve.now ∥₁ },
}

impl<'a> Model for Link<'a> {
    ghost use Rattle.adapter.specs.Linked.{Linked};

    ghost Value = { Linked };

    ghost view = { λ l. record { resolve = l.resolve.now; layouts = l.layouts.now; there = l.there; back = l.back } };
}

impl<'a> Link<'a> {
    /// A link over a package and its layouts.
    pub fn new(resolve: &'a Resolve, layouts: &'a Layouts) -> Link<'a>
        requires laid_out { layouts.now ≡ layouts_of resolve.now }
        requires within { ∥ AreWithin resolve.now ∥₁ }
        ensures package { result.resolve ≡ resolve.now }
        ensures layouts { result.layouts ≡ layouts.now }
        ensures there { result.there ≡ 0 }
        ensures back { result.back ≡ 0 }
    {
        Link {
            resolve,
            layouts,
            there: 0,
            back: 0,
        }
    }

    /// How many nodes of values the last call visited: on the way of its arguments, and on that of its result. Each
    /// node of the values counts once, a record that is spilled aside; if a way was broken off, those up to the one
    /// that was at fault or whose block was refused count, and none if it was not begun, or ended by the tests of
    /// kinds and addresses that come before its nodes. Each is at most 64 times the bytes that were granted on its way,
    /// the return area among them, and sixteen more. A count stays at 2^64 - 1 once it is there.
    pub fn nodes(&self) -> (u64, u64)
        ensures there { result.0 ≡ self.now.there }
        ensures back { result.1 ≡ self.now.back }
    {
        (self.there, self.back)
    }

    /// The first half of a call, for a host that runs the core function itself: the arguments are lifted from the
    /// caller, which is only read, and lowered into the callee. Puts the flat values for the core function into
    /// `handed`, whatever that held. A fault is in `lift-args` or `lower-args`; then `handed` says nothing, and nothing
    /// may be run. With one run of the core function, `leave` and one run of post-return this is a call
    /// (`laws::halves_are_a_call` of `canonical_abi`), and keeps its promise. `nodes` then counts the nodes of this
    /// half, and none of the other. Takes no memory of the host.
    pub fn enter<C: Guest, E: Guest>(
        &mut self,
        call: &Invocation,
        caller: &C,
        callee: &mut E,
        handed: &mut Flats,
    ) -> Result<(), Fault>
        requires function { IsFunction self.old.resolve call.now.func }
        ensures entered { OnOk result (HasEntered E.allocates (function_type self.old.resolve call.now.func)
            call.now.flats.now (C.memory caller.now).bytes
            (E.memory callee.old) handed.new.items (E.memory callee.new) self.new.there) }
        ensures fault { IfErr result (λ fault. EntryFails E.allocates (function_type self.old.resolve call.now.func)
            call.now.flats.now (C.memory caller.now).bytes
            (E.memory callee.old) fault (E.memory callee.new) self.new.there) }
        ensures no_memory { result ≢ Err Fault.NoMemory }
        ensures back { self.new.back ≡ 0 }
        ensures same_package { self.new.resolve ≡ self.old.resolve }
        ensures same_layouts { self.new.layouts ≡ self.old.layouts }
    {
        self.there = 0;
        self.back = 0;
        handed.clear();
        let Some(arguments) = plain_arguments(
            &Types::new(self.resolve, self.layouts),
            call.func,
            call.flats,
        ) else {
            return self.enter_nested(call, caller, callee, handed);
        };
        put(arguments, handed);
        self.there = handed.len() as u64;
        // A memory's length is a number of 32 bits.
        let _len = callee.len();
        Ok(())
    }

    /// The same for core values that aren't all of primitives; `handed` was empty.
    fn enter_nested<C: Guest, E: Guest>(
        &mut self,
        call: &Invocation,
        caller: &C,
        callee: &mut E,
        handed: &mut Flats,
    ) -> Result<(), Fault>
        requires function { IsFunction self.old.resolve call.now.func }
        requires empty { handed.old.items ≡ [] }
        ensures entered { OnOk result (HasEntered E.allocates (function_type self.old.resolve call.now.func)
            call.now.flats.now (C.memory caller.now).bytes
            (E.memory callee.old) handed.new.items (E.memory callee.new) self.new.there) }
        ensures fault { IfErr result (λ fault. EntryFails E.allocates (function_type self.old.resolve call.now.func)
            call.now.flats.now (C.memory caller.now).bytes
            (E.memory callee.old) fault (E.memory callee.new) self.new.there) }
        ensures no_memory { result ≢ Err Fault.NoMemory }
        ensures back { self.new.back ≡ 0 }
        ensures same_package { self.new.resolve ≡ self.old.resolve }
        ensures same_layouts { self.new.layouts ≡ self.old.layouts }
    {
        let mut there: u64 = 0;
        let Some(arguments) = nested_arguments(
            &Types::new(self.resolve, self.layouts),
            call.func,
            call.flats,
            &mut there,
        ) else {
            return self.enter_walked(call, caller, callee, handed);
        };
        put(arguments, handed);
        self.there = there;
        self.back = 0;
        // A memory's length is a number of 32 bits.
        let _lens = (caller.len(), callee.len());
        Ok(())
    }

    /// The same for core values that are walked over; `handed` was empty.
    fn enter_walked<C: Guest, E: Guest, const N: usize>(
        &mut self,
        call: &Invocation,
        caller: &C,
        callee: &mut E,
        handed: &mut ArrayVec<Flat, N>,
    ) -> Result<(), Fault>
        requires function { IsFunction self.old.resolve call.now.func }
        requires capacity { N ≤ 17 }
        requires room { min 17 (length call.now.flats.now) ≤ N }
        requires empty { handed.old.items ≡ [] }
        ensures entered { OnOk result (HasEntered E.allocates (function_type self.old.resolve call.now.func)
            call.now.flats.now (C.memory caller.now).bytes
            (E.memory callee.old) handed.new.items (E.memory callee.new) self.new.there) }
        ensures fault { IfErr result (λ fault. EntryFails E.allocates (function_type self.old.resolve call.now.func)
            call.now.flats.now (C.memory caller.now).bytes
            (E.memory callee.old) fault (E.memory callee.new) self.new.there) }
        ensures no_memory { result ≢ Err Fault.NoMemory }
        ensures back { self.new.back ≡ 0 }
        ensures same_package { self.new.resolve ≡ self.old.resolve }
        ensures same_layouts { self.new.layouts ≡ self.old.layouts }
    {
        self.there = 0;
        self.back = 0;
        // A memory's length is a number of 32 bits.
        let _len = caller.len();
        let walk = Walk {
            types: &Types::new(self.resolve, self.layouts),
            source: caller.bytes(),
        };
        pass_arguments(&walk, call, callee, handed, &mut self.there)
    }

    /// What `enter` will ask the callee for, in its order, without it: the first requests are written to the slots, as
    /// many as there are, and the answer is how many there are in all, as far as 64 bits count. So a host may ask with
    /// no slot first, and have the blocks at hand when `enter` asks for them. If the flat values denote no arguments
    /// over the caller, it returns the trap in `lift-args` that `enter` comes to if the callee refuses nothing
    /// before, and the slots say nothing. Takes no memory of the host. `nodes` then counts as the first at most as many
    /// values as were visited, whatever the answer is: no element that asks for nothing whatever its bytes are counts.
    pub fn enter_requests<C: Guest>(
        &mut self,
        func: FunctionId,
        flats: &[Flat],
        caller: &C,
        slots: &mut [Request],
        limit: u64,
    ) -> Result<usize, Unasked>
        requires function { IsFunction self.old.resolve func }
        ensures kinds { IfOk result (λ _. KindsFit (function_type self.old.resolve func) flats.now) }
        ensures told { let f = function_type self.old.resolve func in
            IfOk result (IsToldAhead (AreArguments f flats.now (C.memory caller.now))
            (params_requests max_flat_params f.params) limit slots.old slots.new) }
        ensures fault { let f = function_type self.old.resolve func in
            IfErr result (IsUnasked LiftArgs (AreArguments f flats.now (C.memory caller.now))
            (IsArgumentFault f flats.now (C.memory caller.now)) (params_requests max_flat_params f.params) limit) }
        ensures limit { let f = function_type self.old.resolve func in
            KindsFit f flats.now
            → HalfTellsLimit (arguments_asked f flats.now (C.memory caller.now).bytes) limit result }
        ensures few { self.new.there ≤ 64 * (limit + 16) }
        ensures each { IfOk result (λ count. count ≤ self.new.there + 1) }
        ensures back { self.new.back ≡ self.old.back }
        ensures same_package { self.new.resolve ≡ self.old.resolve }
        ensures same_layouts { self.new.layouts ≡ self.old.layouts }
    {
        let table = &Types::new(self.resolve, self.layouts);
        ask_arguments(table, func, flats, caller, slots, limit, &mut self.there)
    }

    /// What `leave` will ask the caller for, in the same way: for what the answer denotes over the callee, the return
    /// area aside, for which nothing is asked. If it denotes nothing, the answer is the trap in `lift-result`.
    /// `nodes` then counts as the second at most as many values as were visited.
    pub fn leave_requests<E: Guest>(
        &mut self,
        func: FunctionId,
        answer: &[Flat],
        callee: &E,
        slots: &mut [Request],
        limit: u64,
    ) -> Result<usize, Unasked>
        requires function { IsFunction self.old.resolve func }
        ensures told { let fs = result_fields (function_type self.old.resolve func).result in
            IfOk result (IsToldAhead (Denotes max_flat_results fs (E.memory callee.now).bytes answer.now)
            (fields_requests fs) limit slots.old slots.new) }
        ensures fault { let fs = result_fields (function_type self.old.resolve func).result in
            IfErr result (IsUnasked LiftResult (Denotes max_flat_results fs (E.memory callee.now).bytes answer.now)
            (DenotesFault max_flat_results fs (E.memory callee.now).bytes answer.now) (fields_requests fs) limit) }
        ensures limit { let f = function_type self.old.resolve func in
            map kind_of answer.now ≡ (lifted_signature f).results
            → HalfTellsLimit (result_asked (result_fields f.result) (E.memory callee.now).bytes answer.now) limit
            result }
        ensures few { let f = function_type self.old.resolve func in self.new.back
            ≤ 64 * (limit + size (record_type (result_fields f.result)) + 16) }
        ensures each { IfOk result (λ count. count ≤ self.new.back) }
        ensures there { self.new.there ≡ self.old.there }
        ensures same_package { self.new.resolve ≡ self.old.resolve }
        ensures same_layouts { self.new.layouts ≡ self.old.layouts }
    {
        let table = &Types::new(self.resolve, self.layouts);
        ask_answer(table, func, answer, callee, slots, limit, &mut self.back)
    }

    /// The second half: what the core function answered is lifted from the callee, which is only read, and lowered into
    /// the caller. Puts the flat values for the caller into `back`, whatever that held. `call` is what `enter` was
    /// given. The kinds of its flat values are tested first: K8 in `lower-result` if they are not those of the
    /// function, with nothing asked for and no byte written. A fault is in `lift-result` or `lower-result`; then `back`
    /// says nothing, and post-return isn't run. `nodes` then counts the nodes of this half beside those of the first.
    /// Takes no memory of the host.
    pub fn leave<C: Guest, E: Guest>(
        &mut self,
        call: &Invocation,
        answer: &[Flat],
        caller: &mut C,
        callee: &E,
        back: &mut Flats,
    ) -> Result<(), Fault>
        requires function { IsFunction self.old.resolve call.now.func }
        ensures returned { OnOk result (HasReturned C.allocates (function_type self.old.resolve call.now.func)
            call.now.flats.now (E.memory callee.now).bytes answer.now
            (C.memory caller.old) back.new.items (C.memory caller.new) self.new.back) }
        ensures kinds { OnOk result (KindsFit (function_type self.old.resolve call.now.func) call.now.flats.now) }
        ensures fault { IfErr result (λ fault. LeaveFails C.allocates (function_type self.old.resolve call.now.func)
            call.now.flats.now (E.memory callee.now).bytes answer.now
            (C.memory caller.old) fault (C.memory caller.new) self.new.back) }
        ensures no_memory { result ≢ Err Fault.NoMemory }
        ensures no_shorter { OnOk result (length (C.memory caller.old).bytes ≤ length (C.memory caller.new).bytes) }
        ensures there { self.new.there ≡ self.old.there }
        ensures same_package { self.new.resolve ≡ self.old.resolve }
        ensures same_layouts { self.new.layouts ≡ self.old.layouts }
    {
        self.back = 0;
        back.clear();
        let types = &Types::new(self.resolve, self.layouts);
        if !types.layouts().takes(call.func, call.flats) {
            return Err(trap(TrapKind::CoreSignature, Step::LowerResult));
        }
        if !is_plain_answer(types, call.func, answer) {
            return self.leave_walked(call, answer, caller, callee, back);
        }
        put(answer, back);
        self.back = back.len() as u64;
        // A memory's length is a number of 32 bits.
        let _len = caller.len();
        Ok(())
    }

    /// The second half of a call whose core values have the kinds of its function, for an answer that is walked over;
    /// `back` was empty.
    fn leave_walked<C: Guest, E: Guest, const N: usize>(
        &mut self,
        call: &Invocation,
        answer: &[Flat],
        caller: &mut C,
        callee: &E,
        back: &mut ArrayVec<Flat, N>,
    ) -> Result<(), Fault>
        requires function { IsFunction self.old.resolve call.now.func }
        requires kinds { KindsFit (function_type self.old.resolve call.now.func) call.now.flats.now }
        requires capacity { N ≤ 17 }
        requires room { 1 ≤ N }
        requires empty { back.old.items ≡ [] }
        ensures returned { OnOk result (HasReturned C.allocates (function_type self.old.resolve call.now.func)
            call.now.flats.now (E.memory callee.now).bytes answer.now
            (C.memory caller.old) back.new.items (C.memory caller.new) self.new.back) }
        ensures fault { IfErr result (λ fault. ReturnFails C.allocates (function_type self.old.resolve call.now.func)
            call.now.flats.now (E.memory callee.now).bytes answer.now
            (C.memory caller.old) fault (C.memory caller.new) self.new.back) }
        ensures no_memory { result ≢ Err Fault.NoMemory }
        ensures no_shorter { OnOk result (length (C.memory caller.old).bytes ≤ length (C.memory caller.new).bytes) }
        ensures there { self.new.there ≡ self.old.there }
        ensures same_package { self.new.resolve ≡ self.old.resolve }
        ensures same_layouts { self.new.layouts ≡ self.old.layouts }
    {
        self.back = 0;
        // A memory's length is a number of 32 bits.
        let _len = callee.len();
        let walk = Walk {
            types: &Types::new(self.resolve, self.layouts),
            source: callee.bytes(),
        };
        pass_answer(&walk, call, answer, caller, back, &mut self.back)
    }

    /// Calls a function of the package: the flat values are lifted from the caller and lowered into the callee, the
    /// body makes one run on them, and its answer goes the same way back. Then its post-return runs, unless there was a
    /// trap. With honest guests within the limit and a live return area the callee finds exactly what the caller holds
    /// and is run once, and the caller then holds exactly its answer. With tame guests so, too, and no live byte is
    /// changed. A fault is the first, node by node: a source's fault or a refused request. No tree of values is made,
    /// and no memory of the host is taken. After a fault the link can be used again.
    pub fn call<C: Guest, E: Guest, B: Body<E>>(
        &mut self,
        func: FunctionId,
        flats: &[Flat],
        caller: &mut C,
        callee: &mut E,
        body: &mut B,
    ) -> Result<FlatResults, Fault>
        requires function { IsFunction self.old.resolve func }
        ensures call { (ways : Ways) × Calls
            (record {
              caller_allocates = C.allocates;
              callee_allocates = E.allocates;
              runs = B.runs body.old;
              posts = B.posts body.old;
            })
            exact
            (function_type self.old.resolve func)
            flats.now
            (record { caller = C.memory caller.old; callee = E.memory callee.old; body = B.state body.old })
            (listed_answer result)
            ways
            (record { caller = C.memory caller.new; callee = E.memory callee.new; body = B.state body.new })
            × TellsNodes ways self.new
            × AreFewNodes (function_type self.old.resolve func) ways }
        ensures promise { IsLinkPromised
            (record {
              caller_allocates = C.allocates;
              callee_allocates = E.allocates;
              runs = B.runs body.old;
              posts = B.posts body.old;
            })
            C.releases
            E.releases
            exact
            (function_type self.old.resolve func)
            flats.now
            (record { caller = C.memory caller.old; callee = E.memory callee.old; body = B.state body.old })
            (listed_answer result)
            (record { caller = C.memory caller.new; callee = E.memory callee.new; body = B.state body.new }) }
        ensures promise_live { IsLinkPromisedLive
            (record {
              caller_allocates = C.allocates;
              callee_allocates = E.allocates;
              runs = B.runs body.old;
              posts = B.posts body.old;
            })
            C.releases
            E.releases
            exact
            (function_type self.old.resolve func)
            flats.now
            (record { caller = C.memory caller.old; callee = E.memory callee.old; body = B.state body.old })
            (listed_answer result)
            (record { caller = C.memory caller.new; callee = E.memory callee.new; body = B.state body.new }) }
        ensures same_runs { AllowsSameRuns (B.runs body.old) (B.runs body.new) }
        ensures same_posts { AllowsSamePosts (B.posts body.old) (B.posts body.new) }
        ensures no_memory { result ≢ Err Fault.NoMemory }
        ensures no_shorter { IfOk result (λ _. length (C.memory caller.old).bytes
            ≤ length (C.memory caller.new).bytes) }
        ensures same_package { self.new.resolve ≡ self.old.resolve }
        ensures same_layouts { self.new.layouts ≡ self.old.layouts }
    {
        // A link's package is within the limits of layouts.
        let _resolve = self.resolve;
        let call = &Invocation { func, flats };
        let ran = self.run(call, caller, callee, body)?;
        let answer = ran.as_slice();
        let given = self.give(call, answer, caller, callee)?;
        let Ok(()) = body.post_return(callee, answer) else {
            return Err(trap(TrapKind::Body, Step::Post));
        };
        Ok(given)
    }

    /// The first half of a call and the body's run: what the body answered. Arguments that cross as they are go to the
    /// body as they are.
    #[inline(always)]
    fn run<C: Guest, E: Guest, B: Body<E>>(
        &mut self,
        call: &Invocation,
        caller: &C,
        callee: &mut E,
        body: &mut B,
    ) -> Result<FlatResults, Fault>
        requires function { IsFunction self.old.resolve call.now.func }
        ensures ran { IfOk result (λ answer. RunsBetween
            (record {
              caller_allocates = C.allocates;
              callee_allocates = E.allocates;
              runs = B.runs body.old;
              posts = B.posts body.old;
            })
            (function_type self.old.resolve call.now.func)
            call.now.flats.now
            (as_state (C.memory caller.now) (E.memory callee.old) (B.state body.old))
            self.new.there
            (Some answer.items)
            (E.memory callee.new)
            (B.state body.new)) }
        ensures fault { IfErr result (λ fault. CallsInHalves
            (record {
              caller_allocates = C.allocates;
              callee_allocates = E.allocates;
              runs = B.runs body.old;
              posts = B.posts body.old;
            })
            (function_type self.old.resolve call.now.func)
            call.now.flats.now
            (as_state (C.memory caller.now) (E.memory callee.old) (B.state body.old))
            (C.memory caller.now)
            (Err fault)
            self.new.there
            0
            (as_state (C.memory caller.now) (E.memory callee.new) (B.state body.new))) }
        ensures back { self.new.back ≡ 0 }
        ensures same_runs { AllowsSameRuns (B.runs body.old) (B.runs body.new) }
        ensures same_posts { AllowsSamePosts (B.posts body.old) (B.posts body.new) }
        ensures no_memory { result ≢ Err Fault.NoMemory }
        ensures same_package { self.new.resolve ≡ self.old.resolve }
        ensures same_layouts { self.new.layouts ≡ self.old.layouts }
    {
        let Some(arguments) = plain_arguments(
            &Types::new(self.resolve, self.layouts),
            call.func,
            call.flats,
        ) else {
            return self.run_nested(call, caller, callee, body);
        };
        self.there = arguments.len() as u64;
        self.back = 0;
        // A memory's length is a number of 32 bits.
        let _len = callee.len();
        let Ok(answer) = body.call(callee, arguments) else {
            return Err(trap(TrapKind::Body, Step::Body));
        };
        Ok(answer)
    }

    /// The same for core values that aren't all of primitives: the body gets those of flags, of cases and of records of
    /// these as they are, too.
    fn run_nested<C: Guest, E: Guest, B: Body<E>>(
        &mut self,
        call: &Invocation,
        caller: &C,
        callee: &mut E,
        body: &mut B,
    ) -> Result<FlatResults, Fault>
        requires function { IsFunction self.old.resolve call.now.func }
        ensures ran { IfOk result (λ answer. RunsBetween
            (record {
              caller_allocates = C.allocates;
              callee_allocates = E.allocates;
              runs = B.runs body.old;
              posts = B.posts body.old;
            })
            (function_type self.old.resolve call.now.func)
            call.now.flats.now
            (as_state (C.memory caller.now) (E.memory callee.old) (B.state body.old))
            self.new.there
            (Some answer.items)
            (E.memory callee.new)
            (B.state body.new)) }
        ensures fault { IfErr result (λ fault. CallsInHalves
            (record {
              caller_allocates = C.allocates;
              callee_allocates = E.allocates;
              runs = B.runs body.old;
              posts = B.posts body.old;
            })
            (function_type self.old.resolve call.now.func)
            call.now.flats.now
            (as_state (C.memory caller.now) (E.memory callee.old) (B.state body.old))
            (C.memory caller.now)
            (Err fault)
            self.new.there
            0
            (as_state (C.memory caller.now) (E.memory callee.new) (B.state body.new))) }
        ensures back { self.new.back ≡ 0 }
        ensures same_runs { AllowsSameRuns (B.runs body.old) (B.runs body.new) }
        ensures same_posts { AllowsSamePosts (B.posts body.old) (B.posts body.new) }
        ensures no_memory { result ≢ Err Fault.NoMemory }
        ensures same_package { self.new.resolve ≡ self.old.resolve }
        ensures same_layouts { self.new.layouts ≡ self.old.layouts }
    {
        let mut there: u64 = 0;
        let Some(carried) = nested_arguments(
            &Types::new(self.resolve, self.layouts),
            call.func,
            call.flats,
            &mut there,
        ) else {
            if call.flats.len() > 4 {
                return self.run_walked::<C, E, B, 17>(call, caller, callee, body);
            }
            return self.run_walked::<C, E, B, 4>(call, caller, callee, body);
        };
        self.there = there;
        self.back = 0;
        // A memory's length is a number of 32 bits.
        let _lens = (caller.len(), callee.len());
        let Ok(answer) = body.call(callee, carried) else {
            return Err(trap(TrapKind::Body, Step::Body));
        };
        Ok(answer)
    }

    /// The same for core values that are walked over, by a list with room for those that the callee gets.
    fn run_walked<C: Guest, E: Guest, B: Body<E>, const N: usize>(
        &mut self,
        call: &Invocation,
        caller: &C,
        callee: &mut E,
        body: &mut B,
    ) -> Result<FlatResults, Fault>
        requires function { IsFunction self.old.resolve call.now.func }
        requires capacity { N ≤ 17 }
        requires room { min 17 (length call.now.flats.now) ≤ N }
        ensures ran { IfOk result (λ answer. RunsBetween
            (record {
              caller_allocates = C.allocates;
              callee_allocates = E.allocates;
              runs = B.runs body.old;
              posts = B.posts body.old;
            })
            (function_type self.old.resolve call.now.func)
            call.now.flats.now
            (as_state (C.memory caller.now) (E.memory callee.old) (B.state body.old))
            self.new.there
            (Some answer.items)
            (E.memory callee.new)
            (B.state body.new)) }
        ensures fault { IfErr result (λ fault. CallsInHalves
            (record {
              caller_allocates = C.allocates;
              callee_allocates = E.allocates;
              runs = B.runs body.old;
              posts = B.posts body.old;
            })
            (function_type self.old.resolve call.now.func)
            call.now.flats.now
            (as_state (C.memory caller.now) (E.memory callee.old) (B.state body.old))
            (C.memory caller.now)
            (Err fault)
            self.new.there
            0
            (as_state (C.memory caller.now) (E.memory callee.new) (B.state body.new))) }
        ensures back { self.new.back ≡ 0 }
        ensures same_runs { AllowsSameRuns (B.runs body.old) (B.runs body.new) }
        ensures same_posts { AllowsSamePosts (B.posts body.old) (B.posts body.new) }
        ensures no_memory { result ≢ Err Fault.NoMemory }
        ensures same_package { self.new.resolve ≡ self.old.resolve }
        ensures same_layouts { self.new.layouts ≡ self.old.layouts }
    {
        let mut given = ArrayVec::<Flat, N>::new();
        self.enter_walked(call, caller, callee, &mut given)?;
        match body.call(callee, given.as_slice()) {
            Ok(answer) => Ok(answer),
            Err(_) => Err(trap(TrapKind::Body, Step::Body)),
        }
    }

    /// The second half of a call whose core values have the kinds of its function: what goes to the caller.
    #[inline(always)]
    fn give<C: Guest, E: Guest>(
        &mut self,
        call: &Invocation,
        answer: &[Flat],
        caller: &mut C,
        callee: &E,
    ) -> Result<FlatResults, Fault>
        requires function { IsFunction self.old.resolve call.now.func }
        requires kinds { KindsFit (function_type self.old.resolve call.now.func) call.now.flats.now }
        ensures returned { IfOk result (λ given. HasReturned C.allocates (function_type self.old.resolve call.now.func)
            call.now.flats.now (E.memory callee.now).bytes answer.now
            (C.memory caller.old) given.items (C.memory caller.new) self.new.back) }
        ensures fault { IfErr result (λ fault. ReturnFails C.allocates (function_type self.old.resolve call.now.func)
            call.now.flats.now (E.memory callee.now).bytes answer.now
            (C.memory caller.old) fault (C.memory caller.new) self.new.back) }
        ensures no_memory { result ≢ Err Fault.NoMemory }
        ensures no_shorter { IfOk result (λ _. length (C.memory caller.old).bytes
            ≤ length (C.memory caller.new).bytes) }
        ensures there { self.new.there ≡ self.old.there }
        ensures same_package { self.new.resolve ≡ self.old.resolve }
        ensures same_layouts { self.new.layouts ≡ self.old.layouts }
    {
        if is_plain_answer(&Types::new(self.resolve, self.layouts), call.func, answer) {
            self.back = answer.len() as u64;
            // A memory's length is a number of 32 bits.
            let _len = caller.len();
            return Ok(flat_results(answer));
        }
        self.give_walked(call, answer, caller, callee)
    }

    /// The same for core values that are walked over.
    fn give_walked<C: Guest, E: Guest>(
        &mut self,
        call: &Invocation,
        answer: &[Flat],
        caller: &mut C,
        callee: &E,
    ) -> Result<FlatResults, Fault>
        requires function { IsFunction self.old.resolve call.now.func }
        requires kinds { KindsFit (function_type self.old.resolve call.now.func) call.now.flats.now }
        ensures returned { IfOk result (λ given. HasReturned C.allocates (function_type self.old.resolve call.now.func)
            call.now.flats.now (E.memory callee.now).bytes answer.now
            (C.memory caller.old) given.items (C.memory caller.new) self.new.back) }
        ensures fault { IfErr result (λ fault. ReturnFails C.allocates (function_type self.old.resolve call.now.func)
            call.now.flats.now (E.memory callee.now).bytes answer.now
            (C.memory caller.old) fault (C.memory caller.new) self.new.back) }
        ensures no_memory { result ≢ Err Fault.NoMemory }
        ensures no_shorter { IfOk result (λ _. length (C.memory caller.old).bytes
            ≤ length (C.memory caller.new).bytes) }
        ensures there { self.new.there ≡ self.old.there }
        ensures same_package { self.new.resolve ≡ self.old.resolve }
        ensures same_layouts { self.new.layouts ≡ self.old.layouts }
    {
        let mut back = FlatResults::new();
        self.leave_walked(call, answer, caller, callee, &mut back)?;
        Ok(back)
    }
}
