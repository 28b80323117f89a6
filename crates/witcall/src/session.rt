//! Typed calls between two components.

ghost use Rattle.std.specs.Prelude.{◌≡◌, ◌≢◌, ◌≤◌, Err, map, is_ok, IfOk, IfSome, OnErr, OnOk, option_to_list};
ghost use Rattle.std.specs.List.{All};
ghost use Rattle.std.specs.Option.{option_map};
ghost use Rattle.canonical_abi.specs.Values.{HasType, HaveTypes};
ghost use Rattle.canonical_abi.specs.Types.{IsPlain, result_fields};
ghost use Rattle.tables.specs.Closed.{IsFunction, closed_type, function_type};
ghost use Rattle.tables.specs.Standard.{IsTypeOf};
ghost use Rattle.canonical_abi.specs.Call.{exact, AllowsSameRuns, AllowsSamePosts};
ghost use Rattle.canonical_abi.specs.Session.{PlacesValue, ReadsValue, TakesStep, TypedCall};
ghost use Rattle.canonical_abi.specs.Headline.{IsPromised};
ghost use Rattle.canonical_abi.specs.Tame.{IsPromisedLive};
ghost use Rattle.values.specs.Val.{value_of};
ghost use Rattle.witcall.specs.Session.{typed_answer};
ghost use Rattle.witcall.specs.Steps.{IsKnownAnswer, IsOfStep, IsStep, answer_of, held_of, placed_answer, read_answer};
ghost use Rattle.witcall.specs.Steps.{step_of, RunsSteps};

use crate::placing::{place_call, place_value};
use crate::steps::{Answer, Held, Step, held_by};
use adapter::{Body, Link};
use canonical_abi::{Fault, Guest, NotTaken};
use lift_lower::{Flats, Val, load, take_result};
use opening::Package;
use std::alloc::{AllocError, Global};
use tables::{FunctionId, ValType};

/// Two components' memories and the callee's body: typed calls of one package's functions.
#[derive(Drop)]
pub struct Session<'a, C: Guest, E: Guest, B: Body<E>> {
    package: &'a Package,
    caller: C,
    callee: E,
    body: B,
}

impl<'a, C: Guest, E: Guest, B: Body<E>> Session<'a, C, E, B> {
    /// A session over these memories. It takes no memory of the host.
    pub fn new(package: &'a Package, caller: C, callee: E, body: B) -> Session<'a, C, E, B>
        ensures package { result.package.now ≡ «package».now }
        ensures caller { result.caller ≡ caller }
        ensures callee { result.callee ≡ callee }
        ensures body { result.body ≡ body }
    {
        Session {
            package,
            caller,
            callee,
            body,
        }
    }

    /// The caller's memory.
    pub fn caller(&self) -> &C
        ensures { result.now ≡ self.now.caller }
    {
        &self.caller
    }

    /// The callee's memory.
    pub fn callee(&self) -> &E
        ensures { result.now ≡ self.now.callee }
    {
        &self.callee
    }

    /// The callee's body.
    pub fn body(&self) -> &B
        ensures { result.now ≡ self.now.body }
    {
        &self.body
    }

    /// The caller's memory, the callee's memory and the body.
    pub fn into_parts(self) -> (C, E, B)
        ensures { result ≡ (self.entry.caller, self.entry.callee, self.entry.body) }
    {
        (self.caller, self.callee, self.body)
    }

    /// Calls a function of the package: lowers the arguments into the caller and asks for the return area if the
    /// result does not go flat (step `place`), calls the link, and lifts the result (step `take`). The blocks that it
    /// asked for stay live. Memory of the host is taken for the result's tree alone: none for no result, or for one of
    /// a plain type. With honest guests within the limit the callee finds exactly the arguments and is run once, the
    /// caller lifts exactly its answer, no byte outside the blocks is changed, and a trap has the cause it names.
    pub fn call(
        &mut self,
        alloc: Global,
        func: FunctionId,
        arguments: &[Val],
    ) -> Result<Option<Val>, Fault>
        requires function { IsFunction self.old.package.now.resolve func }
        requires typed { HaveTypes (map value_of arguments.now)
            (function_type self.old.package.now.resolve func).params }
        ensures call { TypedCall
            (record {
              caller_allocates = C.allocates;
              callee_allocates = E.allocates;
              runs = B.runs self.old.body;
              posts = B.posts self.old.body;
            })
            exact
            (function_type self.old.package.now.resolve func)
            (map value_of arguments.now)
            (record {
              caller = C.memory self.old.caller;
              callee = E.memory self.old.callee;
              body = B.state self.old.body;
            })
            (typed_answer result)
            (record {
              caller = C.memory self.new.caller;
              callee = E.memory self.new.callee;
              body = B.state self.new.body;
            }) }
        ensures promise { IsPromised
            (record {
              caller_allocates = C.allocates;
              callee_allocates = E.allocates;
              runs = B.runs self.old.body;
              posts = B.posts self.old.body;
            })
            C.releases
            E.releases
            exact
            (function_type self.old.package.now.resolve func)
            (map value_of arguments.now)
            (record {
              caller = C.memory self.old.caller;
              callee = E.memory self.old.callee;
              body = B.state self.old.body;
            })
            (typed_answer result)
            (record {
              caller = C.memory self.new.caller;
              callee = E.memory self.new.callee;
              body = B.state self.new.body;
            }) }
        ensures promise_live { IsPromisedLive
            (record {
              caller_allocates = C.allocates;
              callee_allocates = E.allocates;
              runs = B.runs self.old.body;
              posts = B.posts self.old.body;
            })
            C.releases
            E.releases
            exact
            (function_type self.old.package.now.resolve func)
            (map value_of arguments.now)
            (record {
              caller = C.memory self.old.caller;
              callee = E.memory self.old.callee;
              body = B.state self.old.body;
            })
            (typed_answer result)
            (record {
              caller = C.memory self.new.caller;
              callee = E.memory self.new.callee;
              body = B.state self.new.body;
            }) }
        ensures same_runs { AllowsSameRuns (B.runs self.old.body) (B.runs self.new.body) }
        ensures same_posts { AllowsSamePosts (B.posts self.old.body) (B.posts self.new.body) }
        ensures typed { IfOk result (λ v. HaveTypes (option_to_list (option_map value_of v))
            (result_fields (function_type self.old.package.now.resolve func).result)) }
        ensures package { self.new.package.now ≡ self.old.package.now }
        ensures no_memory { IfSome (function_type self.old.package.now.resolve func).result IsPlain
            → result ≢ Err Fault.NoMemory }
    {
        call_typed(
            alloc,
            self.package,
            func,
            arguments,
            &mut self.caller,
            &mut self.callee,
            &mut self.body,
        )
    }

    /// Stores a value in a block of the caller, which is asked for first, and returns where. The block stays live until
    /// it is freed. A trap is in step `place`: the first request that fails. Takes no memory of the host.
    pub fn place(&mut self, ty: ValType, value: &Val) -> Result<Held, Fault>
        requires known { IsTypeOf self.old.package.now.resolve ty }
        requires typed { HasType (value_of value.now) (closed_type self.old.package.now.resolve ty) }
        ensures placed { PlacesValue C.allocates (closed_type self.old.package.now.resolve ty) (value_of value.now)
            (C.memory self.old.caller) (placed_answer self.old.package.now.resolve result) (C.memory self.new.caller) }
        ensures known { IfOk result (λ held. IsTypeOf self.old.package.now.resolve held.ty) }
        ensures same_type { IfOk result (λ held. held.ty ≡ ty) }
        ensures callee { self.new.callee ≡ self.old.callee }
        ensures body { self.new.body ≡ self.old.body }
        ensures package { self.new.package.now ≡ self.old.package.now }
    {
        place_value(self.package, ty, value, &mut self.caller)
    }

    /// The value that the caller holds where one was placed, or the first fault there, in step `take`. `NoMemory`
    /// if the host has none for the value, and never if its type is plain.
    pub fn read(&self, alloc: Global, held: &Held) -> Result<Val, Fault>
        requires { IsTypeOf self.now.package.now.resolve held.now.ty }
        ensures read { ReadsValue (C.memory self.now.caller) (held_of self.now.package.now.resolve held.now)
            (read_answer result) }
        ensures plain { IsPlain (closed_type self.now.package.now.resolve held.now.ty) → result ≢ Err Fault.NoMemory }
        ensures typed { IfOk result (λ v. HasType (value_of v) (closed_type self.now.package.now.resolve held.now.ty)) }
    {
        let package = self.package;
        load(
            alloc,
            package.resolve(),
            package.layouts(),
            held.ty,
            &self.caller,
            held.at,
        )
    }

    /// Frees a block of the caller. Takes no memory of the host.
    pub fn release(&mut self, at: u32, size: u32) -> Result<(), NotTaken>
        ensures released { C.releases (C.memory self.old.caller) at size (is_ok result) (C.memory self.new.caller) }
        ensures callee { self.new.callee ≡ self.old.callee }
        ensures body { self.new.body ≡ self.old.body }
        ensures package { self.new.package.now ≡ self.old.package.now }
    {
        self.caller.free(at, size)
    }

    /// Takes these steps in turn, whatever each answers, and appends their answers, a fault too. Memory for all answers
    /// is taken first: if the host has none, nothing is done. A step that reads says by its number, counted from 0,
    /// which of these steps placed the value.
    pub fn run(
        &mut self,
        alloc: Global,
        steps: &[Step],
        answers: &mut Vec<Answer>,
    ) -> Result<(), AllocError>
        requires { All (IsStep self.old.package.now.resolve) steps.now }
        ensures run { OnOk result (RunsSteps
            (record {
              caller_allocates = C.allocates;
              callee_allocates = E.allocates;
              runs = B.runs self.old.body;
              posts = B.posts self.old.body;
            })
            C.releases
            self.old.package.now.resolve
            steps.now
            answers.old.items
            (record {
              caller = C.memory self.old.caller;
              callee = E.memory self.old.callee;
              body = B.state self.old.body;
            })
            answers.new.items
            (record {
              caller = C.memory self.new.caller;
              callee = E.memory self.new.callee;
              body = B.state self.new.body;
            })) }
        ensures same_runs { AllowsSameRuns (B.runs self.old.body) (B.runs self.new.body) }
        ensures same_posts { AllowsSamePosts (B.posts self.old.body) (B.posts self.new.body) }
        ensures package { self.new.package.now ≡ self.old.package.now }
        ensures caller { OnErr result (self.new.caller ≡ self.old.caller) }
        ensures callee { OnErr result (self.new.callee ≡ self.old.callee) }
        ensures body { OnErr result (self.new.body ≡ self.old.body) }
        ensures answers { OnErr result (answers.new.items ≡ answers.old.items) }
    {
        answers.reserve(steps.len())?;
        let start = answers.len();
        for step in steps {
            let answer = self.take_step(alloc, step, &answers.as_slice()[start..]);
            answers.push_reserved(answer);
        }
        Ok(())
    }

    /// Takes one step, after these answers of those before it.
    fn take_step(&mut self, alloc: Global, step: &Step, before: &[Answer]) -> Answer
        requires step { IsStep self.old.package.now.resolve step.now }
        requires before { All (IsKnownAnswer self.old.package.now.resolve) before.now }
        ensures taken { let r = self.old.package.now.resolve in TakesStep
            (record {
              caller_allocates = C.allocates;
              callee_allocates = E.allocates;
              runs = B.runs self.old.body;
              posts = B.posts self.old.body;
            })
            C.releases
            exact
            (map (answer_of r) before.now)
            (record {
              caller = C.memory self.old.caller;
              callee = E.memory self.old.callee;
              body = B.state self.old.body;
            })
            (step_of r step.now)
            (answer_of r result)
            (record {
              caller = C.memory self.new.caller;
              callee = E.memory self.new.callee;
              body = B.state self.new.body;
            }) }
        ensures known { IsKnownAnswer self.old.package.now.resolve result }
        ensures same_type { IsOfStep step.now result }
        ensures same_runs { AllowsSameRuns (B.runs self.old.body) (B.runs self.new.body) }
        ensures same_posts { AllowsSamePosts (B.posts self.old.body) (B.posts self.new.body) }
        ensures package { self.new.package.now ≡ self.old.package.now }
    {
        match step {
            Step::Call(func, arguments) => {
                Answer::Called(self.call(alloc, *func, arguments.as_slice()))
            }
            Step::Place(ty, value) => Answer::Placed(self.place(*ty, value)),
            Step::Read(number) => match held_by(self.package.resolve(), before, *number) {
                Some(held) => Answer::Read(self.read(alloc, &held)),
                None => Answer::Missing,
            },
            Step::Release(at, size) => Answer::Released(self.release(*at, *size)),
        }
    }
}

/// The call itself, over memories and a body that are lent.
pub(crate) fn call_typed<C: Guest, E: Guest, B: Body<E>>(
    alloc: Global,
    package: &Package,
    func: FunctionId,
    arguments: &[Val],
    caller: &mut C,
    callee: &mut E,
    body: &mut B,
) -> Result<Option<Val>, Fault>
    requires function { IsFunction «package».now.resolve func }
    requires typed { HaveTypes (map value_of arguments.now) (function_type «package».now.resolve func).params }
    ensures call { TypedCall
        (record {
          caller_allocates = C.allocates;
          callee_allocates = E.allocates;
          runs = B.runs body.old;
          posts = B.posts body.old;
        })
        exact
        (function_type «package».now.resolve func)
        (map value_of arguments.now)
        (record { caller = C.memory caller.old; callee = E.memory callee.old; body = B.state body.old })
        (typed_answer result)
        (record { caller = C.memory caller.new; callee = E.memory callee.new; body = B.state body.new }) }
    ensures promise { IsPromised
        (record {
          caller_allocates = C.allocates;
          callee_allocates = E.allocates;
          runs = B.runs body.old;
          posts = B.posts body.old;
        })
        C.releases
        E.releases
        exact
        (function_type «package».now.resolve func)
        (map value_of arguments.now)
        (record { caller = C.memory caller.old; callee = E.memory callee.old; body = B.state body.old })
        (typed_answer result)
        (record { caller = C.memory caller.new; callee = E.memory callee.new; body = B.state body.new }) }
    ensures promise_live { IsPromisedLive
        (record {
          caller_allocates = C.allocates;
          callee_allocates = E.allocates;
          runs = B.runs body.old;
          posts = B.posts body.old;
        })
        C.releases
        E.releases
        exact
        (function_type «package».now.resolve func)
        (map value_of arguments.now)
        (record { caller = C.memory caller.old; callee = E.memory callee.old; body = B.state body.old })
        (typed_answer result)
        (record { caller = C.memory caller.new; callee = E.memory callee.new; body = B.state body.new }) }
    ensures same_runs { AllowsSameRuns (B.runs body.old) (B.runs body.new) }
    ensures same_posts { AllowsSamePosts (B.posts body.old) (B.posts body.new) }
    ensures typed { IfOk result (λ v. HaveTypes (option_to_list (option_map value_of v))
        (result_fields (function_type «package».now.resolve func).result)) }
    ensures no_memory { IfSome (function_type «package».now.resolve func).result IsPlain → result ≢ Err Fault.NoMemory }
{
    let table = package.types();
    let mut flats = Flats::new();
    let area = place_call(&table, func, arguments, caller, &mut flats)?;
    let resolve = table.resolve();
    let mut link = Link::new(resolve, table.layouts());
    let back = link.call(func, flats.as_slice(), caller, callee, body)?;
    take_result(
        alloc,
        &table,
        resolve.signature(func).result,
        back.as_slice(),
        area,
        caller,
    )
}
