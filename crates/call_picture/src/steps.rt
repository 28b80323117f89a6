//! The steps of a call, as `witcall` makes them.
ghost use Rattle.std.specs.Prelude.{◌≡◌, map};
ghost use Rattle.canonical_abi.specs.Values.{HaveTypes};
ghost use Rattle.values.specs.Members.{fields_of_types};
ghost use Rattle.values.specs.Val.{value_of};
ghost use Rattle.tables.specs.Closed.{function_type};

use crate::call::Call;
use crate::course::{Course, keep, kept};
use adapter::{Invocation, Link, result_type};
use canonical_abi::{Fault, Flat, Step, Trap, TrapKind};
use lift_lower::{Flats, Val, ask_area, is_area, lower_answer, lower_arguments, take_result};

fn trap(kind: TrapKind, step: Step) -> Fault {
    Fault::Trap(Trap { kind, step })
}

impl Call<'_> {
    /// Puts the arguments into the caller, and requests the return area if the result needs one.
    fn lower(&self, course: &mut Course, arguments: &[Val], flats: &mut Flats) -> Result<(), Fault>
        requires { HaveTypes (map value_of arguments.now) (function_type self.now.resolve.now self.now.func).params }
    {
        let table = self.table();
        lower_arguments(&table, self.func, arguments, &mut course.caller, flats)?;
        let ty = result_type(self.resolve, self.func);
        course.area = ask_area(&table, ty, &mut course.caller)?;
        if let Some(at) = course.area {
            flats.push(Flat::I32(at));
        }
        Ok(())
    }

    /// The same, and keeps what the caller passes.
    fn place(&self, course: &mut Course, arguments: &[Val]) -> Result<(), Fault>
        requires { HaveTypes (map value_of arguments.now) (function_type self.now.resolve.now self.now.func).params }
    {
        let mut flats = Flats::new();
        match self.lower(course, arguments, &mut flats) {
            Ok(()) => keep(self.alloc, &mut course.passed, flats.as_slice()),
            Err(fault) => Err(fault),
        }
    }

    /// Carries the arguments into the callee.
    fn enter(&self, course: &mut Course) -> Result<(), Fault> {
        let mut link = Link::new(self.resolve, self.layouts);
        let mut handed = Flats::new();
        let call = &Invocation {
            func: self.func,
            flats: kept(&course.passed),
        };
        let entered = link.enter(call, &course.caller, &mut course.callee, &mut handed);
        course.nodes_there = link.nodes().0;
        match entered {
            Ok(()) => keep(self.alloc, &mut course.handed, handed.as_slice()),
            Err(fault) => Err(fault),
        }
    }

    /// Puts the answer into the callee, in place of a core function.
    fn run_body(&self, course: &mut Course, answer: &[Val]) -> Result<(), Fault>
        requires { HaveTypes (map value_of answer.now) (fields_of_types self.now.resolve.now self.now.results.items) }
    {
        let types = self.results.as_slice();
        match lower_answer(&self.table(), types, answer, &mut course.callee) {
            Ok(answer) => keep(self.alloc, &mut course.answered, answer.as_slice()),
            Err(_) => Err(trap(TrapKind::Body, Step::Body)),
        }
    }

    /// Carries the answer into the caller.
    fn leave(&self, course: &mut Course) -> Result<(), Fault> {
        let mut link = Link::new(self.resolve, self.layouts);
        let mut back = Flats::new();
        let call = &Invocation {
            func: self.func,
            flats: kept(&course.passed),
        };
        let left = link.leave(
            call,
            kept(&course.answered),
            &mut course.caller,
            &course.callee,
            &mut back,
        );
        course.nodes_back = link.nodes().1;
        match left {
            Ok(()) => keep(self.alloc, &mut course.returned, back.as_slice()),
            Err(fault) => Err(fault),
        }
    }

    /// Takes the result from the caller.
    fn take(&self, course: &Course) -> Result<Option<Val>, Fault> {
        let table = self.table();
        let ty = result_type(self.resolve, self.func);
        if !is_area(&table, ty, course.area, &course.caller) {
            return Err(trap(TrapKind::Bounds, Step::Take));
        }
        take_result(
            self.alloc,
            &table,
            ty,
            kept(&course.returned),
            course.area,
            &course.caller,
        )
    }

    /// Makes the call. What it did is in the course, up to a trap.
    pub(crate) fn make(
        &self,
        course: &mut Course,
        arguments: &[Val],
        answer: &[Val],
    ) -> Result<Option<Val>, Fault>
        requires arguments { HaveTypes (map value_of arguments.now)
            (function_type self.now.resolve.now self.now.func).params }
        requires answer { HaveTypes (map value_of answer.now)
            (fields_of_types self.now.resolve.now self.now.results.items) }
    {
        self.place(course, arguments)?;
        self.enter(course)?;
        self.run_body(course, answer)?;
        self.leave(course)?;
        self.take(course)
    }
}
