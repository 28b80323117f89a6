//! The steps of a session, and their answers.

ghost use Rattle.std.specs.Prelude.{◌≡◌, ◌↔◌, IfSome, IsTrue, map, slice_get, option_map};
ghost use Rattle.std.specs.List.{All};
ghost use Rattle.canonical_abi.specs.Session.{placed_by};
ghost use Rattle.tables.specs.Standard.{IsTypeOf};
ghost use Rattle.witcall.specs.Steps.{IsKnownAnswer, IsStep, answer_of, held_of};

use canonical_abi::{Fault, NotTaken};
use lift_lower::Val;
use opening::Package;
use tables::{FunctionId, Resolve, ValType};

/// A value that the caller holds: its type and its address.
#[derive(Clone, Copy, Debug, PartialEq, Eq)]
pub struct Held {
    pub ty: ValType,
    pub at: u32,
}

/// A step of a session.
#[derive(Debug, Drop, PartialEq)]
pub enum Step {
    /// A function is called with these arguments.
    Call(FunctionId, Vec<Val>),
    /// A value of this type is placed.
    Place(ValType, Val),
    /// What a step of the same list placed is read: its number, counted from 0.
    Read(usize),
    /// A block is freed: its address and its size in bytes.
    Release(u32, u32),
}

/// What a step answered.
#[derive(Debug, Drop, PartialEq)]
pub enum Answer {
    Called(Result<Option<Val>, Fault>),
    Placed(Result<Held, Fault>),
    Read(Result<Val, Fault>),
    Released(Result<(), NotTaken>),
    /// The step that was to be read placed nothing.
    Missing,
}

/// What the step of a number placed, by the answers so far.
pub(crate) fn held_by(resolve: &Resolve, answers: &[Answer], number: usize) -> Option<Held>
    requires { All (IsKnownAnswer resolve.now) answers.now }
    ensures placed { option_map (held_of resolve.now) result
        ≡ placed_by (slice_get (map (answer_of resolve.now) answers.now) number) }
    ensures known { IfSome result (λ held. IsTypeOf resolve.now held.ty) }
{
    match answers.get(number) {
        Some(Answer::Placed(Ok(held))) => Some(*held),
        _ => None,
    }
}

/// Whether a session of the package can take these steps, each of them: what `Session::run` asks for.
pub fn takes_steps(package: &Package, steps: &[Step]) -> bool
    ensures { IsTrue result ↔ All (IsStep «package».now.resolve) steps.now }
{
    for step in steps {
        if !takes_step(package, step) {
            return false;
        }
    }
    true
}

/// Whether a call is of a function, with arguments of its types, and what is to be placed is of its type.
fn takes_step(package: &Package, step: &Step) -> bool
    ensures { IsTrue result ↔ IsStep «package».now.resolve step.now }
{
    match step {
        Step::Call(func, arguments) => {
            package.is_function(*func) && package.takes(*func, arguments.as_slice())
        }
        Step::Place(ty, value) => package.is_type(*ty) && package.is_of(*ty, value),
        Step::Read(_) | Step::Release(_, _) => true,
    }
}
