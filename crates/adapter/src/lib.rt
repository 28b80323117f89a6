//! Carries a call from one component to another.
//!
//! The contract of `Link::call` proves: for any caller, callee and body, honest or not, it is the call relation
//! of `canonical_abi`. A `Body` is what a component's functions run, and a `BoxedBody` one that is
//! chosen when the program runs. Depends on `crossing` (both ways of a call), `values` (lists of core values, types)
//! and `memory` (guests).
#![tactic(auto)]

mod arguments;
pub mod asking;
mod body;
mod fault;
mod invocation;
mod link;
mod nested;
mod plain;
mod requests;
mod results;
mod signature;

pub use crate::asking::Request;
pub use body::{Body, BoxedBody, Export, Stopped};
pub use canonical_abi::{CoreKind, Fault, Flat, Step, Trap, TrapKind};
pub use invocation::Invocation;
pub use link::Link;
pub use plain::{are_plain, is_own_of, is_plain_answer, is_plain_result};
pub use requests::Unasked;
pub use signature::{parameter_types, result_type};
