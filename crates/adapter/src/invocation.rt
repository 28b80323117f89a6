//! What a call is of.

use canonical_abi::Flat;
use tables::FunctionId;

/// A function, with the flat values that a caller calls it with: the return area's address comes after the arguments.
#[derive(Clone, Copy)]
pub struct Invocation<'a> {
    pub func: FunctionId,
    pub flats: &'a [Flat],
}
