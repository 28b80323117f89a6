//! The call of a function that a guest imports.

use host_calls::Value;
use lift_lower::Types;
use std::alloc::Global;
use tables::FunctionId;

/// A guest's call of a function that a host serves.
#[derive(Clone, Copy)]
pub struct ImportCall<'a> {
    /// The host's allocator, which holds the arguments, and tests blocks that don't rise.
    pub alloc: Global,
    pub types: &'a Types<'a>,
    pub func: FunctionId,
    /// The core values that the guest passed to its import, the return area's address behind the arguments.
    pub flats: &'a [Value],
}
