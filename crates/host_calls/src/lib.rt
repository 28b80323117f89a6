//! Calls of a package's functions in halves, between linear memories that a host keeps where they are. It runs the core
//! functions itself.
//!
//! No callback is needed: a `Half` carries the arguments into the callee (`enter`), the host runs the core function on
//! the core values that it got, and another `Half` carries its answer back (`leave`). The blocks for each half were
//! granted by the host's own allocators before, as `enter_requests` and `leave_requests` tell them. Hosts that count in
//! numbers, as those in C do, have core values, kinds and layouts in arrays, and a `Status`. Whatever such a host can
//! get wrong is tested here, before a byte is written. `enter_flats` and `leave_flats` are the same halves for a host
//! in Rattle. Stands on `adapter` (the halves of a call) and `memory` (`Lent`).
#![tactic(auto)]

mod area;
mod calling;
mod error;
mod half;
mod half_error;
pub mod host_lists;
mod parts;
mod plain;
mod signature;
mod status;
mod value;

pub use area::return_area;
pub use calling::{begin, enter_requests, function_of, leave_requests, of_half, room_in};
pub use error::CallError;
pub use half::{Half, NOWHERE};
pub use half_error::{HalfError, broken_off};
pub use parts::{Part, parameter_parts, result_part};
pub use signature::{lifted_params, lifted_result, lowered_params, lowered_result};
pub use status::{Status, out_of_memory, refused, told};
pub use value::{MAX_VALUES, Value, put_flats, tell};
