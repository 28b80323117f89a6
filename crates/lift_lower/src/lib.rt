//! Values between memories, flat values and trees: lifting and lowering.
//!
//! `lift` and `lower` carry the promise: a value exactly where the flat values denote one, else the fault; `load` and
//! `store` do so in a memory. The parts of one node are in `nodes`, for walks of other crates. Stands on `values`
//! (values, scalars, types), `canonical_abi` (definitions, guests), `tables` and `layout`.
#![tactic(auto)]

mod guest_blocks;
mod heads;
mod lift_flat;
mod lifting;
mod loading;
mod lower_flat;
mod lowering;
mod no_value;
pub mod nodes;
mod placing;
mod record_fields;
mod scalar_lists;
mod storing;

pub use canonical_abi::{CoreKind, Fault, Flat, Step, Trap, TrapKind};
pub use heads::{Head, head_at, head_of, put_head};
pub use layout::are_kinds;
pub use lift_flat::low_word;
pub use lifting::{lift, lift_params, lift_result};
pub use loading::load;
pub use lowering::{lower, lower_answer};
pub use placing::{ask_area, is_area, lower_arguments, take_result};
pub use storing::store;
pub use values::{
    FlatResults, Flats, Scalar, Scalars, Types, Val, core_kind, has_arguments, has_type,
    have_types, lift_scalar, lift_scalars, lower_scalar, str_at,
};
