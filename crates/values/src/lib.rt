//! Values and scalars, the types that they are of, and how their bytes are tested.
//!
//! `Val` is a value as a tree. `Scalar` is that of one primitive node, which is lifted and lowered with no memory of
//! the host. `Types` is a package with its layouts, as all walks take it, and `has_type` says whether a value is of one
//! of its types. `bytes` tests blocks and reads numbers, and `str_at` lends a text as it lies in a memory. Stands on
//! `canonical_abi` (definitions, guests), `tables` and `layout` (types).
#![tactic(auto)]

pub mod bytes;
mod members;
mod scalar;
mod scalars;
mod text;
mod types;
mod typing;
mod val;

pub use members::Members;
pub use scalar::{Scalar, core_kind, lift_scalar, lower_scalar};
pub use scalars::{FlatResults, Flats, Scalars, flat_results, lift_scalars};
pub use text::{str_at, text_in};
pub use types::Types;
pub use typing::{has_arguments, has_type, have_types};
pub use val::Val;
