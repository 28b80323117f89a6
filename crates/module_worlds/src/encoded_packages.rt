//! A package, or one of its worlds, as the binary that other tools read and write, of which it was seen that it reads
//! back.
//!
//! `package_bytes` and `world_bytes` write by `component_encoding`, read the bytes by `component_decoding`, compare
//! what was read with the table by `structure_comparison`, and answer the bytes only if it is the same. So no claim
//! rests on how the bytes are made.

mod bytes;
mod error;

pub use bytes::{package_bytes, world_bytes};
pub use error::EncodeError;
