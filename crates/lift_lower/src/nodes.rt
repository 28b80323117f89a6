//! The parts of one node of a value, for walks of other crates: its bytes and numbers, its text, its block, its
//! flat values.
pub use crate::guest_blocks::{ask_block, write_bytes, write_header, write_number, write_scalar};
pub use crate::heads::{scalar_at, scalar_in};
pub use crate::lift_flat::flags_in;
pub use crate::lower_flat::{push_header, push_joined};
pub use values::bytes::{
    discriminant_bytes, flags_bytes, largest_byte, low_flags, number_of_size, test_block, u8_at,
    u16_at, u32_at, u64_at,
};
pub use values::{Members, text_in};
