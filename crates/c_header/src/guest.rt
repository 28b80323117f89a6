//! Headers for guests: the types of a world, functions that call what it imports, and the exports of the module, which
//! call functions that the guest defines.

mod calls;
mod common;
mod exports;
mod imports;
mod places;
mod worlds;

pub use worlds::guest_header_of;
