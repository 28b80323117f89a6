//! The library for hosts in C: what `include/witcall.h` declares.
//!
//! An export takes numbers, slices of them, and a handle on a package that the library holds (`Handle`), and answers a
//! `Status`. It is a thin call of what stands below: `opening` opens packages, `host_calls` carries the two halves of a
//! call and tells how values lie in memory, and `host_calls::host_lists` tells what a package has. Whatever the header
//! does not ask of a caller is tested there.
#![tactic(auto)]

mod calls;
mod exports;
mod handle;
mod held;
mod imports;
mod kept;
