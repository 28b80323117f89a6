//! What a package has, for hosts that count in numbers, as those in C do: interfaces, types and functions, with the
//! sizes and offsets of their parts.
//!
//! The table of a package has a row for each type and each function (`tables`). `row` tells what a row is, and `member`
//! what stands in it, with sizes and offsets (`layout`). `row_name`, `member_name` and `owner_name` tell the names.
//! Where there are no types, no package is open.

mod bytes;
mod kinds;
mod members;
mod names;
mod owners;
mod rows;

pub use bytes::tell_bytes;
pub use members::{MemberInfo, member};
pub use names::{member_name, row_name};
pub use owners::owner_name;
pub use rows::{RowInfo, TypeInfo, row};
