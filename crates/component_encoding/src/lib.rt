//! A package, or one of its worlds, as the binary that other tools read and write.
//!
//! `package_bytes` writes all interfaces and worlds of a package, as `wasm-tools component wit --wasm` does, and
//! `world_bytes` one world, as wit-bindgen puts it into a module's section `component-type`. docs/FORMATS.md has both
//! formats. `order_of` completes a world by the interfaces that its own ones use, `scope` has the declarations of one
//! component type or instance type, and `holder` makes the component type around instance types. `put_custom` appends a
//! section that tools alone read. The crate stands on `ctype_format`, `package_form`, `tables` and `atoms`.
#![tactic(auto)]

mod definitions;
mod error;
mod files;
mod holder;
mod order;
mod scope;
mod spelling;

pub use error::EncodeError;
pub use files::{package_bytes, world_bytes, world_named};
pub use order::{Order, order_of, uses_of};
pub use spelling::{full_name, put_custom};
