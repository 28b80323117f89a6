//! Binaries that other tools read: packages, worlds, and core modules with a world's section.
//!
//! `package_bytes` and `world_bytes` write a binary by `component_encoding`, and see that it reads back. `embedded`
//! checks what a module exports and imports against the core signatures of the world's functions, as a linker of
//! components does, and adds the section `component-type:..`. The bytes of the module stay as they are in front of it.
//! It stands on `core_modules` for modules, on `component_decoding` and `structure_comparison` for reading back, and on
//! `layout` for core signatures. `specs/` says which exports a world asks of a module.
#![tactic(auto)]

mod blocks;
mod embedding;
mod encoded_packages;
mod exports;
mod fit;
mod imports;
mod misfit;
mod required;

pub use embedding::{EmbedError, Embedding};
pub use encoded_packages::{EncodeError, package_bytes, world_bytes};
pub use misfit::Misfit;
