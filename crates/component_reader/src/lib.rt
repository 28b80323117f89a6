//! The package that a raw component may stand for.
//!
//! `candidate` follows each index of a component to the declaration that took it, and each declaration to the name
//! under which it is exported. What it reads is defined in `specs/Component.antt`; whether the component stands for it
//! is seen by writing it again. It stands on `tables`, `ctype_bin` and `atoms`.
#![tactic(auto)]

mod component;
mod instance;
mod keys;
mod names;
mod types;
mod unread;
mod world;

pub use component::candidate;
pub use unread::Unread;
