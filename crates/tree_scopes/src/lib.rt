//! The scopes that a tree's names are found in.
//!
//! `Names` finds a name's place, `Declarations` are what an interface declares, `KnownTypes` the types that names stand
//! for, and `Imports` the interfaces of other packages. It stands on `tree_meaning`.
#![tactic(auto)]

mod declare;
mod declared;
mod imported;
mod imports;
mod known;
mod names;
mod paths;
mod sides;
mod tested;

pub use declare::{interface_names, local_name};
pub use declared::{Declarations, UsedType};
pub use imported::Imports;
pub use imports::{
    has_package, import_place, interface_id, package_key, package_name, place_behind,
};
pub use known::{KnownTypes, TypeIds};
pub use names::Names;
pub use paths::{interface_label, interface_place};
pub use sides::side_of;
pub use tested::are_imports;
