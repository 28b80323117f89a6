//! What a package of a set reaches, and how what is kept of a table is moved to its places in another.
//!
//! `Reaches` in `specs/Reaches.antt` says what a package reaches, and what some interfaces do; `owners` in
//! `specs/Owners.antt` says whose each row is. `place` in `specs/Places.antt` says at which index an element is among
//! those that are kept; the functions of `specs/Moved.antt` say what each part of a table is there. The crate stands on
//! `tables` and `package_form`.
#![tactic(auto)]

pub mod moved;
pub mod owners;
pub mod places;
pub mod reached;
