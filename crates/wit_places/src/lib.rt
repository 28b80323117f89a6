//! A WIT text by its tokens: which packages it names, what it declares, and where.
//!
//! `Lexed` is a text with its tokens. It finds names, paths and the package's own header. `Declarations` are the
//! interfaces, worlds and types of a text that was read. They find the place of a fault that is told by a name alone,
//! or not told at all: a type that contains itself, flags with too many labels. `ring_of_interfaces` finds interfaces
//! that use each other. A `Spot` is a token that is not allowed where it is, with what has the brackets that it is in.
//! It stands on `wit_text` and `tables`.
#![tactic(auto)]

mod declarations;
mod interfaces;
mod lexed;
mod rings;
mod spot;

pub use declarations::{Declaration, Declarations, LongFlags, importers, names_of_types};
pub use interfaces::ring_of_interfaces;
pub use lexed::{Lexed, PackagePath, PackageRef};
pub use rings::chain_of;
pub use spot::{
    Bracket, Spot, Within, bracket_of, commas_between, keyword_at, mark_at, opener, word_at,
};
