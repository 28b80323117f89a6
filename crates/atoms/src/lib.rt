//! LEB128 numbers, labels, readers and writers of bytes, and the productions of grammars: what both formats stand on.
#![tactic(auto)]

mod error;
mod full_name;
mod hasher;
mod key;
mod label;
mod leb128;
pub mod productions;
mod reading;
mod stream;
mod watched;
mod writing;

pub use error::AtomError;
pub use full_name::{FullName, is_package_label, is_version};
pub use hasher::NameHasher;
pub use key::{KeyedState, NameKey};
pub use label::{Label, is_label};
pub use leb128::{read_s33, read_u32, write_s33, write_u32};
pub use reading::{ReadUpToError, read_up_to};
pub use stream::{Failed, Sink, Source};
pub use watched::Watched;
pub use writing::write_all;
