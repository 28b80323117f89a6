//! What the commands of `wit-explain` do with checked packages, but for calls.
//!
//! `push_contents` says what packages have, `document_of` all of it as JSON, and `picture_of` draws their types.
//! `push_differences` tells what changed from one to another. `text_of`, `binary_of` and `encoded` write one,
//! `header_for_c` writes a header of all, `header_for_guest` one of a world, and `declarations_for_ts` and
//! `declarations_for_python` declarations of one and of what it uses. `push_decoded` reads packages from a binary and
//! writes their texts, and `embedded` writes a module with a world. Texts are those of `package_text`, binaries those of
//! `wit_component` and of `module_worlds`, as modules are, lines those of `overview`, pictures those of
//! `package_picture`, changes those of `package_diff`, headers those of `c_header`, and declarations those of
//! `ts_declarations` and `python_declarations`. Binaries are read by `checked_packages`.
#![tactic(auto)]

mod binary;
mod binding;
mod canonical_text;
mod contents;
mod decoding;
mod differences;
mod embedding;
mod encoding;
mod pictures;
mod refusal;

pub use binary::binary_of;
pub use binding::{
    Unbound, declarations_for_python, declarations_for_ts, header_for_c, header_for_guest,
};
pub use canonical_text::text_of;
pub use contents::{document_of, push_contents};
pub use decoding::{Undecoded, push_decoded};
pub use differences::push_differences;
pub use embedding::{Unembedded, embedded};
pub use encoding::{Unencoded, encoded};
pub use pictures::picture_of;
pub use refusal::Unwritten;
