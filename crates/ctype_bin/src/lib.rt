//! Component types in the component model's binary format (Binary.md). `decode` carries the promise: it answers the raw
//! component exactly where the productions of the format spell all the bytes, and else the first fault with its place.
//! Stands on `ctype_format`, which has the format and its items, and on `atoms`.
#![tactic(auto)]

mod component;
mod decoding;
mod defined;
mod encoding;
mod laws;
mod sections;
mod types;

pub use component::RawComponent;
pub use ctype_format::{
    BinError, ExternName, Fault, Feature, Primitive, RawAlias, RawCase, RawDecl, RawDefinedType,
    RawDescription, RawExport, RawField, RawFunction, RawType, RawValType,
};
pub use decoding::{decode, decode_from};
pub use encoding::encode;
pub use laws::{
    faults_are_first, files_are_read_exactly, indices_are_in_range, spellings_are_rewritten,
    types_are_read_exactly,
};
