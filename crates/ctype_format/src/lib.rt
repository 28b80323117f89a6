//! The component model's binary format (Binary.md): its productions, what a component type is made of, and how single
//! items are read and whole ones written. `ctype_bin` reads and writes components by it. Stands on `atoms`, in whose
//! productions the format is written, and on `simdutf8`.
#![tactic(auto)]

mod error;
mod items;
mod name;
mod opcode;
mod raw;
mod scope;
mod writing;

pub use error::{BinError, Fault, Feature, ItemError, Stuck};
pub use items::{
    at, byte_of, count_of, count_upto, extern_name_of, flag_of, index_of, label_of, optional_of,
    u32_of, utf8_of, valtype_of, zero_of,
};
pub use name::ExternName;
pub use opcode::{Opcode, is_nested, opcode_of};
pub use raw::{
    Primitive, RawAlias, RawCase, RawDecl, RawDefinedType, RawDescription, RawExport, RawField,
    RawFunction, RawType, RawValType,
};
pub use scope::{MAX_ENTRIES, Scope, new_scope, types_at, with_entries, with_instance, with_type};
pub use writing::{put_exports, put_section, put_types};
