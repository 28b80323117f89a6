//! The keywords of types.
ghost use Rattle.std.specs.Prelude.{◌≡◌};
ghost use Rattle.tables.specs.Keywords.{primitive_keyword};

use crate::tables::Primitive;

impl Primitive {
    /// The type's keyword in WIT. (WIT.md, "Types")
    pub fn keyword(self) -> &'static str
        ensures { result.now ≡ primitive_keyword self }
    {
        match self {
            Primitive::Bool => "bool",
            Primitive::S8 => "s8",
            Primitive::U8 => "u8",
            Primitive::S16 => "s16",
            Primitive::U16 => "u16",
            Primitive::S32 => "s32",
            Primitive::U32 => "u32",
            Primitive::S64 => "s64",
            Primitive::U64 => "u64",
            Primitive::Char => "char",
        }
    }
}
