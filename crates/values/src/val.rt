//! Values as trees.

/// A value. A tuple is a record of its members, an enum a variant without payloads, an option a variant of
/// none and some, a result a variant of ok and error. Bit k of `Flags` is label k.
#[derive(Clone, Debug, Drop, PartialEq)]
pub enum Val {
    Bool(bool),
    S8(i8),
    U8(u8),
    S16(i16),
    U16(u16),
    S32(i32),
    U32(u32),
    S64(i64),
    U64(u64),
    Char(char),
    String(String),
    List(Vec<Val>),
    Record(Vec<Val>),
    Variant(u32, Option<Box<Val>>),
    Flags(u32),
}
