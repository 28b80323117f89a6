//! What a type is for the ABI: names are followed, a tuple is a record, and an enum, an option and a result
//! are variants.
use tables::{Primitive, ValType};

/// The shape of a type.
#[derive(Clone, Copy, Debug, PartialEq, Eq)]
pub enum Shape {
    Primitive(Primitive),
    String,
    /// The type of the elements.
    List(ValType),
    /// The number of fields.
    Record(usize),
    /// The number of cases.
    Variant(usize),
    /// The number of labels.
    Flags(usize),
}

/// A field of a record.
#[derive(Clone, Copy, Debug, PartialEq, Eq)]
pub struct FieldInfo {
    pub ty: ValType,
    /// Its place in the record, in bytes.
    pub offset: u32,
}

/// A case of a variant.
#[derive(Clone, Copy, Debug, PartialEq, Eq)]
pub struct CaseInfo {
    /// The place of the payload in the variant, in bytes; the same for every case.
    pub place: u32,
    pub payload: Option<ValType>,
}
