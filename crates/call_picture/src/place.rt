//! Where a value is, and what is still to be shown of it.

use lift_lower::Val;
use svg_drawing::Start;
use tables::ValType;

/// Where a value is.
#[derive(Clone, Copy)]
pub enum Place {
    /// In memory, from this address on.
    At(u32),
    /// In core values, from the one of this number on.
    Core(usize),
    /// Not whole in memory. The blocks below it are shown.
    Elsewhere,
    /// It is left out, with the blocks below it.
    Hidden,
}

impl Place {
    /// The place so many bytes after it, if it is in memory.
    pub fn plus(self, offset: u32) -> Place {
        match self {
            Place::At(at) => Place::At(at.saturating_add(offset)),
            other => other,
        }
    }
}

/// A value that is still to be shown.
#[derive(Drop)]
pub struct Spot<'a> {
    pub value: &'a Val,
    pub ty: ValType,
    pub place: Place,
    /// Its name, from the parameter or the result on.
    pub path: String,
}

/// Fields of a record or elements of a list that are still to be shown, from one on.
#[derive(Drop)]
pub struct Members<'a> {
    pub values: &'a [Val],
    /// The type of the record, or of an element.
    pub ty: ValType,
    /// The place of the record or of the next element. In core values, that of the next field.
    pub place: Place,
    /// The name of the whole.
    pub path: String,
    pub index: usize,
}

/// A part of a block that is still to be shown.
#[derive(Drop)]
pub enum Part<'a> {
    Value(Spot<'a>),
    Fields(Members<'a>),
    Elements(Members<'a>),
    /// An address, and a number of bytes.
    Padding(u32, u32),
}

/// What is in a block.
#[derive(Clone, Copy)]
pub enum Content<'a> {
    /// The bytes of a string.
    Text,
    /// The elements of a list, and their type.
    Elements(&'a [Val], ValType),
    /// The values of a record, and its type.
    Fields(&'a [Val], ValType),
    /// A value of this type.
    Value(&'a Val, ValType),
}

/// A block that a value needs.
#[derive(Drop)]
pub struct Block<'a> {
    pub content: Content<'a>,
    /// The name of the value.
    pub path: String,
    /// Where its pointer is drawn, if it is.
    pub start: Option<Start>,
    pub is_shown: bool,
}
