//! Why bytes are no component type, and where.
ghost use Rattle.std.specs.Prelude.{◌≡◌};
ghost use Rattle.ctype_format.specs.declared.error.ItemError.TheVariants.{Memory};

use std::alloc::{AllocError, AllocFailed};
use std::fmt;
use thiserror::Error;

/// What the format has and is left out here.
#[derive(Clone, Copy, Debug, PartialEq, Eq)]
pub enum Feature {
    Float,
    Resource,
}

impl fmt::Display for Feature {
    fn fmt<W: fmt::Write>(&self, f: &mut fmt::Formatter<W>) -> fmt::Result {
        f.write_str(match self {
            Feature::Float => "float",
            Feature::Resource => "resource",
        })
    }
}

/// What is wrong at a place.
#[derive(Clone, Copy, Debug, PartialEq, Eq)]
pub enum Fault {
    /// 10: a byte of the preamble is another.
    NotComponent,
    /// 11: the input ends.
    Truncated,
    /// 12: a section with this number does not stand here.
    BadSection(u8),
    /// 13: this byte is not allowed here.
    UnknownOpcode(u8),
    /// 14: a part of the format that is left out.
    Unsupported(Feature),
    /// 15: an index that its space does not have yet, or a count of scopes that do not stand around.
    BadIndex,
    /// 16: a record, variant, tuple, flags or enum without members.
    EmptyType,
    /// 17: a limit is passed.
    Limit,
    /// 18: items end before their section does, or go on past its end.
    SizeMismatch,
    /// 19: a type or export section behind the export section.
    Trailing,
    /// 22: no label, no extern name, or no UTF-8.
    BadName,
    /// 23: a LEB128 number of too many bytes or bits.
    Overlong,
}

impl fmt::Display for Fault {
    fn fmt<W: fmt::Write>(&self, f: &mut fmt::Formatter<W>) -> fmt::Result {
        match self {
            Fault::NotComponent => write!(f, "10 not a component"),
            Fault::Truncated => write!(f, "11 truncated"),
            Fault::BadSection(id) => write!(f, "12 bad section {id}"),
            Fault::UnknownOpcode(byte) => write!(f, "13 unknown opcode {byte:02x}"),
            Fault::Unsupported(feature) => write!(f, "14 unsupported {feature}"),
            Fault::BadIndex => write!(f, "15 bad index"),
            Fault::EmptyType => write!(f, "16 empty type"),
            Fault::Limit => write!(f, "17 limit"),
            Fault::SizeMismatch => write!(f, "18 size mismatch"),
            Fault::Trailing => write!(f, "19 trailing"),
            Fault::BadName => write!(f, "22 bad name"),
            Fault::Overlong => write!(f, "23 overlong"),
        }
    }
}

/// Why bytes could not be decoded, or a component not be made or encoded.
#[derive(Clone, Copy, Debug, PartialEq, Eq, Error)]
pub enum BinError {
    /// 10 to 19, 22 and 23: the first fault, and its place in the whole input.
    #[error("error {0} at {1}")]
    At(Fault, usize),
    /// 20: the reader failed, after so many bytes.
    #[error("error 20 read at {0}")]
    Read(usize),
    /// 21
    #[error("error 21 no memory")]
    NoMemory,
}

/// The first fault that reading meets, its place told from the end of the bytes at hand.
#[derive(Clone, Copy, PartialEq, Eq)]
pub enum Stuck {
    /// The bytes end.
    End,
    /// A fault with so many bytes from it on.
    At(Fault, usize),
    /// A section whose items end before it does, so many bytes past the end.
    Past(u32),
}

/// Why an item was not read.
#[derive(Clone, Copy, PartialEq, Eq)]
pub enum ItemError {
    Memory,
    Stuck(Stuck),
}

impl From<AllocError> for ItemError {
    ghost from_gives = { λ _ e. e ≡ Memory };

    fn from(_e: AllocError) -> ItemError {
        ItemError::Memory
    }
}

impl<T: Drop> From<AllocFailed<T>> for ItemError {
    ghost from_gives = { λ _ e. e ≡ Memory };

    fn from(_e: AllocFailed<T>) -> ItemError {
        ItemError::Memory
    }
}
