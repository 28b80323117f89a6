//! Why nothing was done.
ghost use Rattle.std.specs.Prelude.{Some};
ghost use Rattle.host_calls.specs.Lines.{error_words};

use canonical_abi::Fault;
use std::alloc::AllocError;
use std::error::Error;
use std::fmt;

/// Why a call of this crate did nothing, or where a call of a function ended.
#[derive(Clone, Copy, Debug, Drop)]
pub enum CallError {
    NoFunction,
    NoMemory,
    /// The handle holds no package.
    NotOpen,
    /// How many things there has to be room for.
    NoRoom(usize),
    BadBlock,
    /// The index of a block that has another size or alignment than the one that was asked for.
    OtherBlock(usize),
    /// The lengths of a set's inputs are not together that of their bytes, or there is no input.
    BadLengths,
    /// Nothing has this number or this index.
    NotThere,
    /// The package's binary would be longer than a binary may be.
    LongBinary,
    /// The package's text would be longer than a text may be.
    LongText,
    /// The requests ask for more bytes than they may.
    AboveLimit,
    /// The text of values is no JSON, or nests deeper than 127.
    BadJson,
    /// The JSON stands for no values of the types.
    NotThisType,
    Fault(Fault),
}

impl fmt::Display for CallError {
    ghost output = { λ e. Some (error_words e) };

    fn fmt<W: fmt::Write>(&self, f: &mut fmt::Formatter<W>) -> fmt::Result {
        match self {
            CallError::NoFunction => f.write_str("error 63 no function"),
            CallError::NoMemory => f.write_str("error 66 no memory"),
            CallError::NotOpen => f.write_str("error 70 not open"),
            CallError::NoRoom(count) => write!(f, "error 71 no room for {count}"),
            CallError::BadBlock => f.write_str("error 72 bad block"),
            CallError::OtherBlock(index) => write!(f, "error 73 other block {index}"),
            CallError::BadLengths => f.write_str("error 74 bad lengths"),
            CallError::NotThere => f.write_str("error 75 not there"),
            CallError::LongBinary => f.write_str("error 17 limit"),
            CallError::LongText => f.write_str("error 36 limit"),
            CallError::AboveLimit => f.write_str("error 76 above the limit"),
            CallError::BadJson => f.write_str("error 61 bad JSON"),
            CallError::NotThisType => f.write_str("error 62 not this type"),
            CallError::Fault(fault) => write!(f, "{fault}"),
        }
    }
}

impl Error for CallError {}

impl From<AllocError> for CallError {
    ghost use Rattle.std.specs.Prelude.{◌≡◌};
    ghost use Rattle.host_calls.specs.declared.error.CallError.TheVariants.{NoMemory};

    ghost from_gives = { λ _ e. e ≡ NoMemory };

    fn from(_error: AllocError) -> CallError {
        CallError::NoMemory
    }
}
