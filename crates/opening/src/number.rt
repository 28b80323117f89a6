//! The numbers of errors, as their lines have them.
ghost use Rattle.std.specs.Prelude.{◌≡◌};
ghost use Rattle.opening.specs.Numbers.{text_number, fault_number, binary_number, resolve_number, layout_number};
ghost use Rattle.opening.specs.Numbers.{is_out_of_memory};

use crate::package::OpenError;
use ctype_bin::{BinError, Fault};
use error_numbers::Numbered;
use layout::LayoutError;
use tables::ResolveError;
use wit_text::TextError;

/// The number of an error of a text: 30 to 36.
pub fn text_number(error: &TextError) -> u32
    ensures { result ≡ text_number error.now }
{
    match error {
        TextError::BadChar(_) => 30,
        TextError::OpenComment(_) => 31,
        TextError::Expected(_, _) => 32,
        TextError::Unsupported(_, _) => 33,
        TextError::Depth(_) => 34,
        TextError::NoMemory => 35,
        TextError::Limit => 36,
    }
}

fn fault_number(fault: &Fault) -> u32
    ensures { result ≡ fault_number fault.now }
{
    match fault {
        Fault::NotComponent => 10,
        Fault::Truncated => 11,
        Fault::BadSection(_) => 12,
        Fault::UnknownOpcode(_) => 13,
        Fault::Unsupported(_) => 14,
        Fault::BadIndex => 15,
        Fault::EmptyType => 16,
        Fault::Limit => 17,
        Fault::SizeMismatch => 18,
        Fault::Trailing => 19,
        Fault::BadName => 22,
        Fault::Overlong => 23,
    }
}

/// The number of an error of a binary: 10 to 23.
pub fn binary_number(error: &BinError) -> u32
    ensures { result ≡ binary_number error.now }
{
    match error {
        BinError::At(fault, _) => fault_number(fault),
        BinError::Read(_) => 20,
        BinError::NoMemory => 21,
    }
}

/// The number of an error of names, or of a set: 40 to 49.
pub fn resolve_number(error: &ResolveError) -> u32
    ensures { result ≡ resolve_number error.now }
{
    match error {
        ResolveError::Duplicate(_) => 40,
        ResolveError::Unknown(_) => 41,
        ResolveError::Cycle => 42,
        ResolveError::EmptyPackage => 43,
        ResolveError::NotThisShape => 44,
        ResolveError::Limit => 45,
        ResolveError::NoMemory => 46,
        ResolveError::NoPackage(_) => 47,
        ResolveError::SamePackage(_) => 48,
        ResolveError::SetLimit => 49,
    }
}

/// The number of an error of layouts: 50 to 52.
pub fn layout_number(error: &LayoutError) -> u32
    ensures { result ≡ layout_number error.now }
{
    match error {
        LayoutError::TooLarge => 50,
        LayoutError::TooDeep => 51,
        LayoutError::NoMemory => 52,
    }
}

/// That of its part; 20, 60 and 66 are its own.
impl Numbered for OpenError {
    ghost use Rattle.opening.specs.Numbers.{open_number};

    ghost number_of = { open_number };

    fn number(&self) -> u32 {
        match self {
            OpenError::Read(_) => 20,
            OpenError::Text(error) => text_number(error),
            OpenError::Binary(error) => binary_number(error),
            OpenError::Resolve(error) => resolve_number(error),
            OpenError::Layout(error) => layout_number(error),
            OpenError::NotUtf8(_) => 60,
            OpenError::NoMemory => 66,
        }
    }
}

/// Whether an error of this number says that the host is out of memory: 5, 21, 35, 46, 52, 54 or 66.
pub fn is_out_of_memory(number: u32) -> bool
    ensures { result ≡ is_out_of_memory number }
{
    matches!(number, 5 | 21 | 35 | 46 | 52 | 54 | 66)
}
