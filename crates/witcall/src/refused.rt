//! Why the program did not do what it was asked for, and how it says so.

ghost use Rattle.std.specs.Prelude.{◌≡◌, false};
ghost use Rattle.witcall.specs.Status.{exit_status, memory_number};

use crate::line::Line;
use atoms::Sink;
use canonical_abi::{Fault, Trap};
use ctype_bin::BinError;
use error_numbers::Numbered;
use memory::MemoryError;
use opening::{OpenError, binary_number, text_number};
use package_values::JsonError;
use std::alloc::AllocError;
use std::fmt::Write;
use thiserror::Error;
use wit_text::TextError;
use words::WordsError;

/// A usage fault, a refusal or a fault of the call. It is displayed as the program's line on standard
/// error.
#[derive(Debug, Drop, Error)]
pub enum Refused {
    #[error(transparent)]
    Words(#[from] WordsError),
    #[error("error 64 file")]
    File,
    #[error(transparent)]
    Open(OpenError),
    /// The binary of a package is too long.
    #[error(transparent)]
    Binary(BinError),
    /// The canonical text of a package is too long.
    #[error(transparent)]
    Text(TextError),
    #[error("error 63 no function")]
    NoFunction,
    #[error(transparent)]
    Json(JsonError),
    #[error(transparent)]
    Memory(MemoryError),
    #[error("{0}")]
    Trap(Trap),
    #[error("error 65 write")]
    Write,
    #[error("error 66 no memory")]
    NoMemory,
}

impl From<AllocError> for Refused {
    ghost use Rattle.std.specs.Prelude.{◌≡◌};
    ghost use Rattle.witcall.specs.declared.refused.Refused.TheVariants.{NoMemory};

    ghost from_gives = { λ _ e. e ≡ NoMemory };

    fn from(_error: AllocError) -> Refused {
        Refused::NoMemory
    }
}

impl From<OpenError> for Refused {
    ghost use Rattle.std.specs.Prelude.{◌≡◌};
    ghost use Rattle.witcall.specs.declared.refused.Refused.TheVariants.{Open};

    ghost from_gives = { λ error e. e ≡ Open error };

    fn from(error: OpenError) -> Refused {
        Refused::Open(error)
    }
}

impl From<BinError> for Refused {
    ghost use Rattle.std.specs.Prelude.{◌≡◌};
    ghost use Rattle.witcall.specs.declared.refused.Refused.TheVariants.{Binary};

    ghost from_gives = { λ error e. e ≡ Binary error };

    fn from(error: BinError) -> Refused {
        Refused::Binary(error)
    }
}

impl From<TextError> for Refused {
    ghost use Rattle.std.specs.Prelude.{◌≡◌};
    ghost use Rattle.witcall.specs.declared.refused.Refused.TheVariants.{Text};

    ghost from_gives = { λ error e. e ≡ Text error };

    fn from(error: TextError) -> Refused {
        Refused::Text(error)
    }
}

impl From<JsonError> for Refused {
    ghost use Rattle.std.specs.Prelude.{◌≡◌};
    ghost use Rattle.witcall.specs.declared.refused.Refused.TheVariants.{Json};

    ghost from_gives = { λ error e. e ≡ Json error };

    fn from(error: JsonError) -> Refused {
        Refused::Json(error)
    }
}

impl From<MemoryError> for Refused {
    ghost use Rattle.std.specs.Prelude.{◌≡◌};
    ghost use Rattle.witcall.specs.declared.refused.Refused.TheVariants.{Memory};

    ghost from_gives = { λ error e. e ≡ Memory error };

    fn from(error: MemoryError) -> Refused {
        Refused::Memory(error)
    }
}

impl From<Fault> for Refused {
    ghost use Rattle.std.specs.Prelude.{◌≡◌};
    ghost use Rattle.witcall.specs.Status.{refusal_of};

    ghost from_gives = { λ fault e. e ≡ refusal_of fault };

    fn from(fault: Fault) -> Refused {
        match fault {
            Fault::Trap(trap) => Refused::Trap(trap),
            Fault::NoMemory => Refused::NoMemory,
        }
    }
}

/// The number of why no memory was made: 53 to 55.
pub fn memory_number(error: &MemoryError) -> u32
    ensures { result ≡ memory_number error.now }
{
    match error {
        MemoryError::MemoryLimit => 53,
        MemoryError::NoMemory => 54,
        MemoryError::BadPages => 55,
    }
}

/// That of its line, for a trap that of its kind. 0 for words that are no command, since the usage line has no number.
impl Numbered for Refused {
    ghost use Rattle.witcall.specs.Status.{refused_number};

    ghost number_of = { refused_number };

    fn number(&self) -> u32 {
        match self {
            Refused::Words(WordsError::Usage) => 0,
            Refused::Words(WordsError::NoMemory) | Refused::NoMemory => 66,
            Refused::File => 64,
            Refused::Open(error) => error.number(),
            Refused::Binary(error) => binary_number(error),
            Refused::Text(error) => text_number(error),
            Refused::NoFunction => 63,
            Refused::Json(error) => error.number(),
            Refused::Memory(error) => memory_number(error),
            Refused::Trap(trap) => trap.number(),
            Refused::Write => 65,
        }
    }
}

impl Refused {
    /// The exit status: 2 for wrong words, 3 for a trap, 1 for any other refusal.
    pub fn status(&self) -> u8
        ensures { result ≡ exit_status self.now }
    {
        match self {
            Refused::Words(WordsError::Usage) => 2,
            Refused::Trap(_) => 3,
            _ => 1,
        }
    }
}

/// Writes the line of a refusal, and answers its exit status. It takes no memory of the host.
pub fn report<W: Sink>(refused: &Refused, writer: &mut W) -> u8
    requires { W.has_failed writer.old ≡ false }
    ensures { result ≡ exit_status refused.now }
{
    let mut line = Line::new(writer);
    let _written = writeln!(line, "{refused}");
    refused.status()
}
