//! Why a file is no package, or can't be read.
ghost use Rattle.std.specs.Prelude.{◌≡◌, IfOk};
ghost use Rattle.wit_faults.specs.Wanting.{lacks_memory, IsTold};

use layout::LayoutError;
use layout_limits::Refused;
use std::alloc::AllocError;
use tables::ResolveError;
use thiserror::Error;
use wit_text::TextError;

/// Why a file can't be read.
#[derive(Clone, Copy, Debug, Error)]
pub enum ReadError {
    /// It can be opened, and reading it failed after so many bytes.
    #[error("error 20 read at {0}")]
    Read(usize),
    #[error("error 64 file")]
    File,
    /// It is a folder.
    #[error("no file of this folder ends in `.wit`")]
    Folder,
    #[error("error 66 no memory")]
    NoMemory,
}

/// Why a file is no package of a set. It is displayed as `witcall` displays it.
#[derive(Debug, Drop, Error)]
pub enum Cause {
    #[error(transparent)]
    Read(ReadError),
    /// The length of the longest front that is UTF-8.
    #[error("error 60 not UTF-8 at {0}")]
    NotUtf8(usize),
    #[error(transparent)]
    Text(TextError),
    #[error(transparent)]
    Resolve(ResolveError),
    /// The layouts of a package, with what is above their limits.
    #[error("{0}")]
    Layout(LayoutError, Option<Refused>),
}

impl Cause {
    /// Whether an allocation was refused, which is no fault of a file.
    pub fn lacks_memory(&self) -> bool
        ensures { result ≡ lacks_memory self.now }
    {
        matches!(
            self,
            Cause::Read(ReadError::NoMemory)
                | Cause::Text(TextError::NoMemory)
                | Cause::Resolve(ResolveError::NoMemory)
                | Cause::Layout(LayoutError::NoMemory, _)
        )
    }

    /// The fault of a file, unless an allocation was refused.
    pub fn told(self) -> Result<Cause, AllocError>
        ensures { IfOk result (λ cause. (cause ≡ self) × IsTold cause) }
    {
        if self.lacks_memory() {
            return Err(AllocError);
        }
        Ok(self)
    }
}

impl From<AllocError> for Cause {
    fn from(_error: AllocError) -> Cause {
        Cause::Read(ReadError::NoMemory)
    }
}

impl From<TextError> for Cause {
    fn from(error: TextError) -> Cause {
        Cause::Text(error)
    }
}

impl From<ResolveError> for Cause {
    fn from(error: ResolveError) -> Cause {
        Cause::Resolve(error)
    }
}
