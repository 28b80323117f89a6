//! Reading a whole input, up to a limit.

ghost use Rattle.std.specs.Prelude.{◌≡◌, ◌<◌, ◌^◌, ℕ, true, false, IfOk, OnOk, Err};
ghost use Rattle.std.specs.Io.KnownBytes.{Consumes};
ghost use Rattle.atoms.specs.Streams.{ReadsUpTo, ConsumesMany};

use crate::stream::{Failed, Source};
use std::alloc::{AllocError, Global};

/// The bytes that one read asks for at most.
const CHUNK: usize = 4096;

/// Why an input was not read.
#[derive(Clone, Copy, Debug, PartialEq, Eq)]
pub enum ReadUpToError {
    /// The reader failed, after so many bytes.
    Failed(usize),
    NoMemory,
}

impl From<AllocError> for ReadUpToError {
    ghost use Rattle.std.specs.Prelude.{◌≡◌};
    ghost use Rattle.atoms.specs.declared.reading.ReadUpToError.TheVariants.{NoMemory};

    ghost from_gives = { λ _ e. e ≡ NoMemory };

    fn from(_e: AllocError) -> ReadUpToError {
        ReadUpToError::NoMemory
    }
}

/// Reads to the end, or to the first byte past the limit, a number of bytes.
pub fn read_up_to<R: Source>(
    alloc: Global,
    reader: &mut R,
    limit: usize,
) -> Result<Vec<u8>, ReadUpToError>
    requires ready { R.has_failed reader.old ≡ false }
    requires small { limit < 2 ^ 32 }
    ensures bytes { IfOk result (λ v. ReadsUpTo limit (R.remaining reader.old) v.items) }
    ensures rest { IfOk result (λ v. Consumes (R.remaining reader.old) (R.remaining reader.new) v.items) }
    ensures ok { OnOk result (R.has_failed reader.new ≡ false) }
    ensures failed { (n : ℕ) → result ≡ Err (ReadUpToError.Failed n) →
        ((R.has_failed reader.new ≡ true) × ConsumesMany (R.remaining reader.old) (R.remaining reader.new) n) }
    ensures memory { result ≡ Err ReadUpToError.NoMemory → R.has_failed reader.new ≡ false }
{
    let mut bytes = Vec::new(alloc);
    let mut buf = [0; CHUNK];
    while bytes.len() <= limit {
        let room = buf.len().min(limit + 1 - bytes.len());
        let count = match reader.read(&mut buf[..room]) {
            Ok(count) => count,
            Err(Failed) => return Err(ReadUpToError::Failed(bytes.len())),
        };
        if count == 0 {
            break;
        }
        bytes.extend_from_slice(&buf[..count])?;
    }
    Ok(bytes)
}
