//! Reading a whole input.

ghost use Rattle.std.specs.Prelude.{◌≡◌, ℕ, true, false, Err, OnOk, IfOk, IfErr};
ghost use Rattle.std.specs.Io.KnownBytes.{Consumes};
ghost use Rattle.atoms.specs.Streams.{ReadsUpTo, ConsumesMany};
ghost use Rattle.witcall.specs.Running.{IsReadFault};

use atoms::{ReadUpToError, Source, read_up_to};
use opening::{MAX_INPUT, OpenError};
use std::alloc::Global;

/// All the bytes of a reader, or the first 1,048,577 if there are more, however they are cut. If a
/// read fails this is 20, with the number of bytes that came before.
pub fn read_all<R: Source>(alloc: Global, reader: &mut R) -> Result<Vec<u8>, OpenError>
    requires { R.has_failed reader.old ≡ false }
    ensures bytes { IfOk result (λ v. ReadsUpTo 1048576 (R.remaining reader.old) v.items) }
    ensures rest { IfOk result (λ v. Consumes (R.remaining reader.old) (R.remaining reader.new) v.items) }
    ensures err { IfErr result IsReadFault }
    ensures ok { OnOk result (R.has_failed reader.new ≡ false) }
    ensures failing { R.has_failed reader.new ≡ true → (n : ℕ) × (result ≡ Err (OpenError.Read n)) }
    ensures memory { result ≡ Err OpenError.NoMemory → R.has_failed reader.new ≡ false }
    ensures failed { (n : ℕ) → result ≡ Err (OpenError.Read n) →
        ((R.has_failed reader.new ≡ true) × ConsumesMany (R.remaining reader.old) (R.remaining reader.new) n) }
{
    match read_up_to(alloc, reader, MAX_INPUT) {
        Ok(bytes) => Ok(bytes),
        Err(ReadUpToError::Failed(place)) => Err(OpenError::Read(place)),
        Err(ReadUpToError::NoMemory) => Err(OpenError::NoMemory),
    }
}
