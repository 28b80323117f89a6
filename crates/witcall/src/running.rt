//! What is made of a whole input, and written.

ghost use Rattle.std.specs.Prelude.{◌≡◌, ◌≢◌, ◌≤◌, ◌⊎◌, ◌∷◌, ◌++◌, [], ℕ, List, true, false, length, take, Err, IfOk};
ghost use Rattle.std.specs.Prelude.{IfErr, OnOk, IsErrOf};
ghost use Rattle.std.specs.Io.KnownBytes.{Appends, Consumes, Keeps};
ghost use Rattle.atoms.specs.Streams.{ReadsUpTo, ConsumesMany};
ghost use Rattle.opening.specs.Opening.{IsOpened, OpenRefuses};
ghost use Rattle.opening.specs.Sets.{all_bytes};
ghost use Rattle.witcall.specs.Running.{all_items, IsOutputOfJob, MakesOutput, MakingRefuses, RunRefuses};

use crate::output::write_bytes;
use crate::reading::read_all;
use crate::refused::Refused;
use atoms::{Sink, Source};
use opening::{OpenError, Package, open_set};
use overview::{laid_out, shown};
use std::alloc::{AllocError, Global};
use words::asked::Job;

/// What a job makes of a package, whole.
fn made(alloc: Global, job: Job, package: &Package) -> Result<Vec<u8>, Refused>
    ensures ok { IfOk result (λ v. IsOutputOfJob job «package».now.resolve v.items) }
    ensures err { IfErr result (MakingRefuses job «package».now.resolve) }
{
    match job {
        Job::Show => Ok(shown(alloc, package.resolve())?.into_bytes()),
        Job::Bin => Ok(package.to_binary(alloc)?),
        Job::Text => Ok(package.to_text(alloc)?.into_bytes()),
        Job::Layout => Ok(laid_out(alloc, package.resolve(), package.layouts())?.into_bytes()),
    }
}

/// Does a job with all the bytes of a reader, and writes what it makes, once it is whole: `run_set` with no package.
/// Faults come in this order: 20, those of `open`, 17, 36 or out of memory, 65; only after 65 a beginning may have
/// been written. All bytes are read before anything is opened, so if a read fails the fault is 20, whatever the bytes
/// are.
pub fn run<R: Source, W: Sink>(
    alloc: Global,
    job: Job,
    reader: &mut R,
    writer: &mut W,
) -> Result<(), Refused>
    requires reader { R.has_failed reader.old ≡ false }
    requires writer { W.has_failed writer.old ≡ false }
    ensures ok { OnOk result ((output : List ℕ) × MakesOutput [] (R.remaining reader.old) job output
        × Appends (W.contents writer.old) (W.contents writer.new) output) }
    ensures begun { IsErrOf result Refused.Write → (output : List ℕ) × (count : ℕ)
        × MakesOutput [] (R.remaining reader.old) job output
        × (count ≤ length output) × Appends (W.contents writer.old) (W.contents writer.new) (take count output) }
    ensures err { IfErr result (RunRefuses [] (R.remaining reader.old) job) }
    ensures memory { result ≡ Err (Refused.Open OpenError.NoMemory) → R.has_failed reader.new ≡ false }
    ensures failed { (n : ℕ) → result ≡ Err (Refused.Open (OpenError.Read n)) →
        ((R.has_failed reader.new ≡ true) × ConsumesMany (R.remaining reader.old) (R.remaining reader.new) n) }
    ensures failing { R.has_failed reader.new ≡ true → (n : ℕ) × (result ≡ Err (Refused.Open (OpenError.Read n))) }
    ensures whole { R.has_failed reader.new ≡ false → result ≢ Err (Refused.Open OpenError.NoMemory)
        → (bytes : List ℕ) × ReadsUpTo 1048576 (R.remaining reader.old) bytes
        × Consumes (R.remaining reader.old) (R.remaining reader.new) bytes }
    ensures broken { IsErrOf result Refused.Write → W.has_failed writer.new ≡ true }
    ensures unbroken { W.has_failed writer.new ≡ true → IsErrOf result Refused.Write }
    ensures unwritten { IfErr result (λ e. e ≢ Refused.Write → Keeps (W.contents writer.old) (W.contents writer.new)) }
{
    run_set(alloc, job, &[], reader, writer)
}

/// The bytes of packages: the last may depend on the earlier ones.
fn all_inputs<'a>(
    alloc: Global,
    earlier: &'a [Vec<u8>],
    last: &'a [u8],
) -> Result<Vec<&'a [u8]>, AllocError>
    ensures { IfOk result (λ inputs. all_bytes inputs.items ≡ all_items earlier.now ++ last.now ∷ []) }
{
    let mut inputs = Vec::new(alloc);
    for bytes in earlier {
        inputs.push(bytes.as_slice())?;
    }
    inputs.push(last)?;
    Ok(inputs)
}

/// Opens a package that may depend on these.
fn opened_behind(alloc: Global, earlier: &[Vec<u8>], last: &[u8]) -> Result<Package, OpenError>
    ensures ok { IfOk result (λ p. IsOpened (all_items earlier.now ++ last.now ∷ []) p.resolve) }
    ensures err { IfErr result (λ e. (e ≡ OpenError.NoMemory)
        ⊎ OpenRefuses (all_items earlier.now ++ last.now ∷ []) e) }
{
    let inputs = all_inputs(alloc, earlier, last)?;
    open_set(alloc, inputs.as_slice())
}

/// Does a job as `run`, with a package that may use interfaces of these, the earlier ones, each of which may use those
/// before it. What is wrong with one of them comes before all that is wrong with the package, except that its bytes are
/// read first.
pub fn run_set<R: Source, W: Sink>(
    alloc: Global,
    job: Job,
    earlier: &[Vec<u8>],
    reader: &mut R,
    writer: &mut W,
) -> Result<(), Refused>
    requires reader { R.has_failed reader.old ≡ false }
    requires writer { W.has_failed writer.old ≡ false }
    ensures ok { OnOk result ((output : List ℕ)
        × MakesOutput (all_items earlier.now) (R.remaining reader.old) job output
        × Appends (W.contents writer.old) (W.contents writer.new) output) }
    ensures begun { IsErrOf result Refused.Write → (output : List ℕ) × (count : ℕ)
        × MakesOutput (all_items earlier.now) (R.remaining reader.old) job output
        × (count ≤ length output) × Appends (W.contents writer.old) (W.contents writer.new) (take count output) }
    ensures err { IfErr result (RunRefuses (all_items earlier.now) (R.remaining reader.old) job) }
    ensures memory { result ≡ Err (Refused.Open OpenError.NoMemory) → R.has_failed reader.new ≡ false }
    ensures failed { (n : ℕ) → result ≡ Err (Refused.Open (OpenError.Read n)) →
        ((R.has_failed reader.new ≡ true) × ConsumesMany (R.remaining reader.old) (R.remaining reader.new) n) }
    ensures failing { R.has_failed reader.new ≡ true → (n : ℕ) × (result ≡ Err (Refused.Open (OpenError.Read n))) }
    ensures whole { R.has_failed reader.new ≡ false → result ≢ Err (Refused.Open OpenError.NoMemory)
        → (bytes : List ℕ) × ReadsUpTo 1048576 (R.remaining reader.old) bytes
        × Consumes (R.remaining reader.old) (R.remaining reader.new) bytes }
    ensures broken { IsErrOf result Refused.Write → W.has_failed writer.new ≡ true }
    ensures unbroken { W.has_failed writer.new ≡ true → IsErrOf result Refused.Write }
    ensures unwritten { IfErr result (λ e. e ≢ Refused.Write → Keeps (W.contents writer.old) (W.contents writer.new)) }
{
    let last = read_all(alloc, reader)?;
    let package = opened_behind(alloc, earlier, last.as_slice())?;
    let whole = made(alloc, job, &package)?;
    write_bytes(writer, whole.as_slice())?;
    Ok(())
}
