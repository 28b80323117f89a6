//! Decoding a whole input.
ghost use Rattle.std.specs.Prelude.{◌≡◌, ◌≢◌, ◌≤◌, ℕ, List, true, false, length, IfOk, IfErr, IfSome, MatchResult, Err};
ghost use Rattle.std.specs.Io.KnownBytes.{Consumes};
ghost use Rattle.atoms.specs.Streams.{ReadsUpTo, ConsumesMany};
ghost use Rattle.ctype_format.specs.File.{component_file, fault_placed, FaultyBinary, Decodes, DecodesOrReads};
ghost use Rattle.ctype_format.specs.Raw.{BinaryFile};
ghost use Rattle.ctype_bin.specs.FileView.{raw_component_view};

use crate::component::RawComponent;
use crate::sections::{MAX_LENGTH, file_of};
use atoms::{ReadUpToError, Source, read_up_to};
use ctype_format::{BinError, Fault, ItemError, Stuck};
use std::alloc::Global;

/// A fault with its place.
fn placed(len: usize, stuck: Stuck) -> BinError
    requires { len ≤ 1048576 }
    ensures { result ≡ fault_placed len stuck }
{
    match stuck {
        Stuck::End => BinError::At(Fault::Truncated, len),
        Stuck::At(fault, left) => BinError::At(fault, len.saturating_sub(left)),
        Stuck::Past(more) => BinError::At(Fault::SizeMismatch, len + more as usize),
    }
}

#[tactic(auto, unfolding(ctype_format::specs::File::decoded))]
fn decode_bytes(alloc: Global, bytes: &[u8]) -> Result<RawComponent, BinError>
    ensures { Decodes raw_component_view result bytes.now }
{
    let len = bytes.len();
    if len > MAX_LENGTH {
        return Err(BinError::At(Fault::Limit, MAX_LENGTH));
    }
    match file_of(alloc, bytes) {
        Ok(component) => Ok(component),
        Err(ItemError::Stuck(stuck)) => Err(placed(len, stuck)),
        Err(ItemError::Memory) => Err(BinError::NoMemory),
    }
}

/// The component that the bytes spell, all of them, or the first fault from left to right with its place: 10 to 19, 22
/// and 23, among them 17 at 1,048,576 for more bytes than that; 21 where memory is wanting. (Binary.md)
pub fn decode(alloc: Global, bytes: &[u8]) -> Result<RawComponent, BinError>
    ensures spelt { IfOk result (λ c. (length bytes.now ≤ 1048576)
        × component_file.spells bytes.now (raw_component_view c)) }
    ensures only { (f : BinaryFile) → length bytes.now ≤ 1048576 → component_file.spells bytes.now f
        → MatchResult result (λ c. raw_component_view c ≡ f) (λ e. e ≡ BinError.NoMemory) }
    ensures first { IfErr result (λ e. FaultyBinary bytes.now e) }
    // The same as one function of the bytes.
    ensures exact { Decodes raw_component_view result bytes.now }
{
    decode_bytes(alloc, bytes)
}

/// Reads to the end, or to the first byte past the limit of 1,048,576, and decodes that: the same answer however a
/// reader that tells its bytes cuts them. 20 at the number of bytes got where the reader fails.
pub fn decode_from<R: Source>(alloc: Global, reader: &mut R) -> Result<RawComponent, BinError>
    requires { R.has_failed reader.old ≡ false }
    ensures decoded { IfSome (R.remaining reader.old) (λ bytes. DecodesOrReads raw_component_view result bytes) }
    ensures cut { (bytes : List ℕ) × ReadsUpTo 1048576 (R.remaining reader.old) bytes
        × DecodesOrReads raw_component_view result bytes }
    ensures failed { R.has_failed reader.new ≡ true → (n : ℕ) × (result ≡ Err (BinError.Read n)) }
    ensures read { (n : ℕ) → result ≡ Err (BinError.Read n) →
        ((R.has_failed reader.new ≡ true) × ConsumesMany (R.remaining reader.old) (R.remaining reader.new) n) }
    ensures rest { R.has_failed reader.new ≡ false → result ≢ Err BinError.NoMemory
        → (bytes : List ℕ) × ReadsUpTo 1048576 (R.remaining reader.old) bytes
        × Consumes (R.remaining reader.old) (R.remaining reader.new) bytes }
{
    match read_up_to(alloc, reader, MAX_LENGTH) {
        Ok(bytes) => decode(alloc, &bytes),
        Err(ReadUpToError::Failed(count)) => Err(BinError::Read(count)),
        Err(ReadUpToError::NoMemory) => Err(BinError::NoMemory),
    }
}
