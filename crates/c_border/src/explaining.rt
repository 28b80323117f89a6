//! What is wrong with texts of WIT.
ghost use Rattle.c_border.specs.Explained.{Explains};

use crate::set::pieces;
use checked_packages::faults_of;
use host_calls::CallError;
use host_calls::host_lists::tell_bytes;
use std::alloc::Global;

/// Tells the faults of the texts of these lengths, whose bytes stand one after another: 74 if there is none, or the
/// lengths are not together that of the bytes.
pub fn explain(
    alloc: Global,
    bytes: &[u8],
    lengths: &[usize],
    out: &mut [u8],
) -> Result<usize, CallError>
    ensures { Explains bytes.now lengths.now out.old result out.new }
{
    let texts = pieces(alloc, bytes, lengths)?;
    match faults_of(alloc, texts.as_slice()) {
        Ok(faults) => tell_bytes(faults.as_str().as_bytes(), out),
        Err(_) => Err(CallError::NoMemory),
    }
}
