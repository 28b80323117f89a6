//! The inputs of a set, as C hands them over: their bytes one after another.
ghost use Rattle.std.specs.Prelude.{◌≡◌, IfOk, IfErr};
ghost use Rattle.opening.specs.Sets.{all_bytes};
ghost use Rattle.c_border.specs.Inputs.{ArePieces, AreNoPieces};

use host_calls::CallError;
use std::alloc::{AllocError, Global};

/// The inputs of these lengths. 74 if there is none, or the lengths are not together that of the bytes.
pub fn pieces<'a>(
    alloc: Global,
    bytes: &'a [u8],
    lengths: &[usize],
) -> Result<Vec<&'a [u8]>, CallError>
    ensures ok { IfOk result (λ inputs. ArePieces bytes.now lengths.now (all_bytes inputs.items)) }
    ensures err { IfErr result (AreNoPieces bytes.now lengths.now) }
{
    if lengths.is_empty() {
        return Err(CallError::BadLengths);
    }
    let mut inputs = Vec::new(alloc);
    let mut rest = bytes;
    for length in lengths {
        let Some((input, others)) = rest.split_at_checked(*length) else {
            return Err(CallError::BadLengths);
        };
        if let Err(error) = inputs.push(input) {
            return Err(AllocError::from(error).into());
        }
        rest = others;
    }
    if !rest.is_empty() {
        return Err(CallError::BadLengths);
    }
    Ok(inputs)
}
