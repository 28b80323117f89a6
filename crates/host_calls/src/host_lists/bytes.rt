//! Bytes in a host's array.
ghost use Rattle.host_calls.specs.Told.{BytesDone};

use crate::CallError;

/// Copies these bytes to the front of an array, and answers how many they are. 71 if there is no room for them.
pub fn tell_bytes(bytes: &[u8], out: &mut [u8]) -> Result<usize, CallError>
    ensures { BytesDone bytes.now out.old result out.new }
{
    if out.len() < bytes.len() {
        return Err(CallError::NoRoom(bytes.len()));
    }
    out[..bytes.len()].copy_from_slice(bytes);
    Ok(bytes.len())
}
