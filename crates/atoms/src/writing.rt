//! Writing a whole output.

ghost use Rattle.std.specs.Prelude.{◌≡◌, ◌≤◌, ℕ, false, is_err, length, take, OnOk, OnErr};
ghost use Rattle.std.specs.Io.KnownBytes.{Appends};

use crate::stream::{Failed, Sink};

/// Writes all the bytes, or a beginning of them where a write fails.
pub fn write_all<W: Sink>(writer: &mut W, bytes: &[u8]) -> Result<(), Failed>
    requires { W.has_failed writer.old ≡ false }
    ensures ok { OnOk result (Appends (W.contents writer.old) (W.contents writer.new) bytes.now) }
    ensures err { OnErr result ((count : ℕ) × (count ≤ length bytes.now)
        × Appends (W.contents writer.old) (W.contents writer.new) (take count bytes.now)) }
    ensures failed { W.has_failed writer.new ≡ is_err result }
{
    let mut start = 0;
    while start < bytes.len() {
        let (_written, rest) = bytes.split_at(start);
        start += writer.write(rest)?;
    }
    Ok(())
}
