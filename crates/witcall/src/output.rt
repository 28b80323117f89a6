//! Writing a whole output.

ghost use Rattle.std.specs.Prelude.{◌≡◌, ◌≤◌, ℕ, false, length, take, is_err, IfErr, OnOk, OnErr};
ghost use Rattle.std.specs.Io.KnownBytes.{Appends};

use crate::refused::Refused;
use atoms::{Sink, write_all};

/// Writes all the bytes: 65 if a write fails, and then a beginning of them is written.
pub fn write_bytes<W: Sink>(writer: &mut W, bytes: &[u8]) -> Result<(), Refused>
    requires { W.has_failed writer.old ≡ false }
    ensures ok { OnOk result (Appends (W.contents writer.old) (W.contents writer.new) bytes.now) }
    ensures begun { OnErr result ((count : ℕ) × (count ≤ length bytes.now)
        × Appends (W.contents writer.old) (W.contents writer.new) (take count bytes.now)) }
    ensures err { IfErr result (λ e. e ≡ Refused.Write) }
    ensures failed { W.has_failed writer.new ≡ is_err result }
{
    match write_all(writer, bytes) {
        Ok(()) => Ok(()),
        Err(_failed) => Err(Refused::Write),
    }
}
