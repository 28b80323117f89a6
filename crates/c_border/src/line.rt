//! Lines of text in arrays of bytes.
ghost use Rattle.std.specs.Prelude.{◌≡◌, ◌+◌, ◌-◌, ◌^◌, ◌⊎◌, length, IfSome, Err};
ghost use Rattle.c_border.specs.Line.{FitsRoom, LineDone, counted};
ghost use Rattle.c_border.specs.Writing.{put_over};
ghost use Rattle.host_calls.specs.declared.error.CallError.TheVariants.{NoRoom};

use host_calls::CallError;
use std::fmt::{self, Display, Write};

/// A line that is told at the front of an array, and how many bytes it has: those for which there is no room are
/// counted alone.
#[derive(Drop)]
struct Line<'a> {
    out: &'a mut [u8],
    count: usize,
}

impl<'a> fmt::Write for Line<'a> {
    ghost write_str_gives = { λ s bytes t. (t.out.now ≡ put_over s.out.now s.count bytes)
        × (t.count ≡ counted (s.count + length bytes)) × (t.out.ghost_name ≡ s.out.ghost_name) };

    fn write_str(&mut self, text: &str) -> fmt::Result {
        let bytes = text.as_bytes();
        let start = self.count.min(self.out.len());
        let fitting = bytes.len().min(self.out.len() - start);
        self.out[start..start + fitting].copy_from_slice(&bytes[..fitting]);
        self.count = self.count.saturating_add(bytes.len());
        Ok(())
    }
}

/// Tells what is displayed, with no line end, and answers how many bytes it has. 71 with that count where there is no
/// room for them, and then those stand in the array for which there is room. 71 with the greatest count where displaying
/// stops by itself, as none of the library's does.
pub fn tell_line<T: Display>(shown: &T, out: &mut [u8]) -> Result<usize, CallError>
    ensures told { IfSome (T.output shown.now) (λ line. LineDone line out.old result out.new)
        ⊎ (result ≡ Err (NoRoom (2 ^ 64 - 1))) }
    ensures room { FitsRoom (length out.old) result }
{
    let room = out.len();
    let mut line = Line { out, count: 0 };
    let has_failed = write!(line, "{shown}").is_err();
    let Line { out: _out, count } = line;
    if has_failed {
        return Err(CallError::NoRoom(usize::MAX));
    }
    if room < count {
        return Err(CallError::NoRoom(count));
    }
    Ok(count)
}
