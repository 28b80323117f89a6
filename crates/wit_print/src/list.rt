//! What stands between the entries of a list.
ghost use Rattle.std.specs.Prelude.{◌≡◌, ◌++◌, OnOk, IfOk};
ghost use Rattle.wit_print.specs.Pieces.{comma_at, space_at};
ghost use Rattle.wit_print.specs.Adding.{AddsWords};

use crate::word::write_mark;
use std::alloc::AllocError;
use wit_tokens::Punctuation;

/// Puts the comma behind the text that stands before the entry at this place, but for the first. Answers the blanks
/// before the entry.
pub(crate) fn write_comma(out: &mut String, index: usize) -> Result<&'static str, AllocError>
    ensures comma { OnOk result (AddsWords (comma_at index) out.old out.new) }
    ensures space { IfOk result (λ s. s.now ≡ space_at index) }
{
    if index == 0 {
        return Ok("");
    }
    write_mark(out, "", Punctuation::Comma)?;
    Ok(" ")
}
