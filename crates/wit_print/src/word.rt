//! Single words of a text, each behind the blanks before it.
ghost use Rattle.std.specs.Prelude.{◌∷◌, [], OnOk};
ghost use Rattle.wit_print.specs.Words.{mark_word, keyword_word, name_word, version_word};
ghost use Rattle.wit_print.specs.Adding.{AddsWords};

use atoms::Label;
use std::alloc::AllocError;
use wit_tokens::{Keyword, Punctuation, keyword_of, mark_text, spelling};

/// Puts a mark behind the text.
pub(crate) fn write_mark(out: &mut String, space: &str, mark: Punctuation) -> Result<(), AllocError>
    ensures { OnOk result (AddsWords (mark_word space.now mark ∷ []) out.old out.new) }
{
    out.push_str(space)?;
    out.push_str(mark_text(mark))
}

/// Puts a keyword behind the text.
pub(crate) fn write_keyword(
    out: &mut String,
    space: &str,
    keyword: Keyword,
) -> Result<(), AllocError>
    ensures { OnOk result (AddsWords (keyword_word space.now keyword ∷ []) out.old out.new) }
{
    out.push_str(space)?;
    out.push_str(spelling(keyword))
}

/// Puts a name behind the text, with `%` before one that is spelled as a keyword.
pub(crate) fn write_name(out: &mut String, space: &str, name: &Label) -> Result<(), AllocError>
    ensures { OnOk result (AddsWords (name_word space.now name.now ∷ []) out.old out.new) }
{
    out.push_str(space)?;
    if keyword_of(name.as_bytes()).is_some() {
        out.push('%')?;
    }
    out.push_str(name.as_str())
}

/// Puts a version behind the text, with its `@`.
pub(crate) fn write_version(out: &mut String, version: &str) -> Result<(), AllocError>
    ensures { OnOk result (AddsWords (version_word version.now ∷ []) out.old out.new) }
{
    out.push('@')?;
    out.push_str(version)
}
