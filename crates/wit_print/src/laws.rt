//! What holds of canonical text.
ghost use Rattle.wit_tokens.specs.Syntax.{File};
ghost use Rattle.wit_print.specs.Laws.{IsReadBack};

/// The canonical text of a file whose names are labels is read as that file, but for where its items stand.
pub fn canonical_text_is_read_back()
    ensures { (f : File) → IsReadBack f }
{}
