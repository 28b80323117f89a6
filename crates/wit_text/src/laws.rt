//! What holds of the grammar, whatever the text.
ghost use Rattle.std.specs.Prelude.{ℕ, List};
ghost use Rattle.wit_text.specs.Laws.{FilesAreExact, FaultsAreFinal, NoneAtAnyNesting, OneFile, HasFullNames};

/// Reading a file finds just what its production spells, or its first fault; where a fault is met no file begins with
/// the tokens up to there; and tokens spell at most one file.
pub fn files_are_read_exactly()
    ensures exact { (end n : ℕ) → FilesAreExact end n }
    ensures begun { (end : ℕ) → FaultsAreFinal end }
    ensures anyhow { (end : ℕ) → NoneAtAnyNesting end }
    ensures one { (end : ℕ) → OneFile end }
{}

/// What a text's package and its interfaces are named makes full names.
pub fn texts_have_full_names()
    ensures { (text : List ℕ) → HasFullNames text }
{}
