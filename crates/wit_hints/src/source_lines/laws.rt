//! What is true of all texts.
ghost use Rattle.wit_hints.specs.Lines.{EndInOneLine};

/// A text ends in one part of a line: `before` of a place is no other text.
pub fn texts_end_in_one_line()
    ensures { EndInOneLine }
{}
