//! What holds of tokens, whatever the text.
ghost use Rattle.std.specs.Prelude.{ℕ, List};
ghost use Rattle.wit_tokens.specs.Laws.{OneLexing, BadIsRefused, OpenIsRefused};

/// A text has at most one list of tokens, and none where a character, a word or a comment in it is bad.
pub fn texts_have_one_lexing()
    ensures one { (text : List ℕ) → OneLexing text }
    ensures bad { (text : List ℕ) → BadIsRefused text }
    ensures unclosed { (text : List ℕ) → OpenIsRefused text }
{}
