//! The tokens of a text, and where a reader stands among them.
ghost use Rattle.std.specs.Prelude.{◌≡◌, ◌≤◌, length, All};
ghost use Rattle.wit_tokens.specs.Lexing.{limit};
ghost use Rattle.wit_tokens.specs.Tokens.{IsNamed};

use wit_tokens::Token;

/// The tokens of a text. Each identifier among them is a label.
#[derive(Clone, Copy)]
pub struct Tokens<'a> {
    pub text: &'a [u8],
    pub list: &'a [Token],
    pub ghost named: { All (IsNamed text.now) list.now },
    pub ghost few: { length list.now ≤ limit },
}

impl Tokens<'_> {
    ghost use Rattle.std.specs.Prelude.{◌≡◌, ◌<◌, ◌∷◌, [], IfSome, IfNone};
    ghost use Rattle.wit_tokens.specs.Tokens.{lexeme, IsNamed};
    ghost use Rattle.wit_grammar.specs.Left.{tokens_from, count_from};

    /// The token with this index and the index behind it, if there is one.
    pub fn next(&self, at: usize) -> Option<(Token, usize)>
        ensures some { IfSome result (λ x. tokens_from self.now at
            ≡ lexeme self.now.text.now x.0 ∷ tokens_from self.now x.1) }
        ensures named { IfSome result (λ x. IsNamed self.now.text.now x.0) }
        ensures shorter { IfSome result (λ x. count_from self.now x.1 < count_from self.now at) }
        ensures none { IfNone result (tokens_from self.now at ≡ []) }
    {
        if at < self.list.len() {
            Some((self.list[at], at + 1))
        } else {
            None
        }
    }
}
