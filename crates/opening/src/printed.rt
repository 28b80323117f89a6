//! The canonical text of a package.

ghost use Rattle.std.specs.Prelude.{◌≡◌, ◌≤◌, ◌⊎◌, length, IfOk, IfErr};
ghost use Rattle.std.specs.String.{string_bytes};
ghost use Rattle.wit_tokens.specs.Lexing.{limit};
ghost use Rattle.opening.specs.Opening.{IsCanonicalText, IsPrintedAs, IsLongText};

use crate::package::{MAX_INPUT, Package};
use package_text::print;
use std::alloc::Global;
use wit_text::TextError;

impl Package {
    /// The canonical text of the package, which is opened as the same package behind the same packages. 36 where it
    /// would have more than 1,048,576 bytes; 35 where memory is wanting. (WIT.md)
    #[tactic(auto, unfolding(wit_tokens::specs::Lexing::limit))]
    pub fn to_text(&self, alloc: Global) -> Result<String, TextError>
        ensures ok { IfOk result (λ text. IsCanonicalText self.now.resolve (string_bytes text)) }
        ensures short { IfOk result (λ text. length (string_bytes text) ≤ limit) }
        ensures printed { IfOk result (λ text. ∥ IsPrintedAs (string_bytes text) self.now.resolve ∥₁) }
        ensures err { IfErr result (λ e. (e ≡ TextError.NoMemory) ⊎ IsLongText self.now.resolve e) }
    {
        let last = self.last(alloc)?;
        let mut text = String::new(alloc);
        print(alloc, last.table(), &mut text)?;
        if text.len() > MAX_INPUT {
            return Err(TextError::Limit);
        }
        Ok(text)
    }
}
