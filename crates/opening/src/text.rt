//! Bytes as a text.

ghost use Rattle.std.specs.Prelude.{◌≡◌, ◌<◌, ◌⊎◌, length, IfOk, IfErr, OnErr};
ghost use Rattle.std.specs.Str.{IsUtf8};
ghost use Rattle.wit_tokens.specs.Lexing.{limit};
ghost use Rattle.opening.specs.Sets.{IsNoText};

use crate::package::{MAX_INPUT, OpenError};
use wit_text::TextError;

/// The bytes as a text.
#[tactic(auto, unfolding(wit_tokens::specs::Lexing::limit))]
pub fn text_of(bytes: &[u8]) -> Result<&str, OpenError>
    ensures ok { IfOk result (λ text. text.now ≡ bytes.now) }
    ensures utf8 { IfOk result (λ _. IsUtf8 bytes.now) }
    ensures refused { OnErr result ((limit < length bytes.now) ⊎ (IsUtf8 bytes.now → ⊥)) }
    ensures err { IfErr result (IsNoText bytes.now) }
{
    if bytes.len() > MAX_INPUT {
        return Err(OpenError::Text(TextError::Limit));
    }
    match simdutf8::compat::from_utf8(bytes) {
        Ok(text) => Ok(text),
        Err(error) => Err(OpenError::NotUtf8(error.valid_up_to())),
    }
}
