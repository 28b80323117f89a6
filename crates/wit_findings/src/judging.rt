//! What is told of a text that an opening accepted or refused.
ghost use Rattle.std.specs.Prelude.{◌≡◌, ◌≢◌, ◌↔◌, ◌∷◌, [], ℕ, List, IfOk, IfSome, None};
ghost use Rattle.wit_findings.specs.Findings.{AreFindingsOf, IsPlainIn};

use crate::finding::Finding;
use std::alloc::AllocError;

/// What is told of a text: nothing if the opening accepted it, and so refused it with no error. If it refused it, what
/// is known of the text, or its own error if nothing is. Notes count as what is known. If what is known are findings of
/// a text, and the error is in it, then these are its findings, too.
#[tactic(auto, using(crate::proofs::Listing::none_of, crate::proofs::Listing::one_of))]
pub fn judged(mut told: Vec<Finding>, refusal: Option<Finding>) -> Result<Vec<Finding>, AllocError>
    ensures known { told.items ≢ [] → refusal ≢ None → IfOk result (λ fs. fs.items ≡ told.items) }
    ensures own { told.items ≡ [] → IfOk result (λ fs. IfSome refusal (λ first. fs.items ≡ first ∷ [])) }
    ensures opened { IfOk result (λ fs. (fs.items ≡ []) ↔ (refusal ≡ None)) }
    ensures ordered { (text : List ℕ) → AreFindingsOf text told.items → IfSome refusal (IsPlainIn text)
        → IfOk result (λ fs. AreFindingsOf text fs.items) }
{
    match refusal {
        None => told.clear(),
        Some(first) => {
            if told.is_empty() {
                told.push(first)?;
            }
        }
    }
    Ok(told)
}
