//! Types with types between `<` and `>` where none may stand.

use wit_findings::{Draft, Spot, closing};
use wit_tokens::Punctuation;

/// What to do about a `<` behind the name of what is declared. Whether one is here.
pub(crate) fn of_parameters_of_types(draft: &mut Draft, spot: Spot<'_>) -> bool {
    if spot.mark(spot.at) != Some(Punctuation::Less) {
        return false;
    }
    draft.say(&["WIT has no type parameters: leave out `<` and what comes up to the `>`"]);
    if let Some(close) = closing(spot, spot.at) {
        draft.write(spot.start(spot.at), spot.end(close), &[]);
    }
    if spot.before() == "func" {
        draft.muted = spot.line_end(spot.at);
    }
    true
}
