//! Lines of tokens.

use crate::source_lines::place_at;
use wit_places::Spot;

/// The line of the token before another one, if this is an earlier line.
pub fn earlier_line(spot: &Spot<'_>) -> Option<usize> {
    let text = spot.lexed.text;
    let earlier = place_at(text, spot.lexed.span_at(spot.before)?.start)?;
    let own = place_at(text, spot.span.start)?;
    if earlier.line < own.line {
        return Some(earlier.line);
    }
    None
}
