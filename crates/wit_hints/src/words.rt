//! Words that are near to others.

use near_names::nearest;
use text_builder::TextBuilder;

/// The nearest of these names to a word, if one is near. A refused allocation is noted in the text of the hint.
pub fn near<'a>(text: &mut TextBuilder, word: &str, names: &[&'a str]) -> Option<&'a str> {
    match nearest(text.alloc(), word, names) {
        Ok(found) => found,
        Err(_) => {
            text.refuse();
            None
        }
    }
}
