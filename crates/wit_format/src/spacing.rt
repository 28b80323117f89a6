//! Which words of a line have a space between them.

use wit_tokens::{PieceKind, Punctuation, TokenKind};
use wit_tree::NodeKind;

/// The mark that a word is, if it is one.
pub fn mark_of(kind: PieceKind) -> Option<Punctuation> {
    match kind {
        PieceKind::Token(TokenKind::Punctuation(mark)) => Some(mark),
        _ => None,
    }
}

/// Whether a word is this mark.
pub fn is_mark(kind: PieceKind, mark: Punctuation) -> bool {
    mark_of(kind) == Some(mark)
}

/// Whether no space is before this mark.
pub fn is_tight_before(mark: Punctuation) -> bool {
    matches!(
        mark,
        Punctuation::Semicolon
            | Punctuation::Comma
            | Punctuation::Dot
            | Punctuation::Colon
            | Punctuation::CloseParenthesis
            | Punctuation::Less
            | Punctuation::Greater
    )
}

/// Whether no space is behind this mark.
fn is_tight_behind(mark: Punctuation) -> bool {
    matches!(
        mark,
        Punctuation::OpenParenthesis | Punctuation::Less | Punctuation::Dot | Punctuation::At
    )
}

/// Whether a mark has a space before it, behind a word.
fn is_mark_spaced(item: NodeKind, last: PieceKind, mark: Punctuation) -> bool {
    match mark {
        Punctuation::OpenParenthesis => is_mark(last, Punctuation::Arrow),
        Punctuation::CloseBrace => {
            item != NodeKind::Use && !is_mark(last, Punctuation::OpenBrace)
        }
        mark => !is_tight_before(mark),
    }
}

/// Whether two words of this item have a space between them, if both are on one line and in no path.
pub fn is_spaced(item: NodeKind, last: PieceKind, next: PieceKind) -> bool {
    if mark_of(last).is_some_and(is_tight_behind) {
        return false;
    }
    if item == NodeKind::Use && is_mark(last, Punctuation::OpenBrace) {
        return false;
    }
    match mark_of(next) {
        Some(mark) => is_mark_spaced(item, last, mark),
        None => true,
    }
}
