//! Recovery: where items begin, and what is passed over after a fault.
use crate::parser::Parser;
use tree_nodes::NodeKind;
use wit_tokens::{Keyword, PieceKind, Punctuation, TokenKind};

/// Whether items begin with this keyword.
fn begins_items(keyword: Keyword) -> bool {
    match keyword {
        Keyword::Type
        | Keyword::Record
        | Keyword::Variant
        | Keyword::Enum
        | Keyword::Flags
        | Keyword::Resource
        | Keyword::Use
        | Keyword::Interface
        | Keyword::World
        | Keyword::Package
        | Keyword::Import
        | Keyword::Export
        | Keyword::Include => true,
        _ => false,
    }
}

/// Whether these two tokens are a keyword of an item and the word after it.
fn is_item_head(first: Option<PieceKind>, second: Option<PieceKind>) -> bool {
    let is_head = match first {
        Some(PieceKind::Token(TokenKind::Keyword(keyword))) => begins_items(keyword),
        _ => false,
    };
    let is_named = match second {
        Some(PieceKind::Token(TokenKind::Identifier)) | Some(PieceKind::BadWord) => true,
        Some(PieceKind::Token(TokenKind::Keyword(_))) => true,
        _ => false,
    };
    is_head && is_named
}

/// Whether an item begins here with a keyword.
pub fn is_item(parser: &Parser<'_>) -> bool {
    is_item_head(parser.ahead(0), parser.ahead(1))
}

/// Whether `func` or a word before it is so far ahead.
fn is_function_word(parser: &Parser<'_>, ahead: usize) -> bool {
    parser.is_keyword_ahead(ahead, Keyword::Func)
        || parser.is_keyword_ahead(ahead, Keyword::Async)
        || parser.is_keyword_ahead(ahead, Keyword::Static)
}

/// Whether a function begins here.
pub fn is_function(parser: &Parser<'_>) -> bool {
    parser.is_mark_ahead(1, Punctuation::Colon) && is_function_word(parser, 2)
}

/// Whether an item begins here that what is passed over may not take.
fn is_fresh(parser: &Parser<'_>) -> bool {
    parser.begins_line()
        && (is_item(parser) || is_function(parser) || parser.is_mark(Punctuation::At))
}

/// One more level for what opens a level, or one less for what closes one.
fn level_behind(parser: &Parser<'_>, level: usize) -> usize {
    if parser.is_mark(Punctuation::OpenBrace) || parser.is_mark(Punctuation::OpenParenthesis) {
        return level.saturating_add(1);
    }
    if parser.is_mark(Punctuation::CloseBrace) || parser.is_mark(Punctuation::CloseParenthesis) {
        return level.saturating_sub(1);
    }
    level
}

/// Passes over the rest of an item: up to its `;` or its `}` and with it, or up to the next item or the `}` of what the
/// item is in.
pub fn skip_item(parser: &mut Parser<'_>) {
    parser.start_node();
    let mut level = 0;
    for turn in 0..parser.left() {
        if level == 0 && parser.is_mark(Punctuation::CloseBrace) {
            break;
        }
        if level == 0 && turn > 0 && is_fresh(parser) {
            break;
        }
        let is_end = parser.is_mark(Punctuation::Semicolon)
            || parser.is_mark(Punctuation::CloseBrace);
        level = level_behind(parser, level);
        parser.take();
        if level == 0 && is_end {
            break;
        }
    }
    parser.eats(Punctuation::Semicolon);
    parser.end_node(NodeKind::Skipped);
}

/// Passes over what is up to the `}` that closes the next `{`, and over this.
pub fn skip_braces(parser: &mut Parser<'_>) {
    parser.start_node();
    let mut level = 0;
    for _turn in 0..parser.left() {
        let is_end = parser.is_mark(Punctuation::CloseBrace);
        level = level_behind(parser, level);
        parser.take();
        if level == 0 && is_end {
            break;
        }
    }
    parser.end_node(NodeKind::Skipped);
}

/// Passes over the rest of an entry of a list: up to a comma, or to the mark that closes the list.
pub fn skip_entry(parser: &mut Parser<'_>, close: Punctuation) {
    parser.start_node();
    let mut level = 0;
    for turn in 0..parser.left() {
        let is_end = parser.is_mark(close)
            || parser.is_mark(Punctuation::Comma)
            || parser.is_mark(Punctuation::CloseBrace)
            || parser.is_mark(Punctuation::Semicolon);
        if level == 0 && is_end {
            break;
        }
        if level == 0 && turn > 0 && is_fresh(parser) {
            break;
        }
        level = level_behind(parser, level);
        parser.take();
    }
    parser.end_node(NodeKind::Skipped);
}

/// Passes over the rest of the parts of a type.
pub fn skip_parts(parser: &mut Parser<'_>) {
    parser.start_node();
    for _turn in 0..parser.left() {
        let is_end = parser.is_mark(Punctuation::Greater)
            || parser.is_mark(Punctuation::CloseParenthesis)
            || parser.is_mark(Punctuation::Semicolon)
            || parser.is_mark(Punctuation::OpenBrace)
            || parser.is_mark(Punctuation::CloseBrace);
        if is_end {
            break;
        }
        parser.take();
    }
    parser.end_node(NodeKind::Skipped);
}
