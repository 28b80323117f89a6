//! Lists with commas.
use crate::names::{is_keyword_name, name, name_use};
use crate::types::{NESTING, begins_type, ty};
use wit_tokens::{Keyword, PieceKind, Punctuation, TokenKind};
use wit_tree::{Fix, NodeKind, Parser, Problem, Wanted, is_function, is_item, skip_entry};

/// What a list has.
#[derive(Clone, Copy)]
pub enum Entry {
    Field,
    Case,
    Label,
    UsedName,
    Renaming,
    Parameter,
    Outcome,
}

/// Whether a list of these may be empty, and may have no comma after the last.
fn is_of_function(entry: Entry) -> bool {
    matches!(entry, Entry::Parameter | Entry::Outcome)
}

/// Whether a type with a keyword begins here.
fn is_type_keyword(parser: &Parser<'_>) -> bool {
    match parser.ahead(0) {
        Some(PieceKind::Token(TokenKind::Keyword(keyword))) => begins_type(keyword),
        _ => false,
    }
}

/// A type and a name in this order, where the name has to come first.
fn type_before_name(parser: &mut Parser<'_>) {
    parser.wanted(Wanted::Name);
    ty(parser, NESTING);
    if parser.is_name() {
        name(parser);
    }
}

/// A name with a type.
fn member(parser: &mut Parser<'_>, kind: NodeKind) {
    parser.start_node();
    if is_type_keyword(parser) && !parser.is_mark_ahead(1, Punctuation::Colon) {
        type_before_name(parser);
    } else {
        name(parser);
        parser.expect(Punctuation::Colon);
        ty(parser, NESTING);
    }
    parser.end_node(kind);
}

/// The `)` after the type of a case.
fn close_case(parser: &mut Parser<'_>) {
    let close = Punctuation::CloseParenthesis;
    let is_list = parser.is_mark(Punctuation::Comma)
        && match parser.ahead(1) {
            Some(PieceKind::Token(TokenKind::Keyword(keyword))) => begins_type(keyword),
            _ => false,
        };
    if is_list {
        parser.wanted(Wanted::Mark(close));
        parser.take();
        skip_entry(parser, close);
        parser.eats(close);
    } else {
        parser.expect(close);
    }
}

fn case(parser: &mut Parser<'_>) {
    parser.start_node();
    name(parser);
    if parser.eats(Punctuation::OpenParenthesis) {
        ty(parser, NESTING);
        close_case(parser);
    }
    parser.end_node(NodeKind::Case);
}

fn label(parser: &mut Parser<'_>) {
    parser.start_node();
    name(parser);
    parser.end_node(NodeKind::Label);
}

fn used_name(parser: &mut Parser<'_>) {
    parser.start_node();
    name_use(parser);
    if parser.eats_keyword(Keyword::As) {
        name(parser);
    }
    parser.end_node(NodeKind::UsedName);
}

fn renaming(parser: &mut Parser<'_>) {
    parser.start_node();
    name_use(parser);
    if !parser.eats_keyword(Keyword::As) {
        parser.wanted(Wanted::Keyword(Keyword::As));
    }
    name(parser);
    parser.end_node(NodeKind::Renaming);
}

fn read_entry(parser: &mut Parser<'_>, entry: Entry) {
    match entry {
        Entry::Field => member(parser, NodeKind::Field),
        Entry::Case => case(parser),
        Entry::Label => label(parser),
        Entry::UsedName => used_name(parser),
        Entry::Renaming => renaming(parser),
        Entry::Parameter | Entry::Outcome => member(parser, NodeKind::Parameter),
    }
}

/// Whether what is here shows that a list was left without the mark that closes it.
fn is_left(parser: &Parser<'_>, entry: Entry) -> bool {
    if parser.is_over() || is_function(parser) {
        return true;
    }
    if is_of_function(entry) {
        return parser.is_mark(Punctuation::Semicolon)
            || parser.is_mark(Punctuation::Arrow)
            || parser.is_mark(Punctuation::OpenBrace)
            || parser.is_mark(Punctuation::CloseBrace);
    }
    parser.begins_line() && is_item(parser)
}

/// Whether an entry may begin here.
fn is_entry(parser: &Parser<'_>) -> bool {
    parser.is_name() || is_keyword_name(parser)
}

/// Whether another entry follows after a comma.
fn behind_comma(parser: &mut Parser<'_>, entry: Entry, close: Punctuation) -> bool {
    if is_of_function(entry) && parser.is_mark_ahead(1, close) {
        parser.take_stray();
        return false;
    }
    parser.take();
    !parser.is_mark(close)
}

/// Whether another entry follows, where neither a comma nor the closing mark stands.
fn without_comma(parser: &mut Parser<'_>, entry: Entry, close: Punctuation) -> bool {
    if is_left(parser, entry) {
        return false;
    }
    if parser.is_mark(Punctuation::Semicolon) {
        parser.note(
            Problem::Instead(Punctuation::Comma),
            1,
            Fix::Replace(Punctuation::Comma),
        );
        parser.take();
        return !parser.is_mark(close);
    }
    if is_entry(parser) {
        parser.note(
            Problem::Missing(Punctuation::Comma),
            1,
            Fix::InsertBefore(Punctuation::Comma),
        );
        return true;
    }
    parser.wanted(Wanted::Mark(Punctuation::Comma));
    skip_entry(parser, close);
    parser.eats(Punctuation::Comma) && !parser.is_mark(close)
}

/// Whether another entry follows after one.
fn continues(parser: &mut Parser<'_>, entry: Entry, close: Punctuation) -> bool {
    if parser.is_mark(close) {
        return false;
    }
    if parser.is_mark(Punctuation::Comma) {
        return behind_comma(parser, entry, close);
    }
    without_comma(parser, entry, close)
}

/// The mark that closes a list which this token opened.
fn close_list(parser: &mut Parser<'_>, close: Punctuation, opener: usize) {
    if parser.eats(close) {
        return;
    }
    parser.note(
        Problem::Unclosed(close, opener),
        1,
        Fix::InsertBefore(close),
    );
}

/// Entries, after the mark that opens them, up to the one that closes them and with it.
pub fn entries(parser: &mut Parser<'_>, entry: Entry, close: Punctuation, opener: usize) {
    if parser.is_mark(close) {
        if !is_of_function(entry) {
            parser.wanted(Wanted::Name);
        }
        parser.take();
        return;
    }
    for _turn in 0..parser.left() {
        if is_left(parser, entry) {
            break;
        }
        read_entry(parser, entry);
        if !continues(parser, entry, close) {
            break;
        }
    }
    close_list(parser, close, opener);
}
