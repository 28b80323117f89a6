//! Types.
use crate::names::name_use;
use wit_tokens::{Feature, Keyword, PieceKind, Punctuation, TokenKind};
use wit_tree::{Fix, NodeKind, Parser, Problem, Wanted, is_name, skip_braces, skip_parts};

/// The levels of types that are read.
pub const NESTING: u32 = 64;

/// What a keyword is where a type may stand.
#[derive(Clone, Copy)]
enum TypeWord {
    Plain,
    Parts,
    Nothing,
}

fn type_word(keyword: Keyword) -> TypeWord {
    match keyword {
        Keyword::Bool
        | Keyword::Char
        | Keyword::String
        | Keyword::F32
        | Keyword::F64
        | Keyword::ErrorContext
        | Keyword::S8
        | Keyword::S16
        | Keyword::S32
        | Keyword::S64
        | Keyword::U8
        | Keyword::U16
        | Keyword::U32
        | Keyword::U64 => TypeWord::Plain,
        Keyword::List
        | Keyword::Option
        | Keyword::Tuple
        | Keyword::Result
        | Keyword::Own
        | Keyword::Borrow
        | Keyword::Stream
        | Keyword::Future
        | Keyword::Map => TypeWord::Parts,
        _ => TypeWord::Nothing,
    }
}

/// Whether a keyword begins a type.
pub fn begins_type(keyword: Keyword) -> bool {
    !matches!(type_word(keyword), TypeWord::Nothing)
}

/// What a type with this word is outside of what is read, if it is.
fn type_feature(keyword: Keyword) -> Option<Feature> {
    match keyword {
        Keyword::F32 | Keyword::F64 => Some(Feature::Float),
        Keyword::ErrorContext => Some(Feature::ErrorContext),
        Keyword::Own | Keyword::Borrow => Some(Feature::Resource),
        Keyword::Stream => Some(Feature::Stream),
        Keyword::Future => Some(Feature::Future),
        Keyword::Map => Some(Feature::Map),
        _ => None,
    }
}

/// Whether a type with this word may stand without parts.
fn may_be_bare(keyword: Keyword) -> bool {
    matches!(keyword, Keyword::Result | Keyword::Stream | Keyword::Future)
}

/// The `>` after the parts of a type.
fn close_parts(parser: &mut Parser<'_>) {
    if parser.eats(Punctuation::Greater) {
        return;
    }
    if parser.is_mark(Punctuation::Comma) || parser.is_mark(Punctuation::Less) {
        parser.wanted(Wanted::Mark(Punctuation::Greater));
        skip_parts(parser);
        parser.eats(Punctuation::Greater);
        return;
    }
    parser.expect(Punctuation::Greater);
}

/// The length of a list, after its type.
fn list_length(parser: &mut Parser<'_>) {
    if !parser.is_mark(Punctuation::Comma) {
        return;
    }
    parser.outside(Feature::FixedLengthList);
    parser.take();
    if let Some(PieceKind::Token(TokenKind::Integer)) = parser.ahead(0) {
        parser.take();
    } else {
        parser.wanted(Wanted::Number);
    }
}

/// The types of a tuple.
#[cycle(types)]
fn members(parser: &mut Parser<'_>, nesting: u32) {
    for _turn in 0..parser.left() {
        ty(parser, nesting);
        if !parser.eats(Punctuation::Comma) || parser.is_mark(Punctuation::Greater) {
            return;
        }
    }
}

/// The types of a result.
#[cycle(types)]
fn outcomes(parser: &mut Parser<'_>, nesting: u32) {
    if parser.eats(Punctuation::Underscore) {
        parser.expect(Punctuation::Comma);
        ty(parser, nesting);
        return;
    }
    ty(parser, nesting);
    if parser.eats(Punctuation::Comma) {
        ty(parser, nesting);
    }
}

/// The types of a map.
#[cycle(types)]
fn key_and_value(parser: &mut Parser<'_>, nesting: u32) {
    ty(parser, nesting);
    parser.expect(Punctuation::Comma);
    ty(parser, nesting);
}

/// What is between `<` and `>` of a type with this word.
#[cycle(types)]
fn parts(parser: &mut Parser<'_>, nesting: u32, keyword: Keyword) {
    match keyword {
        Keyword::Tuple => members(parser, nesting),
        Keyword::Result => outcomes(parser, nesting),
        Keyword::Map => key_and_value(parser, nesting),
        Keyword::Own | Keyword::Borrow => name_use(parser),
        Keyword::List => {
            ty(parser, nesting);
            list_length(parser);
        }
        _ => ty(parser, nesting),
    }
}

/// Whether a type begins here.
pub fn is_type(parser: &Parser<'_>) -> bool {
    match parser.ahead(0) {
        Some(PieceKind::Token(TokenKind::Keyword(keyword))) => begins_type(keyword),
        Some(kind) => is_name(kind),
        None => false,
    }
}

/// After the word of a type that has to have parts, without a `<`.
#[cycle(types)]
fn without_parts(parser: &mut Parser<'_>, nesting: u32) {
    parser.note(
        Problem::Missing(Punctuation::Less),
        1,
        Fix::InsertBefore(Punctuation::Less),
    );
    if is_type(parser) {
        ty(parser, nesting);
        parser.eats(Punctuation::Greater);
    }
}

/// A type with parts, from its word on.
#[cycle(types)]
fn type_of(parser: &mut Parser<'_>, nesting: u32, keyword: Keyword) {
    parser.start_node();
    parser.take();
    if parser.eats(Punctuation::Less) {
        parts(parser, nesting, keyword);
        close_parts(parser);
    } else if !may_be_bare(keyword) {
        without_parts(parser, nesting);
    }
    parser.end_node(NodeKind::TypeOf);
}

/// A type that is a name.
#[cycle(types)]
fn named(parser: &mut Parser<'_>, nesting: u32) {
    parser.start_node();
    if parser.is_mark_ahead(1, Punctuation::Less) {
        parser.note(Problem::NoParts, 1, Fix::None);
    }
    name_use(parser);
    if parser.eats(Punctuation::Less) {
        members(parser, nesting);
        close_parts(parser);
    }
    parser.end_node(NodeKind::Type);
}

/// A type that is a keyword.
fn plain(parser: &mut Parser<'_>) {
    parser.start_node();
    parser.take();
    parser.end_node(NodeKind::Type);
}

/// What can't be a type, with its braces if it is a definition without a name.
fn no_type(parser: &mut Parser<'_>) {
    parser.wanted(Wanted::Type);
    if parser.is_mark_ahead(1, Punctuation::OpenBrace) {
        skip_braces(parser);
    }
}

/// A type from its keyword on, with parts of so many levels.
#[cycle(types)]
fn keyword_type(parser: &mut Parser<'_>, nesting: u32, keyword: Keyword) {
    if let Some(feature) = type_feature(keyword) {
        parser.outside(feature);
    }
    match type_word(keyword) {
        TypeWord::Plain => plain(parser),
        TypeWord::Parts => type_of(parser, nesting, keyword),
        TypeWord::Nothing => no_type(parser),
    }
}

/// What can't be a type and begins with no word, with its braces if it is in such.
fn no_type_mark(parser: &mut Parser<'_>) {
    parser.wanted(Wanted::Type);
    if parser.is_mark(Punctuation::OpenBrace) {
        skip_braces(parser);
    }
}

/// A type of at most so many levels.
#[cycle(types)]
pub fn ty(parser: &mut Parser<'_>, nesting: u32) {
    if nesting == 0 {
        parser.note(Problem::Deep, 1, Fix::None);
        skip_parts(parser);
        return;
    }
    match parser.ahead(0) {
        Some(PieceKind::Token(TokenKind::Keyword(keyword))) => {
            keyword_type(parser, nesting - 1, keyword);
        }
        Some(PieceKind::Token(TokenKind::Identifier)) | Some(PieceKind::BadWord) => {
            named(parser, nesting - 1);
        }
        _ => no_type_mark(parser),
    }
}
