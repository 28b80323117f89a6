//! Names and paths.
use wit_tokens::{PieceKind, Punctuation, TokenKind};
use wit_tree::{Fix, NodeKind, Parser, Problem, Wanted};

/// Whether what is after a keyword shows that the keyword is meant as a name.
fn is_behind_name(kind: PieceKind) -> bool {
    match kind {
        PieceKind::Token(TokenKind::Punctuation(mark)) => match mark {
            Punctuation::Colon
            | Punctuation::Comma
            | Punctuation::Semicolon
            | Punctuation::OpenBrace
            | Punctuation::CloseBrace
            | Punctuation::OpenParenthesis
            | Punctuation::CloseParenthesis
            | Punctuation::Equals => true,
            _ => false,
        },
        _ => false,
    }
}

/// Whether a keyword is here that is meant as a name.
pub fn is_keyword_name(parser: &Parser<'_>) -> bool {
    let is_name = match parser.ahead(1) {
        Some(kind) => is_behind_name(kind),
        None => false,
    };
    is_name && parser.is_any_keyword_ahead(0)
}

/// How many tokens a name takes whose words are joined by `_`.
pub fn length_of_name(parser: &Parser<'_>) -> usize {
    let mut length = 1usize;
    for _turn in 0..8 {
        let is_more = parser.is_mark_ahead(length, Punctuation::Underscore)
            && parser.is_name_ahead(length.saturating_add(1));
        if !is_more {
            break;
        }
        length = length.saturating_add(2);
    }
    length
}

/// Takes a name whose words are joined by `_`.
fn snake_case(parser: &mut Parser<'_>, length: usize) {
    parser.note(Problem::SnakeCase, length, Fix::None);
    for _turn in 0..length {
        parser.take();
    }
}

/// Takes a word that is a name or is meant as one.
fn word(parser: &mut Parser<'_>) {
    let length = length_of_name(parser);
    if length > 1 && parser.is_name() {
        snake_case(parser, length);
        return;
    }
    match parser.ahead(0) {
        Some(PieceKind::Token(TokenKind::Identifier)) => parser.take(),
        Some(PieceKind::BadWord) => {
            parser.note(Problem::BadWord, 1, Fix::None);
            parser.take();
        }
        _ => {
            if is_keyword_name(parser) {
                parser.note(Problem::KeywordAsName, 1, Fix::Escape);
                parser.take();
            } else {
                parser.wanted(Wanted::Name);
            }
        }
    }
}

/// A name where it is declared.
pub fn name(parser: &mut Parser<'_>) {
    parser.start_node();
    word(parser);
    parser.end_node(NodeKind::Name);
}

/// A name where it is used.
pub fn name_use(parser: &mut Parser<'_>) {
    parser.start_node();
    word(parser);
    parser.end_node(NodeKind::NameUse);
}

/// Whether a version is here.
fn is_version(parser: &Parser<'_>) -> bool {
    parser.ahead(0) == Some(PieceKind::Token(TokenKind::Version))
}

/// A version, if there is one.
pub fn version(parser: &mut Parser<'_>) {
    if is_version(parser) {
        parser.take();
    }
}

/// A version where none may stand.
pub fn early_version(parser: &mut Parser<'_>) {
    if is_version(parser) {
        parser.take_stray();
    }
}

/// After the first name of a path that names a package: the package's name, and the interface.
fn foreign_path(parser: &mut Parser<'_>) {
    name_use(parser);
    early_version(parser);
    parser.expect(Punctuation::Slash);
    name_use(parser);
    version(parser);
}

/// A path to an interface or a world.
pub fn path(parser: &mut Parser<'_>) {
    parser.start_node();
    name_use(parser);
    if parser.eats(Punctuation::Colon) {
        foreign_path(parser);
    } else if parser.is_mark(Punctuation::Slash) {
        parser.wanted(Wanted::Mark(Punctuation::Colon));
        parser.take();
        name_use(parser);
        version(parser);
    } else if is_version(parser) {
        parser.wanted(Wanted::Mark(Punctuation::Colon));
        parser.take();
    }
    parser.end_node(NodeKind::Path);
}
