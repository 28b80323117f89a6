//! Interfaces, worlds and resources.
use crate::definitions::{alias, composed, include, use_item};
use crate::functions::{constructor, end_item, function, function_type, method};
use crate::lists::Entry;
use crate::names::{is_keyword_name, length_of_name, name, path};
use wit_tokens::{Feature, Keyword, PieceKind, Punctuation, TokenKind};
use wit_tree::{Fix, NodeKind, Parser, Problem, Wanted, skip_item};

/// What is between the parentheses of a gate.
fn gate_value(parser: &mut Parser<'_>) {
    for _turn in 0..parser.left() {
        let is_end = parser.is_mark(Punctuation::CloseParenthesis)
            || parser.is_mark(Punctuation::Semicolon)
            || parser.is_mark(Punctuation::OpenBrace)
            || parser.is_mark(Punctuation::CloseBrace);
        if is_end {
            break;
        }
        parser.take();
    }
    parser.expect(Punctuation::CloseParenthesis);
}

fn gate(parser: &mut Parser<'_>) {
    parser.outside(Feature::Gate);
    parser.start_node();
    parser.take();
    if parser.is_name() {
        parser.take();
    } else {
        parser.wanted(Wanted::Gate);
    }
    if parser.eats(Punctuation::OpenParenthesis) {
        gate_value(parser);
    }
    parser.end_node(NodeKind::Gate);
}

/// The gates before an item.
pub fn gates(parser: &mut Parser<'_>) {
    for _turn in 0..parser.left() {
        if !parser.is_mark(Punctuation::At) {
            break;
        }
        gate(parser);
    }
}

/// A resource, from its word on.
fn resource(parser: &mut Parser<'_>) {
    parser.outside(Feature::Resource);
    parser.start_node();
    parser.take();
    name(parser);
    if !parser.eats(Punctuation::Semicolon) {
        resource_body(parser);
    }
    parser.end_node(NodeKind::Resource);
}

/// A type with a name, from its keyword on.
fn definition(parser: &mut Parser<'_>, keyword: Keyword) {
    match keyword {
        Keyword::Type => alias(parser),
        Keyword::Record => composed(parser, NodeKind::Record, Entry::Field),
        Keyword::Variant => composed(parser, NodeKind::Variant, Entry::Case),
        Keyword::Enum => composed(parser, NodeKind::Enum, Entry::Label),
        Keyword::Flags => composed(parser, NodeKind::Flags, Entry::Label),
        _ => resource(parser),
    }
}

/// Whether a type with a name begins with this keyword.
fn begins_definition(keyword: Keyword) -> bool {
    match keyword {
        Keyword::Type
        | Keyword::Record
        | Keyword::Variant
        | Keyword::Enum
        | Keyword::Flags
        | Keyword::Resource => true,
        _ => false,
    }
}

/// What can't begin an item here.
fn no_item(parser: &mut Parser<'_>, wanted: Wanted) {
    if parser.is_mark(Punctuation::Semicolon) {
        parser.take_stray();
        return;
    }
    parser.wanted(wanted);
    skip_item(parser);
}

/// An item of an interface that begins with a keyword.
fn interface_keyword(parser: &mut Parser<'_>, keyword: Keyword) {
    if is_keyword_name(parser) && parser.is_mark_ahead(1, Punctuation::Colon) {
        function(parser);
    } else if keyword == Keyword::Use {
        use_item(parser);
    } else if begins_definition(keyword) {
        definition(parser, keyword);
    } else {
        no_item(parser, Wanted::InterfaceItem);
    }
}

/// What begins with a word that is no keyword.
fn function_or_not(parser: &mut Parser<'_>, wanted: Wanted) {
    let behind = length_of_name(parser);
    if parser.is_mark_ahead(behind, Punctuation::Colon)
        || parser.is_mark_ahead(behind, Punctuation::OpenParenthesis)
    {
        function(parser);
    } else {
        no_item(parser, wanted);
    }
}

fn interface_item(parser: &mut Parser<'_>) {
    match parser.ahead(0) {
        Some(PieceKind::Token(TokenKind::Identifier)) | Some(PieceKind::BadWord) => {
            function_or_not(parser, Wanted::InterfaceItem);
        }
        Some(PieceKind::Token(TokenKind::Keyword(keyword))) => {
            interface_keyword(parser, keyword);
        }
        _ => no_item(parser, Wanted::InterfaceItem),
    }
}

fn resource_item(parser: &mut Parser<'_>) {
    let is_named = parser.is_mark_ahead(1, Punctuation::Colon)
        && (parser.is_name() || is_keyword_name(parser));
    if is_named {
        method(parser);
    } else if parser.is_keyword(Keyword::Constructor) {
        constructor(parser);
    } else {
        no_item(parser, Wanted::ResourceItem);
    }
}

/// Whether what is after the `:` of an import is no path.
fn is_extern(parser: &Parser<'_>) -> bool {
    parser.is_keyword_ahead(2, Keyword::Func)
        || parser.is_keyword_ahead(2, Keyword::Async)
        || parser.is_keyword_ahead(2, Keyword::Interface)
        || parser.is_mark_ahead(2, Punctuation::OpenParenthesis)
}

/// An interface in a world, after `interface`.
fn inline_interface(parser: &mut Parser<'_>) {
    parser.outside(Feature::InlineInterface);
    parser.start_node();
    parser.take();
    interface_body(parser);
    parser.end_node(NodeKind::InlineInterface);
    parser.eats(Punctuation::Semicolon);
}

/// An import or an export with a name of its own, from this on.
fn named_extern(parser: &mut Parser<'_>) {
    name(parser);
    parser.expect(Punctuation::Colon);
    if parser.is_keyword(Keyword::Interface) {
        inline_interface(parser);
    } else {
        function_type(parser);
        end_item(parser);
    }
}

/// An import or an export, from its keyword on.
fn extern_item(parser: &mut Parser<'_>, kind: NodeKind) {
    parser.start_node();
    parser.take();
    if parser.is_mark_ahead(1, Punctuation::Colon) && is_extern(parser) {
        named_extern(parser);
    } else {
        path(parser);
        end_item(parser);
    }
    parser.end_node(kind);
}

/// A use, an include or a type of a world.
fn world_keyword(parser: &mut Parser<'_>, keyword: Keyword) {
    if keyword == Keyword::Use {
        parser.outside(Feature::WorldUse);
        use_item(parser);
    } else if keyword == Keyword::Include {
        parser.outside(Feature::Include);
        include(parser);
    } else if begins_definition(keyword) {
        parser.outside(Feature::WorldType);
        definition(parser, keyword);
    } else {
        no_item(parser, Wanted::WorldItem);
    }
}

fn world_item(parser: &mut Parser<'_>) {
    match parser.ahead(0) {
        Some(PieceKind::Token(TokenKind::Keyword(Keyword::Import))) => {
            extern_item(parser, NodeKind::Import);
        }
        Some(PieceKind::Token(TokenKind::Keyword(Keyword::Export))) => {
            extern_item(parser, NodeKind::Export);
        }
        Some(PieceKind::Token(TokenKind::Keyword(keyword))) => world_keyword(parser, keyword),
        _ => no_item(parser, Wanted::WorldItem),
    }
}

/// Whether a word is after this keyword.
fn is_headed(parser: &Parser<'_>, keyword: Keyword) -> bool {
    parser.is_keyword(keyword) && (parser.is_name_ahead(1) || parser.is_any_keyword_ahead(1))
}

/// Whether an item of a file is here, so that a body was left without its `}`. If the braces of the text are pairs,
/// the item is in the body.
fn is_left(parser: &Parser<'_>) -> bool {
    let is_head = is_headed(parser, Keyword::Interface)
        || is_headed(parser, Keyword::World)
        || is_headed(parser, Keyword::Package);
    is_head && !parser.has_pairs()
}

/// The `{` of a body. Whether the body is there.
fn open_body(parser: &mut Parser<'_>) -> bool {
    parser.start_node();
    if parser.eats(Punctuation::OpenBrace) {
        return true;
    }
    let brace = Punctuation::OpenBrace;
    parser.note(Problem::Missing(brace), 1, Fix::InsertBefore(brace));
    if parser.eats(Punctuation::Semicolon) || parser.is_over() {
        parser.end_node(NodeKind::Body);
        return false;
    }
    true
}

/// Whether an item of an interface is here that a resource can't have.
fn is_behind_resource(parser: &Parser<'_>) -> bool {
    is_headed(parser, Keyword::Type)
        || is_headed(parser, Keyword::Record)
        || is_headed(parser, Keyword::Variant)
        || is_headed(parser, Keyword::Enum)
        || is_headed(parser, Keyword::Flags)
        || is_headed(parser, Keyword::Resource)
        || is_headed(parser, Keyword::Use)
}

/// The `}` that closes the brace which this token is.
fn close_body(parser: &mut Parser<'_>, opener: usize) {
    let brace = Punctuation::CloseBrace;
    if !parser.eats(brace) {
        parser.note(
            Problem::Unclosed(brace, opener),
            1,
            Fix::InsertBefore(brace),
        );
    }
    parser.end_node(NodeKind::Body);
}

/// What a resource has, in braces.
fn resource_body(parser: &mut Parser<'_>) {
    let opener = parser.at();
    if !open_body(parser) {
        return;
    }
    for _turn in 0..parser.left() {
        if parser.is_mark(Punctuation::CloseBrace)
            || is_left(parser)
            || is_behind_resource(parser)
        {
            break;
        }
        gates(parser);
        resource_item(parser);
    }
    close_body(parser, opener);
}

/// What an interface has, in braces.
pub fn interface_body(parser: &mut Parser<'_>) {
    let opener = parser.at();
    if !open_body(parser) {
        return;
    }
    for _turn in 0..parser.left() {
        if parser.is_mark(Punctuation::CloseBrace) || is_left(parser) {
            break;
        }
        gates(parser);
        interface_item(parser);
    }
    close_body(parser, opener);
}

/// What a world has, in braces.
pub fn world_body(parser: &mut Parser<'_>) {
    let opener = parser.at();
    if !open_body(parser) {
        return;
    }
    for _turn in 0..parser.left() {
        if parser.is_mark(Punctuation::CloseBrace) || is_left(parser) {
            break;
        }
        gates(parser);
        world_item(parser);
    }
    close_body(parser, opener);
}
