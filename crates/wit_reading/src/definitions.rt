//! Types with names, and uses.
use crate::functions::end_item;
use crate::lists::{Entry, entries};
use crate::names::{name, path};
use crate::types::{NESTING, ty};
use wit_tokens::{Keyword, Punctuation};
use wit_tree::{Fix, NodeKind, Parser, Problem, skip_item};

/// Entries in braces.
pub fn braced(parser: &mut Parser<'_>, entry: Entry) {
    if !parser.is_mark(Punctuation::OpenBrace) {
        let brace = Punctuation::OpenBrace;
        parser.note(Problem::Missing(brace), 1, Fix::InsertBefore(brace));
        skip_item(parser);
        return;
    }
    parser.start_node();
    let opener = parser.at();
    parser.take();
    entries(parser, entry, Punctuation::CloseBrace, opener);
    parser.end_node(NodeKind::Body);
}

/// A type with entries in braces, from its keyword on.
pub fn composed(parser: &mut Parser<'_>, kind: NodeKind, entry: Entry) {
    parser.start_node();
    parser.take();
    name(parser);
    braced(parser, entry);
    parser.end_node(kind);
}

/// `type`, from this word on.
pub fn alias(parser: &mut Parser<'_>) {
    parser.start_node();
    parser.take();
    name(parser);
    parser.expect(Punctuation::Equals);
    ty(parser, NESTING);
    end_item(parser);
    parser.end_node(NodeKind::Alias);
}

/// `use` of an interface's types, from this word on.
pub fn use_item(parser: &mut Parser<'_>) {
    parser.start_node();
    parser.take();
    path(parser);
    parser.expect(Punctuation::Dot);
    if parser.is_mark(Punctuation::OpenBrace) {
        braced(parser, Entry::UsedName);
        end_item(parser);
    } else {
        parser.expect(Punctuation::OpenBrace);
        skip_item(parser);
    }
    parser.end_node(NodeKind::Use);
}

/// `use` outside interfaces, from this word on.
pub fn top_use(parser: &mut Parser<'_>) {
    parser.start_node();
    parser.take();
    path(parser);
    if parser.eats_keyword(Keyword::As) {
        name(parser);
    }
    end_item(parser);
    parser.end_node(NodeKind::TopUse);
}

/// The names that an include changes, if there are some.
fn renamings(parser: &mut Parser<'_>) {
    if !parser.eats_keyword(Keyword::With) {
        end_item(parser);
        return;
    }
    braced(parser, Entry::Renaming);
    parser.eats(Punctuation::Semicolon);
}

/// `include`, from this word on.
pub fn include(parser: &mut Parser<'_>) {
    parser.start_node();
    parser.take();
    path(parser);
    renamings(parser);
    parser.end_node(NodeKind::Include);
}
