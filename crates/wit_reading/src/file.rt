//! Whole files.
use crate::definitions::top_use;
use crate::functions::end_item;
use crate::items::{gates, interface_body, world_body};
use crate::names::{early_version, name, name_use, version};
use wit_tokens::{Feature, Keyword, Punctuation};
use wit_tree::{Fix, NodeKind, Parser, Problem, Wanted, is_function, is_item, skip_item};

/// A package's name.
fn package_name(parser: &mut Parser<'_>) {
    parser.start_node();
    name_use(parser);
    parser.expect(Punctuation::Colon);
    name_use(parser);
    version(parser);
    parser.end_node(NodeKind::PackageName);
}

/// An interface, from its keyword on.
fn interface(parser: &mut Parser<'_>) {
    parser.start_node();
    parser.take();
    name(parser);
    early_version(parser);
    interface_body(parser);
    parser.end_node(NodeKind::Interface);
}

/// A world, from its keyword on.
fn world(parser: &mut Parser<'_>) {
    parser.start_node();
    parser.take();
    name(parser);
    early_version(parser);
    world_body(parser);
    parser.end_node(NodeKind::World);
}

/// Whether an interface's or a world's item is here, outside of these.
fn is_inner(parser: &Parser<'_>) -> bool {
    is_function(parser)
        || is_item(parser)
        || parser.is_keyword(Keyword::Import)
        || parser.is_keyword(Keyword::Export)
        || parser.is_keyword(Keyword::Include)
}

/// Items that stand outside of what they belong in, up to the `}` after them.
fn outsiders(parser: &mut Parser<'_>) {
    parser.wanted(Wanted::FileItem);
    parser.start_node();
    for _turn in 0..parser.left() {
        if !is_inner(parser)
            || parser.is_keyword(Keyword::Interface)
            || parser.is_keyword(Keyword::World)
        {
            break;
        }
        skip_item(parser);
    }
    parser.eats(Punctuation::CloseBrace);
    parser.end_node(NodeKind::Skipped);
}

/// What can't begin an item of a file.
fn no_item(parser: &mut Parser<'_>) {
    if parser.is_mark(Punctuation::CloseBrace) || parser.is_mark(Punctuation::Semicolon) {
        parser.take_stray();
        return;
    }
    if is_inner(parser) {
        outsiders(parser);
        return;
    }
    parser.wanted(Wanted::FileItem);
    skip_item(parser);
}

/// An item of a file or of a package in a file, with its gates.
fn file_item(parser: &mut Parser<'_>) {
    gates(parser);
    if parser.is_keyword(Keyword::Interface) {
        interface(parser);
    } else if parser.is_keyword(Keyword::World) {
        world(parser);
    } else if parser.is_keyword(Keyword::Use) {
        parser.outside(Feature::TopLevelUse);
        top_use(parser);
    } else {
        no_item(parser);
    }
}

/// What a package in a file has, up to its `}` and with it.
fn package_body(parser: &mut Parser<'_>) {
    let brace = Punctuation::CloseBrace;
    let opener = parser.at();
    parser.take();
    for _turn in 0..parser.left() {
        if parser.is_mark(brace) || parser.is_keyword(Keyword::Package) {
            break;
        }
        file_item(parser);
    }
    if !parser.eats(brace) {
        parser.note(
            Problem::Unclosed(brace, opener),
            1,
            Fix::InsertBefore(brace),
        );
    }
}

/// A package, from `package` on: the file's own, or one in the file or at a wrong place.
fn package_item(parser: &mut Parser<'_>, is_own: bool) {
    parser.start_node();
    parser.take();
    package_name(parser);
    if parser.is_mark(Punctuation::OpenBrace) {
        if is_own {
            parser.outside(Feature::NestedPackage);
        }
        package_body(parser);
        parser.end_node(NodeKind::NestedPackage);
    } else {
        end_item(parser);
        parser.end_node(NodeKind::Package);
    }
}

/// The head of a file.
fn head(parser: &mut Parser<'_>) {
    gates(parser);
    if parser.is_keyword(Keyword::Package) {
        package_item(parser, true);
    } else {
        parser.wanted(Wanted::Keyword(Keyword::Package));
    }
}

/// A whole file.
pub fn file(parser: &mut Parser<'_>) {
    parser.start_node();
    head(parser);
    for _turn in 0..parser.left() {
        if parser.is_over() {
            break;
        }
        if parser.is_keyword(Keyword::Package) {
            parser.outside(Feature::NestedPackage);
            package_item(parser, false);
        } else {
            file_item(parser);
        }
    }
    parser.end_node(NodeKind::File);
}
