//! Functions.
use crate::lists::{Entry, entries};
use crate::names::name;
use crate::types::{NESTING, ty};
use wit_tokens::{Feature, Keyword, Punctuation};
use wit_tree::{Fix, NodeKind, Parser, Problem, Wanted, skip_item};

/// The `;` after an item.
pub fn end_item(parser: &mut Parser<'_>) {
    if parser.eats(Punctuation::Semicolon) {
        return;
    }
    let semicolon = Punctuation::Semicolon;
    let is_new = parser.begins_line() || parser.is_mark(Punctuation::CloseBrace);
    if is_new {
        parser.note(Problem::Missing(semicolon), 1, Fix::InsertBefore(semicolon));
        return;
    }
    parser.wanted(Wanted::Mark(semicolon));
    skip_item(parser);
}

/// The parameters of a function.
pub fn parameters(parser: &mut Parser<'_>) {
    parser.start_node();
    let opener = parser.at();
    parser.expect(Punctuation::OpenParenthesis);
    entries(
        parser,
        Entry::Parameter,
        Punctuation::CloseParenthesis,
        opener,
    );
    parser.end_node(NodeKind::Parameters);
}

/// Results with names.
fn named_results(parser: &mut Parser<'_>) {
    parser.outside(Feature::NamedResults);
    parser.start_node();
    let opener = parser.at();
    parser.take();
    entries(
        parser,
        Entry::Outcome,
        Punctuation::CloseParenthesis,
        opener,
    );
    parser.end_node(NodeKind::NamedResults);
}

/// What is after the arrow.
fn outcome(parser: &mut Parser<'_>) {
    if parser.is_mark(Punctuation::OpenParenthesis) {
        named_results(parser);
    } else {
        ty(parser, NESTING);
    }
}

/// The arrow and what is after it, if there is one.
pub fn optional_outcome(parser: &mut Parser<'_>) {
    if parser.eats(Punctuation::Arrow) {
        outcome(parser);
        return;
    }
    if parser.is_mark(Punctuation::Equals) && parser.is_mark_ahead(1, Punctuation::Greater) {
        let arrow = Punctuation::Arrow;
        parser.note(Problem::Instead(arrow), 2, Fix::Replace(arrow));
        parser.take();
        parser.take();
        outcome(parser);
    }
}

/// A function's type from `func` on.
pub fn function_type(parser: &mut Parser<'_>) {
    if parser.is_keyword(Keyword::Async) {
        parser.outside(Feature::Async);
        parser.take();
    }
    if !parser.eats_keyword(Keyword::Func) {
        parser.wanted(Wanted::Keyword(Keyword::Func));
        if !parser.is_mark(Punctuation::OpenParenthesis) {
            return;
        }
    }
    parameters(parser);
    optional_outcome(parser);
}

/// A function, from its name on.
pub fn function(parser: &mut Parser<'_>) {
    parser.start_node();
    name(parser);
    parser.expect(Punctuation::Colon);
    function_type(parser);
    end_item(parser);
    parser.end_node(NodeKind::Function);
}

/// A function of a resource, from its name on.
pub fn method(parser: &mut Parser<'_>) {
    parser.start_node();
    name(parser);
    parser.expect(Punctuation::Colon);
    parser.eats_keyword(Keyword::Static);
    function_type(parser);
    end_item(parser);
    parser.end_node(NodeKind::Function);
}

/// A constructor, from its word on.
pub fn constructor(parser: &mut Parser<'_>) {
    parser.start_node();
    parser.take();
    parameters(parser);
    optional_outcome(parser);
    end_item(parser);
    parser.end_node(NodeKind::Constructor);
}
