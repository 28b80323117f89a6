//! Whole texts.
ghost use Rattle.std.specs.Prelude.{◌≡◌, ◌<◌, [], map, Ok, IfOk, IfErr, IfSome};
ghost use Rattle.std.specs.Option.{option_map};
ghost use Rattle.atoms.specs.Production.{at_end};
ghost use Rattle.wit_tokens.specs.Lexing.{limit};
ghost use Rattle.wit_tokens.specs.Tokens.{lexeme};
ghost use Rattle.wit_tokens.specs.Syntax.{File};
ghost use Rattle.wit_tokens.specs.View.{item_view, file_view};
ghost use Rattle.wit_grammar.specs.Faults.{AnswersRead};
ghost use Rattle.wit_grammar.specs.Left.{tokens_from, count_from, text_end};
ghost use Rattle.wit_grammar.specs.Grammar.{nesting, file_keyword, file_feature, file_fault, begins_item, item};
ghost use Rattle.wit_grammar.specs.Grammar.{optional_item, items, file};
ghost use Rattle.wit_text.specs.Reading.{IsRead, FaultyText};

use crate::interfaces::interface;
use crate::worlds::world;
use std::alloc::Global;
use wit_grammar::{Tokens, feature_or, gate, header, same};
use wit_tokens::wit_syntax::{Ast, Item};
use wit_tokens::{
    Expected, Feature, Keyword, TextError, Token, TokenKind, lex, texts_have_one_lexing,
};

fn file_keyword(keyword: Keyword) -> Option<Feature>
    ensures { result ≡ file_keyword keyword }
{
    match keyword {
        Keyword::Use => Some(Feature::TopLevelUse),
        Keyword::Package => Some(Feature::NestedPackage),
        _ => None,
    }
}

fn file_feature(kind: TokenKind) -> Option<Feature>
    ensures { result ≡ file_feature kind }
{
    match kind {
        TokenKind::Keyword(keyword) => file_keyword(keyword),
        TokenKind::Punctuation(mark) => gate(mark),
        _ => None,
    }
}

/// What is answered where no item of a file begins.
#[tactic(auto, unfolding(wit_grammar::specs::Grammar::file_fault))]
fn file_fault(tokens: &Tokens<'_>, at: usize) -> TextError
    ensures { result ≡ file_fault (text_end tokens.now) (tokens_from tokens.now at) }
{
    let feature = match tokens.next(at) {
        Some((first, _)) => file_feature(first.kind),
        None => None,
    };
    feature_or(tokens, at, feature, Expected::Keyword(Keyword::Interface))
}

fn begins_item(token: Token) -> bool
    ensures { result ≡ begins_item (lexeme [] token) }
{
    same(token.kind, TokenKind::Keyword(Keyword::Interface))
        || same(token.kind, TokenKind::Keyword(Keyword::World))
}

/// An interface or a world behind its first token.
#[tactic(auto, unfolding(wit_grammar::specs::Grammar::item))]
fn item(
    alloc: Global,
    tokens: &Tokens<'_>,
    first: Token,
    at: usize,
) -> Result<(Item, usize), TextError>
    ensures gives { AnswersRead (λ x. (item_view x.0, tokens_from tokens.now x.1)) result
        ((item (text_end tokens.now) nesting (lexeme tokens.now.text.now first)).read (tokens_from tokens.now at)) }
    ensures shorter { IfOk result (λ x. count_from tokens.now x.1 < count_from tokens.now at) }
{
    if same(first.kind, TokenKind::Keyword(Keyword::Interface)) {
        interface(alloc, tokens, at)
    } else {
        world(alloc, tokens, first.span(), at)
    }
}

/// An interface or a world, or nothing.
#[tactic(auto, unfolding(wit_grammar::specs::Grammar::optional_item))]
fn optional_item(
    alloc: Global,
    tokens: &Tokens<'_>,
    at: usize,
) -> Result<(Option<Item>, usize), TextError>
    ensures gives { AnswersRead (λ x. (option_map item_view x.0, tokens_from tokens.now x.1)) result
        ((optional_item (text_end tokens.now) nesting).read (tokens_from tokens.now at)) }
    ensures shorter { IfOk result (λ x. IfSome x.0 (λ i. count_from tokens.now x.1 < count_from tokens.now at)) }
{
    match tokens.next(at) {
        Some((first, rest)) if begins_item(first) => {
            let (item, at) = item(alloc, tokens, first, rest)?;
            Ok((Some(item), at))
        }
        _ => Ok((None, at)),
    }
}

/// Nothing more stands there.
fn ended(tokens: &Tokens<'_>, at: usize) -> Result<(), TextError>
    ensures { AnswersRead (λ _. (0, [])) result
        ((at_end (file_fault (text_end tokens.now))).read (tokens_from tokens.now at)) }
{
    match tokens.next(at) {
        None => Ok(()),
        _ => Err(file_fault(tokens, at)),
    }
}

/// What stands behind the package, to the end.
fn items(alloc: Global, tokens: &Tokens<'_>, at: usize) -> Result<Vec<Item>, TextError>
    requires { count_from tokens.now at < limit }
    ensures { AnswersRead (λ x. (map item_view x.items, [])) result
        ((items (text_end tokens.now) nesting limit).read (tokens_from tokens.now at)) }
{
    let mut list = Vec::new(alloc);
    let mut left = at;
    'list: loop {
        let (entry, after) = optional_item(alloc, tokens, left)?;
        let Some(entry) = entry else {
            ended(tokens, after)?;
            return Ok(list);
        };
        list.push(entry)?;
        left = after;
    }
}

#[tactic(auto, unfolding(wit_grammar::specs::Grammar::file))]
fn file(alloc: Global, tokens: &Tokens<'_>, at: usize) -> Result<Ast, TextError>
    ensures { AnswersRead (λ a. (file_view a, [])) result
        ((file (text_end tokens.now) nesting).read (tokens_from tokens.now at)) }
{
    let (package, at) = header(alloc, tokens, at)?;
    let items = items(alloc, tokens, at)?;
    Ok(Ast { package, items })
}

/// Reads a text: 36 where it is too long; else 30 or 31, the first; else 32, 33 or 34, the first; 35 where memory is
/// wanting. Tokens and grammar are those of WIT.md.
pub fn parse(alloc: Global, text: &str) -> Result<Ast, TextError>
    ensures found { IfOk result (λ a. IsRead text.now (file_view a)) }
    ensures only { (f : File) → IsRead text.now f → AnswersRead file_view result (Ok f) }
    ensures fault { IfErr result (λ e. FaultyText text.now e) }
{
    texts_have_one_lexing();
    let list = lex(alloc, text)?;
    let tokens = Tokens {
        text: text.as_bytes(),
        list: list.as_slice(),
    };
    file(alloc, &tokens, 0)
}
