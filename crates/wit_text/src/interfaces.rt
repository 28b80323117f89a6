//! Interfaces.
ghost use Rattle.std.specs.Prelude.{◌≡◌, ◌<◌, map, IfOk};
ghost use Rattle.wit_tokens.specs.Lexing.{limit};
ghost use Rattle.wit_tokens.specs.Tokens.{IsNamed, lexeme};
ghost use Rattle.wit_tokens.specs.View.{definition_view, entry_view, item_view};
ghost use Rattle.wit_grammar.specs.Faults.{AnswersRead};
ghost use Rattle.wit_grammar.specs.Left.{tokens_from, count_from, text_end};
ghost use Rattle.wit_grammar.specs.Grammar.{nesting, item_kind, is_item_start, begins_entry, item_feature, entry_fault};
ghost use Rattle.wit_grammar.specs.Grammar.{definition, defined, declared, keyword_entry, entry_behind, entry};
ghost use Rattle.wit_grammar.specs.Grammar.{entry_list, interface};

use crate::definitions::{alias, enum_cases, flag_names, record_fields, variant_cases};
use crate::functions::{func_word, whole_function};
use crate::uses::use_item;
use atoms::Label;
use std::alloc::Global;
use wit_grammar::{
    ItemStart, Tokens, feature_or, identifier, is_item_start, is_name, item_kind, label_of, peek,
    punctuation,
};
use wit_tokens::wit_syntax::{Func, Interface, InterfaceItem, Item, TypeDef, TypeDefKind};
use wit_tokens::{Expected, Feature, Punctuation, Span, TextError, Token, TokenKind};

#[tactic(auto, unfolding(wit_grammar::specs::Grammar::begins_entry))]
fn begins_entry(tokens: &Tokens<'_>, token: Token) -> bool
    requires named { IsNamed tokens.now.text.now token }
    ensures { result ≡ begins_entry (lexeme tokens.now.text.now token) }
{
    is_name(tokens, token) || is_item_start(item_kind(token.kind))
}

fn item_feature(start: ItemStart) -> Option<Feature>
    ensures { result ≡ item_feature start }
{
    match start {
        ItemStart::LeftOut(feature) => Some(feature),
        _ => None,
    }
}

/// What is answered where no item of an interface begins.
#[tactic(auto, unfolding(wit_grammar::specs::Grammar::entry_fault))]
fn entry_fault(tokens: &Tokens<'_>, at: usize) -> TextError
    ensures { result ≡ entry_fault (text_end tokens.now) (tokens_from tokens.now at) }
{
    let feature = match tokens.next(at) {
        Some((first, _)) => item_feature(item_kind(first.kind)),
        None => None,
    };
    feature_or(tokens, at, feature, Expected::Identifier)
}

/// What a type definition has behind its name.
#[tactic(auto, unfolding(wit_grammar::specs::Grammar::definition))]
fn definition(
    alloc: Global,
    tokens: &Tokens<'_>,
    start: ItemStart,
    at: usize,
) -> Result<(TypeDefKind, usize), TextError>
    ensures gives { AnswersRead (λ x. (definition_view x.0, tokens_from tokens.now x.1)) result
        ((definition (text_end tokens.now) nesting start).read (tokens_from tokens.now at)) }
    ensures shorter { IfOk result (λ x. count_from tokens.now x.1 < count_from tokens.now at) }
{
    match start {
        ItemStart::Alias => alias(alloc, tokens, at),
        ItemStart::Record => record_fields(alloc, tokens, at),
        ItemStart::Variant => variant_cases(alloc, tokens, at),
        ItemStart::Enum => enum_cases(alloc, tokens, at),
        ItemStart::Flags => flag_names(alloc, tokens, at),
        ItemStart::Use | ItemStart::LeftOut(_) | ItemStart::Nothing => {
            Err(entry_fault(tokens, at))
        }
    }
}

/// A type definition behind its keyword, which stands at `span`.
#[tactic(auto, unfolding(wit_grammar::specs::Grammar::defined))]
fn defined(
    alloc: Global,
    tokens: &Tokens<'_>,
    start: ItemStart,
    span: Span,
    at: usize,
) -> Result<(InterfaceItem, usize), TextError>
    ensures gives { AnswersRead (λ x. (entry_view x.0, tokens_from tokens.now x.1)) result
        ((defined (text_end tokens.now) nesting start span).read (tokens_from tokens.now at)) }
    ensures shorter { IfOk result (λ x. count_from tokens.now x.1 < count_from tokens.now at) }
{
    let (name, at) = identifier(alloc, tokens, at)?;
    let (kind, at) = definition(alloc, tokens, start, at)?;
    Ok((InterfaceItem::TypeDef(TypeDef { span, name, kind }), at))
}

/// Behind a function's name, which stands at `span`.
#[tactic(auto, unfolding(wit_grammar::specs::Grammar::declared))]
fn declared(
    alloc: Global,
    tokens: &Tokens<'_>,
    span: Span,
    name: Label,
    at: usize,
) -> Result<(InterfaceItem, usize), TextError>
    ensures gives { AnswersRead (λ x. (entry_view x.0, tokens_from tokens.now x.1)) result
        ((declared (text_end tokens.now) nesting span name).read (tokens_from tokens.now at)) }
    ensures shorter { IfOk result (λ x. count_from tokens.now x.1 < count_from tokens.now at) }
{
    let (_, at) = punctuation(tokens, at, Punctuation::Colon)?;
    let (_, at) = func_word(tokens, at)?;
    let (ty, at) = whole_function(alloc, tokens, at)?;
    Ok((InterfaceItem::Func(Func { span, name, ty }), at))
}

/// An item behind its keyword, which stands at `span`.
#[tactic(auto, unfolding(wit_grammar::specs::Grammar::keyword_entry))]
fn keyword_entry(
    alloc: Global,
    tokens: &Tokens<'_>,
    start: ItemStart,
    span: Span,
    at: usize,
) -> Result<(InterfaceItem, usize), TextError>
    ensures gives { AnswersRead (λ x. (entry_view x.0, tokens_from tokens.now x.1)) result
        ((keyword_entry (text_end tokens.now) nesting start span).read (tokens_from tokens.now at)) }
    ensures shorter { IfOk result (λ x. count_from tokens.now x.1 < count_from tokens.now at) }
{
    match start {
        ItemStart::Use => use_item(alloc, tokens, span, at),
        ItemStart::Alias
        | ItemStart::Record
        | ItemStart::Variant
        | ItemStart::Enum
        | ItemStart::Flags => defined(alloc, tokens, start, span, at),
        ItemStart::LeftOut(_) | ItemStart::Nothing => Err(entry_fault(tokens, at)),
    }
}

/// An item behind its first token.
#[tactic(auto, unfolding(wit_grammar::specs::Grammar::entry_behind))]
fn entry_behind(
    alloc: Global,
    tokens: &Tokens<'_>,
    first: Token,
    at: usize,
) -> Result<(InterfaceItem, usize), TextError>
    requires named { IsNamed tokens.now.text.now first }
    ensures gives { AnswersRead (λ x. (entry_view x.0, tokens_from tokens.now x.1)) result
        ((entry_behind (text_end tokens.now) nesting (lexeme tokens.now.text.now first)).read
        (tokens_from tokens.now at)) }
    ensures shorter { IfOk result (λ x. count_from tokens.now x.1 < count_from tokens.now at) }
{
    if is_name(tokens, first) {
        let name = label_of(alloc, tokens, first)?;
        return declared(alloc, tokens, first.span(), name, at);
    }
    keyword_entry(alloc, tokens, item_kind(first.kind), first.span(), at)
}

/// An item of an interface.
#[tactic(auto, unfolding(wit_grammar::specs::Grammar::entry))]
fn entry(alloc: Global, tokens: &Tokens<'_>, at: usize) -> Result<(InterfaceItem, usize), TextError>
    ensures gives { AnswersRead (λ x. (entry_view x.0, tokens_from tokens.now x.1)) result
        ((entry (text_end tokens.now) nesting).read (tokens_from tokens.now at)) }
    ensures shorter { IfOk result (λ x. count_from tokens.now x.1 < count_from tokens.now at) }
{
    match tokens.next(at) {
        Some((first, rest)) if begins_entry(tokens, first) => {
            entry_behind(alloc, tokens, first, rest)
        }
        _ => Err(entry_fault(tokens, at)),
    }
}

/// The items of an interface, up to the `}` and with it.
fn entry_list(
    alloc: Global,
    tokens: &Tokens<'_>,
    at: usize,
) -> Result<(Vec<InterfaceItem>, usize), TextError>
    requires { count_from tokens.now at < limit }
    ensures gives { AnswersRead (λ x. (map entry_view x.0.items, tokens_from tokens.now x.1)) result
        ((entry_list (text_end tokens.now) nesting limit).read (tokens_from tokens.now at)) }
    ensures shorter { IfOk result (λ x. count_from tokens.now x.1 < count_from tokens.now at) }
{
    let close = TokenKind::Punctuation(Punctuation::CloseBrace);
    let mut list = Vec::new(alloc);
    let mut left = at;
    'list: loop {
        let (brace, rest) = peek(tokens, left, close);
        if let Some(_) = brace {
            // A list has room for four from its first on, and most interfaces have fewer.
            list.shrink_to_fit();
            return Ok((list, rest));
        }
        let (entry, rest) = entry(alloc, tokens, rest)?;
        list.push(entry)?;
        left = rest;
    }
}

/// Behind `interface`.
#[tactic(auto, unfolding(wit_grammar::specs::Grammar::interface))]
pub fn interface(alloc: Global, tokens: &Tokens<'_>, at: usize) -> Result<(Item, usize), TextError>
    ensures gives { AnswersRead (λ x. (item_view x.0, tokens_from tokens.now x.1)) result
        ((interface (text_end tokens.now) nesting).read (tokens_from tokens.now at)) }
    ensures shorter { IfOk result (λ x. count_from tokens.now x.1 < count_from tokens.now at) }
{
    let (name, at) = identifier(alloc, tokens, at)?;
    let (_, at) = punctuation(tokens, at, Punctuation::OpenBrace)?;
    let (items, at) = entry_list(alloc, tokens, at)?;
    Ok((Item::Interface(Interface { name, items }), at))
}
