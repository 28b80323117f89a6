//! Worlds.
ghost use Rattle.std.specs.Prelude.{◌≡◌, ◌<◌, map, IfOk};
ghost use Rattle.wit_tokens.specs.Lexing.{limit};
ghost use Rattle.wit_tokens.specs.Tokens.{IsNamed, lexeme};
ghost use Rattle.wit_tokens.specs.View.{world_entry_view, item_view};
ghost use Rattle.wit_grammar.specs.Faults.{AnswersRead};
ghost use Rattle.wit_grammar.specs.Left.{tokens_from, count_from, text_end};
ghost use Rattle.wit_grammar.specs.Grammar.{nesting, keyword_direction, direction_of, world_keyword, world_feature};
ghost use Rattle.wit_grammar.specs.Grammar.{world_fault, single_keyword, single_kind, single_fault};
ghost use Rattle.wit_grammar.specs.Grammar.{begins_behind_colon, whole_foreign, single, colon_behind, world_colon};
ghost use Rattle.wit_grammar.specs.Grammar.{world_entry_behind, world_entry, world_list, world};

use crate::functions::whole_function;
use atoms::Label;
use std::alloc::Global;
use wit_grammar::{
    Tokens, feature_or, foreign, gate, identifier, is_name, label_of, path_end, peek, punctuation,
    same,
};
use wit_tokens::wit_syntax::{Direction, Func, Item, Path, World, WorldItem, WorldItemKind};
use wit_tokens::{Expected, Feature, Keyword, Punctuation, Span, TextError, Token, TokenKind};

fn direction_keyword(keyword: Keyword) -> Option<Direction>
    ensures { result ≡ keyword_direction keyword }
{
    match keyword {
        Keyword::Import => Some(Direction::Import),
        Keyword::Export => Some(Direction::Export),
        _ => None,
    }
}

fn direction_of(kind: TokenKind) -> Option<Direction>
    ensures { result ≡ direction_of kind }
{
    match kind {
        TokenKind::Keyword(keyword) => direction_keyword(keyword),
        _ => None,
    }
}

fn world_keyword(keyword: Keyword) -> Option<Feature>
    ensures { result ≡ world_keyword keyword }
{
    match keyword {
        Keyword::Include => Some(Feature::Include),
        Keyword::Use => Some(Feature::WorldUse),
        Keyword::Type
        | Keyword::Record
        | Keyword::Variant
        | Keyword::Enum
        | Keyword::Flags
        | Keyword::Resource => Some(Feature::WorldType),
        _ => None,
    }
}

fn world_feature(kind: TokenKind) -> Option<Feature>
    ensures { result ≡ world_feature kind }
{
    match kind {
        TokenKind::Keyword(keyword) => world_keyword(keyword),
        TokenKind::Punctuation(mark) => gate(mark),
        _ => None,
    }
}

/// What is answered where no item of a world begins.
#[tactic(auto, unfolding(wit_grammar::specs::Grammar::world_fault))]
fn world_fault(tokens: &Tokens<'_>, at: usize) -> TextError
    ensures { result ≡ world_fault (text_end tokens.now) (tokens_from tokens.now at) }
{
    let feature = match tokens.next(at) {
        Some((first, _)) => world_feature(first.kind),
        None => None,
    };
    feature_or(tokens, at, feature, Expected::Keyword(Keyword::Export))
}

fn single_keyword(keyword: Keyword) -> Option<Feature>
    ensures { result ≡ single_keyword keyword }
{
    match keyword {
        Keyword::Async => Some(Feature::Async),
        Keyword::Interface => Some(Feature::InlineInterface),
        _ => None,
    }
}

fn single_kind(kind: TokenKind) -> Option<Feature>
    ensures { result ≡ single_kind kind }
{
    match kind {
        TokenKind::Keyword(keyword) => single_keyword(keyword),
        _ => None,
    }
}

/// What is answered where neither a name nor `func` stands.
#[tactic(auto, unfolding(wit_grammar::specs::Grammar::single_fault))]
fn single_fault(tokens: &Tokens<'_>, at: usize) -> TextError
    ensures { result ≡ single_fault (text_end tokens.now) (tokens_from tokens.now at) }
{
    let feature = match tokens.next(at) {
        Some((first, _)) => single_kind(first.kind),
        None => None,
    };
    feature_or(tokens, at, feature, Expected::Identifier)
}

#[tactic(auto, unfolding(wit_grammar::specs::Grammar::begins_behind_colon))]
fn begins_behind_colon(tokens: &Tokens<'_>, token: Token) -> bool
    requires named { IsNamed tokens.now.text.now token }
    ensures { result ≡ begins_behind_colon (lexeme tokens.now.text.now token) }
{
    is_name(tokens, token) || same(token.kind, TokenKind::Keyword(Keyword::Func))
}

/// Another package's interface in a world, behind the names of its package.
#[tactic(auto, unfolding(wit_grammar::specs::Grammar::whole_foreign))]
fn whole_foreign(
    alloc: Global,
    tokens: &Tokens<'_>,
    direction: Direction,
    namespace: Label,
    name: Label,
    at: usize,
) -> Result<(WorldItem, usize), TextError>
    ensures gives { AnswersRead (λ x. (world_entry_view x.0, tokens_from tokens.now x.1)) result
        ((whole_foreign (text_end tokens.now) direction namespace name).read (tokens_from tokens.now at)) }
    ensures shorter { IfOk result (λ x. count_from tokens.now x.1 < count_from tokens.now at) }
{
    let (path, at) = foreign(alloc, tokens, namespace, name, at)?;
    let (_, at) = path_end(tokens, &path, Punctuation::Semicolon, at)?;
    let kind = WorldItemKind::Interface(path);
    Ok((WorldItem { direction, kind }, at))
}

/// A function of a world behind `func`; the item stands at `span`.
#[tactic(auto, unfolding(wit_grammar::specs::Grammar::single))]
fn single(
    alloc: Global,
    tokens: &Tokens<'_>,
    direction: Direction,
    span: Span,
    name: Label,
    at: usize,
) -> Result<(WorldItem, usize), TextError>
    ensures gives { AnswersRead (λ x. (world_entry_view x.0, tokens_from tokens.now x.1)) result
        ((single (text_end tokens.now) nesting direction span name).read (tokens_from tokens.now at)) }
    ensures shorter { IfOk result (λ x. count_from tokens.now x.1 < count_from tokens.now at) }
{
    let (ty, at) = whole_function(alloc, tokens, at)?;
    let kind = WorldItemKind::Func(Func { span, name, ty });
    Ok((WorldItem { direction, kind }, at))
}

/// An item of a world behind the `:` and the token behind it.
#[tactic(auto, unfolding(wit_grammar::specs::Grammar::colon_behind))]
fn colon_behind(
    alloc: Global,
    tokens: &Tokens<'_>,
    direction: Direction,
    span: Span,
    name: Label,
    first: Token,
    at: usize,
) -> Result<(WorldItem, usize), TextError>
    requires named { IsNamed tokens.now.text.now first }
    ensures gives { AnswersRead (λ x. (world_entry_view x.0, tokens_from tokens.now x.1)) result
        ((colon_behind (text_end tokens.now) nesting direction span name (lexeme tokens.now.text.now first)).read
        (tokens_from tokens.now at)) }
    ensures shorter { IfOk result (λ x. count_from tokens.now x.1 < count_from tokens.now at) }
{
    if is_name(tokens, first) {
        let package = label_of(alloc, tokens, first)?;
        return whole_foreign(alloc, tokens, direction, name, package, at);
    }
    single(alloc, tokens, direction, span, name, at)
}

/// An item of a world from the `:` behind its name on; the item stands at `span`.
#[tactic(auto, unfolding(wit_grammar::specs::Grammar::world_colon))]
fn world_colon(
    alloc: Global,
    tokens: &Tokens<'_>,
    direction: Direction,
    span: Span,
    name: Label,
    at: usize,
) -> Result<(WorldItem, usize), TextError>
    ensures gives { AnswersRead (λ x. (world_entry_view x.0, tokens_from tokens.now x.1)) result
        ((world_colon (text_end tokens.now) nesting direction span name).read (tokens_from tokens.now at)) }
    ensures shorter { IfOk result (λ x. count_from tokens.now x.1 < count_from tokens.now at) }
{
    let (_, at) = punctuation(tokens, at, Punctuation::Colon)?;
    match tokens.next(at) {
        Some((first, rest)) if begins_behind_colon(tokens, first) => {
            colon_behind(alloc, tokens, direction, span, name, first, rest)
        }
        _ => Err(single_fault(tokens, at)),
    }
}

/// An item of a world behind its direction, which stands at `span`.
#[tactic(auto, unfolding(wit_grammar::specs::Grammar::world_entry_behind))]
fn world_entry_behind(
    alloc: Global,
    tokens: &Tokens<'_>,
    direction: Direction,
    span: Span,
    at: usize,
) -> Result<(WorldItem, usize), TextError>
    ensures gives { AnswersRead (λ x. (world_entry_view x.0, tokens_from tokens.now x.1)) result
        ((world_entry_behind (text_end tokens.now) nesting direction span).read (tokens_from tokens.now at)) }
    ensures shorter { IfOk result (λ x. count_from tokens.now x.1 < count_from tokens.now at) }
{
    let semicolon = TokenKind::Punctuation(Punctuation::Semicolon);
    let (name, at) = identifier(alloc, tokens, at)?;
    match tokens.next(at) {
        Some((first, rest)) if same(first.kind, semicolon) => {
            let kind = WorldItemKind::Interface(Path::Local(name));
            Ok((WorldItem { direction, kind }, rest))
        }
        _ => world_colon(alloc, tokens, direction, span, name, at),
    }
}

/// An item of a world.
#[tactic(auto, unfolding(wit_grammar::specs::Grammar::world_entry))]
fn world_entry(
    alloc: Global,
    tokens: &Tokens<'_>,
    at: usize,
) -> Result<(WorldItem, usize), TextError>
    ensures gives { AnswersRead (λ x. (world_entry_view x.0, tokens_from tokens.now x.1)) result
        ((world_entry (text_end tokens.now) nesting).read (tokens_from tokens.now at)) }
    ensures shorter { IfOk result (λ x. count_from tokens.now x.1 < count_from tokens.now at) }
{
    let Some((first, rest)) = tokens.next(at) else {
        return Err(world_fault(tokens, at));
    };
    match direction_of(first.kind) {
        Some(direction) => world_entry_behind(alloc, tokens, direction, first.span(), rest),
        None => Err(world_fault(tokens, at)),
    }
}

/// The items of a world, up to the `}` and with it.
fn world_list(
    alloc: Global,
    tokens: &Tokens<'_>,
    at: usize,
) -> Result<(Vec<WorldItem>, usize), TextError>
    requires { count_from tokens.now at < limit }
    ensures gives { AnswersRead (λ x. (map world_entry_view x.0.items, tokens_from tokens.now x.1)) result
        ((world_list (text_end tokens.now) nesting limit).read (tokens_from tokens.now at)) }
    ensures shorter { IfOk result (λ x. count_from tokens.now x.1 < count_from tokens.now at) }
{
    let close = TokenKind::Punctuation(Punctuation::CloseBrace);
    let mut list = Vec::new(alloc);
    let mut left = at;
    'list: loop {
        let (brace, rest) = peek(tokens, left, close);
        if let Some(_) = brace {
            return Ok((list, rest));
        }
        let (entry, rest) = world_entry(alloc, tokens, rest)?;
        list.push(entry)?;
        left = rest;
    }
}

/// Behind `world`, which stands at `span`.
#[tactic(auto, unfolding(wit_grammar::specs::Grammar::world))]
pub fn world(
    alloc: Global,
    tokens: &Tokens<'_>,
    span: Span,
    at: usize,
) -> Result<(Item, usize), TextError>
    ensures gives { AnswersRead (λ x. (item_view x.0, tokens_from tokens.now x.1)) result
        ((world (text_end tokens.now) nesting span).read (tokens_from tokens.now at)) }
    ensures shorter { IfOk result (λ x. count_from tokens.now x.1 < count_from tokens.now at) }
{
    let (name, at) = identifier(alloc, tokens, at)?;
    let (_, at) = punctuation(tokens, at, Punctuation::OpenBrace)?;
    let (items, at) = world_list(alloc, tokens, at)?;
    Ok((Item::World(World { span, name, items }), at))
}
