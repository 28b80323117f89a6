//! Types.
ghost use Rattle.std.specs.Prelude.{◌≡◌, ◌<◌, ◌≤◌, map, IfOk};
ghost use Rattle.wit_tokens.specs.Lexing.{limit};
ghost use Rattle.wit_tokens.specs.Tokens.{IsNamed, lexeme};
ghost use Rattle.wit_tokens.specs.View.{ty_view, maybe_view};
ghost use Rattle.wit_tokens.specs.Syntax.{ResultOf};
ghost use Rattle.wit_grammar.specs.Faults.{AnswersRead};
ghost use Rattle.wit_grammar.specs.Left.{tokens_from, count_from, text_end};
ghost use Rattle.wit_grammar.specs.Grammar.{keyword_start, kind_start, is_start, begins_type, type_fault, begun};
ghost use Rattle.wit_grammar.specs.Grammar.{type_behind, type_phrase, is_bare, greater_wanted, close_list, close_angle};
ghost use Rattle.wit_grammar.specs.Grammar.{list, option, members, tuple, error_type, result_error, result_ok};
ghost use Rattle.wit_grammar.specs.Grammar.{result_parts, result_type, ty};

use crate::parser::{is_name, label_of, met, punctuation, same, separator};
use crate::tokens::Tokens;
use std::alloc::Global;
use wit_tokens::wit_syntax::{InnerType, Primitive, ResultType, TypeExpression};
use wit_tokens::{Expected, Feature, Keyword, Punctuation, TextError, Token, TokenKind};

/// What a keyword is at the place of a type.
#[derive(Clone, Copy)]
pub enum Start {
    Plain(Primitive),
    List,
    Option,
    Tuple,
    Result,
    LeftOut(Feature),
    Nothing,
}

fn keyword_start(keyword: Keyword) -> Start
    ensures { result ≡ keyword_start keyword }
{
    match keyword {
        Keyword::Bool => Start::Plain(Primitive::Bool),
        Keyword::Char => Start::Plain(Primitive::Char),
        Keyword::String => Start::Plain(Primitive::String),
        Keyword::S8 => Start::Plain(Primitive::S8),
        Keyword::S16 => Start::Plain(Primitive::S16),
        Keyword::S32 => Start::Plain(Primitive::S32),
        Keyword::S64 => Start::Plain(Primitive::S64),
        Keyword::U8 => Start::Plain(Primitive::U8),
        Keyword::U16 => Start::Plain(Primitive::U16),
        Keyword::U32 => Start::Plain(Primitive::U32),
        Keyword::U64 => Start::Plain(Primitive::U64),
        Keyword::List => Start::List,
        Keyword::Option => Start::Option,
        Keyword::Tuple => Start::Tuple,
        Keyword::Result => Start::Result,
        Keyword::F32 => Start::LeftOut(Feature::Float),
        Keyword::F64 => Start::LeftOut(Feature::Float),
        Keyword::Own => Start::LeftOut(Feature::Resource),
        Keyword::Borrow => Start::LeftOut(Feature::Resource),
        Keyword::Stream => Start::LeftOut(Feature::Stream),
        Keyword::Future => Start::LeftOut(Feature::Future),
        Keyword::Map => Start::LeftOut(Feature::Map),
        Keyword::ErrorContext => Start::LeftOut(Feature::ErrorContext),
        Keyword::Async => Start::LeftOut(Feature::Async),
        _ => Start::Nothing,
    }
}

fn kind_start(kind: TokenKind) -> Start
    ensures { result ≡ kind_start kind }
{
    match kind {
        TokenKind::Keyword(keyword) => keyword_start(keyword),
        _ => Start::Nothing,
    }
}

fn is_start(start: Start) -> bool
    ensures { result ≡ is_start start }
{
    !matches!(start, Start::LeftOut(_) | Start::Nothing)
}

#[tactic(auto, unfolding(crate::specs::Grammar::begins_type))]
pub fn begins_type(tokens: &Tokens<'_>, token: Token) -> bool
    requires named { IsNamed tokens.now.text.now token }
    ensures { result ≡ begins_type (lexeme tokens.now.text.now token) }
{
    is_name(tokens, token) || is_start(kind_start(token.kind))
}

/// What is answered where a type is wanted, or no deeper nesting is allowed.
#[tactic(auto, unfolding(crate::specs::Grammar::type_fault))]
pub fn type_fault(tokens: &Tokens<'_>, at: usize) -> TextError
    ensures { result ≡ type_fault (text_end tokens.now) (tokens_from tokens.now at) }
{
    let Some((first, _)) = tokens.next(at) else {
        return TextError::Expected(Expected::Identifier, met(tokens, at));
    };
    if is_name(tokens, first) {
        return TextError::Depth(first.span());
    }
    match kind_start(first.kind) {
        Start::Nothing => TextError::Expected(Expected::Identifier, first.span()),
        Start::LeftOut(feature) => TextError::Unsupported(feature, first.span()),
        _ => TextError::Depth(first.span()),
    }
}

fn result_of(ok: ResultType, error: ResultType) -> TypeExpression
    ensures { ty_view result ≡ ResultOf (maybe_view ok) (maybe_view error) }
{
    TypeExpression::Result { ok, error }
}

/// Whether a type is `result` with nothing behind it.
fn is_bare(ty: &TypeExpression) -> bool
    ensures { result ≡ is_bare (ty_view ty.now) }
{
    matches!(
        ty,
        TypeExpression::Result {
            ok: ResultType::Absent,
            error: ResultType::Absent
        }
    )
}

/// What is wanted behind a type that `>` may end.
fn greater_wanted(ty: &TypeExpression) -> Expected
    ensures { result ≡ greater_wanted (ty_view ty.now) }
{
    if is_bare(ty) {
        Expected::Punctuation(Punctuation::Less)
    } else {
        Expected::Punctuation(Punctuation::Greater)
    }
}

/// The `>` behind the type of a list.
#[tactic(auto, unfolding(crate::specs::Grammar::close_list))]
fn close_list(
    tokens: &Tokens<'_>,
    ty: &TypeExpression,
    at: usize,
) -> Result<(Token, usize), TextError>
    ensures gives { AnswersRead (λ x. (lexeme tokens.now.text.now x.0, tokens_from tokens.now x.1)) result
        ((close_list (text_end tokens.now) (ty_view ty.now)).read (tokens_from tokens.now at)) }
    ensures shorter { IfOk result (λ x. count_from tokens.now x.1 < count_from tokens.now at) }
{
    let greater = TokenKind::Punctuation(Punctuation::Greater);
    let comma = TokenKind::Punctuation(Punctuation::Comma);
    match tokens.next(at) {
        Some((first, rest)) if same(first.kind, greater) => Ok((first, rest)),
        Some((first, _)) if same(first.kind, comma) => {
            let feature = Feature::FixedLengthList;
            Err(TextError::Unsupported(feature, first.span()))
        }
        _ => Err(TextError::Expected(greater_wanted(ty), met(tokens, at))),
    }
}

/// The `>` behind another type.
#[tactic(auto, unfolding(crate::specs::Grammar::close_angle))]
fn close_angle(
    tokens: &Tokens<'_>,
    ty: &TypeExpression,
    at: usize,
) -> Result<(Token, usize), TextError>
    ensures gives { AnswersRead (λ x. (lexeme tokens.now.text.now x.0, tokens_from tokens.now x.1)) result
        ((close_angle (text_end tokens.now) (ty_view ty.now)).read (tokens_from tokens.now at)) }
    ensures shorter { IfOk result (λ x. count_from tokens.now x.1 < count_from tokens.now at) }
{
    let greater = TokenKind::Punctuation(Punctuation::Greater);
    match tokens.next(at) {
        Some((first, rest)) if same(first.kind, greater) => Ok((first, rest)),
        _ => Err(TextError::Expected(greater_wanted(ty), met(tokens, at))),
    }
}

/// A type with at most `nesting` levels.
#[cycle(types)]
#[tactic(auto, using(crate::proofs::TypesByFirstToken::type_step, crate::proofs::TypesByFirstToken::type_stops))]
pub fn type_at(
    alloc: Global,
    tokens: &Tokens<'_>,
    nesting: u32,
    at: usize,
) -> Result<(TypeExpression, usize), TextError>
    ensures gives { AnswersRead (λ x. (ty_view x.0, tokens_from tokens.now x.1)) result
        ((ty (text_end tokens.now) nesting).read (tokens_from tokens.now at)) }
    ensures shorter { IfOk result (λ x. count_from tokens.now x.1 < count_from tokens.now at) }
{
    if nesting == 0 {
        return Err(type_fault(tokens, at));
    }
    type_of(alloc, tokens, nesting - 1, at)
}

/// A type that may hold types of `nesting` levels.
#[cycle(types)]
#[tactic(auto, unfolding(crate::specs::Grammar::type_phrase))]
fn type_of(
    alloc: Global,
    tokens: &Tokens<'_>,
    nesting: u32,
    at: usize,
) -> Result<(TypeExpression, usize), TextError>
    ensures gives { AnswersRead (λ x. (ty_view x.0, tokens_from tokens.now x.1)) result
        ((type_phrase (text_end tokens.now) (ty (text_end tokens.now) nesting)).read (tokens_from tokens.now at)) }
    ensures shorter { IfOk result (λ x. count_from tokens.now x.1 < count_from tokens.now at) }
{
    match tokens.next(at) {
        Some((first, rest)) if begins_type(tokens, first) => {
            type_behind(alloc, tokens, nesting, first, rest)
        }
        _ => Err(type_fault(tokens, at)),
    }
}

/// A type behind its first token, which may hold types of `nesting` levels.
#[cycle(types)]
#[tactic(auto, unfolding(crate::specs::Grammar::type_behind))]
pub fn type_behind(
    alloc: Global,
    tokens: &Tokens<'_>,
    nesting: u32,
    first: Token,
    at: usize,
) -> Result<(TypeExpression, usize), TextError>
    requires named { IsNamed tokens.now.text.now first }
    ensures gives { AnswersRead (λ x. (ty_view x.0, tokens_from tokens.now x.1)) result
        ((type_behind (text_end tokens.now) (ty (text_end tokens.now) nesting) (lexeme tokens.now.text.now first)).read
        (tokens_from tokens.now at)) }
    ensures shorter { IfOk result (λ x. count_from tokens.now x.1 ≤ count_from tokens.now at) }
{
    if is_name(tokens, first) {
        let name = label_of(alloc, tokens, first)?;
        return Ok((TypeExpression::Named(name), at));
    }
    begun(alloc, tokens, nesting, kind_start(first.kind), at)
}

/// A type behind its keyword.
#[cycle(types)]
#[tactic(auto, unfolding(crate::specs::Grammar::begun))]
fn begun(
    alloc: Global,
    tokens: &Tokens<'_>,
    nesting: u32,
    start: Start,
    at: usize,
) -> Result<(TypeExpression, usize), TextError>
    ensures gives { AnswersRead (λ x. (ty_view x.0, tokens_from tokens.now x.1)) result
        ((begun (text_end tokens.now) (ty (text_end tokens.now) nesting) start).read (tokens_from tokens.now at)) }
    ensures shorter { IfOk result (λ x. count_from tokens.now x.1 ≤ count_from tokens.now at) }
{
    match start {
        Start::Plain(primitive) => Ok((TypeExpression::Primitive(primitive), at)),
        Start::List => list_type(alloc, tokens, nesting, at),
        Start::Option => option_type(alloc, tokens, nesting, at),
        Start::Tuple => tuple_type(alloc, tokens, nesting, at),
        Start::Result => result_type(alloc, tokens, nesting, at),
        Start::LeftOut(_) | Start::Nothing => Err(type_fault(tokens, at)),
    }
}

/// Behind `list`.
#[cycle(types)]
#[tactic(auto, unfolding(crate::specs::Grammar::list))]
fn list_type(
    alloc: Global,
    tokens: &Tokens<'_>,
    nesting: u32,
    at: usize,
) -> Result<(TypeExpression, usize), TextError>
    ensures gives { AnswersRead (λ x. (ty_view x.0, tokens_from tokens.now x.1)) result
        ((list (text_end tokens.now) (ty (text_end tokens.now) nesting)).read (tokens_from tokens.now at)) }
    ensures shorter { IfOk result (λ x. count_from tokens.now x.1 < count_from tokens.now at) }
{
    let (_, at) = punctuation(tokens, at, Punctuation::Less)?;
    let (inner, at) = type_at(alloc, tokens, nesting, at)?;
    let (_, at) = close_list(tokens, &inner, at)?;
    Ok((TypeExpression::List(InnerType::of(alloc, inner)?), at))
}

/// Behind `option`.
#[cycle(types)]
#[tactic(auto, unfolding(crate::specs::Grammar::option))]
fn option_type(
    alloc: Global,
    tokens: &Tokens<'_>,
    nesting: u32,
    at: usize,
) -> Result<(TypeExpression, usize), TextError>
    ensures gives { AnswersRead (λ x. (ty_view x.0, tokens_from tokens.now x.1)) result
        ((option (text_end tokens.now) (ty (text_end tokens.now) nesting)).read (tokens_from tokens.now at)) }
    ensures shorter { IfOk result (λ x. count_from tokens.now x.1 < count_from tokens.now at) }
{
    let (_, at) = punctuation(tokens, at, Punctuation::Less)?;
    let (inner, at) = type_at(alloc, tokens, nesting, at)?;
    let (_, at) = close_angle(tokens, &inner, at)?;
    Ok((TypeExpression::Option(InnerType::of(alloc, inner)?), at))
}

/// Behind `tuple`.
#[cycle(types)]
#[tactic(auto, unfolding(crate::specs::Grammar::tuple))]
fn tuple_type(
    alloc: Global,
    tokens: &Tokens<'_>,
    nesting: u32,
    at: usize,
) -> Result<(TypeExpression, usize), TextError>
    ensures gives { AnswersRead (λ x. (ty_view x.0, tokens_from tokens.now x.1)) result
        ((tuple (text_end tokens.now) (ty (text_end tokens.now) nesting)).read (tokens_from tokens.now at)) }
    ensures shorter { IfOk result (λ x. count_from tokens.now x.1 < count_from tokens.now at) }
{
    let (_, at) = punctuation(tokens, at, Punctuation::Less)?;
    let (members, at) = member_list(alloc, tokens, nesting, at)?;
    Ok((TypeExpression::Tuple(members), at))
}

/// Behind `tuple <`, up to the `>` and with it.
#[cycle(types)]
fn member_list(
    alloc: Global,
    tokens: &Tokens<'_>,
    nesting: u32,
    at: usize,
) -> Result<(Vec<TypeExpression>, usize), TextError>
    ensures gives { AnswersRead (λ x. (map ty_view x.0.items, tokens_from tokens.now x.1)) result
        ((members (text_end tokens.now) (ty (text_end tokens.now) nesting) limit).read (tokens_from tokens.now at)) }
    ensures shorter { IfOk result (λ x. count_from tokens.now x.1 < count_from tokens.now at) }
{
    let mut list = Vec::new(alloc);
    let mut left = at;
    'list: loop {
        let (entry, after) = type_at(alloc, tokens, nesting, left)?;
        list.push(entry)?;
        let comma = Expected::Punctuation(Punctuation::Comma);
        let (more, after) = separator(tokens, after, Punctuation::Greater, comma)?;
        if !more {
            return Ok((list, after));
        }
        left = after;
    }
}

/// Behind `result`.
#[cycle(types)]
#[tactic(auto, unfolding(crate::specs::Grammar::result_type))]
fn result_type(
    alloc: Global,
    tokens: &Tokens<'_>,
    nesting: u32,
    at: usize,
) -> Result<(TypeExpression, usize), TextError>
    ensures gives { AnswersRead (λ x. (ty_view x.0, tokens_from tokens.now x.1)) result
        ((result_type (text_end tokens.now) (ty (text_end tokens.now) nesting)).read (tokens_from tokens.now at)) }
    ensures shorter { IfOk result (λ x. count_from tokens.now x.1 ≤ count_from tokens.now at) }
{
    let less = TokenKind::Punctuation(Punctuation::Less);
    match tokens.next(at) {
        Some((first, rest)) if same(first.kind, less) => {
            result_parts(alloc, tokens, nesting, rest)
        }
        _ => Ok((result_of(ResultType::Absent, ResultType::Absent), at)),
    }
}

/// Behind `result <`.
#[cycle(types)]
#[tactic(auto, unfolding(crate::specs::Grammar::result_parts))]
fn result_parts(
    alloc: Global,
    tokens: &Tokens<'_>,
    nesting: u32,
    at: usize,
) -> Result<(TypeExpression, usize), TextError>
    ensures gives { AnswersRead (λ x. (ty_view x.0, tokens_from tokens.now x.1)) result
        ((result_parts (text_end tokens.now) (ty (text_end tokens.now) nesting)).read (tokens_from tokens.now at)) }
    ensures shorter { IfOk result (λ x. count_from tokens.now x.1 ≤ count_from tokens.now at) }
{
    let underscore = TokenKind::Punctuation(Punctuation::Underscore);
    match tokens.next(at) {
        Some((first, rest)) if same(first.kind, underscore) => {
            result_error(alloc, tokens, nesting, rest)
        }
        _ => result_ok(alloc, tokens, nesting, at),
    }
}

/// Behind `result < _`.
#[cycle(types)]
#[tactic(auto, unfolding(crate::specs::Grammar::result_error))]
fn result_error(
    alloc: Global,
    tokens: &Tokens<'_>,
    nesting: u32,
    at: usize,
) -> Result<(TypeExpression, usize), TextError>
    ensures gives { AnswersRead (λ x. (ty_view x.0, tokens_from tokens.now x.1)) result
        ((result_error (text_end tokens.now) (ty (text_end tokens.now) nesting)).read (tokens_from tokens.now at)) }
    ensures shorter { IfOk result (λ x. count_from tokens.now x.1 ≤ count_from tokens.now at) }
{
    let (_, at) = punctuation(tokens, at, Punctuation::Comma)?;
    let (error, at) = error_type(alloc, tokens, nesting, at)?;
    let error = ResultType::of(alloc, error)?;
    Ok((result_of(ResultType::Absent, error), at))
}

/// The last type of a result, and its `>`.
#[cycle(types)]
#[tactic(auto, unfolding(crate::specs::Grammar::error_type))]
fn error_type(
    alloc: Global,
    tokens: &Tokens<'_>,
    nesting: u32,
    at: usize,
) -> Result<(TypeExpression, usize), TextError>
    ensures gives { AnswersRead (λ x. (ty_view x.0, tokens_from tokens.now x.1)) result
        ((error_type (text_end tokens.now) (ty (text_end tokens.now) nesting)).read (tokens_from tokens.now at)) }
    ensures shorter { IfOk result (λ x. count_from tokens.now x.1 ≤ count_from tokens.now at) }
{
    let (error, at) = type_at(alloc, tokens, nesting, at)?;
    let (_, at) = close_angle(tokens, &error, at)?;
    Ok((error, at))
}

/// Behind `result <`, where a type begins.
#[cycle(types)]
#[tactic(auto, unfolding(crate::specs::Grammar::result_ok, crate::specs::Grammar::result_rest))]
fn result_ok(
    alloc: Global,
    tokens: &Tokens<'_>,
    nesting: u32,
    at: usize,
) -> Result<(TypeExpression, usize), TextError>
    ensures gives { AnswersRead (λ x. (ty_view x.0, tokens_from tokens.now x.1)) result
        ((result_ok (text_end tokens.now) (ty (text_end tokens.now) nesting)).read (tokens_from tokens.now at)) }
    ensures shorter { IfOk result (λ x. count_from tokens.now x.1 ≤ count_from tokens.now at) }
{
    let greater = TokenKind::Punctuation(Punctuation::Greater);
    let comma = TokenKind::Punctuation(Punctuation::Comma);
    let (ok, at) = type_at(alloc, tokens, nesting, at)?;
    let ok = ResultType::of(alloc, ok)?;
    match tokens.next(at) {
        Some((first, rest)) if same(first.kind, greater) => Ok((
            result_of(ok, ResultType::Absent),
            rest,
        )),
        Some((first, rest)) if same(first.kind, comma) => {
            let (error, at) = error_type(alloc, tokens, nesting, rest)?;
            let error = ResultType::of(alloc, error)?;
            Ok((result_of(ok, error), at))
        }
        _ => {
            let comma = Expected::Punctuation(Punctuation::Comma);
            Err(TextError::Expected(comma, met(tokens, at)))
        }
    }
}
