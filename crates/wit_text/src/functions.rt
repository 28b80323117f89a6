//! Functions.
ghost use Rattle.std.specs.Prelude.{◌≡◌, ◌<◌, ◌≤◌, map, IfOk};
ghost use Rattle.wit_tokens.specs.Lexing.{limit};
ghost use Rattle.wit_tokens.specs.Tokens.{lexeme};
ghost use Rattle.wit_tokens.specs.View.{ty_view, field_view, function_view, optional_view};
ghost use Rattle.wit_grammar.specs.Faults.{AnswersRead, unless_feature};
ghost use Rattle.wit_tokens.specs.declared.error.Expected.TheVariants as want;
ghost use Rattle.wit_tokens.specs.declared.token.Keyword.TheVariants as kw;
ghost use Rattle.wit_grammar.specs.Left.{tokens_from, count_from, text_end};
ghost use Rattle.wit_grammar.specs.Grammar.{nesting, member, after_member, param_list, parameters, result_fault};
ghost use Rattle.wit_grammar.specs.Grammar.{function_result, optional_result, function, async_feature, func_word};
ghost use Rattle.wit_grammar.specs.Grammar.{after_function, function_end, whole_function};

use std::alloc::Global;
use wit_grammar::{
    Tokens, begins_type, comma_or, feature_or, identifier, met, punctuation, same, type_at,
    type_behind, type_fault,
};
use wit_tokens::wit_syntax::{Field, FuncType, TypeExpression};
use wit_tokens::{Expected, Feature, Keyword, Punctuation, TextError, Token, TokenKind};

/// The levels of types that are read.
pub const NESTING: u32 = 64;

/// A name, and its type behind `:`.
#[tactic(auto, unfolding(wit_grammar::specs::Grammar::member))]
pub fn field(alloc: Global, tokens: &Tokens<'_>, at: usize) -> Result<(Field, usize), TextError>
    ensures gives { AnswersRead (λ x. (field_view x.0, tokens_from tokens.now x.1)) result
        ((member (text_end tokens.now) nesting).read (tokens_from tokens.now at)) }
    ensures shorter { IfOk result (λ x. count_from tokens.now x.1 < count_from tokens.now at) }
{
    let (name, at) = identifier(alloc, tokens, at)?;
    let (_, at) = punctuation(tokens, at, Punctuation::Colon)?;
    let (ty, at) = type_at(alloc, tokens, NESTING, at)?;
    Ok((Field { name, ty }, at))
}

/// What stands behind a parameter: whether more follow.
#[tactic(auto, unfolding(wit_grammar::specs::Grammar::after_member))]
fn after_param(tokens: &Tokens<'_>, at: usize) -> Result<(bool, usize), TextError>
    ensures gives { AnswersRead (λ x. (x.0, tokens_from tokens.now x.1)) result
        ((after_member (text_end tokens.now)).read (tokens_from tokens.now at)) }
    ensures shorter { IfOk result (λ x. count_from tokens.now x.1 < count_from tokens.now at) }
{
    comma_or(tokens, at, Punctuation::CloseParenthesis)
}

/// Parameters, up to the `)` and with it.
fn param_list(
    alloc: Global,
    tokens: &Tokens<'_>,
    at: usize,
) -> Result<(Vec<Field>, usize), TextError>
    requires { count_from tokens.now at < limit }
    ensures gives { AnswersRead (λ x. (map field_view x.0.items, tokens_from tokens.now x.1)) result
        ((param_list (text_end tokens.now) nesting limit).read (tokens_from tokens.now at)) }
    ensures shorter { IfOk result (λ x. count_from tokens.now x.1 < count_from tokens.now at) }
{
    let mut list = Vec::new(alloc);
    let mut left = at;
    'list: loop {
        let (entry, after) = field(alloc, tokens, left)?;
        list.push(entry)?;
        let (more, after) = after_param(tokens, after)?;
        if !more {
            return Ok((list, after));
        }
        left = after;
    }
}

/// Behind `(`, with the `)`.
#[tactic(auto, unfolding(wit_grammar::specs::Grammar::parameters))]
fn parameters(
    alloc: Global,
    tokens: &Tokens<'_>,
    at: usize,
) -> Result<(Vec<Field>, usize), TextError>
    requires { count_from tokens.now at < limit }
    ensures gives { AnswersRead (λ x. (map field_view x.0.items, tokens_from tokens.now x.1)) result
        ((parameters (text_end tokens.now) nesting).read (tokens_from tokens.now at)) }
    ensures shorter { IfOk result (λ x. count_from tokens.now x.1 < count_from tokens.now at) }
{
    let close = TokenKind::Punctuation(Punctuation::CloseParenthesis);
    match tokens.next(at) {
        Some((first, rest)) if same(first.kind, close) => Ok((Vec::new(alloc), rest)),
        _ => {
            let (mut list, after) = param_list(alloc, tokens, at)?;
            list.shrink_to_fit();
            Ok((list, after))
        }
    }
}

/// What is answered where a function's result is wanted.
#[tactic(auto, unfolding(wit_grammar::specs::Grammar::result_fault, wit_grammar::specs::Grammar::type_fault))]
fn result_fault(tokens: &Tokens<'_>, at: usize) -> TextError
    ensures { result ≡ result_fault (text_end tokens.now) (tokens_from tokens.now at) }
{
    let open = TokenKind::Punctuation(Punctuation::OpenParenthesis);
    match tokens.next(at) {
        Some((first, _)) if same(first.kind, open) => {
            TextError::Unsupported(Feature::NamedResults, first.span())
        }
        _ => type_fault(tokens, at),
    }
}

/// The type behind `->`.
#[tactic(auto, unfolding(wit_grammar::specs::Grammar::function_result))]
fn function_result(
    alloc: Global,
    tokens: &Tokens<'_>,
    at: usize,
) -> Result<(TypeExpression, usize), TextError>
    ensures gives { AnswersRead (λ x. (ty_view x.0, tokens_from tokens.now x.1)) result
        ((function_result (text_end tokens.now) nesting).read (tokens_from tokens.now at)) }
    ensures shorter { IfOk result (λ x. count_from tokens.now x.1 < count_from tokens.now at) }
{
    match tokens.next(at) {
        Some((first, rest)) if begins_type(tokens, first) => {
            type_behind(alloc, tokens, NESTING - 1, first, rest)
        }
        _ => Err(result_fault(tokens, at)),
    }
}

/// `->` and a type, or nothing.
#[tactic(auto, unfolding(wit_grammar::specs::Grammar::optional_result))]
fn optional_result(
    alloc: Global,
    tokens: &Tokens<'_>,
    at: usize,
) -> Result<(Option<TypeExpression>, usize), TextError>
    ensures gives { AnswersRead (λ x. (optional_view x.0, tokens_from tokens.now x.1)) result
        ((optional_result (text_end tokens.now) nesting).read (tokens_from tokens.now at)) }
    ensures shorter { IfOk result (λ x. count_from tokens.now x.1 ≤ count_from tokens.now at) }
{
    let arrow = TokenKind::Punctuation(Punctuation::Arrow);
    match tokens.next(at) {
        Some((first, rest)) if same(first.kind, arrow) => {
            let (ty, at) = function_result(alloc, tokens, rest)?;
            Ok((Some(ty), at))
        }
        _ => Ok((None, at)),
    }
}

/// Parameters and result, behind `func`.
#[tactic(auto, unfolding(wit_grammar::specs::Grammar::function))]
fn function(alloc: Global, tokens: &Tokens<'_>, at: usize) -> Result<(FuncType, usize), TextError>
    ensures gives { AnswersRead (λ x. (function_view x.0, tokens_from tokens.now x.1)) result
        ((function (text_end tokens.now) nesting).read (tokens_from tokens.now at)) }
    ensures shorter { IfOk result (λ x. count_from tokens.now x.1 < count_from tokens.now at) }
{
    let (_, at) = punctuation(tokens, at, Punctuation::OpenParenthesis)?;
    let (params, at) = parameters(alloc, tokens, at)?;
    let (result, at) = optional_result(alloc, tokens, at)?;
    Ok((FuncType { params, result }, at))
}

/// What is answered where no `func` stands.
fn func_fault(tokens: &Tokens<'_>, at: usize) -> TextError
    ensures { result ≡ unless_feature (text_end tokens.now) async_feature (want.Keyword kw.Func)
        (tokens_from tokens.now at) }
{
    let keyword = TokenKind::Keyword(Keyword::Async);
    let feature = match tokens.next(at) {
        Some((first, _)) if same(first.kind, keyword) => Some(Feature::Async),
        _ => None,
    };
    feature_or(tokens, at, feature, Expected::Keyword(Keyword::Func))
}

/// `func` in an interface.
#[tactic(auto, unfolding(wit_grammar::specs::Grammar::func_word))]
pub fn func_word(tokens: &Tokens<'_>, at: usize) -> Result<(Token, usize), TextError>
    ensures gives { AnswersRead (λ x. (lexeme tokens.now.text.now x.0, tokens_from tokens.now x.1)) result
        ((func_word (text_end tokens.now) async_feature).read (tokens_from tokens.now at)) }
    ensures shorter { IfOk result (λ x. count_from tokens.now x.1 < count_from tokens.now at) }
{
    let func = TokenKind::Keyword(Keyword::Func);
    match tokens.next(at) {
        Some((first, rest)) if same(first.kind, func) => Ok((first, rest)),
        _ => Err(func_fault(tokens, at)),
    }
}

fn after_function(ty: &FuncType) -> Expected
    ensures { result ≡ after_function (function_view ty.now) }
{
    if ty.result.is_some() {
        Expected::Punctuation(Punctuation::Semicolon)
    } else {
        Expected::Punctuation(Punctuation::Arrow)
    }
}

/// The `;` behind a function.
#[tactic(auto, unfolding(wit_grammar::specs::Grammar::function_end))]
fn function_end(tokens: &Tokens<'_>, ty: &FuncType, at: usize) -> Result<(Token, usize), TextError>
    ensures gives { AnswersRead (λ x. (lexeme tokens.now.text.now x.0, tokens_from tokens.now x.1)) result
        ((function_end (text_end tokens.now) (function_view ty.now)).read (tokens_from tokens.now at)) }
    ensures shorter { IfOk result (λ x. count_from tokens.now x.1 < count_from tokens.now at) }
{
    let semicolon = TokenKind::Punctuation(Punctuation::Semicolon);
    match tokens.next(at) {
        Some((first, rest)) if same(first.kind, semicolon) => Ok((first, rest)),
        _ => Err(TextError::Expected(after_function(ty), met(tokens, at))),
    }
}

/// A function and its `;`, behind `func`.
#[tactic(auto, unfolding(wit_grammar::specs::Grammar::whole_function))]
pub fn whole_function(
    alloc: Global,
    tokens: &Tokens<'_>,
    at: usize,
) -> Result<(FuncType, usize), TextError>
    ensures gives { AnswersRead (λ x. (function_view x.0, tokens_from tokens.now x.1)) result
        ((whole_function (text_end tokens.now) nesting).read (tokens_from tokens.now at)) }
    ensures shorter { IfOk result (λ x. count_from tokens.now x.1 < count_from tokens.now at) }
{
    let (ty, at) = function(alloc, tokens, at)?;
    let (_, at) = function_end(tokens, &ty, at)?;
    Ok((ty, at))
}
