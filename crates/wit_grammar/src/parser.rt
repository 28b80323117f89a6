//! Small readers: each takes tokens from an index on, and answers the index behind them.
ghost use Rattle.std.specs.Prelude.{◌≡◌, ◌<◌, ◌≤◌, IsTrue, IfOk, IfSome, Ok};
ghost use Rattle.wit_tokens.specs.Tokens.{IsNamed, same_kind, lexeme, optional_lexeme, bytes_of, word_of, token_name};
ghost use Rattle.wit_grammar.specs.Faults.{AnswersRead, feature_or, met, is, wanted};
ghost use Rattle.wit_tokens.specs.declared.token.TokenKind.TheVariants as kind;
ghost use Rattle.wit_tokens.specs.declared.error.Expected.TheVariants as want;
ghost use Rattle.wit_tokens.specs.declared.token.Punctuation.TheVariants.{Comma};
ghost use Rattle.atoms.specs.Production.{comma_or, separator};
ghost use Rattle.wit_grammar.specs.Left.{tokens_from, count_from, text_end};
ghost use Rattle.wit_grammar.specs.Grammar.{comma, peek, token_of_kind, punctuation, is_name, id};

use crate::tokens::Tokens;
use atoms::Label;
use std::alloc::Global;
use wit_tokens::{Expected, Feature, Keyword, Punctuation, Span, TextError, Token, TokenKind};

pub fn same(kind: TokenKind, other: TokenKind) -> bool
    ensures { result ≡ same_kind kind other }
{
    match (kind, other) {
        (TokenKind::Keyword(a), TokenKind::Keyword(b)) => a == b,
        (TokenKind::Punctuation(a), TokenKind::Punctuation(b)) => a == b,
        (TokenKind::Identifier, TokenKind::Identifier) => true,
        (TokenKind::Version, TokenKind::Version) => true,
        (TokenKind::Integer, TokenKind::Integer) => true,
        _ => false,
    }
}

fn bytes_of<'a>(text: &'a [u8], token: Token) -> &'a [u8]
    ensures { result.now ≡ bytes_of text.now token }
{
    let (start, end) = (token.start as usize, token.end as usize);
    if start <= end && end <= text.len() {
        &text[start..end]
    } else {
        &[]
    }
}

fn word_of(bytes: &[u8]) -> &[u8]
    ensures { result.now ≡ word_of bytes.now }
{
    match bytes {
        [first, rest @ ..] if *first == b'%' || *first == b'@' => rest,
        _ => bytes,
    }
}

/// The word that a token spells, without the `%` of an escaped word and the `@` of a version.
pub fn name_of<'a>(tokens: &Tokens<'a>, token: Token) -> &'a [u8]
    ensures { result.now ≡ token_name tokens.now.text.now token }
{
    word_of(bytes_of(tokens.text, token))
}

/// Where the next token stands, or the end of the text.
pub fn met(tokens: &Tokens<'_>, at: usize) -> Span
    ensures { result ≡ met (text_end tokens.now) (tokens_from tokens.now at) }
{
    match tokens.next(at) {
        Some((first, _)) => first.span(),
        None => Span {
            start: tokens.text.len(),
            end: tokens.text.len(),
        },
    }
}

/// A feature that begins at the next token, or what is wanted there.
pub fn feature_or(
    tokens: &Tokens<'_>,
    at: usize,
    feature: Option<Feature>,
    wanted: Expected,
) -> TextError
    ensures { result ≡ feature_or feature wanted (met (text_end tokens.now) (tokens_from tokens.now at)) }
{
    match feature {
        Some(feature) => TextError::Unsupported(feature, met(tokens, at)),
        None => TextError::Expected(wanted, met(tokens, at)),
    }
}

/// Takes a token of this kind, if it comes next.
pub fn peek(tokens: &Tokens<'_>, at: usize, kind: TokenKind) -> (Option<Token>, usize)
    ensures gives { (peek kind).read (tokens_from tokens.now at)
        ≡ Ok (optional_lexeme tokens.now.text.now result.0, tokens_from tokens.now result.1) }
    ensures shorter { count_from tokens.now result.1 ≤ count_from tokens.now at }
    ensures taken { IfSome result.0 (λ _. count_from tokens.now result.1 < count_from tokens.now at) }
{
    match tokens.next(at) {
        Some((first, rest)) if same(first.kind, kind) => (Some(first), rest),
        _ => (None, at),
    }
}

/// Takes a token of this kind.
pub fn token(
    tokens: &Tokens<'_>,
    at: usize,
    kind: TokenKind,
    wanted: Expected,
) -> Result<(Token, usize), TextError>
    ensures gives { AnswersRead (λ x. (lexeme tokens.now.text.now x.0, tokens_from tokens.now x.1)) result
        ((token_of_kind (text_end tokens.now) kind wanted).read (tokens_from tokens.now at)) }
    ensures shorter { IfOk result (λ x. count_from tokens.now x.1 < count_from tokens.now at) }
{
    match tokens.next(at) {
        Some((first, rest)) if same(first.kind, kind) => Ok((first, rest)),
        _ => Err(TextError::Expected(wanted, met(tokens, at))),
    }
}

#[tactic(auto, unfolding(crate::specs::Grammar::punctuation))]
pub fn punctuation(
    tokens: &Tokens<'_>,
    at: usize,
    mark: Punctuation,
) -> Result<(Token, usize), TextError>
    ensures gives { AnswersRead (λ x. (lexeme tokens.now.text.now x.0, tokens_from tokens.now x.1)) result
        ((punctuation (text_end tokens.now) mark).read (tokens_from tokens.now at)) }
    ensures shorter { IfOk result (λ x. count_from tokens.now x.1 < count_from tokens.now at) }
{
    let kind = TokenKind::Punctuation(mark);
    token(tokens, at, kind, Expected::Punctuation(mark))
}

#[tactic(auto, unfolding(crate::specs::Grammar::is_name))]
pub fn is_name(tokens: &Tokens<'_>, token: Token) -> bool
    requires named { IsNamed tokens.now.text.now token }
    ensures { result ≡ is_name (lexeme tokens.now.text.now token) }
{
    same(token.kind, TokenKind::Identifier)
}

/// The label that a name spells.
#[tactic(auto, unfolding(crate::specs::Grammar::is_name))]
pub fn label_of(alloc: Global, tokens: &Tokens<'_>, token: Token) -> Result<Label, TextError>
    requires { IsTrue (is_name (lexeme tokens.now.text.now token)) }
    ensures { AnswersRead (λ l. l) result (Ok (token_name tokens.now.text.now token)) }
{
    Ok(Label::from_bytes(alloc, name_of(tokens, token))?)
}

/// Takes a name.
#[tactic(auto, unfolding(crate::specs::Grammar::id))]
pub fn identifier(
    alloc: Global,
    tokens: &Tokens<'_>,
    at: usize,
) -> Result<(Label, usize), TextError>
    ensures gives { AnswersRead (λ x. (x.0, tokens_from tokens.now x.1)) result
        ((id (text_end tokens.now)).read (tokens_from tokens.now at)) }
    ensures shorter { IfOk result (λ x. count_from tokens.now x.1 < count_from tokens.now at) }
{
    match tokens.next(at) {
        Some((first, rest)) if is_name(tokens, first) => {
            Ok((label_of(alloc, tokens, first)?, rest))
        }
        _ => Err(TextError::Expected(Expected::Identifier, met(tokens, at))),
    }
}

/// Takes a comma or this mark: whether more entries follow.
#[tactic(auto, unfolding(atoms::specs::Production::comma_or))]
pub fn comma_or(
    tokens: &Tokens<'_>,
    at: usize,
    close: Punctuation,
) -> Result<(bool, usize), TextError>
    ensures gives { AnswersRead (λ x. (x.0, tokens_from tokens.now x.1)) result
        ((comma_or (is comma) (is (kind.Punctuation close)) (wanted (text_end tokens.now) (want.Punctuation Comma))).read
        (tokens_from tokens.now at)) }
    ensures shorter { IfOk result (λ x. count_from tokens.now x.1 < count_from tokens.now at) }
{
    let close = TokenKind::Punctuation(close);
    let comma = TokenKind::Punctuation(Punctuation::Comma);
    match tokens.next(at) {
        Some((first, rest)) if same(first.kind, close) => Ok((false, rest)),
        Some((first, rest)) if same(first.kind, comma) => Ok((true, rest)),
        _ => {
            let wanted = Expected::Punctuation(Punctuation::Comma);
            Err(TextError::Expected(wanted, met(tokens, at)))
        }
    }
}

/// Takes what stands behind an entry of a list, a comma or this mark or both: whether more entries follow.
#[tactic(auto, unfolding(atoms::specs::Production::separator))]
pub fn separator(
    tokens: &Tokens<'_>,
    at: usize,
    close: Punctuation,
    expected: Expected,
) -> Result<(bool, usize), TextError>
    ensures gives { AnswersRead (λ x. (x.0, tokens_from tokens.now x.1)) result
        ((separator (is comma) (is (kind.Punctuation close)) (wanted (text_end tokens.now) expected)).read
        (tokens_from tokens.now at)) }
    ensures shorter { IfOk result (λ x. count_from tokens.now x.1 < count_from tokens.now at) }
{
    let close = TokenKind::Punctuation(close);
    let comma = TokenKind::Punctuation(Punctuation::Comma);
    match tokens.next(at) {
        Some((first, rest)) if same(first.kind, close) => Ok((false, rest)),
        Some((first, rest)) if same(first.kind, comma) => match tokens.next(rest) {
            Some((second, behind)) if same(second.kind, close) => Ok((false, behind)),
            _ => Ok((true, rest)),
        },
        _ => Err(TextError::Expected(expected, met(tokens, at))),
    }
}
