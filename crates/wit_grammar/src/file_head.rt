//! The package's name and version.
ghost use Rattle.std.specs.Prelude.{◌≡◌, ◌<◌, ◌≤◌, is_some, IfOk, IfSome};
ghost use Rattle.std.specs.String.{string_bytes};
ghost use Rattle.wit_tokens.specs.Tokens.{lexeme};
ghost use Rattle.wit_tokens.specs.View.{version_view, header_view};
ghost use Rattle.wit_grammar.specs.Faults.{AnswersRead};
ghost use Rattle.wit_grammar.specs.Left.{tokens_from, count_from, text_end};
ghost use Rattle.wit_grammar.specs.Grammar.{is_version_text, is_version_token, version, is_lower_name, lower_id, gate};
ghost use Rattle.wit_grammar.specs.Grammar.{first_feature, first_fault, package_word, version_or, header_fault};
ghost use Rattle.wit_grammar.specs.Grammar.{header_end, header};

use crate::parser::{feature_or, label_of, met, name_of, punctuation, same};
use crate::tokens::Tokens;
use atoms::{Label, is_package_label, is_version};
use std::alloc::{AllocError, Global};
use wit_tokens::wit_syntax::PackageId;
use wit_tokens::{Expected, Feature, Keyword, Punctuation, TextError, Token, TokenKind};

/// The text, where a package's version may be spelled so.
#[tactic(auto, using(crate::proofs::BytesOfVersions::bad_version, crate::proofs::BytesOfVersions::good_version))]
fn version_text(alloc: Global, text: &[u8]) -> Result<Option<String>, AllocError>
    ensures is { IfOk result (λ v. is_some v ≡ is_version_text text.now) }
    ensures text { IfOk result (λ v. IfSome v (λ s. string_bytes s ≡ text.now)) }
{
    let Ok(text) = std::str::from_utf8(text) else {
        return Ok(None);
    };
    if is_version(alloc, text)? {
        Ok(Some(String::from_str(alloc, text)?))
    } else {
        Ok(None)
    }
}

#[tactic(auto, unfolding(crate::specs::Grammar::is_lower_name))]
fn is_lower_name(tokens: &Tokens<'_>, token: Token) -> bool
    ensures { result ≡ is_lower_name (lexeme tokens.now.text.now token) }
{
    same(token.kind, TokenKind::Identifier) && is_package_label(name_of(tokens, token))
}

/// Takes a name in lower case.
#[tactic(auto, using(crate::proofs::LowerNamesAreNames::named), unfolding(crate::specs::Grammar::lower_id))]
fn lower_identifier(
    alloc: Global,
    tokens: &Tokens<'_>,
    at: usize,
) -> Result<(Label, usize), TextError>
    ensures gives { AnswersRead (λ x. (x.0, tokens_from tokens.now x.1)) result
        ((lower_id (text_end tokens.now)).read (tokens_from tokens.now at)) }
    ensures shorter { IfOk result (λ x. count_from tokens.now x.1 < count_from tokens.now at) }
{
    match tokens.next(at) {
        Some((first, rest)) if is_lower_name(tokens, first) => {
            Ok((label_of(alloc, tokens, first)?, rest))
        }
        _ => Err(TextError::Expected(Expected::Identifier, met(tokens, at))),
    }
}

pub fn gate(mark: Punctuation) -> Option<Feature>
    ensures { result ≡ gate mark }
{
    match mark {
        Punctuation::At => Some(Feature::Gate),
        _ => None,
    }
}

pub fn first_feature(kind: TokenKind) -> Option<Feature>
    ensures { result ≡ first_feature kind }
{
    match kind {
        TokenKind::Punctuation(mark) => gate(mark),
        _ => None,
    }
}

/// What is answered where a text doesn't begin with `package`.
#[tactic(auto, unfolding(crate::specs::Grammar::first_fault))]
fn first_fault(tokens: &Tokens<'_>, at: usize) -> TextError
    ensures { result ≡ first_fault (text_end tokens.now) (tokens_from tokens.now at) }
{
    let feature = match tokens.next(at) {
        Some((first, _)) => first_feature(first.kind),
        None => None,
    };
    feature_or(tokens, at, feature, Expected::Keyword(Keyword::Package))
}

/// The version behind the name of a package or of its interface, if a well-formed one stands there.
#[tactic(auto, unfolding(crate::specs::Grammar::version, crate::specs::Grammar::is_version_token))]
pub fn version(
    alloc: Global,
    tokens: &Tokens<'_>,
    at: usize,
) -> Result<(Option<String>, usize), TextError>
    ensures gives { AnswersRead (λ x. (version_view x.0, tokens_from tokens.now x.1)) result
        (version.read (tokens_from tokens.now at)) }
    ensures shorter { IfOk result (λ x. count_from tokens.now x.1 ≤ count_from tokens.now at) }
{
    let Some((first, rest)) = tokens.next(at) else {
        return Ok((None, at));
    };
    if !same(first.kind, TokenKind::Version) {
        return Ok((None, at));
    }
    match version_text(alloc, name_of(tokens, first))? {
        Some(version) => Ok((Some(version), rest)),
        None => Ok((None, at)),
    }
}

/// What is wanted behind a version that may be left out, before this mark, where this token stands.
pub fn version_or(
    tokens: &Tokens<'_>,
    version: &Option<String>,
    mark: Punctuation,
    token: Token,
) -> Expected
    ensures { result ≡ version_or (version_view version.now) mark (lexeme tokens.now.text.now token) }
{
    if version.is_none() && same(token.kind, TokenKind::Version) {
        Expected::Version
    } else {
        Expected::Punctuation(mark)
    }
}

/// What is answered where no `;` stands behind the package's name.
#[tactic(auto, unfolding(crate::specs::Grammar::header_fault))]
fn header_fault(tokens: &Tokens<'_>, version: &Option<String>, at: usize) -> TextError
    ensures { result ≡ header_fault (text_end tokens.now) (version_view version.now) (tokens_from tokens.now at) }
{
    let brace = TokenKind::Punctuation(Punctuation::OpenBrace);
    match tokens.next(at) {
        Some((first, _)) if same(first.kind, brace) => {
            TextError::Unsupported(Feature::NestedPackage, first.span())
        }
        Some((first, _)) => {
            let wanted = version_or(tokens, version, Punctuation::Semicolon, first);
            TextError::Expected(wanted, first.span())
        }
        None => {
            let semicolon = Expected::Punctuation(Punctuation::Semicolon);
            TextError::Expected(semicolon, met(tokens, at))
        }
    }
}

#[tactic(auto, unfolding(crate::specs::Grammar::header_end))]
fn header_end(
    tokens: &Tokens<'_>,
    version: &Option<String>,
    at: usize,
) -> Result<(Token, usize), TextError>
    ensures gives { AnswersRead (λ x. (lexeme tokens.now.text.now x.0, tokens_from tokens.now x.1)) result
        ((header_end (text_end tokens.now) (version_view version.now)).read (tokens_from tokens.now at)) }
    ensures shorter { IfOk result (λ x. count_from tokens.now x.1 < count_from tokens.now at) }
{
    let semicolon = TokenKind::Punctuation(Punctuation::Semicolon);
    match tokens.next(at) {
        Some((first, rest)) if same(first.kind, semicolon) => Ok((first, rest)),
        _ => Err(header_fault(tokens, version, at)),
    }
}

#[tactic(auto, unfolding(crate::specs::Grammar::package_word))]
fn package_word(tokens: &Tokens<'_>, at: usize) -> Result<(Token, usize), TextError>
    ensures gives { AnswersRead (λ x. (lexeme tokens.now.text.now x.0, tokens_from tokens.now x.1)) result
        ((package_word (text_end tokens.now)).read (tokens_from tokens.now at)) }
    ensures shorter { IfOk result (λ x. count_from tokens.now x.1 < count_from tokens.now at) }
{
    let package = TokenKind::Keyword(Keyword::Package);
    match tokens.next(at) {
        Some((first, rest)) if same(first.kind, package) => Ok((first, rest)),
        _ => Err(first_fault(tokens, at)),
    }
}

/// `package`, its name, its version if it has one, and `;`.
#[tactic(auto, unfolding(crate::specs::Grammar::header))]
pub fn header(
    alloc: Global,
    tokens: &Tokens<'_>,
    at: usize,
) -> Result<(PackageId, usize), TextError>
    ensures gives { AnswersRead (λ x. (header_view x.0, tokens_from tokens.now x.1)) result
        ((header (text_end tokens.now)).read (tokens_from tokens.now at)) }
    ensures shorter { IfOk result (λ x. count_from tokens.now x.1 < count_from tokens.now at) }
{
    let (_, at) = package_word(tokens, at)?;
    let (namespace, at) = lower_identifier(alloc, tokens, at)?;
    let (_, at) = punctuation(tokens, at, Punctuation::Colon)?;
    let (name, at) = lower_identifier(alloc, tokens, at)?;
    let (version, at) = version(alloc, tokens, at)?;
    let (_, at) = header_end(tokens, &version, at)?;
    let id = PackageId {
        namespace,
        name,
        version,
    };
    Ok((id, at))
}
