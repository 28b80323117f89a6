//! Paths: the interfaces that uses and items of worlds name.
ghost use Rattle.std.specs.Prelude.{◌≡◌, ◌<◌, ◌≤◌, IfOk};
ghost use Rattle.wit_tokens.specs.Tokens.{lexeme};
ghost use Rattle.wit_tokens.specs.View.{path_view};
ghost use Rattle.wit_grammar.specs.Faults.{AnswersRead};
ghost use Rattle.wit_grammar.specs.Left.{tokens_from, count_from, text_end};
ghost use Rattle.wit_grammar.specs.Grammar.{foreign, behind_namespace, path, path_fault, path_end};

use crate::file_head::{version, version_or};
use crate::parser::{identifier, met, punctuation, same};
use crate::tokens::Tokens;
use atoms::Label;
use std::alloc::Global;
use wit_tokens::wit_syntax::{PackageId, Path};
use wit_tokens::{Expected, Punctuation, TextError, Token, TokenKind};

/// Another package's interface, behind the names of its package.
#[tactic(auto, unfolding(crate::specs::Grammar::foreign))]
pub fn foreign(
    alloc: Global,
    tokens: &Tokens<'_>,
    namespace: Label,
    name: Label,
    at: usize,
) -> Result<(Path, usize), TextError>
    ensures gives { AnswersRead (λ x. (path_view x.0, tokens_from tokens.now x.1)) result
        ((foreign (text_end tokens.now) namespace name).read (tokens_from tokens.now at)) }
    ensures shorter { IfOk result (λ x. count_from tokens.now x.1 < count_from tokens.now at) }
{
    let (_, at) = punctuation(tokens, at, Punctuation::Slash)?;
    let (interface, at) = identifier(alloc, tokens, at)?;
    let (version, at) = version(alloc, tokens, at)?;
    let package = PackageId {
        namespace,
        name,
        version,
    };
    Ok((Path::Foreign { package, interface }, at))
}

/// The same behind the `:` of its package's name.
#[tactic(auto, unfolding(crate::specs::Grammar::behind_namespace))]
fn behind_namespace(
    alloc: Global,
    tokens: &Tokens<'_>,
    namespace: Label,
    at: usize,
) -> Result<(Path, usize), TextError>
    ensures gives { AnswersRead (λ x. (path_view x.0, tokens_from tokens.now x.1)) result
        ((behind_namespace (text_end tokens.now) namespace).read (tokens_from tokens.now at)) }
    ensures shorter { IfOk result (λ x. count_from tokens.now x.1 < count_from tokens.now at) }
{
    let (name, at) = identifier(alloc, tokens, at)?;
    foreign(alloc, tokens, namespace, name, at)
}

/// A path behind its first name.
#[tactic(auto, unfolding(crate::specs::Grammar::path))]
pub fn path(
    alloc: Global,
    tokens: &Tokens<'_>,
    first: Label,
    at: usize,
) -> Result<(Path, usize), TextError>
    ensures gives { AnswersRead (λ x. (path_view x.0, tokens_from tokens.now x.1)) result
        ((path (text_end tokens.now) first).read (tokens_from tokens.now at)) }
    ensures shorter { IfOk result (λ x. count_from tokens.now x.1 ≤ count_from tokens.now at) }
{
    let colon = TokenKind::Punctuation(Punctuation::Colon);
    match tokens.next(at) {
        Some((mark, rest)) if same(mark.kind, colon) => {
            behind_namespace(alloc, tokens, first, rest)
        }
        _ => Ok((Path::Local(first), at)),
    }
}

/// What is answered where this mark doesn't stand behind a path.
#[tactic(auto, unfolding(crate::specs::Grammar::path_fault))]
fn path_fault(tokens: &Tokens<'_>, path: &Path, mark: Punctuation, at: usize) -> TextError
    ensures { result ≡ path_fault (text_end tokens.now) (path_view path.now) mark (tokens_from tokens.now at) }
{
    match path {
        Path::Local(_) => {
            let colon = Expected::Punctuation(Punctuation::Colon);
            TextError::Expected(colon, met(tokens, at))
        }
        Path::Foreign { package, .. } => match tokens.next(at) {
            Some((first, _)) => {
                TextError::Expected(
                    version_or(tokens, &package.version, mark, first),
                    first.span(),
                )
            }
            None => TextError::Expected(Expected::Punctuation(mark), met(tokens, at)),
        },
    }
}

/// The mark behind a path.
#[tactic(auto, unfolding(crate::specs::Grammar::path_end))]
pub fn path_end(
    tokens: &Tokens<'_>,
    path: &Path,
    mark: Punctuation,
    at: usize,
) -> Result<(Token, usize), TextError>
    ensures gives { AnswersRead (λ x. (lexeme tokens.now.text.now x.0, tokens_from tokens.now x.1)) result
        ((path_end (text_end tokens.now) (path_view path.now) mark).read (tokens_from tokens.now at)) }
    ensures shorter { IfOk result (λ x. count_from tokens.now x.1 < count_from tokens.now at) }
{
    match tokens.next(at) {
        Some((first, rest)) if same(first.kind, TokenKind::Punctuation(mark)) => Ok((first, rest)),
        _ => Err(path_fault(tokens, path, mark, at)),
    }
}
