//! Uses of other interfaces' types.
ghost use Rattle.std.specs.Prelude.{◌<◌, ◌≤◌, IfOk};
ghost use Rattle.wit_tokens.specs.View.{used_view, entry_view};
ghost use Rattle.wit_grammar.specs.Faults.{AnswersRead};
ghost use Rattle.wit_grammar.specs.Left.{tokens_from, count_from, text_end};
ghost use Rattle.wit_grammar.specs.Grammar.{local_alias, used, use_item};

use atoms::Label;
use std::alloc::Global;
use wit_grammar::{EntryReader, Tokens, comma_list, identifier, path, path_end, punctuation, same};
use wit_tokens::wit_syntax::{InterfaceItem, Use, UsedName};
use wit_tokens::{Expected, Keyword, Punctuation, Span, TextError, TokenKind};

/// `as` and a name, or nothing.
#[tactic(auto, unfolding(wit_grammar::specs::Grammar::local_alias))]
fn local_name(
    alloc: Global,
    tokens: &Tokens<'_>,
    at: usize,
) -> Result<(Option<Label>, usize), TextError>
    ensures gives { AnswersRead (λ x. (x.0, tokens_from tokens.now x.1)) result
        ((local_alias (text_end tokens.now)).read (tokens_from tokens.now at)) }
    ensures shorter { IfOk result (λ x. count_from tokens.now x.1 ≤ count_from tokens.now at) }
{
    let word = TokenKind::Keyword(Keyword::As);
    match tokens.next(at) {
        Some((first, rest)) if same(first.kind, word) => {
            let (name, at) = identifier(alloc, tokens, rest)?;
            Ok((Some(name), at))
        }
        _ => Ok((None, at)),
    }
}

/// A used name, and its local name if it has one.
#[tactic(auto, unfolding(wit_grammar::specs::Grammar::used))]
fn used(alloc: Global, tokens: &Tokens<'_>, at: usize) -> Result<(UsedName, usize), TextError>
    ensures gives { AnswersRead (λ x. (used_view x.0, tokens_from tokens.now x.1)) result
        ((used (text_end tokens.now)).read (tokens_from tokens.now at)) }
    ensures shorter { IfOk result (λ x. count_from tokens.now x.1 < count_from tokens.now at) }
{
    let (name, at) = identifier(alloc, tokens, at)?;
    let (local, at) = local_name(alloc, tokens, at)?;
    Ok((UsedName { name, local }, at))
}

/// Used names.
struct UsedNames;

impl EntryReader for UsedNames {
    ghost use Rattle.wit_tokens.specs.Syntax.{UsedAs};
    ghost use Rattle.wit_tokens.specs.View.{used_view};
    ghost use Rattle.wit_grammar.specs.Grammar.{used, after_used};

    type Entry = UsedName;

    ghost Meaning = { UsedAs };

    ghost meaning = { used_view };

    ghost production = { λ _ end. used end };

    ghost wanted_behind = { after_used };

    fn read(
        &self,
        alloc: Global,
        tokens: &Tokens<'_>,
        at: usize,
    ) -> Result<(UsedName, usize), TextError> {
        used(alloc, tokens, at)
    }

    fn wanted_behind(&self, name: &UsedName) -> Expected {
        if name.local.is_some() {
            Expected::Punctuation(Punctuation::Comma)
        } else {
            Expected::Keyword(Keyword::As)
        }
    }
}

/// Behind `use`, which stands at `span`.
#[tactic(auto, unfolding(wit_grammar::specs::Grammar::use_item))]
pub fn use_item(
    alloc: Global,
    tokens: &Tokens<'_>,
    span: Span,
    at: usize,
) -> Result<(InterfaceItem, usize), TextError>
    ensures gives { AnswersRead (λ x. (entry_view x.0, tokens_from tokens.now x.1)) result
        ((use_item (text_end tokens.now) span).read (tokens_from tokens.now at)) }
    ensures shorter { IfOk result (λ x. count_from tokens.now x.1 < count_from tokens.now at) }
{
    let (first, at) = identifier(alloc, tokens, at)?;
    let (interface, at) = path(alloc, tokens, first, at)?;
    let (_, at) = path_end(tokens, &interface, Punctuation::Dot, at)?;
    let (_, at) = punctuation(tokens, at, Punctuation::OpenBrace)?;
    let (mut names, at) = comma_list(&UsedNames, alloc, tokens, at)?;
    names.shrink_to_fit();
    let (_, at) = punctuation(tokens, at, Punctuation::Semicolon)?;
    let item = Use {
        span,
        interface,
        names,
    };
    Ok((InterfaceItem::Use(Box::new(alloc, item)?), at))
}
