//! Definitions of types.
ghost use Rattle.std.specs.Prelude.{◌≡◌, ◌<◌, ◌≤◌, IfOk};
ghost use Rattle.wit_tokens.specs.View.{ty_view, optional_view, case_view, definition_view};
ghost use Rattle.wit_grammar.specs.Faults.{AnswersRead};
ghost use Rattle.wit_grammar.specs.Left.{tokens_from, count_from, text_end};
ghost use Rattle.wit_grammar.specs.Grammar.{nesting, alias, record_body, payload, optional_payload, case_fault};
ghost use Rattle.wit_grammar.specs.Grammar.{case_id, variant_case, variant_body, enum_cases, flag_names};

use crate::functions::{NESTING, field};
use atoms::Label;
use std::alloc::Global;
use wit_grammar::{
    EntryReader, Tokens, comma_list, feature_or, first_feature, identifier, is_name, label_of,
    punctuation, same, type_at,
};
use wit_tokens::wit_syntax::{Case, Field, TypeDefKind, TypeExpression};
use wit_tokens::{Expected, Punctuation, TextError, TokenKind};

/// `=`, a type and `;`.
#[tactic(auto, unfolding(wit_grammar::specs::Grammar::alias))]
pub fn alias(
    alloc: Global,
    tokens: &Tokens<'_>,
    at: usize,
) -> Result<(TypeDefKind, usize), TextError>
    ensures gives { AnswersRead (λ x. (definition_view x.0, tokens_from tokens.now x.1)) result
        ((alias (text_end tokens.now) nesting).read (tokens_from tokens.now at)) }
    ensures shorter { IfOk result (λ x. count_from tokens.now x.1 < count_from tokens.now at) }
{
    let (_, at) = punctuation(tokens, at, Punctuation::Equals)?;
    let (ty, at) = type_at(alloc, tokens, NESTING, at)?;
    let (_, at) = punctuation(tokens, at, Punctuation::Semicolon)?;
    Ok((TypeDefKind::Alias(ty), at))
}

/// The fields of a record.
struct Fields;

impl EntryReader for Fields {
    ghost use Rattle.wit_tokens.specs.declared.error.Expected.TheVariants as want;
    ghost use Rattle.wit_tokens.specs.declared.token.Punctuation.TheVariants.{Comma};
    ghost use Rattle.wit_tokens.specs.Syntax.{Member};
    ghost use Rattle.wit_tokens.specs.View.{field_view};
    ghost use Rattle.wit_grammar.specs.Grammar.{nesting, member};

    type Entry = Field;

    ghost Meaning = { Member };

    ghost meaning = { field_view };

    ghost production = { λ _ end. member end nesting };

    ghost wanted_behind = { λ _. want.Punctuation Comma };

    fn read(
        &self,
        alloc: Global,
        tokens: &Tokens<'_>,
        at: usize,
    ) -> Result<(Field, usize), TextError> {
        field(alloc, tokens, at)
    }

    fn wanted_behind(&self, _field: &Field) -> Expected {
        Expected::Punctuation(Punctuation::Comma)
    }
}

/// The fields of a record in their braces.
#[tactic(auto, unfolding(wit_grammar::specs::Grammar::record_body))]
pub fn record_fields(
    alloc: Global,
    tokens: &Tokens<'_>,
    at: usize,
) -> Result<(TypeDefKind, usize), TextError>
    ensures gives { AnswersRead (λ x. (definition_view x.0, tokens_from tokens.now x.1)) result
        ((record_body (text_end tokens.now) nesting).read (tokens_from tokens.now at)) }
    ensures shorter { IfOk result (λ x. count_from tokens.now x.1 < count_from tokens.now at) }
{
    let (_, at) = punctuation(tokens, at, Punctuation::OpenBrace)?;
    let (fields, at) = comma_list(&Fields, alloc, tokens, at)?;
    Ok((TypeDefKind::Record(fields), at))
}

/// A type behind `(`, with the `)`.
#[tactic(auto, unfolding(wit_grammar::specs::Grammar::payload))]
fn payload(
    alloc: Global,
    tokens: &Tokens<'_>,
    at: usize,
) -> Result<(TypeExpression, usize), TextError>
    ensures gives { AnswersRead (λ x. (ty_view x.0, tokens_from tokens.now x.1)) result
        ((payload (text_end tokens.now) nesting).read (tokens_from tokens.now at)) }
    ensures shorter { IfOk result (λ x. count_from tokens.now x.1 < count_from tokens.now at) }
{
    let (ty, at) = type_at(alloc, tokens, NESTING, at)?;
    let (_, at) = punctuation(tokens, at, Punctuation::CloseParenthesis)?;
    Ok((ty, at))
}

/// A type in parentheses, or nothing.
#[tactic(auto, unfolding(wit_grammar::specs::Grammar::optional_payload))]
fn optional_payload(
    alloc: Global,
    tokens: &Tokens<'_>,
    at: usize,
) -> Result<(Option<TypeExpression>, usize), TextError>
    ensures gives { AnswersRead (λ x. (optional_view x.0, tokens_from tokens.now x.1)) result
        ((optional_payload (text_end tokens.now) nesting).read (tokens_from tokens.now at)) }
    ensures shorter { IfOk result (λ x. count_from tokens.now x.1 ≤ count_from tokens.now at) }
{
    let open = TokenKind::Punctuation(Punctuation::OpenParenthesis);
    match tokens.next(at) {
        Some((first, rest)) if same(first.kind, open) => {
            let (ty, at) = payload(alloc, tokens, rest)?;
            Ok((Some(ty), at))
        }
        _ => Ok((None, at)),
    }
}

/// What is answered where no case begins.
#[tactic(auto, unfolding(wit_grammar::specs::Grammar::case_fault))]
fn case_fault(tokens: &Tokens<'_>, at: usize) -> TextError
    ensures { result ≡ case_fault (text_end tokens.now) (tokens_from tokens.now at) }
{
    let feature = match tokens.next(at) {
        Some((first, _)) => first_feature(first.kind),
        None => None,
    };
    feature_or(tokens, at, feature, Expected::Identifier)
}

/// A case's name.
#[tactic(auto, unfolding(wit_grammar::specs::Grammar::case_id))]
fn case_id(alloc: Global, tokens: &Tokens<'_>, at: usize) -> Result<(Label, usize), TextError>
    ensures gives { AnswersRead (λ x. (x.0, tokens_from tokens.now x.1)) result
        ((case_id (text_end tokens.now)).read (tokens_from tokens.now at)) }
    ensures shorter { IfOk result (λ x. count_from tokens.now x.1 < count_from tokens.now at) }
{
    match tokens.next(at) {
        Some((first, rest)) if is_name(tokens, first) => {
            Ok((label_of(alloc, tokens, first)?, rest))
        }
        _ => Err(case_fault(tokens, at)),
    }
}

/// A case of a variant.
#[tactic(auto, unfolding(wit_grammar::specs::Grammar::variant_case))]
fn variant_case(alloc: Global, tokens: &Tokens<'_>, at: usize) -> Result<(Case, usize), TextError>
    ensures gives { AnswersRead (λ x. (case_view x.0, tokens_from tokens.now x.1)) result
        ((variant_case (text_end tokens.now) nesting).read (tokens_from tokens.now at)) }
    ensures shorter { IfOk result (λ x. count_from tokens.now x.1 < count_from tokens.now at) }
{
    let (name, at) = case_id(alloc, tokens, at)?;
    let (payload, at) = optional_payload(alloc, tokens, at)?;
    Ok((Case { name, payload }, at))
}

/// The cases of a variant.
struct Cases;

impl EntryReader for Cases {
    ghost use Rattle.wit_tokens.specs.declared.error.Expected.TheVariants as want;
    ghost use Rattle.wit_tokens.specs.declared.token.Punctuation.TheVariants.{Comma};
    ghost use Rattle.wit_tokens.specs.Syntax.{CaseOf};
    ghost use Rattle.wit_tokens.specs.View.{case_view};
    ghost use Rattle.wit_grammar.specs.Grammar.{nesting, variant_case};

    type Entry = Case;

    ghost Meaning = { CaseOf };

    ghost meaning = { case_view };

    ghost production = { λ _ end. variant_case end nesting };

    ghost wanted_behind = { λ _. want.Punctuation Comma };

    fn read(
        &self,
        alloc: Global,
        tokens: &Tokens<'_>,
        at: usize,
    ) -> Result<(Case, usize), TextError> {
        variant_case(alloc, tokens, at)
    }

    fn wanted_behind(&self, _case: &Case) -> Expected {
        Expected::Punctuation(Punctuation::Comma)
    }
}

/// The cases of a variant in their braces.
#[tactic(auto, unfolding(wit_grammar::specs::Grammar::variant_body))]
pub fn variant_cases(
    alloc: Global,
    tokens: &Tokens<'_>,
    at: usize,
) -> Result<(TypeDefKind, usize), TextError>
    ensures gives { AnswersRead (λ x. (definition_view x.0, tokens_from tokens.now x.1)) result
        ((variant_body (text_end tokens.now) nesting).read (tokens_from tokens.now at)) }
    ensures shorter { IfOk result (λ x. count_from tokens.now x.1 < count_from tokens.now at) }
{
    let (_, at) = punctuation(tokens, at, Punctuation::OpenBrace)?;
    let (cases, at) = comma_list(&Cases, alloc, tokens, at)?;
    Ok((TypeDefKind::Variant(cases), at))
}

/// The names of an enum's cases, where `@` may gate one, or of flags.
struct Names {
    gated: bool,
}

impl EntryReader for Names {
    ghost use Rattle.std.specs.Prelude.{ℕ, List};
    ghost use Rattle.wit_tokens.specs.declared.error.Expected.TheVariants as want;
    ghost use Rattle.wit_tokens.specs.declared.token.Punctuation.TheVariants.{Comma};
    ghost use Rattle.wit_grammar.specs.Grammar.{name_of_case};

    type Entry = Label;

    ghost Meaning = { List ℕ };

    ghost meaning = { λ name. name };

    ghost production = { λ names end. name_of_case end names.gated };

    ghost wanted_behind = { λ _. want.Punctuation Comma };

    #[tactic(auto, unfolding(wit_grammar::specs::Grammar::name_of_case))]
    fn read(
        &self,
        alloc: Global,
        tokens: &Tokens<'_>,
        at: usize,
    ) -> Result<(Label, usize), TextError> {
        if self.gated {
            case_id(alloc, tokens, at)
        } else {
            identifier(alloc, tokens, at)
        }
    }

    fn wanted_behind(&self, _name: &Label) -> Expected {
        Expected::Punctuation(Punctuation::Comma)
    }
}

/// The cases of an enum in their braces.
#[tactic(auto, using(crate::proofs::IdentityMaps::same_items), unfolding(wit_grammar::specs::Grammar::enum_cases))]
pub fn enum_cases(
    alloc: Global,
    tokens: &Tokens<'_>,
    at: usize,
) -> Result<(TypeDefKind, usize), TextError>
    ensures gives { AnswersRead (λ x. (definition_view x.0, tokens_from tokens.now x.1)) result
        ((enum_cases (text_end tokens.now)).read (tokens_from tokens.now at)) }
    ensures shorter { IfOk result (λ x. count_from tokens.now x.1 < count_from tokens.now at) }
{
    let (_, at) = punctuation(tokens, at, Punctuation::OpenBrace)?;
    let (names, at) = comma_list(&Names { gated: true }, alloc, tokens, at)?;
    Ok((TypeDefKind::Enum(names), at))
}

/// The names of flags in their braces.
#[tactic(auto, using(crate::proofs::IdentityMaps::same_items), unfolding(wit_grammar::specs::Grammar::flag_names))]
pub fn flag_names(
    alloc: Global,
    tokens: &Tokens<'_>,
    at: usize,
) -> Result<(TypeDefKind, usize), TextError>
    ensures gives { AnswersRead (λ x. (definition_view x.0, tokens_from tokens.now x.1)) result
        ((flag_names (text_end tokens.now)).read (tokens_from tokens.now at)) }
    ensures shorter { IfOk result (λ x. count_from tokens.now x.1 < count_from tokens.now at) }
{
    let (_, at) = punctuation(tokens, at, Punctuation::OpenBrace)?;
    let (names, at) = comma_list(&Names { gated: false }, alloc, tokens, at)?;
    Ok((TypeDefKind::Flags(names), at))
}
