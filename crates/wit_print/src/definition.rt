//! Definitions of types.
ghost use Rattle.std.specs.Prelude.{◌≡◌, ◌∷◌, [], ◌++◌, map, OnOk};
ghost use Rattle.wit_tokens.specs.Syntax.{Alias};
ghost use Rattle.wit_tokens.specs.View.{ty_view, field_view, case_view, optional_view, definition_view};
ghost use Rattle.wit_tokens.specs.declared.token.Punctuation.TheVariants as mark;
ghost use Rattle.wit_print.specs.Words.{mark_word, keyword_word, name_word};
ghost use Rattle.wit_print.specs.Canonical.{blank, item_line, payload_words, case_words, field_words, label_words};
ghost use Rattle.wit_print.specs.Canonical.{lined_words, definition_words};
ghost use Rattle.wit_print.specs.Adding.{AddsWords};

use crate::function::write_member;
use crate::ty::write_type;
use crate::word::{write_keyword, write_mark, write_name};
use atoms::Label;
use std::alloc::AllocError;
use wit_tokens::wit_syntax::{Case, Field, TypeDefKind, TypeExpression};
use wit_tokens::{Keyword, Punctuation};

/// The blanks before a member of a definition.
const MEMBER_LINE: &str = "\n    ";

/// The blanks before an item of an interface or a world.
pub(crate) const ITEM_LINE: &str = "\n  ";

fn write_payload(out: &mut String, ty: &Option<TypeExpression>) -> Result<(), AllocError>
    ensures { OnOk result (AddsWords (payload_words (optional_view ty.now)) out.old out.new) }
{
    let Some(ty) = ty else {
        return Ok(());
    };
    write_mark(out, "", Punctuation::OpenParenthesis)?;
    write_type(out, "", ty)?;
    write_mark(out, "", Punctuation::CloseParenthesis)
}

fn write_case(out: &mut String, case: &Case) -> Result<(), AllocError>
    ensures { OnOk result (AddsWords (case_words (case_view case.now)) out.old out.new) }
{
    write_name(out, MEMBER_LINE, &case.name)?;
    write_payload(out, &case.payload)
}

/// Puts fields behind the text, each on a line of its own that a comma ends, and the `}`.
fn write_fields(out: &mut String, fields: &[Field]) -> Result<(), AllocError>
    ensures { OnOk result (AddsWords (lined_words field_words (map field_view fields.now)) out.old out.new) }
{
    for field in fields {
        write_member(out, MEMBER_LINE, field)?;
        write_mark(out, "", Punctuation::Comma)?;
    }
    write_mark(out, ITEM_LINE, Punctuation::CloseBrace)
}

/// The same of cases.
fn write_cases(out: &mut String, cases: &[Case]) -> Result<(), AllocError>
    ensures { OnOk result (AddsWords (lined_words case_words (map case_view cases.now)) out.old out.new) }
{
    for case in cases {
        write_case(out, case)?;
        write_mark(out, "", Punctuation::Comma)?;
    }
    write_mark(out, ITEM_LINE, Punctuation::CloseBrace)
}

/// The same of labels.
fn write_labels(out: &mut String, labels: &[Label]) -> Result<(), AllocError>
    ensures { OnOk result (AddsWords (lined_words label_words labels.now) out.old out.new) }
{
    for label in labels {
        write_name(out, MEMBER_LINE, label)?;
        write_mark(out, "", Punctuation::Comma)?;
    }
    write_mark(out, ITEM_LINE, Punctuation::CloseBrace)
}

/// Puts the head of a definition with braces behind the text.
fn write_head(out: &mut String, keyword: Keyword, name: &Label) -> Result<(), AllocError>
    ensures { OnOk result (AddsWords (keyword_word item_line keyword ∷ name_word blank name.now
        ∷ mark_word blank mark.OpenBrace ∷ []) out.old out.new) }
{
    write_keyword(out, ITEM_LINE, keyword)?;
    write_name(out, " ", name)?;
    write_mark(out, " ", Punctuation::OpenBrace)
}

fn write_alias(out: &mut String, name: &Label, ty: &TypeExpression) -> Result<(), AllocError>
    ensures { OnOk result (AddsWords (definition_words name.now (Alias (ty_view ty.now))) out.old out.new) }
{
    write_keyword(out, ITEM_LINE, Keyword::Type)?;
    write_name(out, " ", name)?;
    write_mark(out, " ", Punctuation::Equals)?;
    write_type(out, " ", ty)?;
    write_mark(out, "", Punctuation::Semicolon)
}

/// Puts the definition of a type behind the text.
pub(crate) fn write_definition(
    out: &mut String,
    name: &Label,
    kind: &TypeDefKind,
) -> Result<(), AllocError>
    ensures { OnOk result (AddsWords (definition_words name.now (definition_view kind.now)) out.old out.new) }
{
    match kind {
        TypeDefKind::Alias(ty) => write_alias(out, name, ty),
        TypeDefKind::Record(fields) => {
            write_head(out, Keyword::Record, name)?;
            write_fields(out, fields.as_slice())
        }
        TypeDefKind::Variant(cases) => {
            write_head(out, Keyword::Variant, name)?;
            write_cases(out, cases.as_slice())
        }
        TypeDefKind::Enum(labels) => {
            write_head(out, Keyword::Enum, name)?;
            write_labels(out, labels.as_slice())
        }
        TypeDefKind::Flags(labels) => {
            write_head(out, Keyword::Flags, name)?;
            write_labels(out, labels.as_slice())
        }
    }
}
