//! Types.
ghost use Rattle.std.specs.Prelude.{◌≡◌, ◌∷◌, [], ◌++◌, map, OnOk};
ghost use Rattle.wit_tokens.specs.Syntax.{tys_of};
ghost use Rattle.wit_tokens.specs.View.{ty_view, inner_view, maybe_view};
ghost use Rattle.wit_tokens.specs.declared.token.Punctuation.TheVariants as mark;
ghost use Rattle.wit_print.specs.Words.{mark_word};
ghost use Rattle.wit_print.specs.Canonical.{primitive_keyword, ty_words, tys_words};
ghost use Rattle.wit_print.specs.Pieces.{ok_alone, part_words};
ghost use Rattle.wit_print.specs.Adding.{AddsWords};

use crate::list::write_comma;
use crate::word::{write_keyword, write_mark, write_name};
use std::alloc::AllocError;
use wit_tokens::wit_syntax::{InnerType, Primitive, ResultType, TypeExpression};
use wit_tokens::{Keyword, Punctuation};

fn primitive_keyword(primitive: Primitive) -> Keyword
    ensures { result ≡ primitive_keyword primitive }
{
    match primitive {
        Primitive::Bool => Keyword::Bool,
        Primitive::Char => Keyword::Char,
        Primitive::String => Keyword::String,
        Primitive::S8 => Keyword::S8,
        Primitive::S16 => Keyword::S16,
        Primitive::S32 => Keyword::S32,
        Primitive::S64 => Keyword::S64,
        Primitive::U8 => Keyword::U8,
        Primitive::U16 => Keyword::U16,
        Primitive::U32 => Keyword::U32,
        Primitive::U64 => Keyword::U64,
    }
}

/// Puts a type behind the text.
#[cycle(ty)]
pub(crate) fn write_type(
    out: &mut String,
    space: &str,
    ty: &TypeExpression,
) -> Result<(), AllocError>
    ensures { OnOk result (AddsWords (ty_words space.now (ty_view ty.now)) out.old out.new) }
{
    match ty {
        TypeExpression::Primitive(primitive) => write_keyword(
            out,
            space,
            primitive_keyword(*primitive),
        ),
        TypeExpression::Named(name) => write_name(out, space, name),
        TypeExpression::List(element) => {
            write_keyword(out, space, Keyword::List)?;
            write_inner(out, element)
        }
        TypeExpression::Option(some) => {
            write_keyword(out, space, Keyword::Option)?;
            write_inner(out, some)
        }
        TypeExpression::Tuple(members) => {
            write_keyword(out, space, Keyword::Tuple)?;
            write_mark(out, "", Punctuation::Less)?;
            write_members(out, members)
        }
        TypeExpression::Result { ok, error } => {
            write_keyword(out, space, Keyword::Result)?;
            match error {
                ResultType::Absent => write_ok_alone(out, ok),
                ResultType::Simple(_) | ResultType::Other(_) => {
                    write_part(out, "", Punctuation::Less, ok)?;
                    write_part(out, " ", Punctuation::Comma, error)?;
                    write_mark(out, "", Punctuation::Greater)
                }
            }
        }
    }
}

/// Puts a type within another one behind the text.
#[cycle(ty)]
fn write_within(out: &mut String, space: &str, ty: &InnerType) -> Result<(), AllocError>
    ensures { OnOk result (AddsWords (ty_words space.now (inner_view ty.now)) out.old out.new) }
{
    match ty {
        InnerType::Plain(primitive) => write_keyword(out, space, primitive_keyword(*primitive)),
        InnerType::Boxed(ty) => write_type(out, space, ty),
    }
}

/// Puts the type that a list or an option is made of behind the text, in `<` and `>`.
#[cycle(ty)]
fn write_inner(out: &mut String, ty: &InnerType) -> Result<(), AllocError>
    ensures { OnOk result (AddsWords (mark_word [] mark.Less
        ∷ (ty_words [] (inner_view ty.now) ++ mark_word [] mark.Greater ∷ [])) out.old out.new) }
{
    write_mark(out, "", Punctuation::Less)?;
    write_within(out, "", ty)?;
    write_mark(out, "", Punctuation::Greater)
}

/// Puts the types of a tuple behind the text, and the `>`.
#[cycle(ty)]
fn write_members(out: &mut String, members: &Vec<TypeExpression>) -> Result<(), AllocError>
    ensures { OnOk result (AddsWords (tys_words [] (tys_of (map ty_view members.now.items))) out.old out.new) }
{
    for (index, member) in members.iter().enumerate() {
        let space = write_comma(out, index)?;
        write_type(out, space, member)?;
    }
    write_mark(out, "", Punctuation::Greater)
}

/// Puts a type of a result behind the text, behind this mark, and `_` where it is absent.
#[cycle(ty)]
fn write_part(
    out: &mut String,
    space: &str,
    mark: Punctuation,
    ty: &ResultType,
) -> Result<(), AllocError>
    ensures { OnOk result (AddsWords (mark_word [] mark ∷ part_words space.now (maybe_view ty.now)) out.old out.new) }
{
    write_mark(out, "", mark)?;
    match ty {
        ResultType::Absent => write_mark(out, "", Punctuation::Underscore),
        ResultType::Simple(primitive) => write_keyword(out, space, primitive_keyword(*primitive)),
        ResultType::Other(ty) => write_type(out, space, ty),
    }
}

/// Puts what a result has in `<` and `>` behind the text, where it has no type of an error.
#[cycle(ty)]
fn write_ok_alone(out: &mut String, ok: &ResultType) -> Result<(), AllocError>
    ensures { OnOk result (AddsWords (ok_alone (maybe_view ok.now)) out.old out.new) }
{
    match ok {
        ResultType::Absent => Ok(()),
        ResultType::Simple(_) | ResultType::Other(_) => {
            write_part(out, "", Punctuation::Less, ok)?;
            write_mark(out, "", Punctuation::Greater)
        }
    }
}
