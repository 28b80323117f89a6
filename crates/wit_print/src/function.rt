//! Functions.
ghost use Rattle.std.specs.Prelude.{◌≡◌, [], ◌++◌, map, OnOk};
ghost use Rattle.wit_tokens.specs.View.{field_view, function_view, optional_view};
ghost use Rattle.wit_print.specs.Canonical.{member_words, parameter_words, result_words, function_words};
ghost use Rattle.wit_print.specs.Adding.{AddsWords};

use crate::list::write_comma;
use crate::ty::write_type;
use crate::word::{write_keyword, write_mark, write_name};
use std::alloc::AllocError;
use wit_tokens::wit_syntax::{Field, FuncType, TypeExpression};
use wit_tokens::{Keyword, Punctuation};

/// Puts a name with its type behind the text.
pub(crate) fn write_member(out: &mut String, space: &str, member: &Field) -> Result<(), AllocError>
    ensures { OnOk result (AddsWords (member_words space.now (field_view member.now)) out.old out.new) }
{
    write_name(out, space, &member.name)?;
    write_mark(out, "", Punctuation::Colon)?;
    write_type(out, " ", &member.ty)
}

/// Puts parameters behind the text, and the `)`.
fn write_parameters(out: &mut String, params: &[Field]) -> Result<(), AllocError>
    ensures { OnOk result (AddsWords (parameter_words [] (map field_view params.now)) out.old out.new) }
{
    for (index, param) in params.iter().enumerate() {
        let space = write_comma(out, index)?;
        write_member(out, space, param)?;
    }
    write_mark(out, "", Punctuation::CloseParenthesis)
}

fn write_outcome(out: &mut String, ty: &Option<TypeExpression>) -> Result<(), AllocError>
    ensures { OnOk result (AddsWords (result_words (optional_view ty.now)) out.old out.new) }
{
    let Some(ty) = ty else {
        return Ok(());
    };
    write_mark(out, " ", Punctuation::Arrow)?;
    write_type(out, " ", ty)
}

/// Puts what stands behind a function's name behind the text.
pub(crate) fn write_function(out: &mut String, function: &FuncType) -> Result<(), AllocError>
    ensures { OnOk result (AddsWords (function_words (function_view function.now)) out.old out.new) }
{
    write_mark(out, "", Punctuation::Colon)?;
    write_keyword(out, " ", Keyword::Func)?;
    write_mark(out, "", Punctuation::OpenParenthesis)?;
    write_parameters(out, function.params.as_slice())?;
    write_outcome(out, &function.result)?;
    write_mark(out, "", Punctuation::Semicolon)
}
