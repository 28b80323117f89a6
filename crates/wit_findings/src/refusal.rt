//! The error of an opening as a finding.
ghost use Rattle.std.specs.Prelude.{◌≡◌, IfOk};
ghost use Rattle.wit_findings.specs.Refusals.{IsRefusal, number_of, start_of, end_of};

use crate::finding::Finding;
use std::alloc::{AllocError, Global};
use wit_tokens::{Span, TextError};

/// The bytes that a text may have.
const LIMIT: usize = 1_048_576;

/// The number of an error.
fn number_of(error: &TextError) -> u8
    ensures { result ≡ number_of error.now }
{
    match error {
        TextError::BadChar(_) => 30,
        TextError::OpenComment(_) => 31,
        TextError::Expected(_, _) => 32,
        TextError::Unsupported(_, _) => 33,
        TextError::Depth(_) => 34,
        TextError::NoMemory => 35,
        TextError::Limit => 36,
    }
}

/// Where an error is.
fn span_of(error: &TextError) -> Span
    ensures start { result.start ≡ start_of error.now }
    ensures end { result.end ≡ end_of error.now }
{
    match error {
        TextError::BadChar(span) => *span,
        TextError::OpenComment(span) => *span,
        TextError::Expected(_, span) => *span,
        TextError::Unsupported(_, span) => *span,
        TextError::Depth(span) => *span,
        _ => Span {
            start: LIMIT,
            end: LIMIT,
        },
    }
}

/// What an error says.
fn words_of(alloc: Global, error: &TextError) -> Result<String, AllocError> {
    match error {
        TextError::BadChar(_) => String::from_str(alloc, "bad character"),
        TextError::OpenComment(_) => String::from_str(alloc, "open comment"),
        TextError::Expected(wanted, _) => format!(in alloc; "expected {wanted}"),
        TextError::Unsupported(feature, _) => format!(in alloc; "unsupported {feature}"),
        TextError::Depth(_) => String::from_str(alloc, "depth"),
        TextError::NoMemory => Err(AllocError),
        TextError::Limit => String::from_str(alloc, "limit"),
    }
}

/// The error with which an opening refused a text, as `judged` takes it: with its number and its place, without a hint.
/// It fails with out of memory, also if this is the error.
pub fn refusal_of(alloc: Global, error: &TextError) -> Result<Finding, AllocError>
    ensures { IfOk result (λ f. IsRefusal error.now f) }
{
    let headline = words_of(alloc, error)?;
    let (number, span) = (number_of(error), span_of(error));
    Ok(Finding {
        number,
        start: span.start,
        end: span.end,
        headline,
        hint: String::new(alloc),
        related: None,
        edit: None,
    })
}
