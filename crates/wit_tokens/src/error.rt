//! Why a text is refused.
ghost use Rattle.std.specs.Prelude.{◌≡◌};
ghost use Rattle.wit_tokens.specs.declared.error.TextError.TheVariants.{NoMemory};

use crate::token::{Keyword, Punctuation, Span};
use std::alloc::{AllocError, AllocFailed};
use std::fmt;
use thiserror::Error;

/// What the grammar allows in place of the token that was met.
#[derive(Clone, Copy, Debug, PartialEq, Eq)]
pub enum Expected {
    Identifier,
    Keyword(Keyword),
    Punctuation(Punctuation),
    Version,
}

impl fmt::Display for Expected {
    fn fmt<W: fmt::Write>(&self, f: &mut fmt::Formatter<W>) -> fmt::Result {
        match self {
            Expected::Identifier => write!(f, "id"),
            Expected::Keyword(keyword) => write!(f, "{keyword}"),
            Expected::Punctuation(mark) => write!(f, "{mark}"),
            Expected::Version => write!(f, "version"),
        }
    }
}

/// What WIT has and is not read here.
#[derive(Clone, Copy, PartialEq, Eq)]
pub enum Feature {
    Float,
    Resource,
    Stream,
    Future,
    Map,
    ErrorContext,
    Async,
    Gate,
    TopLevelUse,
    NestedPackage,
    Include,
    WorldUse,
    WorldType,
    InlineInterface,
    FixedLengthList,
    NamedResults,
}

impl fmt::Display for Feature {
    fn fmt<W: fmt::Write>(&self, f: &mut fmt::Formatter<W>) -> fmt::Result {
        f.write_str(match self {
            Feature::Float => "float",
            Feature::Resource => "resource",
            Feature::Stream => "stream",
            Feature::Future => "future",
            Feature::Map => "map",
            Feature::ErrorContext => "error-context",
            Feature::Async => "async",
            Feature::Gate => "gate",
            Feature::TopLevelUse => "top-level-use",
            Feature::NestedPackage => "nested-package",
            Feature::Include => "include",
            Feature::WorldUse => "world-use",
            Feature::WorldType => "world-type",
            Feature::InlineInterface => "inline-interface",
            Feature::FixedLengthList => "fixed-length-list",
            Feature::NamedResults => "named-results",
        })
    }
}

impl fmt::Debug for Feature {
    fn fmt<W: fmt::Write>(&self, f: &mut fmt::Formatter<W>) -> fmt::Result {
        fmt::Display::fmt(self, f)
    }
}

/// The first fault of a text, with the place where it stands.
#[derive(Clone, Copy, Debug, PartialEq, Eq, Error)]
pub enum TextError {
    /// 30: a character that begins no token, or a word that is no label.
    #[error("error 30 bad character at {0}")]
    BadChar(Span),
    /// 31: a comment that nothing closes, to the end of the text.
    #[error("error 31 open comment at {0}")]
    OpenComment(Span),
    /// 32: the token met, or the end of the text, is not allowed there; the first that is.
    #[error("error 32 expected {0} at {1}")]
    Expected(Expected, Span),
    /// 33: the token met begins what is left out.
    #[error("error 33 unsupported {0} at {1}")]
    Unsupported(Feature, Span),
    /// 34: the token met begins a type nested too deep.
    #[error("error 34 depth at {0}")]
    Depth(Span),
    /// 35
    #[error("error 35 no memory")]
    NoMemory,
    /// 36: the text has more than 1,048,576 bytes.
    #[error("error 36 limit at 1048576..1048576")]
    Limit,
}

impl From<AllocError> for TextError {
    ghost from_gives = { λ _ e. e ≡ NoMemory };

    fn from(_e: AllocError) -> TextError {
        TextError::NoMemory
    }
}

impl<T: Drop> From<AllocFailed<T>> for TextError {
    ghost from_gives = { λ _ e. e ≡ NoMemory };

    fn from(_e: AllocFailed<T>) -> TextError {
        TextError::NoMemory
    }
}
