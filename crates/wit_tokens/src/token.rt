//! Tokens: what they are, and where they stand.
ghost use Rattle.std.specs.Prelude.{◌≡◌};
ghost use Rattle.wit_tokens.specs.Tokens.{span_of};

use std::fmt;

/// A word with a meaning of its own, in the order of the list of keywords.
#[derive(Clone, Copy, PartialEq, Eq)]
pub enum Keyword {
    As,
    Async,
    Bool,
    Borrow,
    Char,
    Constructor,
    Enum,
    ErrorContext,
    Export,
    F32,
    F64,
    Flags,
    From,
    Func,
    Future,
    Import,
    Include,
    Interface,
    List,
    Map,
    Option,
    Own,
    Package,
    Record,
    Resource,
    Result,
    S16,
    S32,
    S64,
    S8,
    Static,
    Stream,
    String,
    Tuple,
    Type,
    U16,
    U32,
    U64,
    U8,
    Use,
    Variant,
    With,
    World,
}

/// A mark, in the order of the list of punctuation.
#[derive(Clone, Copy, PartialEq, Eq)]
pub enum Punctuation {
    Arrow,
    Colon,
    Semicolon,
    Comma,
    Dot,
    OpenBrace,
    CloseBrace,
    OpenParenthesis,
    CloseParenthesis,
    Less,
    Greater,
    Equals,
    Slash,
    At,
    Underscore,
}

#[derive(Clone, Copy, PartialEq, Eq)]
pub enum TokenKind {
    /// A word that is no keyword, or any word behind `%`.
    Identifier,
    Keyword(Keyword),
    Punctuation(Punctuation),
    /// `@` and the version behind it.
    Version,
    /// A run of digits, which the grammar allows nowhere.
    Integer,
}

/// Where a token stands: byte offsets into the text, the end behind the last byte.
#[derive(Clone, Copy, Debug, PartialEq, Eq)]
pub struct Span {
    pub start: usize,
    pub end: usize,
}

impl fmt::Display for Span {
    fn fmt<W: fmt::Write>(&self, f: &mut fmt::Formatter<W>) -> fmt::Result {
        let start = self.start;
        let end = self.end;
        write!(f, "{start}..{end}")
    }
}

/// A token with its place, as a span has it. A text has at most 1,048,576 bytes, so a place needs four bytes.
#[derive(Clone, Copy, PartialEq, Eq)]
pub struct Token {
    pub kind: TokenKind,
    pub start: u32,
    pub end: u32,
}

impl Token {
    /// Where the token stands.
    pub fn span(self) -> Span
        ensures { result ≡ span_of self }
    {
        Span {
            start: self.start as usize,
            end: self.end as usize,
        }
    }
}
