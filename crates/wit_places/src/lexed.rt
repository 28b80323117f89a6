//! A text with its tokens, and the packages that it names.
ghost use Rattle.std.specs.Prelude.{◌≡◌};

use std::alloc::Global;
use std::fmt;
use tables::PackageName;
use wit_text::{Keyword, PackageId, Punctuation, Span, TextError, Token, TokenKind, lex};

/// The name of a package, as a text spells it.
#[derive(Clone, Copy)]
pub struct PackageRef<'a> {
    pub namespace: &'a str,
    pub name: &'a str,
    pub version: Option<&'a str>,
}

/// A package that a text names, and where: from its namespace to its name, or to its version in the text's first line.
#[derive(Clone, Copy)]
pub struct PackagePath<'a> {
    pub package: PackageRef<'a>,
    pub span: Span,
}

fn lent(version: &Option<String>) -> Option<&str> {
    match version {
        Some(version) => Some(version.as_str()),
        None => None,
    }
}

impl<'a> PackageRef<'a> {
    /// The package of a text.
    pub fn of_tree(id: &'a PackageId) -> PackageRef<'a> {
        PackageRef {
            namespace: id.namespace.as_str(),
            name: id.name.as_str(),
            version: lent(&id.version),
        }
    }

    /// The package of tables.
    pub fn of_tables(name: &'a PackageName) -> PackageRef<'a> {
        PackageRef {
            namespace: name.namespace.as_str(),
            name: name.name.as_str(),
            version: lent(&name.version),
        }
    }

    /// Whether both have one namespace and one name, whatever their versions.
    pub fn has_name_of(&self, other: PackageRef<'_>) -> bool {
        self.namespace == other.namespace && self.name == other.name
    }

    /// Whether they are one package.
    pub fn is(&self, other: PackageRef<'_>) -> bool {
        self.has_name_of(other) && self.version == other.version
    }
}

impl fmt::Display for PackageRef<'_> {
    fn fmt<W: fmt::Write>(&self, f: &mut fmt::Formatter<W>) -> fmt::Result {
        let (namespace, name) = (self.namespace, self.name);
        match self.version {
            Some(version) => write!(f, "{namespace}:{name}@{version}"),
            None => write!(f, "{namespace}:{name}"),
        }
    }
}

/// What can be shown of a file: its path, its text, and the tokens of this.
#[derive(Drop)]
pub struct Lexed<'a> {
    pub path: &'a str,
    pub text: &'a str,
    /// If the text has a fault in them, those before it.
    pub tokens: Vec<Token>,
}

/// The tokens of a text. None if it has a fault in them.
fn tokens_of(alloc: Global, text: &str) -> Vec<Token> {
    match lex(alloc, text) {
        Ok(tokens) => tokens,
        Err(_) => Vec::new(alloc),
    }
}

impl<'a> Lexed<'a> {
    /// A text with its tokens.
    pub fn new(alloc: Global, path: &'a str, text: &'a str) -> Lexed<'a>
        ensures path { result.path.now ≡ path.now }
        ensures text { result.text.now ≡ text.now }
    {
        let tokens = match lex(alloc, text) {
            Ok(tokens) => tokens,
            Err(TextError::BadChar(span) | TextError::OpenComment(span)) => {
                tokens_of(alloc, text.get(..span.start).unwrap_or(""))
            }
            Err(_) => Vec::new(alloc),
        };
        Lexed { path, text, tokens }
    }

    /// The text at a span.
    pub fn at(&self, span: Span) -> &'a str {
        self.text.get(span.start..span.end).unwrap_or("")
    }

    pub fn span_at(&self, index: usize) -> Option<Span> {
        match self.tokens.get(index) {
            Some(token) => Some(token.span()),
            None => None,
        }
    }

    /// The token at a span, by its number.
    pub fn index_of(&self, span: Span) -> Option<usize> {
        self.tokens.iter().position(|token| token.span() == span)
    }

    /// What the token at a span is.
    pub fn kind_of(&self, span: Span) -> Option<TokenKind> {
        Some(self.tokens.get(self.index_of(span)?)?.kind)
    }

    /// The span of the token before the one at a span. Of the end of the text, that of the last token.
    pub fn span_before(&self, span: Span) -> Option<Span> {
        let index = self.index_of(span).unwrap_or(self.tokens.len());
        self.span_at(index.checked_sub(1)?)
    }

    /// What the token before the one at a span is.
    pub fn kind_before(&self, span: Span) -> Option<TokenKind> {
        self.kind_of(self.span_before(span)?)
    }

    /// Whether the token at a span is `_`.
    pub fn is_underscore(&self, span: Span) -> bool {
        self.kind_of(span) == Some(TokenKind::Punctuation(Punctuation::Underscore))
    }

    /// Whether a token is this mark.
    pub fn is_mark(&self, index: usize, mark: Punctuation) -> bool {
        match self.tokens.get(index) {
            Some(token) => token.kind == TokenKind::Punctuation(mark),
            None => false,
        }
    }

    /// Whether a token is this keyword.
    pub fn is_keyword(&self, index: usize, keyword: Keyword) -> bool {
        match self.tokens.get(index) {
            Some(token) => token.kind == TokenKind::Keyword(keyword),
            None => false,
        }
    }

    /// The name that a token is, without `%`.
    pub fn name_at(&self, index: usize) -> Option<&'a str> {
        match self.tokens.get(index) {
            Some(token) if token.kind == TokenKind::Identifier => {
                let word = self.at(token.span());
                Some(word.strip_prefix("%").unwrap_or(word))
            }
            _ => None,
        }
    }

    /// The name that a token is, if it isn't one of a field, a parameter or a function: no `:` comes after it.
    pub fn use_at(&self, index: usize) -> Option<&'a str> {
        if self.is_mark(index.saturating_add(1), Punctuation::Colon) {
            return None;
        }
        self.name_at(index)
    }

    /// Whether a token is a name with a `:` after it.
    pub fn is_named(&self, index: usize) -> bool {
        self.name_at(index).is_some() && self.is_mark(index.saturating_add(1), Punctuation::Colon)
    }

    /// The interface of the text's own package that a `use` at a token is from.
    pub fn used_interface(&self, index: usize) -> Option<&'a str> {
        if self.is_keyword(index, Keyword::Use)
            && self.is_mark(index.saturating_add(2), Punctuation::Dot)
        {
            return self.name_at(index.saturating_add(1));
        }
        None
    }

    /// Whether a token begins the names of a `use`: it is a brace after a dot.
    pub fn is_used_list(&self, index: usize) -> bool {
        self.is_mark(index, Punctuation::OpenBrace)
            && self.is_mark(index.saturating_sub(1), Punctuation::Dot)
    }

    /// The name that a token is, if it is one of a function: `: func` comes after it.
    pub fn function_at(&self, index: usize) -> Option<&'a str> {
        if self.is_mark(index.saturating_add(1), Punctuation::Colon)
            && self.is_keyword(index.saturating_add(2), Keyword::Func)
        {
            return self.name_at(index);
        }
        None
    }

    /// The version that a token is, without `@`.
    fn version_at(&self, index: usize) -> Option<&'a str> {
        match self.tokens.get(index) {
            Some(token) if token.kind == TokenKind::Version => {
                self.at(token.span()).strip_prefix("@")
            }
            _ => None,
        }
    }

    /// From one token to another.
    fn joined(&self, first: usize, last: usize) -> Option<Span> {
        Some(Span {
            start: self.span_at(first)?.start,
            end: self.span_at(last)?.end,
        })
    }

    /// The package that a path names which begins at a token: `namespace:name/interface`, or the same with a version.
    pub fn path_at(&self, index: usize) -> Option<PackagePath<'a>> {
        let last = index.saturating_add(2);
        if !self.is_mark(index.saturating_add(1), Punctuation::Colon)
            || !self.is_mark(index.saturating_add(3), Punctuation::Slash)
        {
            return None;
        }
        Some(PackagePath {
            package: PackageRef {
                namespace: self.name_at(index)?,
                name: self.name_at(last)?,
                version: self.version_at(index.saturating_add(5)),
            },
            span: self.joined(index, last)?,
        })
    }

    /// Whether the text begins with `package`.
    pub fn has_package_line(&self) -> bool {
        self.is_keyword(0, Keyword::Package)
    }

    /// The package that the text's first line names.
    pub fn own_package(&self) -> Option<PackagePath<'a>> {
        if !self.has_package_line() {
            return None;
        }
        let version = self.version_at(4);
        let last = if version.is_some() { 4 } else { 3 };
        Some(PackagePath {
            package: PackageRef {
                namespace: self.name_at(1)?,
                name: self.name_at(3)?,
                version,
            },
            span: self.joined(1, last)?,
        })
    }

    /// Where the text names its own package: `package namespace:name`. Its first token if it has no such line.
    pub fn header(&self) -> Option<Span> {
        if self.has_package_line() {
            return self.joined(1, 3).or(self.span_at(0));
        }
        self.span_at(0)
    }
}
