//! What a text declares, and where.

use crate::lexed::Lexed;
use crate::rings::ring_in;
use std::alloc::{AllocError, Global};
use tables::Sequence;
use wit_text::{Keyword, Punctuation, Span, TokenKind};

/// A declaration of a type, an interface or a world.
#[derive(Clone, Copy, PartialEq, Eq)]
pub struct Declaration<'a> {
    pub name: &'a str,
    /// The keyword that it begins with.
    pub keyword: Keyword,
    /// The number of the interface or world that it is, or that it is in.
    pub scope: usize,
    /// The token of its name.
    pub at: usize,
}

/// Flags that have more labels than flags may have.
#[derive(Clone, Copy)]
pub struct LongFlags {
    /// Their name.
    pub span: Span,
    pub labels: usize,
}

/// The declarations of a text, in its order.
#[derive(Drop)]
pub struct Declarations<'a> {
    list: Vec<Declaration<'a>>,
}

/// The most declarations among which a ring is looked for.
pub const MAX_LOOKED_AT: usize = 4096;

/// The most labels of flags.
const MAX_FLAGS: usize = 32;

/// Whether a keyword begins the declaration of a type.
fn declares_type(keyword: Keyword) -> bool {
    matches!(
        keyword,
        Keyword::Record | Keyword::Variant | Keyword::Enum | Keyword::Flags | Keyword::Type
    )
}

/// Whether a keyword begins an interface or a world.
fn opens_scope(keyword: Keyword) -> bool {
    matches!(keyword, Keyword::Interface | Keyword::World)
}

/// Where the interface or the world ends whose name is at a token: at the token that begins the next one.
pub fn end_of_scope(lexed: &Lexed<'_>, at: usize) -> usize {
    for index in at..lexed.tokens.len() {
        if lexed.is_keyword(index, Keyword::Interface) || lexed.is_keyword(index, Keyword::World) {
            return index;
        }
    }
    lexed.tokens.len()
}

/// Whether a token ends the declaration of a type.
fn ends_type(kind: TokenKind) -> bool {
    matches!(
        kind,
        TokenKind::Punctuation(Punctuation::Semicolon | Punctuation::CloseBrace)
    )
}

/// How many brackets are open after a token, if so many were before it.
fn open_after(kind: TokenKind, open: usize) -> usize {
    match kind {
        TokenKind::Punctuation(Punctuation::Less | Punctuation::OpenParenthesis) => {
            open.saturating_add(1)
        }
        TokenKind::Punctuation(Punctuation::Greater | Punctuation::CloseParenthesis) => {
            open.saturating_sub(1)
        }
        _ => open,
    }
}

/// Whether a type comes after a token in a declaration in which so many brackets are open.
fn precedes_type(kind: TokenKind, open: usize) -> bool {
    match kind {
        TokenKind::Punctuation(
            Punctuation::Less
            | Punctuation::OpenParenthesis
            | Punctuation::Colon
            | Punctuation::Equals,
        ) => true,
        TokenKind::Punctuation(Punctuation::Comma) => open > 0,
        _ => false,
    }
}

/// The names of types in the declaration whose name is at a token.
fn types_in<'a>(alloc: Global, lexed: &Lexed<'a>, at: usize) -> Result<Vec<&'a str>, AllocError> {
    let mut names = Vec::new(alloc);
    let mut open: usize = 0;
    for index in at..lexed.tokens.len() {
        let Some(token) = lexed.tokens.get(index) else {
            break;
        };
        if ends_type(token.kind) {
            break;
        }
        open = open_after(token.kind, open);
        if precedes_type(token.kind, open)
            && let Some(name) = lexed.name_at(index.saturating_add(1))
        {
            names.push(name)?;
        }
    }
    Ok(names)
}

/// How many labels the enum or the flags have whose name is at a token.
fn labels_in(lexed: &Lexed<'_>, at: usize) -> usize {
    let mut count: usize = 0;
    for index in at.saturating_add(1)..lexed.tokens.len() {
        match lexed.tokens.get(index) {
            Some(token) if !ends_type(token.kind) => {
                count = count.saturating_add(usize::from(token.kind == TokenKind::Identifier));
            }
            _ => break,
        }
    }
    count
}

impl<'a> Declarations<'a> {
    /// The declarations of a text.
    pub fn of(alloc: Global, lexed: &Lexed<'a>) -> Result<Declarations<'a>, AllocError> {
        let mut list = Vec::new(alloc);
        let mut scope: usize = 0;
        for (index, token) in lexed.tokens.iter().enumerate() {
            let TokenKind::Keyword(keyword) = token.kind else {
                continue;
            };
            let at = index.saturating_add(1);
            scope = scope.saturating_add(usize::from(opens_scope(keyword)));
            if let Some(name) = lexed.name_at(at)
                && (declares_type(keyword) || opens_scope(keyword))
            {
                list.push(Declaration {
                    name,
                    keyword,
                    scope,
                    at,
                })?;
            }
        }
        Ok(Declarations { list })
    }

    /// All of them.
    pub fn as_slice(&self) -> &[Declaration<'a>] {
        self.list.as_slice()
    }

    /// The place in the list of the declaration of a name in a scope.
    fn place_of(&self, scope: usize, name: &str) -> Option<usize> {
        self.list.iter().position(|declaration| declaration.scope == scope
            && declaration.name == name)
    }

    /// The name of the first interface or world that differs from this one at most in the case of letters.
    pub fn scope_like(&self, lexed: &Lexed<'_>, name: &str) -> Option<Span> {
        for declaration in &self.list {
            if opens_scope(declaration.keyword) && declaration.name.eq_ignore_ascii_case(name) {
                return lexed.span_at(declaration.at);
            }
        }
        None
    }

    /// The interface or world of this name.
    fn scope_named(&self, name: &str) -> Option<Declaration<'a>> {
        for declaration in &self.list {
            if opens_scope(declaration.keyword) && declaration.name == name {
                return Some(*declaration);
            }
        }
        None
    }

    /// The name of a type, where the interface of this name declares it.
    pub fn type_in(&self, lexed: &Lexed<'_>, interface: &str, name: &str) -> Option<Span> {
        let scope = self.scope_named(interface)?.scope;
        for declaration in &self.list {
            if declaration.scope == scope
                && declares_type(declaration.keyword)
                && declaration.name == name
            {
                return lexed.span_at(declaration.at);
            }
        }
        None
    }

    /// The name of a function, where the interface or the world of this name declares it.
    pub fn function_in(&self, lexed: &Lexed<'_>, scope: &str, name: &str) -> Option<Span> {
        let first = self.scope_named(scope)?.at;
        for index in first..end_of_scope(lexed, first) {
            if lexed.function_at(index) == Some(name) {
                return lexed.span_at(index);
            }
        }
        None
    }

    /// The first flags that have too many labels.
    pub fn long_flags(&self, lexed: &Lexed<'_>) -> Option<LongFlags> {
        for declaration in &self.list {
            if declaration.keyword != Keyword::Flags {
                continue;
            }
            let labels = labels_in(lexed, declaration.at);
            if labels > MAX_FLAGS {
                let span = lexed.span_at(declaration.at)?;
                return Some(LongFlags { span, labels });
            }
        }
        None
    }

    /// The places of the declarations in the same scope that a type names.
    fn uses_of(
        &self,
        alloc: Global,
        lexed: &Lexed<'_>,
        declaration: &Declaration<'_>,
    ) -> Result<Sequence<usize>, AllocError> {
        let mut used = Vec::new(alloc);
        if declares_type(declaration.keyword) {
            let names = types_in(alloc, lexed, declaration.at)?;
            for name in names.as_slice() {
                if let Some(place) = self.place_of(declaration.scope, name) {
                    used.push(place)?;
                }
            }
        }
        Ok(Sequence::new(used))
    }

    /// The name of a type that contains itself, directly or by others of its interface.
    pub fn ring(&self, alloc: Global, lexed: &Lexed<'_>) -> Result<Option<Span>, AllocError> {
        if self.list.len() > MAX_LOOKED_AT {
            return Ok(None);
        }
        let mut graph = Vec::new(alloc);
        for declaration in &self.list {
            graph.push(self.uses_of(alloc, lexed, declaration)?)?;
        }
        let ring = ring_in(alloc, graph.as_slice())?;
        let Some(place) = ring.first() else {
            return Ok(None);
        };
        match self.list.get(*place) {
            Some(declaration) => Ok(lexed.span_at(declaration.at)),
            None => Ok(None),
        }
    }

    /// The type that another one is, which is declared as `type NAME = OTHER;`, by its place in the list.
    fn aliased(&self, lexed: &Lexed<'_>, place: usize) -> Option<usize> {
        let declaration = self.list.get(place)?;
        let name = declaration.at.saturating_add(2);
        if declaration.keyword != Keyword::Type
            || lexed.tokens.get(name.saturating_add(1))?.kind
                != TokenKind::Punctuation(Punctuation::Semicolon)
        {
            return None;
        }
        self.place_of(declaration.scope, lexed.name_at(name)?)
    }

    /// The names of a ring of types from the one at a span on, if each of them is declared as the next one.
    pub fn ring_of_aliases(
        &self,
        alloc: Global,
        lexed: &Lexed<'_>,
        span: Span,
    ) -> Result<Vec<&'a str>, AllocError> {
        let mut names = Vec::new(alloc);
        let at = lexed.index_of(span);
        let first = self
            .list
            .iter()
            .position(|declaration| Some(declaration.at) == at);
        let mut next = first;
        for _ in 0..self.list.len() {
            let Some(place) = next else {
                return Ok(Vec::new(alloc));
            };
            if let Some(declaration) = self.list.get(place) {
                names.push(declaration.name)?;
            }
            next = self.aliased(lexed, place);
            if next == first {
                return Ok(names);
            }
        }
        Ok(Vec::new(alloc))
    }

    /// The interface that a `use` of another interface names first, by its name.
    pub fn use_in(&self, lexed: &Lexed<'_>, interface: &str, used: &str) -> Option<Span> {
        let first = self.scope_named(interface)?.at;
        for index in first..end_of_scope(lexed, first) {
            if lexed.used_interface(index) == Some(used) {
                return lexed.span_at(index.saturating_add(1));
            }
        }
        None
    }

    /// The first interface that declares a type of this name.
    pub fn interface_with(&self, name: &str) -> Option<&'a str> {
        let mut interface = None;
        for declaration in &self.list {
            if declaration.keyword == Keyword::Interface {
                interface = Some(declaration.name);
            } else if declaration.name == name && declares_type(declaration.keyword) {
                return interface;
            }
        }
        None
    }

    /// The names of the types that the interface of this name declares.
    pub fn types_of(&self, alloc: Global, interface: &str) -> Result<Vec<&'a str>, AllocError> {
        let mut names = Vec::new(alloc);
        let Some(scope) = self.scope_named(interface) else {
            return Ok(names);
        };
        for declaration in &self.list {
            if declaration.scope == scope.scope && declares_type(declaration.keyword) {
                names.push(declaration.name)?;
            }
        }
        Ok(names)
    }

    /// The first place of a name in an interface or a world that declares no type of this name, and is none of these.
    pub fn undeclared(&self, lexed: &Lexed<'_>, name: &str, others: &[usize]) -> Option<Span> {
        let mut scope: usize = 0;
        for (index, token) in lexed.tokens.iter().enumerate() {
            if let TokenKind::Keyword(keyword) = token.kind {
                scope = scope.saturating_add(usize::from(opens_scope(keyword)));
            }
            if lexed.use_at(index) == Some(name)
                && self.place_of(scope, name).is_none()
                && !others.contains(&scope)
            {
                return Some(token.span());
            }
        }
        None
    }
}

/// The numbers of the interfaces that use a type of this name from another one.
pub fn importers(alloc: Global, lexed: &Lexed<'_>, name: &str) -> Result<Vec<usize>, AllocError> {
    let mut scopes = Vec::new(alloc);
    let mut scope: usize = 0;
    let mut is_listed = false;
    for (index, token) in lexed.tokens.iter().enumerate() {
        match token.kind {
            TokenKind::Keyword(keyword) => {
                scope = scope.saturating_add(usize::from(opens_scope(keyword)));
            }
            TokenKind::Punctuation(Punctuation::OpenBrace) => is_listed = lexed.is_used_list(index),
            TokenKind::Punctuation(Punctuation::CloseBrace) => is_listed = false,
            _ if is_listed && lexed.name_at(index) == Some(name) => scopes.push(scope)?,
            _ => {}
        }
    }
    Ok(scopes)
}

/// The names of types that a text declares or uses from an interface.
pub fn names_of_types<'a>(alloc: Global, lexed: &Lexed<'a>) -> Result<Vec<&'a str>, AllocError> {
    let mut names = Vec::new(alloc);
    let mut is_listed = false;
    let mut is_declared = false;
    for (index, token) in lexed.tokens.iter().enumerate() {
        if let Some(name) = lexed.name_at(index)
            && (is_listed || is_declared)
        {
            names.push(name)?;
        }
        is_declared = false;
        match token.kind {
            TokenKind::Keyword(keyword) => is_declared = declares_type(keyword),
            TokenKind::Punctuation(Punctuation::OpenBrace) => is_listed = lexed.is_used_list(index),
            TokenKind::Punctuation(Punctuation::CloseBrace) => is_listed = false,
            _ => {}
        }
    }
    Ok(names)
}
