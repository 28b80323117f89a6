//! Where a fault stands in its text.

use crate::cause::Cause;
use crate::hints::{Around, Known};
use layout_limits::Refused;
use std::alloc::{AllocError, Global};
use tables::ResolveError;
use wit_hints::find_twins;
use wit_places::{Declarations, Lexed, LongFlags, PackageRef, importers, ring_of_interfaces};
use wit_text::{Span, TextError, TokenKind};

/// The first place where a name is used.
fn first_use(lexed: &Lexed<'_>, name: &str) -> Option<Span> {
    for index in 0..lexed.tokens.len() {
        if lexed.use_at(index) == Some(name) {
            return lexed.span_at(index);
        }
    }
    None
}

/// The token that begins the first path that names a package.
fn first_index(lexed: &Lexed<'_>, package: PackageRef<'_>) -> Option<usize> {
    for index in 0..lexed.tokens.len() {
        if let Some(path) = lexed.path_at(index) {
            if package.is(path.package) {
                return Some(index);
            }
        }
    }
    None
}

/// The first path of a text that names a package.
fn path_to(lexed: &Lexed<'_>, package: PackageRef<'_>) -> Option<Span> {
    let path = lexed.path_at(first_index(lexed, package)?)?;
    Some(path.span)
}

/// The version of the first path that names a package, if it has one.
fn first_version(lexed: &Lexed<'_>, package: PackageRef<'_>) -> Option<Span> {
    let version = first_index(lexed, package)?.checked_add(5)?;
    let token = lexed.tokens.get(version)?;
    if token.kind == TokenKind::Version {
        return Some(token.span());
    }
    None
}

/// A file of a package, and a place of it.
#[derive(Clone, Copy)]
pub struct Found<'a> {
    pub lexed: &'a Lexed<'a>,
    pub span: Option<Span>,
}

/// The first path of a package's files that names another package. The first file without a place if none does.
pub fn first_path<'a>(files: &'a [Lexed<'_>], package: PackageRef<'_>) -> Option<Found<'a>> {
    for lexed in files {
        let span = path_to(lexed, package);
        if span.is_some() {
            return Some(Found { lexed, span });
        }
    }
    let lexed = files.first()?;
    Some(Found { lexed, span: None })
}

/// An interface or a world that two files of a package declare.
#[derive(Clone, Copy)]
pub struct Twice<'a> {
    pub first: &'a Lexed<'a>,
    pub second: Found<'a>,
}

/// The interface or world of this name that a file declares after another file.
pub fn declared_twice<'a>(
    alloc: Global,
    files: &'a [Lexed<'a>],
    name: &str,
) -> Result<Option<Twice<'a>>, AllocError> {
    let mut earlier: Option<&'a Lexed<'a>> = None;
    for lexed in files {
        let span = Declarations::of(alloc, lexed)?.scope_like(lexed, name);
        match earlier {
            Some(first) if span.is_some() => {
                let second = Found { lexed, span };
                return Ok(Some(Twice { first, second }));
            }
            None if span.is_some() => earlier = Some(lexed),
            _ => {}
        }
    }
    Ok(None)
}

/// Where a package is named that is not there: its version, if another version of it is known.
fn of_package(lexed: &Lexed<'_>, known: &[Known<'_>], package: PackageRef<'_>) -> Option<Span> {
    for other in known {
        if other.package.has_name_of(package) {
            return first_version(lexed, package).or(path_to(lexed, package));
        }
    }
    path_to(lexed, package)
}

/// The later place of a name that is twice.
fn of_duplicate(lexed: &Lexed<'_>, name: &str) -> Option<Span> {
    Some(find_twins(lexed, name)?.second)
}

fn of_text(error: &TextError) -> Option<Span> {
    match error {
        TextError::BadChar(span)
        | TextError::OpenComment(span)
        | TextError::Expected(_, span)
        | TextError::Unsupported(_, span)
        | TextError::Depth(span) => Some(*span),
        TextError::NoMemory | TextError::Limit => None,
    }
}

/// The first flags of a text that have too many labels.
pub fn long_flags(alloc: Global, lexed: &Lexed<'_>) -> Result<Option<LongFlags>, AllocError> {
    Ok(Declarations::of(alloc, lexed)?.long_flags(lexed))
}

/// The first place of a name in an interface of a text that declares no type of this name, and is none of these.
fn undeclared(
    alloc: Global,
    lexed: &Lexed<'_>,
    name: &str,
    others: &[usize],
) -> Result<Option<Span>, AllocError> {
    Ok(Declarations::of(alloc, lexed)?.undeclared(lexed, name, others))
}

/// The first place of a name in an interface of a text that neither declares nor uses a type of this name.
fn missing(alloc: Global, lexed: &Lexed<'_>, name: &str) -> Result<Option<Span>, AllocError> {
    let others = importers(alloc, lexed, name)?;
    undeclared(alloc, lexed, name, others.as_slice())
}

/// The first place of a name in an interface that neither declares nor uses a type of this name.
fn first_missing<'a>(
    alloc: Global,
    files: &'a [Lexed<'a>],
    name: &str,
) -> Result<Option<Found<'a>>, AllocError> {
    for lexed in files {
        let span = missing(alloc, lexed, name)?;
        if span.is_some() {
            return Ok(Some(Found { lexed, span }));
        }
    }
    Ok(None)
}

/// The first place of a name in an interface that declares no type of this name.
fn first_undeclared<'a>(
    alloc: Global,
    files: &'a [Lexed<'a>],
    name: &str,
) -> Result<Option<Found<'a>>, AllocError> {
    for lexed in files {
        let span = undeclared(alloc, lexed, name, &[])?;
        if span.is_some() {
            return Ok(Some(Found { lexed, span }));
        }
    }
    Ok(None)
}

/// The place of a fault that all files of a package are needed to find: of a name in two files, and of a name that is
/// unknown.
fn place_among<'a>(
    alloc: Global,
    files: &'a [Lexed<'a>],
    error: &ResolveError,
) -> Result<Option<Found<'a>>, AllocError> {
    match error {
        ResolveError::Duplicate(name) => match declared_twice(alloc, files, name.as_str())? {
            Some(twice) => Ok(Some(twice.second)),
            None => Ok(None),
        },
        ResolveError::Unknown(label) => match first_missing(alloc, files, label.as_str())? {
            Some(found) => Ok(Some(found)),
            None => first_undeclared(alloc, files, label.as_str()),
        },
        _ => Ok(None),
    }
}

fn of_names(
    alloc: Global,
    lexed: &Lexed<'_>,
    known: &[Known<'_>],
    error: &ResolveError,
) -> Result<Option<Span>, AllocError> {
    match error {
        ResolveError::Duplicate(name) => Ok(of_duplicate(lexed, name.as_str())),
        ResolveError::Unknown(label) => Ok(first_use(lexed, label.as_str())),
        ResolveError::NoPackage(name) => {
            Ok(of_package(lexed, known, PackageRef::of_tables(name)))
        }
        ResolveError::Cycle => Declarations::of(alloc, lexed)?.ring(alloc, lexed),
        ResolveError::Limit => match long_flags(alloc, lexed)? {
            Some(flags) => Ok(Some(flags.span)),
            None => Ok(None),
        },
        _ => Ok(None),
    }
}

/// Where the type or the function is that is above the limits of layouts.
fn of_refused(
    alloc: Global,
    lexed: &Lexed<'_>,
    refused: &Refused,
) -> Result<Option<Span>, AllocError> {
    let declarations = Declarations::of(alloc, lexed)?;
    let (scope, name) = (refused.scope.as_str(), refused.name.as_str());
    if refused.is_function {
        Ok(declarations.function_in(lexed, scope, name))
    } else {
        Ok(declarations.type_in(lexed, scope, name))
    }
}

/// Where a file has a fault: the place that it tells, that of the name that it tells, or of the type that has it.
pub fn place_in(
    alloc: Global,
    lexed: &Lexed<'_>,
    known: &[Known<'_>],
    cause: &Cause,
) -> Result<Option<Span>, AllocError> {
    match cause {
        Cause::NotUtf8(place) => Ok(Some(Span {
            start: *place,
            end: *place,
        })),
        Cause::Text(error) => Ok(of_text(error)),
        Cause::Resolve(error) => of_names(alloc, lexed, known, error),
        Cause::Layout(_, Some(refused)) => of_refused(alloc, lexed, refused),
        Cause::Read(_) | Cause::Layout(_, None) => Ok(None),
    }
}

/// An interface that uses itself by others, and the first that it uses of these.
fn first_users<'a>(
    alloc: Global,
    files: &[Lexed<'a>],
) -> Result<Option<(&'a str, &'a str)>, AllocError> {
    let ring = ring_of_interfaces(alloc, files)?;
    let Some(first) = ring.first() else {
        return Ok(None);
    };
    Ok(Some((*first, *ring.get(1).unwrap_or(first))))
}

/// Where a text has the `use` of an interface in another one.
fn use_in(
    alloc: Global,
    lexed: &Lexed<'_>,
    interface: &str,
    used: &str,
) -> Result<Option<Span>, AllocError> {
    Ok(Declarations::of(alloc, lexed)?.use_in(lexed, interface, used))
}

/// Where the first of interfaces that use each other uses the second.
fn place_of_ring<'a>(
    alloc: Global,
    files: &'a [Lexed<'a>],
) -> Result<Option<Found<'a>>, AllocError> {
    let Some((first, second)) = first_users(alloc, files)? else {
        return Ok(None);
    };
    for lexed in files {
        let span = use_in(alloc, lexed, first, second)?;
        if span.is_some() {
            return Ok(Some(Found { lexed, span }));
        }
    }
    Ok(None)
}

/// The first file of a package that names it, and where.
fn own_name<'a>(files: &'a [Lexed<'a>]) -> Option<Found<'a>> {
    for lexed in files {
        if lexed.has_package_line() {
            let span = lexed.header();
            return Some(Found { lexed, span });
        }
    }
    let lexed = files.first()?;
    Some(Found { lexed, span: None })
}

/// Where a package has a fault: in the first file that has a place of it, at the `use` of an interface that uses itself
/// by others, or at the package's name.
pub fn place_of<'a>(
    alloc: Global,
    around: Around<'a>,
    cause: &Cause,
) -> Result<Option<Found<'a>>, AllocError> {
    if let Cause::Resolve(error) = cause
        && let Some(found) = place_among(alloc, around.files, error)?
    {
        return Ok(Some(found));
    }
    for lexed in around.files {
        let span = place_in(alloc, lexed, around.known, cause)?;
        if span.is_some() {
            return Ok(Some(Found { lexed, span }));
        }
    }
    if let Cause::Resolve(ResolveError::Cycle) = cause
        && let Some(found) = place_of_ring(alloc, around.files)?
    {
        return Ok(Some(found));
    }
    Ok(own_name(around.files))
}
