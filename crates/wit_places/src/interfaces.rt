//! Interfaces that use each other.

use crate::declarations::{Declarations, MAX_LOOKED_AT, end_of_scope};
use crate::lexed::Lexed;
use crate::rings::ring_in;
use std::alloc::{AllocError, Global};
use tables::Sequence;
use wit_text::Keyword;

/// An interface, with the names of those of its package that it uses.
#[derive(Drop)]
struct User<'a> {
    name: &'a str,
    used: Vec<&'a str>,
}

/// The names of the interfaces of its package that the interface uses whose name is at a token.
fn used_by<'a>(alloc: Global, lexed: &Lexed<'a>, at: usize) -> Result<Vec<&'a str>, AllocError> {
    let mut used = Vec::new(alloc);
    for index in at..end_of_scope(lexed, at) {
        if let Some(name) = lexed.used_interface(index) {
            used.push(name)?;
        }
    }
    Ok(used)
}

/// Adds the interfaces of a text.
fn push_users<'a>(
    alloc: Global,
    users: &mut Vec<User<'a>>,
    lexed: &Lexed<'a>,
) -> Result<(), AllocError> {
    let declarations = Declarations::of(alloc, lexed)?;
    for declaration in declarations.as_slice() {
        if declaration.keyword == Keyword::Interface {
            users.push(User {
                name: declaration.name,
                used: used_by(alloc, lexed, declaration.at)?,
            })?;
        }
    }
    Ok(())
}

/// The places of the interfaces of these names.
fn places_of(
    alloc: Global,
    users: &[User<'_>],
    names: &[&str],
) -> Result<Sequence<usize>, AllocError> {
    let mut places = Vec::new(alloc);
    for name in names {
        if let Some(place) = users.iter().position(|user| user.name == *name) {
            places.push(place)?;
        }
    }
    Ok(Sequence::new(places))
}

/// Which interfaces each of these uses.
fn graph_of(alloc: Global, users: &[User<'_>]) -> Result<Vec<Sequence<usize>>, AllocError> {
    let mut graph = Vec::new(alloc);
    for user in users {
        graph.push(places_of(alloc, users, user.used.as_slice())?)?;
    }
    Ok(graph)
}

/// The names of interfaces of a package's files that use each other: each uses the next, and the last uses the first.
/// No name if there are none.
pub fn ring_of_interfaces<'a>(
    alloc: Global,
    files: &[Lexed<'a>],
) -> Result<Vec<&'a str>, AllocError> {
    let mut users = Vec::new(alloc);
    let mut names = Vec::new(alloc);
    for lexed in files {
        push_users(alloc, &mut users, lexed)?;
    }
    if users.len() > MAX_LOOKED_AT {
        return Ok(names);
    }
    let graph = graph_of(alloc, users.as_slice())?;
    for place in ring_in(alloc, graph.as_slice())?.as_slice() {
        if let Some(user) = users.get(*place) {
            names.push(user.name)?;
        }
    }
    Ok(names)
}
