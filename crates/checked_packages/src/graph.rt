//! Which packages depend on which.
ghost use Rattle.std.specs.Prelude.{◌≡◌, ◌<◌, length, All, IfOk, OnOk, IfSome};

use std::alloc::{AllocError, Global};
use tables::Sequence;
use wit_faults::{Lexed, PackageRef};
use wit_files::Member;

/// The first member that is this package.
fn member_named(members: &[Member<'_>], package: PackageRef<'_>) -> Option<usize>
    ensures { IfSome result (λ k. k < length members.now) }
{
    for (place, member) in members.iter().enumerate() {
        if member.package().is(package) {
            return Some(place);
        }
    }
    None
}

/// The member that a path names which begins at a token of a file of another one.
fn used_at(members: &[Member<'_>], own: usize, lexed: &Lexed<'_>, index: usize) -> Option<usize>
    ensures { IfSome result (λ k. k < length members.now) }
{
    let path = lexed.path_at(index)?;
    let place = member_named(members, path.package)?;
    if place == own {
        return None;
    }
    Some(place)
}

/// Adds the members that a file of a member depends on.
fn push_uses(
    members: &[Member<'_>],
    own: usize,
    lexed: &Lexed<'_>,
    used: &mut Vec<usize>,
) -> Result<(), AllocError>
    requires { All (λ u. u < length members.now) used.old.items }
    ensures { OnOk result (All (λ u. u < length members.now) used.new.items) }
{
    for index in 0..lexed.tokens.len() {
        if let Some(place) = used_at(members, own, lexed, index) {
            used.push(place)?;
        }
    }
    Ok(())
}

/// The members that a member of these files depends on.
fn uses_of(
    alloc: Global,
    members: &[Member<'_>],
    own: usize,
    files: &[Lexed<'_>],
) -> Result<Sequence<usize>, AllocError>
    ensures { IfOk result (λ used. All (λ u. u < length members.now) used) }
{
    let mut used = Vec::new(alloc);
    for lexed in files {
        push_uses(members, own, lexed, &mut used)?;
    }
    Ok(Sequence::new(used))
}

/// The members that each member depends on: those whose packages its paths name.
pub fn graph_of(alloc: Global, members: &[Member<'_>]) -> Result<Vec<Sequence<usize>>, AllocError>
    ensures count { IfOk result (λ g. length g.items ≡ length members.now) }
    ensures within { IfOk result (λ g. All (λ used. All (λ u. u < length g.items) used) g.items) }
{
    let mut graph = Vec::new(alloc);
    for (own, member) in members.iter().enumerate() {
        graph.push(uses_of(alloc, members, own, member.files.as_slice())?)?;
    }
    Ok(graph)
}
