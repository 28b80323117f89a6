//! The uses of a set, with what they mean.
ghost use Rattle.std.specs.Prelude.{◌≡◌, IfOk, IsTrue, All};
ghost use Rattle.std.specs.Str.{bytes_eq};
ghost use Rattle.wit_names.specs.Sites.{is_site, spelling};
ghost use Rattle.wit_targets.specs.Meaning.{is_spelled, is_spelled_as};

use crate::finding::{Found, found_in};
use crate::judging::{Ends, target_of};
use crate::target::{Target, Use};
use std::alloc::{AllocError, Global};
use wit_names::{DeclarationId, File, Reference, Site, is_site, spelling};
use wit_scopes::Scopes;

/// The names of a set, and what those that are used mean.
#[derive(Drop)]
pub struct Targets<'a> {
    scopes: Scopes<'a>,
    uses: Vec<Use>,
    ghost sites: { All (λ u. IsTrue (is_site scopes.files.now u.site)) uses.items },
    ghost spelled: { All (λ u. IsTrue (is_spelled scopes.files.now scopes.found.declarations.items u.site u.target)) uses.items },
}

/// Whether two names are spelled the same.
fn is_same(files: &[File<'_>], one: Site, other: Site) -> bool
    ensures { IsTrue result → IsTrue (bytes_eq (spelling files.now one) (spelling files.now other)) }
{
    match (spelling(files, one), spelling(files, other)) {
        (Some(name), Some(other)) => name.as_bytes() == other.as_bytes(),
        _ => false,
    }
}

/// Whether a name is spelled as the declaration of this id.
fn is_spelled_as(scopes: &Scopes<'_>, site: Site, id: DeclarationId) -> bool
    ensures { IsTrue result
        → IsTrue (is_spelled_as scopes.now.files.now scopes.now.found.declarations.items site id) }
{
    match scopes.declarations().get(id.0) {
        Some(one) => is_same(scopes.files(), site, one.site),
        None => false,
    }
}

/// What a use means, if it is spelled so.
fn tested(scopes: &Scopes<'_>, site: Site, target: Target) -> Target
    ensures { IsTrue (is_spelled scopes.now.files.now scopes.now.found.declarations.items site result) }
{
    match target {
        Target::Declaration(id) if is_spelled_as(scopes, site, id) => Target::Declaration(id),
        Target::WrongKind(id) if is_spelled_as(scopes, site, id) => Target::WrongKind(id),
        Target::Unknown => Target::Unknown,
        Target::NoPackage => Target::NoPackage,
        Target::Ring => Target::Ring,
        _ => Target::Unreadable,
    }
}

/// A use with what it means.
fn use_of(scopes: &Scopes<'_>, reference: &Reference, target: Target) -> Use
    ensures site { result.site ≡ reference.now.site }
    ensures spelled { IsTrue
        (is_spelled scopes.now.files.now scopes.now.found.declarations.items result.site result.target) }
{
    Use {
        name: reference.name,
        wanted: reference.wanted,
        site: reference.site,
        scope: reference.scope,
        place: reference.place,
        target: tested(scopes, reference.site, target),
    }
}

/// The uses with what they mean, by what is declared under their names.
#[tactic(auto, using(crate::proofs::Uses::one_more_site, crate::proofs::Uses::one_more_spelled))]
fn uses_of(alloc: Global, scopes: &Scopes<'_>, found: &[Found]) -> Result<Vec<Use>, AllocError>
    ensures sites { IfOk result (λ us. All (λ u. IsTrue (is_site scopes.now.files.now u.site)) us.items) }
    ensures spelled { IfOk result (λ us. All (λ u. IsTrue
        (is_spelled scopes.now.files.now scopes.now.found.declarations.items u.site u.target)) us.items) }
{
    let ends = Ends::of(alloc, scopes, found)?;
    let mut uses = Vec::with_capacity(alloc, found.len())?;
    for (reference, found) in scopes.references().iter().zip(found) {
        if !is_site(scopes.files(), reference.site) {
            return Err(AllocError);
        }
        let target = target_of(scopes, &ends, reference, *found);
        uses.push(use_of(scopes, reference, target))?;
    }
    Ok(uses)
}

/// What the names mean that a set uses. It fails only with out of memory.
pub fn targets_of<'a>(alloc: Global, scopes: Scopes<'a>) -> Result<Targets<'a>, AllocError>
    ensures { IfOk result (λ t. t.scopes ≡ scopes.entry) }
{
    let keyed = *scopes.packages().hasher();
    let found = found_in(alloc, keyed, &scopes)?;
    let uses = uses_of(alloc, &scopes, found.as_slice())?;
    Ok(Targets { scopes, uses })
}

impl<'a> Targets<'a> {
    /// The names of the set.
    pub fn scopes(&self) -> &Scopes<'a>
        ensures { result.now ≡ self.now.scopes }
    {
        &self.scopes
    }

    /// The uses, by their ids. Each is at a name of its file, and spelled as the declaration that it means.
    pub fn uses(&self) -> &[Use]
        ensures is { result.now ≡ self.now.uses.items }
        ensures sites { All (λ u. IsTrue (is_site self.now.scopes.files.now u.site)) result.now }
        ensures spelled { All (λ u. IsTrue (is_spelled self.now.scopes.files.now
            self.now.scopes.found.declarations.items u.site u.target)) result.now }
    {
        self.uses.as_slice()
    }
}
