//! The names of a set of files.
ghost use Rattle.std.specs.Prelude.{◌≡◌, ◌↔◌, IfOk, IsTrue, All, slice_get, option_map, position};
ghost use Rattle.std.specs.Str.{bytes_eq};
ghost use Rattle.indexmap.specs.IndexMap.{get_by};
ghost use Rattle.indexmap.specs.IndexSet.{contains_by};
ghost use Rattle.wit_names.specs.Sites.{is_site};
ghost use Rattle.wit_scopes.specs.Keys.{is_in_scope, is_of_include};
ghost use Rattle.wit_scopes.specs.Texts.{text_of};

use crate::collecting::collect;
use crate::found::Found;
use crate::layout::Layout;
use crate::opening::Packages;
use atoms::{KeyedState, NameKey};
use indexmap::IndexMap;
use std::alloc::{AllocError, Global};
use wit_names::{
    Declaration, DeclarationId, File, Include, NameId, PackageName, Reference, Scope, ScopeId,
    is_site,
};

/// The names of a set of files: what they declare, what they use, and the scopes of both.
#[derive(Drop)]
pub struct Scopes<'a> {
    files: &'a [File<'a>],
    found: Found<'a>,
    ghost declared: { All (λ d. IsTrue (is_site files.now d.site)) found.declarations.items },
    ghost used: { All (λ r. IsTrue (is_site files.now r.site)) found.references.items },
}

/// Hashers whose key is made of the texts.
fn keyed_by(files: &[File<'_>]) -> KeyedState {
    let mut key = NameKey::new();
    for file in files {
        key.write(file.text.as_bytes());
    }
    key.state()
}

/// All names of a set.
fn found_in<'a>(alloc: Global, files: &[File<'a>]) -> Result<Found<'a>, AllocError> {
    let keyed = keyed_by(files);
    let mut found = Found::new(alloc, keyed)?;
    let mut packages = Packages::of(alloc, keyed, &mut found, files)?;
    for (number, file) in files.iter().enumerate() {
        let mut layout = Layout::of(alloc, number, file.nodes())?;
        packages.open_scopes(&mut found, files, &mut layout)?;
        collect(&mut found, files, &layout)?;
    }
    Ok(found)
}

/// Whether all declarations are at names.
fn are_declared(files: &[File<'_>], declarations: &[Declaration]) -> bool
    ensures { IsTrue result ↔ All (λ d. IsTrue (is_site files.now d.site)) declarations.now }
{
    declarations.iter().all(|one| is_site(files, one.site))
}

/// Whether all uses are at names.
fn are_used(files: &[File<'_>], references: &[Reference]) -> bool
    ensures { IsTrue result ↔ All (λ r. IsTrue (is_site files.now r.site)) references.now }
{
    references.iter().all(|one| is_site(files, one.site))
}

/// Whether all that was found is at names.
fn are_sites(files: &[File<'_>], found: &Found<'_>) -> bool
    ensures declared { IsTrue result
        → All (λ d. IsTrue (is_site files.now d.site)) found.now.declarations.items }
    ensures used { IsTrue result
        → All (λ r. IsTrue (is_site files.now r.site)) found.now.references.items }
{
    are_declared(files, found.declarations.as_slice())
        && are_used(files, found.references.as_slice())
}

/// The names of a set of files, whatever is in them. It fails if an allocation is refused, or if a declaration or a use
/// is at no name of its file, which the trees of texts don't lead to.
pub fn scopes_of<'a>(alloc: Global, files: &'a [File<'a>]) -> Result<Scopes<'a>, AllocError>
    ensures { IfOk result (λ s. s.files.now ≡ files.now) }
{
    let found = found_in(alloc, files)?;
    if !are_sites(files, &found) {
        return Err(AllocError);
    }
    Ok(Scopes { files, found })
}

/// The text of a file of a set, by its number. No text if there is no such file.
pub fn text_of<'a>(files: &[File<'a>], number: usize) -> &'a str
    ensures { result.now ≡ text_of files.now number }
{
    match files.get(number) {
        Some(file) => file.text,
        None => "",
    }
}

impl<'a> Scopes<'a> {
    /// The files of the set.
    pub fn files(&self) -> &'a [File<'a>]
        ensures { result.now ≡ self.now.files.now }
    {
        self.files
    }

    /// The declarations, by their ids: those of packages first, and then file by file. Each is at a name of its file.
    pub fn declarations(&self) -> &[Declaration]
        ensures is { result.now ≡ self.now.found.declarations.items }
        ensures sites { All (λ d. IsTrue (is_site self.now.files.now d.site)) result.now }
    {
        self.found.declarations.as_slice()
    }

    /// The uses, by their ids: further lines that name a package first, and then file by file. Each is at a name of its
    /// file.
    pub fn references(&self) -> &[Reference]
        ensures is { result.now ≡ self.now.found.references.items }
        ensures sites { All (λ r. IsTrue (is_site self.now.files.now r.site)) result.now }
    {
        self.found.references.as_slice()
    }

    /// The scopes, by their ids. The first is that of all files.
    pub fn scopes(&self) -> &[Scope]
        ensures { result.now ≡ self.now.found.scopes.items }
    {
        self.found.scopes.as_slice()
    }

    /// The worlds that are included, in the order of the files.
    pub fn includes(&self) -> &[Include]
        ensures { result.now ≡ self.now.found.includes.items }
    {
        self.found.includes.as_slice()
    }

    /// The packages, in the order of the files, each once.
    pub fn packages(&self) -> &IndexMap<PackageName, DeclarationId, KeyedState>
        ensures { result.now ≡ self.now.found.packages }
    {
        &self.found.packages
    }

    /// The id of a name, if it is written somewhere in the set.
    pub fn name(&self, name: &str) -> Option<NameId>
        ensures { option_map (λ n. n.0) result ≡ position (λ k. bytes_eq name.now k.now) self.now.found.names.keys }
    {
        Some(NameId(self.found.names.get_index_of(name)?))
    }

    /// A name by its id.
    pub fn text(&self, name: NameId) -> Option<&'a str>
        ensures { result ≡ slice_get self.now.found.names.keys name.0 }
    {
        self.found.names.get_index(name.0).copied()
    }

    /// The first declaration of a name in a scope, but for exports of worlds.
    pub fn declared(&self, scope: ScopeId, name: NameId) -> Option<DeclarationId>
        ensures { result ≡ get_by (is_in_scope scope name) self.now.found.declared }
    {
        self.found.declared.get(&(scope, name)).copied()
    }

    /// The first export of a name in a world's scope.
    pub fn exported(&self, scope: ScopeId, name: NameId) -> Option<DeclarationId>
        ensures { result ≡ get_by (is_in_scope scope name) self.now.found.exported }
    {
        self.found.exported.get(&(scope, name)).copied()
    }

    /// Whether a name is in what can't be read of a scope, so that it may be declared there.
    pub fn is_unread(&self, scope: ScopeId, name: NameId) -> bool
        ensures { result ≡ contains_by (is_in_scope scope name) self.now.found.unread }
    {
        self.found.unread.contains(&(scope, name))
    }

    /// Whether an `include`, by its index, brings a name of its world in under another one.
    pub fn is_renamed(&self, include: usize, name: NameId) -> bool
        ensures { result ≡ contains_by (is_of_include include name) self.now.found.renamed }
    {
        self.found.renamed.contains(&(include, name))
    }
}
