//! Packages, and how they are opened.

ghost use Rattle.std.specs.Prelude.{◌≡◌, ◌<◌, ◌≤◌, ◌∷◌, [], length, All, IfOk, IfErr, MatchResult};
ghost use Rattle.layout.specs.Layout.{layouts_of, AreWithin, RefusesFirst};
ghost use Rattle.tables.specs.Same.{IsSamePackage};
ghost use Rattle.package_form.specs.Closed.{IsAlone};
ghost use Rattle.package_form.specs.Form.{IsInPackageForm};
ghost use Rattle.package_form.specs.Naming.{package_scopes};
ghost use Rattle.package_form.specs.Scope.{AreDistinct};
ghost use Rattle.package_sets.specs.Tower.{IsInTower};
ghost use Rattle.opening.specs.Opening.{IsOpened, IsLast, last_table, IsWantOfMemory, OpenRefuses};

use crate::set::open_set;
use ctype_bin::BinError;
use layout::{LayoutError, Layouts};
use package_form::own_package;
use package_sets::laws::alone_is_whole;
use package_sets::restricted;
use std::alloc::{AllocError, Global};
use table_building::copy_of;
use tables::{PackageId, Resolve, ResolveError};
use thiserror::Error;
use values::Types;
use wit_text::TextError;

/// The greatest number of bytes that a text or a binary may have.
pub const MAX_INPUT: usize = 1_048_576;

/// Why an input is no package: 20 where it could not be read, then the refusals of the text or of the binary, of its
/// names and of its layouts.
#[derive(Debug, Drop, Error)]
pub enum OpenError {
    /// The reader failed, after so many bytes.
    #[error("error 20 read at {0}")]
    Read(usize),
    #[error(transparent)]
    Text(TextError),
    #[error(transparent)]
    Binary(BinError),
    /// Its names, or the packages before it: 40 to 49.
    #[error(transparent)]
    Resolve(ResolveError),
    #[error(transparent)]
    Layout(LayoutError),
    /// The length of the longest front that is UTF-8.
    #[error("error 60 not UTF-8 at {0}")]
    NotUtf8(usize),
    #[error("error 66 no memory")]
    NoMemory,
}

impl From<AllocError> for OpenError {
    ghost use Rattle.std.specs.Prelude.{◌≡◌};
    ghost use Rattle.opening.specs.declared.package.OpenError.TheVariants.{NoMemory};

    ghost from_gives = { λ _ e. e ≡ NoMemory };

    fn from(_error: AllocError) -> OpenError {
        OpenError::NoMemory
    }
}

impl From<TextError> for OpenError {
    ghost use Rattle.std.specs.Prelude.{◌≡◌};
    ghost use Rattle.opening.specs.declared.package.OpenError.TheVariants.{Text};

    ghost from_gives = { λ error e. e ≡ Text error };

    fn from(error: TextError) -> OpenError {
        OpenError::Text(error)
    }
}

impl From<BinError> for OpenError {
    ghost use Rattle.std.specs.Prelude.{◌≡◌};
    ghost use Rattle.opening.specs.declared.package.OpenError.TheVariants.{Binary};

    ghost from_gives = { λ error e. e ≡ Binary error };

    fn from(error: BinError) -> OpenError {
        OpenError::Binary(error)
    }
}

impl From<ResolveError> for OpenError {
    ghost use Rattle.std.specs.Prelude.{◌≡◌};
    ghost use Rattle.opening.specs.declared.package.OpenError.TheVariants.{Resolve};

    ghost from_gives = { λ error e. e ≡ Resolve error };

    fn from(error: ResolveError) -> OpenError {
        OpenError::Resolve(error)
    }
}

impl From<LayoutError> for OpenError {
    ghost use Rattle.std.specs.Prelude.{◌≡◌};
    ghost use Rattle.opening.specs.declared.package.OpenError.TheVariants.{Layout};

    ghost from_gives = { λ error e. e ≡ Layout error };

    fn from(error: LayoutError) -> OpenError {
        OpenError::Layout(error)
    }
}

/// What the last package reaches of its set: all of it, if the package stands alone.
#[derive(Drop)]
pub(crate) enum Last<'a> {
    Whole(&'a Resolve),
    Part(Resolve),
}

impl Last<'_> {
    /// The table of it.
    pub(crate) fn table(&self) -> &Resolve
        ensures { result.now ≡ last_table self.now }
    {
        match self {
            Last::Whole(set) => set,
            Last::Part(table) => table,
        }
    }
}

/// A package with those before it, which it may use: the table of this set, with the layouts of all its types.
#[derive(Debug, Drop)]
pub struct Package {
    resolve: Resolve,
    layouts: Layouts,
    pub ghost tower: { ∥ IsInTower resolve ∥₁ },
    ghost some: { 0 < length resolve.packages },
    ghost few: { length resolve.packages ≤ 64 },
    ghost laid_out: { layouts ≡ layouts_of resolve },
    ghost within: { ∥ AreWithin resolve ∥₁ },
}

impl Package {
    /// The last package of a set, with the layouts of all the set's types.
    pub(crate) fn of_set(alloc: Global, resolve: Resolve) -> Result<Package, LayoutError>
        requires tower { ∥ IsInTower resolve ∥₁ }
        requires some { 0 < length resolve.packages }
        requires few { length resolve.packages ≤ 64 }
        ensures ok { IfOk result (λ p. p.resolve ≡ resolve) }
        ensures within { IfOk result (λ _. AreWithin resolve) }
        ensures err { IfErr result (λ e. RefusesFirst e resolve) }
    {
        let layouts = Layouts::of(alloc, &resolve)?;
        Ok(Package { resolve, layouts })
    }

    /// The closed table of the last package.
    pub(crate) fn last(&self, alloc: Global) -> Result<Last<'_>, AllocError>
        ensures last { IfOk result (λ l. IsLast self.now.resolve (last_table l)) }
        ensures form { IfOk result (λ l. ∥ IsInPackageForm (last_table l)
            × All AreDistinct (package_scopes (last_table l)) ∥₁) }
    {
        alone_is_whole();
        let packages = self.resolve.packages.as_slice();
        if packages.len() == 1 {
            return Ok(Last::Whole(&self.resolve));
        }
        // A set has at most 64 packages.
        let own = own_package(packages) as u32;
        let table = restricted(alloc, &self.resolve, PackageId(own))?;
        Ok(Last::Part(table))
    }

    /// The table of the set: all packages, the last of which is the one that was opened behind the others.
    pub fn resolve(&self) -> &Resolve
        ensures { result.now ≡ self.now.resolve }
    {
        &self.resolve
    }

    /// The layouts of all types of the set.
    pub fn layouts(&self) -> &Layouts
        ensures layouts { result.now ≡ self.now.layouts }
        ensures laid_out { result.now ≡ layouts_of self.now.resolve }
        ensures within { ∥ AreWithin self.now.resolve ∥₁ }
    {
        &self.layouts
    }

    /// The types of the set, with their layouts.
    pub fn types(&self) -> Types<'_>
        ensures types { result ≡ self.now.resolve }
        ensures within { ∥ AreWithin self.now.resolve ∥₁ }
    {
        Types::new(&self.resolve, &self.layouts)
    }

    /// The same package, with the same packages before it.
    pub fn copy(&self, alloc: Global) -> Result<Package, AllocError>
        ensures { IfOk result (λ p. IsSamePackage p.resolve self.now.resolve) }
    {
        let resolve = copy_of(alloc, &self.resolve)?;
        match Layouts::of(alloc, &resolve) {
            Ok(layouts) => Ok(Package { resolve, layouts }),
            Err(LayoutError::NoMemory) => Err(AllocError),
            // The layouts of the same tables are within the limits.
            Err(LayoutError::TooDeep | LayoutError::TooLarge) => unreachable!(),
        }
    }
}

/// Opens a package that stands alone: `open_set` of it. A path, or an import, that names another package is 47.
pub fn open(alloc: Global, bytes: &[u8]) -> Result<Package, OpenError>
    ensures ok { IfOk result (λ p. IsOpened (bytes.now ∷ []) p.resolve) }
    ensures alone { IfOk result (λ p. IsAlone p.resolve) }
    ensures only { (r : Resolve) → IsOpened (bytes.now ∷ []) r
        → MatchResult result (λ p. IsSamePackage p.resolve r) IsWantOfMemory }
    ensures err { IfErr result (OpenRefuses (bytes.now ∷ [])) }
{
    open_set(alloc, &[bytes])
}
