//! Sets of packages.
ghost use Rattle.std.specs.Prelude.{◌≡◌, ◌<◌, ◌≤◌, ◌⊎◌, ℕ, true, All, IsTrue, IfOk, IfErr, OnOk, OnErr, MatchResult};
ghost use Rattle.std.specs.Prelude.{length};
ghost use Rattle.package_form.specs.Closed.{IsAlone};
ghost use Rattle.package_form.specs.Form.{IsInPackageForm};
ghost use Rattle.package_form.specs.Naming.{package_scopes};
ghost use Rattle.package_form.specs.Scope.{AreDistinct};
ghost use Rattle.package_sets.specs.Attached.{HasRoom, IsAttached, IsRefused};
ghost use Rattle.package_sets.specs.Joined.{FitsBehind, joined_places};
ghost use Rattle.package_sets.specs.SetForm.{IsEmpty};
ghost use Rattle.package_sets.specs.Tower.{IsInTower};
ghost use Rattle.tables.specs.declared.error.ResolveError.TheVariants.{SetLimit, NoMemory, SamePackage};
ghost use Rattle.package_adding.specs.Added.{AddsComponent, ComponentIsAdded, ComponentNotAdded, IsRefusedBehind};
ghost use Rattle.package_adding.specs.Added.{AddsTree, IsNewName, HasName, TreeIsAdded, TreeNotAdded, HasTable};
ghost use Rattle.package_adding.specs.Added.{KeepsTables, IsWantOfMemoryToAdd};
ghost use Rattle.package_sets.specs.BehindImports.{IsBehindImports};
ghost use Rattle.package_text.specs.Writable.{IsWritable};
ghost use Rattle.tree_meaning.specs.Resolves.{file_fits};
ghost use Rattle.tables.specs.Same.{IsSamePackage};
ghost use Rattle.tables.specs.declared.tables.Resolve.{Resolve};
ghost use Rattle.tree_meaning.specs.Declarations.{package_named};
ghost use Rattle.wit_tokens.specs.View.{file_view};

use crate::imported::is_behind_imports;
use crate::tree::{closed_over, has_entries};
use ctype_bin::RawComponent;
use package_sets::laws::{attaches_alone, attaches_one, is_set_of_none};
use package_sets::{Joined, MOST_PACKAGES, fitting, put_behind};
use package_text::names_are_labels;
use std::alloc::{AllocError, Global};
use tables::{PackageId, Resolve, ResolveError, Sequence};
use tree_scopes::{has_package, package_name};
use wit_component::closed_from_component;
use wit_tokens::wit_syntax::Ast;

/// Packages that use each other, as one table: each behind those that it uses, at most 64. None is empty, and none has
/// more than 65,535 type entries with what it reaches.
#[derive(Debug, Drop)]
pub struct PackageSet {
    resolve: Resolve,
    ghost tower: { ∥ IsInTower resolve ∥₁ },
    pub ghost few: { length resolve.packages ≤ 64 },
}

/// A table of nothing.
fn no_table(alloc: Global) -> Resolve
    ensures empty { IsEmpty result }
    ensures tower { ∥ IsInTower result ∥₁ }
{
    let resolve = Resolve {
        packages: Sequence::new(Vec::new(alloc)),
        interfaces: Sequence::new(Vec::new(alloc)),
        worlds: Sequence::new(Vec::new(alloc)),
        definitions: Sequence::new(Vec::new(alloc)),
    };
    is_set_of_none(&resolve);
    resolve
}

impl PackageSet {
    /// A set of no package. Takes no memory.
    pub fn new(alloc: Global) -> PackageSet
        ensures { IsEmpty result.resolve }
    {
        PackageSet {
            resolve: no_table(alloc),
        }
    }

    /// The table of all packages, one behind the other.
    pub fn resolve(&self) -> &Resolve
        ensures { result.now ≡ self.now.resolve }
    {
        &self.resolve
    }

    /// The table itself.
    pub fn into_resolve(self) -> Resolve
        ensures { result ≡ self.resolve }
    {
        self.resolve
    }

    /// That there is room for a package more. 49 where there are 64.
    pub fn has_room(&self) -> Result<(), ResolveError>
        ensures ok { OnOk result (HasRoom self.now.resolve) }
        ensures err { IfErr result (λ e. (e ≡ SetLimit) × (¬ HasRoom self.now.resolve)) }
    {
        if self.resolve.packages.len() < MOST_PACKAGES {
            Ok(())
        } else {
            Err(ResolveError::SetLimit)
        }
    }

    /// Whether this is the table of a first package that reaches no other.
    fn begins_with(&self, closed: &Resolve) -> bool
        ensures first { IsTrue result → length self.now.resolve.packages ≡ 0 }
        ensures alone { IsTrue result → IsAlone closed.now }
    {
        self.resolve.packages.len() == 0 && closed.packages.len() == 1
    }

    /// The set is the table of a first package that reaches no other, as it stands.
    fn begin(&mut self, closed: Resolve) -> PackageId
        requires first { length self.old.resolve.packages ≡ 0 }
        requires alone { IsAlone closed }
        requires form { ∥ IsInPackageForm closed ∥₁ }
        requires distinct { ∥ All AreDistinct (package_scopes closed) ∥₁ }
        ensures ok { IsAttached self.old.resolve closed self.new.resolve result.0 }
        ensures behind { IsBehindImports self.old.resolve closed }
        ensures again { HasTable self.new.resolve result.0 closed }
        ensures earlier { KeepsTables self.old.resolve self.new.resolve }
    {
        attaches_alone();
        self.resolve = closed;
        PackageId(0)
    }

    /// Puts the own part of a closed table behind the set, where it fits. The set is as it was where there is no
    /// memory.
    fn put(&mut self, alloc: Global, closed: &Resolve, to: &Joined) -> Result<PackageId, AllocError>
        requires fits { FitsBehind self.old.resolve closed.now (joined_places to.now) }
        requires form { ∥ IsInPackageForm closed.now ∥₁ }
        requires distinct { ∥ All AreDistinct (package_scopes closed.now) ∥₁ }
        ensures ok { IfOk result (λ id. IsAttached self.old.resolve closed.now self.new.resolve id.0) }
        ensures again { IfOk result (λ id. IsBehindImports self.old.resolve closed.now
            → HasTable self.new.resolve id.0 closed.now) }
        ensures earlier { OnOk result (KeepsTables self.old.resolve self.new.resolve) }
        ensures same { OnErr result (self.new ≡ self.old) }
    {
        let set = std::mem::replace(&mut self.resolve, no_table(alloc));
        match put_behind(alloc, set, closed, to) {
            Ok((resolve, id)) => {
                self.resolve = resolve;
                Ok(id)
            }
            Err(set) => {
                self.resolve = set;
                Err(AllocError)
            }
        }
    }

    /// Puts the own part of a closed table behind the set. The table of a first package that reaches no other is the
    /// set's as it stands.
    fn attach(&mut self, alloc: Global, closed: Resolve) -> Result<PackageId, ResolveError>
        requires form { ∥ IsInPackageForm closed ∥₁ }
        requires distinct { ∥ All AreDistinct (package_scopes closed) ∥₁ }
        ensures ok { IfOk result (λ id. IsAttached self.old.resolve closed self.new.resolve id.0) }
        ensures again { IfOk result (λ id. IsBehindImports self.old.resolve closed
            → HasTable self.new.resolve id.0 closed) }
        ensures earlier { OnOk result (KeepsTables self.old.resolve self.new.resolve) }
        ensures err { IfErr result (IsRefused self.old.resolve closed) }
        ensures same { OnErr result (self.new ≡ self.old) }
    {
        if self.begins_with(&closed) {
            return Ok(self.begin(closed));
        }
        let to = fitting(alloc, &self.resolve, &closed)?;
        Ok(self.put(alloc, &closed, &to)?)
    }

    /// Puts the own part of a component's closed table behind the set. 44 also where its imports aren't just those of
    /// the set, in its order.
    fn attach_component(
        &mut self,
        alloc: Global,
        closed: Resolve,
    ) -> Result<PackageId, ResolveError>
        requires form { ∥ IsInPackageForm closed ∥₁ }
        requires distinct { ∥ All AreDistinct (package_scopes closed) ∥₁ }
        ensures ok { IfOk result (λ id. IsAttached self.old.resolve closed self.new.resolve id.0) }
        ensures behind { OnOk result (IsBehindImports self.old.resolve closed) }
        ensures again { IfOk result (λ id. HasTable self.new.resolve id.0 closed) }
        ensures earlier { OnOk result (KeepsTables self.old.resolve self.new.resolve) }
        ensures err { IfErr result (IsRefusedBehind self.old.resolve closed) }
        ensures same { OnErr result (self.new ≡ self.old) }
    {
        if self.begins_with(&closed) {
            return Ok(self.begin(closed));
        }
        let to = fitting(alloc, &self.resolve, &closed)?;
        if !is_behind_imports(alloc, &self.resolve, &closed)? {
            return Err(ResolveError::NotThisShape);
        }
        Ok(self.put(alloc, &closed, &to)?)
    }

    /// Adds the package of a component behind the others, and answers its id. The interfaces that the component imports
    /// are those of earlier packages. 49 where there are 64 packages; then 43, 44 and 40 as `closed_from_component`
    /// tests them; then 48 where there is a package of this name, 47 for the first package that it imports from and
    /// that isn't there, and 44 where an interface that it imports isn't there or differs from the earlier package's,
    /// or where its imports stand in another order than the set's; 46 where memory is wanting. The set is as it was
    /// then. (Binary.md)
    pub fn add_raw(&mut self, alloc: Global, raw: &RawComponent) -> Result<PackageId, ResolveError>
        ensures ok { IfOk result (λ id. ComponentIsAdded raw.now self.old.resolve self.new.resolve id.0) }
        ensures known { IfOk result (λ id. id.0 < length self.new.resolve.packages) }
        ensures earlier { OnOk result (KeepsTables self.old.resolve self.new.resolve) }
        ensures only { (closed r : Resolve) (id : ℕ) → AddsComponent raw.now self.old.resolve closed r id
            → MatchResult result (λ _. IsSamePackage self.new.resolve r) IsWantOfMemoryToAdd }
        ensures err { IfErr result (ComponentNotAdded raw.now self.old.resolve) }
        ensures same { OnErr result (self.new ≡ self.old) }
    {
        attaches_one();
        self.has_room()?;
        let closed = closed_from_component(alloc, raw)?;
        names_are_labels(&closed);
        let id = self.attach_component(alloc, closed)?;
        Ok(id)
    }

    /// That the set has no package of the tree's name. 48 where it has one.
    fn lacks_package(&self, alloc: Global, ast: &Ast) -> Result<(), ResolveError>
        ensures ok { OnOk result (IsNewName (file_view ast.now) self.now.resolve) }
        ensures err { IfErr result (λ e. (e ≡ NoMemory)
            ⊎ ((e ≡ SamePackage (package_named (file_view ast.now))) × HasName (file_view ast.now) self.now.resolve)) }
    {
        if has_package(self.resolve.packages.as_slice(), &ast.package) {
            let name = package_name(alloc, &ast.package)?;
            return Err(ResolveError::SamePackage(name));
        }
        Ok(())
    }

    /// Adds the package of a syntax tree behind the others, and answers its id. What its paths name of other packages
    /// are interfaces of earlier packages of just that namespace, name and version. 49 where there are 64 packages, 43
    /// where the tree has neither interface nor world, 48 where there is a package of its name; then 40, 47, 41, 42 and
    /// 45 as `closed_table` tests them over the interfaces that the paths name, with what these reach; 46 where memory
    /// is wanting. 47 also where a use of a package names no type, as in no text, and nothing else is used of it. The
    /// set is as it was then. (WIT.md)
    pub fn add_ast(&mut self, alloc: Global, ast: &Ast) -> Result<PackageId, ResolveError>
        ensures ok { IfOk result (λ id. TreeIsAdded (file_view ast.now) self.old.resolve self.new.resolve id.0) }
        ensures known { IfOk result (λ id. id.0 < length self.new.resolve.packages) }
        ensures earlier { OnOk result (KeepsTables self.old.resolve self.new.resolve) }
        ensures only { (closed r : Resolve) (id : ℕ) → AddsTree (file_view ast.now) self.old.resolve closed r id
            → ∥ IsWritable closed ∥₁ → file_fits (file_view ast.now) ≡ true
            → MatchResult result (λ _. IsSamePackage self.new.resolve r) IsWantOfMemoryToAdd }
        ensures err { IfErr result (TreeNotAdded (file_view ast.now) self.old.resolve) }
        ensures same { OnErr result (self.new ≡ self.old) }
    {
        attaches_one();
        self.has_room()?;
        has_entries(ast)?;
        self.lacks_package(alloc, ast)?;
        let closed = closed_over(alloc, &self.resolve, ast)?;
        let id = self.attach(alloc, closed)?;
        Ok(id)
    }
}
