//! Laws of sets.
ghost use Rattle.std.specs.Prelude.{All, Bool, List, ℕ};
ghost use Rattle.package_form.specs.Closed.{IsAlone, own_package};
ghost use Rattle.package_form.specs.Form.{IsInPackageForm};
ghost use Rattle.package_form.specs.Naming.{package_scopes};
ghost use Rattle.package_form.specs.Scope.{AreDistinct};
ghost use Rattle.package_sets.specs.Attached.{IsAttached};
ghost use Rattle.package_sets.specs.Follows.{OfAttached, OfImports, OfRestricted};
ghost use Rattle.package_sets.specs.Imports.{IsImportsOf};
ghost use Rattle.package_sets.specs.One.{AttachesAlone, AttachesOne, ImportsOne};
ghost use Rattle.package_sets.specs.Restricted.{IsRestricted};
ghost use Rattle.package_sets.specs.Tower.{IsInTower, IsSetOfNone, KeepsTower};
ghost use Rattle.tables.specs.declared.tables.Resolve.{Resolve};

use tables::Resolve;

/// A table without anything is a set: the one to which the first package is attached.
pub fn is_set_of_none(_resolve: &Resolve)
    ensures { IsSetOfNone _resolve.now }
{}

/// What a set is with a package more is one table, in which the package has one place.
pub fn attaches_one()
    ensures { (set closed : Resolve) → AttachesOne set closed }
{}

/// A package that reaches no other is, behind no package, a set as it stands.
pub fn attaches_alone()
    ensures { (set closed : Resolve) → AttachesAlone set closed }
{}

/// A package that stands alone reaches all of its set: its table is the set as it stands, in form.
pub fn alone_is_whole()
    ensures table { (r : Resolve) → ∥ IsInTower r ∥₁ → IsAlone r → IsRestricted r (own_package r.packages) r }
    ensures form { (r : Resolve) → ∥ IsInTower r ∥₁ → IsAlone r → ∥ IsInPackageForm r
        × All AreDistinct (package_scopes r) ∥₁ }
{}

/// What follows of a set with a package more.
pub fn of_attached()
    ensures { (set closed r : Resolve) (id : ℕ) → IsAttached set closed r id → OfAttached set closed r }
{}

/// A set stays in the tower with a package more. What was attached is the table of the last package, and the others
/// keep theirs.
pub fn keeps_tower()
    ensures { (set closed : Resolve) → KeepsTower set closed }
{}

/// The table of some interfaces of a set, with those that they reach, is one.
pub fn imports_one()
    ensures { (set : Resolve) (packages interfaces : List Bool) → ImportsOne set packages interfaces }
{}

/// What follows of the table of some interfaces of a set.
pub fn of_imports()
    ensures { (set : Resolve) (packages interfaces : List Bool) (r : Resolve)
        (n : IsImportsOf set packages interfaces r) → OfImports set packages interfaces r n }
{}

/// What follows of the table of one package of a set.
pub fn of_restricted()
    ensures { (set : Resolve) (own : ℕ) (r : Resolve) (n : IsRestricted set own r) → OfRestricted set own r n }
{}
