//! Laws of opened packages.
ghost use Rattle.std.specs.Prelude.{◌≡◌, ◌∷◌, ◌++◌, [], ℕ, List};
ghost use Rattle.ctype_bin.specs.declared.component.RawComponent.{RawComponent};
ghost use Rattle.opening.specs.Alone.{OpensAlone, AloneRefuses};
ghost use Rattle.opening.specs.Followed.{IsFollowed};
ghost use Rattle.opening.specs.Opening.{IsOpened, IsPrintedAs, IsWrittenAs, OpenRefuses};
ghost use Rattle.opening.specs.Sets.{IsBinaryOf};
ghost use Rattle.opening.specs.Sole.{ComponentIsInOrder, FileIsSole, RawIsSole, TreeIsInOrder};
ghost use Rattle.opening.specs.Stays.{RowsStay};
ghost use Rattle.opening.specs.ToldSet.{SetIsTold};
ghost use Rattle.opening.specs.declared.package.OpenError.{OpenError};
ghost use Rattle.tables.specs.Same.{IsSamePackage};
ghost use Rattle.tables.specs.declared.tables.Resolve.{Resolve};
ghost use Rattle.wit_tokens.specs.Syntax.{File};

use package_text::laws::{text_is_of_closed_package, types_nest_as_in_a_text};
use wit_text::texts_have_full_names;

/// What is opened of one input, in the words for a package that names no other: a text each of whose names stands for
/// something of its own, or a component that imports nothing.
pub fn opens_alone()
    ensures { (bytes : List ℕ) (r : Resolve) → OpensAlone bytes r }
{
    texts_have_full_names();
}

/// Why one input isn't opened, in the words for a package that names no other.
pub fn refuses_alone()
    ensures { (bytes : List ℕ) (e : OpenError) → OpenRefuses (bytes ∷ []) e → AloneRefuses bytes e }
{}

/// What is written of a package is opened as the same package behind the same packages: its binary, and its text.
pub fn written_opens_again()
    ensures binary { (earlier : List (List ℕ)) (last bytes : List ℕ) (r : Resolve) → IsOpened (earlier ++ last ∷ []) r
        → IsWrittenAs bytes r
        → ∥ IsOpened (earlier ++ bytes ∷ []) r ∥₁ }
    ensures text { (earlier : List (List ℕ)) (last bytes : List ℕ) (r : Resolve) → IsOpened (earlier ++ last ∷ []) r
        → IsPrintedAs bytes r
        → ∥ IsOpened (earlier ++ bytes ∷ []) r ∥₁ }
{
    text_is_of_closed_package();
    types_nest_as_in_a_text();
}

/// The set of some packages, told by names: each is behind the rows of those before it, which stay, and each of its
/// names stands for the row that it names, an own one or an earlier package's.
pub fn sets_are_told()
    ensures { (inputs : List (List ℕ)) (r : Resolve) → SetIsTold inputs r }
{}

/// Rows behind a table leave all as it was that is asked of the rows that were there: closed types, labels and
/// functions.
pub fn rows_stay()
    ensures { (old new : Resolve) → RowsStay old new }
{}

/// A set with one package more is told of one table alone: what a file's names tell, and what a component's tell, where
/// the package's rows come after those of the set, in order. What is added of a file or of a component is that table.
pub fn added_tables_are_sole()
    ensures text { (f : File) (set r s : Resolve) → FileIsSole f set r s }
    ensures binary { (raw : RawComponent) (set r s : Resolve) → RawIsSole raw set r s }
    ensures of_text { (f : File) (set closed r : Resolve) (id : ℕ) → TreeIsInOrder f set closed r id }
    ensures of_binary { (raw : RawComponent) (set closed r : Resolve) (id : ℕ) → ComponentIsInOrder raw set closed r id }
{}

/// Packages that are the same are one package: what is opened as the one is opened as the other, and what is written of
/// the one is written of the other. So are the copy of `Package::copy` and what it is a copy of.
pub fn same_packages_are_one()
    ensures one { (a b : Resolve) → IsSamePackage a b → a ≡ b }
    ensures opened { (inputs : List (List ℕ)) (a b : Resolve) → IsSamePackage a b → IsOpened inputs a
        → IsOpened inputs b }
    ensures binary { (bytes : List ℕ) (a b : Resolve) → IsSamePackage a b → IsWrittenAs bytes a → IsWrittenAs bytes b }
    ensures text { (bytes : List ℕ) (a b : Resolve) → IsSamePackage a b → IsPrintedAs bytes a → IsPrintedAs bytes b }
{}

/// The binary of a package's closed table is read as this table, where each index of its component is followed to the
/// declaration that took it, and each declaration to the name under which it is exported.
pub fn binaries_are_followed()
    ensures { (bytes : List ℕ) (closed : Resolve) → IsBinaryOf bytes closed → ∥ IsFollowed bytes closed ∥₁ }
{}
