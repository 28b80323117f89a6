//! What holds of the tree and of the text of a package.
ghost use Rattle.tables.specs.declared.tables.Resolve.{Resolve};
ghost use Rattle.wit_tokens.specs.Syntax.{File};
ghost use Rattle.package_text.specs.Laws.{IsTreeOfClosed, IsTextOfClosed, IsTreeOfPackage, IsTextOfPackage};
ghost use Rattle.package_text.specs.Laws.{NestsAsText, HasOneTable, HasOneClosedTable};

use wit_print::canonical_text_is_read_back;

/// The tree that is written for a closed table is without faults behind its imports and resolves to it.
pub fn tree_is_of_closed_package()
    ensures { (r imports : Resolve) → IsTreeOfClosed r imports }
{}

/// The canonical text of a closed table is read as a tree without faults behind its imports that resolves to it.
pub fn text_is_of_closed_package()
    ensures { (r imports : Resolve) → IsTextOfClosed r imports }
{
    canonical_text_is_read_back();
}

/// A tree resolves behind its imports to one table that can be written.
pub fn tree_has_one_closed_table()
    ensures { (f : File) → HasOneClosedTable f }
{}

/// The tree that is written for a package that stands alone is without faults and resolves to it.
pub fn tree_is_of_package()
    ensures { (r : Resolve) → IsTreeOfPackage r }
{}

/// The canonical text of a package that stands alone is read as a tree without faults that resolves to it.
pub fn text_is_of_package()
    ensures { (r : Resolve) → IsTextOfPackage r }
{
    canonical_text_is_read_back();
}

/// Where no type of a package is more than 64 deep, those of its tree nest as in a text.
pub fn types_nest_as_in_a_text()
    ensures { (r : Resolve) → NestsAsText r }
{}

/// A tree resolves to one table in form whose names differ.
pub fn tree_has_one_table()
    ensures { (f : File) → HasOneTable f }
{}
