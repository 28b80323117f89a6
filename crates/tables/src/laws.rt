//! Laws of the tables.
ghost use Rattle.tables.specs.Package.{ClosesAlike};
ghost use Rattle.tables.specs.Labelled.{ErasesToClosed};
ghost use Rattle.tables.specs.Standard.{HasStandardTypes};

use crate::tables::Resolve;

/// The closed types of a table are what the package's names alone unfold to, where no interface has two types
/// of one name.
pub fn closes_alike(_resolve: &Resolve)
    ensures { ClosesAlike _resolve.now }
{}

/// The types of a package are ones that a package can have: no record, variant or flags type is empty, and none
/// is above the limits.
pub fn types_are_standard(_resolve: &Resolve)
    ensures { HasStandardTypes _resolve.now }
{}

/// The closed type of a type of the package is its labelled type without the labels.
pub fn erases_to_closed(_resolve: &Resolve)
    ensures { ErasesToClosed _resolve.now }
{}
