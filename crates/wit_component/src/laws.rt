//! Laws of components.
ghost use Rattle.wit_component.specs.Laws.{FollowsComponent};

use ctype_bin::RawComponent;

/// A component that stands for a package whose names differ is read as that package, where each index is followed to
/// the declaration that took it, and each declaration to the name under which it is exported.
pub fn follows(_raw: &RawComponent)
    ensures { FollowsComponent _raw.now }
{}
