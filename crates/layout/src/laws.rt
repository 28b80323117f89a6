//! Laws of layouts.
ghost use Rattle.layout.specs.Named.{StandsForOne};

use tables::Resolve;

/// Each type of a table stands for one type alone, once used names and new names are followed.
pub fn stands_for_one(_resolve: &Resolve)
    ensures { StandsForOne _resolve.now }
{}
