//! Values of types, each of its own.

ghost use Rattle.std.specs.Prelude.{◌≡◌, ◌↔◌, IsTrue, map};
ghost use Rattle.canonical_abi.specs.Values.{HaveTypes};
ghost use Rattle.layout.specs.Layout.{layouts_of};
ghost use Rattle.values.specs.Members.{fields_of_types, AreAllInside};
ghost use Rattle.values.specs.Val.{value_of};

use layout::Layouts;
use lift_lower::{Val, has_type};
use tables::{Resolve, ValType};

/// Whether these are values of these types, each of its own.
pub fn have_types(resolve: &Resolve, layouts: &Layouts, types: &[ValType], values: &[Val]) -> bool
    requires laid_out { layouts.now ≡ layouts_of resolve.now }
    requires inside { AreAllInside resolve.now types.now }
    ensures { IsTrue result ↔ HaveTypes (map value_of values.now) (fields_of_types resolve.now types.now) }
{
    if values.len() != types.len() {
        return false;
    }
    for (i, value) in values.iter().enumerate() {
        let ty = types[i];
        if !has_type(resolve, layouts, ty, value) {
            return false;
        }
    }
    true
}
