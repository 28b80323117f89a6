//! Laws of the packages in form whose names differ in each of their scopes.
ghost use Rattle.std.specs.Prelude.{All};
ghost use Rattle.package_form.specs.Laws.{IsLabelled, NamesOneFunction, NamesTypesApart, ClosesByNames};

use tables::laws::closes_alike;
use tables::{Interface, Resolve};

/// The names of interfaces are labels.
fn are_labelled(interfaces: &[Interface])
    ensures { All IsLabelled interfaces.now }
{
    for interface in interfaces {
        let _ = interface.name.as_bytes();
    }
}

/// A function that is found by its names is the only one of these names.
pub fn names_one_function(resolve: &Resolve)
    ensures { NamesOneFunction resolve.now }
{
    are_labelled(resolve.interfaces.as_slice());
}

/// No interface has two types of one name.
pub fn names_types_apart(resolve: &Resolve)
    ensures { NamesTypesApart resolve.now }
{
    are_labelled(resolve.interfaces.as_slice());
}

/// The closed types of a table are what the package's names alone unfold to.
pub fn closes_by_names(resolve: &Resolve)
    ensures { ClosesByNames resolve.now }
{
    names_types_apart(resolve);
    closes_alike(resolve);
}
