//! The interface that a path names.
ghost use Rattle.std.specs.Prelude.{◌≡◌, ◌<◌, ℕ, IfOk, IfErr, Some};
ghost use Rattle.wit_tokens.specs.View.{path_view};
ghost use Rattle.tree_meaning.specs.Declarations.{path_interface};
ghost use Rattle.tree_meaning.specs.Imports.{interfaces_of};
ghost use Rattle.tree_meaning.specs.Resolves.{path_place};

use crate::imports::{import_place, place_behind};
use crate::names::Names;
use atoms::Label;
use package_names::IndexedTable;
use std::alloc::AllocError;
use wit_tokens::wit_syntax::Path;

/// The place of the interface that a path names: among these of its own package, which stand behind the imports, or
/// among the imports. No memory where no number can tell it.
pub fn interface_place(
    imports: &IndexedTable<'_>,
    names: &Names,
    path: &Path,
) -> Result<Option<usize>, AllocError>
    ensures ok { IfOk result (λ o. o ≡ path_place (interfaces_of imports.now) names.now (path_view path.now)) }
    ensures err { IfErr result (λ _. (n : ℕ)
        × (path_place (interfaces_of imports.now) names.now (path_view path.now) ≡ Some n) × (usize.MAX < n)) }
{
    match path {
        Path::Local(name) => match names.place_of(name) {
            Some(place) => Ok(Some(place_behind(imports, place)?)),
            None => Ok(None),
        },
        Path::Foreign { package, interface } => Ok(import_place(imports, package, interface)),
    }
}

/// The own name of the interface that a path names.
pub fn interface_label(path: &Path) -> &Label
    ensures { result.now ≡ path_interface (path_view path.now) }
{
    match path {
        Path::Local(name) => name,
        Path::Foreign { interface, .. } => interface,
    }
}
