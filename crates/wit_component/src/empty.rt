//! Whether a raw component is empty.
ghost use Rattle.std.specs.Prelude.{◌≡◌};
ghost use Rattle.ctype_format.specs.View.{type_view};
ghost use Rattle.ctype_bin.specs.FileView.{raw_component_view};
ghost use Rattle.wit_component.specs.FromComponent.{has_no_decls, is_empty_package};

use ctype_bin::{RawComponent, RawType};

#[tactic(auto, using(ctype_format::proofs::ScopedTypeViews::views), unfolding(ctype_format::specs::View::type_view))]
fn has_no_decls(ty: &RawType) -> bool
    ensures { result ≡ has_no_decls (type_view ty.now) }
{
    match ty {
        RawType::Component(decls) => decls.as_slice().is_empty(),
        RawType::Defined(_) | RawType::Function(_) | RawType::Instance(_) => false,
    }
}

/// Whether the one type of the component is a component type without declarations.
pub fn is_empty_package(raw: &RawComponent) -> bool
    ensures { result ≡ is_empty_package (raw_component_view raw.now).types }
{
    match raw.types() {
        [ty] => has_no_decls(ty),
        _ => false,
    }
}
