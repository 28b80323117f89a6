//! That a tree's names make full names.
ghost use Rattle.std.specs.Prelude.{All, IsTrue};
ghost use Rattle.wit_tokens.specs.FullNames.{file_has_full_names, has_label};
ghost use Rattle.wit_tokens.specs.View.{file_view, item_view};

use wit_tokens::wit_syntax::{Ast, Item};

/// The name of an interface is a label.
fn has_label(item: &Item)
    ensures { IsTrue (has_label (item_view item.now)) }
{
    match item {
        Item::Interface(interface) => {
            let _ = interface.name.as_bytes();
        }
        Item::World(_) => {}
    }
}

/// The names of interfaces are labels.
fn have_labels(items: &[Item])
    ensures { All (λ item. IsTrue (has_label (item_view item))) items.now }
{
    for item in items {
        has_label(item);
    }
}

/// The names of a tree's package and interfaces make full names, as their types promise. (WIT.md, "Package Names")
pub fn names_are_full(ast: &Ast)
    ensures { IsTrue (file_has_full_names (file_view ast.now)) }
{
    have_labels(ast.items.as_slice());
}
