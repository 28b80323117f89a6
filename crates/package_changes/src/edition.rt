//! One version of a package.
ghost use Rattle.std.specs.Prelude.{◌≡◌};
ghost use Rattle.layout.specs.Layout.{layouts_of};

use layout::Layouts;
use tables::Resolve;

/// One version of a package, with what it uses: its table, and the layouts of that.
#[derive(Clone, Copy)]
pub struct Edition<'a> {
    pub table: &'a Resolve,
    pub layouts: &'a Layouts,
    ghost laid_out: { layouts.now ≡ layouts_of table.now },
}

impl<'a> Edition<'a> {
    /// The version that has this table.
    pub fn new(table: &'a Resolve, layouts: &'a Layouts) -> Edition<'a>
        requires { layouts.now ≡ layouts_of table.now }
        ensures { result.table.now ≡ table.now }
    {
        Edition { table, layouts }
    }
}
