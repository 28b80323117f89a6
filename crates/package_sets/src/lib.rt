//! Sets of packages, as tables: the table of one package of a set, which begins with what the package reaches of the
//! others, the table of what a package may import from the set, and the set with such a package behind it.
//!
//! `IsRestricted` in `specs/Restricted.antt` defines the table of one package, and `IsImportsOf` in
//! `specs/Imports.antt` that of imports. `HasImports` in `specs/Joining.antt` says when the imports of such a table are
//! the set's. `IsAttached` in `specs/Attached.antt` defines the set with it. `specs/Follows.antt` and
//! `specs/Tower.antt` have what follows of these, as laws. It stands on `set_rows`, which says what a package reaches.
//! The crate knows neither text nor bytes.
#![tactic(auto)]

mod attachment;
mod importing;
mod joining;
pub mod laws;
mod part;
mod restriction;
pub mod same;

pub use attachment::{MOST_PACKAGES, fitting, put_behind};
pub use importing::imports;
pub use joining::{Joined, imports as imported_interfaces, is_same_package};
pub use restriction::restricted;
