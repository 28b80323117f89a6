//! Names in C: those of labels, and the names of a header, each taken once.
//!
//! `c_word` and `c_label` make names of labels. `Names::take` gives a name that nothing else has. `ShortNames` has
//! names without that of their package. `short_key` cuts long names, and `push_constant` writes a text as a constant.
//! It knows no types. It stands on `atoms` and `text_builder`.

mod keys;
mod names;
mod short_names;
mod texts;
mod words;

pub use keys::short_key;
pub use names::Names;
pub use short_names::{NameKind, ShortNames};
pub use texts::push_constant;
pub use words::{c_label, c_word};
