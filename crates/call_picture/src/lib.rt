//! One call, and what it did to the memories of both sides, for a person who writes a host.
//!
//! `Call::picture` makes the call over two fresh memories and writes what came of it: the core values on each side, the
//! blocks that were requested, the bytes in them field by field, and the answer or the trap. It does so in lines of
//! text, or as an SVG with arrows from pointers to blocks. The call is that of `adapter`, by halves, and the offsets
//! are those of `layout_picture`. It stands on these, on `memory`, on `value_json` and on `svg_drawing`.
#![tactic(auto)]

mod blocks;
mod call;
mod core_values;
mod course;
mod json;
mod noted;
mod page;
mod picture;
mod place;
mod steps;
mod viewer;
mod words;

pub use call::Call;
pub use json::JsonError;
pub use layout_picture::Form;
pub use picture::Picture;
