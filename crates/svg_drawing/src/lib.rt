//! Pictures as SVG documents: rectangles, texts and arrows, in the colors of a light page or a dark one.
//!
//! A `Drawing` takes one shape after another, and `finish` writes it with its size. The page behind it is as large as
//! what was drawn. Each text has a place of its own, so that programs with other fonts draw it alike. A `Sketch` is a
//! page of lines, of rows of bytes, and of arrows between them. It stands on `text_builder`.
#![tactic(auto)]

mod drawing;
mod escaping;
mod sketch;
mod style;

pub use drawing::{Area, CHARACTER, Drawing, Point, text_width};
pub use sketch::{Level, Sketch, Start};
pub use style::{Fill, Ink};
