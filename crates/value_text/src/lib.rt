//! Values as compact texts of JSON, written where the caller wants them, or only counted. No tree of JSON is made, and
//! no memory of the host is taken but the stack.
#![tactic(auto)]

mod cases;
mod flat;
mod held;
mod orders;
mod puts;
mod rows;
mod scalars;
mod texts;

pub use held::Held;
pub use orders::label_orders;
pub use puts::TooLong;
