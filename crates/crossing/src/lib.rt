//! Values that cross from one linear memory to another, node by node, in the order of the Canonical ABI.
//!
//! No tree of values is made, and no memory of the host is taken: each node is read and tested in the source, its block
//! is asked for in the target, and it is written there before the next one is read. Of a list the elements at its front
//! cross many at a time, if their type allows it. Depends on `lift_lower` (the parts of one node) and on any `Guest`,
//! honest or not.
#![tactic(auto)]

mod addresses;
mod core_values;
mod flat;
mod fronts;
mod leaves;
mod lists;
mod records;
mod stopped;
mod texts;
mod walk;
mod ways;

pub use addresses::Addresses;
pub use stopped::Stopped;
pub use walk::{Fields, Walk};
pub use ways::{Parameters, Returned};
