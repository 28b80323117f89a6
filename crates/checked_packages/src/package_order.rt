//! The order of packages: each after those that it depends on, or some that depend on each other.
//!
//! `arranged` takes, for each package, the places of those that it depends on. It returns all places in order, or a
//! ring: each depends on the next, and the last on the first. The definition of an order is that of `placement`, which
//! says that there is a cycle and not which. It stands on `placement` and on `tables` for a sequence.

mod order;
mod ring;

pub use order::{Arrangement, arranged};
