//! The blocks that values ask for when they cross, listed ahead: an alignment and a size each, in their order.
//!
//! The walk reads and tests each node in the source as a crossing does, and writes nothing but the requests: it needs
//! no memory to cross to, and takes none of the host. Depends on `lift_lower` (the parts of one node).

mod flat;
mod request;
mod walk;
mod ways;

pub use request::{Request, Untold};
pub use walk::Walk;
