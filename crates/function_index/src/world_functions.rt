//! Functions of worlds, found by the full name of the world, the side and their own name.

mod find;
mod name;

pub use find::world_function;
