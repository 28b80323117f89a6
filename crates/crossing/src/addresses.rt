//! Addresses in the two memories.

/// An address in the source, and the one in the target that what begins there crosses to.
#[derive(Clone, Copy)]
pub struct Addresses {
    pub from: usize,
    pub to: usize,
}
