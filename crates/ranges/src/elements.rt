//! Where elements of a list stand.

/// Elements side by side: where the first begins in the source, where it crosses to in the target, and how many they
/// are.
#[derive(Clone, Copy)]
pub struct Elements {
    pub from: usize,
    pub to: usize,
    pub count: usize,
}

/// Elements of one memory: where the first begins, how many bytes each has, and how many they are.
#[derive(Clone, Copy)]
pub(crate) struct Strided {
    pub from: usize,
    pub step: usize,
    pub count: usize,
}
