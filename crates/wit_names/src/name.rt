//! Names, and where they are written.

/// A name that is written somewhere in a set: names with the same letters have the same id. A leading `%` is no part of
/// a name.
#[derive(Clone, Copy, PartialEq, Eq, Hash)]
pub struct NameId(pub usize);

/// The name of a package. Versions are compared by their letters, so `1.0` and `1.0.0` are two.
#[derive(Clone, Copy, PartialEq, Eq, Hash)]
pub struct PackageName {
    pub namespace: NameId,
    pub name: NameId,
    /// What is after the `@`, if there is one.
    pub version: Option<NameId>,
}

/// A name in a file: the file's index in the set, the first word of the name, and its node. A name is one word, but for
/// one whose words are joined by `_`, which is a fault of its own.
#[derive(Clone, Copy, PartialEq, Eq)]
pub struct Site {
    pub file: usize,
    pub word: usize,
    pub node: usize,
}
