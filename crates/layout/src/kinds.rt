//! The flat kinds of types side by side.
ghost use Rattle.std.specs.Prelude.{◌≡◌};
ghost use Rattle.layout.specs.Kinds.{count_of};

use crate::kind_list::KindList;

/// How many flat kinds stand side by side at most; beyond it the values stand in memory.
pub const MAX_FLAT: usize = 16;

/// The flat kinds of a type or of types side by side, where they are at most sixteen.
#[derive(Debug, Drop)]
pub enum Kinds {
    Flat(KindList),
    Spilled,
}

impl Kinds {
    pub fn copy(&self) -> Kinds
        ensures { result ≡ self.now }
    {
        match self {
            Kinds::Flat(kinds) => Kinds::Flat(kinds.copy()),
            Kinds::Spilled => Kinds::Spilled,
        }
    }

    /// How many they are, where they are at most sixteen.
    pub fn count(&self) -> Option<usize>
        ensures { result ≡ count_of self.now }
    {
        match self {
            Kinds::Flat(kinds) => Some(kinds.len()),
            Kinds::Spilled => None,
        }
    }
}
