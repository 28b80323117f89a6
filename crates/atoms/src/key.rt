//! Hashers with a key that is drawn from an input, so that none who writes the input can choose names that collide.
ghost use Rattle.std.specs.Prelude.{◌≡◌};
ghost use Rattle.std.specs.Hash.DefaultHasher.{initial, write};
ghost use Rattle.atoms.specs.Key.{keyed_by};

use crate::hasher::NameHasher;
use std::hash::{BuildHasher, DefaultHasher, Hasher};

/// What was written of an input's names.
#[derive(Clone, Copy)]
pub struct NameKey {
    pub written: DefaultHasher,
}

impl NameKey {
    /// No name was written.
    pub fn new() -> NameKey
        ensures { result.written ≡ initial }
    {
        NameKey {
            written: DefaultHasher::new(),
        }
    }

    /// Writes a name.
    pub fn write(&mut self, name: &[u8])
        ensures { self.new.written ≡ write self.old.written name.now }
    {
        self.written.write(name);
    }

    /// Hashers whose key is made of all names that were written.
    pub fn state(self) -> KeyedState
        ensures { result.first ≡ keyed_by self.written }
    {
        let low = self.written.finish();
        let mut behind = self.written;
        behind.write_u64(low);
        let first = NameHasher {
            state: low,
            multiplier: behind.finish(),
        };
        KeyedState { first }
    }
}

/// Makes hashers that begin with a key.
#[derive(Clone, Copy)]
pub struct KeyedState {
    pub first: NameHasher,
}

impl BuildHasher for KeyedState {
    type Hasher = NameHasher;

    ghost build_hasher = { λ s. s.first };

    fn build_hasher(&self) -> NameHasher {
        self.first
    }
}
