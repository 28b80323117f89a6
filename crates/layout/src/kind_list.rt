//! Short lists of flat kinds.
ghost use Rattle.std.specs.Prelude.{◌≡◌, ◌<◌, ◌≤◌, ◌++◌, ◌∷◌, [], length};

use canonical_abi::CoreKind;
use std::marker::Model;

/// How many kinds there is room for.
const ROOM: usize = 17;

/// At most seventeen flat kinds, in eighteen bytes.
#[derive(Debug, Drop)]
pub struct KindList {
    kinds: [CoreKind; ROOM],
    len: u8,
}

impl Model for KindList {
    ghost use Rattle.std.specs.Prelude.{◌≤◌, take};
    ghost use Rattle.layout.specs.KindLists.{ListOfKinds};

    ghost Value = { ListOfKinds };

    ghost view = { λ k. record { items = take k.len k.kinds } };

    ghost invariant = { λ k. k.len ≤ 17 };
}

impl KindList {
    /// No kind.
    pub(crate) fn new() -> KindList
        ensures { result.items ≡ [] }
    {
        KindList {
            kinds: [CoreKind::I32; ROOM],
            len: 0,
        }
    }

    /// The same kinds.
    pub(crate) fn copy(&self) -> KindList
        ensures { result ≡ self.now }
    {
        KindList {
            kinds: self.kinds,
            len: self.len,
        }
    }

    /// How many they are.
    pub fn len(&self) -> usize
        ensures value { result ≡ length self.now.items }
        ensures fits { result ≤ 17 }
    {
        self.as_slice().len()
    }

    pub fn as_slice(&self) -> &[CoreKind]
        ensures value { result.now ≡ self.now.items }
        ensures fits { length result.now ≤ 17 }
    {
        &self.kinds[..usize::from(self.len)]
    }

    /// Puts a kind at the end.
    pub(crate) fn push(&mut self, kind: CoreKind)
        requires { length self.old.items < 17 }
        ensures { self.new.items ≡ self.old.items ++ kind ∷ [] }
    {
        self.kinds[usize::from(self.len)] = kind;
        self.len += 1;
    }
}
