//! What is known of pairs of types that were compared.
ghost use Rattle.std.specs.Prelude.{◌≡◌, IfSome};
ghost use Rattle.tables.specs.declared.tables.Resolve.{Resolve};
ghost use Rattle.package_changes.specs.Comparing.{AreRight, IsRight, type_at};

use crate::likeness::Likeness;
use atoms::{KeyedState, NameKey};
use indexmap::IndexMap;
use std::alloc::{AllocError, Global};
use tables::{TypeId, ValType};

/// The places of an older type and of a newer one in their tables.
#[derive(Clone, Copy, PartialEq, Eq, Hash, Debug)]
pub struct TypePair {
    pub old: u32,
    pub new: u32,
}

impl TypePair {
    /// The older type.
    pub(crate) fn older(self) -> ValType
        ensures { result ≡ type_at self.old }
    {
        ValType::Id(TypeId(self.old))
    }

    /// The newer type.
    pub(crate) fn newer(self) -> ValType
        ensures { result ≡ type_at self.new }
    {
        ValType::Id(TypeId(self.new))
    }
}

/// How alike pairs of types are, so that no pair is compared twice.
#[derive(Drop)]
pub struct Known {
    pub pairs: IndexMap<TypePair, Likeness, KeyedState>,
}

impl Known {
    /// Nothing is known.
    pub(crate) fn new(alloc: Global) -> Known
        ensures { (r s : Resolve) → AreRight r s result }
    {
        Known {
            pairs: IndexMap::with_hasher(alloc, NameKey::new().state()),
        }
    }

    /// What is known of a pair.
    pub(crate) fn get(&self, pair: TypePair) -> Option<Likeness>
        ensures { (r s : Resolve) → AreRight r s self.now → IfSome result (λ l. IsRight r s (pair, l)) }
    {
        self.pairs.get(&pair).copied()
    }

    /// Notes what a pair is.
    pub(crate) fn put(&mut self, pair: TypePair, likeness: Likeness) -> Result<(), AllocError>
        ensures { (r s : Resolve) → AreRight r s self.old → IsRight r s (pair, likeness) → AreRight r s self.new }
    {
        self.pairs.insert(pair, likeness)?;
        Ok(())
    }
}
