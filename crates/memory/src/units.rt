//! Which addresses of a memory are live, in units of eight bytes.
ghost use Rattle.std.specs.Prelude.{◌≡◌, ◌⊎◌, ◌*◌, ◌%◌, ◌<◌, ◌≤◌, ◌+◌, ℕ, false, ◌↔◌, IsTrue, IfOk, length, get_or};
ghost use Rattle.std.specs.Prelude.{vec_len, take, drop, replicate, ◌++◌, ◌-◌};
ghost use Rattle.memory.specs.Units.{AreUnits, is_unit_live, with_units};

use std::alloc::{AllocError, Global};

/// One flag for each unit. What is behind the last unit is not live.
#[derive(Drop)]
pub(crate) struct Units {
    live: Vec<bool>,
}

impl Units {
    /// So many units, none of them live.
    pub(crate) fn new(alloc: Global, count: usize) -> Result<Units, AllocError>
        ensures none { IfOk result (λ u. (a : ℕ) → is_unit_live u.live.items a ≡ false) }
        ensures count { IfOk result (λ u. vec_len u.live ≡ count) }
    {
        let live = vec![in alloc; false; count]?;
        Ok(Units { live })
    }

    /// Whether each address from `from` to before `to` is live, or each is not.
    pub(crate) fn are_all(&self, from: u64, to: u64, live: bool) -> bool
        requires begins { from % 8 ≡ 0 }
        requires ends { to % 8 ≡ 0 }
        requires within { (live ≡ false) ⊎ (to ≤ 8 * vec_len self.now.live) }
        ensures { IsTrue result ↔ AreUnits self.now.live.items from to live }
    {
        let end = self.live.len().min((to / 8) as usize);
        let start = end.min((from / 8) as usize);
        are_alike(&self.live[start..end], live)
    }

    /// Makes each address from `from` to before `to` live, or not.
    pub(crate) fn set(&mut self, from: u32, to: u32, live: bool)
        requires begins { from % 8 ≡ 0 }
        requires ends { to % 8 ≡ 0 }
        requires rise { from ≤ to }
        requires within { to ≤ 8 * vec_len self.old.live }
        ensures set { (a : ℕ) → is_unit_live self.new.live.items a
            ≡ with_units (is_unit_live self.old.live.items) from to live a }
        ensures count { vec_len self.new.live ≡ vec_len self.old.live }
    {
        let flags = self.live.as_mut_slice();
        fill(flags, from as usize / 8, to as usize / 8, live);
    }
}

/// Makes each flag from `start` to before `end` this one.
fn fill(flags: &mut [bool], start: usize, end: usize, live: bool)
    requires rise { start ≤ end }
    requires within { end ≤ length flags.old }
    ensures { flags.new ≡ take start flags.old ++ (replicate (end - start) live ++ drop end flags.old) }
{
    flags[start..end].fill(live);
}

/// Whether each flag is this one.
fn are_alike(flags: &[bool], live: bool) -> bool
    ensures all { IsTrue result → (k : ℕ) → k < length flags.now → get_or flags.now k false ≡ live }
    ensures other { result ≡ false → (k : ℕ) × (k < length flags.now) × (get_or flags.now k false ≡ live → ⊥) }
{
    for flag in flags {
        if *flag != live {
            return false;
        }
    }
    true
}
