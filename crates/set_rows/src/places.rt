//! Some elements of a list, and where they stand among themselves.
ghost use Rattle.std.specs.Prelude.{◌≡◌, ◌≤◌, ℕ, length, ◌+◌, IfOk, slice_index_or, false};
ghost use Rattle.set_rows.specs.Places.{place};

use std::alloc::{AllocError, Global};
use std::marker::Model;

/// A mark for each element that is kept, and how many marks stand before each place.
#[derive(Drop)]
pub struct Places {
    marks: Vec<bool>,
    before: Vec<usize>,
    ghost each: { (k : ℕ) → k ≤ length marks.items → slice_index_or before.items k 0 ≡ place marks.items k },
    ghost counted: { length before.items ≡ length marks.items + 1 },
}

impl Model for Places {
    ghost use Rattle.std.specs.Prelude.{List, Bool};

    ghost Value = { List Bool };

    ghost view = { λ p. p.marks.items };
}

impl Places {
    /// The places of the elements with these marks.
    pub fn of(alloc: Global, marks: Vec<bool>) -> Result<Places, AllocError>
        ensures { IfOk result (λ p. p ≡ marks.items) }
    {
        let mut before = Vec::with_capacity(alloc, marks.len() + 1)?;
        let mut count = 0;
        before.push(count)?;
        for mark in &marks {
            if *mark {
                count += 1;
            }
            before.push(count)?;
        }
        Ok(Places { marks, before })
    }

    /// Whether the element at this place is kept.
    pub fn has(&self, old: usize) -> bool
        ensures { result ≡ slice_index_or self.now old false }
    {
        match self.marks.get(old) {
            Some(mark) => *mark,
            None => false,
        }
    }

    /// The new place of the element at this place.
    pub fn at(&self, old: u32) -> u32
        ensures { result ≡ place self.now old }
    {
        let old = (old as usize).min(self.marks.len());
        self.before[old] as u32
    }
}
