//! Handles on what the library holds, for C.
ghost use Rattle.std.specs.Prelude.{◌≡◌, ◌↔◌, Some, None};
ghost use Rattle.std.specs.Option.{option_map};

use crate::held::Held;
use crate::kept::Kept;
use std::alloc::Global;
use std::mem::replace;

/// A handle: where what it stands for is kept, if `is_open` is not 0. One of zeros alone stands for nothing.
#[repr(C)]
#[derive(Drop)]
pub struct Handle {
    kept: Kept,
    is_open: u32,
    ghost closed: { (is_open ≡ 0) ↔ (kept.held ≡ None) },
}

/// Compiles only if `T` is `Send`.
fn crosses_threads<T: Send>(_value: &T) {}

impl Handle {
    /// A handle on nothing. Like any handle, it may go to another thread.
    pub fn none() -> Handle
        ensures { result.kept.held ≡ None }
    {
        let handle = Handle {
            kept: Kept::none(),
            is_open: 0,
        };
        crosses_threads(&handle);
        handle
    }

    /// Takes what it stands for, if anything, and leaves a handle on nothing.
    pub fn take(&mut self, alloc: Global) -> Option<Box<Held>>
        ensures taken { option_map (λ held. held.value) result ≡ self.old.kept.held }
        ensures left { self.new.kept.held ≡ None }
    {
        let Handle { kept, is_open } = replace(self, Handle::none());
        if is_open == 0 {
            return None;
        }
        Some(kept.into_box(alloc))
    }

    /// Lets it hold this. It does not free what it held before: take that first.
    pub fn put(&mut self, held: Box<Held>)
        ensures { self.new.kept.held ≡ Some held.value }
    {
        *self = Handle {
            kept: Kept::of(held),
            is_open: 1,
        };
    }

    /// Lets it stand for this, if anything, again.
    pub fn give(&mut self, held: Option<Box<Held>>)
        ensures { self.new.kept.held ≡ option_map (λ held. held.value) held }
    {
        match held {
            Some(held) => self.put(held),
            None => self.clear(),
        }
    }

    /// Lets it hold nothing. It does not free what it held before: take that first.
    pub fn clear(&mut self)
        ensures { self.new.kept.held ≡ None }
    {
        *self = Handle::none();
    }
}
