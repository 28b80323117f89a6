//! Where what a handle stands for is kept.
ghost use Rattle.std.specs.Prelude.{◌≡◌, ◌≢◌, Option, Some, None};
ghost use Rattle.witcall_c.specs.Handle.{holds};
ghost use Rattle.witcall_c.specs.declared.held.Held.{Held};

use crate::held::Held;
use std::alloc::Global;
use std::marker::Model;
use std::ptr::null_mut;

/// The address of what a handle stands for, or of nothing.
#[repr(C)]
#[derive(Drop)]
pub struct Kept {
    at: *mut (),
    ghost held: { Option Held },
}

impl Model for Kept {
    ghost use Rattle.witcall_c.specs.Handle.{holds};
    ghost use Rattle.witcall_c.specs.declared.held.Held.{Held};
    ghost use Rattle.std.specs.Prelude.{Option};

    ghost also_owns = { λ k. holds k.at k.held };
}

// The box that it owns has no part that is of one thread.
unsafe impl Send for Kept {}

impl Kept {
    /// An address of nothing.
    pub fn none() -> Kept
        ensures { result.held ≡ None }
    {
        Kept { at: null_mut() }
    }

    /// The address of this, which is kept where it is.
    pub fn of(held: Box<Held>) -> Kept
        ensures { result.held ≡ Some held.value }
    {
        Kept {
            at: Box::into_raw(held) as *mut (),
        }
    }

    /// What stands there.
    pub fn into_box(self, alloc: Global) -> Box<Held>
        requires { self.held ≢ None }
        ensures { self.held ≡ Some result.value }
    {
        let Kept { at } = self;
        unsafe { Box::from_raw(alloc, at as *mut Held) }
    }
}
