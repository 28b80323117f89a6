//! Requests, and the slots that they are written in.
ghost use Rattle.std.specs.Prelude.{◌≡◌, ◌+◌, ◌-◌, ◌^◌, ◌<◌, ◌≤◌, [], ◌∷◌, min};
ghost use Rattle.canonical_abi.specs.Requests.{request};
ghost use Rattle.adapter.specs.Asking.{IsTold};

use canonical_abi::TrapKind;

/// A block that is asked for: of `size` bytes, at a multiple of `align`.
#[derive(Clone, Copy, Debug, PartialEq, Eq)]
#[repr(C)]
pub struct Request {
    pub align: u32,
    pub size: u32,
}

/// Why no requests are listed: what the bytes denote has this fault first, or asks for more than it may.
#[derive(Clone, Copy, Debug, PartialEq, Eq)]
pub enum Untold {
    Fault(TrapKind),
    AboveLimit,
}

/// Writes one more request into the next slot, if there is one, and subtracts its bytes from those that are left.
pub(crate) fn tell(
    slots: &mut [Request],
    count: &mut usize,
    left: &mut u64,
    align: usize,
    size: usize,
)
    requires align { align < 2 ^ 32 }
    requires size { size < 2 ^ 32 }
    requires within { size ≤ left.old }
    ensures told { IsTold slots.old count.old left.old (request align size ∷ []) slots.new count.new left.new }
    ensures counted { count.new ≡ min (count.old + 1) (2 ^ 64 - 1) }
{
    if *count < slots.len() {
        slots[*count] = Request {
            align: align as u32,
            size: size as u32,
        };
    }
    *count = count.saturating_add(1);
    *left -= size as u64;
}

/// Counts one more value that is visited, as far as 64 bits count.
pub(crate) fn visit(nodes: &mut u64)
    ensures counted { nodes.new ≡ min (nodes.old + 1) (2 ^ 64 - 1) }
    ensures fits { nodes.old < 2 ^ 64 }
{
    *nodes = nodes.saturating_add(1);
}
