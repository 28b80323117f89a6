//! A memory whose requests are listed.

use crate::vector_sides::backing::Backing;
use canonical_abi::{Full, Guest, NotTaken};

/// What an allocator was asked for, alignment and size, and the address that it gave.
#[derive(Clone, Copy)]
pub struct Request {
    pub align: u32,
    pub size: u32,
    pub at: Option<u32>,
}

/// A memory, and what its allocator was asked for.
#[derive(Drop)]
pub struct Logged {
    backing: Backing,
    requests: Vec<Request>,
    /// Whether the host had memory for all of the list.
    whole: bool,
}

impl Logged {
    pub fn new(backing: Backing, requests: Vec<Request>) -> Logged {
        Logged {
            backing,
            requests,
            whole: true,
        }
    }

    /// The requests in turn, unless the host had no memory for them.
    pub fn requests(&self) -> Option<&[Request]> {
        if self.whole {
            Some(self.requests.as_slice())
        } else {
            None
        }
    }
}

impl Guest for Logged {
    ghost memory = { λ l. ⟦<Backing as Guest>⟧.memory l.backing };

    ghost allocates = { λ _ _ _ _ _. Unit {0} };

    ghost releases = { λ _ _ _ _ _. Unit {0} };

    fn len(&self) -> u32 {
        self.backing.len()
    }

    fn bytes(&self) -> &[u8] {
        self.backing.bytes()
    }

    fn write(&mut self, at: u32, src: &[u8]) {
        self.backing.write(at, src);
    }

    fn alloc(&mut self, align: u32, size: u32) -> Result<u32, Full> {
        let answer = self.backing.alloc(align, size);
        let at = answer.ok();
        if self.requests.push(Request { align, size, at }).is_err() {
            self.whole = false;
        }
        answer
    }

    fn free(&mut self, at: u32, size: u32) -> Result<(), NotTaken> {
        self.backing.free(at, size)
    }
}
