//! A memory that notes what its allocator is asked for.

use canonical_abi::{Full, Guest, NotTaken};
use memory::FirstFit;
use std::alloc::{AllocError, Global};

/// The bytes of a memory at first.
const FIRST: u32 = 65_536;

/// The most bytes that it may come to have.
const MOST: u32 = 1_048_576;

/// What an allocator was asked for, and what it granted.
#[derive(Clone, Copy)]
pub struct Request {
    /// In bytes.
    pub align: u32,
    /// In bytes.
    pub size: u32,
    /// The address of the block. None if the request was refused.
    pub at: Option<u32>,
}

/// A memory, and what its allocator was asked for.
#[derive(Drop)]
pub struct Noted {
    space: FirstFit,
    requests: Vec<Request>,
    /// Whether the host had memory for all notes.
    is_whole: bool,
}

impl Noted {
    /// A fresh memory, as large as one of `witcall call`.
    pub fn new(alloc: Global) -> Result<Noted, AllocError> {
        let Ok(space) = FirstFit::growing(alloc, FIRST, MOST) else {
            return Err(AllocError);
        };
        Ok(Noted {
            space,
            requests: Vec::new(alloc),
            is_whole: true,
        })
    }

    /// The requests in their order. An error if the host had no memory to note them all.
    pub fn requests(&self) -> Result<&[Request], AllocError> {
        if self.is_whole {
            Ok(self.requests.as_slice())
        } else {
            Err(AllocError)
        }
    }
}

impl Guest for Noted {
    ghost memory = { λ n. ⟦<FirstFit as Guest>⟧.memory n.space };

    ghost allocates = { ⟦<FirstFit as Guest>⟧.allocates };

    ghost releases = { ⟦<FirstFit as Guest>⟧.releases };

    fn len(&self) -> u32 {
        self.space.len()
    }

    fn bytes(&self) -> &[u8] {
        self.space.bytes()
    }

    fn write(&mut self, at: u32, src: &[u8]) {
        self.space.write(at, src);
    }

    fn alloc(&mut self, align: u32, size: u32) -> Result<u32, Full> {
        let answer = self.space.alloc(align, size);
        let at = answer.ok();
        if self.requests.push(Request { align, size, at }).is_err() {
            self.is_whole = false;
        }
        answer
    }

    fn free(&mut self, at: u32, size: u32) -> Result<(), NotTaken> {
        self.space.free(at, size)
    }
}
