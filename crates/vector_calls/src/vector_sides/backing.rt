//! The memories over which rows are answered: honest ones, one that keeps its notes in itself, and one whose allocator
//! gives the answers of a row.
ghost use Rattle.vector_calls.specs.BackingView.{backing_memory};

use canonical_abi::{Full, Guest, NotTaken};
use memory::{Headers, Scripted, Space};

/// A memory of a row.
#[derive(Drop)]
pub enum Backing {
    Space(Space),
    Headers(Headers),
    Scripted(Scripted),
}

impl Guest for Backing {
    ghost memory = { backing_memory };

    ghost allocates = { λ _ _ _ _ _. Unit {0} };

    ghost releases = { λ _ _ _ _ _. Unit {0} };

    fn len(&self) -> u32 {
        match self {
            Backing::Space(space) => space.len(),
            Backing::Headers(headers) => headers.len(),
            Backing::Scripted(scripted) => scripted.len(),
        }
    }

    fn bytes(&self) -> &[u8] {
        match self {
            Backing::Space(space) => space.bytes(),
            Backing::Headers(headers) => headers.bytes(),
            Backing::Scripted(scripted) => scripted.bytes(),
        }
    }

    fn write(&mut self, at: u32, src: &[u8]) {
        match self {
            Backing::Space(space) => space.write(at, src),
            Backing::Headers(headers) => headers.write(at, src),
            Backing::Scripted(scripted) => scripted.write(at, src),
        }
    }

    fn alloc(&mut self, align: u32, size: u32) -> Result<u32, Full> {
        match self {
            Backing::Space(space) => space.alloc(align, size),
            Backing::Headers(headers) => headers.alloc(align, size),
            Backing::Scripted(scripted) => scripted.alloc(align, size),
        }
    }

    fn free(&mut self, at: u32, size: u32) -> Result<(), NotTaken> {
        match self {
            Backing::Space(space) => space.free(at, size),
            Backing::Headers(headers) => headers.free(at, size),
            Backing::Scripted(scripted) => scripted.free(at, size),
        }
    }
}
