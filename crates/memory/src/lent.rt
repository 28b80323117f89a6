//! A host's own memory, lent for one way of a call, with the blocks that its allocator has granted before.
ghost use Rattle.std.specs.Prelude.{◌≡◌, ◌<◌, ◌≤◌, IsTrue, length, drop};
ghost use Rattle.memory.specs.Blocks.{are_good};
ghost use Rattle.memory.specs.Lent.{lent, LentAllocates, LentReleases};

use crate::block::Block;
use crate::copies::write_over;
use canonical_abi::{Full, Guest, Honest, NotTaken};

/// The host's bytes where they are. Its blocks are handed out in turn, each where it is the one that is asked for. Live
/// is what lies in none of those that are still to be handed out.
#[derive(Drop)]
pub struct Lent<'a> {
    bytes: &'a mut [u8],
    blocks: &'a [Block],
    /// How many blocks were handed out.
    next: usize,
    ghost some: { next ≤ length blocks.now },
    ghost limited: { length bytes.now < 4294967296 },
    ghost good: { IsTrue (are_good (length bytes.now) (drop next blocks.now)) },
}

impl<'a> Lent<'a> {
    /// The memory with its blocks, which `can_lend` tests.
    pub fn new(bytes: &'a mut [u8], blocks: &'a [Block]) -> Lent<'a>
        requires limited { length bytes.old < 4294967296 }
        requires good { IsTrue (are_good (length bytes.old) blocks.now) }
        ensures memory { ⟦<Lent<'a> as Guest>⟧.memory result
            ≡ lent bytes.entry.ghost_name bytes.old blocks.now }
        ensures same_reference { result.bytes.ghost_name ≡ bytes.entry.ghost_name }
    {
        Lent {
            bytes,
            blocks,
            next: 0,
        }
    }

    /// The blocks that were not handed out.
    pub fn left(&self) -> &[Block]
        ensures { ⟦<Lent<'a> as Guest>⟧.memory self.now
            ≡ lent self.now.bytes.ghost_name self.now.bytes.now result.now }
    {
        &self.blocks[self.next..]
    }
}

impl<'a> Guest for Lent<'a> {
    ghost use Rattle.std.specs.Prelude.{drop};
    ghost use Rattle.memory.specs.Lent.{lent, LentAllocates, LentReleases};

    ghost memory = { λ l. lent l.bytes.ghost_name l.bytes.now (drop l.next l.blocks.now) };

    ghost allocates = { LentAllocates };

    ghost releases = { LentReleases };

    fn len(&self) -> u32 {
        self.bytes.len() as u32
    }

    fn bytes(&self) -> &[u8] {
        self.bytes
    }

    fn write(&mut self, at: u32, src: &[u8]) {
        write_over(self.bytes, at as usize, src);
    }

    fn alloc(&mut self, align: u32, size: u32) -> Result<u32, Full> {
        match self.blocks.get(self.next) {
            Some(block) if block.align == align && block.size == size => {
                self.next += 1;
                Ok(block.at)
            }
            _ => Err(Full),
        }
    }

    fn free(&mut self, _at: u32, _size: u32) -> Result<(), NotTaken> {
        Err(NotTaken)
    }
}

impl<'a> Honest for Lent<'a> {
    ghost use Rattle.memory.specs.LentLaws.{LentIsHonest};

    ghost is_honest = { LentIsHonest };
}
