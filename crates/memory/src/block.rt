//! The blocks that a host's own allocator has granted before a call, and the test whether they can be handed out.
ghost use Rattle.std.specs.Prelude.{◌≡◌, ◌+◌, false, IfOk, IfErr};
ghost use Rattle.std.specs.List.{list_all};
ghost use Rattle.memory.specs.Blocks.{is_apart, is_block_placed, are_blocks_apart, can_lend, rise, IsRisingByAddress};

use std::alloc::{AllocError, Global};

/// A block of `size` bytes at the address `at`, which was asked for at a multiple of `align`. One of no bytes has no
/// address, and is in nobody's way.
#[repr(C)]
#[derive(Clone, Copy, Debug)]
pub struct Block {
    pub align: u32,
    pub size: u32,
    pub at: u32,
}

impl Block {
    /// The address behind its last byte.
    fn end(&self) -> u64
        ensures { result ≡ self.now.at + self.now.size }
    {
        u64::from(self.at) + u64::from(self.size)
    }

    /// Whether it has an alignment, stands at a multiple of it, and lies inside a memory of this length.
    #[tactic(auto, unfolding(crate::specs::Blocks::is_block_placed))]
    fn is_placed(&self, len: usize) -> bool
        ensures { result ≡ is_block_placed len self.now }
    {
        matches!(self.align, 1 | 2 | 4 | 8) && self.at % self.align == 0 && self.end() <= len as u64
    }

    /// Whether it has no address in common with the other.
    #[tactic(auto, unfolding(crate::specs::Blocks::is_apart))]
    fn is_apart(&self, other: &Block) -> bool
        ensures { result ≡ is_apart self.now other.now }
    {
        self.size == 0
            || other.size == 0
            || self.end() <= u64::from(other.at)
            || other.end() <= u64::from(self.at)
    }
}

/// Whether each block with an address stands behind those before it.
fn rise(blocks: &[Block]) -> bool
    ensures { result ≡ rise 0 blocks.now }
{
    let mut end = 0;
    for block in blocks {
        if block.size > 0 {
            if u64::from(block.at) < end {
                return false;
            }
            end = block.end();
        }
    }
    true
}

/// These blocks by their addresses.
fn by_address(alloc: Global, blocks: &[Block]) -> Result<Vec<Block>, AllocError>
    ensures { IfOk result (λ sorted. IsRisingByAddress blocks.now sorted.items) }
{
    let mut sorted = blocks.to_vec(alloc)?;
    sorted.sort_unstable_by_key(|block| block.at);
    Ok(sorted)
}

/// Whether no two of the blocks have an address in common: blocks that don't rise are tested in the order of their
/// addresses.
fn are_apart(alloc: Global, blocks: &[Block]) -> Result<bool, AllocError>
    ensures apart { IfOk result (λ apart. apart ≡ are_blocks_apart blocks.now) }
    ensures memory { IfErr result (λ _. rise 0 blocks.now ≡ false) }
{
    if rise(blocks) {
        return Ok(true);
    }
    let sorted = by_address(alloc, blocks)?;
    Ok(rise(sorted.as_slice()))
}

fn are_placed(len: usize, blocks: &[Block]) -> bool
    ensures { result ≡ list_all (is_block_placed len) blocks.now }
{
    blocks.iter().all(|block| block.is_placed(len))
}

fn are_beside(place: &Block, blocks: &[Block]) -> bool
    ensures { result ≡ list_all (is_apart place.now) blocks.now }
{
    blocks.iter().all(|block| place.is_apart(block))
}

/// Whether these blocks can be handed out of a memory of `len` bytes, with a place beside them that is lent: the memory
/// has less than 2^32 bytes, and each block has an alignment, stands at a multiple of it, lies inside, and meets
/// neither another one nor the place. It takes time n log n, and memory of the host only where the blocks don't rise.
pub fn can_lend(
    alloc: Global,
    len: usize,
    place: &Block,
    blocks: &[Block],
) -> Result<bool, AllocError>
    ensures can { IfOk result (λ can. can ≡ can_lend len place.now blocks.now) }
    ensures memory { IfErr result (λ _. rise 0 blocks.now ≡ false) }
{
    if u32::try_from(len).is_err() || !are_placed(len, blocks) || !are_beside(place, blocks) {
        return Ok(false);
    }
    are_apart(alloc, blocks)
}
