//! The second step of each half: a memory's own allocator grants the blocks, and the host tests them.
ghost use Rattle.std.specs.Prelude.{◌≡◌, IsTrue, IfSome, length, map, take};
ghost use Rattle.std.specs.List.{list_all};
ghost use Rattle.memory.specs.Blocks.{is_apart, are_good, can_lend, rise};
ghost use Rattle.example_hosts.specs.Promise.{request_of, HasGranted};

use adapter::Request;
use memory::{Block, can_lend};
use std::alloc::Global;

/// Grants one block. The allocator runs in the memory, whose first four bytes are its next free address.
fn allocate(memory: &mut [u8], request: Request) -> Option<Block>
    ensures asked { IfSome result (λ block. request_of block ≡ request) }
    ensures kept { HasGranted memory.old memory.new }
{
    let free = u32::from_le_bytes(*memory.first_chunk::<4>()?);
    let at = free.checked_next_multiple_of(request.align)?;
    let end = at.checked_add(request.size)?;
    if end as usize > memory.len() {
        return None;
    }
    memory[..4].copy_from_slice(&end.to_le_bytes());
    Some(Block {
        align: request.align,
        size: request.size,
        at,
    })
}

/// Grants a block for each request, in their order, until the memory is full.
pub fn grant(alloc: Global, memory: &mut [u8], requests: &[Request]) -> Vec<Block>
    ensures asked { map request_of result.items ≡ take (length result.items) requests.now }
    ensures kept { HasGranted memory.old memory.new }
{
    let mut blocks = Vec::new(alloc);
    for request in requests {
        let Some(block) = allocate(memory, *request) else {
            break;
        };
        if blocks.push(block).is_err() {
            break;
        }
    }
    blocks
}

/// These blocks, if they can be handed out of a memory of `len` bytes beside a place that is lent. Otherwise the
/// allocator is wrong, and there are none. Nor are there any if they don't rise, and the host has no memory to test
/// them.
pub fn lendable<'a>(alloc: Global, len: usize, place: &Block, blocks: &'a [Block]) -> &'a [Block]
    ensures good { IsTrue (are_good len result.now) }
    ensures beside { IsTrue (list_all (is_apart place.now) result.now) }
    ensures all { IsTrue (can_lend len place.now blocks.now) → IsTrue (rise 0 blocks.now) → result.now ≡ blocks.now }
{
    match can_lend(alloc, len, place, blocks) {
        Ok(true) => blocks,
        _ => &[],
    }
}
