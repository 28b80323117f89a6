//! The bytes of a memory that may grow: its room is taken when it is made, so no later call takes memory of
//! the host.
ghost use Rattle.std.specs.Prelude.{◌≡◌, ◌+◌, ◌-◌, ◌%◌, ◌≤◌, length, replicate, vec_len, vec_capacity, IfOk, IfErr};
ghost use Rattle.std.specs.Prelude.{OnOk, OnErr};
ghost use Rattle.std.specs.Int.{to_le_bytes, w32};
ghost use Rattle.canonical_abi.specs.Guest.{overwrite};
ghost use Rattle.canonical_abi.specs.Reading.{number_at};
ghost use Rattle.memory.specs.Growth.{ArePages, GrowsTo, HasNoGrowth, ReachesEnd};
ghost use Rattle.memory.specs.Refusals.{RefusesLength};

use crate::copies::{four_at, write_over};
use crate::error::{MAX_LEN, MemoryError, PAGE};
use canonical_abi::Full;
use std::alloc::Global;

/// The bytes, and the most that they may become: so many whole pages more.
#[derive(Drop)]
pub(crate) struct Pages {
    bytes: Vec<u8>,
    max: u32,
    ghost limited: { max ≤ 16777216 },
    ghost within: { vec_len bytes ≤ max },
    ghost whole: { (max - vec_len bytes) % 65536 ≡ 0 },
    ghost room: { max ≤ vec_capacity bytes },
}

impl Pages {
    /// So many zeros, with room for `max`: 53 where that passes `MAX_LEN`, else 54 only where the host has no
    /// memory.
    pub(crate) fn new(alloc: Global, len: u32, max: u32) -> Result<Pages, MemoryError>
        requires within { len ≤ max }
        requires whole { (max - len) % 65536 ≡ 0 }
        ensures zeros { IfOk result (λ p. p.bytes.items ≡ replicate len 0) }
        ensures len { IfOk result (λ p. length p.bytes.items ≡ len) }
        ensures max { IfOk result (λ p. p.max ≡ max) }
        ensures ok { OnOk result (max ≤ 16777216) }
        ensures err { IfErr result (RefusesLength max) }
    {
        if max > MAX_LEN {
            return Err(MemoryError::MemoryLimit);
        }
        let mut bytes = Vec::with_capacity(alloc, max as usize).map_err(|_| MemoryError::NoMemory)?;
        bytes
            .resize(len as usize, 0)
            .map_err(|_| MemoryError::NoMemory)?;
        Ok(Pages { bytes, max })
    }

    /// The length.
    pub(crate) fn len(&self) -> u32
        ensures { result ≡ length self.now.bytes.items }
    {
        self.bytes.len() as u32
    }

    /// All bytes.
    pub(crate) fn bytes(&self) -> &[u8]
        ensures { result.now ≡ self.now.bytes.items }
    {
        self.bytes.as_slice()
    }

    /// Writes bytes at a place.
    pub(crate) fn write(&mut self, at: u32, src: &[u8])
        requires { at + length src.now ≤ length self.old.bytes.items }
        ensures bytes { self.new.bytes.items ≡ overwrite self.old.bytes.items at src.now }
        ensures len { length self.new.bytes.items ≡ length self.old.bytes.items }
        ensures max { self.new.max ≡ self.old.max }
    {
        write_over(self.bytes.as_mut_slice(), at as usize, src);
    }

    /// The number of four bytes at a place, little-endian.
    #[tactic(auto, unfolding(canonical_abi::specs::Reading::number_at))]
    pub(crate) fn word(&self, at: u32) -> u32
        requires { at + 4 ≤ length self.now.bytes.items }
        ensures { result ≡ number_at self.now.bytes.items at w32 }
    {
        u32::from_le_bytes(four_at(self.bytes.as_slice(), at as usize))
    }

    /// Writes such a number.
    pub(crate) fn put_word(&mut self, at: u32, word: u32)
        requires { at + 4 ≤ length self.old.bytes.items }
        ensures bytes { self.new.bytes.items ≡ overwrite self.old.bytes.items at (to_le_bytes w32 word) }
        ensures len { length self.new.bytes.items ≡ length self.old.bytes.items }
        ensures max { self.new.max ≡ self.old.max }
    {
        self.write(at, &word.to_le_bytes());
    }

    /// Grows by the least number of pages with which there are `end` bytes, which is none where they are there;
    /// nothing changes where the most are too few.
    pub(crate) fn reach(&mut self, end: u64) -> Result<(), Full>
        ensures grown { OnOk result
            (GrowsTo self.old.bytes.items self.old.max end self.new.bytes.items) }
        ensures full { OnErr result (HasNoGrowth (length self.old.bytes.items) self.old.max
            (ReachesEnd (length self.old.bytes.items) end)) }
        ensures kept { OnErr result (self.new.bytes.items ≡ self.old.bytes.items) }
        ensures no_shorter { length self.old.bytes.items ≤ length self.new.bytes.items }
        ensures max { self.new.max ≡ self.old.max }
    {
        if end > u64::from(self.max) {
            return Err(Full);
        }
        let len = self.bytes.len();
        let pages = (end as usize).saturating_sub(len).div_ceil(PAGE as usize);
        let Ok(()) = self.bytes.resize(len + pages * PAGE as usize, 0) else {
            return Err(Full);
        };
        Ok(())
    }
}

/// 55 where one of the two numbers is not whole pages, or the first is above the second.
pub(crate) fn test_pages(len: u32, max: u32) -> Result<(), MemoryError>
    ensures ok { OnOk result (ArePages len max) }
    ensures err { IfErr result (λ e. (e ≡ MemoryError.BadPages) × ¬ ArePages len max) }
{
    if len % PAGE != 0 || max % PAGE != 0 || len > max {
        return Err(MemoryError::BadPages);
    }
    Ok(())
}
