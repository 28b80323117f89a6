//! A memory whose allocator keeps its notes in the memory itself, as those of C programs do: before each block a header
//! with its size, and a list of the free blocks that goes through them.
//!
//! ```text
//! address   4         8            12      16         24
//! bytes     48 (1)    first free   top     size       block, or the address of the next free one
//! ```
//!
//! 1. After a refusal: the error by which WASI says that there is no memory.
//!
//! A program may write over notes, by mistake or on purpose. So no note is believed: which addresses are live is kept
//! beside the memory, and a block is granted only if none of its addresses is.
ghost use Rattle.std.specs.Prelude.{◌≡◌, ◌⊎◌, ◌+◌, ◌*◌, ◌%◌, ◌^◌, ◌<◌, ◌≤◌, ◌↔◌, IsTrue, length, vec_len, IfOk, IfErr};
ghost use Rattle.std.specs.Prelude.{OnOk, OnErr, MatchOption};
ghost use Rattle.canonical_abi.specs.Guest.{rounded_to_eight, with_bytes};
ghost use Rattle.memory.specs.FirstFit.{TakesBlock};
ghost use Rattle.memory.specs.Headers.{HasBlock, HasPage, HasRoom, HasTop, IsFree, IsFresh, LeadsNowhere, LeadsTo};
ghost use Rattle.memory.specs.Headers.{RefusesHeaders, TakesTop, word, with_word};

use crate::error::MemoryError;
use crate::first_fit::whole_units;
use crate::pages::{Pages, test_pages};
use crate::units::Units;
use canonical_abi::{Full, Guest, NotTaken, Tame};
use std::alloc::Global;

/// Where a refusal notes its error.
const ERROR: u32 = 4;

/// Where the address of the first free block is, or 0 if there is none.
const FIRST: u32 = 8;

/// Where the address is from which on nothing was granted, or 0 before the first grant.
const TOP: u32 = 12;

/// The bytes of the notes.
const NOTES: u32 = 16;

/// The bytes of a header.
const HEADER: u32 = 8;

/// The error of a refusal.
const NO_MEMORY: u32 = 48;

/// Live is what was granted and not taken back. Blocks are of whole units of eight bytes. The first free block of the
/// list that is large enough is granted, else one at the top. Blocks are neither cut nor joined.
#[derive(Drop)]
pub struct Headers {
    pages: Pages,
    units: Units,
    ghost noted: { 65536 ≤ length pages.bytes.items },
    ghost covered: { pages.max ≤ 8 * vec_len units.live },
}

impl Headers {
    /// A memory of `len` zeros that may grow to `max`, none of it live: 55 where `len` is 0, one of the two is not whole
    /// pages, or `len` is above `max`, else 53 where `max` passes `MAX_LEN`, else 54 only where the host has no memory.
    /// The room for `max` is taken now.
    pub fn growing(alloc: Global, len: u32, max: u32) -> Result<Headers, MemoryError>
        ensures fresh { IfOk result (λ h. IsFresh len max (⟦<Headers as Guest>⟧.memory h)) }
        ensures ok { OnOk result (HasPage len max × (max ≤ 16777216)) }
        ensures err { IfErr result (RefusesHeaders len max) }
    {
        if len == 0 {
            return Err(MemoryError::BadPages);
        }
        test_pages(len, max)?;
        let pages = Pages::new(alloc, len, max)?;
        let units = Units::new(alloc, max as usize / 8).map_err(|_| MemoryError::NoMemory)?;
        Ok(Headers { pages, units })
    }

    /// Whether a block of whole units is behind the notes and a header, and inside.
    fn is_place(&self, at: u32, size: u64) -> bool
        requires { size < 2 ^ 33 }
        ensures { IsTrue result
            ↔ ((at % 8 ≡ 0) × (24 ≤ at) × (at + size ≤ length self.now.pages.bytes.items)) }
    {
        at % 8 == 0 && at >= NOTES + HEADER && u64::from(at) + size <= u64::from(self.pages.len())
    }

    /// Whether a block and its header are free.
    fn is_free(&self, at: u32, size: u64) -> bool
        requires units { size % 8 ≡ 0 }
        requires small { size < 2 ^ 33 }
        ensures { IsTrue result ↔ IsFree (⟦<Headers as Guest>⟧.memory self.now) at size }
    {
        self.is_place(at, size)
            && self
                .units
                .are_all(u64::from(at - HEADER), u64::from(at) + size, false)
    }

    /// The address of the link to the first free block of the list that has so many bytes. The list ends at a block whose
    /// header says more than is free, so that no request looks at an address twice.
    fn link_to(&self, size: u64) -> Option<u32>
        requires units { size % 8 ≡ 0 }
        requires small { size < 2 ^ 33 }
        ensures { MatchOption result (LeadsNowhere (⟦<Headers as Guest>⟧.memory self.now) size)
            (LeadsTo (⟦<Headers as Guest>⟧.memory self.now) size) }
    {
        let mut link = FIRST;
        let mut left = self.pages.len() / 8;
        while left > 0 {
            let at = self.pages.word(link);
            if !self.is_free(at, 8) {
                return None;
            }
            if size <= u64::from(self.pages.word(at - HEADER)) {
                if !self.is_free(at, size) {
                    return None;
                }
                return Some(link);
            }
            link = at;
            left -= 1;
        }
        None
    }

    /// Grants the free block that a link leads to: the link is then to the one after it.
    fn take_listed(&mut self, link: u32, size: u64) -> u32
        requires units { size % 8 ≡ 0 }
        requires small { size < 2 ^ 33 }
        requires link { (link ≡ 8) ⊎ IsFree (⟦<Headers as Guest>⟧.memory self.old) link 8 }
        requires some { 0 < size }
        requires room { HasRoom (⟦<Headers as Guest>⟧.memory self.old) (word (⟦<Headers as Guest>⟧.memory self.old) link) size }
        ensures at { result ≡ word (⟦<Headers as Guest>⟧.memory self.old) link }
        ensures takes { TakesBlock (with_word (⟦<Headers as Guest>⟧.memory self.old) link (word (⟦<Headers as Guest>⟧.memory self.old) result))
            result size (⟦<Headers as Guest>⟧.memory self.new) }
        ensures len { length self.new.pages.bytes.items ≡ length self.old.pages.bytes.items }
    {
        let at = self.pages.word(link);
        let next = self.pages.word(at);
        self.pages.put_word(link, next);
        self.units.set(at, at + size as u32, true);
        at
    }

    /// Grants a block at the top, with a header before it; nothing changes if there is no room.
    fn take_top(&mut self, size: u64) -> Result<u32, Full>
        requires units { size % 8 ≡ 0 }
        requires small { size < 2 ^ 33 }
        requires some { 0 < size }
        ensures ok { IfOk result (λ at. TakesTop (⟦<Headers as Guest>⟧.memory self.old) size at (⟦<Headers as Guest>⟧.memory self.new)) }
        ensures full { OnErr result (HasTop (⟦<Headers as Guest>⟧.memory self.old) self.old.pages.max size → ⊥) }
        ensures kept { OnErr result (⟦<Headers as Guest>⟧.memory self.new ≡ ⟦<Headers as Guest>⟧.memory self.old) }
        ensures no_shorter { length self.old.pages.bytes.items ≤ length self.new.pages.bytes.items }
    {
        let top = self.pages.word(TOP).max(NOTES);
        let end = u64::from(top) + u64::from(HEADER) + size;
        if top % 8 != 0 || !self.units.are_all(u64::from(top), end, false) {
            return Err(Full);
        }
        self.pages.reach(end)?;
        self.pages.put_word(top, size as u32);
        self.pages.put_word(TOP, end as u32);
        self.units.set(top + HEADER, end as u32, true);
        Ok(top + HEADER)
    }

    /// Whether a block is live, and its header has at least its size.
    fn has_block(&self, at: u32, size: u64) -> bool
        requires units { size % 8 ≡ 0 }
        requires small { size < 2 ^ 33 }
        ensures { IsTrue result ↔ HasBlock (⟦<Headers as Guest>⟧.memory self.now) at size }
    {
        self.is_place(at, size)
            && size <= u64::from(self.pages.word(at - HEADER))
            && self
                .units
                .are_all(u64::from(at), u64::from(at) + size, true)
    }
}

impl Guest for Headers {
    ghost use Rattle.memory.specs.Headers.{HeadersAllocates, HeadersReleases};
    ghost use Rattle.memory.specs.Headers.{headers};

    ghost memory = { λ h. headers h.pages.bytes.items h.units.live.items h.pages.max };

    ghost allocates = { HeadersAllocates };

    ghost releases = { HeadersReleases };

    fn len(&self) -> u32 {
        self.pages.len()
    }

    fn bytes(&self) -> &[u8] {
        self.pages.bytes()
    }

    fn write(&mut self, at: u32, src: &[u8]) {
        self.pages.write(at, src);
    }

    fn alloc(&mut self, _align: u32, size: u32) -> Result<u32, Full> {
        if size == 0 {
            return Ok(0);
        }
        let wanted = whole_units(size);
        if let Some(link) = self.link_to(wanted) {
            return Ok(self.take_listed(link, wanted));
        }
        let answer = self.take_top(wanted);
        if answer.is_err() {
            self.pages.put_word(ERROR, NO_MEMORY);
        }
        answer
    }

    fn free(&mut self, at: u32, size: u32) -> Result<(), NotTaken> {
        if size == 0 {
            return Ok(());
        }
        let wanted = whole_units(size);
        if !self.has_block(at, wanted) {
            return Err(NotTaken);
        }
        let first = self.pages.word(FIRST);
        self.pages.put_word(at, first);
        self.pages.put_word(FIRST, at);
        self.units.set(at, at + wanted as u32, false);
        Ok(())
    }
}

impl Tame for Headers {
    ghost use Rattle.memory.specs.HeadersLaws.{HeadersIsTame};

    ghost is_tame = { HeadersIsTame };
}
