//! A memory that hands out the front of the first hole that has the block, and takes blocks back.
ghost use Rattle.std.specs.Prelude.{◌≡◌, ◌*◌, ◌/◌, ◌≤◌, length, IfOk, IfErr, OnOk};
ghost use Rattle.memory.specs.Growth.{ArePages};
ghost use Rattle.memory.specs.Holes.{all_free};
ghost use Rattle.memory.specs.Refusals.{RefusesGrowing, RefusesLength};
ghost use Rattle.canonical_abi.specs.Guest.{rounded_to_eight};

use crate::error::MemoryError;
use crate::holes::Holes;
use crate::pages::{Pages, test_pages};
use canonical_abi::{Full, Guest, Honest, NotTaken};
use std::alloc::Global;

/// Live is what is usable, which is the length rounded down to eight, and in no hole.
#[derive(Drop)]
pub struct FirstFit {
    pages: Pages,
    holes: Holes,
    ghost usable: { holes.limit ≡ length pages.bytes.items / 8 * 8 },
    ghost room: { pages.max / 8 * 8 ≤ 8 * length holes.row },
}

impl FirstFit {
    /// A memory of `len` zeros that doesn't grow and is one hole: 53 where `len` passes `MAX_LEN`, else 54
    /// only where the host has no memory.
    pub fn new(alloc: Global, len: u32) -> Result<FirstFit, MemoryError>
        ensures zeros { IfOk result (λ f. ⟦<FirstFit as Guest>⟧.memory f ≡ all_free len len) }
        ensures ok { OnOk result (len ≤ 16777216) }
        ensures err { IfErr result (RefusesLength len) }
    {
        let pages = Pages::new(alloc, len, len)?;
        let holes = Holes::new(alloc, len / 8 * 8, len / 8 * 8).map_err(|_| MemoryError::NoMemory)?;
        Ok(FirstFit { pages, holes })
    }

    /// A memory of `len` zeros that may grow to `max` and is one hole: 55 where one of the two is not whole
    /// pages or `len` is above `max`, else 53 where `max` passes `MAX_LEN`, else 54 only where the host has no
    /// memory. The room for `max` is taken now.
    pub fn growing(alloc: Global, len: u32, max: u32) -> Result<FirstFit, MemoryError>
        ensures zeros { IfOk result (λ f. ⟦<FirstFit as Guest>⟧.memory f ≡ all_free len max) }
        ensures ok { OnOk result (ArePages len max × (max ≤ 16777216)) }
        ensures err { IfErr result (RefusesGrowing len max) }
    {
        test_pages(len, max)?;
        let pages = Pages::new(alloc, len, max)?;
        let holes = Holes::new(alloc, len / 8 * 8, max / 8 * 8).map_err(|_| MemoryError::NoMemory)?;
        Ok(FirstFit { pages, holes })
    }
}

impl Guest for FirstFit {
    ghost use Rattle.memory.specs.FirstFit.{FirstFitAllocates, FirstFitReleases};
    ghost use Rattle.memory.specs.Holes.{first_fit};
    ghost use Rattle.memory.specs.HolesView.{listed_holes};

    ghost memory = { λ f. first_fit f.pages.bytes.items f.pages.max f.holes.limit (listed_holes f.holes) };

    ghost allocates = { FirstFitAllocates };

    ghost releases = { FirstFitReleases };

    fn len(&self) -> u32 {
        self.pages.len()
    }

    fn bytes(&self) -> &[u8] {
        self.pages.bytes()
    }

    fn write(&mut self, at: u32, src: &[u8]) {
        self.pages.write(at, src);
    }

    fn alloc(&mut self, _align: u32, size: u32) -> Result<u32, Full> {
        if size == 0 {
            return Ok(0);
        }
        let wanted = whole_units(size);
        if let Some(at) = self.holes.take(wanted) {
            return Ok(at);
        }
        self.pages.reach(u64::from(self.holes.tail()) + wanted)?;
        self.holes.grow(self.pages.len() / 8 * 8);
        self.holes.take(wanted).ok_or(Full)
    }

    fn free(&mut self, at: u32, size: u32) -> Result<(), NotTaken> {
        let end = u64::from(at) + whole_units(size);
        if at % 8 != 0 || end > u64::from(self.holes.limit()) {
            return Err(NotTaken);
        }
        if size == 0 {
            return Ok(());
        }
        if !self.holes.give(at, end as u32) {
            return Err(NotTaken);
        }
        Ok(())
    }
}

/// A size rounded up to a multiple of eight.
pub(crate) fn whole_units(size: u32) -> u64
    ensures { result ≡ rounded_to_eight size }
{
    (u64::from(size) + 7) / 8 * 8
}

impl Honest for FirstFit {
    ghost use Rattle.memory.specs.FirstFitLaws.{FirstFitIsHonest};

    ghost is_honest = { FirstFitIsHonest };
}
