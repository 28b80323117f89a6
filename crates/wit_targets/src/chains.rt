//! Chains of declarations that are other names of others.
use std::alloc::{AllocError, Global};

/// Where a chain ends.
#[derive(Clone, Copy, PartialEq, Eq)]
pub(crate) enum End {
    At(usize),
    /// It leads into a ring.
    Ring,
}

/// What is known of chains: their ends, and the last walk that came to each link.
#[derive(Drop)]
struct Known {
    ends: Vec<Option<End>>,
    walks: Vec<usize>,
}

impl Known {
    /// Nothing of so many.
    fn nothing(alloc: Global, count: usize) -> Result<Known, AllocError> {
        let mut ends = Vec::with_capacity(alloc, count)?;
        let mut walks = Vec::with_capacity(alloc, count)?;
        for _turn in 0..count {
            ends.push(None)?;
            walks.push(0)?;
        }
        Ok(Known { ends, walks })
    }

    /// The end from here on, if it is known or if this walk was here before.
    fn end(&self, at: usize, walk: usize) -> Option<End> {
        if let Some(Some(end)) = self.ends.get(at) {
            return Some(*end);
        }
        match self.walks.get(at) {
            Some(last) if *last != walk => None,
            _ => Some(End::Ring),
        }
    }

    /// Says that a walk came here.
    fn visit(&mut self, at: usize, walk: usize) {
        if let Some(last) = self.walks.get_mut(at) {
            *last = walk;
        }
    }

    /// Says where all of these end.
    fn put(&mut self, path: &[usize], end: End) {
        for at in path {
            if let Some(known) = self.ends.get_mut(*at) {
                *known = Some(end);
            }
        }
    }
}

/// Walks from a link to the end of its chain, and notes it for all on the way.
fn walk(
    known: &mut Known,
    path: &mut Vec<usize>,
    links: &[Option<usize>],
    first: usize,
) -> Result<(), AllocError> {
    path.clear();
    let walk = first.saturating_add(1);
    let mut at = first;
    let mut end = End::Ring;
    for _turn in 0..links.len().saturating_add(1) {
        if let Some(found) = known.end(at, walk) {
            end = found;
            break;
        }
        known.visit(at, walk);
        path.push(at)?;
        match links.get(at).copied().flatten() {
            Some(next) => at = next,
            None => {
                end = End::At(at);
                break;
            }
        }
    }
    known.put(path.as_slice(), end);
    Ok(())
}

/// Where the chain of each link ends. A link is the index of the next one, or none if it is the last.
pub(crate) fn ends_of(alloc: Global, links: &[Option<usize>]) -> Result<Vec<End>, AllocError> {
    let mut known = Known::nothing(alloc, links.len())?;
    let mut path = Vec::new(alloc);
    for first in 0..links.len() {
        walk(&mut known, &mut path, links, first)?;
    }
    let mut ends = Vec::with_capacity(alloc, links.len())?;
    for end in known.ends.as_slice() {
        ends.push(end.unwrap_or(End::Ring))?;
    }
    Ok(ends)
}
