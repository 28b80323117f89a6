//! Things that use each other.

use std::alloc::{AllocError, Global};
use std::fmt::Write;
use tables::Sequence;

/// Whether all of these are marked.
fn all_marked(marks: &[bool], places: &[usize]) -> bool {
    places
        .iter()
        .all(|place| marks.get(*place).copied().unwrap_or(true))
}

/// Marks those that use marked ones alone. Whether one was marked.
fn mark_ready(graph: &[Sequence<usize>], marks: &mut [bool]) -> bool {
    let mut is_changed = false;
    for (place, used) in graph.iter().enumerate() {
        let is_ready = all_marked(marks, used.as_slice());
        if let Some(mark) = marks.get_mut(place) {
            is_changed |= is_ready && !*mark;
            *mark = is_ready;
        }
    }
    is_changed
}

/// The first that a place uses which isn't marked.
fn next_unmarked(graph: &[Sequence<usize>], marks: &[bool], place: usize) -> Option<usize> {
    for used in graph.get(place)?.as_slice() {
        if marks.get(*used) == Some(&false) {
            return Some(*used);
        }
    }
    None
}

/// Which places use none that uses itself.
fn marks_of(alloc: Global, graph: &[Sequence<usize>]) -> Result<Vec<bool>, AllocError> {
    let mut marks = vec![in alloc; false; graph.len()]?;
    for _ in 0..graph.len() {
        if !mark_ready(graph, marks.as_mut_slice()) {
            break;
        }
    }
    Ok(marks)
}

/// A place that uses itself, directly or by others, if there is one.
fn place_on_ring(graph: &[Sequence<usize>], marks: &[bool]) -> Option<usize> {
    let mut place = marks.iter().position(|mark| !*mark);
    for _ in 0..graph.len() {
        if let Some(from) = place {
            place = next_unmarked(graph, marks, from);
        }
    }
    place
}

/// The places of a ring: each uses the next, and the last uses the first. No place if there is no ring.
pub fn ring_in(alloc: Global, graph: &[Sequence<usize>]) -> Result<Vec<usize>, AllocError> {
    let marks = marks_of(alloc, graph)?;
    let marks = marks.as_slice();
    let mut ring = Vec::new(alloc);
    let mut next = place_on_ring(graph, marks);
    for _ in 0..graph.len() {
        match next {
            Some(place) if ring.first() != Some(&place) => {
                ring.push(place)?;
                next = next_unmarked(graph, marks, place);
            }
            _ => break,
        }
    }
    Ok(ring)
}

/// The names of a ring with arrows between them, the first again at the end.
pub fn chain_of(alloc: Global, ring: &[&str]) -> Result<String, AllocError> {
    let mut chain = String::new(alloc);
    for name in ring {
        write!(chain, "`{name}` -> ")?;
    }
    if let Some(name) = ring.first() {
        write!(chain, "`{name}`")?;
    }
    Ok(chain)
}
