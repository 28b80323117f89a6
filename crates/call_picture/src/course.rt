//! What a call did.

use crate::noted::Noted;
use canonical_abi::{Fault, Flat};
use std::alloc::{AllocError, Global};

/// What a call did, as far as it came.
#[derive(Drop)]
pub struct Course {
    pub caller: Noted,
    pub callee: Noted,
    /// What the caller passes. None if there was a trap before it.
    pub passed: Option<Vec<Flat>>,
    /// What the callee's function is given.
    pub handed: Option<Vec<Flat>>,
    /// What it answers.
    pub answered: Option<Vec<Flat>>,
    /// What the caller gets back.
    pub returned: Option<Vec<Flat>>,
    /// The address of the return area in the caller, if there is one.
    pub area: Option<u32>,
    /// The nodes that were visited on the way of the arguments.
    pub nodes_there: u64,
    /// The nodes that were visited on the way of the result.
    pub nodes_back: u64,
}

impl Course {
    /// Two fresh memories, before the call.
    pub fn new(alloc: Global) -> Result<Course, AllocError> {
        Ok(Course {
            caller: Noted::new(alloc)?,
            callee: Noted::new(alloc)?,
            passed: None,
            handed: None,
            answered: None,
            returned: None,
            area: None,
            nodes_there: 0,
            nodes_back: 0,
        })
    }
}

/// Keeps core values to be shown.
pub fn keep(alloc: Global, kept: &mut Option<Vec<Flat>>, flats: &[Flat]) -> Result<(), Fault> {
    match flats.iter().copied().collect::<Vec<Flat>>(alloc) {
        Ok(copies) => {
            *kept = Some(copies);
            Ok(())
        }
        Err(_) => Err(Fault::NoMemory),
    }
}

/// Core values that are kept. None if the call didn't come to them.
pub fn kept(flats: &Option<Vec<Flat>>) -> &[Flat] {
    match flats {
        Some(flats) => flats.as_slice(),
        None => &[],
    }
}
