//! The names of one header, each taken once.

use atoms::KeyedState;
use indexmap::IndexSet;
use std::alloc::{AllocError, Global};

/// The names of the parts that all headers for hosts, and all headers for guests, have.
static COMMON: &str = "\
WIT_COMMON WIT_ERROR WIT_GUEST WIT_IMPLEMENTATION WIT_NONE WIT_OK WIT_OWN_BLOCKS WIT_SHORT_NAMES WIT_SOME WIT_STRING
cabi_realloc wit_allocate wit_allocate_all wit_begin wit_bool wit_calls wit_char wit_end wit_enter wit_first wit_flat
wit_grow wit_i32 wit_i64 wit_leave wit_next wit_put wit_string wit_string_bytes wit_string_load wit_string_new
wit_string_of wit_string_store
";

/// The names that are taken.
#[derive(Drop)]
pub struct Names {
    alloc: Global,
    taken: IndexSet<String, KeyedState>,
}

impl Names {
    /// The names of the parts that all headers have.
    pub fn new(alloc: Global, keyed: KeyedState) -> Result<Names, AllocError> {
        let mut names = Names {
            alloc,
            taken: IndexSet::with_hasher(alloc, keyed),
        };
        names.take_common()?;
        Ok(names)
    }

    fn take_common(&mut self) -> Result<(), AllocError> {
        for name in COMMON.split_whitespace() {
            self.taken.insert(String::from_str(self.alloc, name)?)?;
        }
        Ok(())
    }

    /// Whether something has this name.
    pub(crate) fn has(&self, name: &str) -> bool {
        self.taken.contains(name)
    }

    /// The first of the names that are this one with a number after it, from 2 on, that nothing else has.
    fn numbered(&self, wanted: &str) -> Result<String, AllocError> {
        for number in 2..usize::MAX {
            let name = format!(in self.alloc; "{wanted}_{number}")?;
            if !self.has(name.as_str()) {
                return Ok(name);
            }
        }
        Err(AllocError)
    }

    /// A name that nothing else has: the one that is wanted, or that with a number after it.
    fn free(&self, wanted: String) -> Result<String, AllocError> {
        if self.has(wanted.as_str()) {
            return self.numbered(wanted.as_str());
        }
        Ok(wanted)
    }

    /// A name that nothing else has, which is taken now: the one that is wanted, or that with a number after it.
    pub fn take(&mut self, wanted: String) -> Result<String, AllocError> {
        let name = self.free(wanted)?;
        self.taken.insert(name.clone()?)?;
        Ok(name)
    }
}
