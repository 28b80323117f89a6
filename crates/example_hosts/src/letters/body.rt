//! The code behind `upper: func(s: string) -> string`.

use std::alloc::Global;
use witcall::{Body, Flat, FlatResults, Guest, Stopped, str_at};

/// A body that answers a text of ASCII with its small letters made capitals, and stops at any other text.
#[derive(Drop)]
pub struct Upper {
    alloc: Global,
}

impl Upper {
    /// The body. `alloc` is for the text while it is changed.
    pub fn new(alloc: Global) -> Upper {
        Upper { alloc }
    }
}

impl<G: Guest> Body<G> for Upper {
    ghost use Rattle.std.specs.Prelude.{◌≡◌, [], Some};

    // It keeps nothing between calls.
    ghost state = { λ _. [] };

    // A run may do anything with the memory, and answer anything.
    ghost runs = { λ _ s _ _ s' _ _. s' ≡ s };

    // Its post-return changes nothing.
    ghost posts = { λ _ s m _ s' m' done. (s' ≡ s) × (m' ≡ m) × (done ≡ Some tt) };

    fn call(&mut self, memory: &mut G, arguments: &[Flat]) -> Result<FlatResults, Stopped> {
        // A string is given as its address and its length.
        let [Flat::I32(at), Flat::I32(len)] = arguments else {
            return Err(Stopped);
        };
        let text = capitals(self.alloc, memory, *at, *len)?;
        let Ok(to) = memory.alloc(1, *len) else {
            return Err(Stopped);
        };
        put(memory, to, text.as_bytes())?;
        // A string as a result is answered as the address of these two numbers.
        let Ok(area) = memory.alloc(4, 8) else {
            return Err(Stopped);
        };
        let pair = u64::from(to) | u64::from(*len) << 32;
        put(memory, area, pair.to_le_bytes().as_slice())?;
        let mut answer = FlatResults::new();
        answer.push(Flat::I32(area));
        Ok(answer)
    }

    fn post_return(&mut self, _memory: &mut G, _answer: &[Flat]) -> Result<(), Stopped> {
        Ok(())
    }
}

/// The text at an address, in capitals.
fn capitals<G: Guest>(alloc: Global, memory: &G, at: u32, len: u32) -> Result<String, Stopped> {
    let Ok(text) = str_at(memory, at, len) else {
        return Err(Stopped);
    };
    if !text.is_ascii() {
        return Err(Stopped);
    }
    text.to_ascii_uppercase(alloc).map_err(|_error| Stopped)
}

/// Writes bytes at an address, where the memory has room for them there.
fn put<G: Guest>(memory: &mut G, at: u32, bytes: &[u8]) -> Result<(), Stopped> {
    let len = memory.len() as usize;
    let start = at as usize;
    if start > len || bytes.len() > len - start {
        return Err(Stopped);
    }
    memory.write(at, bytes);
    Ok(())
}
