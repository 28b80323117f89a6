//! Long names, cut.

use sha2::{Digest, Sha256};
use std::alloc::{AllocError, Global};
use text_builder::TextBuilder;

/// The most letters of the key of a type without a name.
const MAX_KEY: usize = 120;

/// The bytes of a digest that are told.
const TOLD: usize = 12;

/// The key of a type without a name as its name has it: one that is too long becomes its first word and a hash.
pub fn short_key(alloc: Global, word: &str, key: String) -> Result<String, AllocError> {
    if key.len() <= MAX_KEY {
        return Ok(key);
    }
    let digest = Sha256::digest(key.as_bytes());
    let mut short = TextBuilder::new(alloc);
    short.push(word);
    short.push("_x");
    for index in 0..TOLD {
        let byte = digest[index];
        short.push_made(format!(in alloc; "{byte:02x}"));
    }
    short.finish()
}
