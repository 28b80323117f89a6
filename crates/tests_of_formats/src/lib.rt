//! Tests of the parts of both formats that no row can say: components that are made of their parts, readers and writers
//! that fail, and keys of names. It has no code of its own.
#![tactic(auto)]

#[cfg(test)]
mod components;
#[cfg(test)]
mod interrupted;
#[cfg(test)]
mod names;

/// `package a:b; interface c { f: func(x: u32) -> u32; }`
pub const SMALLEST: &[u8; 55] =
    b"\0asm\x0d\0\x01\0\x07\x1e\x01\x41\x02\x01\x42\x02\x01\x40\x01\x01\x78\x79\0\x79\x04\0\x01\x66\x01\
    \0\x04\0\x05a:b/c\x05\0\x0b\x0d\x01\0\x07package\x03\0\0";
