//! Core functions, as the host runs them.
ghost use Rattle.std.specs.Prelude.{option_map};
ghost use Rattle.std.specs.Result.{result_ok};
ghost use Rattle.example_hosts.specs.Promise.{RunsOnBytes, PostsOnBytes};

use adapter::Stopped;
use canonical_abi::{Callee, Flat};
use lift_lower::FlatResults;

/// The callee's core function and its post-return, which an engine runs over the bytes of the callee's memory. They may
/// make the runs that `Callee` tells, whatever is live in the memory, and keep nothing but what they write there.
pub trait CoreFunction: Callee {
    /// Runs the core function on these flat values.
    fn run(&self, memory: &mut [u8], arguments: &[Flat]) -> Result<FlatResults, Stopped>
        ensures { RunsOnBytes (Self.runs self.now) memory.old arguments.now memory.new
            (option_map (λ flats. flats.items) (result_ok result)) };

    /// Runs the post-return on what the core function answered.
    fn post_return(&self, memory: &mut [u8], answer: &[Flat]) -> Result<(), Stopped>
        ensures { PostsOnBytes (Self.posts self.now) memory.old answer.now memory.new (result_ok result) };
}

/// `double: func(xs: list<u8>) -> list<u8>`. It doubles each byte of the list where it lies, and writes the list's
/// address and its length to 8, which it answers. It stops if the memory is too short.
#[derive(Drop)]
pub struct Doubling;

impl Callee for Doubling {
    ghost use Rattle.std.specs.Prelude.{◌≡◌, Some};

    // A run may do anything with the memory, and answer anything.
    ghost runs = { λ _ _ _ _ _ _ _. Unit {0} };

    // Its post-return changes nothing.
    ghost posts = { λ _ s m _ s' m' done. (s' ≡ s) × (m' ≡ m) × (done ≡ Some tt) };
}

impl CoreFunction for Doubling {
    fn run(&self, memory: &mut [u8], arguments: &[Flat]) -> Result<FlatResults, Stopped> {
        let [Flat::I32(at), Flat::I32(len)] = arguments else {
            return Err(Stopped);
        };
        let start = *at as usize;
        let end = start + *len as usize;
        if memory.len() < end.max(16) {
            return Err(Stopped);
        }
        for byte in memory[start..end].iter_mut() {
            *byte = byte.wrapping_mul(2);
        }
        memory[8..12].copy_from_slice(&at.to_le_bytes());
        memory[12..16].copy_from_slice(&len.to_le_bytes());
        let mut answer = FlatResults::new();
        answer.push(Flat::I32(8));
        Ok(answer)
    }

    fn post_return(&self, _memory: &mut [u8], _answer: &[Flat]) -> Result<(), Stopped> {
        Ok(())
    }
}
