//! A host that runs core functions itself, over two memories of its own: it calls in the halves of `host_calls`, and
//! prints what the caller is given.
//!
//! The steps of a call are those of docs/LIBRARY.md: request the blocks, grant them, enter, run, and the same way back.
//! `call` has them in order, and its contract has the promise of the call, by the law `halves_keep_promise` of
//! `canonical_abi`. The allocators run in the two memories, and what they grant is tested before it is handed out.
//! Nothing is asked of the core function.

mod call;
mod core_function;
mod grants;
mod requests;
mod steps;

use crate::halves::call::call;
use crate::halves::core_function::Doubling;
use adapter::Invocation;
use canonical_abi::Flat;
use opening::{Package, open};
use std::alloc::Global;
use std::process::ExitCode;

const TEXT: &[u8] =
    b"package demo:sums; interface numbers { double: func(xs: list<u8>) -> list<u8>; }";

/// How the caller's memory begins: its next free address is 32, and the list is at 4.
const CALLER: [u8; 8] = [32, 0, 0, 0, 1, 2, 3, 100];

/// How the callee's begins: its next free address is 16.
const CALLEE: [u8; 4] = [16, 0, 0, 0];

/// The list's address and length, and the return area.
const FLATS: [Flat; 3] = [Flat::I32(4), Flat::I32(4), Flat::I32(8)];

/// Calls `double`, and prints the list that the caller is given.
pub fn print_answer(rt: &HostRuntime) -> ExitCode {
    let Ok(package) = open(rt.alloc(), TEXT) else {
        return ExitCode::FAILURE;
    };
    let mut caller = [0; 64];
    caller[..8].copy_from_slice(&CALLER);
    if !is_doubled(rt.alloc(), &package, &mut caller) {
        return ExitCode::FAILURE;
    }
    // The answer is in the first block that the caller's allocator granted.
    let [a, b, c, d] = [caller[32], caller[33], caller[34], caller[35]];
    match println!(rt; "{a} {b} {c} {d}") {
        Ok(()) => ExitCode::SUCCESS,
        Err(_) => ExitCode::FAILURE,
    }
}

/// Whether the call of `double` was made.
fn is_doubled(alloc: Global, package: &Package, caller: &mut [u8; 64]) -> bool {
    let types = package.types();
    let Some(func) = types.resolve().function("demo:sums/numbers", "double") else {
        return false;
    };
    let mut callee = [0; 64];
    callee[..4].copy_from_slice(&CALLEE);
    let invocation = Invocation {
        func,
        flats: &FLATS,
    };
    call(alloc, &types, &invocation, caller, &mut callee, &Doubling).is_ok()
}
