//! A call in halves, without a body: what each half will ask for, and what stands in both memories after it.

use crate::packages::function;
use adapter::{Invocation, Link, Request};
use canonical_abi::{Flat, Guest};
use lift_lower::Flats;
use memory::Bump;
use std::alloc::Global;
use std::process::Abort;
use std::test::Fail;
use witcall::{Package, open};

const TEXT: &[u8] = b"package a:b; interface c { f: func(x: list<string>) -> string; }";

/// The list of the texts `a` and `bc`: its two elements, then their bytes.
const LIST: &[u8; 19] = b"\x10\0\0\0\x01\0\0\0\x11\0\0\0\x02\0\0\0abc";

/// The list stands at 0, and the return area at 32.
const FLATS: [Flat; 3] = [Flat::I32(0), Flat::I32(2), Flat::I32(32)];

/// What the core function answers: where the header of its text stands.
const ANSWER: [Flat; 1] = [Flat::I32(24)];

/// The header of the text `abc` at 16.
const HEADER: [u8; 8] = [16, 0, 0, 0, 3, 0, 0, 0];

const NOTHING: Request = Request { align: 0, size: 0 };

const fn asked(align: u32, size: u32) -> Request {
    Request { align, size }
}

/// A memory of 64 bytes that begins with these.
fn filled(alloc: Global, bytes: &[u8]) -> Result<Bump, Fail> {
    let mut guest = Bump::new(alloc, 64)?;
    if bytes.len() <= guest.len() as usize {
        guest.write(0, bytes);
    }
    Ok(guest)
}

/// Whether a memory is these bytes and zeros behind them.
fn is_then_zeros(memory: &[u8], front: &[u8]) -> bool {
    match memory.strip_prefix(front) {
        Some(rest) => rest.iter().all(|byte| *byte == 0),
        None => false,
    }
}

/// What the first half will ask the callee for: a block of the list, and one of each text.
fn assert_asks(rt: &impl Abort, package: &Package, caller: &Bump) -> Result<(), Fail> {
    let f = function(package)?;
    let mut link = Link::new(package.resolve(), package.layouts());
    let mut slots = [NOTHING; 4];
    assert!(rt; link.enter_requests(f, &FLATS, caller, &mut slots, 19) == Ok(3));
    assert!(rt; slots == [asked(4, 16), asked(1, 1), asked(1, 2), NOTHING]);
    Ok(())
}

/// What the second half will ask the caller for, told where there is no slot too: a block of the text.
fn assert_asks_back(rt: &impl Abort, package: &Package, callee: &Bump) -> Result<(), Fail> {
    let f = function(package)?;
    let mut link = Link::new(package.resolve(), package.layouts());
    let mut slots = [NOTHING; 1];
    assert!(rt; link.leave_requests(f, &ANSWER, callee, &mut [], 3) == Ok(1));
    assert!(rt; link.leave_requests(f, &ANSWER, callee, &mut slots, 3) == Ok(1));
    assert!(rt; slots == [asked(1, 3)]);
    Ok(())
}

/// The flat values for the core function.
fn handed(package: &Package, caller: &Bump, callee: &mut Bump) -> Result<Flats, Fail> {
    let f = function(package)?;
    let mut link = Link::new(package.resolve(), package.layouts());
    let mut handed = Flats::new();
    let call = &Invocation {
        func: f,
        flats: &FLATS,
    };
    match link.enter(call, caller, callee, &mut handed) {
        Ok(()) => Ok(handed),
        Err(_) => Err(Fail::from("a trap on the way there")),
    }
}

/// The flat values for the caller.
fn given_back(package: &Package, caller: &mut Bump, callee: &Bump) -> Result<Flats, Fail> {
    let f = function(package)?;
    let mut link = Link::new(package.resolve(), package.layouts());
    let mut back = Flats::new();
    let call = &Invocation {
        func: f,
        flats: &FLATS,
    };
    match link.leave(call, &ANSWER, caller, callee, &mut back) {
        Ok(()) => Ok(back),
        Err(_) => Err(Fail::from("a trap on the way back")),
    }
}

/// What the callee is handed, and what stands in its memory then.
fn assert_enters(
    rt: &impl Abort,
    package: &Package,
    caller: &Bump,
    callee: &mut Bump,
) -> Result<(), Fail> {
    let handed = handed(package, caller, callee)?;
    assert!(rt; handed.as_slice() == [Flat::I32(0), Flat::I32(2)].as_slice());
    assert!(rt; is_then_zeros(callee.bytes(), LIST));
    Ok(())
}

/// What the caller is given back, and what stands in its memory then.
fn assert_leaves(
    rt: &impl Abort,
    package: &Package,
    caller: &mut Bump,
    callee: &Bump,
) -> Result<(), Fail> {
    let back = given_back(package, caller, callee)?;
    assert!(rt; back.is_empty());
    assert!(rt; caller.bytes().get(..3) == Some(b"abc".as_slice()));
    assert!(rt; caller.bytes().get(32..40) == Some([0, 0, 0, 0, 3, 0, 0, 0].as_slice()));
    Ok(())
}

/// What both halves ask for and do.
fn assert_halves(rt: &impl Abort, alloc: Global, package: &Package) -> Result<(), Fail> {
    let (mut caller, mut callee) = (filled(alloc, LIST)?, filled(alloc, &[])?);
    assert_asks(rt, package, &caller)?;
    assert_enters(rt, package, &caller, &mut callee)?;
    assert!(rt; callee.len() == 64);
    callee.write(24, &HEADER);
    assert_asks_back(rt, package, &callee)?;
    assert_leaves(rt, package, &mut caller, &callee)
}

#[test]
fn a_call_in_halves(rt: HostRuntime) -> Result<(), Fail> {
    let package = open(rt.alloc(), TEXT)?;
    assert_halves(&rt, rt.alloc(), &package)
}
