//! A whole call in halves over two arrays of bytes, for hosts that count in numbers, and what the halves refuse.

use crate::packages::number;
use adapter::Request;
use host_calls::{CallError, Half, Status, Value, enter_requests, function_of, leave_requests};
use memory::Block;
use std::alloc::Global;
use std::process::Abort;
use std::test::Fail;
use witcall::{Package, open};

pub const TEXT: &[u8] =
    b"package a:b; interface c { f: func(names: list<string>, n: u8) -> string; }";

/// The texts `red` at 3 and `äpfel` at 9, and their list at 16.
const CALLER: &[u8; 64] =
    b"...red...\xc3\xa4pfel.\x03\0\0\0\x03\0\0\0\x09\0\0\0\x06\0\0\0................................";

/// The callee before the call.
const DOTS: &[u8; 64] = b"................................................................";

/// Then: the texts at 30 and 20, and their list at 40.
const ENTERED: &[u8; 64] =
    b"....................\xc3\xa4pfel....red.......\x1e\0\0\0\x03\0\0\0\x14\0\0\0\x06\0\0\0........";

/// What the core function leaves: the text `done` at 1, and its header at 8.
const ANSWERED: &[u8; 64] =
    b".done...\x01\0\0\0\x04\0\0\0................................................";

/// The caller after the call: the header in the return area at 40, and the text at 52.
const RETURNED: &[u8; 64] =
    b"...red...\xc3\xa4pfel.\x03\0\0\0\x03\0\0\0\x09\0\0\0\x06\0\0\0........\x34\0\0\0\x04\0\0\0....done........";

const fn word(bits: u64) -> Value {
    Value { kind: 0, bits }
}

const fn block(align: u32, size: u32, at: u32) -> Block {
    Block { align, size, at }
}

/// The flat values of the call: the list, its length, the number, and the return area.
fn flats() -> [Value; 4] {
    [word(16), word(2), word(7), word(40)]
}

/// The blocks for the list, which stands at this address, and for its texts.
fn blocks(list_at: u32) -> [Block; 3] {
    [block(4, 16, list_at), block(1, 3, 30), block(1, 6, 20)]
}

/// The first half of a call of `f` from CALLER.
fn entered(
    alloc: Global,
    package: &Package,
    flats: &[Value],
    callee: &mut [u8],
    blocks: &[Block],
    handed: &mut [Value],
) -> Result<usize, CallError> {
    let types = package.types();
    let f = function_of(&types, number(package))?;
    let half = Half {
        alloc,
        types: &types,
        func: f,
        blocks,
    };
    let mut caller = *CALLER;
    half.enter(flats, &mut caller, callee, handed)
}

/// The second half, from ANSWERED.
fn left(
    alloc: Global,
    package: &Package,
    caller: &mut [u8],
    blocks: &[Block],
    back: &mut [Value],
) -> Result<usize, CallError> {
    let types = package.types();
    let f = function_of(&types, number(package))?;
    let half = Half {
        alloc,
        types: &types,
        func: f,
        blocks,
    };
    let mut callee = *ANSWERED;
    half.leave(&flats(), &[word(8)], &mut callee, caller, back)
}

/// What both halves will ask for.
fn asked(
    package: &Package,
    there: &mut [Request],
    back: &mut [Request],
) -> Result<(usize, usize), CallError> {
    let types = package.types();
    let f = function_of(&types, number(package))?;
    let (mut caller, mut callee) = (*CALLER, *ANSWERED);
    let first = enter_requests(&types, f, &flats(), &mut caller, there, 25)?;
    let second = leave_requests(&types, f, &[word(8)], &mut callee, back, 4)?;
    Ok((first, second))
}

const fn request(align: u32, size: u32) -> Request {
    Request { align, size }
}

/// A block of the list and one of each text, and then one of the answer.
fn assert_asked(rt: &impl Abort, package: &Package) {
    let (mut there, mut back) = ([request(0, 0); 4], [request(0, 0); 2]);
    let done = asked(package, &mut there, &mut back);
    assert!(rt; matches!(done, Ok((3, 1))));
    assert!(rt; there == [request(4, 16), request(1, 3), request(1, 6), request(0, 0)]);
    assert!(rt; back == [request(1, 4), request(0, 0)]);
}

/// Whether a value is an i32 of this number.
fn is_word(value: &Value, number: u64) -> bool {
    value.kind == 0 && value.bits == number
}

fn assert_entered(rt: &impl Abort, alloc: Global, package: &Package) {
    let (mut callee, mut handed) = (*DOTS, [word(9); 17]);
    let done = entered(
        alloc,
        package,
        &flats(),
        &mut callee,
        &blocks(40),
        &mut handed,
    );
    assert!(rt; matches!(done, Ok(3)));
    assert!(rt; callee == *ENTERED);
    let [list, len, n, rest, ..] = &handed;
    assert!(rt; is_word(list, 40) && is_word(len, 2) && is_word(n, 7) && is_word(rest, 9));
}

fn assert_left(rt: &impl Abort, alloc: Global, package: &Package) {
    let (mut caller, mut back) = (*CALLER, [word(9); 17]);
    let done = left(alloc, package, &mut caller, &[block(1, 4, 52)], &mut back);
    assert!(rt; matches!(done, Ok(0)));
    assert!(rt; caller == *RETURNED);
    assert!(rt; is_word(&back[0], 9));
}

fn assert_halves(rt: &impl Abort, alloc: Global, package: &Package) {
    assert_asked(rt, package);
    assert_entered(rt, alloc, package);
    assert_left(rt, alloc, package);
}

#[test]
fn a_call_in_halves(rt: HostRuntime) -> Result<(), Fail> {
    let package = open(rt.alloc(), TEXT)?;
    assert_halves(&rt, rt.alloc(), &package);
    Ok(())
}

/// Whether the line of a status is this.
pub fn assert_line(
    rt: &impl Abort,
    alloc: Global,
    status: Status,
    wanted: &str,
) -> Result<(), Fail> {
    let found = format!(in alloc; "{status}")?;
    assert!(rt; found.as_str() == wanted, "{found}, not {wanted}");
    Ok(())
}

/// How many flat values there are, for how many there is room, how many blocks there are, where the list's block
/// stands, and the line.
const REFUSALS: [(usize, usize, usize, u32, &str); 7] = [
    (4, 16, 3, 40, "error 71 no room for 17"),
    (4, 17, 3, 42, "error 72 bad block"),
    (4, 17, 3, 52, "error 72 bad block"),
    (4, 17, 3, 28, "error 72 bad block"),
    (18, 17, 3, 40, "trap K8 coresignature in lift-args"),
    (3, 17, 3, 42, "trap K8 coresignature in lift-args"),
    (4, 17, 0, 40, "trap K6 full in lower-args"),
];

/// The first half with so many flat values, so much room and so many of the blocks.
fn refused(
    alloc: Global,
    package: &Package,
    row: &(usize, usize, usize, u32, &str),
    callee: &mut [u8],
) -> Result<usize, CallError> {
    let (count, room, granted, list_at, _) = *row;
    let (few, many) = (flats(), [word(0); 18]);
    let flats = few.get(..count).unwrap_or(&many);
    let blocks = blocks(list_at);
    let blocks = blocks.get(..granted).unwrap_or(&[]);
    let mut handed = [word(9); 17];
    let handed = handed.get_mut(..room).unwrap_or(&mut []);
    entered(alloc, package, flats, callee, blocks, handed)
}

fn assert_refused(
    rt: &impl Abort,
    alloc: Global,
    package: &Package,
    row: &(usize, usize, usize, u32, &str),
) -> Result<(), Fail> {
    let mut callee = *DOTS;
    let done = refused(alloc, package, row, &mut callee);
    assert!(rt; callee == *DOTS);
    assert_line(rt, alloc, Status::of(done), row.4)
}

#[test]
fn refused_first_halves(rt: HostRuntime) -> Result<(), Fail> {
    let package = open(rt.alloc(), TEXT)?;
    for row in &REFUSALS {
        assert_refused(&rt, rt.alloc(), &package, row)?;
    }
    Ok(())
}

/// What the first half answers where the block of the first text is a byte short.
fn entered_short(alloc: Global, package: &Package) -> Status {
    let (mut callee, mut handed) = (*DOTS, [word(9); 17]);
    let granted = [block(4, 16, 40), block(1, 2, 30), block(1, 6, 20)];
    Status::of(entered(alloc, package, &flats(), &mut callee, &granted, &mut handed))
}

#[test]
fn a_block_of_another_size(rt: HostRuntime) -> Result<(), Fail> {
    let package = open(rt.alloc(), TEXT)?;
    let status = entered_short(rt.alloc(), &package);
    assert_line(&rt, rt.alloc(), status, "error 73 other block 1")
}

/// Where the block for the answer stands, and the line.
const PLACES: [(u32, &str); 6] = [
    (36, ""),
    (37, "error 72 bad block"),
    (40, "error 72 bad block"),
    (47, "error 72 bad block"),
    (48, ""),
    (61, "error 72 bad block"),
];

/// What the second half answers with a block at this address. Where it is refused, the caller is as before.
fn left_with(rt: &impl Abort, alloc: Global, package: &Package, at: u32) -> Status {
    let (mut caller, mut back) = (*CALLER, [word(9); 17]);
    let done = left(alloc, package, &mut caller, &[block(1, 4, at)], &mut back);
    assert!(rt; done.is_ok() || caller == *CALLER);
    Status::of(done)
}

/// No block of the second half meets the return area.
#[test]
fn blocks_beside_the_return_area(rt: HostRuntime) -> Result<(), Fail> {
    let package = open(rt.alloc(), TEXT)?;
    for (at, line) in &PLACES {
        let status = left_with(&rt, rt.alloc(), &package, *at);
        assert_line(&rt, rt.alloc(), status, line)?;
    }
    Ok(())
}

/// The second half where nothing was answered, with a block past the end of the caller.
fn left_unanswered(alloc: Global, package: &Package) -> Result<usize, CallError> {
    let types = package.types();
    let half = Half {
        alloc,
        types: &types,
        func: function_of(&types, number(package))?,
        blocks: &[block(1, 4, 61)],
    };
    let (mut caller, mut callee, mut back) = (*CALLER, *ANSWERED, [word(9); 17]);
    half.leave(&flats(), &[], &mut callee, &mut caller, &mut back)
}

/// The kinds of the answer are tested before the blocks.
#[test]
fn no_answer_and_a_bad_block(rt: HostRuntime) -> Result<(), Fail> {
    let package = open(rt.alloc(), TEXT)?;
    let status = Status::of(left_unanswered(rt.alloc(), &package));
    assert_line(
        &rt,
        rt.alloc(),
        status,
        "trap K8 coresignature in lift-result",
    )
}
