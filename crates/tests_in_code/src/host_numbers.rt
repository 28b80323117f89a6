//! What a host that counts in numbers is told of a function, and the lines of statuses.

use crate::host_halves::{TEXT, assert_line};
use crate::packages::number;
use host_calls::{
    CallError, Part, Status, function_of, lifted_params, lifted_result, lowered_params,
    lowered_result, parameter_parts, result_part,
};
use std::process::Abort;
use std::test::Fail;
use witcall::{Package, open};

const NUMBERS: &[u8] = b"package a:b; interface c { f: func(a: u8, b: u64, c: u16) -> u32; }";

const fn part(size: u32, align: u32, offset: u32) -> Part {
    Part {
        size,
        align,
        offset,
    }
}

/// How the parameters and the result of `f` lie in memory.
fn parts(
    package: &Package,
    params: &mut [Part],
    results: &mut [Part],
) -> Result<(usize, usize), CallError> {
    let types = package.types();
    let f = function_of(&types, number(package))?;
    let first = parameter_parts(&types, f, params)?;
    let second = result_part(&types, f, results)?;
    Ok((first, second))
}

fn is_part(part: &Part, size: u32, align: u32, offset: u32) -> bool {
    part.size == size && part.align == align && part.offset == offset
}

fn assert_parts(rt: &impl Abort, package: &Package) {
    let (mut params, mut results) = ([part(9, 9, 9); 3], [part(9, 9, 9); 1]);
    let done = parts(package, &mut params, &mut results);
    assert!(rt; matches!(done, Ok((3, 1))));
    let [a, b, c] = &params;
    assert!(rt; is_part(a, 1, 1, 0) && is_part(b, 8, 8, 8) && is_part(c, 2, 2, 16));
    assert!(rt; is_part(&results[0], 4, 4, 0));
}

fn assert_no_room(rt: &impl Abort, package: &Package) {
    let (mut two, mut results) = ([part(9, 9, 9); 2], [part(9, 9, 9); 1]);
    let done = parts(package, &mut two, &mut results);
    assert!(rt; matches!(done, Err(CallError::NoRoom(3))));
}

#[test]
fn parts_of_a_function(rt: HostRuntime) -> Result<(), Fail> {
    let package = open(rt.alloc(), NUMBERS)?;
    assert_parts(&rt, &package);
    assert_no_room(&rt, &package);
    Ok(())
}

/// A core signature's part.
#[derive(Clone, Copy)]
enum Side {
    LiftedParams,
    LiftedResult,
    LoweredParams,
    LoweredResult,
}

/// The kinds of a part of a core signature of `f`.
fn kinds(package: &Package, side: Side, out: &mut [u32]) -> Result<usize, CallError> {
    let types = package.types();
    let f = function_of(&types, number(package))?;
    match side {
        Side::LiftedParams => lifted_params(&types, f, out),
        Side::LiftedResult => lifted_result(&types, f, out),
        Side::LoweredParams => lowered_params(&types, f, out),
        Side::LoweredResult => lowered_result(&types, f, out),
    }
}

/// The kinds of the text's function: 0 is an i32, 1 an i64, and 9 is not written.
const KINDS: [(&[u8], Side, usize, [u32; 5]); 8] = [
    (NUMBERS, Side::LiftedParams, 3, [0, 1, 0, 9, 9]),
    (NUMBERS, Side::LiftedResult, 1, [0, 9, 9, 9, 9]),
    (NUMBERS, Side::LoweredParams, 3, [0, 1, 0, 9, 9]),
    (NUMBERS, Side::LoweredResult, 1, [0, 9, 9, 9, 9]),
    (TEXT, Side::LiftedParams, 3, [0, 0, 0, 9, 9]),
    (TEXT, Side::LiftedResult, 1, [0, 9, 9, 9, 9]),
    (TEXT, Side::LoweredParams, 4, [0, 0, 0, 0, 9]),
    (TEXT, Side::LoweredResult, 0, [9, 9, 9, 9, 9]),
];

fn assert_kinds(rt: &impl Abort, package: &Package, side: Side, count: usize, wanted: &[u32; 5]) {
    let mut out = [9; 5];
    let done = kinds(package, side, &mut out);
    assert!(rt; matches!(done, Ok(told) if told == count));
    assert!(rt; out == *wanted);
}

#[test]
fn kinds_of_core_signatures(rt: HostRuntime) -> Result<(), Fail> {
    for (text, side, count, wanted) in &KINDS {
        let package = open(rt.alloc(), text)?;
        assert_kinds(&rt, &package, *side, *count, wanted);
    }
    Ok(())
}

/// Code, number, step and count, and the line.
const STATUSES: [(u32, u32, u32, u32, &str); 12] = [
    (0, 0, 0, 3, ""),
    (1, 63, 0, 0, "error 63 no function"),
    (1, 70, 0, 0, "error 70 not open"),
    (1, 71, 0, 17, "error 71 no room for 17"),
    (1, 73, 0, 2, "error 73 other block 2"),
    (1, 72, 0, 0, "error 72 bad block"),
    (1, 76, 0, 0, "error 76 above the limit"),
    (1, 41, 0, 0, "error 41"),
    (2, 5, 2, 0, "trap K5 utf8 in lift-args"),
    (2, 8, 7, 0, "trap K8 coresignature in post"),
    (3, 66, 0, 0, "error 66 no memory"),
    (3, 35, 0, 0, "error 35 no memory"),
];

#[test]
fn lines_of_statuses(rt: HostRuntime) -> Result<(), Fail> {
    for (code, number, step, count, line) in &STATUSES {
        let status = Status {
            code: *code,
            number: *number,
            step: *step,
            count: *count,
        };
        assert_line(&rt, rt.alloc(), status, line)?;
    }
    Ok(())
}
