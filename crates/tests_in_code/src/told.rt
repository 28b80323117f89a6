//! The lines and the statuses of refusals.

use atoms::Watched;
use canonical_abi::{Step, Trap, TrapKind};
use std::alloc::Global;
use std::process::Abort;
use witcall::{JsonError, MemoryError, OpenError, Refused, report};
use words::WordsError;

/// The line and the status of a refusal.
fn told(alloc: Global, refused: &Refused) -> (Vec<u8>, u8) {
    let mut errors = Watched::new(Vec::new(alloc));
    let status = report(refused, &mut errors);
    (errors.into_inner(), status)
}

fn assert_told(rt: &impl Abort, alloc: Global, refused: &Refused, wanted: &str, status: u8) {
    let (line, found) = told(alloc, refused);
    assert!(rt;
        line.as_slice() == wanted.as_bytes() && found == status,
        "{wanted}"
    );
}

static TRAPS: [(TrapKind, Step, &str); 8] = [
    (TrapKind::Char, Step::Place, "trap K1 char in place\n"),
    (TrapKind::Case, Step::Take, "trap K2 case in take\n"),
    (
        TrapKind::Align,
        Step::LowerResult,
        "trap K3 align in lower-result\n",
    ),
    (
        TrapKind::Bounds,
        Step::LowerArgs,
        "trap K4 bounds in lower-args\n",
    ),
    (
        TrapKind::Utf8,
        Step::LiftArgs,
        "trap K5 utf8 in lift-args\n",
    ),
    (TrapKind::Full, Step::Post, "trap K6 full in post\n"),
    (TrapKind::Body, Step::Body, "trap K7 body in body\n"),
    (
        TrapKind::CoreSignature,
        Step::LiftResult,
        "trap K8 coresignature in lift-result\n",
    ),
];

#[test]
fn traps(rt: HostRuntime) {
    for row in TRAPS.as_slice() {
        let (kind, step, wanted) = *row;
        assert_told(
            &rt,
            rt.alloc(),
            &Refused::Trap(Trap { kind, step }),
            wanted,
            3,
        );
    }
}

const USAGE: &str =
    "usage: witcall show|bin|text|layout FILE, or call FILE IFACE FUNC ARGS REPLY\n";

const NO_MEMORY: &str = "error 66 no memory\n";

/// A refusal of each kind.
fn refusal(number: usize) -> Refused {
    match number {
        0 => Refused::Words(WordsError::Usage),
        1 => Refused::File,
        2 => Refused::NoFunction,
        3 => Refused::Write,
        4 => Refused::Open(OpenError::Read(5)),
        5 => Refused::Open(OpenError::NotUtf8(3)),
        6 => Refused::NoMemory,
        7 => Refused::Words(WordsError::NoMemory),
        8 => Refused::Open(OpenError::NoMemory),
        9 => Refused::Memory(MemoryError::NoMemory),
        _ => Refused::Json(JsonError::NoMemory),
    }
}

/// The line and the status of each.
const REFUSALS: [(&str, u8); 11] = [
    (USAGE, 2),
    ("error 64 file\n", 1),
    ("error 63 no function\n", 1),
    ("error 65 write\n", 1),
    ("error 20 read at 5\n", 1),
    ("error 60 not UTF-8 at 3\n", 1),
    (NO_MEMORY, 1),
    (NO_MEMORY, 1),
    (NO_MEMORY, 1),
    ("error 54 no memory\n", 1),
    (NO_MEMORY, 1),
];

#[test]
fn refusals(rt: HostRuntime) {
    for (number, (wanted, status)) in REFUSALS.iter().enumerate() {
        assert_told(&rt, rt.alloc(), &refusal(number), wanted, *status);
    }
}
