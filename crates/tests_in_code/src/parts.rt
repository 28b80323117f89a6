//! Tables that are made of parts, a component that is read as one package alone, and a text that is longer than
//! memories may be.

ghost use Rattle.std.specs.Prelude.{◌≡◌, IfOk};

use crate::packages::function;
use adapter::BoxedBody;
use canonical_abi::{Fault, Full, Guest, Step, Trap, TrapKind};
use ctype_bin::{decode, encode};
use lift_lower::{Val, str_at};
use memory::{Bump, Scripted, Space};
use package_adding::from_raw;
use std::alloc::Global;
use std::process::Abort;
use std::slice;
use std::test::Fail;
use table_building::from_parts;
use tables::{
    Definition, Primitive, Resolve, ResolveError, Sequence, TypeDef, TypeDefKind, TypeId, ValType,
};
use tests_of_formats::SMALLEST;
use wit_component::to_raw;
use witcall::{Package, Reply, Session, open};

/// A table of a list of this type.
fn with_list(alloc: Global, element: ValType) -> Result<Result<Resolve, ResolveError>, Fail> {
    let mut rows = Vec::new(alloc);
    rows.push(Definition::Type(TypeDef {
        name: None,
        kind: TypeDefKind::List(element),
    }))?;
    Ok(from_parts(
        Sequence::new(Vec::new(alloc)),
        Sequence::new(Vec::new(alloc)),
        Sequence::new(Vec::new(alloc)),
        Sequence::new(rows),
    ))
}

/// A list is no element of its own.
#[test]
fn lists_of_what_stands_before(rt: HostRuntime) -> Result<(), Fail> {
    let _table = with_list(rt.alloc(), ValType::Primitive(Primitive::U8))??;
    let refused = with_list(rt.alloc(), ValType::Id(TypeId(0)))?;
    assert!(&rt; matches!(refused, Err(ResolveError::NotThisShape)));
    Ok(())
}

/// The package that the smallest component is.
fn read(alloc: Global) -> Result<Resolve, Fail> {
    let component = decode(alloc, SMALLEST)?;
    Ok(from_raw(alloc, &component)?)
}

fn written(alloc: Global, package: &Resolve) -> Result<Vec<u8>, Fail> {
    let component = to_raw(alloc, package)?;
    let mut bytes = Vec::new(alloc);
    encode(alloc, &component, &mut bytes)?;
    Ok(bytes)
}

#[test]
fn a_component_is_read_as_a_package(rt: HostRuntime) -> Result<(), Fail> {
    let package = read(rt.alloc())?;
    let bytes = written(rt.alloc(), &package)?;
    assert!(rt; bytes.as_slice() == SMALLEST.as_slice());
    Ok(())
}

/// Whether a request of an alignment and a size is answered so.
fn assert_granted(rt: &impl Abort, memory: &mut Scripted, align: u32, size: u32, at: Option<u32>) {
    assert!(rt; align == 1 || align == 4 || align == 8);
    assert!(rt; memory.alloc(align, size).ok() == at, "{size}");
}

#[test]
fn scripted_answers_in_turn(rt: HostRuntime) -> Result<(), Fail> {
    let answers = vec![in rt.alloc(); Ok(14), Err(Full), Ok(2)]?;
    let mut memory = Scripted::new(rt.alloc(), 32, answers)?;
    for (align, size, at) in [
        (4, 8, Some(14)),
        (1, 1, None),
        (8, 0, Some(2)),
        (1, 1, None),
    ] {
        assert_granted(&rt, &mut memory, align, size, at);
    }
    assert!(rt; memory.free(2, 0).is_err());
    Ok(())
}

/// A text of the memory is lent; what is no UTF-8, or ends past the memory or past 2^32, is not.
#[test]
fn texts_are_lent(rt: HostRuntime) -> Result<(), Fail> {
    let mut guest = Bump::new(rt.alloc(), 16)?;
    if guest.len() == 16 {
        guest.write(0, b"hi\xc0\x80");
    }
    assert!(rt; str_at(&guest, 0, 2) == Ok("hi"));
    assert!(rt; str_at(&guest, 16, 0) == Ok(""));
    for (kind, at, len) in [
        (TrapKind::Utf8, 2, 2),
        (TrapKind::Bounds, 16, 1),
        (TrapKind::Bounds, 4_294_967_295, 1),
    ] {
        let step = Step::Take;
        assert!(rt; str_at(&guest, at, len) == Err(Trap { kind, step }));
    }
    Ok(())
}

fn assert_copied(rt: &impl Abort, copy: &Val) {
    assert!(rt;
        matches!(copy, Val::List(items) if matches!(items.as_slice(), [Val::U8(7), Val::U8(8)]))
    );
}

#[test]
fn values_are_copied(rt: HostRuntime) -> Result<(), Fail> {
    let mut items = Vec::new(rt.alloc());
    for number in [7, 8] {
        items.push(Val::U8(number))?;
    }
    let copy = Val::List(items).clone()?;
    assert_copied(&rt, &copy);
    Ok(())
}

/// A session of memories of 64 and 32 bytes, whose body answers nothing.
fn session(alloc: Global, package: &Package) -> Result<Session<'_, Bump, Space, BoxedBody>, Fail>
    ensures { IfOk result (λ s. s.package.now ≡ «package».now) }
{
    let reply = Reply::of(alloc, package, "a:b/c", "f", "[]")?;
    let body = BoxedBody::new(Box::new(alloc, reply)?);
    let (caller, callee) = (Bump::new(alloc, 64)?, Bump::new(alloc, 32)?);
    Ok(Session::new(package, caller, Space::Bump(callee), body))
}

/// A call of `f` with this text ends in a trap, and both memories are as before.
fn assert_too_long(
    rt: &impl Abort,
    alloc: Global,
    package: &Package,
    text: &Val,
) -> Result<(), Fail> {
    let (f, arguments) = (function(package)?, slice::from_ref(text));
    let mut session = session(alloc, package)?;
    assert!(rt; package.takes(f, arguments));
    let answer = session.call(alloc, f, arguments);
    assert!(rt; matches!(answer, Err(Fault::Trap(trap)) if trap == TOO_LONG));
    assert!(rt; session.caller().bytes() == [0; 64].as_slice());
    assert!(rt; session.callee().bytes() == [0; 32].as_slice());
    Ok(())
}

const TOO_LONG: Trap = Trap {
    kind: TrapKind::Bounds,
    step: Step::Place,
};

/// A text of 16,777,217 bytes is not asked for.
#[test]
fn text_past_the_limit(rt: HostRuntime) -> Result<(), Fail> {
    let alloc = rt.alloc();
    let package = open(alloc, b"package a:b; interface c { f: func(x: string); }")?;
    let text = String::from_utf8(vec![in alloc; b'a'; 16_777_217]?)?;
    assert_too_long(&rt, alloc, &package, &Val::String(text))
}
