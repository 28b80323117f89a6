//! The layers called by themselves: packages that are added to a set, and their layouts. The lines of the errors that
//! come of the host's memory alone. A body that a host boxes.

use adapter::{BoxedBody, Export, Stopped};
use atoms::AtomError;
use canonical_abi::{Fault, Flat};
use ctype_bin::{BinError, decode};
use layout::{LayoutError, Layouts};
use lift_lower::{FlatResults, Val};
use memory::{Bump, MemoryError, Space};
use package_adding::{PackageSet, from_ast};
use std::alloc::Global;
use std::process::Abort;
use std::slice;
use std::test::Fail;
use tables::ResolveError;
use tests_of_formats::SMALLEST;
use wit_text::{TextError, parse};
use witcall::{Package, Session, open};

const TEXT: &str = "package a:b; interface c { f: func(x: u32) -> u32; }";

fn assert_line(rt: &impl Abort, line: &str, wanted: &str) {
    assert!(rt; line == wanted, "{wanted}");
}

/// What the layers say where the host has no memory, each under its own number.
#[test]
fn lines_of_no_memory(rt: HostRuntime) -> Result<(), Fail> {
    let alloc = rt.alloc();
    let atoms = AtomError::NoMemory.to_string(alloc)?;
    let binary = BinError::NoMemory.to_string(alloc)?;
    let text = TextError::NoMemory.to_string(alloc)?;
    let table = ResolveError::NoMemory.to_string(alloc)?;
    let layouts = LayoutError::NoMemory.to_string(alloc)?;
    let memory = MemoryError::NoMemory.to_string(alloc)?;
    let call = Fault::NoMemory.to_string(alloc)?;
    assert_line(&rt, atoms.as_str(), "error 5 no memory");
    assert_line(&rt, binary.as_str(), "error 21 no memory");
    assert_line(&rt, text.as_str(), "error 35 no memory");
    assert_line(&rt, table.as_str(), "error 46 no memory");
    assert_line(&rt, layouts.as_str(), "error 52 no memory");
    assert_line(&rt, memory.as_str(), "error 54 no memory");
    assert_line(&rt, call.as_str(), "error 66 no memory");
    Ok(())
}

/// A text's package is added once, and the set is as it was where it is refused.
#[test]
fn texts_are_added(rt: HostRuntime) -> Result<(), Fail> {
    let alloc = rt.alloc();
    let tree = parse(alloc, TEXT)?;
    let mut set = PackageSet::new(alloc);
    set.add_ast(alloc, &tree)?;
    assert!(&rt; matches!(set.add_ast(alloc, &tree), Err(ResolveError::SamePackage(_))));
    assert!(rt; set.resolve().packages.len() == 1);
    assert!(rt; set.resolve().function("a:b/c", "f").is_some());
    Ok(())
}

#[test]
fn components_are_added(rt: HostRuntime) -> Result<(), Fail> {
    let alloc = rt.alloc();
    let component = decode(alloc, SMALLEST)?;
    let mut set = PackageSet::new(alloc);
    set.add_raw(alloc, &component)?;
    assert!(&rt;
        matches!(
            set.add_raw(alloc, &component),
            Err(ResolveError::SamePackage(_))
        )
    );
    assert!(rt; set.resolve().packages.len() == 1);
    assert!(rt; set.resolve().function("a:b/c", "f").is_some());
    Ok(())
}

/// The layouts of the package of a text.
fn laid_out(alloc: Global, text: &str) -> Result<Result<Layouts, LayoutError>, Fail> {
    let tree = parse(alloc, text)?;
    let table = from_ast(alloc, &tree)?;
    Ok(Layouts::of(alloc, &table))
}

/// A text whose type takes 2^25 bytes.
fn large(alloc: Global) -> Result<String, Fail> {
    let mut text = String::new(alloc);
    text.push_str("package a:b; interface c { type t0 = u8; ")?;
    for n in 0..25u32 {
        let m = n + 1;
        let line = format!(in alloc; "type t{m} = tuple<t{n}, t{n}>; ")?;
        text.push_str(line.as_str())?;
    }
    text.push_str("}")?;
    Ok(text)
}

#[test]
fn tables_are_laid_out(rt: HostRuntime) -> Result<(), Fail> {
    let alloc = rt.alloc();
    assert!(&rt; laid_out(alloc, TEXT)?.is_ok());
    let text = large(alloc)?;
    assert!(&rt; matches!(laid_out(alloc, text.as_str())?, Err(LayoutError::TooLarge)));
    Ok(())
}

/// A body that answers twice its number.
#[derive(Drop)]
struct Twice;

impl Export for Twice {
    ghost use Rattle.std.specs.Prelude.{◌≡◌, [], Some};

    ghost state = { λ _. [] };

    ghost runs = { λ _ s m f s' m' a. (s' ≡ s) × (m' ≡ m) };

    ghost posts = { λ _ s m f s' m' a. (s' ≡ s) × (m' ≡ m) × (a ≡ Some tt) };

    fn call(&mut self, _memory: &mut Space, arguments: &[Flat]) -> Result<FlatResults, Stopped> {
        let [Flat::I32(number)] = arguments else {
            return Err(Stopped);
        };
        let mut answer = FlatResults::new();
        answer.push(Flat::I32(number.wrapping_mul(2)));
        Ok(answer)
    }

    fn post_return(&mut self, _memory: &mut Space, _answer: &[Flat]) -> Result<(), Stopped> {
        Ok(())
    }
}

/// A call of `f` with this number answers twice of it.
fn assert_twice(rt: &impl Abort, alloc: Global, package: &Package, x: u32) -> Result<(), Fail> {
    let body = BoxedBody::new(Box::new(alloc, Twice)?);
    let (caller, callee) = (Bump::new(alloc, 0)?, Bump::new(alloc, 0)?);
    let mut session = Session::new(package, caller, Space::Bump(callee), body);
    let f = crate::packages::function(package)?;
    let argument = Val::U32(x);
    assert!(rt; package.takes(f, slice::from_ref(&argument)));
    let answer = session.call(alloc, f, slice::from_ref(&argument))?;
    assert!(rt; answer == Some(Val::U32(x.wrapping_mul(2))));
    Ok(())
}

#[test]
fn bodies_are_boxed(rt: HostRuntime) -> Result<(), Fail> {
    let package = open(rt.alloc(), TEXT.as_bytes())?;
    for x in [7, 0x8000_0001] {
        assert_twice(&rt, rt.alloc(), &package, x)?;
    }
    Ok(())
}
