//! A host that brings its own memory and its own body, as docs/ARCHITECTURE.md shows.

ghost use Rattle.std.specs.Prelude.{◌<◌, vec_len};

use crate::packages::function;
use adapter::{Body, Link, Stopped};
use canonical_abi::{Flat, Full, Guest, NotTaken};
use lift_lower::FlatResults;
use std::alloc::Global;
use std::process::Abort;
use std::test::Fail;
use witcall::{Package, open};

/// A memory that grants no block.
#[derive(Drop)]
struct Fixed {
    bytes: Vec<u8>,
    ghost small: { vec_len bytes < 4294967296 },
}

impl Guest for Fixed {
    ghost use Rattle.std.specs.Prelude.{◌≡◌, [], None, false};

    ghost memory = { λ m. record { bytes = m.bytes.items; live = λ _. false; state = [] } };

    ghost allocates = { λ old _ _ at new. (at ≡ None) × (new ≡ old) };

    ghost releases = { λ old _ _ taken new. (taken ≡ false) × (new ≡ old) };

    fn len(&self) -> u32 {
        self.bytes.len() as u32
    }

    fn bytes(&self) -> &[u8] {
        self.bytes.as_slice()
    }

    fn write(&mut self, at: u32, src: &[u8]) {
        let start = at as usize;
        self.bytes[start..start + src.len()].copy_from_slice(src);
    }

    fn alloc(&mut self, _align: u32, _size: u32) -> Result<u32, Full> {
        Err(Full)
    }

    fn free(&mut self, _at: u32, _size: u32) -> Result<(), NotTaken> {
        Err(NotTaken)
    }
}

/// A body that answers one value, over any memory.
#[derive(Drop)]
struct Constant(Flat);

impl<G: Guest> Body<G> for Constant {
    ghost use Rattle.std.specs.Prelude.{◌≡◌, [], ◌∷◌, Some};

    ghost state = { λ _. [] };

    ghost runs = { λ c s m f s' m' a. (s' ≡ s) × (m' ≡ m) × (a ≡ Some (c.0 ∷ [])) };

    ghost posts = { λ _ s m f s' m' a. (s' ≡ s) × (m' ≡ m) × (a ≡ Some tt) };

    fn call(&mut self, _memory: &mut G, _arguments: &[Flat]) -> Result<FlatResults, Stopped> {
        let mut answer = FlatResults::new();
        answer.push(self.0);
        Ok(answer)
    }

    fn post_return(&mut self, _memory: &mut G, _answer: &[Flat]) -> Result<(), Stopped> {
        Ok(())
    }
}

fn memory(alloc: Global) -> Fixed {
    Fixed {
        bytes: Vec::new(alloc),
    }
}

/// What a call of `f` answers over two such memories.
fn called(package: &Package, caller: &mut Fixed, callee: &mut Fixed) -> Result<FlatResults, Fail> {
    let f = function(package)?;
    let mut link = Link::new(package.resolve(), package.layouts());
    let mut body = Constant(Flat::I32(8));
    Ok(link.call(f, &[Flat::I32(7)], caller, callee, &mut body)?)
}

fn assert_called(rt: &impl Abort, alloc: Global, package: &Package) -> Result<(), Fail> {
    assert!(rt; package.resolve().is_scalar(function(package)?));
    let back = called(package, &mut memory(alloc), &mut memory(alloc))?;
    assert!(rt; back.as_slice() == [Flat::I32(8)].as_slice());
    Ok(())
}

#[test]
fn calls_of_a_host(rt: HostRuntime) -> Result<(), Fail> {
    let text = b"package a:b; interface c { f: func(x: u32) -> u32; }";
    let package = open(rt.alloc(), text)?;
    assert_called(&rt, rt.alloc(), &package)
}
