//! Components that are made of their parts: written as the bytes that decode to them, or refused with the first fault.

use crate::SMALLEST;
use atoms::{FullName, Label};
use ctype_bin::{
    ExternName, Primitive, RawAlias, RawComponent, RawDecl, RawDefinedType, RawDescription,
    RawExport, RawField, RawFunction, RawType, RawValType, encode,
};
use std::alloc::Global;
use std::process::Abort;
use std::test::Fail;

const U32: RawValType = RawValType::Primitive(Primitive::U32);

fn named(alloc: Global, text: &str) -> Result<ExternName, Fail> {
    Ok(ExternName::Label(Label::new(alloc, text)?))
}

/// The function type of the interface's function.
fn function(alloc: Global) -> Result<RawType, Fail> {
    let label = Label::new(alloc, "x")?;
    let params = vec![in alloc; RawField { label, ty: U32 }]?;
    Ok(RawType::Function(RawFunction {
        params,
        result: Some(U32),
    }))
}

/// A type, and an export of it.
fn declarations(
    alloc: Global,
    ty: RawType,
    name: ExternName,
    description: RawDescription,
) -> Result<Vec<RawDecl>, Fail> {
    let mut declarations = Vec::new(alloc);
    declarations.push(RawDecl::Type(ty))?;
    declarations.push(RawDecl::Export(name, description))?;
    Ok(declarations)
}

/// The instance type of the interface, whose function has the type at this index.
fn interface(alloc: Global, index: u32) -> Result<RawType, Fail> {
    let (function, name) = (function(alloc)?, named(alloc, "f")?);
    let index = RawDescription::Function(index);
    Ok(RawType::Instance(declarations(alloc, function, name, index)?))
}

fn fully_named(alloc: Global, text: &str) -> Result<ExternName, Fail> {
    let name = FullName::parse(alloc, text)?;
    Ok(ExternName::FullName(Box::new(alloc, name)?))
}

/// The component type of the package.
fn package(alloc: Global, index: u32) -> Result<RawType, Fail> {
    let interface = interface(alloc, index)?;
    let name = fully_named(alloc, "a:b/c")?;
    let index = RawDescription::Instance(0);
    Ok(RawType::Component(declarations(alloc, interface, name, index)?))
}

fn component(alloc: Global, declaration: RawDecl) -> Result<RawType, Fail> {
    Ok(RawType::Component(vec![in alloc; declaration]?))
}

fn instance(alloc: Global, declaration: RawDecl) -> Result<RawType, Fail> {
    Ok(RawType::Instance(vec![in alloc; declaration]?))
}

fn exported(alloc: Global, name: &str, ty: u32) -> Result<RawExport, Fail> {
    Ok(RawExport {
        name: named(alloc, name)?,
        ty,
    })
}

/// Exports of one type under these names.
fn all_exported(alloc: Global, names: &[&str], ty: u32) -> Result<Vec<RawExport>, Fail> {
    let mut exports = Vec::new(alloc);
    for name in names {
        exports.push(exported(alloc, name, ty)?)?;
    }
    Ok(exports)
}

/// The bytes of a component, or the line of why it is none, behind bytes that are there.
fn written(alloc: Global, types: Vec<RawType>, exports: Vec<RawExport>) -> Result<Vec<u8>, Fail> {
    let mut out = Vec::from_slice(alloc, b"ab")?;
    match RawComponent::new(alloc, types, exports) {
        Ok(component) => encode(alloc, &component, &mut out)?,
        Err(error) => out.extend_from_slice(error.to_string(alloc)?.as_bytes())?,
    }
    Ok(out)
}

/// The same of one type, which is exported as `package` under this index.
fn written_alone(alloc: Global, ty: RawType, index: u32) -> Result<Vec<u8>, Fail> {
    let exports = all_exported(alloc, &["package"], index)?;
    written(alloc, vec![in alloc; ty]?, exports)
}

fn assert_bytes(rt: &impl Abort, found: &[u8], wanted: &[u8]) {
    assert!(rt; found.strip_prefix(b"ab") == Some(wanted));
}

/// Whether making a component of a type that is exported under this index answers a line.
fn assert_line(
    rt: &impl Abort,
    alloc: Global,
    ty: RawType,
    index: u32,
    line: &str,
) -> Result<(), Fail> {
    let found = written_alone(alloc, ty, index)?;
    assert_bytes(rt, found.as_slice(), line.as_bytes());
    Ok(())
}

#[test]
fn made_and_written(rt: HostRuntime) -> Result<(), Fail> {
    let package = package(rt.alloc(), 0)?;
    let found = written_alone(rt.alloc(), package, 0)?;
    assert_bytes(&rt, found.as_slice(), SMALLEST);
    Ok(())
}

const BAD_INDEX: &str = "error 15 bad index at 0";

#[test]
fn indices(rt: HostRuntime) -> Result<(), Fail> {
    for (inner, outer) in [(1, 0), (0, 1)] {
        let package = package(rt.alloc(), inner)?;
        assert_line(&rt, rt.alloc(), package, outer, BAD_INDEX)?;
    }
    Ok(())
}

#[test]
fn indices_of_scopes(rt: HostRuntime) -> Result<(), Fail> {
    for count in [1, 2] {
        let outer = RawDecl::Alias(RawAlias::Outer { count, index: 0 });
        assert_line(&rt, rt.alloc(), component(rt.alloc(), outer)?, 0, BAD_INDEX)?;
    }
    Ok(())
}

#[test]
fn indices_of_instances(rt: HostRuntime) -> Result<(), Fail> {
    let name = Label::new(rt.alloc(), "x")?;
    let missing = RawDecl::Alias(RawAlias::InstanceExport { instance: 0, name });
    assert_line(
        &rt,
        rt.alloc(),
        component(rt.alloc(), missing)?,
        0,
        BAD_INDEX,
    )
}

#[test]
fn empty_types(rt: HostRuntime) -> Result<(), Fail> {
    let empty = RawType::Defined(RawDefinedType::Record(Vec::new(rt.alloc())));
    assert_line(&rt, rt.alloc(), empty, 0, "error 16 empty type at 0")
}

fn numbered(alloc: Global, number: u32) -> Result<Label, Fail> {
    let text = format!(in alloc; "f{number}")?;
    Ok(Label::new(alloc, text.as_str())?)
}

const LIMIT: &str = "error 17 limit at 0";

/// So many labels, each another.
fn labels(alloc: Global, count: u32) -> Result<Vec<Label>, Fail> {
    let mut labels = Vec::new(alloc);
    for number in 0..count {
        labels.push(numbered(alloc, number)?)?;
    }
    Ok(labels)
}

#[test]
fn flags_of_33(rt: HostRuntime) -> Result<(), Fail> {
    let labels = labels(rt.alloc(), 33)?;
    let flags = RawType::Defined(RawDefinedType::Flags(labels));
    assert_line(&rt, rt.alloc(), flags, 0, LIMIT)
}

/// A function type inside so many component types.
fn nested(alloc: Global, count: u32) -> Result<RawType, Fail> {
    let mut deep = function(alloc)?;
    for _ in 0..count {
        deep = component(alloc, RawDecl::Type(deep))?;
    }
    Ok(deep)
}

#[test]
fn depths(rt: HostRuntime) -> Result<(), Fail> {
    let four = written_alone(rt.alloc(), nested(rt.alloc(), 4)?, 0)?;
    assert!(rt; four.as_slice().starts_with(b"ab\0asm"));
    assert_line(&rt, rt.alloc(), nested(rt.alloc(), 5)?, 0, LIMIT)
}

#[test]
fn imports_of_instances(rt: HostRuntime) -> Result<(), Fail> {
    let import = RawDecl::Import(named(rt.alloc(), "x")?, RawDescription::Function(7));
    let import = instance(rt.alloc(), import)?;
    assert_line(
        &rt,
        rt.alloc(),
        import,
        0,
        "error 13 unknown opcode 03 at 0",
    )
}

/// The type of lists of u8.
fn lists_of_u8(alloc: Global) -> Result<Vec<RawType>, Fail> {
    let element = RawValType::Primitive(Primitive::U8);
    Ok(vec![in alloc; RawType::Defined(RawDefinedType::List(element))]?)
}

/// A component that exports the type of lists of u8 as `a` and as `b`.
const TWO_EXPORTS: &[u8; 28] =
    b"\0asm\x0d\0\x01\0\x07\x03\x01\x70\x7d\x0b\x0d\x02\0\x01a\x03\0\0\0\x01b\x03\0\0";

#[test]
fn two_exports(rt: HostRuntime) -> Result<(), Fail> {
    let exports = all_exported(rt.alloc(), &["a", "b"], 0)?;
    let found = written(rt.alloc(), lists_of_u8(rt.alloc())?, exports)?;
    assert_bytes(&rt, found.as_slice(), TWO_EXPORTS);
    Ok(())
}
