//! The types of core values and of core functions.
ghost use Rattle.std.specs.Prelude.{◌≡◌, IfOk, IsTrue};
ghost use Rattle.core_modules.specs.Module.{function_view};

use std::alloc::{AllocError, Global};
use std::fmt;

/// A type of core values.
#[derive(Clone, Copy, Debug, PartialEq, Eq)]
pub enum CoreType {
    I32,
    I64,
    F32,
    F64,
    V128,
    /// A reference of any sort.
    Reference,
}

impl fmt::Display for CoreType {
    fn fmt<W: fmt::Write>(&self, f: &mut fmt::Formatter<W>) -> fmt::Result {
        f.write_str(match self {
            CoreType::I32 => "i32",
            CoreType::I64 => "i64",
            CoreType::F32 => "f32",
            CoreType::F64 => "f64",
            CoreType::V128 => "v128",
            CoreType::Reference => "ref",
        })
    }
}

/// The type of a core function. It is displayed as `(i32 i64) -> (i32)`.
#[derive(Debug, Drop)]
pub struct FunctionType {
    pub params: Vec<CoreType>,
    pub results: Vec<CoreType>,
}

fn write_types<W: fmt::Write>(f: &mut fmt::Formatter<W>, types: &[CoreType]) -> fmt::Result {
    f.write_str("(")?;
    for (place, ty) in types.iter().enumerate() {
        if place > 0 {
            f.write_str(" ")?;
        }
        write!(f, "{ty}")?;
    }
    f.write_str(")")
}

impl fmt::Display for FunctionType {
    fn fmt<W: fmt::Write>(&self, f: &mut fmt::Formatter<W>) -> fmt::Result {
        write_types(f, self.params.as_slice())?;
        f.write_str(" -> ")?;
        write_types(f, self.results.as_slice())
    }
}

/// Whether these types are the others, in order.
fn are_same(types: &[CoreType], others: &[CoreType]) -> bool
    ensures { IsTrue result → types.now ≡ others.now }
{
    if types.len() != others.len() {
        return false;
    }
    for (i, ty) in types.iter().enumerate() {
        if others[i] != *ty {
            return false;
        }
    }
    true
}

impl FunctionType {
    /// The type of functions that take these parameters and return these results.
    pub fn of(
        alloc: Global,
        params: &[CoreType],
        results: &[CoreType],
    ) -> Result<FunctionType, AllocError>
        ensures { IfOk result (λ t. function_view t ≡ record { params = params.now; results = results.now }) }
    {
        Ok(FunctionType {
            params: Vec::from_slice(alloc, params)?,
            results: Vec::from_slice(alloc, results)?,
        })
    }

    /// The same type.
    pub fn copy(&self, alloc: Global) -> Result<FunctionType, AllocError>
        ensures { IfOk result (λ t. function_view t ≡ function_view self.now) }
    {
        FunctionType::of(alloc, self.params.as_slice(), self.results.as_slice())
    }

    /// Whether both types are one.
    pub fn is(&self, other: &FunctionType) -> bool
        ensures { IsTrue result → function_view self.now ≡ function_view other.now }
    {
        are_same(self.params.as_slice(), other.params.as_slice())
            && are_same(self.results.as_slice(), other.results.as_slice())
    }
}
