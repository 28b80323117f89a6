//! Which functions and types a package has, and which values are of a type or the arguments of a function.

ghost use Rattle.std.specs.Prelude.{◌≡◌, ◌↔◌, IsTrue, map};
ghost use Rattle.canonical_abi.specs.Values.{HasType, HaveTypes};
ghost use Rattle.values.specs.Val.{value_of};
ghost use Rattle.tables.specs.Closed.{IsFunction, closed_type, function_type};
ghost use Rattle.tables.specs.Standard.{IsTypeOf};

use crate::package::Package;
use tables::{FunctionId, ValType};
use values::{Val, has_arguments, has_type};

impl Package {
    /// Whether these are arguments of the function, as many as its parameters and each of its type: what
    /// `Session::call` asks for.
    pub fn takes(&self, func: FunctionId, arguments: &[Val]) -> bool
        requires { IsFunction self.now.resolve func }
        ensures { IsTrue result ↔ HaveTypes (map value_of arguments.now)
            (function_type self.now.resolve func).params }
    {
        has_arguments(&self.types(), func, arguments)
    }

    /// Whether there is such a function in the package.
    pub fn is_function(&self, func: FunctionId) -> bool
        ensures { IsTrue result ↔ IsFunction self.now.resolve func }
    {
        self.resolve().is_function(func)
    }

    /// Whether there is such a type in the package: what `Session::read` asks for.
    pub fn is_type(&self, ty: ValType) -> bool
        ensures { IsTrue result ↔ IsTypeOf self.now.resolve ty }
    {
        self.resolve().is_type(ty)
    }

    /// Whether this is a value of the type: what `Session::place` asks for.
    pub fn is_of(&self, ty: ValType, value: &Val) -> bool
        requires { IsTypeOf self.now.resolve ty }
        ensures { IsTrue result ↔ HasType (value_of value.now) (closed_type self.now.resolve ty) }
    {
        has_type(self.resolve(), self.layouts(), ty, value)
    }
}
