//! Functions of a package by their names, and what is known of one.
ghost use Rattle.std.specs.Prelude.{◌≡◌, ◌↔◌, ◌≢◌, ◌<◌, ◌++◌, ◌∷◌, ℕ, List, length, IsTrue, [], slice_get};
ghost use Rattle.std.specs.Prelude.{slice_index_or, IfOk, IfSome, IfNone, None, Some, MatchOption};
ghost use Rattle.atoms.specs.FullName.{full_name_text, package_text, name_text, version_suffix};
ghost use Rattle.tables.specs.Closed.{function_at, IsFunction, is_scalar_type, is_scalar_function};
ghost use Rattle.tables.specs.Standard.{IsTypeOf};
ghost use Rattle.tables.specs.PackageNames.{name_parts};
ghost use Rattle.tables.specs.Names.{full_name, IsNamed, IsNamedIn};
ghost use Rattle.tables.specs.Package.{interface_names};
ghost use Rattle.tables.specs.declared.tables.FunctionId.{FunctionId};

use crate::name::Name;
use crate::tables::{
    Definition, Function, FunctionId, Interface, InterfaceId, PackageName, Resolve, ValType,
};
use atoms::Label;
use std::alloc::{AllocError, Global};

/// The most parameters of a function that is called without a record in memory.
const MAX_SCALARS: usize = 16;

/// What a text has behind this front.
fn behind<'a>(text: &'a [u8], front: &[u8]) -> Option<&'a [u8]>
    ensures { MatchOption result ((rest : List ℕ) → text.now ≢ front.now ++ rest) (λ x. text.now ≡ front.now ++ x.now) }
{
    text.strip_prefix(front)
}

/// What a text has behind this front and this mark.
fn behind_part<'a>(text: &'a [u8], front: &[u8], mark: u8) -> Option<&'a [u8]>
    ensures { MatchOption result ((rest : List ℕ) → text.now ≢ front.now ++ mark ∷ rest)
        (λ x. text.now ≡ front.now ++ mark ∷ x.now) }
{
    let rest = behind(text, front)?;
    behind(rest, &[mark])
}

impl ValType {
    /// Whether it is a primitive.
    pub fn is_scalar(self) -> bool
        ensures { result ≡ is_scalar_type self }
    {
        matches!(self, ValType::Primitive(_))
    }
}

impl PackageName {
    /// Whether the text is the full name of this name in the package.
    fn is_full_name(&self, name: &Label, text: &str) -> bool
        ensures { IsTrue result ↔ (text.now ≡ full_name_text (name_parts self.now name.now)) }
    {
        match behind_part(text.as_bytes(), self.namespace.as_bytes(), b':') {
            Some(rest) => self.is_in_namespace(name, rest),
            None => false,
        }
    }

    fn is_in_namespace(&self, name: &Label, text: &[u8]) -> bool
        ensures { IsTrue result ↔ (text.now ≡ package_text (name_parts self.now name.now)) }
    {
        match behind_part(text, self.name.as_bytes(), b'/') {
            Some(rest) => self.is_in_package(name, rest),
            None => false,
        }
    }

    fn is_in_package(&self, name: &Label, text: &[u8]) -> bool
        ensures { IsTrue result ↔ (text.now ≡ name_text (name_parts self.now name.now)) }
    {
        match behind(text, name.as_bytes()) {
            Some(rest) => self.is_suffix(rest),
            None => false,
        }
    }

    fn is_suffix(&self, text: &[u8]) -> bool
        ensures { IsTrue result ↔ (text.now ≡ version_suffix self.now.version) }
    {
        match &self.version {
            None => text.is_empty(),
            Some(version) => match behind(text, b"@") {
                Some(rest) => rest == version.as_bytes(),
                None => false,
            },
        }
    }
}

impl Resolve {
    fn package_of(&self, interface: &Interface) -> &PackageName
        requires { interface.now.«package».0 < length self.now.packages }
        ensures { slice_get self.now.packages interface.now.«package».0 ≡ Some result.now }
    {
        &self.packages.as_slice()[interface.package.0 as usize]
    }

    /// Whether the text is the interface's full name.
    fn is_full_name(&self, interface: &Interface, text: &str) -> bool
        requires { interface.now.«package».0 < length self.now.packages }
        ensures { IsTrue result ↔ (text.now ≡ full_name self.now interface.now) }
    {
        self.package_of(interface)
            .is_full_name(&interface.name, text)
    }

    /// The full name of an interface.
    pub fn full_name(&self, alloc: Global, id: InterfaceId) -> Result<Name, AllocError>
        requires { id.0 < length self.now.interfaces }
        ensures { IfOk result (λ n. n ≡ slice_index_or (interface_names self.now) id.0 []) }
    {
        let interface = &self.interfaces.as_slice()[id.0 as usize];
        self.package_of(interface).full_name(alloc, &interface.name)
    }

    fn function_of(&self, func: FunctionId) -> Option<&Function>
        ensures at { MatchOption result (function_at self.now func ≡ None)
            (λ f. function_at self.now func ≡ Some f.now) }
        ensures function { IfSome result (λ _. IsFunction self.now func) }
    {
        match self.definitions.as_slice().get(func.0 as usize) {
            Some(Definition::Function(function)) => Some(function),
            _ => None,
        }
    }

    fn function_in(&self, functions: &[FunctionId], name: &str) -> Option<FunctionId>
        ensures found { IfSome result (IsNamedIn self.now functions.now name.now) }
        ensures function { IfSome result (IsFunction self.now) }
        ensures none { IfNone result ((f : FunctionId) → ¬ IsNamedIn self.now functions.now name.now f) }
    {
        for func in functions {
            if let Some(function) = self.function_of(*func) {
                if function.name.as_bytes() == name.as_bytes() {
                    return Some(*func);
                }
            }
        }
        None
    }

    /// The function of this name in the interface of this full name.
    pub fn function(&self, iface: &str, name: &str) -> Option<FunctionId>
        ensures found { IfSome result (IsNamed self.now iface.now name.now) }
        ensures function { IfSome result (IsFunction self.now) }
        ensures none { IfNone result ((f : FunctionId) → ¬ IsNamed self.now iface.now name.now f) }
    {
        for interface in self.interfaces.as_slice() {
            if self.is_full_name(interface, iface) {
                if let Some(func) = self.function_in(interface.functions.as_slice(), name) {
                    return Some(func);
                }
            }
        }
        None
    }

    /// Whether there is such a function in the tables: what `signature` asks for.
    pub fn is_function(&self, func: FunctionId) -> bool
        ensures { IsTrue result ↔ IsFunction self.now func }
    {
        matches!(
            self.definitions.as_slice().get(func.0 as usize),
            Some(Definition::Function(_))
        )
    }

    /// Whether there is such a type in the tables: a primitive, or a row that is no function.
    pub fn is_type(&self, ty: ValType) -> bool
        ensures { IsTrue result ↔ IsTypeOf self.now ty }
    {
        match ty {
            ValType::Id(id) => matches!(
                self.definitions.as_slice().get(id.0 as usize),
                Some(Definition::Type(_))
            ),
            _ => true,
        }
    }

    /// The function at this place of the table.
    pub fn signature(&self, func: FunctionId) -> &Function
        requires { IsFunction self.now func }
        ensures { function_at self.now func ≡ Some result.now }
    {
        match &self.definitions.as_slice()[func.0 as usize] {
            Definition::Function(function) => function,
            Definition::Type(_) => unreachable!(),
        }
    }

    /// Whether it is a function of at most sixteen parameters, whose types and result are primitives.
    pub fn is_scalar(&self, func: FunctionId) -> bool
        ensures { result ≡ is_scalar_function (function_at self.now func) }
    {
        match self.function_of(func) {
            Some(function) => function.is_scalar(),
            None => false,
        }
    }
}

impl Function {
    /// Whether it has at most sixteen parameters, and their types and the result's are primitives.
    pub fn is_scalar(&self) -> bool
        ensures { result ≡ is_scalar_function (Some self.now) }
    {
        if self.params.len() > MAX_SCALARS {
            return false;
        }
        for parameter in self.params.as_slice() {
            if !parameter.ty.is_scalar() {
                return false;
            }
        }
        match self.result {
            Some(ty) => ty.is_scalar(),
            None => true,
        }
    }
}
