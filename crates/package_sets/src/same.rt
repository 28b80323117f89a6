//! Whether parts of tables are the same.
ghost use Rattle.std.specs.Prelude.{◌≡◌, Decides};

use crate::joining::is_same_package;
use atoms::Label;
use tables::{
    Case, Definition, Field, Function, FunctionId, Interface, PackageName, Parameter, Sequence,
    TypeDef, TypeDefKind, TypeId, TypeName, ValType,
};

/// What can be told from others.
pub trait Same: Sized {
    ghost use Rattle.std.specs.Prelude.{◌≡◌, Decides};

    /// Whether it is the same.
    fn is_same(&self, other: &Self) -> bool
        ensures { Decides result (self.now ≡ other.now) };
}

/// Whether two slices have the same elements.
pub fn are_same_items<T: Same>(some: &[T], others: &[T]) -> bool
    ensures { Decides result (some.now ≡ others.now) }
{
    if some.len() != others.len() {
        return false;
    }
    for (place, item) in some.iter().enumerate() {
        if !item.is_same(&others[place]) {
            return false;
        }
    }
    true
}

/// Whether two lists have the same elements.
pub fn are_same<T: Same>(some: &Sequence<T>, others: &Sequence<T>) -> bool
    ensures { Decides result (some.now ≡ others.now) }
{
    are_same_items(some.as_slice(), others.as_slice())
}

fn are_same_optional<T: Same>(a: &Option<T>, b: &Option<T>) -> bool
    ensures { Decides result (a.now ≡ b.now) }
{
    match (a, b) {
        (Some(a), Some(b)) => a.is_same(b),
        (None, None) => true,
        _ => false,
    }
}

impl Same for Label {
    fn is_same(&self, other: &Self) -> bool {
        self.as_bytes() == other.as_bytes()
    }
}

impl Same for TypeId {
    fn is_same(&self, other: &Self) -> bool {
        self.0 == other.0
    }
}

impl Same for FunctionId {
    fn is_same(&self, other: &Self) -> bool {
        self.0 == other.0
    }
}

impl Same for ValType {
    fn is_same(&self, other: &Self) -> bool {
        *self == *other
    }
}

impl Same for Parameter {
    fn is_same(&self, other: &Self) -> bool {
        self.name.is_same(&other.name) && self.ty == other.ty
    }
}

impl Same for Field {
    fn is_same(&self, other: &Self) -> bool {
        self.name.is_same(&other.name) && self.ty == other.ty
    }
}

impl Same for Case {
    fn is_same(&self, other: &Self) -> bool {
        self.name.is_same(&other.name) && are_same_optional(&self.ty, &other.ty)
    }
}

impl Same for TypeDefKind {
    fn is_same(&self, other: &Self) -> bool {
        match (self, other) {
            (TypeDefKind::Use(a), TypeDefKind::Use(b)) => a.is_same(b),
            (TypeDefKind::Alias(a), TypeDefKind::Alias(b)) => a.is_same(b),
            (TypeDefKind::List(a), TypeDefKind::List(b)) => a.is_same(b),
            (TypeDefKind::Option(a), TypeDefKind::Option(b)) => a.is_same(b),
            (TypeDefKind::Result(a, c), TypeDefKind::Result(b, d)) => {
                are_same_optional(a, b) && are_same_optional(c, d)
            }
            (TypeDefKind::Tuple(a), TypeDefKind::Tuple(b)) => are_same(a, b),
            (TypeDefKind::Record(a), TypeDefKind::Record(b)) => are_same(a, b),
            (TypeDefKind::Variant(a), TypeDefKind::Variant(b)) => are_same(a, b),
            (TypeDefKind::Enum(a), TypeDefKind::Enum(b)) => are_same(a, b),
            (TypeDefKind::Flags(a), TypeDefKind::Flags(b)) => are_same(a, b),
            _ => false,
        }
    }
}

impl Same for TypeName {
    fn is_same(&self, other: &Self) -> bool {
        self.interface.0 == other.interface.0 && self.name.is_same(&other.name)
    }
}

impl Same for TypeDef {
    fn is_same(&self, other: &Self) -> bool {
        are_same_optional(&self.name, &other.name) && self.kind.is_same(&other.kind)
    }
}

impl Same for Function {
    fn is_same(&self, other: &Self) -> bool {
        self.owner == other.owner
            && self.name.is_same(&other.name)
            && are_same(&self.params, &other.params)
            && are_same_optional(&self.result, &other.result)
    }
}

impl Same for Definition {
    fn is_same(&self, other: &Self) -> bool {
        match (self, other) {
            (Definition::Type(a), Definition::Type(b)) => a.is_same(b),
            (Definition::Function(a), Definition::Function(b)) => a.is_same(b),
            _ => false,
        }
    }
}

impl Same for Interface {
    fn is_same(&self, other: &Self) -> bool {
        self.package.0 == other.package.0
            && self.name.is_same(&other.name)
            && are_same(&self.uses, &other.uses)
            && are_same(&self.types, &other.types)
            && are_same(&self.functions, &other.functions)
    }
}

impl Same for PackageName {
    fn is_same(&self, other: &Self) -> bool {
        is_same_package(self, other)
    }
}
