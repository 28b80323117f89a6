//! Whether declarations of component types are the same.
ghost use Rattle.std.specs.Prelude.{◌≡◌, Decides, map};
ghost use Rattle.atoms.specs.FullName.{full_name_text};
ghost use Rattle.atoms.specs.FullNameView.{name_parts_of};
ghost use Rattle.ctype_format.specs.Names.{name_view};
ghost use Rattle.ctype_format.specs.View.{defined_view, raw_function_view, type_view, decl_view};

use atoms::{FullName, Label};
use ctype_bin::{
    ExternName, RawAlias, RawCase, RawDecl, RawDefinedType, RawField, RawFunction, RawType,
    RawValType,
};
use package_form::is_same_version;

/// What can be told from others.
trait Same: Sized {
    ghost use Rattle.std.specs.Prelude.{◌≡◌, Decides};

    /// Whether it is the same.
    fn is_same(&self, other: &Self) -> bool
        ensures { Decides result (self.now ≡ other.now) };
}

/// Whether two slices have the same elements.
fn are_same<T: Same>(some: &[T], others: &[T]) -> bool
    ensures { Decides result (some.now ≡ others.now) }
{
    if some.len() != others.len() {
        return false;
    }
    for (place, item) in some.iter().enumerate() {
        if !item.is_same(&others[place]) {
            return false;
        }
    }
    true
}

impl Same for Label {
    fn is_same(&self, other: &Self) -> bool {
        self.as_bytes() == other.as_bytes()
    }
}

impl Same for RawValType {
    fn is_same(&self, other: &Self) -> bool {
        *self == *other
    }
}

impl Same for RawField {
    fn is_same(&self, other: &Self) -> bool {
        self.label.is_same(&other.label) && self.ty == other.ty
    }
}

impl Same for RawCase {
    fn is_same(&self, other: &Self) -> bool {
        self.label.is_same(&other.label) && self.payload == other.payload
    }
}

fn is_same_full_name(some: &FullName, other: &FullName) -> bool
    ensures { Decides result (full_name_text (name_parts_of some.now) ≡ full_name_text (name_parts_of other.now)) }
{
    some.name.as_bytes() == other.name.as_bytes()
        && some.package.is_same(&other.package)
        && some.namespace.is_same(&other.namespace)
        && is_same_version(&some.version, &other.version)
}

/// Whether two names of imports or exports have the same text.
pub fn is_same_name(some: &ExternName, other: &ExternName) -> bool
    ensures { Decides result (name_view some.now ≡ name_view other.now) }
{
    match (some, other) {
        (ExternName::Label(some), ExternName::Label(other)) => some.is_same(other),
        (ExternName::FullName(some), ExternName::FullName(other)) => is_same_full_name(some, other),
        (ExternName::Label(label), ExternName::FullName(_))
        | (ExternName::FullName(_), ExternName::Label(label)) => {
            // a label has no mark that full names have
            let _text = label.as_bytes();
            false
        }
    }
}

fn is_same_alias(some: &RawAlias, other: &RawAlias) -> bool
    ensures { Decides result (some.now ≡ other.now) }
{
    match (some, other) {
        (
            RawAlias::InstanceExport { instance, name },
            RawAlias::InstanceExport {
                instance: other_instance,
                name: other_name,
            },
        ) => *instance == *other_instance && name.is_same(other_name),
        (
            RawAlias::Outer { count, index },
            RawAlias::Outer {
                count: other_count,
                index: other_index,
            },
        ) => *count == *other_count && *index == *other_index,
        _ => false,
    }
}

fn is_same_defined(some: &RawDefinedType, other: &RawDefinedType) -> bool
    ensures { Decides result (defined_view some.now ≡ defined_view other.now) }
{
    use ctype_bin::RawDefinedType as Ty;
    match (some, other) {
        (Ty::Primitive(a), Ty::Primitive(b)) => *a == *b,
        (Ty::Record(a), Ty::Record(b)) => are_same(a.as_slice(), b.as_slice()),
        (Ty::Variant(a), Ty::Variant(b)) => are_same(a.as_slice(), b.as_slice()),
        (Ty::List(a), Ty::List(b)) | (Ty::Option(a), Ty::Option(b)) => *a == *b,
        (Ty::Tuple(a), Ty::Tuple(b)) => are_same(a.as_slice(), b.as_slice()),
        (Ty::Flags(a), Ty::Flags(b)) => are_same(a.as_slice(), b.as_slice()),
        (Ty::Enum(a), Ty::Enum(b)) => are_same(a.as_slice(), b.as_slice()),
        (Ty::Result { ok: a, error: c }, Ty::Result { ok: b, error: d }) => *a == *b && *c == *d,
        _ => false,
    }
}

fn is_same_function(some: &RawFunction, other: &RawFunction) -> bool
    ensures { Decides result (raw_function_view some.now ≡ raw_function_view other.now) }
{
    are_same(some.params.as_slice(), other.params.as_slice()) && some.result == other.result
}

#[cycle(same)]
#[tactic(auto, unfolding(ctype_format::specs::View::type_view), using(ctype_format::proofs::ScopedTypeViews::views))]
fn is_same_type(some: &RawType, other: &RawType) -> bool
    ensures { Decides result (type_view some.now ≡ type_view other.now) }
{
    match some {
        RawType::Defined(some) => match other {
            RawType::Defined(other) => is_same_defined(some, other),
            RawType::Function(_) | RawType::Component(_) | RawType::Instance(_) => false,
        },
        RawType::Function(some) => match other {
            RawType::Function(other) => is_same_function(some, other),
            RawType::Defined(_) | RawType::Component(_) | RawType::Instance(_) => false,
        },
        RawType::Component(some) => match other {
            RawType::Component(other) => are_same_decls(some.as_slice(), other.as_slice()),
            RawType::Defined(_) | RawType::Function(_) | RawType::Instance(_) => false,
        },
        RawType::Instance(some) => match other {
            RawType::Instance(other) => are_same_decls(some.as_slice(), other.as_slice()),
            RawType::Defined(_) | RawType::Function(_) | RawType::Component(_) => false,
        },
    }
}

#[cycle(same)]
#[tactic(auto, unfolding(ctype_format::specs::View::decl_view))]
fn is_same_decl(some: &RawDecl, other: &RawDecl) -> bool
    ensures { Decides result (decl_view some.now ≡ decl_view other.now) }
{
    match (some, other) {
        (RawDecl::Type(a), RawDecl::Type(b)) => is_same_type(a, b),
        (RawDecl::Alias(a), RawDecl::Alias(b)) => is_same_alias(a, b),
        (RawDecl::Import(a, c), RawDecl::Import(b, d)) => is_same_name(a, b) && *c == *d,
        (RawDecl::Export(a, c), RawDecl::Export(b, d)) => is_same_name(a, b) && *c == *d,
        _ => false,
    }
}

/// Whether two slices have the same declarations.
#[cycle(same)]
pub fn are_same_decls(some: &[RawDecl], others: &[RawDecl]) -> bool
    ensures { Decides result (map decl_view some.now ≡ map decl_view others.now) }
{
    if some.len() != others.len() {
        return false;
    }
    for (place, decl) in some.iter().enumerate() {
        if !is_same_decl(decl, &others[place]) {
            return false;
        }
    }
    true
}
