//! What nodes declare, use and open.
use wit_names::{Kind, ScopeKind, TypeKind, Wanted};
use wit_tree::NodeKind;

/// What a type with a name is, if a node of this kind is one.
fn type_kind(kind: NodeKind) -> Option<TypeKind> {
    match kind {
        NodeKind::Alias => Some(TypeKind::Alias),
        NodeKind::Record => Some(TypeKind::Record),
        NodeKind::Variant => Some(TypeKind::Variant),
        NodeKind::Enum => Some(TypeKind::Enum),
        NodeKind::Flags => Some(TypeKind::Flags),
        NodeKind::Resource => Some(TypeKind::Resource),
        _ => None,
    }
}

/// What the name that stands in a node of this kind is declared as, if it is.
pub(crate) fn declared_in(kind: NodeKind) -> Option<Kind> {
    match kind {
        NodeKind::Interface => Some(Kind::Interface),
        NodeKind::World => Some(Kind::World),
        NodeKind::Function => Some(Kind::Function),
        NodeKind::Field => Some(Kind::Field),
        NodeKind::Case => Some(Kind::Case),
        NodeKind::Label => Some(Kind::Label),
        NodeKind::Parameter => Some(Kind::Parameter),
        NodeKind::Import => Some(Kind::Import),
        NodeKind::Export => Some(Kind::Export),
        NodeKind::UsedName => Some(Kind::UsedType),
        NodeKind::TopUse => Some(Kind::UsedItem),
        NodeKind::Renaming => Some(Kind::Included),
        _ => Some(Kind::Type(type_kind(kind)?)),
    }
}

/// What a path in a node of this kind leads to, if it is one.
pub(crate) fn wanted_in(kind: NodeKind) -> Option<Wanted> {
    match kind {
        NodeKind::Use | NodeKind::Import | NodeKind::Export => Some(Wanted::Interface),
        NodeKind::Include => Some(Wanted::World),
        NodeKind::TopUse => Some(Wanted::InterfaceOrWorld),
        _ => None,
    }
}

/// The scope that a node of this kind opens, if it does.
pub(crate) fn opened_by(kind: NodeKind) -> Option<ScopeKind> {
    match kind {
        NodeKind::File | NodeKind::NestedPackage => Some(ScopeKind::File),
        NodeKind::Interface => Some(ScopeKind::Interface),
        NodeKind::World => Some(ScopeKind::World),
        NodeKind::InlineInterface => Some(ScopeKind::InlineInterface),
        NodeKind::Resource => Some(ScopeKind::Resource),
        NodeKind::Record
        | NodeKind::Variant
        | NodeKind::Enum
        | NodeKind::Flags
        | NodeKind::Parameters
        | NodeKind::NamedResults => Some(ScopeKind::Members),
        _ => None,
    }
}
