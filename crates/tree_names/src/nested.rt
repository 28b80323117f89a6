//! How deep types are nested. No recursion here is deeper than the limit.
ghost use Rattle.std.specs.Prelude.{◌≡◌, nat_le, map};
ghost use Rattle.std.specs.List.{list_all};
ghost use Rattle.wit_tokens.specs.Syntax.{depth_all, depth_maybe, tys_of, ty_depth};
ghost use Rattle.wit_tokens.specs.View.{ty_view, inner_view, maybe_view, optional_view, field_view, case_view, definition_view};
ghost use Rattle.wit_tokens.specs.View.{function_view, entry_view, world_entry_view, item_view};
ghost use Rattle.tree_meaning.specs.Resolves.{fits_if, member_fits, case_fits, body_fits, signature_fits, entry_fits};
ghost use Rattle.tree_meaning.specs.Resolves.{world_entry_fits, interface_fits};

use wit_tokens::wit_syntax::{
    Case, Field, FuncType, InnerType, InterfaceItem, Item, ResultType, TypeDefKind, TypeExpression,
    WorldItem, WorldItemKind,
};

/// The deepest that a type is nested, a type by itself being 1.
const MAX_NESTING: usize = 64;

/// Whether a type is nested at most so deep.
#[cycle(nested)]
fn is_within(limit: usize, ty: &TypeExpression) -> bool
    ensures { result ≡ nat_le (ty_depth (ty_view ty.now)) limit }
{
    if limit == 0 {
        return false;
    }
    match ty {
        TypeExpression::Primitive(_) | TypeExpression::Named(_) => true,
        TypeExpression::List(ty) | TypeExpression::Option(ty) => is_inner_within(limit - 1, ty),
        TypeExpression::Tuple(types) => are_within(limit - 1, types),
        TypeExpression::Result { ok, error } => {
            is_maybe_within(limit - 1, ok) && is_maybe_within(limit - 1, error)
        }
    }
}

#[cycle(nested)]
fn is_inner_within(limit: usize, ty: &InnerType) -> bool
    ensures { result ≡ nat_le (ty_depth (inner_view ty.now)) limit }
{
    match ty {
        InnerType::Plain(_) => limit != 0,
        InnerType::Boxed(ty) => is_within(limit, ty),
    }
}

#[cycle(nested)]
fn is_maybe_within(limit: usize, ty: &ResultType) -> bool
    ensures { result ≡ nat_le (depth_maybe (maybe_view ty.now)) limit }
{
    match ty {
        ResultType::Absent => true,
        ResultType::Simple(_) => limit != 0,
        ResultType::Other(ty) => is_within(limit, ty),
    }
}

#[cycle(nested)]
fn are_within(limit: usize, types: &Vec<TypeExpression>) -> bool
    ensures { result ≡ nat_le (depth_all (tys_of (map ty_view types.now.items))) limit }
{
    for ty in types {
        if !is_within(limit, ty) {
            return false;
        }
    }
    true
}

fn is_optional_nested(ty: &Option<TypeExpression>) -> bool
    ensures { result ≡ fits_if (optional_view ty.now) }
{
    match ty {
        Some(ty) => is_within(MAX_NESTING, ty),
        None => true,
    }
}

fn are_fields_nested(fields: &[Field]) -> bool
    ensures { result ≡ list_all member_fits (map field_view fields.now) }
{
    for field in fields {
        if !is_within(MAX_NESTING, &field.ty) {
            return false;
        }
    }
    true
}

fn are_cases_nested(cases: &[Case]) -> bool
    ensures { result ≡ list_all case_fits (map case_view cases.now) }
{
    for case in cases {
        if !is_optional_nested(&case.payload) {
            return false;
        }
    }
    true
}

fn is_definition_nested(kind: &TypeDefKind) -> bool
    ensures { result ≡ body_fits (definition_view kind.now) }
{
    match kind {
        TypeDefKind::Alias(ty) => is_within(MAX_NESTING, ty),
        TypeDefKind::Record(fields) => are_fields_nested(fields),
        TypeDefKind::Variant(cases) => are_cases_nested(cases),
        TypeDefKind::Enum(_) | TypeDefKind::Flags(_) => true,
    }
}

fn is_function_nested(ty: &FuncType) -> bool
    ensures { result ≡ signature_fits (function_view ty.now) }
{
    are_fields_nested(&ty.params) && is_optional_nested(&ty.result)
}

fn is_item_nested(item: &InterfaceItem) -> bool
    ensures { result ≡ entry_fits (entry_view item.now) }
{
    match item {
        InterfaceItem::Use(_) => true,
        InterfaceItem::TypeDef(definition) => is_definition_nested(&definition.kind),
        InterfaceItem::Func(function) => is_function_nested(&function.ty),
    }
}

fn are_items_nested(items: &[InterfaceItem]) -> bool
    ensures { result ≡ list_all entry_fits (map entry_view items.now) }
{
    for item in items {
        if !is_item_nested(item) {
            return false;
        }
    }
    true
}

fn is_world_item_nested(item: &WorldItem) -> bool
    ensures { result ≡ world_entry_fits (world_entry_view item.now) }
{
    match &item.kind {
        WorldItemKind::Interface(_) => true,
        WorldItemKind::Func(function) => is_function_nested(&function.ty),
    }
}

fn are_world_items_nested(items: &[WorldItem]) -> bool
    ensures { result ≡ list_all world_entry_fits (map world_entry_view items.now) }
{
    for item in items {
        if !is_world_item_nested(item) {
            return false;
        }
    }
    true
}

fn is_entry_nested(item: &Item) -> bool
    ensures { result ≡ interface_fits (item_view item.now) }
{
    match item {
        Item::Interface(interface) => are_items_nested(&interface.items),
        Item::World(world) => are_world_items_nested(&world.items),
    }
}

/// Whether the types of these interfaces and worlds are nested no deeper than the limit.
pub fn are_nested(items: &[Item]) -> bool
    ensures { result ≡ list_all interface_fits (map item_view items.now) }
{
    for item in items {
        if !is_entry_nested(item) {
            return false;
        }
    }
    true
}
