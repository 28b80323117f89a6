//! The key of a syntax tree's names.
use atoms::{KeyedState, Label, NameKey};
use package_names::FEW;
use tables::{Definition, Resolve};
use tree_scopes::{interface_label, local_name};
use wit_tokens::wit_syntax::{
    Ast, Case, Field, InterfaceItem, Item, PackageId, TypeDefKind, UsedName, WorldItem,
    WorldItemKind,
};

fn write_labels(key: &mut NameKey, labels: &[Label]) {
    if labels.len() > FEW {
        for label in labels {
            key.write(label.as_bytes());
        }
    }
}

fn write_fields(key: &mut NameKey, fields: &[Field]) {
    if fields.len() > FEW {
        for field in fields {
            key.write(field.name.as_bytes());
        }
    }
}

fn write_cases(key: &mut NameKey, cases: &[Case]) {
    if cases.len() > FEW {
        for case in cases {
            key.write(case.name.as_bytes());
        }
    }
}

fn write_used(key: &mut NameKey, names: &[UsedName]) {
    for name in names {
        key.write(local_name(name).as_bytes());
    }
}

fn write_parts(key: &mut NameKey, kind: &TypeDefKind) {
    match kind {
        TypeDefKind::Alias(_) => {}
        TypeDefKind::Record(fields) => write_fields(key, fields),
        TypeDefKind::Variant(cases) => write_cases(key, cases),
        TypeDefKind::Enum(labels) | TypeDefKind::Flags(labels) => write_labels(key, labels),
    }
}

/// How many names items define.
fn name_count(items: &[InterfaceItem]) -> usize {
    let mut count: usize = 0;
    for item in items {
        let names = match item {
            InterfaceItem::Use(used) => used.names.len(),
            InterfaceItem::TypeDef(_) | InterfaceItem::Func(_) => 1,
        };
        count = count.saturating_add(names);
    }
    count
}

/// Writes the names that an item defines.
fn write_item(key: &mut NameKey, item: &InterfaceItem) {
    match item {
        InterfaceItem::Use(used) => write_used(key, &used.names),
        InterfaceItem::TypeDef(definition) => key.write(definition.name.as_bytes()),
        InterfaceItem::Func(function) => key.write(function.name.as_bytes()),
    }
}

/// Writes the names of an item's members.
fn write_members(key: &mut NameKey, item: &InterfaceItem) {
    match item {
        InterfaceItem::Use(_) => {}
        InterfaceItem::TypeDef(definition) => write_parts(key, &definition.kind),
        InterfaceItem::Func(function) => write_fields(key, &function.ty.params),
    }
}

/// Writes the names that items define, where they are more than a few, and those of their members.
fn write_items(key: &mut NameKey, items: &[InterfaceItem]) {
    let is_table = name_count(items) > FEW;
    for item in items {
        if is_table {
            write_item(key, item);
        }
        write_members(key, item);
    }
}

/// Writes the names that stand in a world, an interface's without its package.
fn write_world_items(key: &mut NameKey, items: &[WorldItem]) {
    for item in items {
        match &item.kind {
            WorldItemKind::Interface(path) => key.write(interface_label(path).as_bytes()),
            WorldItemKind::Func(function) => {
                key.write(function.name.as_bytes());
                write_fields(key, &function.ty.params);
            }
        }
    }
}

fn write_package(key: &mut NameKey, id: &PackageId) {
    key.write(id.namespace.as_bytes());
    key.write(id.name.as_bytes());
}

/// Writes the name of an interface or a world, and those that stand in it.
fn write_entry(key: &mut NameKey, item: &Item) {
    match item {
        Item::Interface(interface) => {
            key.write(interface.name.as_bytes());
            write_items(key, &interface.items);
        }
        Item::World(world) => {
            key.write(world.name.as_bytes());
            write_world_items(key, &world.items);
        }
    }
}

/// Writes the names of the types of imports.
fn write_imports(key: &mut NameKey, rows: &[Definition]) {
    for row in rows {
        if let Definition::Type(definition) = row {
            if let Some(name) = &definition.name {
                key.write(name.name.as_bytes());
            }
        }
    }
}

/// Hashers of names, with a key made of all names in the scopes of a tree and of its imports but for those of scopes
/// with so few that none stands in a table.
pub fn keyed_by_tree(ast: &Ast, imports: &Resolve) -> KeyedState {
    let mut key = NameKey::new();
    write_package(&mut key, &ast.package);
    for item in &ast.items {
        write_entry(&mut key, item);
    }
    write_imports(&mut key, imports.definitions.as_slice());
    key.state()
}
