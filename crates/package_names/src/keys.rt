//! The key of a table's names.
use crate::scope::FEW;
use atoms::{KeyedState, Label, NameKey};
use tables::{
    Case, Definition, Field, Interface, InterfaceId, Owner, PackageName, Parameter, Resolve,
    TypeDefKind, World,
};

/// How many names an interface lists, if a number can tell it.
pub fn count_of_names(interface: &Interface) -> usize {
    interface
        .uses
        .len()
        .saturating_add(interface.types.len())
        .saturating_add(interface.functions.len())
}

fn write_labels(key: &mut NameKey, labels: &[Label]) {
    if labels.len() > FEW {
        for label in labels {
            key.write(label.as_bytes());
        }
    }
}

fn write_fields(key: &mut NameKey, fields: &[Field]) {
    if fields.len() > FEW {
        for field in fields {
            key.write(field.name.as_bytes());
        }
    }
}

fn write_cases(key: &mut NameKey, cases: &[Case]) {
    if cases.len() > FEW {
        for case in cases {
            key.write(case.name.as_bytes());
        }
    }
}

fn write_parameters(key: &mut NameKey, params: &[Parameter]) {
    if params.len() > FEW {
        for param in params {
            key.write(param.name.as_bytes());
        }
    }
}

fn write_parts(key: &mut NameKey, kind: &TypeDefKind) {
    match kind {
        TypeDefKind::Record(fields) => write_fields(key, fields.as_slice()),
        TypeDefKind::Variant(cases) => write_cases(key, cases.as_slice()),
        TypeDefKind::Enum(labels) | TypeDefKind::Flags(labels) => {
            write_labels(key, labels.as_slice());
        }
        TypeDefKind::Use(_)
        | TypeDefKind::Alias(_)
        | TypeDefKind::List(_)
        | TypeDefKind::Option(_)
        | TypeDefKind::Result(_, _)
        | TypeDefKind::Tuple(_) => {}
    }
}

/// Whether the names of an interface's rows are so many that they stand in a scope's table.
fn has_table(interfaces: &[Interface], id: InterfaceId) -> bool {
    match interfaces.get(id.0 as usize) {
        Some(interface) => count_of_names(interface) > FEW,
        None => false,
    }
}

/// Writes the name of a type or a function that may stand in a table.
fn write_name(key: &mut NameKey, interfaces: &[Interface], owner: Owner, name: &Label) {
    let in_table = match owner {
        Owner::Interface(id) => has_table(interfaces, id),
        Owner::World(_) => true,
    };
    if in_table {
        key.write(name.as_bytes());
    }
}

/// Writes the name of a row, if it has one, and those of its members.
fn write_row(key: &mut NameKey, interfaces: &[Interface], row: &Definition) {
    match row {
        Definition::Type(definition) => {
            if let Some(name) = &definition.name {
                write_name(
                    key,
                    interfaces,
                    Owner::Interface(name.interface),
                    &name.name,
                );
            }
            write_parts(key, &definition.kind);
        }
        Definition::Function(function) => {
            write_name(key, interfaces, function.owner, &function.name);
            write_parameters(key, function.params.as_slice());
        }
    }
}

fn write_packages(key: &mut NameKey, packages: &[PackageName]) {
    for package in packages {
        key.write(package.namespace.as_bytes());
        key.write(package.name.as_bytes());
    }
}

fn write_interfaces(key: &mut NameKey, interfaces: &[Interface]) {
    for interface in interfaces {
        key.write(interface.name.as_bytes());
    }
}

fn write_worlds(key: &mut NameKey, worlds: &[World]) {
    for world in worlds {
        key.write(world.name.as_bytes());
    }
}

/// Hashers of names, with a key made of all names in the scopes of a table but for members and rows of an interface so
/// few that none stands in a scope's table.
pub fn keyed_by_table(resolve: &Resolve) -> KeyedState {
    let mut key = NameKey::new();
    write_packages(&mut key, resolve.packages.as_slice());
    let interfaces = resolve.interfaces.as_slice();
    write_interfaces(&mut key, interfaces);
    write_worlds(&mut key, resolve.worlds.as_slice());
    for row in resolve.definitions.as_slice() {
        write_row(&mut key, interfaces, row);
    }
    key.state()
}

/// Hashers of names, with a key made of the names of these interfaces.
pub fn keyed_by_interfaces(interfaces: &[Interface]) -> KeyedState {
    let mut key = NameKey::new();
    write_interfaces(&mut key, interfaces);
    key.state()
}
