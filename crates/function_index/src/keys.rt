//! The key of the names in an index.
use atoms::{KeyedState, NameKey};
use tables::{Definition, Interface, PackageName, Resolve};

fn write_packages(key: &mut NameKey, packages: &[PackageName]) {
    for package in packages {
        key.write(package.namespace.as_bytes());
        key.write(package.name.as_bytes());
        if let Some(version) = &package.version {
            key.write(version.as_bytes());
        }
    }
}

fn write_interfaces(key: &mut NameKey, interfaces: &[Interface]) {
    for interface in interfaces {
        key.write(interface.name.as_bytes());
    }
}

fn write_functions(key: &mut NameKey, definitions: &[Definition]) {
    for definition in definitions {
        if let Definition::Function(function) = definition {
            key.write(function.name.as_bytes());
        }
    }
}

/// Hashers of names, with a key made of all parts of full names of a table's interfaces, and of its functions' names.
pub fn keyed_by_functions(table: &Resolve) -> KeyedState {
    let mut key = NameKey::new();
    write_packages(&mut key, table.packages.as_slice());
    write_interfaces(&mut key, table.interfaces.as_slice());
    write_functions(&mut key, table.definitions.as_slice());
    key.state()
}
