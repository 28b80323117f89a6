//! The key of the names of the types that a component type exports.
use atoms::{KeyedState, NameKey};
use ctype_bin::{ExternName, RawDecl, RawDescription, RawType};

fn write_types(key: &mut NameKey, decls: &[RawDecl]) {
    for decl in decls {
        if let RawDecl::Export(ExternName::Label(name), RawDescription::TypeEqual(_)) = decl {
            key.write(name.as_bytes());
        }
    }
}

/// Hashers of names, with a key made of the labels of all types that the instance types among these declarations
/// export.
pub fn keyed_by_exports(decls: &[RawDecl]) -> KeyedState {
    let mut key = NameKey::new();
    for decl in decls {
        if let RawDecl::Type(RawType::Instance(own)) = decl {
            write_types(&mut key, own);
        }
    }
    key.state()
}
