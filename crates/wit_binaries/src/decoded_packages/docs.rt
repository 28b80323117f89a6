//! The names that comments of a package are of.

use component_decoding::{DecodeError, Docs, Fault, Structure};
use serde_json::Value;
use std::alloc::{AllocError, Global};
use std::collections::BTreeSet;

/// The names of what a file exports.
fn exported(alloc: Global, structure: &Structure) -> Result<BTreeSet<String>, AllocError> {
    let mut names = BTreeSet::new(alloc);
    for item in &structure.exports {
        names.insert(String::from_str(alloc, item.name.as_str())?)?;
    }
    Ok(names)
}

/// Whether the members of a kind are all of exported names. There may be no members.
fn are_known(docs: &Value, kind: &str, exported: &BTreeSet<String>) -> bool {
    match docs.get(kind) {
        None => true,
        Some(members) => match members.as_object() {
            Some(members) => members.keys().all(|name| exported.contains(name)),
            None => false,
        },
    }
}

/// Refuses comments that are no object of JSON, or are of interfaces or worlds that the file does not export.
pub fn check_docs(alloc: Global, structure: &Structure, docs: &Docs) -> Result<(), DecodeError> {
    let value = match Value::from_slice(alloc, docs.json.as_slice()) {
        Ok(value) => value,
        Err(error) if error.is_memory() => return Err(DecodeError::NoMemory),
        Err(_) => return Err(DecodeError::At(Fault::BadDocs, docs.place)),
    };
    let names = exported(alloc, structure)?;
    if value.is_object()
        && are_known(&value, "interfaces", &names)
        && are_known(&value, "worlds", &names)
    {
        return Ok(());
    }
    Err(DecodeError::At(Fault::BadDocs, docs.place))
}
