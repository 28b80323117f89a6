//! Names as they are told, and the full names of a package's interfaces.
ghost use Rattle.std.specs.Prelude.{◌≡◌, option_map, string_bytes, IfOk};
ghost use Rattle.tables.specs.PackageNames.{own_name};

use crate::tables::PackageName;
use atoms::Label;
use std::alloc::{AllocError, Global};
use std::fmt;
use std::marker::Model;

/// A name as it is told: a label, or a full name.
#[derive(Debug, Drop)]
pub struct Name {
    text: String,
}

impl Model for Name {
    ghost use Rattle.std.specs.Prelude.{List, ℕ, string_bytes};

    ghost Value = { List ℕ };

    ghost view = { λ n. string_bytes n.text };
}

impl Name {
    /// The name of this text.
    pub fn new(text: String) -> Name
        ensures { result ≡ string_bytes text }
    {
        Name { text }
    }

    /// A label as it is told.
    pub fn of(alloc: Global, label: &Label) -> Result<Name, AllocError>
        ensures { IfOk result (λ n. n ≡ label.now) }
    {
        Ok(Name::new(String::from_str(alloc, label.as_str())?))
    }

    /// The name's text.
    pub fn as_str(&self) -> &str
        ensures { result.now ≡ self.now }
    {
        self.text.as_str()
    }
}

impl PackageName {
    /// The full name of this name in the package: `namespace:package/name`, and `@version` where there is one.
    pub fn full_name(&self, alloc: Global, name: &Label) -> Result<Name, AllocError>
        ensures { IfOk result (λ n. n ≡ own_name self.now name.now) }
    {
        let mut text = String::from_str(alloc, self.namespace.as_str())?;
        text.push(':')?;
        text.push_str(self.name.as_str())?;
        text.push('/')?;
        text.push_str(name.as_str())?;
        if let Some(version) = &self.version {
            text.push('@')?;
            text.push_str(version.as_str())?;
        }
        Ok(Name::new(text))
    }
}

/// A copy of a version, if there is one.
pub fn copy_version(version: &Option<String>) -> Result<Option<String>, AllocError>
    ensures { IfOk result (λ copy. option_map string_bytes copy ≡ option_map string_bytes version.now) }
{
    match version {
        Some(version) => Ok(Some(version.clone()?)),
        None => Ok(None),
    }
}

impl fmt::Display for PackageName {
    fn fmt<W: fmt::Write>(&self, f: &mut fmt::Formatter<W>) -> fmt::Result {
        let namespace = self.namespace.as_str();
        let name = self.name.as_str();
        match &self.version {
            Some(version) => write!(f, "{namespace}:{name}@{version}"),
            None => write!(f, "{namespace}:{name}"),
        }
    }
}
